//! The legend of an SVG picture.

ghost use Rattle.std.specs.Prelude.{◌≡◌, ◌≤◌, ◌++◌, IfOk, OnOk, string_bytes};
ghost use Rattle.pictures.specs.Svg.{colour_name, svg_about_keys, svg_bold_key, svg_colour_key, svg_colour_keys, svg_legend, svg_line_keys, svg_name, svg_swatch};

use crate::shown::Shown;
use crate::styles::{Colour, hex_word};
use std::alloc::{AllocError, Global};

/// What a colour is called.
fn name_of(colour: Colour) -> &'static str
    ensures { result.now ≡ colour_name colour }
{
    match colour {
        Colour::Destination => "destination",
        Colour::Allowed => "allowed",
        Colour::Restricted => "restricted",
        Colour::Prohibited => "prohibited",
        Colour::White => "no row",
    }
}

/// Adds what the lines mean.
#[tactic(auto, unfolding(crate::specs::Svg::svg_line_keys))]
fn put_line_keys(text: &mut String) -> Result<(), AllocError>
    ensures { OnOk result (string_bytes text.new ≡ string_bytes text.old ++ svg_line_keys) }
{
    text.push_str(
        "<g class='key'>\n<path d='M 20 44 H 60'/><text x='68' y='48'>all links available</text>\n<path class='dashed' d='M 190 44 H 230'/><text x='238' y='48'>some available</text>\n<path class='grey' d='M 340 44 H 380'/><text x='388' y='48'>none available</text>\n",
    )
}

/// Adds what a bold line and its label mean.
#[tactic(auto, unfolding(crate::specs::Svg::svg_bold_key))]
fn put_bold_key(text: &mut String) -> Result<(), AllocError>
    ensures { OnOk result (string_bytes text.new ≡ string_bytes text.old ++ svg_bold_key) }
{
    text.push_str(
        "<path class='bold' d='M 490 44 H 530'/><path class='head' d='M 506 38 L 518 44 L 506 50 z'/><text x='538' y='48'>the point named leads so many of the sixteen signalling link selections this way</text>\n",
    )
}

/// A box of a colour, so far to the right.
fn write_swatch(alloc: Global, x: u16, colour: Colour) -> Result<String, AllocError>
    ensures { IfOk result (λ text. string_bytes text ≡ svg_swatch x colour) }
{
    let hex = hex_word(colour);
    let text = format!(in alloc; "<rect x='{x}' y='60' width='24' height='14' fill='{hex}'/>")?;
    Ok(text)
}

/// The name of a colour, so far to the right.
fn write_name(alloc: Global, x: u16, colour: Colour) -> Result<String, AllocError>
    ensures { IfOk result (λ text. string_bytes text ≡ svg_name x colour) }
{
    let name = name_of(colour);
    let text = format!(in alloc; "<text x='{x}' y='71'>{name}</text>\n")?;
    Ok(text)
}

/// Adds what a colour means, so far to the right.
fn put_colour_key(
    alloc: Global,
    text: &mut String,
    x: u16,
    colour: Colour,
) -> Result<(), AllocError>
    requires { x ≤ 1000 }
    ensures { OnOk result (string_bytes text.new ≡ string_bytes text.old ++ svg_colour_key x colour) }
{
    let swatch = write_swatch(alloc, x, colour)?;
    text.push_str(swatch.as_str())?;
    let name = write_name(alloc, x + 32, colour)?;
    text.push_str(name.as_str())
}

/// Adds what the colours mean.
fn put_colour_keys(alloc: Global, text: &mut String) -> Result<(), AllocError>
    ensures { OnOk result (string_bytes text.new ≡ string_bytes text.old ++ svg_colour_keys) }
{
    put_colour_key(alloc, text, 20, Colour::Destination)?;
    put_colour_key(alloc, text, 140, Colour::Allowed)?;
    put_colour_key(alloc, text, 260, Colour::Restricted)?;
    put_colour_key(alloc, text, 380, Colour::Prohibited)?;
    put_colour_key(alloc, text, 500, Colour::White)
}

/// Adds what is told of a destination.
fn put_about_keys(alloc: Global, text: &mut String) -> Result<(), AllocError>
    ensures { OnOk result (string_bytes text.new ≡ string_bytes text.old ++ svg_about_keys) }
{
    put_bold_key(text)?;
    put_colour_keys(alloc, text)
}

/// Adds the legend.
pub(crate) fn put_legend(alloc: Global, text: &mut String, shown: &Shown) -> Result<(), AllocError>
    ensures { OnOk result (string_bytes text.new ≡ string_bytes text.old ++ svg_legend shown.now) }
{
    put_line_keys(text)?;
    if shown.is_about() {
        put_about_keys(alloc, text)?;
    }
    text.push_str("</g>\n")
}
