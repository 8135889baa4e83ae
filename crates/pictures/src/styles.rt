//! How a link set is drawn, and the colours.

ghost use Rattle.std.specs.Prelude.{◌≡◌};
ghost use Rattle.std.specs.List.{list_all};
ghost use Rattle.net_items.specs.Links.{link_available};
ghost use Rattle.pictures.specs.Shown.{style_of as the_style, far_colour, hex_text};

use link_sets::set_available;
use net_items::{Link, LinkSet};
use route_choice::Far;

/// How a link set is drawn (own, after Q.704 clause 3.2).
#[derive(Clone, Copy)]
pub(crate) enum Style {
    /// All its links are available.
    Plain,
    /// Some of its links are available.
    Dashed,
    /// None of its links is available.
    Grey,
}

/// The colour of a point towards a destination.
#[derive(Clone, Copy)]
pub(crate) enum Colour {
    /// The destination itself.
    Destination,
    /// The point transfers traffic to the destination (Q.704 clause 13.3).
    Allowed,
    /// It does, and other ways are preferred if there are any (Q.704 clause 13.4).
    Restricted,
    /// It transfers none (Q.704 clause 13.2).
    Prohibited,
    /// The point has no row, or no destination is asked about.
    White,
}

/// Whether all links are available.
fn are_available(links: &[Link]) -> bool
    ensures { result ≡ list_all link_available links.now }
{
    links.iter().all(|link| link.marks.available())
}

/// How a set is drawn.
pub(crate) fn style_of(set: &LinkSet) -> Style
    ensures { result ≡ the_style set.now }
{
    let links = set.links.listed();
    if are_available(links.as_slice()) {
        Style::Plain
    } else if set_available(set) {
        Style::Dashed
    } else {
        Style::Grey
    }
}

/// The colour of a status.
pub(crate) fn colour_of(far: Far) -> Colour
    ensures { result ≡ far_colour far }
{
    match far {
        Far::Allowed => Colour::Allowed,
        Far::Restricted => Colour::Restricted,
        Far::Prohibited => Colour::Prohibited,
    }
}

/// A colour in red, green and blue. They can be told apart by colour-blind people, and in print by their lightness.
#[tactic(auto, unfolding(crate::specs::Shown::hex_text))]
pub(crate) fn hex_word(colour: Colour) -> &'static str
    ensures { result.now ≡ hex_text colour }
{
    match colour {
        Colour::Destination => "#56b4e9",
        Colour::Allowed => "#b5e3cb",
        Colour::Restricted => "#eda93b",
        Colour::Prohibited => "#d55e00",
        Colour::White => "#ffffff",
    }
}
