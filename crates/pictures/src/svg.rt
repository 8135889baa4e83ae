//! A picture as an SVG document.

ghost use Rattle.std.specs.Prelude.{◌≡◌, ◌≤◌, ◌++◌, false, IfOk, IfErr, OnOk, length, string_bytes};
ghost use Rattle.std.specs.List.{flat_map};
ghost use Rattle.pictures.specs.Labels.{label_area as area_of, placed_sets};
ghost use Rattle.pictures.specs.Shown.{drawn_points as drawn_points_of, drawn_sets as drawn_sets_of, lacks_plan, picture_fault};
ghost use Rattle.pictures.specs.Svg.{svg_at, svg_back, svg_begin, svg_body, svg_bold, svg_class, svg_drawing, svg_ground, svg_label, svg_of, svg_path, svg_placed, svg_point, svg_set, svg_shape, svg_shown, svg_style, svg_text, svg_there, svg_words};
ghost use Rattle.pictures.specs.Title.{title_text};

use crate::curves::Curve;
use crate::drawn::{DrawnPoint, DrawnSet, drawn_points, drawn_sets, is_bold, write_label};
use crate::faults::PictureFault;
use crate::frame::{Canvas, Frame};
use crate::keys::put_legend;
use crate::labels::{Area, Label, PlacedSet, label_area, place_sets};
use crate::page::write_head;
use crate::places::{Place, Spot, places_of, spot_at};
use crate::shown::Shown;
use crate::stands::{Stand, stands_of};
use crate::styles::{Colour, Style, hex_word};
use crate::title::write_title;
use excerpts::Frozen;
use net_data::Net;
use net_items::{Kind, Point};
use point_codes::PointCode;
use std::alloc::{AllocError, Global};

/// How a set is drawn, by the rules of the document's style.
fn style_word(style: Style) -> &'static str
    ensures { result.now ≡ svg_style style }
{
    match style {
        Style::Plain => "plain",
        Style::Dashed => "dashed",
        Style::Grey => "grey",
    }
}

/// That a set is bold.
fn bold_word(bold: bool) -> &'static str
    ensures { result.now ≡ svg_bold bold }
{
    if bold { " bold" } else { "" }
}

/// The arrow of what the first end leads to the second.
fn there_word(share: Option<u64>) -> &'static str
    ensures { result.now ≡ svg_there share }
{
    if share.is_some() {
        " marker-end='url(#there)'"
    } else {
        ""
    }
}

/// The arrow of what the second end leads to the first.
fn back_word(share: Option<u64>) -> &'static str
    ensures { result.now ≡ svg_back share }
{
    if share.is_some() {
        " marker-start='url(#back)'"
    } else {
        ""
    }
}

/// The shape of a point.
fn shape_word(kind: Kind) -> &'static str
    ensures { result.now ≡ svg_shape kind }
{
    match kind {
        Kind::Sep => "<ellipse rx='27' ry='12'",
        Kind::Stp => "<rect x='-30' y='-13' width='60' height='26'",
    }
}

/// How a set is drawn: its style and its arrows.
fn write_class(alloc: Global, set: &DrawnSet) -> Result<String, AllocError>
    ensures { IfOk result (λ text. string_bytes text ≡ svg_class set.now) }
{
    let style = style_word(set.style);
    let bold = bold_word(is_bold(set));
    let there = there_word(set.there);
    let back = back_word(set.back);
    let text = format!(in alloc; "<path class='set {style}{bold}'{there}{back}")?;
    Ok(text)
}

/// The path of a curve.
fn write_path(alloc: Global, curve: &Curve) -> Result<String, AllocError>
    ensures { IfOk result (λ text. string_bytes text ≡ svg_path curve.now) }
{
    let from = curve.from;
    let leaving = curve.leaving;
    let arriving = curve.arriving;
    let to = curve.to;
    let text = format!(in alloc; " d='M {from} C {leaving} {arriving} {to}'/>\n")?;
    Ok(text)
}

/// Adds a set as a curve between the places of its points.
#[tactic(auto, unfolding(crate::specs::Svg::svg_set))]
fn put_set(alloc: Global, text: &mut String, placed: &PlacedSet) -> Result<(), AllocError>
    ensures { OnOk result (string_bytes text.new ≡ string_bytes text.old ++ svg_set placed.now) }
{
    let class = write_class(alloc, &placed.set)?;
    text.push_str(class.as_str())?;
    let path = write_path(alloc, &placed.curve)?;
    text.push_str(path.as_str())
}

/// Adds the sets as curves.
fn put_sets(alloc: Global, text: &mut String, sets: &[PlacedSet]) -> Result<(), AllocError>
    ensures { OnOk result (string_bytes text.new ≡ string_bytes text.old ++ flat_map svg_set sets.now) }
{
    for placed in sets {
        put_set(alloc, text, placed)?;
    }
    Ok(())
}

/// White ground below a label.
#[tactic(auto, unfolding(crate::specs::Svg::svg_ground))]
fn write_ground(alloc: Global, area: &Area) -> Result<String, AllocError>
    ensures { IfOk result (λ text. string_bytes text ≡ svg_ground area.now) }
{
    let left = area.left;
    let top = area.top;
    let width = area.right.saturating_sub(left);
    let height = area.bottom.saturating_sub(top);
    let text = format!(in alloc;
        "<rect class='ground' x='{left}' y='{top}' width='{width}' height='{height}'/>"
    )?;
    Ok(text)
}

/// Where a label stands.
fn write_at(alloc: Global, spot: Spot) -> Result<String, AllocError>
    ensures { IfOk result (λ text. string_bytes text ≡ svg_at spot) }
{
    let x = spot.x;
    let y = spot.y;
    let text = format!(in alloc; "<text class='label' dy='3' x='{x}' y='{y}'>")?;
    Ok(text)
}

/// Adds the ground of a label.
fn put_ground(alloc: Global, text: &mut String, label: &Label) -> Result<(), AllocError>
    ensures { OnOk result (string_bytes text.new ≡ string_bytes text.old ++ svg_ground (area_of label.now)) }
{
    let ground = write_ground(alloc, &label_area(label))?;
    text.push_str(ground.as_str())
}

/// Adds the words of a label.
#[tactic(auto, unfolding(crate::specs::Svg::svg_words))]
fn put_words(alloc: Global, text: &mut String, placed: &PlacedSet) -> Result<(), AllocError>
    ensures { OnOk result (string_bytes text.new ≡ string_bytes text.old ++ svg_words placed.now) }
{
    let at = write_at(alloc, placed.label.spot)?;
    text.push_str(at.as_str())?;
    let label = write_label(alloc, &placed.set)?;
    text.push_str(label.as_str())?;
    text.push_str("</text>\n")
}

/// Adds the label of a set.
#[tactic(auto, unfolding(crate::specs::Svg::svg_label))]
fn put_label(alloc: Global, text: &mut String, placed: &PlacedSet) -> Result<(), AllocError>
    ensures { OnOk result (string_bytes text.new ≡ string_bytes text.old ++ svg_label placed.now) }
{
    put_ground(alloc, text, &placed.label)?;
    put_words(alloc, text, placed)
}

/// Adds the labels of the sets.
fn put_labels(alloc: Global, text: &mut String, sets: &[PlacedSet]) -> Result<(), AllocError>
    ensures { OnOk result (string_bytes text.new ≡ string_bytes text.old ++ flat_map svg_label sets.now) }
{
    for placed in sets {
        put_label(alloc, text, placed)?;
    }
    Ok(())
}

/// A point of that colour at a spot.
fn write_body(
    alloc: Global,
    point: &Point,
    spot: Spot,
    colour: Colour,
) -> Result<String, AllocError>
    ensures { IfOk result (λ text. string_bytes text ≡ svg_body point.now spot colour) }
{
    let shape = shape_word(point.kind);
    let hex = hex_word(colour);
    let code = point.code;
    let text = format!(in alloc;
        "<g transform='translate({spot})'>{shape} fill='{hex}'/><text y='4'>{code}</text></g>\n"
    )?;
    Ok(text)
}

/// A point at its place.
#[tactic(auto, unfolding(crate::specs::Svg::svg_point))]
fn write_point(alloc: Global, places: &[Place], drawn: &DrawnPoint) -> Result<String, AllocError>
    ensures { IfOk result (λ text. string_bytes text ≡ svg_point places.now drawn.now) }
{
    let spot = spot_at(places, drawn.point.code);
    write_body(alloc, &drawn.point, spot, drawn.colour)
}

/// Adds the points.
fn put_points(
    alloc: Global,
    text: &mut String,
    places: &[Place],
    points: &[DrawnPoint],
) -> Result<(), AllocError>
    ensures { OnOk result (string_bytes text.new ≡ string_bytes text.old ++ flat_map (svg_point places.now) points.now) }
{
    for point in points {
        let body = write_point(alloc, places, point)?;
        text.push_str(body.as_str())?;
    }
    Ok(())
}

/// What stands before the sets.
fn write_begin(
    alloc: Global,
    shown: &Shown,
    version: Option<u64>,
    net: &Net,
    canvas: Canvas,
) -> Result<String, AllocError>
    ensures { IfOk result (λ text. string_bytes text ≡ svg_begin canvas (title_text shown.now version net.now) shown.now) }
{
    let title = write_title(alloc, shown, version, net)?;
    let mut text = write_head(alloc, canvas, title.as_str())?;
    put_legend(alloc, &mut text, shown)?;
    Ok(text)
}

/// Adds the sets, their labels and the points.
fn put_drawing(
    alloc: Global,
    text: &mut String,
    places: &[Place],
    points: &[DrawnPoint],
    sets: &[PlacedSet],
) -> Result<(), AllocError>
    ensures { OnOk result (string_bytes text.new ≡ string_bytes text.old ++ svg_drawing places.now points.now sets.now) }
{
    put_sets(alloc, text, sets)?;
    put_labels(alloc, text, sets)?;
    put_points(alloc, text, places, points)?;
    text.push_str("</svg>\n")
}

/// The sets of a network at their places, with what is shown of them.
fn place_shown(
    alloc: Global,
    shown: &Shown,
    net: &Net,
    canvas: Canvas,
    places: &[Place],
) -> Result<Vec<PlacedSet>, AllocError>
    ensures { IfOk result (λ placed. placed.items ≡ placed_sets canvas places.now (drawn_sets_of shown.now net.now)) }
{
    let sets = drawn_sets(alloc, shown, net)?;
    place_sets(alloc, &canvas, places, &sets)
}

/// Adds what is shown of a network on a canvas, at the places of its points.
#[tactic(auto, unfolding(crate::specs::Svg::svg_shown))]
fn put_shown(
    alloc: Global,
    text: &mut String,
    shown: &Shown,
    net: &Net,
    canvas: Canvas,
    places: &[Place],
) -> Result<(), AllocError>
    ensures { OnOk result (string_bytes text.new ≡ string_bytes text.old ++ svg_shown shown.now net.now canvas places.now) }
{
    let points = drawn_points(alloc, shown, net)?;
    let sets = place_shown(alloc, shown, net, canvas, places)?;
    put_drawing(alloc, text, places, &points, &sets)
}

/// The picture of a network whose points stand so.
#[tactic(auto, unfolding(crate::specs::Svg::svg_placed))]
fn write_placed(
    alloc: Global,
    net: &Net,
    shown: &Shown,
    version: Option<u64>,
    stands: &[Stand],
) -> Result<String, AllocError>
    requires { length stands.now ≤ 1024 }
    ensures { IfOk result (λ text. string_bytes text ≡ svg_placed shown.now version net.now stands.now) }
{
    let frame = Frame::of(alloc, stands)?;
    let canvas = frame.canvas();
    let places = places_of(alloc, &frame, stands)?;
    let mut text = write_begin(alloc, shown, version, net, canvas)?;
    put_shown(alloc, &mut text, shown, net, canvas, &places)?;
    Ok(text)
}

/// The picture of a network with what is shown about a destination.
fn write_shown(
    alloc: Global,
    net: &Net,
    shown: &Shown,
    version: Option<u64>,
) -> Result<String, AllocError>
    ensures { IfOk result (λ text. string_bytes text ≡ svg_of shown.now version net.now) }
{
    net.validity();
    let stands = stands_of(alloc, net)?;
    write_placed(alloc, net, shown, version, &stands)
}

/// The picture of a network as an SVG document: with a destination, also how each point leads its traffic there. The title names the
/// destination, and the version of that number if it is one.
///
/// It is refused if the destination has no plan, and, last, if memory is refused.
pub fn write_svg(
    alloc: Global,
    net: &Frozen,
    about: Option<PointCode>,
    version: Option<u64>,
) -> Result<String, PictureFault>
    ensures text { IfOk result (λ text. string_bytes text ≡ svg_text net.now about version) }
    ensures planned { IfOk result (λ _. lacks_plan net.now about ≡ false) }
    ensures fault { IfErr result (λ fault. fault ≡ picture_fault net.now about) }
{
    let shown = Shown::of(alloc, net, about)?;
    match write_shown(alloc, net.net(), &shown, version) {
        Ok(text) => Ok(text),
        Err(_) => Err(PictureFault::OutOfMemory),
    }
}
