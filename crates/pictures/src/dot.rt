//! A picture in the language DOT.

ghost use Rattle.std.specs.Prelude.{◌≡◌, ◌++◌, false, IfOk, IfErr, OnOk, string_bytes};
ghost use Rattle.std.specs.List.{flat_map};
ghost use Rattle.pictures.specs.Dot.{dot_text, dot_of, dot_begin, dot_about, dot_drawing, dot_head, dot_lines, dot_legend, dot_point, dot_pair, dot_set, dot_ends, dot_attributes, dot_way, dot_width, dot_style, shape_text};
ghost use Rattle.pictures.specs.Shown.{picture_fault, lacks_plan};

use crate::drawn::{DrawnPoint, DrawnSet, drawn_points, drawn_sets, is_bold, write_label};
use crate::faults::PictureFault;
use crate::shown::Shown;
use crate::styles::{Style, hex_word};
use crate::title::write_title;
use excerpts::Frozen;
use net_data::Net;
use net_items::{Kind, Point};
use point_codes::PointCode;
use std::alloc::{AllocError, Global};

/// The shape of a point.
fn shape_word(kind: Kind) -> &'static str
    ensures { result.now ≡ shape_text kind }
{
    match kind {
        Kind::Sep => "ellipse",
        Kind::Stp => "box",
    }
}

/// How an edge is drawn.
fn style_word(style: Style) -> &'static str
    ensures { result.now ≡ dot_style style }
{
    match style {
        Style::Plain => "",
        Style::Dashed => ", style=dashed",
        Style::Grey => ", color=\"#999999\"",
    }
}

/// A point as a line.
fn write_point(alloc: Global, drawn: &DrawnPoint) -> Result<String, AllocError>
    ensures { IfOk result (λ text. string_bytes text ≡ dot_point drawn.now) }
{
    let code = drawn.point.code;
    let shape = shape_word(drawn.point.kind);
    let colour = hex_word(drawn.colour);
    let text = format!(in alloc; "  \"{code}\" [shape={shape}, fillcolor=\"{colour}\"];\n")?;
    Ok(text)
}

/// Adds the points.
fn put_points(alloc: Global, text: &mut String, points: &[DrawnPoint]) -> Result<(), AllocError>
    ensures { OnOk result (string_bytes text.new ≡ string_bytes text.old ++ flat_map dot_point points.now) }
{
    for point in points {
        let line = write_point(alloc, point)?;
        text.push_str(line.as_str())?;
    }
    Ok(())
}

/// Adds a mated pair, at the point of the lower code.
fn put_pair(alloc: Global, text: &mut String, point: &Point) -> Result<(), AllocError>
    ensures { OnOk result (string_bytes text.new ≡ string_bytes text.old ++ dot_pair point.now) }
{
    let code = point.code;
    match point.mate {
        Some(mate) if code.number() < mate.number() => {
            let line = format!(in alloc; "  {{ rank=same; \"{code}\"; \"{mate}\" }}\n")?;
            text.push_str(line.as_str())
        }
        _ => Ok(()),
    }
}

/// Adds the mated pairs.
fn put_pairs(alloc: Global, text: &mut String, points: &[Point]) -> Result<(), AllocError>
    ensures { OnOk result (string_bytes text.new ≡ string_bytes text.old ++ flat_map dot_pair points.now) }
{
    for point in points {
        put_pair(alloc, text, point)?;
    }
    Ok(())
}

/// Makes an edge broad.
fn put_width(text: &mut String, bold: bool) -> Result<(), AllocError>
    ensures { OnOk result (string_bytes text.new ≡ string_bytes text.old ++ dot_width bold) }
{
    if bold {
        text.push_str(", penwidth=3")
    } else {
        Ok(())
    }
}

/// The arrows of an edge.
fn way_word(there: Option<u64>, back: Option<u64>) -> &'static str
    ensures { result.now ≡ dot_way there back }
{
    match (there, back) {
        (Some(_), Some(_)) => ", dir=both",
        (Some(_), None) => ", dir=forward",
        (None, Some(_)) => ", dir=back",
        (None, None) => "",
    }
}

/// Adds how the edge of a set is drawn.
fn put_attributes(text: &mut String, set: &DrawnSet) -> Result<(), AllocError>
    ensures { OnOk result (string_bytes text.new ≡ string_bytes text.old ++ dot_attributes set.now) }
{
    text.push_str("\"")?;
    text.push_str(style_word(set.style))?;
    put_width(text, is_bold(set))?;
    text.push_str(way_word(set.there, set.back))?;
    text.push_str("];\n")
}

/// The ends of an edge.
fn write_ends(alloc: Global, a: PointCode, b: PointCode) -> Result<String, AllocError>
    ensures { IfOk result (λ text. string_bytes text ≡ dot_ends a b) }
{
    let text = format!(in alloc; "  \"{a}\" -- \"{b}\" [label=\"")?;
    Ok(text)
}

/// Adds a set.
fn put_set(alloc: Global, text: &mut String, set: &DrawnSet) -> Result<(), AllocError>
    ensures { OnOk result (string_bytes text.new ≡ string_bytes text.old ++ dot_set set.now) }
{
    let ends = write_ends(alloc, set.a, set.b)?;
    text.push_str(ends.as_str())?;
    let label = write_label(alloc, set)?;
    text.push_str(label.as_str())?;
    put_attributes(text, set)
}

/// Adds the sets.
fn put_sets(alloc: Global, text: &mut String, sets: &[DrawnSet]) -> Result<(), AllocError>
    ensures { OnOk result (string_bytes text.new ≡ string_bytes text.old ++ flat_map dot_set sets.now) }
{
    for set in sets {
        put_set(alloc, text, set)?;
    }
    Ok(())
}

/// How the graph begins.
#[tactic(auto, unfolding(crate::specs::Dot::dot_head))]
fn write_head(alloc: Global) -> Result<String, AllocError>
    ensures { IfOk result (λ text. string_bytes text ≡ dot_head) }
{
    String::from_str(
        alloc,
        "graph network {\n  graph [rankdir=LR, nodesep=0.15, ranksep=1.5, fontname=\"Helvetica\", fontsize=11, labelloc=b];\n  node [fontname=\"Helvetica\", fontsize=11, style=filled];\n  edge [fontname=\"Helvetica\", fontsize=9];\n",
    )
}

/// Adds what the lines mean.
#[tactic(auto, unfolding(crate::specs::Dot::dot_lines))]
fn put_lines(text: &mut String) -> Result<(), AllocError>
    ensures { OnOk result (string_bytes text.new ≡ string_bytes text.old ++ dot_lines) }
{
    text.push_str("line: plain, all links available; dashed, some available; grey, none available")
}

/// Adds what bold lines and colours mean.
#[tactic(auto, unfolding(crate::specs::Dot::dot_about))]
fn put_about(text: &mut String) -> Result<(), AllocError>
    ensures { OnOk result (string_bytes text.new ≡ string_bytes text.old ++ dot_about) }
{
    text.push_str(
        "<br/>bold, with an arrow: the point named leads so many of the sixteen signalling link selections this way<br/>destination blue, allowed green, restricted amber, prohibited red, no row white",
    )
}

/// Adds the legend.
fn put_legend(text: &mut String, shown: &Shown) -> Result<(), AllocError>
    ensures { OnOk result (string_bytes text.new ≡ string_bytes text.old ++ dot_legend shown.now) }
{
    put_lines(text)?;
    if shown.is_about() {
        put_about(text)?;
    }
    Ok(())
}

/// What stands before the points: the title and the legend.
fn write_begin(
    alloc: Global,
    shown: &Shown,
    version: Option<u64>,
    net: &Net,
) -> Result<String, AllocError>
    ensures { IfOk result (λ text. string_bytes text ≡ dot_begin shown.now version net.now) }
{
    let title = write_title(alloc, shown, version, net)?;
    let mut text = write_head(alloc)?;
    text.push_str("  label=<")?;
    text.push_str(title.as_str())?;
    text.push_str("<br/>")?;
    put_legend(&mut text, shown)?;
    text.push_str(">;\n")?;
    Ok(text)
}

/// Adds the points, the pairs and the sets.
fn put_drawing(
    alloc: Global,
    text: &mut String,
    drawn: &[DrawnPoint],
    points: &[Point],
    sets: &[DrawnSet],
) -> Result<(), AllocError>
    ensures { OnOk result (string_bytes text.new ≡ string_bytes text.old ++ dot_drawing drawn.now points.now sets.now) }
{
    put_points(alloc, text, drawn)?;
    put_pairs(alloc, text, points)?;
    put_sets(alloc, text, sets)?;
    text.push_str("}\n")
}

/// The picture of a network with what is shown about a destination.
fn write_shown(
    alloc: Global,
    net: &Net,
    shown: &Shown,
    version: Option<u64>,
) -> Result<String, AllocError>
    ensures { IfOk result (λ text. string_bytes text ≡ dot_of shown.now version net.now) }
{
    let points = drawn_points(alloc, shown, net)?;
    let sets = drawn_sets(alloc, shown, net)?;
    let mut text = write_begin(alloc, shown, version, net)?;
    put_drawing(alloc, &mut text, &points, net.points(), &sets)?;
    Ok(text)
}

/// The picture of a network as a DOT text, for Graphviz: with a destination, also how each point leads its traffic there. The title
/// names the destination, and the version of that number if it is one.
///
/// It is refused if the destination has no plan, and, last, if memory is refused.
pub fn write_dot(
    alloc: Global,
    net: &Frozen,
    about: Option<PointCode>,
    version: Option<u64>,
) -> Result<String, PictureFault>
    ensures text { IfOk result (λ text. string_bytes text ≡ dot_text net.now about version) }
    ensures planned { IfOk result (λ _. lacks_plan net.now about ≡ false) }
    ensures fault { IfErr result (λ fault. fault ≡ picture_fault net.now about) }
{
    let shown = Shown::of(alloc, net, about)?;
    match write_shown(alloc, net.net(), &shown, version) {
        Ok(text) => Ok(text),
        Err(_) => Err(PictureFault::OutOfMemory),
    }
}
