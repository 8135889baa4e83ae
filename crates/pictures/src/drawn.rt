//! What a picture draws: each point in its colour, and each set in its style with its shares. The texts are prints of these.

ghost use Rattle.std.specs.Prelude.{◌≡◌, ◌≤◌, ◌++◌, IfOk, OnOk, length, string_bytes};
ghost use Rattle.pictures.specs.Shown.{drawn_point, drawn_points as the_points, drawn_set, drawn_sets as the_sets, is_bold as is_bold_of, label_text, part_text};

use crate::shown::Shown;
use crate::styles::{Colour, Style, style_of};
use net_data::Net;
use net_items::{LinkSet, Point};
use point_codes::PointCode;
use std::alloc::{AllocError, Global};

/// A point in its colour.
#[derive(Clone, Copy)]
pub(crate) struct DrawnPoint {
    /// The point.
    pub(crate) point: Point,
    /// The colour of its status.
    pub(crate) colour: Colour,
}

/// A set in its style, with what its ends lead over it to the destination: how many of the sixteen signalling link selections, if
/// an end leads traffic there.
#[derive(Clone, Copy)]
pub(crate) struct DrawnSet {
    /// Its id.
    pub(crate) id: u16,
    /// Its first end.
    pub(crate) a: PointCode,
    /// Its second end.
    pub(crate) b: PointCode,
    /// Its style.
    pub(crate) style: Style,
    /// What the first end leads over it to the second.
    pub(crate) there: Option<u64>,
    /// What the second end leads over it to the first.
    pub(crate) back: Option<u64>,
}

/// A point in its colour.
fn draw_point(shown: &Shown, point: &Point) -> DrawnPoint
    ensures { result ≡ drawn_point shown.now point.now }
{
    DrawnPoint {
        point: *point,
        colour: shown.colour(point.code),
    }
}

/// All points, in rising code.
pub(crate) fn drawn_points(
    alloc: Global,
    shown: &Shown,
    net: &Net,
) -> Result<Vec<DrawnPoint>, AllocError>
    ensures { IfOk result (λ drawn. drawn.items ≡ the_points shown.now net.now) }
{
    let points = net.points();
    let mut drawn = Vec::with_capacity(alloc, points.len())?;
    for point in points {
        drawn.push(draw_point(shown, point))?;
    }
    Ok(drawn)
}

/// A set in its style, with what its ends lead over it.
fn draw_set(shown: &Shown, set: &LinkSet) -> DrawnSet
    ensures { result ≡ drawn_set shown.now set.now }
{
    DrawnSet {
        id: set.id,
        a: set.a,
        b: set.b,
        style: style_of(set),
        there: shown.share(set.a, set.b),
        back: shown.share(set.b, set.a),
    }
}

/// All sets, in rising id.
pub(crate) fn drawn_sets(
    alloc: Global,
    shown: &Shown,
    net: &Net,
) -> Result<Vec<DrawnSet>, AllocError>
    ensures { IfOk result (λ drawn. drawn.items ≡ the_sets shown.now net.now) }
{
    let sets = net.sets();
    let mut drawn = Vec::with_capacity(alloc, sets.len())?;
    for set in sets {
        drawn.push(draw_set(shown, set))?;
    }
    Ok(drawn)
}

/// Whether an end leads traffic over a set.
pub(crate) fn is_bold(set: &DrawnSet) -> bool
    ensures { result ≡ is_bold_of set.now }
{
    set.there.is_some() || set.back.is_some()
}

/// Adds how many signalling link selections a point leads this way, if it leads any.
fn put_part(
    alloc: Global,
    text: &mut String,
    point: PointCode,
    share: Option<u64>,
) -> Result<(), AllocError>
    ensures { OnOk result (string_bytes text.new ≡ string_bytes text.old ++ part_text point share) }
{
    match share {
        Some(count) => {
            let part = format!(in alloc; ": {point} {count}/16")?;
            text.push_str(part.as_str())
        }
        None => Ok(()),
    }
}

/// The label of a set.
#[tactic(auto, unfolding(crate::specs::Shown::label_text))]
pub(crate) fn write_label(alloc: Global, set: &DrawnSet) -> Result<String, AllocError>
    ensures { IfOk result (λ text. string_bytes text ≡ label_text set.now) }
{
    let id = set.id;
    let mut text = format!(in alloc; "{id}")?;
    put_part(alloc, &mut text, set.a, set.there)?;
    put_part(alloc, &mut text, set.b, set.back)?;
    Ok(text)
}
