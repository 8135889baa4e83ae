//! The labels of the sets in an SVG picture.

ghost use Rattle.std.specs.Prelude.{◌≡◌, ◌≤◌, ◌<◌, ◌++◌, ◌∷◌, [], not, IfOk, find};
ghost use Rattle.std.specs.List.{list_all};
ghost use Rattle.std.specs.Option.{option_copied};
ghost use Rattle.pictures.specs.Labels.{area_at as the_area, covers_no_label as spares_labels, covers_none as spares, first_open as the_first_open, half_width as the_half_width, is_on as lies_on, is_open as opens, label_area as area_of_label, label_of as the_label, label_spot as the_label_spot, overlap as overlaps, placed_by, placed_set as the_placed, placed_sets as the_placed_sets, point_area as area_of_point, step_in_turn as the_step, tried_label as the_tried};

use crate::curves::{Curve, curve_of, moved, spot_on};
use crate::drawn::{DrawnSet, write_label};
use crate::frame::Canvas;
use crate::places::{Place, Spot};
use crate::tries::Tries;
use std::alloc::{AllocError, Global};

/// A part of the canvas.
#[derive(Clone, Copy)]
pub(crate) struct Area {
    /// Its left edge.
    pub(crate) left: u64,
    /// Its upper edge.
    pub(crate) top: u64,
    /// Its right edge.
    pub(crate) right: u64,
    /// Its lower edge.
    pub(crate) bottom: u64,
}

/// Where a label stands, and half its width.
#[derive(Clone, Copy)]
pub(crate) struct Label {
    /// Its middle.
    pub(crate) spot: Spot,
    /// Half its width.
    pub(crate) half: u32,
}

/// A set with its curve and its label.
#[derive(Clone, Copy)]
pub(crate) struct PlacedSet {
    /// The set.
    pub(crate) set: DrawnSet,
    /// Its curve.
    pub(crate) curve: Curve,
    /// Its label.
    pub(crate) label: Label,
}

/// Whether two areas overlap.
fn overlap(one: &Area, other: &Area) -> bool
    ensures { result ≡ overlaps one.now other.now }
{
    one.left < other.right
        && other.left < one.right
        && one.top < other.bottom
        && other.top < one.bottom
}

/// An area around a spot.
fn area_at(spot: Spot, wide: u32, high: u32) -> Area
    ensures { result ≡ the_area spot wide high }
{
    Area {
        left: u64::from(spot.x.saturating_sub(wide)),
        top: u64::from(spot.y.saturating_sub(high)),
        right: u64::from(spot.x) + u64::from(wide),
        bottom: u64::from(spot.y) + u64::from(high),
    }
}

/// The area of a point's shape.
fn point_area(place: &Place) -> Area
    ensures { result ≡ area_of_point place.now }
{
    area_at(place.spot, 31, 14)
}

/// The area of a label.
pub(crate) fn label_area(label: &Label) -> Area
    ensures { result ≡ area_of_label label.now }
{
    area_at(label.spot, label.half, 6)
}

/// Half the width of a text of so many letters.
fn half_width(letters: usize) -> u32
    ensures { result ≡ the_half_width letters }
{
    27 * letters.min(100) as u32 / 10 + 3
}

/// The step of a curve that is the i-th in turn.
fn step_in_turn(i: u16) -> u16
    requires { i ≤ 32 }
    ensures { result ≡ the_step i }
{
    if i % 2 == 0 { 64 + i } else { 64 - (i + 1) }
}

/// The i-th spot for a label.
fn label_spot(canvas: &Canvas, curve: &Curve, i: u16) -> Spot
    ensures { result ≡ the_label_spot canvas.now curve.now i }
{
    let spot = spot_on(curve, step_in_turn(i % 33));
    moved(canvas, 3 * (i / 33), 22, spot)
}

/// Whether an area is within the canvas.
fn is_on(canvas: &Canvas, area: &Area) -> bool
    ensures { result ≡ lies_on canvas.now area.now }
{
    area.left > 0 && area.right < u64::from(canvas.width) && area.bottom < u64::from(canvas.height)
}

/// Whether an area doesn't cover a point.
fn is_beside(area: &Area, place: &Place) -> bool
    ensures { result ≡ not (overlaps area.now (area_of_point place.now)) }
{
    !overlap(area, &point_area(place))
}

/// Whether an area covers no point.
fn covers_none(places: &[Place], area: &Area) -> bool
    ensures { result ≡ spares places.now area.now }
{
    places.iter().all(|place| is_beside(area, place))
}

/// Whether an area doesn't cover the label of a set.
fn is_apart(area: &Area, placed: &PlacedSet) -> bool
    ensures { result ≡ not (overlaps area.now (area_of_label placed.now.label)) }
{
    !overlap(area, &label_area(&placed.label))
}

/// Whether an area covers no label of these sets.
fn covers_no_label(done: &[PlacedSet], area: &Area) -> bool
    ensures { result ≡ spares_labels done.now area.now }
{
    done.iter().all(|placed| is_apart(area, placed))
}

/// Whether a label may stand there.
#[tactic(auto, unfolding(crate::specs::Labels::is_open))]
fn is_open(canvas: &Canvas, places: &[Place], done: &[PlacedSet], label: &Label) -> bool
    ensures { result ≡ opens canvas.now places.now done.now label.now }
{
    let area = label_area(label);
    is_on(canvas, &area) && covers_none(places, &area) && covers_no_label(done, &area)
}

/// A label of that width on the i-th spot.
fn tried_label(canvas: &Canvas, curve: &Curve, half: u32, i: u16) -> Label
    ensures { result ≡ the_tried canvas.now curve.now half i }
{
    Label {
        spot: label_spot(canvas, curve, i),
        half,
    }
}

/// Whether it may stand there.
fn is_open_at(
    canvas: &Canvas,
    places: &[Place],
    done: &[PlacedSet],
    curve: &Curve,
    half: u32,
    i: u16,
) -> bool
    ensures { result ≡ opens canvas.now places.now done.now (the_tried canvas.now curve.now half i) }
{
    is_open(canvas, places, done, &tried_label(canvas, curve, half, i))
}

/// The first spot where it may stand, if there is one.
fn first_open<'a>(
    tries: &'a Tries,
    canvas: &Canvas,
    places: &[Place],
    done: &[PlacedSet],
    curve: &Curve,
    half: u32,
) -> Option<&'a u16>
    ensures { option_copied result ≡ the_first_open tries.now canvas.now places.now done.now curve.now half }
{
    tries
        .spots()
        .iter()
        .find(|i| is_open_at(canvas, places, done, curve, half, **i))
}

/// The label of a curve after those of other sets.
#[tactic(auto, unfolding(crate::specs::Labels::label_of))]
fn label_of(
    tries: &Tries,
    canvas: &Canvas,
    places: &[Place],
    done: &[PlacedSet],
    curve: &Curve,
    half: u32,
) -> Label
    ensures { result ≡ the_label tries.now canvas.now places.now done.now curve.now half }
{
    match first_open(tries, canvas, places, done, curve, half) {
        Some(i) => tried_label(canvas, curve, half, *i),
        None => tried_label(canvas, curve, half, 0),
    }
}

/// A set at its place, after others.
#[tactic(auto, unfolding(crate::specs::Labels::placed_set))]
fn place_set(
    alloc: Global,
    tries: &Tries,
    canvas: &Canvas,
    places: &[Place],
    done: &[PlacedSet],
    set: &DrawnSet,
) -> Result<PlacedSet, AllocError>
    ensures { IfOk result (λ placed. placed ≡ the_placed tries.now canvas.now places.now done.now set.now) }
{
    let text = write_label(alloc, set)?;
    let half = half_width(text.as_str().len());
    let curve = curve_of(tries, canvas, places, set);
    Ok(PlacedSet {
        set: *set,
        curve,
        label: label_of(tries, canvas, places, done, &curve, half),
    })
}

/// The sets at their places, in their order.
#[tactic(auto, using(crate::proofs::PlacedLemmas::placed_more))]
fn place_by(
    alloc: Global,
    tries: &Tries,
    canvas: &Canvas,
    places: &[Place],
    sets: &[DrawnSet],
) -> Result<Vec<PlacedSet>, AllocError>
    ensures { IfOk result (λ placed. placed.items ≡ placed_by tries.now canvas.now places.now sets.now) }
{
    let mut placed = Vec::with_capacity(alloc, sets.len())?;
    for set in sets {
        let one = place_set(alloc, tries, canvas, places, &placed, set)?;
        placed.push(one)?;
    }
    Ok(placed)
}

/// The sets at their places on the canvas of a picture.
pub(crate) fn place_sets(
    alloc: Global,
    canvas: &Canvas,
    places: &[Place],
    sets: &[DrawnSet],
) -> Result<Vec<PlacedSet>, AllocError>
    ensures { IfOk result (λ placed. placed.items ≡ the_placed_sets canvas.now places.now sets.now) }
{
    let tries = Tries::of(alloc, places)?;
    place_by(alloc, &tries, canvas, places, sets)
}
