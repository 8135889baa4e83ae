//! The curves of the sets in an SVG picture.

ghost use Rattle.std.specs.Prelude.{◌≡◌, ◌≤◌, ◌<◌, ◌^◌, ◌+◌, ◌-◌, ◌*◌, ◌/◌, find};
ghost use Rattle.std.specs.List.{list_all};
ghost use Rattle.std.specs.Option.{option_copied};
ghost use Rattle.pictures.specs.Curves.{along as the_way, bent as the_bent, between as the_between, curve_between as the_curve_between, curve_of as the_curve, first_clear as the_first_clear, gap as the_gap, handle as the_handle, is_clear as clears, is_free as frees, is_near as nears, is_passed as passes, moved as the_moved, moved_number as the_moved_number, set_curve as the_set_curve, spot_on as the_spot_on, third_of as the_third, unit_of as the_unit, upright as the_upright};

use crate::drawn::DrawnSet;
use crate::frame::Canvas;
use crate::places::{Place, Spot, spot_at};
use crate::tries::Tries;

/// A cubic curve.
#[derive(Clone, Copy)]
pub(crate) struct Curve {
    /// Where it begins.
    pub(crate) from: Spot,
    /// Its first control point.
    pub(crate) leaving: Spot,
    /// Its second control point.
    pub(crate) arriving: Spot,
    /// Where it ends.
    pub(crate) to: Spot,
}

/// The number that is so many of 128 steps from one to another.
fn weighted(part: u64, from: u32, to: u32) -> u64
    requires { part ≤ 128 }
    ensures value { result ≡ ((128 - part) * from + part * to) / 128 }
    ensures within { result < 2 ^ 32 }
{
    ((128 - part) * u64::from(from) + part * u64::from(to)) / 128
}

/// The number that is k of 128 steps from one to another, k being below 128.
fn along(k: u16, from: u32, to: u32) -> u32
    ensures { result ≡ the_way k from to }
{
    weighted(u64::from(k % 128), from, to) as u32
}

/// The spot that is k of 128 steps from one to another.
#[tactic(auto, unfolding(crate::specs::Curves::between))]
fn between(k: u16, from: Spot, to: Spot) -> Spot
    ensures { result ≡ the_between k from to }
{
    Spot {
        x: along(k, from.x, to.x),
        y: along(k, from.y, to.y),
    }
}

/// Where a curve is after k of 128 steps.
#[tactic(auto, unfolding(crate::specs::Curves::spot_on))]
pub(crate) fn spot_on(curve: &Curve, k: u16) -> Spot
    ensures { result ≡ the_spot_on curve.now k }
{
    let inner = between(k, curve.leaving, curve.arriving);
    let first = between(k, between(k, curve.from, curve.leaving), inner);
    let last = between(k, inner, between(k, curve.arriving, curve.to));
    between(k, first, last)
}

/// A third of the way from one number to another.
fn third(from: u32, to: u32) -> u32
    ensures { result ≡ (2 * from + to) / 3 }
{
    ((2 * u64::from(from) + u64::from(to)) / 3) as u32
}

/// A third of the way from one spot to another.
fn third_of(from: Spot, to: Spot) -> Spot
    ensures { result ≡ the_third from to }
{
    Spot {
        x: third(from.x, to.x),
        y: third(from.y, to.y),
    }
}

/// A number that stays, or goes back or on by so much, within two limits.
fn moved_number(way: u16, by: u64, least: u32, most: u32, number: u32) -> u32
    requires { by < 2 ^ 60 }
    ensures { result ≡ the_moved_number way by least most number }
{
    if way == 1 {
        u64::from(number).saturating_sub(by).max(u64::from(least)) as u32
    } else if way == 2 {
        (u64::from(number) + by).min(u64::from(most)) as u32
    } else {
        number
    }
}

/// A spot that stays or moves in one of nine ways.
#[tactic(auto, unfolding(crate::specs::Curves::moved))]
pub(crate) fn moved(canvas: &Canvas, way: u16, by: u64, spot: Spot) -> Spot
    requires { by < 2 ^ 60 }
    ensures { result ≡ the_moved canvas.now way by spot }
{
    Spot {
        x: moved_number(way % 3, by, 0, canvas.width, spot.x),
        y: moved_number(way / 3, by, 90, canvas.height, spot.y),
    }
}

/// A control point beside one end of a curve.
fn handle(how: u16, from: Spot, to: Spot) -> Spot
    ensures { result ≡ the_handle how from to }
{
    if how == 0 {
        third_of(from, to)
    } else if how == 1 {
        Spot {
            x: from.x,
            y: third_of(to, from).y,
        }
    } else {
        Spot { x: from.x, y: to.y }
    }
}

/// One of the first nine curves between two spots.
#[tactic(auto, unfolding(crate::specs::Curves::upright))]
fn upright(from: Spot, to: Spot, k: u16) -> Curve
    ensures { result ≡ the_upright from to k }
{
    Curve {
        from,
        leaving: handle(k % 3, from, to),
        arriving: handle(k / 3, to, from),
        to,
    }
}

/// How far apart two numbers are.
fn gap(one: u32, other: u32) -> u32
    ensures { result ≡ the_gap one other }
{
    one.saturating_sub(other) + other.saturating_sub(one)
}

/// By how much a curve is bent the first time.
fn unit_of(from: Spot, to: Spot) -> u64
    ensures value { result ≡ the_unit from to }
    ensures low { result < 2 ^ 32 }
{
    ((u64::from(gap(from.x, to.x)) + u64::from(gap(from.y, to.y))) / 24).max(20)
}

/// So many times as much.
fn bend_by(unit: u64, times: u64) -> u64
    requires low { unit < 2 ^ 32 }
    requires few { times ≤ 1024 }
    ensures value { result ≡ unit * times }
    ensures within { result < 2 ^ 60 }
{
    unit * times
}

/// One of the other curves between two spots.
#[tactic(auto, unfolding(crate::specs::Curves::bent))]
fn bent(canvas: &Canvas, from: Spot, to: Spot, k: u16) -> Curve
    ensures { result ≡ the_bent canvas.now from to k }
{
    let by = bend_by(unit_of(from, to), u64::from(k) / 81 + 1);
    Curve {
        from,
        leaving: moved(canvas, (k / 9) % 9, by, third_of(from, to)),
        arriving: moved(canvas, k % 9, by, third_of(to, from)),
        to,
    }
}

/// The k-th curve between two spots.
fn curve_between(canvas: &Canvas, from: Spot, to: Spot, k: u16) -> Curve
    ensures { result ≡ the_curve_between canvas.now from to k }
{
    if k < 9 {
        upright(from, to, k)
    } else {
        bent(canvas, from, to, k - 9)
    }
}

/// Whether a spot is within the shape of a point, or near it.
fn is_near(point: Spot, spot: Spot) -> bool
    ensures { result ≡ nears point spot }
{
    gap(point.x, spot.x) < 36 && gap(point.y, spot.y) < 19
}

/// Whether a spot of a set isn't near a point, unless that is an end of the set.
fn is_passed(set: &DrawnSet, spot: Spot, place: &Place) -> bool
    ensures { result ≡ passes set.now spot place.now }
{
    place.code == set.a || place.code == set.b || !is_near(place.spot, spot)
}

/// Whether a spot of a set isn't near any point but its ends.
#[tactic(auto, unfolding(crate::specs::Curves::is_free))]
fn is_free(places: &[Place], set: &DrawnSet, spot: Spot) -> bool
    ensures { result ≡ frees places.now set.now spot }
{
    places.iter().all(|place| is_passed(set, spot, place))
}

/// Whether a curve of a set isn't at the k-th of its steps.
fn is_free_at(places: &[Place], set: &DrawnSet, curve: &Curve, k: u16) -> bool
    ensures { result ≡ frees places.now set.now (the_spot_on curve.now k) }
{
    is_free(places, set, spot_on(curve, k))
}

/// Whether it isn't at any of them.
fn is_clear(tries: &Tries, places: &[Place], set: &DrawnSet, curve: &Curve) -> bool
    ensures { result ≡ clears tries.now places.now set.now curve.now }
{
    tries
        .steps()
        .iter()
        .all(|k| is_free_at(places, set, curve, *k))
}

/// The k-th curve of a set.
fn set_curve(canvas: &Canvas, places: &[Place], set: &DrawnSet, k: u16) -> Curve
    ensures { result ≡ the_set_curve canvas.now places.now set.now k }
{
    curve_between(canvas, spot_at(places, set.a), spot_at(places, set.b), k)
}

/// Whether the k-th curve of a set is clear.
fn is_clear_at(tries: &Tries, canvas: &Canvas, places: &[Place], set: &DrawnSet, k: u16) -> bool
    ensures { result ≡ clears tries.now places.now set.now (the_set_curve canvas.now places.now set.now k) }
{
    is_clear(tries, places, set, &set_curve(canvas, places, set, k))
}

/// The first curve of a set that is clear, if one is.
fn first_clear<'a>(
    tries: &'a Tries,
    canvas: &Canvas,
    places: &[Place],
    set: &DrawnSet,
) -> Option<&'a u16>
    ensures { option_copied result ≡ the_first_clear tries.now canvas.now places.now set.now }
{
    tries
        .curves()
        .iter()
        .find(|k| is_clear_at(tries, canvas, places, set, **k))
}

/// The curve of a set: the first one that is clear, else the first of all.
#[tactic(auto, unfolding(crate::specs::Curves::curve_of))]
pub(crate) fn curve_of(tries: &Tries, canvas: &Canvas, places: &[Place], set: &DrawnSet) -> Curve
    ensures { result ≡ the_curve tries.now canvas.now places.now set.now }
{
    match first_clear(tries, canvas, places, set) {
        Some(k) => set_curve(canvas, places, set, *k),
        None => set_curve(canvas, places, set, 0),
    }
}
