//! Whether a point stands twice: a via in a row, or the point of a row in a plan.

ghost use Rattle.std.specs.Prelude.{◌≡◌, ◌<◌, ◌&&◌, ◌++◌, ◌==◌, ◌∷◌, [], List, ℕ, map, length, slice_index_or, true, false};
ghost use Rattle.std.specs.List.{list_any};
ghost use Rattle.net_items.specs.Lookups.{concat_vias, vias_of};
ghost use Rattle.net_sets.specs.Sets.{is_distinct as distinct};
ghost use Rattle.plan_rows.specs.Seen.{IsSeen};

use crate::uses::{is_in, is_in_any};
use net_items::{Point, Row, Vias};
use point_codes::PointCode;

/// Marks the vias of a class. The answer is whether each was new.
fn see_all(seen: &mut [bool], vias: &[PointCode]) -> bool
    requires { length seen.old ≡ 16384 }
    ensures new { (done : List ℕ) → IsSeen seen.old done → distinct done ≡ true → distinct (done ++ vias.now) ≡ result }
    ensures seen { (done : List ℕ) → IsSeen seen.old done → result ≡ true → IsSeen seen.new (done ++ vias.now) }
{
    for via in vias {
        let at = via.number() as usize;
        if seen[at] {
            return false;
        }
        seen[at] = true;
    }
    true
}

/// Whether each via is new, by a table of those seen.
fn are_vias_new(row: &Row) -> bool
    ensures { result ≡ distinct (vias_of row.now) }
{
    let mut seen = [false; 16384];
    for vias in row.classes.as_slice() {
        if !see_all(&mut seen, vias.as_slice()) {
            return false;
        }
    }
    true
}

/// Whether each via of a class stands neither later in it nor in the later classes.
fn are_new(vias: &[PointCode], later: &[Vias]) -> bool
    ensures yes { result ≡ true → distinct (vias.now ++ concat_vias later.now) ≡ distinct (concat_vias later.now) }
    ensures no { result ≡ false → distinct (vias.now ++ concat_vias later.now) ≡ false }
{
    let mut rest = vias;
    while let Some((via, others)) = rest.split_first() {
        if is_in(others, *via) {
            return false;
        }
        if is_in_any(later, *via) {
            return false;
        }
        rest = others;
    }
    true
}

/// Whether each via stands once, each compared with those after it.
fn are_vias_apart(classes: &[Vias]) -> bool
    ensures { result ≡ distinct (concat_vias classes.now) }
{
    let mut rest = classes;
    while let Some((first, later)) = rest.split_first() {
        if !are_new(first.as_slice(), later) {
            return false;
        }
        rest = later;
    }
    true
}

/// Whether a row has so few vias that comparing them is faster than a table.
fn is_short(row: &Row) -> bool {
    let mut count = 0usize;
    for vias in row.classes.as_slice() {
        count = count.saturating_add(vias.as_slice().len());
    }
    count <= 8
}

/// Whether no via stands twice in a row.
pub fn are_vias_once(row: &Row) -> bool
    ensures { result ≡ distinct (vias_of row.now) }
{
    // Most rows have one class of two.
    if let [only] = row.classes.as_slice() {
        if let [first, second] = only.as_slice() {
            return first != second;
        }
    }
    if is_short(row) {
        are_vias_apart(row.classes.as_slice())
    } else {
        are_vias_new(row)
    }
}

/// Marks a point. The answer is whether it was marked before.
pub fn see(seen: &mut [bool], point: PointCode) -> bool
    requires { length seen.old ≡ 16384 }
    ensures before { (done : List ℕ) → IsSeen seen.old done → result ≡ list_any (λ y. y == point) done }
    ensures after { (done : List ℕ) → IsSeen seen.old done → IsSeen seen.new (done ++ point ∷ []) }
{
    let at = point.number() as usize;
    let before = seen[at];
    seen[at] = true;
    before
}

/// Marks the points of a network in a blank table.
pub fn see_points(seen: &mut [bool], points: &[Point])
    requires long { length seen.old ≡ 16384 }
    requires blank { (z : ℕ) → z < 16384 → slice_index_or seen.old z false ≡ false }
    ensures long { length seen.new ≡ 16384 }
    ensures seen { IsSeen seen.new (map (λ p. p.code) points.now) }
{
    for point in points {
        let _before = see(seen, point.code);
    }
}

/// Whether a point is marked.
pub fn is_seen(seen: &[bool], point: PointCode) -> bool
    requires { length seen.now ≡ 16384 }
    ensures { (done : List ℕ) → IsSeen seen.now done → result ≡ list_any (λ y. y == point) done }
{
    seen[point.number() as usize]
}
