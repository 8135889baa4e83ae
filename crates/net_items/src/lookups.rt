//! What stands in the lists of a network.

ghost use Rattle.std.specs.Prelude.{◌≡◌, IfOk, IfErr};
ghost use Rattle.std.specs.Option.{option_copied};
ghost use Rattle.net_items.specs.Keyed.{IsRising, IsFoundAt, IsGapAt};
ghost use Rattle.net_items.specs.Lookups.{point_at, has_point, is_stp as stp, mate_of as mate, set_between as between, adjacent, row_at};

use crate::items::{Kind, LinkSet, Point};
use crate::lists::Row;
use point_codes::PointCode;

/// The position of a point, or the one that it would get.
pub fn position_of_point(points: &[Point], code: PointCode) -> Result<usize, usize>
    requires { IsRising (λ p. p.code) points.now }
    ensures found { IfOk result (IsFoundAt (λ p. p.code) code points.now) }
    ensures absent { IfErr result (IsGapAt (λ p. p.code) code points.now) }
{
    points.binary_search_by_key(&code, |p| p.code)
}

/// The place of a set of that id where ids go up by one.
fn guess_of_set(sets: &[LinkSet], id: u16) -> usize {
    match sets {
        [first, ..] => usize::from(id.saturating_sub(first.id)),
        [] => 0,
    }
}

/// The position of a set, or the one that it would get. Mostly ids go up by one, and it is seen at once; else it is found by binary search.
pub fn position_of_set(sets: &[LinkSet], id: u16) -> Result<usize, usize>
    requires { IsRising (λ s. s.id) sets.now }
    ensures found { IfOk result (IsFoundAt (λ s. s.id) id sets.now) }
    ensures absent { IfErr result (IsGapAt (λ s. s.id) id sets.now) }
{
    let guess = guess_of_set(sets, id);
    if guess < sets.len() && sets[guess].id == id {
        return Ok(guess);
    }
    sets.binary_search_by_key(&id, |s| s.id)
}

/// The point of that code.
pub fn find_point(points: &[Point], code: PointCode) -> Option<Point>
    requires { IsRising (λ p. p.code) points.now }
    ensures { result ≡ point_at points.now code }
{
    match position_of_point(points, code) {
        Ok(at) => Some(points[at]),
        Err(_) => None,
    }
}

/// Whether there is a point of that code.
pub fn is_point(points: &[Point], code: PointCode) -> bool
    requires { IsRising (λ p. p.code) points.now }
    ensures { result ≡ has_point points.now code }
{
    find_point(points, code).is_some()
}

/// Whether the point is a transfer point.
pub fn is_stp(points: &[Point], code: PointCode) -> bool
    requires { IsRising (λ p. p.code) points.now }
    ensures { result ≡ stp points.now code }
{
    match find_point(points, code) {
        Some(point) => match point.kind {
            Kind::Sep => false,
            Kind::Stp => true,
        },
        None => false,
    }
}

/// The mate of a point.
pub fn mate_of(points: &[Point], code: PointCode) -> Option<PointCode>
    requires { IsRising (λ p. p.code) points.now }
    ensures { result ≡ mate points.now code }
{
    match find_point(points, code) {
        Some(point) => point.mate,
        None => None,
    }
}

/// The set between two points.
pub fn set_between(sets: &[LinkSet], point: PointCode, other: PointCode) -> Option<&LinkSet>
    ensures { option_copied result ≡ between sets.now point other }
{
    sets.iter().find(|s| (s.a == point && s.b == other) || (s.a == other && s.b == point))
}

/// Whether a set joins two points.
pub fn is_adjacent(sets: &[LinkSet], point: PointCode, other: PointCode) -> bool
    ensures { result ≡ adjacent sets.now point other }
{
    set_between(sets, point, other).is_some()
}

/// The row of a point.
pub fn find_row(rows: &[Row], point: PointCode) -> Option<&Row>
    ensures { option_copied result ≡ row_at rows.now point }
{
    rows.iter().find(|r| r.point == point)
}
