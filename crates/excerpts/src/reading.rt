//! What a table reads of a network, set by set and point by point.

ghost use Rattle.std.specs.Prelude.{◌≡◌, ◌<◌, ◌∷◌, [], ◌&&◌, ◌||◌, IfSome, filter, length, map, is_some, IsTrue, ◌↔◌};
ghost use Rattle.std.specs.List.{list_any};
ghost use Rattle.std.specs.Option.{option_copied, MatchOption};
ghost use Rattle.net_items.specs.Keyed.{IsRising};
ghost use Rattle.net_items.specs.Lookups.{joins, row_at, is_stp as stp_is};
ghost use Rattle.excerpts.specs.Excerpt.{point_kind as the_kind, row_point as the_row_point, leads as row_leads, is_read_by};

use net_items::copies::position_of_row;
use net_items::equals::{is_same_point, is_same_set};
use net_items::lookups::{find_point, is_stp, mate_of};
use net_items::{Kind, LinkSet, Plan, Point, Row};
use plan_rows::uses::is_via;
use point_codes::PointCode;

/// The row of a point, among rows in rising code.
pub fn row_in(rows: &[Row], point: PointCode) -> Option<&Row>
    requires { IsRising (λ r. r.point) rows.now }
    ensures { option_copied result ≡ row_at rows.now point }
{
    match position_of_row(rows, point) {
        Ok(at) => Some(&rows[at]),
        Err(_) => None,
    }
}

/// Whether a point has a row that leads to another.
pub(crate) fn leads(rows: &[Row], point: PointCode, via: PointCode) -> bool
    requires { IsRising (λ r. r.point) rows.now }
    ensures { result ≡ row_leads rows.now point via }
{
    match row_in(rows, point) {
        Some(row) => is_via(row, via),
        None => false,
    }
}

/// Whether a point is a transfer point with a row.
fn is_planned_transfer(points: &[Point], rows: &[Row], point: PointCode) -> bool
    requires points_rise { IsRising (λ p. p.code) points.now }
    requires rows_rise { IsRising (λ r. r.point) rows.now }
    ensures { result ≡ (stp_is points.now point && is_some (row_at rows.now point)) }
{
    is_stp(points, point) && row_in(rows, point).is_some()
}

/// Whether an end of a set is a transfer point with a row.
fn has_planned_transfer(points: &[Point], rows: &[Row], set: &LinkSet) -> bool
    requires points_rise { IsRising (λ p. p.code) points.now }
    requires rows_rise { IsRising (λ r. r.point) rows.now }
    ensures { result ≡ ((stp_is points.now set.now.a && is_some (row_at rows.now set.now.a)) || (stp_is points.now set.now.b && is_some (row_at rows.now set.now.b))) }
{
    is_planned_transfer(points, rows, set.a) || is_planned_transfer(points, rows, set.b)
}

/// Whether a set joins a row's point with one of its vias.
fn joins_via(rows: &[Row], set: &LinkSet) -> bool
    requires { IsRising (λ r. r.point) rows.now }
    ensures { result ≡ list_any (λ row. list_any (λ vias. list_any (λ via. joins row.point via set.now) vias) row.classes) rows.now }
{
    leads(rows, set.a, set.b) || leads(rows, set.b, set.a)
}

/// Whether the table of a plan reads a set.
pub fn is_read(points: &[Point], plan: &Plan, set: &LinkSet) -> bool
    requires points_rise { IsRising (λ p. p.code) points.now }
    requires rows_rise { IsRising (λ r. r.point) plan.now.rows }
    ensures { result ≡ is_read_by points.now plan.now set.now }
{
    let rows = plan.rows.as_slice();
    has_planned_transfer(points, rows, set) || joins_via(rows, set)
}

/// The first set that the table of a plan reads, and the sets after it.
fn next_read<'a>(
    points: &[Point],
    plan: &Plan,
    sets: &'a [LinkSet],
) -> Option<(&'a LinkSet, &'a [LinkSet])>
    requires points_rise { IsRising (λ p. p.code) points.now }
    requires rows_rise { IsRising (λ r. r.point) plan.now.rows }
    ensures read { MatchOption result (filter (is_read_by points.now plan.now) sets.entry.now ≡ []) (λ p. filter (is_read_by points.now plan.now) sets.entry.now ≡ p.0.now ∷ filter (is_read_by points.now plan.now) p.1.now) }
    ensures fewer { IfSome result (λ p. length p.1.now < length sets.entry.now) }
{
    let mut rest = sets;
    while let Some((set, others)) = rest.split_first() {
        if is_read(points, plan, set) {
            return Some((set, others));
        }
        rest = others;
    }
    None
}

/// Whether the table of a plan reads the same sets of two networks.
pub fn are_same_reads(
    plan: &Plan,
    points: &[Point],
    sets: &[LinkSet],
    other_points: &[Point],
    other_sets: &[LinkSet],
) -> bool
    requires points_rise { IsRising (λ p. p.code) points.now }
    requires others_rise { IsRising (λ p. p.code) other_points.now }
    requires rows_rise { IsRising (λ r. r.point) plan.now.rows }
    ensures { IsTrue result ↔ (filter (is_read_by points.now plan.now) sets.now ≡ filter (is_read_by other_points.now plan.now) other_sets.now) }
{
    let mut left = sets;
    let mut right = other_sets;
    while let Some((set, more)) = next_read(points, plan, left) {
        match next_read(other_points, plan, right) {
            None => return false,
            Some((other, others)) => {
                if !is_same_set(set, other) {
                    return false;
                }
                left = more;
                right = others;
            }
        }
    }
    next_read(other_points, plan, right).is_none()
}

/// The kind of a point that is there.
fn kind_of(points: &[Point], code: PointCode) -> Kind
    requires { IsRising (λ p. p.code) points.now }
    ensures { result ≡ the_kind points.now code }
{
    match find_point(points, code) {
        Some(point) => point.kind,
        None => Kind::Sep,
    }
}

/// What a table reads of a row's point.
fn row_point(points: &[Point], row: &Row) -> Point
    requires { IsRising (λ p. p.code) points.now }
    ensures { result ≡ the_row_point points.now row.now }
{
    let mate = if row.mate {
        mate_of(points, row.point)
    } else {
        None
    };
    Point {
        code: row.point,
        kind: kind_of(points, row.point),
        mate,
    }
}

/// Whether the table of a plan with these rows reads the same of their points in two networks.
pub fn are_same_row_points(rows: &[Row], points: &[Point], other_points: &[Point]) -> bool
    requires points_rise { IsRising (λ p. p.code) points.now }
    requires others_rise { IsRising (λ p. p.code) other_points.now }
    ensures { IsTrue result ↔ (map (the_row_point points.now) rows.now ≡ map (the_row_point other_points.now) rows.now) }
{
    let mut rest = rows;
    while let Some((row, others)) = rest.split_first() {
        if !is_same_point(&row_point(points, row), &row_point(other_points, row)) {
            return false;
        }
        rest = others;
    }
    true
}
