//! What the rows of a plan use.

ghost use Rattle.std.specs.Prelude.{◌≡◌, ◌==◌};
ghost use Rattle.std.specs.List.{list_any};
ghost use Rattle.net_items.specs.Keyed.{IsRising};
ghost use Rattle.net_items.specs.Lookups.{is_via as via_of};
ghost use Rattle.plan_rows.specs.Uses.{row_uses as row_used, either_uses as either_used, uses_pair as pair_used, is_row_of as row_of, uses_point as point_used, is_flagged as flagged, has_flag as some_flagged, row_leads as row_led, either_leads as either_led, uses_set as set_used};

use crate::row_questions::is_mate;
use net_items::{LinkSet, Plan, Point, Row, Vias};
use point_codes::PointCode;

/// Whether a point is among these.
pub fn is_in(vias: &[PointCode], via: PointCode) -> bool
    ensures { result ≡ list_any (λ v. v == via) vias.now }
{
    vias.iter().any(|v| *v == via)
}

/// Whether a point is a via of one of these classes.
pub fn is_in_any(classes: &[Vias], via: PointCode) -> bool
    ensures { result ≡ list_any (λ vias. list_any (λ v. v == via) vias) classes.now }
{
    classes.iter().any(|vias| is_in(vias.as_slice(), via))
}

/// Whether a point is a via of the row.
pub fn is_via(row: &Row, via: PointCode) -> bool
    ensures { result ≡ via_of row.now via }
{
    is_in_any(row.classes.as_slice(), via)
}

fn row_uses(point: PointCode, other: PointCode, dest: PointCode, row: &Row) -> bool
    ensures { result ≡ row_used point other dest row.now }
{
    row.point == point && other != dest && is_via(row, other)
}

fn either_uses(point: PointCode, other: PointCode, dest: PointCode, row: &Row) -> bool
    ensures { result ≡ either_used point other dest row.now }
{
    row_uses(point, other, dest, row) || row_uses(other, point, dest, row)
}

/// Whether the plan has a row of one point that leads to the other, which isn't its destination.
pub fn uses_pair(point: PointCode, other: PointCode, plan: &Plan) -> bool
    ensures { result ≡ pair_used point other plan.now }
{
    let dest = plan.dest;
    plan.rows
        .as_slice()
        .iter()
        .any(|row| either_uses(point, other, dest, row))
}

fn is_row_of(code: PointCode, row: &Row) -> bool
    ensures { result ≡ row_of code row.now }
{
    row.point == code
}

fn has_row_of(code: PointCode, rows: &[Row]) -> bool
    ensures { result ≡ list_any (row_of code) rows.now }
{
    rows.iter().any(|row| is_row_of(code, row))
}

/// Whether the point is the plan's destination or has a row.
pub fn uses_point(code: PointCode, plan: &Plan) -> bool
    ensures { result ≡ point_used code plan.now }
{
    plan.dest == code || has_row_of(code, plan.rows.as_slice())
}

fn is_flagged(point: PointCode, row: &Row) -> bool
    ensures { result ≡ flagged point row.now }
{
    row.point == point && row.mate
}

/// Whether the plan has a row of the point with the mate flag.
pub fn has_flag(point: PointCode, plan: &Plan) -> bool
    ensures { result ≡ some_flagged point plan.now }
{
    plan.rows
        .as_slice()
        .iter()
        .any(|row| is_flagged(point, row))
}

fn row_leads(points: &[Point], point: PointCode, other: PointCode, row: &Row) -> bool
    requires { IsRising (λ p. p.code) points.now }
    ensures { result ≡ row_led points.now point other row.now }
{
    row.point == point && (is_via(row, other) || (row.mate && is_mate(points, point, other)))
}

fn either_leads(points: &[Point], set: &LinkSet, row: &Row) -> bool
    requires { IsRising (λ p. p.code) points.now }
    ensures { result ≡ either_led points.now set.now row.now }
{
    row_leads(points, set.a, set.b, row) || row_leads(points, set.b, set.a, row)
}

/// Whether the plan has a row of one end of the set that leads to the other.
pub fn uses_set(points: &[Point], set: &LinkSet, plan: &Plan) -> bool
    requires { IsRising (λ p. p.code) points.now }
    ensures { result ≡ set_used points.now set.now plan.now }
{
    plan.rows
        .as_slice()
        .iter()
        .any(|row| either_leads(points, set, row))
}
