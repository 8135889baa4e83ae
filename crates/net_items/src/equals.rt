//! Equality by value.

ghost use Rattle.std.specs.Prelude.{◌≡◌, ◌↔◌, IsTrue};

use crate::items::{LinkSet, Plan, Point};
use crate::lists::Row;
use crate::vias::Vias;
use link_state::LinkChange;
use point_codes::PointCode;

fn are_same_codes(a: &[PointCode], b: &[PointCode]) -> bool
    ensures { IsTrue result ↔ (a.now ≡ b.now) }
{
    a == b
}

/// Whether the link codes are the same, in the same order.
pub fn are_same_slcs(a: &[u8], b: &[u8]) -> bool
    ensures { IsTrue result ↔ (a.now ≡ b.now) }
{
    a == b
}

fn are_same_classes(a: &[Vias], b: &[Vias]) -> bool
    ensures { IsTrue result ↔ (a.now ≡ b.now) }
{
    a.len() == b.len()
        && a.iter()
            .zip(b)
            .all(|(x, y)| are_same_codes(x.as_slice(), y.as_slice()))
}

fn is_same_row(a: &Row, b: &Row) -> bool
    ensures { IsTrue result ↔ (a.now ≡ b.now) }
{
    a.point == b.point
        && a.rank == b.rank
        && a.mate == b.mate
        && are_same_classes(a.classes.as_slice(), b.classes.as_slice())
}

fn are_same_rows(a: &[Row], b: &[Row]) -> bool
    ensures { IsTrue result ↔ (a.now ≡ b.now) }
{
    a.len() == b.len() && a.iter().zip(b).all(|(x, y)| is_same_row(x, y))
}

/// Whether two plans are equal.
pub fn is_same_plan(a: &Plan, b: &Plan) -> bool
    ensures { IsTrue result ↔ (a.now ≡ b.now) }
{
    a.dest == b.dest && are_same_rows(a.rows.as_slice(), b.rows.as_slice())
}

/// Whether two sets are equal.
pub fn is_same_set(a: &LinkSet, b: &LinkSet) -> bool
    ensures { IsTrue result ↔ (a.now ≡ b.now) }
{
    a.id == b.id && a.a == b.a && a.b == b.b && a.links.equals(&b.links)
}

/// Whether the sets are equal.
pub fn are_same_sets(a: &[LinkSet], b: &[LinkSet]) -> bool
    ensures { IsTrue result ↔ (a.now ≡ b.now) }
{
    a.len() == b.len() && a.iter().zip(b).all(|(x, y)| is_same_set(x, y))
}

/// Whether two points are equal.
pub fn is_same_point(a: &Point, b: &Point) -> bool
    ensures { IsTrue result ↔ (a.now ≡ b.now) }
{
    a == b
}

/// Whether the points are equal.
pub fn are_same_points(a: &[Point], b: &[Point]) -> bool
    ensures { IsTrue result ↔ (a.now ≡ b.now) }
{
    a == b
}

/// Whether the changes are equal.
pub fn is_same_change(a: LinkChange, b: LinkChange) -> bool
    ensures { IsTrue result ↔ (a ≡ b) }
{
    a == b
}
