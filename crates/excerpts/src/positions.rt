//! Where a point stands in its network, and its row in a plan, looked for first where they are expected.
//!
//! Mostly nearly all points of a network have a row in a plan. The rows of a plan that wasn't asked for just before come from memory,
//! so a binary search among these waits at almost each step. Their codes stand side by side, for who wants to know the position alone.

ghost use Rattle.std.specs.Prelude.{◌≡◌, IfErr, IfOk, Some, slice_get};
ghost use Rattle.std.specs.Option.{IfSome};
ghost use Rattle.net_items.specs.Keyed.{IsRising, IsFoundAt, IsGapAt};
ghost use Rattle.net_items.specs.Lookups.{point_at};

use net_items::copies::position_of_row;
use net_items::lookups::find_point;
use net_items::{Point, Row, Rows};
use point_codes::PointCode;
use std::alloc::{AllocError, Global};
use std::sync::Arc;

/// How many rows are looked at, from the one that is expected on.
const NEAR: usize = 6;

/// How many signalling point codes there are (Q.704 clause 2.2).
const CODE_COUNT: usize = 16384;

/// For the code of each point how many points stand before it. It tells where to look first, and nothing rests on what it tells.
#[derive(Drop)]
pub struct PointOrder {
    before: Vec<u16>,
    /// What of 2^32 one point is, of all points: a product by it is faster than a division by their count.
    share: u64,
}

impl PointOrder {
    /// The order of points in rising code, to be shared. It fails only if memory is refused.
    pub fn shared(alloc: Global, points: &[Point]) -> Result<Arc<PointOrder>, AllocError> {
        let mut before = vec![in alloc; 0u16; CODE_COUNT]?;
        let mut position = 0u16;
        for point in points {
            if let Some(here) = before.get_mut(usize::from(point.code.number())) {
                *here = position;
            }
            position = position.saturating_add(1);
        }
        let share = (1 << 32) / (points.len() as u64).max(1);
        let order = PointOrder { before, share };
        Ok(Arc::new(alloc, order)?)
    }

    /// How many points stand before the point of that code, if there is one.
    fn before(&self, code: PointCode) -> u16 {
        match self.before.get(usize::from(code.number())) {
            Some(before) => *before,
            None => 0,
        }
    }

    /// Where the row or the plan of a point stands among so many, if the points without one are spread evenly.
    pub fn expected(&self, count: usize, code: PointCode) -> usize {
        let share = u64::from(self.before(code)).saturating_mul(self.share);
        (share.saturating_mul(count as u64) >> 32) as usize
    }
}

/// The point of that code, looked for first where it stands if the order is that of these points.
pub fn point_by(order: &PointOrder, points: &[Point], code: PointCode) -> Option<Point>
    requires { IsRising (λ p. p.code) points.now }
    ensures { result ≡ point_at points.now code }
{
    let at = usize::from(order.before(code));
    if at < points.len() {
        let point = points[at];
        if point.code == code {
            return Some(point);
        }
    }
    find_point(points, code)
}

/// The position of a point's row, if it is near a position.
fn position_near(rows: &[Row], point: PointCode, expected: usize) -> Option<usize>
    requires { IsRising (λ r. r.point) rows.now }
    ensures { IfSome result (IsFoundAt (λ r. r.point) point rows.now) }
{
    let mut at = expected;
    for _ in 0..NEAR {
        if at >= rows.len() {
            return None;
        }
        let row = &rows[at];
        if row.point == point {
            return Some(at);
        }
        if row.point < point {
            at += 1;
        } else {
            at = at.checked_sub(1)?;
        }
    }
    None
}

/// The position of a code, if it is near a position.
fn position_near_code(codes: &[PointCode], point: PointCode, expected: usize) -> Option<usize>
    ensures { IfSome result (λ at. slice_get codes.now at ≡ Some point) }
{
    let mut at = expected;
    for _ in 0..NEAR {
        if at >= codes.len() {
            return None;
        }
        let code = codes[at];
        if code == point {
            return Some(at);
        }
        if code < point {
            at += 1;
        } else {
            at = at.checked_sub(1)?;
        }
    }
    None
}

/// Whether a point's row stands where it is expected, by the codes of the rows. Nothing rests on what this tells.
pub fn is_expected(order: &PointOrder, rows: &Rows, point: PointCode) -> bool {
    let codes = rows.codes();
    match codes.get(order.expected(codes.len(), point)) {
        Some(code) => *code == point,
        None => false,
    }
}

/// Whether a point's row stands near where it is expected. It is found by its code, and read. Nothing rests on what this tells.
pub fn is_near(order: &PointOrder, rows: &Rows, point: PointCode) -> bool {
    let codes = rows.codes();
    match position_near_code(codes, point, order.expected(codes.len(), point)) {
        Some(at) => match rows.as_slice().get(at) {
            Some(row) => row.point == point,
            None => false,
        },
        None => false,
    }
}

/// The position of a point's row, or where it would go, by the codes of the rows: if it is where it is expected, no row is read.
pub fn position_by_code(order: &PointOrder, rows: &Rows, point: PointCode) -> Result<usize, usize>
    requires { IsRising (λ r. r.point) rows.now }
    ensures found { IfOk result (IsFoundAt (λ r. r.point) point rows.now) }
    ensures absent { IfErr result (IsGapAt (λ r. r.point) point rows.now) }
{
    let codes = rows.codes();
    match position_near_code(codes, point, order.expected(codes.len(), point)) {
        Some(at) => Ok(at),
        None => position_of_row(rows.as_slice(), point),
    }
}

/// The position of a point's row, or where it would go.
pub fn position_in_rows(order: &PointOrder, rows: &[Row], point: PointCode) -> Result<usize, usize>
    requires { IsRising (λ r. r.point) rows.now }
    ensures found { IfOk result (IsFoundAt (λ r. r.point) point rows.now) }
    ensures absent { IfErr result (IsGapAt (λ r. r.point) point rows.now) }
{
    match position_near(rows, point, order.expected(rows.len(), point)) {
        Some(at) => Ok(at),
        None => position_of_row(rows, point),
    }
}
