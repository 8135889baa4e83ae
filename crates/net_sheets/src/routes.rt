//! The records of the table of routes.

use point_codes::PointCode;

/// One way of a row.
#[derive(Clone, Copy)]
pub(crate) enum Route {
    /// The destination, the point of the row, a class, of which the first is 1, and a via of it.
    Via(PointCode, PointCode, usize, PointCode),
    /// The destination, and the point of a row that may use its mate.
    Mate(PointCode, PointCode),
}
