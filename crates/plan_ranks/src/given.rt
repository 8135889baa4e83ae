//! Ranks that are given to the rows of plans.

ghost use Rattle.std.specs.Prelude.{◌≡◌, ◌==◌, ◌&&◌, IfOk};
ghost use Rattle.std.specs.Option.{IfSome};
ghost use Rattle.plan_ranks.specs.Given.{AreRanked};

use net_items::Row;
use net_items::copies::copy_row;
use point_codes::PointCode;
use std::alloc::{AllocError, Global};

/// The rank that a row has.
#[derive(Clone, Copy)]
pub struct RowRank {
    /// The destination of its plan.
    pub dest: PointCode,
    /// The point of the row.
    pub point: PointCode,
    /// The rank.
    pub rank: u8,
}

/// Whether a rank is given to the row of a point in the plan of a destination.
fn is_of(given: &RowRank, dest: PointCode, point: PointCode) -> bool
    ensures { result ≡ (given.now.dest == dest && given.now.point == point) }
{
    given.dest == dest && given.point == point
}

/// A row with a rank.
fn ranked_row(alloc: Global, row: &Row, rank: u8) -> Result<Row, AllocError>
    ensures { IfOk result (λ ranked. ranked ≡ record row.now { rank = rank }) }
{
    let mut ranked = copy_row(alloc, row)?;
    ranked.rank = rank;
    Ok(ranked)
}

/// The rows of a plan with the ranks that are given first. `None` if these are others', or too few.
///
/// # Errors
///
/// `AllocError` if memory is refused.
pub fn ranked_rows(
    alloc: Global,
    dest: PointCode,
    rows: &[Row],
    ranks: &[RowRank],
) -> Result<Option<Vec<Row>>, AllocError>
    ensures { IfOk result (λ found. IfSome found (λ ranked. AreRanked dest rows.now ranks.now ranked.items)) }
{
    if ranks.len() < rows.len() {
        return Ok(None);
    }
    let mut ranked = Vec::new(alloc);
    for (i, row) in rows.iter().enumerate() {
        let given = &ranks[i];
        if !is_of(given, dest, row.point) {
            return Ok(None);
        }
        let next = ranked_row(alloc, row, given.rank)?;
        ranked.push(next)?;
    }
    Ok(Some(ranked))
}
