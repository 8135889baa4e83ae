//! Tables that are at hand, checked by the local rule.

ghost use Rattle.std.specs.Prelude.{IfOk, All};
ghost use Rattle.std.specs.List.{AllZip};
ghost use Rattle.std.specs.Option.{MatchOption};
ghost use Rattle.all_tables.specs.Tables.{IsSettledIn, IsJudged, IsFirstWrongTable};

use excerpts::{Excerpt, Frozen};
use point_codes::PointCode;
use profile::Table;
use rayon::prelude::*;
use std::alloc::{AllocError, Global};
use std::thread::Threads;
use transfer_state::{Clause, Complaint, check};

/// A table that is wrong.
#[derive(Clone, Copy, Debug, PartialEq, Eq)]
pub struct Wrong {
    /// The table's destination.
    pub dest: PointCode,
    /// The first complaint about the table.
    pub complaint: Complaint,
}

/// The first complaint about a table, if it isn't the settled one of its destination.
fn judge(net: &Frozen, table: &Table) -> Option<Complaint>
    ensures { IsJudged net.now table.now result }
{
    match Excerpt::of(net, table.dest) {
        Some(excerpt) => match check(&excerpt, table) {
            Ok(()) => None,
            Err(complaint) => Some(complaint),
        },
        None => Some(Complaint {
            point: table.dest,
            clause: Clause::Points,
        }),
    }
}

/// What is said of each table, in their order.
fn judge_all(
    rt: &(impl Threads + Sync),
    alloc: Global,
    net: &Frozen,
    tables: &[Table],
) -> Result<Vec<Option<Complaint>>, AllocError>
    ensures { IfOk result (λ v. AllZip (IsJudged net.now) tables.now v.items) }
{
    tables
        .par_iter()
        .with_min_len(1)
        .map(
            |table: &Table| -> Result<Option<Complaint>, AllocError>
                ensures { IfOk result (IsJudged net.entry.now table.now) }
            { Ok(judge(net, table)) },
        )
        .collect::<Result<Vec<Option<Complaint>>, AllocError>>(rt, alloc)?
}

/// Checks tables of a network by the local rule. The answer is None exactly if each is the settled table of its
/// destination, else the first that isn't, with the first complaint about it; it is `Points` where the table's destination has no
/// plan. It fails if memory is refused.
pub fn check_tables(
    rt: &(impl Threads + Sync),
    alloc: Global,
    net: &Frozen,
    tables: &[Table],
) -> Result<Option<Wrong>, AllocError>
    ensures { IfOk result (λ wrong. MatchOption wrong (All (IsSettledIn net.now) tables.now) (IsFirstWrongTable net.now tables.now)) }
{
    let complaints = judge_all(rt, alloc, net, tables)?;
    for position in 0..tables.len() {
        if let Some(complaint) = complaints[position] {
            return Ok(Some(Wrong {
                dest: tables[position].dest,
                complaint,
            }));
        }
    }
    Ok(None)
}
