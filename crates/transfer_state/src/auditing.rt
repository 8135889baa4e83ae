//! The local certificate of what is kept of a table: whether the choice of each row is what it makes of the messages that follow
//! from its neighbours' choices.
//!
//! The row of a via doesn't lead back, so what is heard over a via is its status, which a table of all codes tells. A mate's may,
//! and its message is worked out.

ghost use Rattle.std.specs.Prelude.{◌≡◌, true, IfErr, IfNone, OnOk, OnErr, Some, length};
ghost use Rattle.std.specs.Option.{IfSome, MatchOption};
ghost use Rattle.net_items.specs.declared.lists.Row.{Row};
ghost use Rattle.profile.specs.Status.{Source, source_row};
ghost use Rattle.profile.specs.Whole.{choice_heard, state_of, IsSettledTable};
ghost use Rattle.excerpts.specs.Excerpt.{source_of};
ghost use Rattle.transfer_state.specs.Complaints.{kept_table, IsFirstKept, IsFirstWrong, IsSettledKept, IsWrongIn};
ghost use Rattle.transfer_state.specs.Kept.{opened};
ghost use Rattle.transfer_state.specs.Told.{TellsKept};

use crate::choosing::{Statuses, fars_of, first_choice, is_same_status, rows_of};
use crate::comparing::is_same_kept;
use crate::complaints::{Clause, Complaint, is_same_route};
use crate::hearing::{Heard, mate_heard};
use crate::kept::{Kept, opened_choice};
use crate::sweep::{CODE_COUNT, tell};
use excerpts::Excerpt;
use net_items::Row;
use route_choice::{Choice, Far};

/// The first clause in which a choice is wrong. Links and messages follow from it.
fn fault_of(choice: &Choice, right: &Choice) -> Option<Clause>
    ensures { MatchOption result (choice.now ≡ right.now) (λ clause. (src : Source) (row : Row) → IsWrongIn clause (state_of src row choice.now) (state_of src row right.now)) }
{
    if !is_same_route(choice, right) {
        return Some(Clause::Route);
    }
    if !is_same_status(choice.status, right.status) {
        return Some(Clause::Status);
    }
    None
}

/// Tells the statuses that are kept of the rows, and allows the destination.
fn tell_kept(e: &Excerpt, kept: &[Kept], fars: &mut [Far])
    requires together { length kept.now ≡ length e.now.plan.rows }
    requires coded { length fars.old ≡ 16384 }
    ensures { TellsKept (source_of e.now) kept.now fars.new (length e.now.plan.rows) }
{
    e.validity();
    let rows = rows_of(e);
    tell(fars, e.dest(), Far::Allowed);
    for i in 0..rows.len() {
        tell(fars, rows[i].point, kept[i].status());
    }
}

/// The choice that a row makes by what it hears, where a table tells the statuses that are kept.
fn choice_told(e: &Excerpt, kept: &[Kept], fars: &[Far], row: &Row) -> Choice
    requires together { length kept.now ≡ length e.now.plan.rows }
    requires told { TellsKept (source_of e.now) kept.now fars.now (length e.now.plan.rows) }
    requires planned { source_row (source_of e.now) row.now.point ≡ Some row.now }
    ensures { result ≡ choice_heard (source_of e.now) (kept_table (source_of e.now) kept.now) row.now }
{
    e.validity();
    let mate = mate_heard(e, &Heard::Kept(kept), row);
    let fars = fars_of(e, &Statuses::Table(fars), row);
    route_choice::choose(row, &fars, mate, e.tfr())
}

/// Whether this is kept of what a row uses where a via of its first class is allowed, by a table that tells the statuses that are
/// kept. Then it is right, whatever the row hears of its mate.
fn is_first_choice(e: &Excerpt, kept: &[Kept], fars: &[Far], row: &Row, its: Kept) -> bool
    requires together { length kept.now ≡ length e.now.plan.rows }
    requires told { TellsKept (source_of e.now) kept.now fars.now (length e.now.plan.rows) }
    requires planned { source_row (source_of e.now) row.now.point ≡ Some row.now }
    ensures { result ≡ true → opened (source_of e.now) row.now its ≡ choice_heard (source_of e.now) (kept_table (source_of e.now) kept.now) row.now }
{
    e.validity();
    match first_choice(e, &Statuses::Table(fars), row) {
        Some(first) => is_same_kept(first, its),
        None => false,
    }
}

/// The first clause in which what is kept of a row is wrong, by a table that tells the statuses that are kept.
fn fault_kept(e: &Excerpt, kept: &[Kept], fars: &[Far], row: &Row, its: Kept) -> Option<Clause>
    requires together { length kept.now ≡ length e.now.plan.rows }
    requires told { TellsKept (source_of e.now) kept.now fars.now (length e.now.plan.rows) }
    requires planned { source_row (source_of e.now) row.now.point ≡ Some row.now }
    ensures right { IfNone result (opened (source_of e.now) row.now its ≡ choice_heard (source_of e.now) (kept_table (source_of e.now) kept.now) row.now) }
    ensures wrong { IfSome result (λ clause. IsWrongIn clause (state_of (source_of e.now) row.now (opened (source_of e.now) row.now its))
        (state_of (source_of e.now) row.now (choice_heard (source_of e.now) (kept_table (source_of e.now) kept.now) row.now))) }
{
    // Mostly the first class serves.
    if is_first_choice(e, kept, fars, row, its) {
        return None;
    }
    let right = choice_told(e, kept, fars, row);
    fault_of(&opened_choice(e, row, its), &right)
}

/// What `check_kept` says of a choice for each row.
fn check_choices(e: &Excerpt, kept: &[Kept]) -> Result<(), Complaint>
    requires { length kept.now ≡ length e.now.plan.rows }
    ensures settled { OnOk result (IsSettledTable (source_of e.now) (kept_table (source_of e.now) kept.now)) }
    ensures first { IfErr result (IsFirstWrong (source_of e.now) (kept_table (source_of e.now) kept.now)) }
{
    e.validity();
    let rows = rows_of(e);
    let mut fars = [Far::Prohibited; CODE_COUNT];
    tell_kept(e, kept, &mut fars);
    for i in 0..rows.len() {
        let row = &rows[i];
        if let Some(clause) = fault_kept(e, kept, &fars, row, kept[i]) {
            return Err(Complaint {
                point: row.point,
                clause,
            });
        }
    }
    Ok(())
}

/// Whether what is kept of the choices of all rows, whatever it is, is that of the excerpt's table, told by each row and the
/// messages that its neighbours' choices make (own, after Q.704 clauses 13.2 to 13.4). It takes no memory.
///
/// The complaint is the first: where there isn't a choice for each row of the plan, in the row's place, `Points` with the plan's
/// destination; else of the first wrong row in rising code, `Route`, or else `Status`. Links and messages follow from the choices.
pub fn check_kept(e: &Excerpt, kept: &[Kept]) -> Result<(), Complaint>
    ensures settled { OnOk result (IsSettledKept (source_of e.now) kept.now) }
    ensures first { IfErr result (IsFirstKept (source_of e.now) kept.now) }
    ensures wrong { OnErr result (IsSettledKept (source_of e.now) kept.now → ⊥) }
{
    if kept.len() != rows_of(e).len() {
        return Err(Complaint {
            point: e.dest(),
            clause: Clause::Points,
        });
    }
    check_choices(e, kept)
}
