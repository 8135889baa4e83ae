//! The choices of all rows by one sweep over the ranks.

ghost use Rattle.std.specs.Prelude.{◌≡◌, ◌<◌, ◌≤◌, ◌+◌, ℕ, Some, true, false, length, slice_get, slice_index_or, slice_set, All, map, IfOk};
ghost use Rattle.net_items.specs.declared.lists.Row.{Row};
ghost use Rattle.excerpts.specs.Excerpt.{source_of};
ghost use Rattle.transfer_state.specs.Told.{AreChoices, HasRanks, KnowsBelow, TellsBelow};

use crate::choosing::{Statuses, kept_choice, rows_of};
use crate::kept::Kept;
use excerpts::Excerpt;
use net_items::Row;
use point_codes::PointCode;
use route_choice::{Choice, Far};
use std::alloc::{AllocError, Global};

/// How many signalling point codes there are (Q.704 clause 2.2).
pub(crate) const CODE_COUNT: usize = 16384;

/// Tells the far status of a code.
pub(crate) fn tell(fars: &mut [Far], code: PointCode, far: Far)
    requires { length fars.old ≡ 16384 }
    ensures { fars.new ≡ slice_set fars.old code far }
{
    fars[usize::from(code.number())] = far;
}

/// Puts what is kept of a choice in its place, and tells its status.
fn put_choice(
    choices: &mut [Kept],
    fars: &mut [Far],
    position: usize,
    code: PointCode,
    choice: Kept,
)
    requires here { position < length choices.old }
    requires coded { length fars.old ≡ 16384 }
    ensures choices { choices.new ≡ slice_set choices.old position choice }
    ensures fars { fars.new ≡ slice_set fars.old code choice.status }
{
    choices[position] = choice;
    tell(fars, code, choice.status());
}

/// Puts the choices of one rank in their places, and their statuses in the table, where those of lower rank stand.
fn sweep_rank(e: &Excerpt, choices: &mut [Kept], fars: &mut [Far], rank: u16)
    requires together { length choices.old ≡ length e.now.plan.rows }
    requires coded { length fars.old ≡ 16384 }
    requires ranked { 1 ≤ rank }
    requires below { KnowsBelow (source_of e.now) choices.old rank }
    requires told { TellsBelow (source_of e.now) fars.old rank }
    ensures below { KnowsBelow (source_of e.now) choices.new (rank + 1) }
    ensures told { TellsBelow (source_of e.now) fars.new (rank + 1) }
{
    e.validity();
    let rows = rows_of(e);
    for i in 0..rows.len() {
        let row = &rows[i];
        if u16::from(row.rank) == rank {
            let choice = kept_choice(e, &Statuses::Table(fars), row);
            put_choice(choices, fars, i, row.point, choice);
        }
    }
}

/// The ranks of rows: which of all there are, and the highest.
#[derive(Drop)]
struct Ranks {
    used: [bool; 256],
    highest: u8,
}

/// Notes a rank.
fn note_rank(ranks: &mut Ranks, rank: u8)
    requires { length ranks.old.used ≡ 256 }
    ensures long { length ranks.new.used ≡ 256 }
    ensures here { slice_index_or ranks.new.used rank false ≡ true }
    ensures kept { (k : ℕ) → slice_index_or ranks.old.used k false ≡ true → slice_index_or ranks.new.used k false ≡ true }
    ensures low { rank ≤ ranks.new.highest }
    ensures rises { ranks.old.highest ≤ ranks.new.highest }
{
    ranks.used[usize::from(rank)] = true;
    ranks.highest = ranks.highest.max(rank);
}

/// The ranks of rows.
fn ranks_of(rows: &[Row]) -> Ranks
    ensures used { HasRanks rows.now result.used }
    ensures highest { (i : ℕ) (row : Row) → slice_get rows.now i ≡ Some row → row.rank ≤ result.highest }
{
    let mut ranks = Ranks {
        used: [false; 256],
        highest: 0,
    };
    for row in rows {
        note_rank(&mut ranks, row.rank);
    }
    ranks
}

/// Sweeps a rank, unless no row has it.
fn sweep_if_used(e: &Excerpt, choices: &mut [Kept], fars: &mut [Far], used: &[bool; 256], rank: u16)
    requires together { length choices.old ≡ length e.now.plan.rows }
    requires coded { length fars.old ≡ 16384 }
    requires ranked { (1 ≤ rank) × (rank < 256) }
    requires used { HasRanks e.now.plan.rows used.now }
    requires below { KnowsBelow (source_of e.now) choices.old rank }
    requires told { TellsBelow (source_of e.now) fars.old rank }
    ensures below { KnowsBelow (source_of e.now) choices.new (rank + 1) }
    ensures told { TellsBelow (source_of e.now) fars.new (rank + 1) }
{
    e.validity();
    if used[usize::from(rank)] {
        sweep_rank(e, choices, fars, rank);
    }
}

/// What is kept of the choices of all rows, in their places.
pub(crate) fn choices(alloc: Global, e: &Excerpt) -> Result<Vec<Kept>, AllocError>
    ensures each { IfOk result (λ choices. AreChoices (source_of e.now) choices.items) }
    ensures together { IfOk result (λ choices. length choices.items ≡ length e.now.plan.rows) }
{
    e.validity();
    let rows = rows_of(e);
    let mut choices = vec![in alloc; Kept::of(&Choice::NONE); rows.len()]?;
    let mut fars = [Far::Prohibited; CODE_COUNT];
    tell(&mut fars, e.dest(), Far::Allowed);
    let ranks = ranks_of(rows);
    for rank in 1..u16::from(ranks.highest) + 1 {
        sweep_if_used(e, &mut choices, &mut fars, &ranks.used, rank);
    }
    Ok(choices)
}
