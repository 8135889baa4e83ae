//! The table of an excerpt.

ghost use Rattle.std.specs.Prelude.{◌≡◌, IfOk};
ghost use Rattle.profile.specs.Whole.{scratch, IsSettledTable};
ghost use Rattle.excerpts.specs.Excerpt.{source_of};
ghost use Rattle.transfer_state.specs.Promises.{TellsWalks, KeepsMatesApart};
ghost use Rattle.transfer_state.specs.Routing.{IsChosen};

use crate::choosing::rows_of;
use crate::kept::{Kept, opened_choice};
use crate::states::{links_of, messages_of, size_of};
use crate::sweep::choices;
use excerpts::Excerpt;
use profile::{RowState, RowStates, Table};
use std::alloc::{AllocError, Global};

/// The table of an excerpt, from scratch (own, after Q.704 clauses 2.3 and 13.2 to 13.4). It fails where memory is
/// refused.
///
/// So its statuses are not prohibited exactly if a walk leads to the destination, no two mates use each other, and the
/// table is what its own messages make of it.
pub fn table_of(alloc: Global, e: &Excerpt) -> Result<Table, AllocError>
    ensures scratch { IfOk result (λ table. table ≡ scratch (source_of e.now)) }
    ensures walks { IfOk result (TellsWalks (source_of e.now)) }
    ensures mates { IfOk result (KeepsMatesApart (source_of e.now)) }
    ensures settled { IfOk result (IsSettledTable (source_of e.now)) }
{
    e.validity();
    let list = choices(alloc, e)?;
    let table = table_by(alloc, e, &list)?;
    Ok(table)
}

/// The table by what is kept of the choices of all rows.
pub(crate) fn table_by(alloc: Global, e: &Excerpt, choices: &[Kept]) -> Result<Table, AllocError>
    requires { IsChosen e.now choices.now }
    ensures { IfOk result (λ table. table ≡ scratch (source_of e.now)) }
{
    e.validity();
    let rows = rows_of(e);
    let mut list = Vec::with_capacity(alloc, rows.len())?;
    for i in 0..rows.len() {
        let row = &rows[i];
        let choice = opened_choice(e, row, choices[i]);
        let size = size_of(row, choice.class);
        let links = links_of(e, row, &choice, size);
        let messages = messages_of(alloc, e, row, &choice)?;
        list.push(RowState {
            point: row.point,
            choice,
            links,
            messages,
        })?;
    }
    Ok(Table {
        dest: e.dest(),
        rows: RowStates::from_vec(list),
    })
}
