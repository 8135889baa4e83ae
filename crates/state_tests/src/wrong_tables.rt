//! Tables that no network has: the one between two ends, with something changed.

use crate::samples::two_ends_table;
use point_codes::{MsgKind, PointCode};
use route_choice::{Choice, Far};
use std::alloc::Global;
use std::process::Abort;
use transfer_state::{Message, Messages, RowLinks, RowState, RowStates, Table};

/// A copy of the first rows of a table, as many as are wanted.
pub(crate) fn first_rows(rt: &impl Abort, alloc: Global, table: &Table, count: usize) -> RowStates {
    let mut rows = Vec::new(alloc);
    for row in table.rows.as_slice().iter().take(count) {
        let row = row.copy(alloc).expect(rt, "memory");
        rows.push(row).expect(rt, "memory");
    }
    RowStates::from_vec(rows)
}

/// A copy of a point's row.
fn copy_row(rt: &impl Abort, alloc: Global, table: &Table, point: PointCode) -> RowState {
    let row = table.row(point).expect(rt, "a row");
    row.copy(alloc).expect(rt, "memory")
}

/// A copy of the table, with this row in the place of its point's.
fn with_row(rt: &impl Abort, alloc: Global, table: &Table, row: &RowState) -> Table {
    let mut rows = Vec::new(alloc);
    for old in table.rows.as_slice() {
        let new = if old.point == row.point { row } else { old };
        let new = new.copy(alloc).expect(rt, "memory");
        rows.push(new).expect(rt, "memory");
    }
    Table {
        dest: table.dest,
        rows: RowStates::from_vec(rows),
    }
}

/// Class 1 with one via.
pub(crate) fn over(via: PointCode, status: Far) -> Choice {
    Choice {
        class: 1,
        members: [Some(via), None],
        status,
    }
}

/// The table with another choice at a point.
pub(crate) fn choosing(
    rt: &impl Abort,
    alloc: Global,
    table: &Table,
    point: PointCode,
    choice: Choice,
) -> Table {
    let mut row = copy_row(rt, alloc, table, point);
    row.choice = choice;
    with_row(rt, alloc, table, &row)
}

/// The table in which a point tells another alone.
pub(crate) fn telling(
    rt: &impl Abort,
    alloc: Global,
    from: PointCode,
    kind: MsgKind,
    to: PointCode,
) -> Table {
    let table = two_ends_table(rt, alloc);
    let list = Vec::from_slice(alloc, &[Message { kind, to }]).expect(rt, "memory");
    let mut row = copy_row(rt, alloc, &table, from);
    row.messages = Messages::from_vec(list);
    with_row(rt, alloc, &table, &row)
}

/// The table without the links of a point.
pub(crate) fn without_links(
    rt: &impl Abort,
    alloc: Global,
    table: &Table,
    point: PointCode,
) -> Table {
    let mut row = copy_row(rt, alloc, table, point);
    row.links = RowLinks::none();
    with_row(rt, alloc, table, &row)
}
