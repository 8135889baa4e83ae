//! The copy of a table of two end points with a transfer point between.

use crate::samples::{point, two_ends_table};
use point_codes::PointCode;
use std::process::Abort;
use transfer_state::{RowState, Table};

/// The row of a point.
fn row_at<'a>(rt: &impl Abort, table: &'a Table, point: PointCode) -> &'a RowState {
    table.row(point).expect(rt, "a row")
}

/// A row has the choice and the links of another.
fn expect_same_choice(rt: &impl Abort, new: &RowState, old: &RowState) {
    assert_eq!(rt; new.choice, old.choice);
    assert!(rt; new.links.equals(&old.links));
}

/// A row has the messages of another.
fn expect_same_messages(rt: &impl Abort, new: &RowState, old: &RowState) {
    assert_eq!(rt; new.messages.as_slice(), old.messages.as_slice());
}

/// The row of a point in a table is the same as in another.
fn expect_same(rt: &impl Abort, new: &Table, old: &Table, point: PointCode) {
    let (new, old) = (row_at(rt, new, point), row_at(rt, old, point));
    expect_same_choice(rt, new, old);
    expect_same_messages(rt, new, old);
}

/// A table of the two ends is the same as another.
fn expect_same_table(rt: &impl Abort, new: &Table, old: &Table) {
    let shapes = [new, old].map(|it| (it.dest, it.rows.as_slice().len()));
    assert_eq!(rt; shapes[0], shapes[1]);
    expect_same(rt, new, old, point(rt, "2-1-1"));
    expect_same(rt, new, old, point(rt, "2-10-1"));
}

#[test]
fn copies_a_table(rt: HostRuntime) {
    let table = two_ends_table(&rt, rt.alloc());
    let copy = table.copy(rt.alloc()).expect(&rt, "memory");
    expect_same_table(&rt, &copy, &table);
}
