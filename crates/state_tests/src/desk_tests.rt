//! What a script can't ask of a desk: room for posts, and whole tables.

use crate::samples::{let_go, new_desk, point, result_of, worked_after};
use desk_core::{Desk, Posted, Refusal};
use link_state::LinkChange;
use net_data::Event;
use net_versions::Version;
use std::alloc::Global;
use std::process::Abort;
use transfer_state::Table;

/// Posts a failure and a restoration of the link 4 0, and tells the room before and after.
fn post_both(alloc: Global, desk: &mut Desk) -> ([Result<Posted, Refusal>; 2], [u32; 2]) {
    let before = desk.spare();
    let posted = [
        desk.post(alloc, 0, 1, Event::Link(4, 0, LinkChange::Fail)),
        desk.post(alloc, 0, 2, Event::Link(4, 0, LinkChange::Restore)),
    ];
    (posted, [before, desk.spare()])
}

#[test]
fn room_is_made_for_posts(rt: HostRuntime) {
    let mut desk = new_desk(&rt, rt.alloc());
    desk.reserve(2).expect(&rt, "memory");
    let posted = post_both(rt.alloc(), &mut desk);
    let taken = [Ok(Posted::Taken(1)), Ok(Posted::Taken(2))];
    assert_eq!(rt; posted, (taken, [2, 0]));
    let_go(desk);
}

/// A table is that of 2-1-2, and 2-10-2 uses class 1 in it.
fn expect_table(rt: &impl Abort, table: &Table) {
    let row = table.row(point(rt, "2-10-2")).expect(rt, "a row");
    assert_eq!(rt; (table.dest, row.choice.class), (point(rt, "2-1-2"), 1));
}

/// A version tells its one destination.
fn expect_dests(rt: &impl Abort, alloc: Global, version: &Version) {
    let dests = version.dests(alloc).expect(rt, "memory");
    assert_eq!(rt; dests.as_slice(), [point(rt, "2-1-2")].as_slice());
}

/// It makes the table of that destination, and none of another point.
fn expect_tables(rt: &impl Abort, alloc: Global, version: &Version) {
    let table = version.table(alloc, point(rt, "2-1-2"));
    expect_table(rt, &table.expect(rt, "memory").expect(rt, "a plan"));
    let none = version.table(alloc, point(rt, "2-1-1"));
    assert!(rt; none.expect(rt, "memory").is_none());
}

#[test]
fn a_version_makes_the_tables_of_its_destinations(rt: HostRuntime) {
    let net = worked_after(&rt, rt.alloc(), &[]);
    let version = Version::opening(rt.alloc(), net).expect(&rt, "memory");
    expect_dests(&rt, rt.alloc(), &version);
    expect_tables(&rt, rt.alloc(), &version);
}

#[test]
fn a_result_makes_its_table(rt: HostRuntime) {
    let table = result_of(&rt, rt.alloc(), &[]).table(rt.alloc());
    expect_table(&rt, &table.expect(&rt, "memory"));
}
