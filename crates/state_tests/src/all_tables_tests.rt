//! The tables of all destinations of a network, taken for those of another.

use crate::samples::{Edit, frozen, point, worked_after};
use all_tables::{Wrong, check_tables, tables_of};
use link_state::LinkChange;
use std::alloc::Global;
use std::process::Abort;
use std::thread::Threads;
use transfer_state::{Clause, Complaint};

/// What the check says, by the worked network after some changes of links, of the tables that it had before.
fn said_after(rt: &(impl Threads + Sync + Abort), alloc: Global, edits: &[Edit]) -> Option<Wrong> {
    let before = frozen(rt, alloc, worked_after(rt, alloc, &[]));
    let tables = tables_of(rt, alloc, &before).expect(rt, "memory");
    let net = frozen(rt, alloc, worked_after(rt, alloc, edits));
    check_tables(rt, alloc, &net, &tables).expect(rt, "memory")
}

#[test]
fn passes_the_tables_of_its_network(rt: HostRuntime) {
    assert_eq!(rt; said_after(&rt, rt.alloc(), &[]), None);
}

#[test]
fn complains_of_another_networks_tables(rt: HostRuntime) {
    // Without set 4 the point 2-10-2 leads over its mate, in class 5.
    let complaint = Complaint {
        point: point(&rt, "2-10-2"),
        clause: Clause::Route,
    };
    let dest = point(&rt, "2-1-2");
    let wrong = Wrong { dest, complaint };
    let edits = [(4, 0, LinkChange::Fail)];
    assert_eq!(rt; said_after(&rt, rt.alloc(), &edits), Some(wrong));
}
