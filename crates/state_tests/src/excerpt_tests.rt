//! Which sets the table of an excerpt reads, and of which networks it reads the same.

use crate::samples::{Edit, event_of, excerpt_of, frozen, point, worked_after, worked_excerpt};
use excerpts::{Excerpt, ExcerptFault, Frozen, SharedExcerpt};
use link_state::LinkChange;
use std::alloc::Global;
use std::process::Abort;

/// The worked network, in which 2-1-3 has a plan too.
fn worked_with_plan(rt: &impl Abort, alloc: Global) -> Frozen {
    let event = event_of(rt, alloc, "plan set 2-1-3 2-10-1:1:2-1-3");
    let mut net = worked_after(rt, alloc, &[]);
    net.apply(alloc, &event).expect(rt, "a plan");
    frozen(rt, alloc, net)
}

/// The ids of the sets that the table of a destination of a network reads.
fn ids_read(rt: &impl Abort, alloc: Global, net: &Frozen, dest: &str) -> Vec<u16> {
    let shared = excerpt_of(rt, net, dest);
    let excerpt = shared.excerpt();
    let mut ids = Vec::new(alloc);
    for set in net.net().sets() {
        if excerpt.reads(set) {
            ids.push(set.id).expect(rt, "memory");
        }
    }
    ids
}

/// The table of a destination reads the sets of these ids alone, where 2-1-3 has a plan too.
fn expect_read(rt: &impl Abort, alloc: Global, dest: &str, wanted: &[u16]) {
    let net = worked_with_plan(rt, alloc);
    let ids = ids_read(rt, alloc, &net, dest);
    assert_eq!(rt; ids.as_slice(), wanted);
}

#[test]
fn reads_the_sets_of_transfer_points_and_vias(rt: HostRuntime) {
    expect_read(&rt, rt.alloc(), "2-1-2", &[1, 2, 3, 4, 5, 6]);
    expect_read(&rt, rt.alloc(), "2-1-3", &[1, 3, 5, 6]);
}

const FAIL_4_0: Edit = (4, 0, LinkChange::Fail);

/// Whether the excerpt of 2-1-2 of the worked network is that of a destination after some edits.
fn is_of_after(rt: &impl Abort, alloc: Global, edits: &[Edit], dest: &str) -> bool {
    let excerpt = worked_excerpt(rt, alloc, &[]);
    let net = worked_after(rt, alloc, edits);
    excerpt.excerpt().is_of(&net, point(rt, dest))
}

/// Whether the excerpt of 2-1-2 of the worked network equals the one after some edits.
fn equals_after(rt: &impl Abort, alloc: Global, edits: &[Edit]) -> bool {
    let before = worked_excerpt(rt, alloc, &[]);
    let after = worked_excerpt(rt, alloc, edits);
    before.excerpt().equals(&after.excerpt())
}

#[test]
fn a_failed_link_makes_another_excerpt(rt: HostRuntime) {
    assert!(rt; is_of_after(&rt, rt.alloc(), &[], "2-1-2"));
    assert!(rt; !is_of_after(&rt, rt.alloc(), &[FAIL_4_0], "2-1-2"));
    assert!(rt; !equals_after(&rt, rt.alloc(), &[FAIL_4_0]));
}

#[test]
fn an_excerpt_is_of_one_destination(rt: HostRuntime) {
    assert!(rt; equals_after(&rt, rt.alloc(), &[]));
    assert!(rt; !is_of_after(&rt, rt.alloc(), &[], "2-1-1"));
}

#[test]
fn an_excerpt_wants_a_plan(rt: HostRuntime) {
    let net = frozen(&rt, rt.alloc(), worked_after(&rt, rt.alloc(), &[]));
    let dest = point(&rt, "2-1-1");
    assert!(rt; Excerpt::of(&net, dest).is_none());
    assert_eq!(rt;
        SharedExcerpt::of(&net, dest).err(),
        Some(ExcerptFault::NoPlan)
    );
}

/// An excerpt tells the kinds of the points of a network.
fn expect_kinds(rt: &impl Abort, excerpt: &Excerpt, net: &Frozen) {
    for known in net.net().points() {
        assert!(rt; excerpt.kind_of(known.code) == Some(known.kind));
    }
}

#[test]
fn an_excerpt_tells_the_kinds_of_points(rt: HostRuntime) {
    let net = frozen(&rt, rt.alloc(), worked_after(&rt, rt.alloc(), &[]));
    let excerpt = excerpt_of(&rt, &net, "2-1-2");
    let excerpt = excerpt.excerpt();
    expect_kinds(&rt, &excerpt, &net);
    assert!(rt; excerpt.kind_of(point(&rt, "7-7-7")).is_none());
}
