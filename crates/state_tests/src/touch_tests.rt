//! Which tables read a set, and which destinations an event touches, between two end points with a transfer point between.

use crate::samples::{event_of, point, two_ends_net};
use dirty_sets::{TouchIndex, Touched};
use link_state::LinkChange;
use net_data::{Event, Net};
use point_codes::PointCode;
use sample_nets::net_of;
use std::alloc::Global;
use std::process::Abort;

/// The index of the network of two ends.
fn two_ends_index(rt: &impl Abort, alloc: Global) -> TouchIndex {
    TouchIndex::new(alloc, &two_ends_net(rt, alloc)).expect(rt, "memory")
}

#[test]
fn an_index_reads_what_its_plans_read(rt: HostRuntime) {
    let (a, b) = (point(&rt, "2-1-1"), point(&rt, "2-1-2"));
    let index = two_ends_index(&rt, rt.alloc());
    let reads = [index.reads(b, 1), index.reads(b, 3), index.reads(a, 1)];
    assert_eq!(rt; reads, [true, false, false]);
}

/// The network of two ends without its plan.
fn unplanned(rt: &impl Abort, alloc: Global) -> Net {
    let points = "'2-1-1 sep', '2-1-2 sep', '2-10-1 stp'";
    let sets = "'1 2-1-1 2-10-1 0', '2 2-10-1 2-1-2 0'";
    net_of(alloc, points, "", sets, "").expect(rt, "a network")
}

/// The index of the network without a plan after the event that sets it.
fn followed(rt: &impl Abort, alloc: Global, event: &Event) -> TouchIndex {
    let net = unplanned(rt, alloc);
    let mut index = TouchIndex::new(alloc, &net).expect(rt, "memory");
    assert!(rt; net.refusal_of(event).is_none());
    index.follow(alloc, &net, event).expect(rt, "memory");
    index.make_room().expect(rt, "memory");
    index
}

#[test]
fn an_index_follows_a_plan(rt: HostRuntime) {
    // The rows are out of order.
    let line = "plan set 2-1-2 2-10-1:1:2-1-2 2-1-1:2:2-10-1";
    let event = event_of(&rt, rt.alloc(), line);
    let index = followed(&rt, rt.alloc(), &event);
    assert!(rt; index.reads(point(&rt, "2-1-2"), 2));
}

/// The destinations of a network that an event touches.
fn touched_in(rt: &impl Abort, alloc: Global, net: &Net, event: &Event) -> Vec<PointCode> {
    let index = TouchIndex::new(alloc, net).expect(rt, "memory");
    assert!(rt; net.refusal_of(event).is_none());
    index.touched(alloc, net, event).expect(rt, "memory")
}

/// The destinations that a failure of the link 0 of a set touches.
fn touched_by(rt: &impl Abort, alloc: Global, id: u16) -> Vec<PointCode> {
    let net = two_ends_net(rt, alloc);
    touched_in(rt, alloc, &net, &Event::Link(id, 0, LinkChange::Fail))
}

#[test]
fn an_event_touches_the_readers_of_its_set(rt: HostRuntime) {
    let dests = touched_by(&rt, rt.alloc(), 1);
    assert_eq!(rt; dests.as_slice(), [point(&rt, "2-1-2")].as_slice());
}

/// What was touched after a failure of the link 0 of a set.
fn noted(rt: &impl Abort, alloc: Global, id: u16) -> Touched {
    let net = two_ends_net(rt, alloc);
    let mut touched = Touched::new(alloc, &net).expect(rt, "memory");
    let event = Event::Link(id, 0, LinkChange::Fail);
    assert!(rt; net.refusal_of(&event).is_none());
    touched.note(&net, &event);
    touched
}

#[test]
fn touched_destinations_are_noted_and_cleared(rt: HostRuntime) {
    let b = point(&rt, "2-1-2");
    let mut touched = noted(&rt, rt.alloc(), 1);
    assert!(rt; touched.all().has(b));
    touched.clear();
    touched.make_room().expect(&rt, "memory");
    assert!(rt; !touched.all().has(b));
}
