//! What each edit changes, and events compared and copied.

use crate::edits::{edit, event, is_net_of, is_worked, turned_back};
use link_state::{End, LinkChange};
use net_data::Event;
use net_items::Kind;
use sample_nets::{add_set, code, net_of, worked};
use std::alloc::Global;
use std::test::Fail;

const POINTS: &str = "'0-0-1 sep', '0-0-2 stp', '0-0-3 stp'";

const SETS: &str = "'1 0-0-1 0-0-2 0'";

/// Whether the edit that a line says makes of a small network the network of those entries.
fn gives(alloc: Global, line: &str, points: &str, pairs: &str, sets: &str) -> Result<bool, Fail> {
    let mut net = net_of(alloc, POINTS, "", SETS, "")?;
    edit(alloc, &mut net, line)?;
    is_net_of(alloc, &net, points, pairs, sets)
}

/// Fails the test with the first of the lines that doesn't give the network of its points and pairs.
fn give_points(alloc: Global, lines: &[(&str, &str, &str)]) -> Result<(), Fail> {
    for (line, points, pairs) in lines {
        if !gives(alloc, *line, *points, *pairs, SETS)? {
            return Err(Fail::new(*line));
        }
    }
    Ok(())
}

#[test]
fn edits_of_points_give_the_network_of_the_text(rt: HostRuntime) -> Result<(), Fail> {
    let more = "'0-0-1 sep', '0-0-2 stp', '0-0-3 stp', '0-0-0 sep'";
    let edits = [
        ("point add 0-0-0 sep", more, ""),
        ("point drop 0-0-3", "'0-0-1 sep', '0-0-2 stp'", ""),
        ("pair 0-0-3 0-0-2", POINTS, "'0-0-2 0-0-3'"),
    ];
    give_points(rt.alloc(), &edits)
}

/// Fails the test with the first of the lines that doesn't give the network of its sets.
fn give_sets(alloc: Global, lines: &[(&str, &str)]) -> Result<(), Fail> {
    for (line, sets) in lines {
        if !gives(alloc, *line, POINTS, "", *sets)? {
            return Err(Fail::new(*line));
        }
    }
    Ok(())
}

#[test]
fn edits_of_sets_give_the_network_of_the_text(rt: HostRuntime) -> Result<(), Fail> {
    let edits = [
        (
            "set add 0 0-0-1 0-0-3 5 3",
            "'1 0-0-1 0-0-2 0', '0 0-0-1 0-0-3 3f 5f'",
        ),
        ("set drop 1", ""),
        ("link add 1 7", "'1 0-0-1 0-0-2 0 7f'"),
        ("fail 1 0", "'1 0-0-1 0-0-2 0f'"),
        ("block 1 0 b", "'1 0-0-1 0-0-2 0bb'"),
        ("inhibit 1 0 a", "'1 0-0-1 0-0-2 0ia'"),
    ];
    give_sets(rt.alloc(), &edits)
}

/// Whether the worked network stays as it is under the edit that a line says.
fn is_kept(alloc: Global, line: &str) -> Result<bool, Fail> {
    let mut net = worked(alloc)?;
    edit(alloc, &mut net, line)?;
    is_worked(alloc, &net)
}

#[test]
fn a_plan_is_put_in_order(rt: HostRuntime) -> Result<(), Fail> {
    let turned = "plan set 2-1-2 2-10-2:1:2-1-2:m 2-1-1:2:2-10-1+2-10-2 2-10-1:1:2-1-2:m";
    let kept = (
        is_kept(rt.alloc(), turned)?,
        is_kept(rt.alloc(), "plan set 2-1-2")?,
    );
    assert_eq!(rt; kept, (true, false));
    Ok(())
}

/// What `turned_back` says of two lines for the worked network.
fn turned_back_in_worked(alloc: Global, line: &str, back: &str) -> Result<(bool, bool), Fail> {
    let mut net = worked(alloc)?;
    turned_back(alloc, &mut net, line, back)
}

/// Fails the test with the first of the lines whose edit changes nothing in the worked network, or isn't turned back.
fn are_turned_back(alloc: Global, lines: &[(&str, &str)]) -> Result<(), Fail> {
    for (line, back) in lines {
        if turned_back_in_worked(alloc, *line, *back)? != (true, true) {
            return Err(Fail::new(*line));
        }
    }
    Ok(())
}

#[test]
fn edits_are_turned_back(rt: HostRuntime) -> Result<(), Fail> {
    let edits = [
        ("point add 2-1-4 stp", "point drop 2-1-4"),
        ("link add 4 15", "link drop 4 15"),
        ("tfr off", "tfr on"),
        ("set add 0 2-1-1 2-1-2 3 1", "set drop 0"),
        ("plan set 2-1-3 2-10-1:1:2-1-3", "plan drop 2-1-3"),
    ];
    are_turned_back(rt.alloc(), &edits)
}

#[test]
fn changes_of_links_are_turned_back(rt: HostRuntime) -> Result<(), Fail> {
    let changes = [
        ("fail 3 1", "restore 3 1"),
        ("block 3 1 a", "unblock 3 1 a"),
        ("block 3 1 b", "unblock 3 1 b"),
        ("inhibit 3 1 a", "uninhibit 3 1 a"),
        ("inhibit 3 1 b", "uninhibit 3 1 b"),
    ];
    are_turned_back(rt.alloc(), &changes)
}

/// What `turned_back` says of a pair of joined points, of which one leads to the other.
fn pair_turned_back(alloc: Global) -> Result<(bool, bool), Fail> {
    let plans = "'0-0-3 0-0-2:1:0-0-3'";
    let mut net = net_of(alloc, POINTS, "", "'1 0-0-2 0-0-3 0'", plans)?;
    turned_back(alloc, &mut net, "pair 0-0-2 0-0-3", "unpair 0-0-3")
}

#[test]
fn a_pair_is_turned_back(rt: HostRuntime) -> Result<(), Fail> {
    assert_eq!(rt; pair_turned_back(rt.alloc())?, (true, true));
    Ok(())
}

/// One event of each kind.
fn one_of_each(alloc: Global) -> Result<[Event; 12], Fail> {
    let (a, b) = (code("2-1-1")?, code("2-10-1")?);
    let add = add_set(alloc, 1, a, b, &[0])?;
    let set = event(alloc, "plan set 2-1-1 2-10-1:1:2-1-1")?;
    Ok([
        Event::Link(1, 0, LinkChange::Restore),
        Event::AddPoint(a, Kind::Sep),
        Event::RemovePoint(a),
        Event::Pair(a, b),
        Event::Unpair(a),
        add,
        Event::RemoveSet(1),
        Event::AddLink(1, 0),
        Event::RemoveLink(1, 0),
        set,
        Event::DropPlan(a),
        Event::SetTfr(true),
    ])
}

/// One event of each kind, each other than the first such.
fn another_of_each(alloc: Global) -> Result<[Event; 12], Fail> {
    let (a, b) = (code("2-1-1")?, code("2-10-1")?);
    let add = add_set(alloc, 1, a, b, &[1])?;
    let set = event(alloc, "plan set 2-1-1 2-10-1:1:2-1-1:m")?;
    Ok([
        Event::Link(1, 0, LinkChange::Block(End::First)),
        Event::AddPoint(a, Kind::Stp),
        Event::RemovePoint(b),
        Event::Pair(b, a),
        Event::Unpair(b),
        add,
        Event::RemoveSet(2),
        Event::AddLink(1, 1),
        Event::RemoveLink(2, 0),
        set,
        Event::DropPlan(b),
        Event::SetTfr(false),
    ])
}

/// Whether each event equals its own copy alone among these.
fn are_equal_to_copies_alone(alloc: Global, events: &[Event]) -> Result<bool, Fail> {
    for (i, event) in events.iter().enumerate() {
        let copy = event.copy(alloc)?;
        for (k, other) in events.iter().enumerate() {
            if copy.equals(other) != (i == k) {
                return Ok(false);
            }
        }
    }
    Ok(true)
}

#[test]
fn events_equal_their_copies_alone(rt: HostRuntime) -> Result<(), Fail> {
    let ones = one_of_each(rt.alloc())?;
    assert!(rt; are_equal_to_copies_alone(rt.alloc(), &ones)?);
    Ok(())
}

/// The place of the first event that equals the one in its place among others.
fn first_equal(ones: &[Event], others: &[Event]) -> Option<usize> {
    for (place, (one, other)) in ones.iter().zip(others).enumerate() {
        if one.equals(other) {
            return Some(place);
        }
    }
    None
}

#[test]
fn events_of_one_kind_differ(rt: HostRuntime) -> Result<(), Fail> {
    let ones = one_of_each(rt.alloc())?;
    let others = another_of_each(rt.alloc())?;
    assert_eq!(rt; first_equal(&ones, &others), None);
    Ok(())
}
