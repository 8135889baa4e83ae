//! Orders and shares worked out by hand.

use crate::parts::{CLEAR, code, half_a_set, link, set_of_sixteen};
use link_state::Marks;
use net_items::{LinkSet, Links};
use sls_share::{Carried, link_for, member_for, probe};
use std::test::Fail;

/// A set of the links 2, 5 and 9 with these marks.
fn set_of_three(marks: [Marks; 3]) -> Result<LinkSet, Fail> {
    let end = code("0-0-1")?;
    let mut links = Links::none();
    links.put(link(2, marks[0]));
    links.put(link(5, marks[1]));
    links.put(link(9, marks[2]));
    Ok(LinkSet {
        id: 1,
        a: end,
        b: end,
        links,
    })
}

/// What carries the share numbers of the links 2, 5 and 9 with these marks.
fn carried_with(marks: [Marks; 3]) -> Result<Carried, Fail> {
    let set = set_of_three(marks)?;
    Ok(Carried::of(&set))
}

/// The links that carry the sixteen share numbers, 255 if there is none.
fn carriers(marks: [Marks; 3]) -> Result<[u8; 16], Fail> {
    let carried = carried_with(marks)?;
    let mut codes = [255; 16];
    for t in 0..16u8 {
        codes[usize::from(t)] = carried.link_for(t).unwrap_or(255);
    }
    Ok(codes)
}

#[test]
fn carries_by_masks(rt: HostRuntime) -> Result<(), Fail> {
    let up = carriers([CLEAR; 3])?;
    let some = carriers([Marks::FAILED, CLEAR, CLEAR])?;
    let wanted = [
        [2, 5, 9, 2, 5, 9, 2, 5, 9, 2, 5, 9, 2, 5, 9, 2],
        [5, 5, 9, 9, 5, 9, 5, 5, 9, 9, 5, 9, 5, 5, 9, 9],
    ];
    assert_eq!(rt; [up, some], wanted);
    Ok(())
}

#[test]
fn carries_nothing_where_all_failed(rt: HostRuntime) -> Result<(), Fail> {
    let none = carriers([Marks::FAILED; 3])?;
    assert_eq!(rt; none, [255; 16]);
    Ok(())
}

/// Whether a `Carried` equals its copy, and another.
fn equal_carried() -> Result<(bool, bool), Fail> {
    let up = carried_with([CLEAR; 3])?;
    let some = carried_with([Marks::FAILED, CLEAR, CLEAR])?;
    Ok((some.equals(&some.copy()), some.equals(&up)))
}

#[test]
fn carried_equals_its_copy_alone(rt: HostRuntime) -> Result<(), Fail> {
    assert_eq!(rt; equal_carried()?, (true, false));
    Ok(())
}

#[test]
fn probes_in_order(rt: HostRuntime) {
    let orders = [
        [probe(1, 3, 0), probe(1, 3, 1), probe(1, 3, 2)],
        [probe(3, 3, 0), probe(3, 3, 1), probe(3, 3, 2)],
        [probe(15, 4, 0), probe(15, 4, 1), probe(15, 4, 2)],
    ];
    assert_eq!(rt; orders, [[1, 2, 0], [0, 2, 1], [3, 0, 1]]);
}

#[test]
fn passes_a_failed_link(rt: HostRuntime) -> Result<(), Fail> {
    let set = half_a_set()?;
    assert_eq!(rt; link_for(&set, 0), Some(3));
    Ok(())
}

#[test]
fn shares_over_vias(rt: HostRuntime) {
    let shares = [
        member_for(1, [true, false], 5),
        member_for(2, [true, true], 5),
        member_for(2, [true, false], 5),
        member_for(2, [false, true], 6),
    ];
    assert_eq!(rt; shares, [(0, 5), (1, 10), (0, 10), (1, 3)]);
}

#[test]
fn no_link_carries_a_share_number_beyond_fifteen(rt: HostRuntime) -> Result<(), Fail> {
    let set = half_a_set()?;
    assert_eq!(rt; [link_for(&set, 15), link_for(&set, 16)], [Some(3), None]);
    Ok(())
}

#[test]
fn each_of_sixteen_links_carries_a_share_number(rt: HostRuntime) -> Result<(), Fail> {
    let set = set_of_sixteen()?;
    assert_eq!(rt;
        [link_for(&set, 0), link_for(&set, 15)],
        [Some(0), Some(15)]
    );
    Ok(())
}
