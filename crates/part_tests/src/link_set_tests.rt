//! A point with three sets, of which one is down.

use crate::parts::{CLEAR, code, half_a_set, set_between, set_of_sixteen};
use link_sets::{Neighbours, is_connected, mask, next_neighbour, set_available};
use link_state::Marks;
use net_items::LinkSet;
use point_codes::{BadCode, PointCode};
use std::alloc::Global;
use std::test::Fail;

/// Sets that join 0-0-5 to 0-0-2 and 0-1-1, and one that is down, to 0-0-7.
fn sets_around(alloc: Global) -> Result<Vec<LinkSet>, Fail> {
    let mut sets = Vec::new(alloc);
    for (a, b, marks) in [
        ("0-0-5", "0-1-1", [Marks::FAILED, CLEAR]),
        ("0-0-2", "0-0-5", [CLEAR, CLEAR]),
        ("0-0-5", "0-0-7", [Marks::FAILED, Marks::FAILED]),
    ] {
        sets.push(set_between(1, a, b, marks)?)?;
    }
    Ok(sets)
}

/// The points that 0-0-5 is joined to.
fn neighbours(alloc: Global) -> Result<Vec<PointCode>, Fail> {
    let y = code("0-0-5")?;
    let sets = sets_around(alloc)?;
    Ok(Neighbours::new(&sets, y).collect(alloc)?)
}

/// The points that 0-0-5 is to be joined to.
fn wanted_neighbours() -> Result<[PointCode; 2], BadCode> {
    Ok([code("0-0-2")?, code("0-1-1")?])
}

#[test]
fn tells_neighbours(rt: HostRuntime) -> Result<(), Fail> {
    let wanted = wanted_neighbours()?;
    let around = neighbours(rt.alloc())?;
    assert_eq!(rt; around.as_slice(), wanted.as_slice());
    Ok(())
}

/// The neighbour of 0-0-5 from the number 3 on, whether a set lies between it and 0-0-7, and whether that is available.
fn asked_around(alloc: Global) -> Result<(Option<PointCode>, bool, bool), Fail> {
    let (y, down) = (code("0-0-5")?, code("0-0-7")?);
    let sets = sets_around(alloc)?;
    let next = next_neighbour(&sets, y, 3);
    let is_between = link_sets::set_between(&sets, down, y).is_some();
    Ok((next, is_between, is_connected(&sets, down, y)))
}

#[test]
fn tells_what_joins_points(rt: HostRuntime) -> Result<(), Fail> {
    let high = code("0-1-1")?;
    let said = asked_around(rt.alloc())?;
    assert_eq!(rt; said, (Some(high), true, false));
    Ok(())
}

#[test]
fn masks_links(rt: HostRuntime) -> Result<(), Fail> {
    let set = half_a_set()?;
    assert_eq!(rt; (mask(&set), set_available(&set)), (2, true));
    Ok(())
}

#[test]
fn masks_sixteen_links(rt: HostRuntime) -> Result<(), Fail> {
    let set = set_of_sixteen()?;
    assert_eq!(rt; mask(&set), 65_535);
    Ok(())
}
