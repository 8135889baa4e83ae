//! What a network says of itself, and its copies.

use crate::edits::{edit, is_worked};
use net_data::Net;
use point_codes::PointCode;
use sample_nets::{code, worked};
use std::alloc::Global;
use std::test::Fail;

/// The indicator and the option of a network, and how many points, sets and plans it has.
fn parts(net: &Net) -> (u8, bool, [usize; 3]) {
    let lengths = [net.points().len(), net.sets().len(), net.plans().len()];
    (net.ni(), net.tfr(), lengths)
}

#[test]
fn says_its_parts(rt: HostRuntime) -> Result<(), Fail> {
    let net = worked(rt.alloc())?;
    assert_eq!(rt; parts(&net), (2, true, [5, 6, 1]));
    Ok(())
}

/// The mate of a point in the worked network.
fn mate_of(alloc: Global, point: &str) -> Result<Option<PointCode>, Fail> {
    let point = code(point)?;
    let net = worked(alloc)?;
    Ok(net.mate_of(point))
}

#[test]
fn says_its_mates(rt: HostRuntime) -> Result<(), Fail> {
    let mate = code("2-10-2")?;
    let mates = (
        mate_of(rt.alloc(), "2-10-1")?,
        mate_of(rt.alloc(), "2-1-1")?,
    );
    assert_eq!(rt; mates, (Some(mate), None));
    Ok(())
}

/// The destination of the plan that a network shares for a point.
fn shared_dest(net: &Net, point: PointCode) -> Result<Option<PointCode>, Fail> {
    Ok(match net.share_plan(0, point)? {
        Some(plan) => Some(plan.dest),
        None => None,
    })
}

/// The destination of the plan that the worked network shares for a point.
fn shared_in_worked(alloc: Global, point: &str) -> Result<Option<PointCode>, Fail> {
    let point = code(point)?;
    let net = worked(alloc)?;
    shared_dest(&net, point)
}

#[test]
fn shares_its_plans(rt: HostRuntime) -> Result<(), Fail> {
    let dest = code("2-1-2")?;
    let shared = (
        shared_in_worked(rt.alloc(), "2-1-1")?,
        shared_in_worked(rt.alloc(), "2-1-2")?,
    );
    assert_eq!(rt; shared, (None, Some(dest)));
    Ok(())
}

/// How many rows the plan of a destination has in the worked network.
fn row_count(alloc: Global, dest: &str) -> Result<Option<usize>, Fail> {
    let dest = code(dest)?;
    let net = worked(alloc)?;
    Ok(match net.plan(dest) {
        Some(plan) => Some(plan.rows.as_slice().len()),
        None => None,
    })
}

#[test]
fn has_a_plan_of_three_rows(rt: HostRuntime) -> Result<(), Fail> {
    assert_eq!(rt; row_count(rt.alloc(), "2-1-2")?, Some(3));
    Ok(())
}

/// Of a network that is the worked one and a copy: whether they are equal, whether they are after an edit of the network,
/// and whether the copy is still the worked network.
fn compared(alloc: Global, net: &mut Net, copy: &Net) -> Result<(bool, bool, bool), Fail> {
    let before = net.equals(copy);
    edit(alloc, net, "tfr off")?;
    Ok((before, net.equals(copy), is_worked(alloc, copy)?))
}

/// What `compared` says of the worked network and its copy.
fn copied_worked(alloc: Global) -> Result<(bool, bool, bool), Fail> {
    let mut net = worked(alloc)?;
    let copy = net.copy(alloc)?;
    compared(alloc, &mut net, &copy)
}

#[test]
fn a_copy_is_apart(rt: HostRuntime) -> Result<(), Fail> {
    assert_eq!(rt; copied_worked(rt.alloc())?, (true, false, true));
    Ok(())
}
