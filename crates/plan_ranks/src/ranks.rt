//! The least ranks of the rows of a plan.

ghost use Rattle.std.specs.Prelude.{◌≡◌, ◌+◌, ◌<◌, ◌≤◌, ℕ, List, Ok, true, false, length, slice_index, sum, IfErr, IfOk, OnOk};
ghost use Rattle.std.specs.List.{All};
ghost use Rattle.plan_ranks.specs.Ranks.{IsMet, IsBelow, IsLeast};
ghost use Rattle.plan_ranks.specs.Loops.{IsRankFault};

use crate::faults::RankFault;
use crate::loops::rank_fault;
use crate::needs::{Need, needs_of};
use net_data::Net;
use net_items::Row;
use point_codes::PointCode;
use std::alloc::Global;

/// Raises a row where a need isn't met. The answer is whether it was raised. The error is the place of a row that would
/// need a rank above 255.
fn raise_one(ranks: &mut [u8], need: Need) -> Result<bool, usize>
    requires upper { need.upper < length ranks.old }
    requires lower { need.lower < length ranks.old }
    requires by { need.by < 2 }
    ensures above { IsBelow ranks.old ranks.new }
    ensures below { (others : List ℕ) → IsMet others need → IsBelow ranks.old others → IsBelow ranks.new others }
    ensures rose { result ≡ Ok true → sum ranks.old < sum ranks.new }
    ensures same { result ≡ Ok false → ranks.new ≡ ranks.old }
    ensures met { result ≡ Ok false → IsMet ranks.new need }
    ensures err { IfErr result (λ at. (others : List ℕ) → IsMet others need → IsBelow ranks.old others → 255 < slice_index others at) }
{
    let wanted = u16::from(ranks[need.lower]) + u16::from(need.by);
    if wanted <= u16::from(ranks[need.upper]) {
        return Ok(false);
    }
    if wanted > 255 {
        return Err(need.upper);
    }
    ranks[need.upper] = wanted as u8;
    Ok(true)
}

/// Raises each row once for each need that isn't met. The answer is whether some row was raised. The error is the place of
/// a row that would need a rank above 255.
fn raise(ranks: &mut [u8], needs: &[Need]) -> Result<bool, usize>
    requires { All (λ n. n.upper < length ranks.old × n.lower < length ranks.old × n.by < 2) needs.now }
    ensures above { IsBelow ranks.old ranks.new }
    ensures below { (others : List ℕ) → All (IsMet others) needs.now → IsBelow ranks.old others → IsBelow ranks.new others }
    ensures rose { result ≡ Ok true → sum ranks.old < sum ranks.new }
    ensures met { result ≡ Ok false → All (IsMet ranks.new) needs.now }
    ensures err { IfErr result (λ at. (others : List ℕ) → All (IsMet others) needs.now → IsBelow ranks.old others → 255 < slice_index others at) }
{
    let mut rose = false;
    for need in needs {
        if raise_one(ranks, *need)? {
            rose = true;
        }
    }
    Ok(rose)
}

/// Raises rows until all needs are met. The error is the place of a row that would need a rank above 255.
fn settle(ranks: &mut [u8], needs: &[Need]) -> Result<(), usize>
    requires { All (λ n. n.upper < length ranks.old × n.lower < length ranks.old × n.by < 2) needs.now }
    ensures above { IsBelow ranks.old ranks.new }
    ensures below { (others : List ℕ) → All (IsMet others) needs.now → IsBelow ranks.old others → IsBelow ranks.new others }
    ensures small { (k : ℕ) → slice_index ranks.new k < 256 }
    ensures met { OnOk result (All (IsMet ranks.new) needs.now) }
    ensures err { IfErr result (λ at. (others : List ℕ) → All (IsMet others) needs.now → IsBelow ranks.old others → 255 < slice_index others at) }
{
    while raise(ranks, needs)? {}
    Ok(())
}

/// The least ranks of the rows of a plan, in their order; what ranks the rows have doesn't matter. The error is `Loop` or
/// `TooDeep` where there are no ranks, or `OutOfMemory`.
pub fn least_ranks(
    alloc: Global,
    net: &Net,
    dest: PointCode,
    rows: &[Row],
) -> Result<Vec<u8>, RankFault>
    ensures ok { IfOk result (λ ranks. IsLeast net.now.points dest rows.now ranks.items) }
    ensures err { IfErr result (IsRankFault net.now.points dest rows.now) }
{
    // The proof reads from this that the points stand in rising code.
    net.validity();
    let points = net.points();
    let needs = needs_of(alloc, points, dest, rows)?;
    let mut ranks = vec![in alloc; 1u8; rows.len()]?;
    match settle(ranks.as_mut_slice(), needs.as_slice()) {
        Ok(()) => Ok(ranks),
        Err(start) => Err(rank_fault(
            alloc,
            points,
            dest,
            rows,
            needs.as_slice(),
            ranks.as_slice(),
            start,
        )?),
    }
}
