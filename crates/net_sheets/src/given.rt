//! Ranks that the table of a network gives to the rows of its plans.

ghost use Rattle.std.specs.Prelude.{◌≡◌, ◌==◌, ◌&&◌, ◌≤◌, ◌≢◌, ◌∷◌, [], map, take, length, vec_len, Ok, Err, IfOk, IfErr, OnOk};
ghost use Rattle.net_data.specs.Edits.{apply_all};
ghost use Rattle.net_building.specs.Building.{plan_event as the_event};
ghost use Rattle.net_sheets.specs.About.{plan_ranks};
ghost use Rattle.net_sheets.specs.Events.{unranked, HaveRanks, IsRankedBy};
ghost use Rattle.net_sheets.specs.Faults.{IsOrderFault, IsRanksFault, IsRefusal};

use crate::about::spot_of_value;
use crate::building::refused;
use crate::faults::{Reason, SpotFault};
use crate::lists::push;
use crate::plans::{apply_one, plan_event};
use net_data::{Net, Plans, Refusal};
use net_items::copies::copy_rows;
use net_items::{Plan, Rows};
use plan_ranks::{RowRank, ranked_rows};
use std::alloc::{AllocError, Global};

/// A plan with the ranks that are given first. The error is that these are others', or too few.
fn ranked_plan(alloc: Global, plan: &Plan, ranks: &[RowRank]) -> Result<Plan, Reason>
    ensures many { IfOk result (λ ranked. length plan.now.rows ≤ length ranks.now) }
    ensures same { IfOk result (λ ranked. unranked ranked ≡ unranked plan.now) }
    ensures told { IfOk result (λ ranked. plan_ranks ranked ≡ take (length plan.now.rows) ranks.now) }
    ensures err { IfErr result IsOrderFault }
{
    let dest = plan.dest;
    let Some(ranked) = ranked_rows(alloc, dest, plan.rows.as_slice(), ranks)? else {
        return Err(Reason::RankOrder);
    };
    let rows = Rows::from_vec(alloc, ranked)?;
    Ok(Plan { dest, rows })
}

/// The fault of the rank at a place, where there are so many plans without rows.
fn fault_at(
    alloc: Global,
    text: Option<&[u8]>,
    bare: usize,
    place: usize,
    reason: Reason,
) -> SpotFault
    ensures { result.reason ≡ reason }
{
    let spot = spot_of_value(alloc, text, bare.saturating_add(place));
    SpotFault { spot, reason }
}

/// Plans with ranks that are given, which have to be those of each row, in their order.
fn ranked_plans(
    alloc: Global,
    text: Option<&[u8]>,
    bare: usize,
    plans: &Plans,
    ranks: &[RowRank],
) -> Result<Vec<Plan>, SpotFault>
    ensures ok { IfOk result (λ ranked. HaveRanks plans.now ranks.now ranked.items) }
    ensures err { IfErr result (λ fault. IsOrderFault fault.reason) }
{
    let mut ranked = Vec::new(alloc);
    let mut rest = ranks;
    for position in 0..plans.len() {
        let plan = plans.at(position);
        match ranked_plan(alloc, plan, rest) {
            Ok(next) => push(&mut ranked, next)?,
            Err(reason) => {
                let place = ranks.len().saturating_sub(rest.len());
                return Err(fault_at(alloc, text, bare, place, reason));
            }
        }
        rest = &rest[plan.rows.as_slice().len()..];
    }
    if rest.is_empty() {
        return Ok(ranked);
    }
    let place = ranks.len().saturating_sub(rest.len());
    Err(fault_at(alloc, text, bare, place, Reason::RankOrder))
}

/// Puts a plan in the place of the one of its destination.
fn replace(alloc: Global, net: &mut Net, plan: &Plan) -> Result<(), Refusal>
    ensures ok { OnOk result (apply_all net.old (the_event plan.now ∷ []) ≡ Ok net.new) }
    ensures err { IfErr result (λ e. e ≢ Refusal.OutOfMemory → apply_all net.old (the_event plan.now ∷ []) ≡ Err e) }
{
    let Ok(rows) = copy_rows(alloc, plan.rows.as_slice()) else {
        return Err(Refusal::OutOfMemory);
    };
    match plan_event(alloc, plan.dest, rows) {
        Ok(event) => net.apply_owned(alloc, event),
        Err(_) => Err(Refusal::OutOfMemory),
    }
}

/// How many rows plans have.
fn count_rows(plans: &[Plan]) -> usize {
    plans.iter().fold(
        0usize,
        |count, plan| count.saturating_add(plan.rows.as_slice().len()),
    )
}

/// Puts plans in the place of those of their destinations.
fn replace_all(
    alloc: Global,
    net: &mut Net,
    text: Option<&[u8]>,
    bare: usize,
    plans: &[Plan],
) -> Result<(), SpotFault>
    ensures ok { OnOk result (apply_all net.old (map the_event plans.now) ≡ Ok net.new) }
    ensures err { IfErr result (λ fault. IsRefusal (apply_all net.old (map the_event plans.now)) fault.reason) }
{
    for (i, plan) in plans.iter().enumerate() {
        if let Err(refusal) = replace(alloc, net, plan) {
            let place = count_rows(&plans[..i]);
            return Err(fault_at(alloc, text, bare, place, refused(refusal)));
        }
    }
    Ok(())
}

/// Gives the rows of a network's plans the ranks that its table tells, if it tells any, behind so many plans without rows.
pub(crate) fn give_ranks(
    alloc: Global,
    net: &mut Net,
    text: Option<&[u8]>,
    bare: usize,
    ranks: &[RowRank],
) -> Result<(), SpotFault>
    ensures ok { OnOk result (IsRankedBy net.old ranks.now net.new) }
    ensures err { IfErr result (λ fault. IsRanksFault net.old ranks.now fault.reason) }
{
    if ranks.is_empty() {
        return Ok(());
    }
    let plans = ranked_plans(alloc, text, bare, net.plans(), ranks)?;
    replace_all(alloc, net, text, bare, plans.as_slice())
}
