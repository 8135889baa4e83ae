//! The opening of a target.

ghost use Rattle.std.specs.Prelude.{◌≡◌, ◌<◌, ℕ, true, false, not, IfOk, filter, length, map, slice_index_or};
ghost use Rattle.std.specs.Arc.{arc_value};
ghost use Rattle.net_items.specs.declared.items.Plan.{Plan};
ghost use Rattle.excerpts.specs.Excerpt.{content_at};
ghost use Rattle.dirty_sets.specs.Touch.{is_planned};
ghost use Rattle.net_data.specs.Edits.{replay};
ghost use Rattle.desk_core.specs.Targets.{DiffersBy, IsSlotFor, routing_slot_of};
ghost use Rattle.dirty_sets.specs.Bits.{is_marked};
ghost use Rattle.dirty_sets.specs.Waiting.{all_waiting};

use crate::targets::{Difference, Target};
use dirty_sets::{Codes, Waiting};
use excerpts::{Frozen, SharedExcerpt};
use net_data::{Event, Net};
use net_versions::Version;
use point_codes::PointCode;
use std::alloc::{AllocError, Global};
use std::sync::Arc;
use transfer_state::RoutingSlot;

/// The planned destinations that were touched, in rising code.
fn touched_dests(alloc: Global, net: &Net, touched: &Codes) -> Result<Vec<PointCode>, AllocError>
    ensures { IfOk result (λ dests. dests.items ≡ filter (is_marked touched.now) (map (λ p. p.dest) net.now.plans)) }
{
    let plans = net.plans();
    let mut dests = Vec::new(alloc);
    for position in 0..plans.len() {
        let dest = plans.at(position).dest;
        if touched.has(dest) {
            dests.push(dest)?;
        }
    }
    Ok(dests)
}

/// A place for the routing towards a planned destination. If nothing touched it, the routing of the version before goes
/// in.
fn slot_for(
    net: &Frozen,
    dest: PointCode,
    touched: &Codes,
    version: &Version,
) -> Result<RoutingSlot, AllocError>
    requires planned { is_planned net.now dest ≡ true }
    requires kept { (x : ℕ) → x < 16384 → is_marked touched.now x ≡ false → content_at net.now x ≡ content_at version.now.network x }
    ensures { IfOk result (λ p. IsSlotFor net.now dest (not (is_marked touched.now dest)) p) }
{
    // The proof reads the code's range from this.
    let _number = dest.number();
    let excerpt = match SharedExcerpt::of(net, dest) {
        Ok(excerpt) => excerpt,
        Err(_) => return Err(AllocError),
    };
    if touched.has(dest) {
        return Ok(RoutingSlot::new(excerpt));
    }
    match version.routing(dest) {
        Some(routing) => RoutingSlot::of_same(excerpt, &routing),
        None => unreachable!(),
    }
}

/// The place of the plan in a place of a network's plans.
fn slot_at(
    net: &Frozen,
    position: usize,
    touched: &Codes,
    version: &Version,
) -> Result<RoutingSlot, AllocError>
    requires position { position < length net.now.plans }
    requires kept { (x : ℕ) → x < 16384 → is_marked touched.now x ≡ false → content_at net.now x ≡ content_at version.now.network x }
    ensures { IfOk result (λ p. (d : Plan) → p ≡ routing_slot_of net.now (is_marked touched.now) (slice_index_or net.now.plans position d)) }
{
    net.validity();
    let dest = net.net().plans().at(position).dest;
    // Taken apart, since the proof speaks of the slot.
    match slot_for(net, dest, touched, version) {
        Ok(slot) => Ok(slot),
        Err(refused) => Err(refused),
    }
}

/// The places of all planned destinations.
fn all_slots(
    alloc: Global,
    net: &Frozen,
    touched: &Codes,
    version: &Version,
) -> Result<Vec<RoutingSlot>, AllocError>
    requires { (x : ℕ) → x < 16384 → is_marked touched.now x ≡ false → content_at net.now x ≡ content_at version.now.network x }
    ensures { IfOk result (λ v. v.items ≡ map (routing_slot_of net.now (is_marked touched.now)) net.now.plans) }
{
    let plans = net.net().plans();
    let mut slots = Vec::with_capacity(alloc, version.read_ahead().max(plans.len()))?;
    for position in 0..plans.len() {
        slots.push(slot_at(net, position, touched, version)?)?;
    }
    Ok(slots)
}

/// A copy of a network that events made of an earlier one, frozen.
pub(crate) fn frozen_copy(
    alloc: Global,
    net: &Net,
    before: &Frozen,
    events: &[Event],
) -> Result<Frozen, AllocError>
    requires { net.now ≡ replay before.now events.now }
    ensures { IfOk result (λ frozen. frozen ≡ net.now) }
{
    let copy = net.copy(alloc)?;
    Frozen::after_events(alloc, copy, before, events)
}

/// The touched destinations, all of which wait.
fn waiting_dests(alloc: Global, net: &Net, touched: &Codes) -> Result<Waiting, AllocError>
    ensures { IfOk result (λ w. w ≡ all_waiting (filter (is_marked touched.now) (map (λ p. p.dest) net.now.plans))) }
{
    net.validity();
    let dests = touched_dests(alloc, net, touched)?;
    Waiting::fill(alloc, &dests)
}

/// What a network has of the version before, if nothing but links and sets changed since, and few sets turned.
fn difference_from(
    alloc: Global,
    net: &Frozen,
    version: &Arc<Version>,
    events: &[Event],
) -> Result<Option<Difference>, AllocError>
    requires { net.now ≡ replay (arc_value version.now).network events.now }
    ensures { IfOk result (DiffersBy net.now) }
{
    let Some(turned) = net.turned_by(alloc, version.net(), events)? else {
        return Ok(None);
    };
    Ok(Some(Difference {
        version: Arc::try_clone(version)?,
        turned: Arc::new(alloc, turned)?,
    }))
}

/// The target of a number for a network, for which the touched destinations wait.
pub(crate) fn new_target(
    alloc: Global,
    number: u64,
    latest: &Net,
    touched: &Codes,
    version: &Arc<Version>,
    events: &[Event],
) -> Result<Target, AllocError>
    requires now { latest.now ≡ replay (arc_value version.now).network events.now }
    requires kept { (x : ℕ) → x < 16384 → is_marked touched.now x ≡ false → content_at latest.now x ≡ content_at (arc_value version.now).network x }
    ensures { IfOk result (λ t. t ≡ record { number = number; network = latest.now; tasks = all_waiting (filter (is_marked touched.now) (map (λ p. p.dest) latest.now.plans)) }) }
{
    let net = frozen_copy(alloc, latest, version.net(), events)?;
    let slots = all_slots(alloc, &net, touched, version)?;
    let difference = difference_from(alloc, &net, version, events)?;
    let waiting = waiting_dests(alloc, latest, touched)?;
    Target::new(alloc, number, net, waiting, slots, difference)
}
