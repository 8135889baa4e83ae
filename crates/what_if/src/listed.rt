//! Lists of events in which the changes of whole sets and points stand.

ghost use Rattle.std.specs.Prelude.{◌≡◌, ◌++◌, ℕ, Err, List, None, Ok, Result, IfOk, IfSome, MatchResult};
ghost use Rattle.net_data.specs.declared.events.Event.{Event as EventValue};
ghost use Rattle.net_data.specs.Edits.{apply_all, replay};
ghost use Rattle.net_data.specs.Network.{Network};
ghost use Rattle.net_building.specs.Wholes.{meant};
ghost use Rattle.what_if.specs.declared.reports.Refused.{Refused as RefusedValue};
ghost use Rattle.what_if.specs.Listed.{at_entry, meant_from, report_listed as the_report, reroutes_listed as the_reroutes};

use crate::comparing::told_after;
use crate::reports::{Refused, Report, compare};
use crate::reroutes::Reroutes;
use excerpts::Frozen;
use net_building::{Listed, apply_each, events_of_listed};
use net_data::{Event, Net, Refusal};
use net_versions::Version;
use std::alloc::{AllocError, Global};

/// Makes the events that an entry means, and adds them; or tells why the entry is refused.
fn take_entry(
    alloc: Global,
    net: &mut Net,
    events: &mut Vec<Event>,
    entry: &Listed,
) -> Result<Option<Refusal>, AllocError>
    ensures taken { IfOk result (λ o. o ≡ None → (more : List EventValue) × (meant net.old entry.now ≡ Ok more) × (apply_all net.old more ≡ Ok net.new) × (events.new.items ≡ events.old.items ++ more)) }
    ensures refused { IfOk result (λ o. IfSome o (λ refusal. (place : ℕ) (later : Network → Result (List EventValue) RefusedValue)
        → at_entry place net.old (meant net.old entry.now) later ≡ Err (record { place = place; refusal = refusal }))) }
{
    let mut more = match events_of_listed(alloc, net, entry)? {
        Ok(more) => more,
        Err(refusal) => return Ok(Some(refusal)),
    };
    if let Some(refusal) = apply_each(alloc, net, more.as_slice())? {
        return Ok(Some(refusal));
    }
    events.append(&mut more)?;
    Ok(None)
}

/// The network that a list makes, and the events that it means; or the first entry that is refused.
fn make_listed(
    alloc: Global,
    mut net: Net,
    entries: &[Listed],
) -> Result<Result<(Net, Vec<Event>), Refused>, AllocError>
    ensures { IfOk result (λ r. MatchResult r (λ p. (meant_from 1 net entries.now ≡ Ok p.1.items) × (apply_all net p.1.items ≡ Ok p.0)) (λ refused. meant_from 1 net entries.now ≡ Err refused)) }
{
    let mut events = Vec::new(alloc);
    let mut place = 0;
    for entry in entries {
        place += 1;
        if let Some(refusal) = take_entry(alloc, &mut net, &mut events, entry)? {
            return Ok(Err(Refused { place, refusal }));
        }
    }
    Ok(Ok((net, events)))
}

/// The network that a list makes of a version's, and the events that it means; or the first entry that is refused.
pub(crate) fn network_listed(
    alloc: Global,
    version: &Version,
    entries: &[Listed],
) -> Result<Result<(Frozen, Vec<Event>), Refused>, AllocError>
    ensures { IfOk result (λ r. MatchResult r (λ p. (meant_from 1 version.now.network entries.now ≡ Ok p.1.items) × (p.0 ≡ replay version.now.network p.1.items)) (λ refused. meant_from 1 version.now.network entries.now ≡ Err refused)) }
{
    let copy = version.net().net().copy(alloc)?;
    match make_listed(alloc, copy, entries)? {
        Ok((net, events)) => {
            let frozen = Frozen::after_events(alloc, net, version.net(), &events)?;
            Ok(Ok((frozen, events)))
        }
        Err(refused) => Ok(Err(refused)),
    }
}

/// What a list of events would change, made one after the other on the network of a published version, which stays as it is
/// (own, after Q.704 clause 10). The change of a whole set or point stands for its events there. The first entry that is refused
/// is told, with its place.
///
/// # Errors
///
/// `AllocError` if memory is refused.
pub fn report_listed(
    alloc: Global,
    version: &Version,
    entries: &[Listed],
) -> Result<Result<Report, Refused>, AllocError>
    ensures { IfOk result (λ r. r ≡ the_report version.now.network entries.now) }
{
    match network_listed(alloc, version, entries)? {
        Ok((net, events)) => Ok(Ok(compare(alloc, version, &net, events.as_slice())?)),
        Err(refused) => Ok(Err(refused)),
    }
}

/// What such a list would move: each point whose choice towards a destination differs (own, after Q.704 clauses 6 and 7).
///
/// # Errors
///
/// `AllocError` if memory is refused.
pub fn reroutes_listed(
    alloc: Global,
    version: &Version,
    entries: &[Listed],
) -> Result<Result<Reroutes, Refused>, AllocError>
    ensures { IfOk result (λ r. r ≡ the_reroutes version.now.network entries.now) }
{
    match network_listed(alloc, version, entries)? {
        Ok((net, events)) => {
            let told = told_after(alloc, version, &net, events.as_slice())?;
            Ok(Ok(Reroutes::from_vec(told)))
        }
        Err(refused) => Ok(Err(refused)),
    }
}
