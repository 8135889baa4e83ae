//! The report of what a list of events would change.

ghost use Rattle.std.specs.Prelude.{◌≡◌, IfOk};
ghost use Rattle.std.specs.List.{list_any};
ghost use Rattle.net_data.specs.Edits.{replay};
ghost use Rattle.what_if.specs.Reports.{apply_from, inhibits as is_inhibition, is_inhibit as inhibited_by, no_memory, report_between, report_of, IsReported};

use crate::changes::{Changes, any_loss};
use crate::comparing::told_after;
use excerpts::Frozen;
use link_state::LinkChange;
use net_data::{Event, Net, Refusal};
use net_versions::Version;
use std::alloc::{AllocError, Global};

/// What a list of events would change.
#[derive(Debug, Drop)]
pub struct Report {
    /// The changes.
    pub changes: Changes,
    /// Whether an event inhibits a link and some change goes from allowed or restricted to prohibited (Q.704 clause 10).
    pub denied: bool,
}

/// The first event that is refused; or out of memory, at place 0.
#[derive(Clone, Copy, Debug, PartialEq, Eq)]
pub struct Refused {
    /// Its place, counted from 1.
    pub place: u64,
    /// Why it is refused.
    pub refusal: Refusal,
}

/// Whether a change of a link's marks inhibits it.
fn inhibits(change: LinkChange) -> bool
    ensures { result ≡ is_inhibition change }
{
    match change {
        LinkChange::Inhibit(_) => true,
        _ => false,
    }
}

/// Whether an event inhibits a link.
fn is_inhibit(event: &Event) -> bool
    ensures { result ≡ inhibited_by event.now }
{
    match event {
        Event::Link(_, _, change) => inhibits(*change),
        _ => false,
    }
}

/// Whether some event inhibits a link.
fn any_inhibit(events: &[Event]) -> bool
    ensures { result ≡ list_any inhibited_by events.now }
{
    events.iter().any(|event| is_inhibit(event))
}

/// The network after the events, or the first that is refused.
fn after_events(
    alloc: Global,
    mut net: Net,
    events: &[Event],
) -> Result<Result<Net, Refused>, AllocError>
    ensures { IfOk result (λ r. r ≡ apply_from 1 net events.now) }
{
    let mut place = 0;
    for event in events {
        place += 1;
        match net.apply(alloc, event) {
            Ok(()) => {}
            Err(Refusal::OutOfMemory) => return Err(AllocError),
            Err(refusal) => return Ok(Err(Refused { place, refusal })),
        }
    }
    Ok(Ok(net))
}

/// The network that events make of a version's, or the first event that is refused.
pub(crate) fn network_after(
    alloc: Global,
    version: &Version,
    events: &[Event],
) -> Result<Result<Frozen, Refused>, AllocError>
    ensures value { IfOk result (λ r. r ≡ apply_from 1 version.now.network events.now) }
    ensures made { IfOk result (λ r. IfOk r (λ net. net ≡ replay version.now.network events.now)) }
{
    let copy = version.net().net().copy(alloc)?;
    match after_events(alloc, copy, events)? {
        Ok(net) => {
            let frozen = Frozen::after_events(alloc, net, version.net(), events)?;
            Ok(Ok(frozen))
        }
        Err(refused) => Ok(Err(refused)),
    }
}

/// What changes from a version to the network that the events make of its own.
pub(crate) fn compare(
    alloc: Global,
    version: &Version,
    net: &Frozen,
    events: &[Event],
) -> Result<Report, AllocError>
    requires { net.now ≡ replay version.now.network events.now }
    ensures { IfOk result (λ r. r ≡ report_between version.now.network net.now events.now) }
{
    let changes = told_after(alloc, version, net, events)?;
    let denied = any_inhibit(events) && any_loss(changes.as_slice());
    Ok(Report {
        changes: Changes::from_vec(changes),
        denied,
    })
}

/// What is reported of the events, or out of memory.
fn make_report(
    alloc: Global,
    version: &Version,
    events: &[Event],
) -> Result<Result<Report, Refused>, AllocError>
    ensures { IfOk result (λ r. r ≡ report_of version.now.network events.now) }
{
    match network_after(alloc, version, events)? {
        Ok(net) => Ok(Ok(compare(alloc, version, &net, events)?)),
        Err(refused) => Ok(Err(refused)),
    }
}

/// What is told if memory is refused.
pub(crate) fn out_of_memory() -> Refused
    ensures { result ≡ no_memory }
{
    Refused {
        place: 0,
        refusal: Refusal::OutOfMemory,
    }
}

/// What a list of events would change, made one after the other on the network of a published version, which stays as it
/// is (own, after Q.704 clause 10).
///
/// The first event that is refused is told. Out of memory may be told in the place of any answer.
pub fn what_if(alloc: Global, version: &Version, events: &[Event]) -> Result<Report, Refused>
    ensures { IsReported version.now.network events.now result }
{
    match make_report(alloc, version, events) {
        Ok(answer) => answer,
        Err(_) => Err(out_of_memory()),
    }
}
