//! The events that build a set.

ghost use Rattle.std.specs.Prelude.{◌≡◌, ◌++◌, map, IfOk, OnOk};
ghost use Rattle.net_building.specs.Building.{is_needed, changes_of, added_set, mark_events, set_events};

use crate::given::GivenSet;
use link_state::{End, LinkChange, Marks};
use net_data::Event;
use net_items::{Link, Slcs};
use std::alloc::{AllocError, Global};

/// Whether a new link, which is failed alone, needs the change to have these marks.
fn is_needed_by(change: LinkChange, marks: Marks) -> bool
    ensures { result ≡ is_needed change marks }
{
    match change {
        LinkChange::Restore => !marks.failed,
        LinkChange::Block(End::First) => marks.blocked_a,
        LinkChange::Block(End::Second) => marks.blocked_b,
        LinkChange::Inhibit(End::First) => marks.inhibited_a,
        LinkChange::Inhibit(End::Second) => marks.inhibited_b,
        LinkChange::Fail | LinkChange::Unblock(_) | LinkChange::Uninhibit(_) => false,
    }
}

/// Adds the change for each link that needs it.
fn add_changes(
    events: &mut Vec<Event>,
    id: u16,
    links: &[Link],
    change: LinkChange,
) -> Result<(), AllocError>
    ensures { OnOk result (events.new.items ≡ events.old.items ++ changes_of id links.now change) }
{
    for link in links {
        if is_needed_by(change, link.marks) {
            events.push(Event::Link(id, link.slc, change))?;
        }
    }
    Ok(())
}

/// The signalling link codes of links.
fn slcs_of(alloc: Global, links: &[Link]) -> Result<Vec<u8>, AllocError>
    ensures { IfOk result (λ slcs. slcs.items ≡ map (λ l. l.slc) links.now) }
{
    links.iter().map(|link| link.slc).collect(alloc)
}

/// The event that adds a set, whose links are failed alone.
fn addition_of(alloc: Global, set: &GivenSet) -> Result<Event, AllocError>
    ensures { IfOk result (λ event. event ≡ added_set set.now) }
{
    let slcs = slcs_of(alloc, set.links())?;
    let slcs = Slcs::from_vec(alloc, slcs)?;
    Ok(Event::AddSet(set.id(), set.a(), set.b(), slcs))
}

/// Adds the changes that give the links of a new set their marks.
fn add_marks(events: &mut Vec<Event>, set: &GivenSet) -> Result<(), AllocError>
    ensures { OnOk result (events.new.items ≡ events.old.items ++ mark_events set.now) }
{
    let id = set.id();
    let links = set.links();
    add_changes(events, id, links, LinkChange::Restore)?;
    add_changes(events, id, links, LinkChange::Block(End::First))?;
    add_changes(events, id, links, LinkChange::Block(End::Second))?;
    add_changes(events, id, links, LinkChange::Inhibit(End::First))?;
    add_changes(events, id, links, LinkChange::Inhibit(End::Second))?;
    Ok(())
}

/// The events that build a set: it is added, and then its links, which are failed alone, get their marks. They are the changes
/// Restore, Block and Inhibit, the first end before the second, each for all links that need it. Whether a network accepts the
/// events isn't asked.
///
/// # Errors
///
/// `AllocError` if memory is refused.
pub fn events_of_set(alloc: Global, set: &GivenSet) -> Result<Vec<Event>, AllocError>
    ensures { IfOk result (λ events. events.items ≡ set_events set.now) }
{
    let addition = addition_of(alloc, set)?;
    let mut events = vec![in alloc; addition]?;
    add_marks(&mut events, set)?;
    Ok(events)
}
