//! Changes of whole sets and points, and lists of events in which they stand.

ghost use Rattle.std.specs.Prelude.{◌≡◌, ◌++◌, Err, Ok, filter, IfOk, MatchResult, OnOk};
ghost use Rattle.std.specs.List.{flat_map};
ghost use Rattle.net_sets.specs.Sets.{is_end as ends_at};
ghost use Rattle.net_data.specs.Edits.{apply_all};
ghost use Rattle.net_data.specs.Network.{Network};
ghost use Rattle.net_building.specs.Wholes.{change_seen_at, changes_at, changes_in, meant, other_end as the_other_end, turned as the_turned, whole_events, whole_refusal};

use link_state::{End, LinkChange};
use net_data::{Event, Net, Refusal};
use net_items::LinkSet;
use net_items::lookups::is_point;
use net_sets::set_questions::{find_set, is_set};
use point_codes::PointCode;
use std::alloc::{AllocError, Global};

/// A change of each link of a set, or of each link of all sets that end at a point.
#[derive(Clone, Copy)]
pub enum Whole {
    /// Of the set of this id.
    Set(u16, LinkChange),
    /// Of the point of this code: the first end is its own, the second that of its neighbour.
    Point(PointCode, LinkChange),
}

/// What stands in a list of events: an event, or the change of a whole set or point, which means its events one by one.
#[derive(Drop)]
pub enum Listed {
    /// An event.
    Event(Event),
    /// The change of a whole set or point.
    Whole(Whole),
}

/// The other end of a set.
fn other_end(end: End) -> End
    ensures { result ≡ the_other_end end }
{
    match end {
        End::First => End::Second,
        End::Second => End::First,
    }
}

/// The same change, made at the other end.
fn turned(change: LinkChange) -> LinkChange
    ensures { result ≡ the_turned change }
{
    match change {
        LinkChange::Fail | LinkChange::Restore => change,
        LinkChange::Block(end) => LinkChange::Block(other_end(end)),
        LinkChange::Unblock(end) => LinkChange::Unblock(other_end(end)),
        LinkChange::Inhibit(end) => LinkChange::Inhibit(other_end(end)),
        LinkChange::Uninhibit(end) => LinkChange::Uninhibit(other_end(end)),
    }
}

/// The change as a set that ends at the point has it.
fn seen_at(point: PointCode, change: LinkChange, set: &LinkSet) -> LinkChange
    ensures { result ≡ change_seen_at point change set.now }
{
    if set.a == point {
        change
    } else {
        turned(change)
    }
}

/// Adds the change of each link of a set.
fn add_changes_in(
    events: &mut Vec<Event>,
    change: LinkChange,
    set: &LinkSet,
) -> Result<(), AllocError>
    ensures { OnOk result (events.new.items ≡ events.old.items ++ changes_in change set.now) }
{
    let links = set.links.listed();
    for link in links.as_slice() {
        events.push(Event::Link(set.id, link.slc, change))?;
    }
    Ok(())
}

/// Whether a set ends at a point.
fn is_end(point: PointCode, set: &LinkSet) -> bool
    ensures { result ≡ ends_at point set.now }
{
    set.a == point || set.b == point
}

/// The change of each link of the sets that end at a point.
fn changes_of_point(
    alloc: Global,
    sets: &[LinkSet],
    point: PointCode,
    change: LinkChange,
) -> Result<Vec<Event>, AllocError>
    ensures { IfOk result (λ events. events.items ≡ flat_map (changes_at point change) (filter (ends_at point) sets.now)) }
{
    let mut events = Vec::new(alloc);
    for set in sets {
        if is_end(point, set) {
            add_changes_in(&mut events, seen_at(point, change, set), set)?;
        }
    }
    Ok(events)
}

/// The events that the change of a whole set or point means in a network; none if there is no such set or point. The network
/// accepts all of them, one after the other.
///
/// # Errors
///
/// `AllocError` if memory is refused.
pub fn events_of_whole(alloc: Global, net: &Net, whole: Whole) -> Result<Vec<Event>, AllocError>
    ensures events { IfOk result (λ events. events.items ≡ whole_events net.now whole) }
    ensures accepted { (new : Network) × (apply_all net.now (whole_events net.now whole) ≡ Ok new) }
{
    net.validity();
    match whole {
        Whole::Set(id, change) => {
            let mut events = Vec::new(alloc);
            if let Some(set) = find_set(net.sets(), id) {
                add_changes_in(&mut events, change, set)?;
            }
            Ok(events)
        }
        Whole::Point(point, change) => changes_of_point(alloc, net.sets(), point, change),
    }
}

/// Why the change of a whole set or point is refused: there is no such set or point.
pub fn refusal_of_whole(net: &Net, whole: Whole) -> Option<Refusal>
    ensures { result ≡ whole_refusal net.now whole }
{
    net.validity();
    match whole {
        Whole::Set(id, _) if !is_set(net.sets(), id) => Some(Refusal::NoSet),
        Whole::Point(point, _) if !is_point(net.points(), point) => Some(Refusal::NoPoint),
        _ => None,
    }
}

/// What stands in a list of events means in a network, or why it is refused as long as that isn't up to its events.
///
/// # Errors
///
/// `AllocError` if memory is refused.
pub fn events_of_listed(
    alloc: Global,
    net: &Net,
    entry: &Listed,
) -> Result<Result<Vec<Event>, Refusal>, AllocError>
    ensures { IfOk result (λ r. MatchResult r (λ events. meant net.now entry.now ≡ Ok events.items) (λ refusal. meant net.now entry.now ≡ Err refusal)) }
{
    match entry {
        Listed::Event(event) => {
            let event = event.copy(alloc)?;
            Ok(Ok(vec![in alloc; event]?))
        }
        Listed::Whole(whole) => match refusal_of_whole(net, *whole) {
            Some(refusal) => Ok(Err(refusal)),
            None => Ok(Ok(events_of_whole(alloc, net, *whole)?)),
        },
    }
}
