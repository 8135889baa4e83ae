//! Between which points an available set is in one of two networks alone.

ghost use Rattle.std.specs.Prelude.{◌≡◌, ◌≢◌, ◌↔◌, ℕ, IsTrue, true, IfOk, OnOk, is_some, map};
ghost use Rattle.net_items.specs.Keyed.{IsRising};
ghost use Rattle.net_items.specs.Lookups.{set_between};
ghost use Rattle.link_sets.specs.Availability.{connected, set_available as set_is_available};
ghost use Rattle.std.specs.List.{list_all};
ghost use Rattle.std.specs.Option.{IfSome};
ghost use Rattle.net_data.specs.Edits.{replay};
ghost use Rattle.net_data.specs.Kinds.{is_of_links};
ghost use Rattle.excerpts.specs.Turned.{are_mates as mates_of, has_pair, is_named, keeps_plans, set_linked, told_of, ArePairsTurned, HasTold, HasTurned};

use crate::Frozen;
use crate::index::has_same_ends;
use link_sets::set_available;
use net_data::Event;
use net_items::lookups::{is_stp, mate_of};
use net_items::{LinkSet, Point};
use net_sets::set_questions::find_set;
use point_codes::PointCode;
use std::alloc::{AllocError, Global};

/// Two points, in this order.
#[derive(Clone, Copy, Debug, PartialEq, Eq)]
pub(crate) struct Pair {
    pub(crate) point: PointCode,
    pub(crate) other: PointCode,
}

/// Two points, in this order, the set between which became available, or is available no longer (own, after Q.704 clause
/// 3.2); and what is true of them whatever the destination.
#[derive(Clone, Copy, Debug, PartialEq, Eq)]
pub struct Ends {
    /// The first point.
    pub point: PointCode,
    /// The point at the other end.
    pub other: PointCode,
    /// Whether that one is a transfer point: if not, a row leads to it only if it is the destination.
    pub transfers: bool,
    /// Whether the two are mates.
    pub mates: bool,
}

/// Whether a list has two points in this order.
fn has(list: &[Pair], point: PointCode, other: PointCode) -> bool
    ensures { result ≡ has_pair list.now point other }
{
    list.iter()
        .any(|pair| pair.point == point && pair.other == other)
}

/// Puts in two points, in this order, unless they are there.
fn put_ends(list: &mut Vec<Pair>, point: PointCode, other: PointCode) -> Result<(), AllocError>
    ensures kept { OnOk result ((y z : ℕ) → has_pair list.old.items y z ≡ true → has_pair list.new.items y z ≡ true) }
    ensures put { OnOk result (has_pair list.new.items point other ≡ true) }
{
    if !has(list, point, other) {
        list.push(Pair { point, other })?;
    }
    Ok(())
}

/// Puts in the ends of a set, in both orders.
fn put_both(list: &mut Vec<Pair>, set: &LinkSet) -> Result<(), AllocError>
    ensures kept { OnOk result ((y z : ℕ) → has_pair list.old.items y z ≡ true → has_pair list.new.items y z ≡ true) }
    ensures there { OnOk result (has_pair list.new.items set.now.a set.now.b ≡ true) }
    ensures back { OnOk result (has_pair list.new.items set.now.b set.now.a ≡ true) }
{
    put_ends(list, set.a, set.b)?;
    put_ends(list, set.b, set.a)
}

/// Puts in the ends of a set, in both orders, if an available set joins them in one of two networks alone.
fn put_if_turned(
    list: &mut Vec<Pair>,
    set: &LinkSet,
    net: &Frozen,
    before: &Frozen,
) -> Result<(), AllocError>
    ensures kept { OnOk result ((y z : ℕ) → has_pair list.old.items y z ≡ true → has_pair list.new.items y z ≡ true) }
    ensures there { OnOk result (connected net.now.sets set.now.a set.now.b ≢ connected before.now.sets set.now.a set.now.b → has_pair list.new.items set.now.a set.now.b ≡ true) }
    ensures back { OnOk result (connected net.now.sets set.now.a set.now.b ≢ connected before.now.sets set.now.a set.now.b → has_pair list.new.items set.now.b set.now.a ≡ true) }
{
    if net.is_connected(set.a, set.b) != before.is_connected(set.a, set.b) {
        put_both(list, set)?;
    }
    Ok(())
}

/// Puts in the ends of each of some sets, in both orders, between which an available set is in one of two networks alone.
fn put_turned(
    list: &mut Vec<Pair>,
    sets: &[LinkSet],
    net: &Frozen,
    before: &Frozen,
) -> Result<(), AllocError>
    ensures kept { OnOk result ((y z : ℕ) → has_pair list.old.items y z ≡ true → has_pair list.new.items y z ≡ true) }
    ensures put { OnOk result ((y z : ℕ) → is_some (set_between sets.now y z) ≡ true → connected net.now.sets y z ≢ connected before.now.sets y z → has_pair list.new.items y z ≡ true) }
{
    for set in sets {
        put_if_turned(list, set, net, before)?;
    }
    Ok(())
}

/// How many ends of turned sets are told at most.
const TURNED_LIMIT: usize = 128;

/// Whether an event leaves points, plans and the transfer-restricted option as they are.
fn is_keeping(event: &Event) -> bool
    ensures { result ≡ keeps_plans event.now }
{
    match event {
        Event::Link(_, _, _) | Event::AddLink(_, _) | Event::RemoveLink(_, _) => true,
        Event::AddSet(_, _, _, _) | Event::RemoveSet(_) => true,
        _ => false,
    }
}

/// Whether some events leave points, plans and the transfer-restricted option as they are.
pub fn are_keeping(events: &[Event]) -> bool
    ensures { result ≡ list_all keeps_plans events.now }
{
    events.iter().all(is_keeping)
}

/// Whether two points are mates.
fn are_mates(points: &[Point], point: PointCode, other: PointCode) -> bool
    requires { IsRising (λ p. p.code) points.now }
    ensures { result ≡ mates_of points.now point other }
{
    match mate_of(points, point) {
        Some(mate) => mate == other,
        None => false,
    }
}

/// What is true of two points of a network, whatever the destination.
fn told(net: &Frozen, pair: Pair) -> Ends
    ensures { result ≡ told_of net.now.points pair }
{
    net.validity();
    let points = net.net().points();
    let Pair { point, other } = pair;
    Ends {
        point,
        other,
        transfers: is_stp(points, other),
        mates: are_mates(points, point, other),
    }
}

/// The same of each of some pairs.
fn all_told(alloc: Global, net: &Frozen, pairs: &[Pair]) -> Result<Vec<Ends>, AllocError>
    ensures { IfOk result (λ list. list.items ≡ map (told_of net.now.points) pairs.now) }
{
    let mut list = Vec::with_capacity(alloc, pairs.len())?;
    for pair in pairs {
        list.push(told(net, *pair))?;
    }
    Ok(list)
}

/// The ends of the sets that turned by some events, in both orders, if these leave points, plans and the option as they are, and
/// few sets turned. It fails only if memory is refused.
pub(crate) fn turned_by(
    alloc: Global,
    net: &Frozen,
    before: &Frozen,
    events: &[Event],
) -> Result<Option<Vec<Ends>>, AllocError>
    requires { net.now ≡ replay before.now events.now }
    ensures { IfOk result (λ o. IfSome o (λ list. HasTurned before.now net.now list.items)) }
{
    if !are_keeping(events) {
        return Ok(None);
    }
    let turned = turned_pairs(alloc, net, before, events)?;
    if turned.len() > TURNED_LIMIT {
        return Ok(None);
    }
    Ok(Some(all_told(alloc, net, &turned)?))
}

/// Puts in the ends of a set, in both orders, if it is available and the other one isn't, or the other way round.
fn put_if_differs(list: &mut Vec<Pair>, set: &LinkSet, other: &LinkSet) -> Result<(), AllocError>
    ensures kept { OnOk result ((y z : ℕ) → has_pair list.old.items y z ≡ true → has_pair list.new.items y z ≡ true) }
    ensures there { OnOk result (set_is_available set.now ≢ set_is_available other.now → has_pair list.new.items set.now.a set.now.b ≡ true) }
    ensures back { OnOk result (set_is_available set.now ≢ set_is_available other.now → has_pair list.new.items set.now.b set.now.a ≡ true) }
{
    if set_available(set) != set_available(other) {
        put_both(list, set)?;
    }
    Ok(())
}

/// The ends of the sets that are available in one of two lists alone, if the sets of both join the same points, one by one.
fn turned_in_place(
    alloc: Global,
    sets: &[LinkSet],
    others: &[LinkSet],
) -> Result<Option<Vec<Pair>>, AllocError>
    ensures { IfOk result (λ o. IfSome o (λ list. ArePairsTurned others.now sets.now list.items)) }
{
    if sets.len() != others.len() {
        return Ok(None);
    }
    let mut list = Vec::new(alloc);
    for position in 0..sets.len() {
        let (set, other) = (&sets[position], &others[position]);
        if !has_same_ends(set, other) {
            return Ok(None);
        }
        put_if_differs(&mut list, set, other)?;
    }
    Ok(Some(list))
}

/// The set whose links an event is about.
fn linked(event: &Event) -> Option<u16>
    ensures { result ≡ set_linked event.now }
{
    match event {
        Event::Link(id, _, _) | Event::AddLink(id, _) | Event::RemoveLink(id, _) => Some(*id),
        _ => None,
    }
}

/// Whether an event is about links.
fn is_link(event: &Event) -> bool
    ensures { result ≡ is_of_links event.now }
{
    matches!(
        event,
        Event::Link(_, _, _) | Event::AddLink(_, _) | Event::RemoveLink(_, _)
    )
}

/// Whether all events are about links.
fn are_links(events: &[Event]) -> bool
    ensures { result ≡ list_all is_of_links events.now }
{
    events.iter().all(is_link)
}

/// Puts in the ends of the set of an id, in both orders, if it is available in one of two lists alone.
fn put_named(
    list: &mut Vec<Pair>,
    sets: &[LinkSet],
    before: &[LinkSet],
    id: u16,
) -> Result<(), AllocError>
    requires rising { IsRising (λ s. s.id) sets.now }
    requires before { IsRising (λ s. s.id) before.now }
    ensures kept { OnOk result ((y z : ℕ) → has_pair list.old.items y z ≡ true → has_pair list.new.items y z ≡ true) }
    ensures told { OnOk result (HasTold before.now sets.now list.new.items id) }
{
    match (find_set(before, id), find_set(sets, id)) {
        (Some(set), Some(other)) => put_if_differs(list, set, other),
        _ => Ok(()),
    }
}

/// The ends of the sets that events of links are about, in both orders, if they are available in one of two lists alone.
pub(crate) fn turned_among(
    alloc: Global,
    sets: &[LinkSet],
    before: &[LinkSet],
    events: &[Event],
) -> Result<Vec<Pair>, AllocError>
    requires rising { IsRising (λ s. s.id) sets.now }
    requires before { IsRising (λ s. s.id) before.now }
    ensures { IfOk result (λ list. (id : ℕ) → is_named events.now id ≡ true → HasTold before.now sets.now list.items id) }
{
    let mut list = Vec::new(alloc);
    for event in events {
        if let Some(id) = linked(event) {
            put_named(&mut list, sets, before, id)?;
        }
    }
    Ok(list)
}

/// How many events are looked at one by one at most. For more, it costs less to look at all sets.
const NAMED_LIMIT: usize = 64;

/// Whether events are few, and all about links, so that the sets that they are about are looked at one by one.
pub(crate) fn are_few_links(events: &[Event]) -> bool
    ensures { result ≡ true → list_all is_of_links events.now ≡ true }
{
    events.len() <= NAMED_LIMIT && are_links(events)
}

/// Pairs of points, in both orders, and among them all that an available set joins in one of two networks alone. It fails only
/// if memory is refused.
fn turned_pairs(
    alloc: Global,
    net: &Frozen,
    before: &Frozen,
    events: &[Event],
) -> Result<Vec<Pair>, AllocError>
    requires { net.now ≡ replay before.now events.now }
    ensures { IfOk result (λ list. ArePairsTurned before.now.sets net.now.sets list.items) }
{
    net.validity();
    before.validity();
    if are_few_links(events) {
        let list = turned_among(alloc, net.net().sets(), before.net().sets(), events)?;
        return Ok(list);
    }
    if let Some(list) = turned_in_place(alloc, net.net().sets(), before.net().sets())? {
        return Ok(list);
    }
    let mut list = Vec::new(alloc);
    put_turned(&mut list, net.net().sets(), net, before)?;
    put_turned(&mut list, before.net().sets(), net, before)?;
    Ok(list)
}
