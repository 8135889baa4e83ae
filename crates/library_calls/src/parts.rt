//! Points, links, sets and networks.

use crate::samples::{code, worked};
use route_state::choices::{Choice, Far, choose, direct};
use route_state::codes::{MsgKind, PointCode, tfm_octets};
use route_state::marks::{End, LinkChange, Marks};
use route_state::nets::{Classes, Event, Kind, LinkSet, Net, Refusal, Row, Vias};
use route_state::sets::{Neighbours, mask, set_available, set_between};
use route_state::shares::{link_for, member_for, probe};
use std::alloc::Global;

/// Whether a code is written so.
fn is_written(alloc: Global, code: PointCode, wanted: &str) -> Option<bool> {
    let mut text = String::new(alloc);
    code.put_text(alloc, &mut text).ok()?;
    Some(text.as_str() == wanted)
}

/// The octets of a message about 2-1-2.
const OCTETS: [u8; 8] = [0x80, 0x51, 0x90, 0x14, 0x04, 0x14, 0x0A, 0x10];

/// Whether a code has its number and its parts.
fn has_parts(x: PointCode) -> bool {
    PointCode::new(4106) == Some(x)
        && x.number() == 4106
        && (x.zone(), x.area(), x.point()) == (2, 1, 2)
}

/// A code by its parts and as a text, and the octets of a message about it.
pub(crate) fn codes(alloc: Global) -> Option<bool> {
    let (p, q, x) = (code("2-10-1")?, code("2-10-2")?, code("2-1-2")?);
    let is_told = tfm_octets(2, p, q, MsgKind::Tfp, x) == OCTETS;
    let written = is_written(alloc, x, "2-1-2")?;
    Some(has_parts(x) && is_told && written)
}

/// A link that is blocked.
pub(crate) fn marks() -> bool {
    let marks = Marks::FAILED
        .after(LinkChange::Restore)
        .after(LinkChange::Block(End::First));
    !marks.available() && marks.case() == 2
}

/// An event is applied to a network, at the second try if memory was refused.
fn apply(alloc: Global, net: &mut Net, event: &Event) -> Option<()> {
    match net.apply(alloc, event) {
        Err(Refusal::OutOfMemory) => net.apply(alloc, event).ok(),
        answer => answer.ok(),
    }
}

/// Whether a network has this point and nothing else.
fn is_of_one_point(net: &Net, point: PointCode) -> bool {
    let counts = (
        net.points().len(),
        net.sets().len(),
        net.plans().len(),
        net.ni(),
    );
    counts == (1, 0, 0, 2) && net.mate_of(point).is_none() && net.plan(point).is_none()
}

/// Whether a copy of an event equals it.
fn copies_event(alloc: Global, point: PointCode) -> Option<bool> {
    let event = Event::AddPoint(point, Kind::Sep);
    let same = event.copy(alloc).ok()?;
    Some(event.equals(&same))
}

/// A network of one point.
fn one_point(alloc: Global, point: PointCode) -> Option<Net> {
    let event = Event::AddPoint(point, Kind::Sep);
    let mut net = Net::empty(alloc, 2);
    match apply(alloc, &mut net, &event) {
        Some(()) => Some(net),
        None => None,
    }
}

/// Whether a copy of a network equals it, and has this point alone.
fn copies(alloc: Global, net: &Net, point: PointCode) -> Option<bool> {
    let copy = net.copy(alloc).ok()?;
    Some(net.equals(&copy) && is_of_one_point(&copy, point))
}

/// A network of one point, and copies.
pub(crate) fn nets(alloc: Global) -> Option<bool> {
    let point = code("2-1-1")?;
    let copied = copies(alloc, &one_point(alloc, point)?, point)?;
    Some(copied && copies_event(alloc, point)?)
}

/// The first point that each of two is joined to: none if no link is up.
fn asks_neighbours(sets: &[LinkSet], q: PointCode, r: PointCode) -> bool {
    let firsts = [
        Neighbours::new(sets, q).next(),
        Neighbours::new(sets, r).next(),
    ];
    firsts == [code("2-1-1"), None]
}

/// The set between two points, and the points that others are joined to.
fn asks_sets(sets: &[LinkSet]) -> Option<bool> {
    let (q, x, r) = (code("2-10-2")?, code("2-1-2")?, code("2-1-3")?);
    let set = set_between(sets, x, q)?;
    let said = (set.id, set_available(set), mask(set)) == (4, true, 1);
    Some(said && asks_neighbours(sets, q, r))
}

/// Sets of the worked network.
pub(crate) fn sets(alloc: Global) -> Option<bool> {
    asks_sets(worked(alloc)?.sets())
}

/// The links of a set of two.
fn asks_links(sets: &[LinkSet]) -> Option<bool> {
    let set = set_between(sets, code("2-1-1")?, code("2-10-1")?)?;
    Some([link_for(set, 0), link_for(set, 1)] == [Some(0), Some(1)])
}

/// The links of a set of two, and the vias of a class of two.
pub(crate) fn shares(alloc: Global) -> Option<bool> {
    let order = [probe(1, 3, 0), probe(1, 3, 1), probe(1, 3, 2)];
    let via = member_for(2, [true, false], 5);
    let links = asks_links(worked(alloc)?.sets())?;
    Some(order == [1, 2, 0] && via == (0, 10) && links)
}

/// The choice of a row that leads to the destination, allowed there.
pub(crate) fn choices() -> Option<bool> {
    let (p, x) = (code("2-10-1")?, code("2-1-2")?);
    let row = Row {
        point: p,
        rank: 1,
        mate: false,
        classes: Classes::of_one(Vias::of_one(x)),
    };
    let mut fars = [[Far::Prohibited; 2]; 4];
    fars[0][0] = Far::Allowed;
    let wanted = Choice {
        class: 1,
        members: [Some(x), None],
        status: Far::Allowed,
    };
    Some(choose(&row, &fars, None, true) == wanted && direct(&row, &fars, true) == Far::Allowed)
}
