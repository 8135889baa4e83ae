//! The table of a destination, and what works at it.

use crate::desks::result_of;
use crate::samples::{change, code, frozen, worked};
use route_state::choices::Far;
use route_state::codes::PointCode;
use route_state::excerpt::{Excerpt, Frozen, SharedExcerpt};
use route_state::jobs::{Job, Settled};
use route_state::marks::LinkChange;
use route_state::nets::{Event, Kind, Net};
use route_state::tables::{Clause, Complaint, Kept, Table, check, check_kept, table_of};
use route_state::touched::{TouchIndex, Waiting};
use std::alloc::{AllocError, Global};

/// Whether an excerpt is that of 2-1-2.
fn is_read(excerpt: &Excerpt, net: &Net) -> Option<bool> {
    let (p, q, x) = (code("2-10-1")?, code("2-10-2")?, code("2-1-2")?);
    let read = (excerpt.dest(), excerpt.kind_of(p), excerpt.mate_of(p));
    let right = read == (x, Some(Kind::Stp), Some(q)) && excerpt.is_of(net, x);
    Some(right && excerpt.plan().rows.as_slice().len() == 3)
}

/// Whether an excerpt equals itself, shared once more.
fn shares(excerpt: &Excerpt) -> Option<bool> {
    let same = excerpt.share().ok()?;
    Some(excerpt.equals(&same.excerpt()))
}

/// What the table of 2-1-2 reads of a network.
fn asks_excerpt(net: &Frozen, x: PointCode) -> Option<bool> {
    let excerpt = Excerpt::of(net, x)?;
    let read = is_read(&excerpt, net.net());
    let shared = shares(&excerpt);
    Some(read? && shared?)
}

/// What the table of 2-1-2 reads of the worked network.
pub(crate) fn excerpt(alloc: Global) -> Option<bool> {
    let x = code("2-1-2")?;
    asks_excerpt(&frozen(alloc)?, x)
}

/// The worked network after a change of the link 4 0.
fn net_after(alloc: Global, how: LinkChange) -> Option<Net> {
    let mut net = worked(alloc)?;
    match net.apply(alloc, &change(how)) {
        Ok(()) => Some(net),
        Err(_) => None,
    }
}

/// What the table of 2-1-2 reads of it.
fn excerpt_after(alloc: Global, how: LinkChange) -> Option<SharedExcerpt> {
    let x = code("2-1-2")?;
    let net = Frozen::new(alloc, net_after(alloc, how)?).ok()?;
    SharedExcerpt::of(&net, x).ok()
}

/// In a table 2-10-2 leads restricted over its mate.
fn leads_over_mate(table: &Table, q: PointCode) -> Option<bool> {
    let row = table.row(q)?;
    Some((row.choice.class, row.choice.status) == (5, Far::Restricted))
}

/// A complaint about a point.
fn complaint(point: PointCode, clause: Clause) -> Result<(), Complaint> {
    Err(Complaint { point, clause })
}

/// Whether a copy of a table has 2-10-2 lead over its mate.
fn copies(alloc: Global, table: &Table, q: PointCode) -> Option<bool> {
    let copy = table.copy(alloc).ok()?;
    leads_over_mate(&copy, q)
}

/// What is kept of the choices of a table.
fn kept_of(alloc: Global, table: &Table) -> Option<Vec<Kept>> {
    let mut kept = Vec::new(alloc);
    for row in table.rows.as_slice() {
        if row.choice.class >= 16 {
            return None;
        }
        kept.push(Kept::of(&row.choice)).ok()?;
    }
    Some(kept)
}

/// What is kept of a table, checked as that of this network and of another, and without any row.
fn asks_kept(
    alloc: Global,
    before: &Excerpt,
    after: &Excerpt,
    table: &Table,
    q: PointCode,
) -> Option<bool> {
    let kept = kept_of(alloc, table)?;
    let said = [
        check_kept(after, kept.as_slice()),
        check_kept(before, kept.as_slice()),
        check_kept(after, &[]),
    ];
    let wanted = [
        Ok(()),
        complaint(q, Clause::Route),
        complaint(after.dest(), Clause::Points),
    ];
    Some(said == wanted)
}

/// The table of an excerpt, checked as that of this network and of another.
fn asks_table(alloc: Global, before: &Excerpt, after: &Excerpt, q: PointCode) -> Option<bool> {
    let table = table_of(alloc, after).ok()?;
    let said = [check(after, &table), check(before, &table)];
    let right = said == [Ok(()), complaint(q, Clause::Route)];
    let kept = asks_kept(alloc, before, after, &table, q);
    let copied = copies(alloc, &table, q);
    Some(right && kept? && copied?)
}

/// The table after the failure of the link 4 0.
pub(crate) fn tables(alloc: Global) -> Option<bool> {
    let q = code("2-10-2")?;
    let before = excerpt_after(alloc, LinkChange::Restore)?;
    match excerpt_after(alloc, LinkChange::Fail) {
        Some(after) => asks_table(alloc, &before.excerpt(), &after.excerpt(), q),
        None => None,
    }
}

/// The result of a job for version 1.
fn new_result(alloc: Global, x: PointCode) -> Option<Settled> {
    let job = Job::new(alloc, 1, &worked(alloc)?, x).ok()?;
    result_of(alloc, job)
}

/// The destination of the table of a result.
fn table_dest(alloc: Global, settled: &Settled) -> Option<PointCode> {
    let table = settled.table(alloc).ok()?;
    Some(table.dest)
}

/// A job for version 1, and its result.
pub(crate) fn jobs(alloc: Global) -> Option<bool> {
    let x = code("2-1-2")?;
    let settled = new_result(alloc, x)?;
    let dests = [settled.dest(), settled.excerpt().dest()];
    let right = settled.version() == 1 && dests == [x, x];
    Some(right && table_dest(alloc, &settled)? == x)
}

/// The first that waits goes out, and waits again.
fn comes_back(waiting: &mut Waiting, x: PointCode) -> bool {
    let taken = waiting.take_first();
    if !waiting.is_out(x) {
        return false;
    }
    waiting.put_last(x);
    taken == Some(x)
}

/// The first that waits goes out, and is done.
fn is_done(waiting: &mut Waiting, x: PointCode) -> bool {
    let taken = waiting.take_first();
    if !waiting.is_out(x) {
        return false;
    }
    let out = waiting.first_out();
    waiting.done(x);
    [taken, out] == [Some(x), Some(x)] && (waiting.len(), waiting.left()) == (0, 0)
}

/// One destination that waits, goes out, waits again, goes out and is done.
fn waits(alloc: Global, x: PointCode) -> Option<bool> {
    let mut waiting = Waiting::fill(alloc, &[x]).ok()?;
    let waits = waiting.first() == Some(x);
    Some(waits && comes_back(&mut waiting, x) && is_done(&mut waiting, x))
}

/// Whether a list that was worked out has this destination alone.
fn is_alone(list: Result<Vec<PointCode>, AllocError>, x: PointCode) -> Option<bool> {
    match list {
        Ok(list) => Some(list.as_slice() == [x].as_slice()),
        Err(_) => None,
    }
}

/// Whether an event touches this destination alone.
fn touches(alloc: Global, net: &Net, event: &Event, x: PointCode) -> Option<bool> {
    if net.refusal_of(event).is_some() {
        return Some(false);
    }
    let index = TouchIndex::new(alloc, net).ok()?;
    is_alone(index.touched(alloc, net, event), x)
}

/// Whether an index follows an event.
fn follows(alloc: Global, net: &Net, event: &Event) -> Option<bool> {
    if net.refusal_of(event).is_some() {
        return Some(false);
    }
    let mut index = TouchIndex::new(alloc, net).ok()?;
    Some(index.follow(alloc, net, event).is_ok())
}

/// Whether the failure of the link 4 0 touches this destination alone.
fn is_touched(alloc: Global, x: PointCode) -> Option<bool> {
    let event = change(LinkChange::Fail);
    let net = worked(alloc)?;
    let touched = touches(alloc, &net, &event, x);
    let followed = follows(alloc, &net, &event);
    Some(touched? && followed?)
}

/// Which destinations the failure of the link 4 0 touches, and who waits.
pub(crate) fn touched(alloc: Global) -> Option<bool> {
    let x = code("2-1-2")?;
    Some(is_touched(alloc, x)? && waits(alloc, x)?)
}
