//! What the tests start from: networks after changes of links, and excerpts and tables of them.

use desk_core::Desk;
use excerpts::{Excerpt, Frozen, SharedExcerpt};
use link_state::LinkChange;
use net_data::{Event, Net};
use point_codes::PointCode;
use sample_nets::{code, two_ends, worked};
use script_words::read_event;
use std::alloc::Global;
use std::process::Abort;
use tokens::split_words;
use transfer_state::{Table, table_of};
use work_units::{Job, Settled, settle};

/// A change of one link: its set, its code, the change.
pub(crate) type Edit = (u16, u8, LinkChange);

/// The code that a text is.
pub(crate) fn point(rt: &impl Abort, text: &str) -> PointCode {
    code(text).expect(rt, "a code")
}

/// The network of two ends.
pub(crate) fn two_ends_net(rt: &impl Abort, alloc: Global) -> Net {
    two_ends(alloc).expect(rt, "a network")
}

/// The worked network after some changes of links.
pub(crate) fn worked_after(rt: &impl Abort, alloc: Global, edits: &[Edit]) -> Net {
    let mut net = worked(alloc).expect(rt, "a network");
    for (id, slc, change) in edits {
        let event = Event::Link(*id, *slc, *change);
        net.apply(alloc, &event).expect(rt, "a change");
    }
    net
}

/// A network that doesn't change.
pub(crate) fn frozen(rt: &impl Abort, alloc: Global, net: Net) -> Frozen {
    Frozen::new(alloc, net).expect(rt, "memory")
}

/// What the table of a destination reads of a network.
pub(crate) fn excerpt_of(rt: &impl Abort, net: &Frozen, dest: &str) -> SharedExcerpt {
    SharedExcerpt::of(net, point(rt, dest)).expect(rt, "a plan")
}

/// What the table of 2-1-2 reads of the worked network after some changes of links.
pub(crate) fn worked_excerpt(rt: &impl Abort, alloc: Global, edits: &[Edit]) -> SharedExcerpt {
    let net = frozen(rt, alloc, worked_after(rt, alloc, edits));
    excerpt_of(rt, &net, "2-1-2")
}

/// What the table of 2-1-2 reads between two ends.
pub(crate) fn two_ends_excerpt(rt: &impl Abort, alloc: Global) -> SharedExcerpt {
    let net = frozen(rt, alloc, two_ends_net(rt, alloc));
    excerpt_of(rt, &net, "2-1-2")
}

/// The table of an excerpt.
pub(crate) fn new_table(rt: &impl Abort, alloc: Global, excerpt: &Excerpt) -> Table {
    table_of(alloc, excerpt).expect(rt, "memory")
}

/// The table of 2-1-2 between two ends.
pub(crate) fn two_ends_table(rt: &impl Abort, alloc: Global) -> Table {
    let excerpt = two_ends_excerpt(rt, alloc);
    new_table(rt, alloc, &excerpt.excerpt())
}

/// The event that a line of words says.
pub(crate) fn event_of(rt: &impl Abort, alloc: Global, line: &str) -> Event {
    let words = split_words(alloc, line.as_bytes()).expect(rt, "memory");
    let event = read_event(alloc, words.as_slice()).expect(rt, "memory");
    event.expect(rt, "an event")
}

/// A desk over the worked network.
pub(crate) fn new_desk(rt: &impl Abort, alloc: Global) -> Desk {
    Desk::start(alloc, worked_after(rt, alloc, &[])).expect(rt, "memory")
}

/// Lets a desk go. That is long to prove, so it stands here once.
pub(crate) fn let_go(_desk: Desk) {}

/// The result of a job.
pub(crate) fn settled(rt: &impl Abort, alloc: Global, job: Job) -> Settled {
    settle(alloc, job).ok().expect(rt, "a result")
}

/// The result of a job for version 1 and 2-1-2, of the worked network after some changes of links.
pub(crate) fn result_of(rt: &impl Abort, alloc: Global, edits: &[Edit]) -> Settled {
    let net = worked_after(rt, alloc, edits);
    let job = Job::new(alloc, 1, &net, point(rt, "2-1-2")).expect(rt, "a job");
    settled(rt, alloc, job)
}
