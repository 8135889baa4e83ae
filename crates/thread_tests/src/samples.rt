//! What the tests start from, and how they wait.

ghost use Rattle.std.specs.Prelude.{◌≡◌};

use desk_core::Desk;
use link_state::LinkChange;
use net_data::{Event, Net};
use sample_nets::worked;
use script_words::read_event;
use std::alloc::Global;
use std::process::Abort;
use std::sync::{Mutex, Wait};
use tokens::split_words;
use versions::{Hub, Naming, Posters, Unnamed};
use worker_pool::Signals;

/// A failure of a link.
pub(crate) fn fail(id: u16, slc: u8) -> Event {
    Event::Link(id, slc, LinkChange::Fail)
}

/// A restoration of a link.
pub(crate) fn restore(id: u16, slc: u8) -> Event {
    Event::Link(id, slc, LinkChange::Restore)
}

/// A desk over a network.
pub(crate) fn desk_over(rt: &impl Abort, alloc: Global, net: Net) -> Desk {
    Desk::start(alloc, net).expect(rt, "memory")
}

/// A desk over the worked network.
pub(crate) fn worked_desk(rt: &impl Abort, alloc: Global) -> Desk {
    desk_over(rt, alloc, worked(alloc).expect(rt, "a network"))
}

/// The edit that plans 2-1-3 too.
fn plan_of_third(rt: &impl Abort, alloc: Global) -> Event {
    let line = b"plan set 2-1-3 2-10-1:1:2-1-3".as_slice();
    let words = split_words(alloc, line).expect(rt, "memory");
    let event = read_event(alloc, words.as_slice()).expect(rt, "memory");
    event.expect(rt, "an event")
}

/// The worked network with a plan of 2-1-3 too.
pub(crate) fn two_plans(rt: &impl Abort, alloc: Global) -> Net {
    let mut net = worked(alloc).expect(rt, "a network");
    let _ = net.apply(alloc, &plan_of_third(rt, alloc));
    net
}

/// A hub for its lock, to which collector 0 has posted an event.
pub(crate) fn posted<N: Naming>(
    rt: &impl Abort,
    alloc: Global,
    unnamed: Unnamed,
    event: Event,
) -> Mutex<Hub<N>>
    requires { unnamed.shown.book ≡ N.book }
{
    let mut hub = unnamed.named::<N>(alloc).expect(rt, "places");
    let _ = hub.post(alloc, 0, 1, event);
    Mutex::new(hub)
}

/// Which version of a desk is published, and how many events are accepted; the desk goes.
fn numbers_of(desk: Desk) -> (u64, u64) {
    (desk.published().number(), desk.accepted())
}

/// Ends a hub, and tells which version is published and how many events are accepted.
fn ended<N: Naming, P: Posters, R: Wait>(rt: &R, hub: Mutex<Hub<N, P>>) -> (u64, u64) {
    numbers_of(hub.into_inner().close(rt))
}

/// Ends a hub, of which this version is published and so many events are accepted.
pub(crate) fn expect_ended<N: Naming, P: Posters, R: Wait + Abort>(
    rt: &R,
    hub: Mutex<Hub<N, P>>,
    numbers: (u64, u64),
) {
    assert_eq!(rt; ended(rt, hub), numbers);
}

/// Waits until the version of a number, or a later one, is published.
pub(crate) fn wait_for<N: Naming, P: Posters, R: Wait>(
    rt: &R,
    hub: &Mutex<Hub<N, P>>,
    signals: &Signals,
    number: u64,
) {
    for _ in rt.forever() {
        let guard = hub.lock(rt);
        if guard.desk().published().number() >= number {
            return;
        }
        drop(signals.wait_for_news(rt, guard));
    }
    unreachable!()
}
