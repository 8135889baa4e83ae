//! Hubs: readers, notes, and workers beside them.

ghost use Rattle.std.specs.Prelude.{◌≡◌};

use crate::desks::{let_go, new_desk, result_of};
use crate::samples::change;
use route_state::codes::PointCode;
use route_state::desks::{Opened, Posted, Refusal};
use route_state::hubs::{Hub, Naming, Reader, Unnamed};
use route_state::jobs::{Job, Settled};
use route_state::marks::LinkChange;
use route_state::pools::{Plain, Signals, is_at_rest, run_pool, stop};
use std::alloc::Global;
use std::marker::Brand;
use std::sync::{Mutex, Wait};
use std::thread::Threads;

/// A hub over the worked network, without a name.
fn new_hub(alloc: Global) -> Option<Unnamed> {
    Unnamed::new(new_desk(alloc)?).ok()
}

/// Opens a target, at the second try if memory was refused.
fn open<N: Naming>(alloc: Global, hub: &mut Hub<N>) -> Result<Opened, Refusal> {
    match hub.open(alloc) {
        Err(Refusal::OutOfMemory) => hub.open(alloc),
        answer => answer,
    }
}

/// Publishes, at the second try if memory was refused.
fn publish<N: Naming, R: Wait>(rt: &R, alloc: Global, hub: &mut Hub<N>) -> Result<u64, Refusal> {
    match hub.publish(rt, alloc) {
        Err(Refusal::OutOfMemory) => hub.publish(rt, alloc),
        answer => answer,
    }
}

/// With room for two posts, two changes of a link are taken though memory is refused.
fn posts_with_room<N: Naming>(alloc: Global, hub: &mut Hub<N>) -> Option<bool> {
    if hub.reserve(2).is_err() {
        hub.reserve(2).ok()?;
    }
    let posted = [
        hub.post(alloc, 0, 1, change(LinkChange::Fail)),
        hub.post(alloc, 0, 2, change(LinkChange::Restore)),
    ];
    Some(posted == [Ok(Posted::Taken(1)), Ok(Posted::Taken(2))] && hub.desk().spare() == 0)
}

/// A target is opened for both.
fn opens<N: Naming>(alloc: Global, hub: &mut Hub<N>) -> bool {
    let wanted = Opened {
        target: 2,
        waiting: 1,
    };
    open(alloc, hub) == Ok(wanted)
}

/// The version and the destination of a job, which goes. That is long to prove, so it stands here once.
fn name_of(job: Job) -> (u64, PointCode) {
    (job.version(), job.excerpt().dest())
}

/// The result of the job that is taken, after it was abandoned once.
fn take_twice<N: Naming>(alloc: Global, hub: &mut Hub<N>) -> Option<Settled> {
    let (version, dest) = name_of(hub.take().ok()?);
    hub.abandon(version, dest).ok()?;
    result_of(alloc, hub.take().ok()?)
}

/// The job that waits is done.
fn works<N: Naming>(alloc: Global, hub: &mut Hub<N>) -> Option<bool> {
    let settled = take_twice(alloc, hub)?;
    Some(hub.give(settled).is_ok())
}

/// The work for version 2.
fn publishes<N: Naming, R: Wait>(rt: &R, alloc: Global, hub: &mut Hub<N>) -> Option<bool> {
    let early = publish(rt, alloc, hub);
    let worked = works(alloc, hub)?;
    let done = publish(rt, alloc, hub);
    Some(worked && [early, done] == [Err(Refusal::NotReady(1)), Ok(2)])
}

/// Workers are counted in and out, and asked to stop.
fn counts_workers<N: Naming>(hub: &mut Hub<N>) -> bool {
    hub.worker_in();
    let one = hub.living();
    hub.worker_out();
    let before = hub.stopping();
    hub.ask_stop();
    (one, hub.living(), before, hub.stopping()) == (1, 0, false, true)
}

/// The number of the version that a reader sees by a look.
fn look<N: Naming>(reader: &mut Reader<N>) -> Option<u64> {
    match reader.look() {
        Ok(version) => Some(version.number()),
        Err(_) => None,
    }
}

/// The number of the newest version of a hub.
fn newest<N: Naming>(hub: &Hub<N>) -> Option<u64> {
    match hub.newest() {
        Ok(version) => Some(version.number()),
        Err(_) => None,
    }
}

/// A reader learns what a note tells.
fn learn<N: Naming>(hub: &Hub<N>, reader: &mut Reader<N>) -> Option<()> {
    match hub.note() {
        Ok(note) => {
            reader.learn(note);
            Some(())
        }
        Err(_) => None,
    }
}

/// A reader that learnt a note sees the version of that moment, by each way to look.
fn sees<N: Naming>(hub: &Hub<N>, reader: &mut Reader<N>, number: u64) -> Option<bool> {
    learn(hub, reader)?;
    let seen = look(reader)?;
    let refreshed = reader.refresh().is_ok();
    let numbers = [seen, reader.newest().number(), newest(hub)?];
    Some(refreshed && numbers == [number, number, number])
}

/// All calls of a hub, by one thread, with a reader that is there from the beginning.
fn asks_with<N: Naming, R: Wait>(
    rt: &R,
    alloc: Global,
    hub: &mut Hub<N>,
    reader: &mut Reader<N>,
) -> Option<bool> {
    let opened = posts_with_room(alloc, hub)? && opens(alloc, hub);
    let published = publishes(rt, alloc, hub)?;
    Some(opened && published && sees(hub, reader, 2)?)
}

/// The same with a new reader.
fn asks<N: Naming, R: Wait>(rt: &R, alloc: Global, hub: &mut Hub<N>) -> Option<bool> {
    match hub.reader() {
        Ok(mut reader) => asks_with(rt, alloc, hub, &mut reader),
        Err(_) => None,
    }
}

/// The same at a new hub.
fn at_hub<N: Naming, R: Wait>(rt: &R, alloc: Global, unnamed: Unnamed) -> Option<bool>
    requires { unnamed.shown.book ≡ N.book }
{
    let Ok(mut hub) = unnamed.named::<N>(alloc) else {
        return None;
    };
    let asked = asks(rt, alloc, &mut hub);
    let counted = counts_workers(&mut hub);
    let_go(hub.close(rt));
    Some(asked? && counted)
}

/// All calls of a hub to which anyone may post.
pub(crate) fn hubs<R: Wait>(rt: &R, alloc: Global) -> Option<bool> {
    at_hub::<Brand, R>(rt, alloc, new_hub(alloc)?)
}

/// Waits until the version of a number is published.
fn wait_for<N: Naming, R: Wait>(rt: &R, hub: &Mutex<Hub<N>>, signals: &Signals, number: u64) {
    for _ in rt.forever() {
        let guard = hub.lock(rt);
        if guard.desk().published().number() >= number {
            return;
        }
        drop(signals.wait_for_news(rt, guard));
    }
    unreachable!()
}

/// Posts the failure of a link, at the second try if memory was refused, and waits for its version.
fn post_and_wait<N: Naming, R: Wait>(
    rt: &R,
    alloc: Global,
    hub: &Mutex<Hub<N>>,
    signals: &Signals,
) -> bool {
    let mut guard = hub.lock(rt);
    let rested = is_at_rest(&guard);
    let posted = match guard.post(alloc, 0, 1, change(LinkChange::Fail)) {
        Err(Refusal::OutOfMemory) => guard.post(alloc, 0, 1, change(LinkChange::Fail)),
        answer => answer,
    };
    drop(guard);
    signals.tell_post(rested);
    wait_for(rt, hub, signals, 1);
    posted == Ok(Posted::Taken(1))
}

/// Two workers beside a post: the version is published though one of them is refused memory.
fn runs_pool<N: Naming + Send + Sync, R: Threads + Wait + Sync>(
    rt: &R,
    alloc: Global,
    hub: &Mutex<Hub<N>>,
) -> bool {
    let signals = Signals::new();
    let (end, posted) = run_pool(rt, alloc, 2, hub, &signals, &Plain, || {
        post_and_wait(rt, alloc, hub, &signals)
    });
    stop(rt, hub, &signals);
    let living = hub.lock(rt).living();
    posted && living == 0 && end.started <= 2 && end.memory <= 1
}

/// The same at a new hub.
fn beside_workers<N: Naming + Send + Sync, R: Threads + Wait + Sync>(
    rt: &R,
    alloc: Global,
    unnamed: Unnamed,
) -> Option<bool>
    requires { unnamed.shown.book ≡ N.book }
{
    let Ok(hub) = unnamed.named::<N>(alloc) else {
        return None;
    };
    let hub = Mutex::new(hub);
    let right = runs_pool(rt, alloc, &hub);
    let_go(hub.into_inner().close(rt));
    Some(right)
}

/// A pool of workers at a hub.
pub(crate) fn pools<R: Threads + Wait + Sync>(rt: &R, alloc: Global) -> Option<bool> {
    beside_workers::<Brand, R>(rt, alloc, new_hub(alloc)?)
}
