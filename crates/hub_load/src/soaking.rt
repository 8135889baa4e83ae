//! Collectors, workers and readers at one hub.

use link_state::LinkChange;
use net_data::Event;
use std::alloc::Global;
use std::process::ExitCode;
use std::sync::atomic::{AtomicBool, AtomicU64, Ordering};
use std::sync::{Mutex, Wait};
use std::thread::Threads;
use std::time::Instant;
use std::{io, thread};
use versions::{Hub, Naming, Reader};
use work_units::Refusal;
use worker_pool::{Plain, Signals, is_at_rest, run_pool};

/// How many threads there are of each kind, and how many events they post in all.
#[derive(Clone, Copy)]
pub(crate) struct Soak {
    pub(crate) workers: u32,
    pub(crate) readers: u32,
    pub(crate) collectors: u8,
    pub(crate) events: u64,
}

/// What the threads have counted.
#[derive(Drop)]
struct Tally {
    /// Whether all is published.
    done: AtomicBool,
    /// Looks.
    looks: AtomicU64,
    /// Looks that were refused, or went back behind one before.
    back: AtomicU64,
    /// Posts that were tried again, since too many events waited.
    again: AtomicU64,
}

/// One post of a collector: whether it was accepted. If too many events wait it waits for a publication.
fn post_one<N: Naming, R: Wait>(
    rt: &R,
    alloc: Global,
    hub: &Mutex<Hub<N>>,
    signals: &Signals,
    collector: u8,
    seq: u64,
    event: Event,
) -> bool {
    let mut guard = hub.lock(rt);
    let rested = is_at_rest(&guard);
    match guard.post(alloc, collector, seq, event) {
        Err(Refusal::BacklogFull) => {
            drop(signals.wait_for_news(rt, guard));
            false
        }
        _ => {
            drop(guard);
            signals.tell_post(rested);
            true
        }
    }
}

/// The change that a collector posts under a number: the link 0 of a set fails, and returns.
fn change(id: u16, seq: u64) -> Event {
    if seq % 2 == 1 {
        Event::Link(id, 0, LinkChange::Fail)
    } else {
        Event::Link(id, 0, LinkChange::Restore)
    }
}

/// A collector posts that many events.
fn collect<N: Naming, R: Wait>(
    rt: &R,
    alloc: Global,
    hub: &Mutex<Hub<N>>,
    signals: &Signals,
    tally: &Tally,
    collector: u8,
    id: u16,
    count: u64,
) {
    let mut seq = 0u64;
    for _ in rt.forever() {
        if seq == count {
            return;
        }
        let next = seq.saturating_add(1);
        if post_one(rt, alloc, hub, signals, collector, next, change(id, next)) {
            seq = next;
        } else {
            tally.again.fetch_add(1, Ordering::SeqCst);
        }
    }
    unreachable!()
}

/// The number that a look sees; none if it is refused.
fn look_number<N: Naming>(reader: &mut Reader<N>) -> Option<u64> {
    match reader.look() {
        Ok(version) => Some(version.number()),
        Err(_) => None,
    }
}

/// Looks until all is published: how many looks there were, and how many of them were refused or went back behind one before.
fn count_looks<N: Naming, R: Wait>(rt: &R, reader: &mut Reader<N>, tally: &Tally) -> (u64, u64) {
    let mut last = 0u64;
    let mut looks = 0u64;
    let mut back = 0u64;
    for _ in rt.forever() {
        match look_number(reader) {
            Some(number) if number >= last => last = number,
            _ => back = back.saturating_add(1),
        }
        looks = looks.saturating_add(1);
        if tally.done.load(Ordering::SeqCst) {
            return (looks, back);
        }
    }
    unreachable!()
}

/// A reader looks until all is published, and its looks are counted.
fn watch<N: Naming, R: Wait>(rt: &R, mut reader: Reader<N>, tally: &Tally) {
    let (looks, back) = count_looks(rt, &mut reader, tally);
    tally.looks.fetch_add(looks, Ordering::SeqCst);
    tally.back.fetch_add(back, Ordering::SeqCst);
}

/// A reader of the hub, if there is a place.
pub(crate) fn reader_at<N: Naming, R: Wait>(rt: &R, hub: &Mutex<Hub<N>>) -> Option<Reader<N>> {
    hub.lock(rt).reader().ok()
}

/// Waits until that many events are published.
fn wait_for<N: Naming, R: Wait>(rt: &R, hub: &Mutex<Hub<N>>, signals: &Signals, number: u64) {
    for _ in rt.forever() {
        let guard = hub.lock(rt);
        if guard.desk().published().number() >= number {
            return;
        }
        drop(signals.wait_for_news(rt, guard));
    }
    unreachable!()
}

/// The ids of the sets of the published network, of which each collector takes one.
fn set_ids<N: Naming>(alloc: Global, hub: &Hub<N>) -> Vec<u16> {
    let mut ids: Vec<u16> = Vec::new(alloc);
    for set in hub.desk().net_now().sets() {
        if ids.push(set.id).is_err() {
            return ids;
        }
    }
    ids
}

/// The set whose link a collector fails and restores.
fn set_of(ids: &[u16], collector: u8) -> u16 {
    match ids.get(usize::from(collector)) {
        Some(id) => *id,
        None => 0,
    }
}

/// The collectors post their events.
fn post_all<N: Naming + Send + Sync, R: Threads + Wait + Sync>(
    rt: &R,
    alloc: Global,
    hub: &Mutex<Hub<N>>,
    signals: &Signals,
    tally: &Tally,
    load: Soak,
    ids: &[u16],
) {
    let share = load.events / u64::from(load.collectors.max(1));
    thread::scope(thread::scope_env(), rt, |scope| {
        for collector in 0..load.collectors {
            let id = set_of(ids, collector);
            let started = scope.spawn(move || {
                collect(rt, alloc, hub, signals, tally, collector, id, share)
            });
            if started.is_err() {
                collect(rt, alloc, hub, signals, tally, collector, id, share);
            }
        }
    });
}

/// Posts all, and waits until all is published.
fn post_and_wait<N: Naming + Send + Sync, R: Threads + Wait + Sync>(
    rt: &R,
    alloc: Global,
    hub: &Mutex<Hub<N>>,
    signals: &Signals,
    tally: &Tally,
    load: Soak,
    ids: &[u16],
) {
    post_all(rt, alloc, hub, signals, tally, load, ids);
    let accepted = hub.lock(rt).desk().accepted();
    wait_for(rt, hub, signals, accepted);
    tally.done.store(true, Ordering::SeqCst);
}

/// Readers and collectors beside the workers; ends when all is published.
fn drive<N: Naming + Send + Sync, R: Threads + Wait + Sync>(
    rt: &R,
    alloc: Global,
    hub: &Mutex<Hub<N>>,
    signals: &Signals,
    tally: &Tally,
    load: Soak,
    ids: &[u16],
) {
    thread::scope(thread::scope_env(), rt, |scope| {
        for _ in 0..load.readers {
            if let Some(reader) = reader_at(rt, hub) {
                let _ = scope.spawn(move || watch(rt, reader, tally));
            }
        }
        post_and_wait(rt, alloc, hub, signals, tally, load, ids);
    });
}

/// How many collectors have that number as their last.
fn count_right<N: Naming>(hub: &Hub<N>, collectors: u8, last: u64) -> u32 {
    let mut right = 0u32;
    for collector in 0..collectors {
        if hub.desk().last_seq(collector) == last {
            right = right.saturating_add(1);
        }
    }
    right
}

/// What became of the events: how many are accepted, how many published, how many collectors have the right last number.
fn outcome<N: Naming>(hub: &Hub<N>, load: Soak) -> (u64, u64, u32) {
    let share = load.events / u64::from(load.collectors.max(1));
    let desk = hub.desk();
    (
        desk.accepted(),
        desk.published().number(),
        count_right(hub, load.collectors, share),
    )
}

/// Tells what became of the events, and what was timed.
fn report(
    rt: &HostRuntime,
    outcome: (u64, u64, u32),
    tally: &Tally,
    nanos: u128,
) -> io::Result<ExitCode> {
    let (accepted, published, right) = outcome;
    let back = tally.back.load(Ordering::SeqCst);
    println!(rt; "accepted {accepted} published {published} collectors {right} back {back}")?;
    let looks = tally.looks.load(Ordering::SeqCst);
    let again = tally.again.load(Ordering::SeqCst);
    let millis = nanos / 1000000;
    eprintln!(rt; "{millis} ms, {looks} looks, {again} posts tried again")?;
    Ok(ExitCode::SUCCESS)
}

/// Runs the threads.
fn run_threads<N: Naming + Send + Sync, R: Threads + Wait + Sync>(
    threads: &R,
    alloc: Global,
    hub: &Mutex<Hub<N>>,
    tally: &Tally,
    load: Soak,
) {
    let workers = load.workers.clamp(1, 32);
    let ids = set_ids(alloc, &*hub.lock(threads));
    let signals = Signals::new();
    run_pool(threads, alloc, workers, hub, &signals, &Plain, || {
        drive(threads, alloc, hub, &signals, tally, load, ids.as_slice())
    });
}

/// How long the threads run, in nanoseconds.
fn time_threads<N: Naming + Send + Sync, R: Threads + Wait + Sync>(
    rt: &HostRuntime,
    threads: &R,
    hub: &Mutex<Hub<N>>,
    tally: &Tally,
    load: Soak,
) -> io::Result<u128> {
    let start = Instant::now(rt)?;
    run_threads(threads, rt.alloc(), hub, tally, load);
    Ok(start.elapsed(rt)?.as_nanos())
}

/// Runs the threads, and tells what became of the events.
pub(crate) fn run_soak<N: Naming + Send + Sync, R: Threads + Wait + Sync>(
    rt: &HostRuntime,
    threads: &R,
    hub: &Mutex<Hub<N>>,
    load: Soak,
) -> io::Result<ExitCode> {
    let tally = Tally {
        done: AtomicBool::new(false),
        looks: AtomicU64::new(0),
        back: AtomicU64::new(0),
        again: AtomicU64::new(0),
    };
    let nanos = time_threads(rt, threads, hub, &tally, load)?;
    let outcome = outcome(&*hub.lock(threads), load);
    report(rt, outcome, &tally, nanos)
}
