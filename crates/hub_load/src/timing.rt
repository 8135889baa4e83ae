//! What a look costs, and what a post.

use crate::soaking::reader_at;
use link_state::LinkChange;
use net_data::Event;
use std::alloc::Global;
use std::process::ExitCode;
use std::sync::{Mutex, Wait};
use std::thread::Threads;
use std::time::Instant;
use std::{io, thread};
use versions::{Hub, Naming, Reader};
use worker_pool::{Signals, is_at_rest};

/// Which way a reader looks.
#[derive(Clone, Copy)]
pub(crate) enum Way {
    /// `look`, which gives a share of the version.
    Look,
    /// `refresh`, which gives none.
    Refresh,
}

/// That many looks.
fn look<N: Naming>(mut reader: Reader<N>, way: Way, count: u64) {
    for _ in 0..count {
        let _ = match way {
            Way::Look => reader.look().map(|_| ()),
            Way::Refresh => reader.refresh(),
        };
    }
}

/// Looks of readers side by side.
fn look_all<N: Naming + Send + Sync, R: Threads + Wait + Sync>(
    threads: &R,
    hub: &Mutex<Hub<N>>,
    way: Way,
    readers: u32,
    count: u64,
) {
    thread::scope(thread::scope_env(), threads, |scope| {
        for _ in 0..readers {
            if let Some(reader) = reader_at(threads, hub) {
                let _ = scope.spawn(move || look(reader, way, count));
            }
        }
    });
}

/// How long looks of readers side by side take, in nanoseconds.
pub(crate) fn time_looks<N: Naming + Send + Sync, R: Threads + Wait + Sync>(
    rt: &HostRuntime,
    threads: &R,
    hub: &Mutex<Hub<N>>,
    way: Way,
    readers: u32,
    count: u64,
) -> io::Result<u128> {
    let start = Instant::now(rt)?;
    look_all(threads, hub, way, readers, count);
    Ok(start.elapsed(rt)?.as_nanos())
}

/// One post with the lock and the wake.
fn post<N: Naming, R: Wait>(
    rt: &R,
    alloc: Global,
    hub: &Mutex<Hub<N>>,
    signals: &Signals,
    seq: u64,
    event: Event,
) {
    let mut guard = hub.lock(rt);
    let rested = is_at_rest(&guard);
    let _ = guard.post(alloc, 0, seq, event);
    drop(guard);
    signals.tell_post(rested);
}

/// Posts one after the other.
fn post_all<N: Naming, R: Wait>(
    rt: &R,
    alloc: Global,
    hub: &Mutex<Hub<N>>,
    signals: &Signals,
    count: u64,
) {
    for seq in 0..count {
        let event = Event::Link(1, 0, LinkChange::Fail);
        post(rt, alloc, hub, signals, seq + 1, event);
    }
}

/// How long posts take, in nanoseconds; those beyond 65,536 are refused.
pub(crate) fn time_posts<N: Naming, R: Wait>(
    rt: &HostRuntime,
    threads: &R,
    hub: &Mutex<Hub<N>>,
    count: u64,
) -> io::Result<u128> {
    let signals = Signals::new();
    let start = Instant::now(rt)?;
    post_all(threads, rt.alloc(), hub, &signals, count);
    Ok(start.elapsed(rt)?.as_nanos())
}

/// Tells how long each of a number of calls took.
pub(crate) fn tell(rt: &HostRuntime, count: u64, what: &str, nanos: u128) -> io::Result<ExitCode> {
    let each = nanos / u128::from(count.max(1));
    println!(rt; "{count} {what}")?;
    eprintln!(rt; "{each} ns each")?;
    Ok(ExitCode::SUCCESS)
}
