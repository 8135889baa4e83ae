//! The program `library_example`: how a Rust program uses `route_state` (own).
//!
//! It reads a network text from standard input. Two threads post the failure of a link each, beside two workers. A reader looks until
//! the version is published that has both, and the program tells a status and a trace of it.
//!
//! Stands on `route_state`. Nothing else changes with it.
#![tactic(auto)]

ghost use Rattle.std.specs.Prelude.{◌≡◌};

use route_state::codes::PointCode;
use route_state::desks::Desk;
use route_state::hubs::{Hub, Naming, Reader, Unnamed, Version};
use route_state::marks::LinkChange;
use route_state::nets::Event;
use route_state::pools::{Plain, Signals, is_at_rest, run_pool};
use route_state::scripts::read_net;
use route_state::traces::{Trace, trace};
use std::alloc::Global;
use std::marker::Brand;
use std::process::ExitCode;
use std::sync::{Mutex, Wait};
use std::thread::{Threads, join};
use std::{io, thread};

/// Posts the failure of a link as the first event of a collector, and wakes the workers.
fn post<N: Naming, R: Wait>(
    rt: &R,
    alloc: Global,
    hub: &Mutex<Hub<N>>,
    signals: &Signals,
    collector: u8,
    set: u16,
) {
    let event = Event::Link(set, 0, LinkChange::Fail);
    let mut guard = hub.lock(rt);
    let rested = is_at_rest(&guard);
    let _ = guard.post(alloc, collector, 1, event);
    drop(guard);
    signals.tell_post(rested);
}

/// Looks until a version is published, without a lock.
fn wait_for<N: Naming, R: Wait>(rt: &R, reader: &mut Reader<N>, version: u64) {
    for _ in rt.forever() {
        let _ = reader.refresh();
        if reader.newest().number() >= version {
            return;
        }
        thread::yield_now();
    }
    unreachable!()
}

/// Two collectors post beside two workers.
fn run<N: Naming + Send + Sync, R: Threads + Wait + Sync>(
    rt: &R,
    alloc: Global,
    hub: &Mutex<Hub<N>>,
    reader: &mut Reader<N>,
) {
    let signals = Signals::new();
    run_pool(rt, alloc, 2, hub, &signals, &Plain, || {
        join(
            rt,
            || post(rt, alloc, hub, &signals, 1, 3),
            || post(rt, alloc, hub, &signals, 2, 4),
        );
        wait_for(rt, reader, 2)
    });
}

/// Tells how a point reaches another in a version.
fn tell_status(
    rt: &HostRuntime,
    version: &Version,
    from: PointCode,
    to: PointCode,
) -> io::Result<()> {
    let number = version.number();
    match version.routing(to) {
        Some(routing) => println!(rt;
            "version {number}: {from} to {to} {:?}",
            routing.status(from)
        ),
        None => println!(rt; "version {number}: no plan of {to}"),
    }
}

/// Tells the links that the signalling link selection 0 takes from a point to another.
fn tell_trace(
    rt: &HostRuntime,
    version: &Version,
    from: PointCode,
    to: PointCode,
) -> io::Result<()> {
    let Ok(Trace::Reached(hops)) = trace(rt.alloc(), version, from, to, 0) else {
        return println!(rt; "no way from {from} to {to}");
    };
    for hop in hops.as_slice() {
        let link = hop.link;
        println!(rt;
            "{} by link {} {} to {}",
            hop.from, link.id, link.slc, hop.to
        )?;
    }
    Ok(())
}

/// Tells how 2-10-2 reaches 2-1-2: whether it could.
fn tell(rt: &HostRuntime, version: &Version) -> io::Result<bool> {
    let (Ok(from), Ok(to)) = (PointCode::parse(b"2-10-2"), PointCode::parse(b"2-1-2")) else {
        return Ok(false);
    };
    tell_status(rt, version, from, to)?;
    tell_trace(rt, version, from, to)?;
    Ok(true)
}

/// Runs at a hub, and tells what a reader sees then.
fn run_and_tell<N: Naming + Send + Sync, R: Threads + Wait + Sync>(
    rt: &HostRuntime,
    threads: &R,
    hub: &Mutex<Hub<N>>,
) -> io::Result<bool> {
    let Ok(mut reader) = hub.lock(threads).reader() else {
        return Ok(false);
    };
    run(threads, rt.alloc(), hub, &mut reader);
    tell(rt, reader.newest())
}

/// The same at a new hub.
fn run_at_hub<N: Naming + Send + Sync, R: Threads + Wait + Sync>(
    rt: &HostRuntime,
    threads: &R,
    unnamed: Unnamed,
) -> io::Result<bool>
    requires { unnamed.shown.book ≡ N.book }
{
    match unnamed.named::<N>(rt.alloc()) {
        Ok(hub) => {
            let hub = Mutex::new(hub);
            run_and_tell(rt, threads, &hub)
        }
        Err(_) => Ok(false),
    }
}

/// A hub, which has no name yet, over the network on standard input.
fn read_hub(rt: &HostRuntime) -> Option<Unnamed> {
    let net = read_net(rt.alloc(), &mut rt.reader()).ok()?;
    let desk = Desk::start(rt.alloc(), net).ok()?;
    Unnamed::new(desk).ok()
}

/// Runs at a hub over the network on standard input, if there is one.
fn serve<R: Threads + Wait + Sync>(rt: &HostRuntime, threads: &R) -> io::Result<bool> {
    match read_hub(rt) {
        Some(unnamed) => run_at_hub::<Brand, R>(rt, threads, unnamed),
        None => Ok(false),
    }
}

fn main(rt: HostRuntime) -> io::Result<ExitCode> {
    let done = serve(&rt, &rt)?;
    Ok(if done {
        ExitCode::SUCCESS
    } else {
        ExitCode::FAILURE
    })
}
