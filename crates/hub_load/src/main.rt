//! The program `hub_load`: many threads at one hub, to see that nothing is lost, and what a call costs (own).
//!
//! 1. `hub_load soak WORKERS READERS COLLECTORS EVENTS` reads a network text from standard input. Beside that many workers
//!    and readers, that many collectors post the failure and the return of a link in turn, each under its own number, EVENTS
//!    in all; a post that is refused since too many events wait is tried again. Once all is published it tells what became of it.
//! 2. `hub_load looks READERS COUNT` has that many readers look COUNT times each, at a hub where nothing is published;
//!    `hub_load refreshes READERS COUNT` the same, by the look that gives no share of the version.
//! 3. `hub_load posts COUNT` posts COUNT times, each with the lock and the wake.
//!
//! Standard output tells what was counted, which is the same in each run, and standard error what was timed.
//!
//! Stands on `worker_pool`, `sessions`. Nothing else changes with it.
#![tactic(auto)]

ghost use Rattle.std.specs.Prelude.{◌≡◌};

mod soaking;
mod timing;

use crate::soaking::{Soak, run_soak};
use crate::timing::{Way, tell, time_looks, time_posts};
use desk_core::Desk;
use sessions::read_net;
use std::alloc::{AllocError, Global};
use std::marker::Brand;
use std::process::ExitCode;
use std::sync::{Mutex, Wait};
use std::thread::Threads;
use std::{env, io};
use versions::{Hub, Naming, Unnamed};

/// What many threads do.
#[derive(Clone, Copy)]
enum Load {
    Soak(Soak),
    Looks(Way, u32, u64),
    Posts(u64),
}

/// A soak with that many threads of each kind, and that many events.
fn read_soak(workers: &str, readers: &str, collectors: &str, events: &str) -> Option<Soak> {
    Some(Soak {
        workers: workers.parse::<u32>().ok()?,
        readers: readers.parse::<u32>().ok()?,
        collectors: collectors.parse::<u8>().ok()?,
        events: events.parse::<u64>().ok()?,
    })
}

/// Looks of that many readers, so many of each.
fn read_looks(way: Way, readers: &str, count: &str) -> Option<Load> {
    Some(Load::Looks(
        way,
        readers.parse::<u32>().ok()?,
        count.parse::<u64>().ok()?,
    ))
}

/// What the words of the command line ask for.
fn read_load(words: &[&str]) -> Option<Load> {
    match words {
        [_, "soak", workers, readers, collectors, events] => {
            read_soak(workers, readers, collectors, events).map(Load::Soak)
        }
        [_, "looks", readers, count] => read_looks(Way::Look, readers, count),
        [_, "refreshes", readers, count] => read_looks(Way::Refresh, readers, count),
        [_, "posts", count] => count.parse::<u64>().ok().map(Load::Posts),
        _ => None,
    }
}

/// Does what is asked at a hub.
fn run_at<N: Naming + Send + Sync, R: Threads + Wait + Sync>(
    rt: &HostRuntime,
    threads: &R,
    hub: &Mutex<Hub<N>>,
    load: Load,
) -> io::Result<ExitCode> {
    match load {
        Load::Soak(load) => run_soak(rt, threads, hub, load),
        Load::Looks(way, readers, count) => {
            let nanos = time_looks(rt, threads, hub, way, readers, count)?;
            tell(rt, count, "looks of each reader", nanos)
        }
        Load::Posts(count) => {
            let _ = hub.lock(threads).reserve(65536);
            let nanos = time_posts(rt, threads, hub, count)?;
            tell(rt, count, "posts", nanos)
        }
    }
}

/// Does what is asked at a new hub.
fn run_load<N: Naming + Send + Sync, R: Threads + Wait + Sync>(
    rt: &HostRuntime,
    threads: &R,
    unnamed: Unnamed,
    load: Load,
) -> io::Result<ExitCode>
    requires { unnamed.shown.book ≡ N.book }
{
    match unnamed.named::<N>(rt.alloc()) {
        Ok(hub) => {
            let hub = Mutex::new(hub);
            run_at(rt, threads, &hub, load)
        }
        Err(_) => {
            eprintln!(rt; "hub_load: no places")?;
            Ok(ExitCode::from(1))
        }
    }
}

/// A hub that has no name yet, over the network on standard input.
fn read_hub(rt: &HostRuntime) -> Option<Unnamed> {
    let net = read_net(rt.alloc(), &mut rt.reader()).ok()?;
    let desk = Desk::start(rt.alloc(), net).ok()?;
    Unnamed::new(desk).ok()
}

/// Does what the words ask for.
fn serve(
    rt: &HostRuntime,
    threads: &(impl Threads + Wait + Sync),
    words: &[&str],
) -> io::Result<ExitCode> {
    let Some(asked) = read_load(words) else {
        eprintln!(rt;
            "hub_load: soak WORKERS READERS COLLECTORS EVENTS, looks READERS COUNT, refreshes READERS COUNT or posts COUNT"
        )?;
        return Ok(ExitCode::from(2));
    };
    match read_hub(rt) {
        Some(unnamed) => run_load::<Brand, _>(rt, threads, unnamed, asked),
        None => {
            eprintln!(rt; "hub_load: no network")?;
            Ok(ExitCode::from(1))
        }
    }
}

/// The words as texts.
fn texts(alloc: Global, words: &[String]) -> Result<Vec<&str>, AllocError> {
    let mut texts = Vec::with_capacity(alloc, words.len())?;
    for word in words {
        texts.push(word.as_str())?;
    }
    Ok(texts)
}

fn main(rt: HostRuntime) -> io::Result<ExitCode> {
    let words: Vec<String> = env::args(&rt)?.collect(rt.alloc())?;
    let texts = texts(rt.alloc(), words.as_slice())?;
    serve(&rt, &rt, texts.as_slice())
}
