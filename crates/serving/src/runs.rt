//! Runs of many sessions at one desk.

ghost use Rattle.std.specs.Prelude.{◌≡◌, ◌+◌, ◌<◌, ◌≤◌, ◌∷◌, ◌++◌, [], ℕ, List, Err, Some, IfErr, IfOk, length, slice_index_or, vec_capacity, vec_len};
ghost use Rattle.net_data.specs.Network.{Network};
ghost use Rattle.histories.specs.Histories.{IsOpening};
ghost use Rattle.serving.specs.Served.{CannotBegin, IsServed};
ghost use Rattle.serving.specs.Sittings.{AreSat, AreSeated, IsSat, seat_at};

use crate::channels::{Channel, DeskEnd, Farewell, SessionEnd};
use crate::ends::end_run;
use crate::seating::{admit_more, give_up, seat_with_room};
use crate::sittings::{Sitting, sit};
use answers::Telling;
use desk_core::Desk;
use net_data::Net;
use seats::Seat;
use sessions::Fault;
use std::alloc::{AllocError, Global};
use std::io::{Read, Write};
use std::marker::Brand;
use std::sync::{Mutex, Wait};
use std::thread::{Threads, for_each_mut};
use versions::{BySeats, DeskAndChain, Guest, Hub, Naming, UnnamedWithSeats};
use worker_pool::{Gate, Signals, run_pool};

/// Ends a hub whose sessions can't begin.
fn close<N: Naming, T: Wait, X>(rt: &T, hub: Hub<N, BySeats>, fault: Fault) -> Result<X, Fault>
    ensures { result ≡ Err fault }
{
    give_up(hub.close(rt), fault)
}

/// A hub and its first seat that have no name yet, over a new desk.
fn open_hub<R: Wait>(rt: &R, alloc: Global, net: Net) -> Result<UnnamedWithSeats, AllocError>
    ensures opens { IfOk result (λ u. IsOpening net u.state) }
    ensures one { IfOk result (λ u. u.seats ≡ 1) }
{
    let desk = Desk::start(alloc, net)?;
    UnnamedWithSeats::new(rt, alloc, desk)
}

/// Runs all sessions at their seats, the last first in the list, each in a thread of its own. Who ends is told at once.
fn sit_all<
    N: Naming + Send + Sync,
    T: Threads + Wait + Sync,
    F: Farewell + Sync,
    R: Read + Send + Drop,
    W: Write + Send + Drop,
    L: Telling + Send + Drop,
>(
    rt: &T,
    alloc: Global,
    farewell: &F,
    hub: &Mutex<Hub<N, BySeats>>,
    signals: &Signals,
    sittings: &mut [Sitting<N, R, W, L>],
)
    ensures { AreSat R.remaining W.contents L.tells N.seats sittings.old sittings.new }
{
    let all = sittings.len();
    if all > 0 {
        for_each_mut(
            rt,
            sittings,
            all,
            &|at: usize, sitting: &mut Sitting<N, R, W, L>|
                requires { at < all }
                ensures { (start : _) → sitting.entry.now.visitor ≡ Some start → IsSat R.remaining W.contents L.tells N.seats start sitting.entry.now sitting.exit.now }
            {
                sit(rt, alloc, hub, signals, sitting);
                farewell.tell(all - 1 - at, sitting.fault);
            },
        );
    }
}

/// Runs all sessions beside that many workers, of which there is one at least, and gives them back.
fn sit_beside<
    N: Naming + Send + Sync,
    T: Threads + Wait + Sync,
    G: Gate + Sync,
    F: Farewell + Sync,
    R: Read + Send + Drop,
    W: Write + Send + Drop,
    L: Telling + Send + Drop,
>(
    rt: &T,
    alloc: Global,
    n: u32,
    gate: &G,
    farewell: &F,
    hub: &Mutex<Hub<N, BySeats>>,
    signals: &Signals,
    sittings: Vec<Sitting<N, R, W, L>>,
) -> Vec<Sitting<N, R, W, L>>
    requires { (0 < n) × (n ≤ 32) }
    ensures { AreSat R.remaining W.contents L.tells N.seats sittings.items result.items }
{
    let (_, sat) = run_pool(
        rt,
        alloc,
        n,
        hub,
        signals,
        gate,
        || -> Vec<Sitting<N, R, W, L>>
            ensures { AreSat R.remaining W.contents L.tells N.seats sittings.items result.items }
        { sit_whole(rt, alloc, farewell, hub, signals, sittings) },
    );
    sat
}

/// Runs all sessions, and gives them back.
fn sit_whole<
    N: Naming + Send + Sync,
    T: Threads + Wait + Sync,
    F: Farewell + Sync,
    R: Read + Send + Drop,
    W: Write + Send + Drop,
    L: Telling + Send + Drop,
>(
    rt: &T,
    alloc: Global,
    farewell: &F,
    hub: &Mutex<Hub<N, BySeats>>,
    signals: &Signals,
    mut sittings: Vec<Sitting<N, R, W, L>>,
) -> Vec<Sitting<N, R, W, L>>
    ensures { AreSat R.remaining W.contents L.tells N.seats sittings.items result.items }
{
    sit_all(rt, alloc, farewell, hub, signals, sittings.as_mut_slice());
    sittings
}

/// Runs all sessions beside that many workers, and gives them back.
fn work<
    N: Naming + Send + Sync,
    T: Threads + Wait + Sync,
    G: Gate + Sync,
    F: Farewell + Sync,
    R: Read + Send + Drop,
    W: Write + Send + Drop,
    L: Telling + Send + Drop,
>(
    rt: &T,
    alloc: Global,
    n: u32,
    gate: &G,
    farewell: &F,
    hub: &Mutex<Hub<N, BySeats>>,
    sittings: Vec<Sitting<N, R, W, L>>,
) -> Vec<Sitting<N, R, W, L>>
    requires { n ≤ 32 }
    ensures { AreSat R.remaining W.contents L.tells N.seats sittings.items result.items }
{
    let signals = Signals::new();
    if n == 0 {
        sit_whole(rt, alloc, farewell, hub, &signals, sittings)
    } else {
        sit_beside(rt, alloc, n, gate, farewell, hub, &signals, sittings)
    }
}

/// Runs sessions at their seats, and ends the hub.
fn run_sittings<
    N: Naming + Send + Sync,
    T: Threads + Wait + Sync,
    G: Gate + Sync,
    F: Farewell + Sync,
    R: Read + Send + Drop,
    W: Write + Send + Drop,
    L: Telling + Send + Drop,
>(
    rt: &T,
    alloc: Global,
    n: u32,
    gate: &G,
    farewell: &F,
    hub: Hub<N, BySeats>,
    sittings: Vec<Sitting<N, R, W, L>>,
    room: Vec<SessionEnd<R, W>>,
) -> DeskEnd<R, W>
    requires workers { n ≤ 32 }
    requires room { (vec_len room ≡ 0) × (vec_len sittings ≤ vec_capacity room) }
    ensures { (net : Network) (channels : List _) → IsOpening net hub.state → AreSeated N.table hub.state channels sittings.items → length channels ≡ N.seats → 0 < N.seats
        → IsServed R.remaining W.contents L.tells net channels result.ends.items result.net }
{
    let hub = Mutex::new(hub);
    let sat = work(rt, alloc, n, gate, farewell, &hub, sittings);
    end_run(rt, alloc, hub.into_inner().finish(rt), sat, room)
}

/// Runs all sessions at a hub whose first seat is this.
fn run_at<
    N: Naming + Send + Sync,
    T: Threads + Wait + Sync,
    G: Gate + Sync,
    F: Farewell + Sync,
    R: Read + Send + Drop,
    W: Write + Send + Drop,
    L: Telling + Send + Drop,
>(
    rt: &T,
    alloc: Global,
    n: u32,
    gate: &G,
    farewell: &F,
    hub: Hub<N, BySeats>,
    first: Guest<N>,
    seats: Vec<Seat<DeskAndChain>>,
    channels: Vec<Channel<R, W, L>>,
) -> Result<DeskEnd<R, W>, Fault>
    requires workers { n ≤ 32 }
    requires first { first ≡ seat_at N.table hub.state 0 }
    requires seats { (j : ℕ) (d : _) → j < vec_len seats → slice_index_or seats.items j d ≡ seat_at N.table hub.state (j + 1) }
    requires count { (vec_len channels ≡ vec_len seats + 1) × (vec_len channels ≡ N.seats) }
    ensures served { (net : Network) → IsOpening net hub.state → IfOk result (λ end. IsServed R.remaining W.contents L.tells net channels.items end.ends.items end.net) }
    ensures fault { IfErr result CannotBegin }
{
    match seat_with_room(alloc, &hub, first, seats, channels) {
        Ok((sittings, room)) => Ok(run_sittings(rt, alloc, n, gate, farewell, hub, sittings, room)),
        Err(fault) => close(rt, hub, fault),
    }
}

/// Runs all sessions at a hub that gets its name here.
fn run_named<
    N: Naming + Send + Sync,
    T: Threads + Wait + Sync,
    G: Gate + Sync,
    F: Farewell + Sync,
    R: Read + Send + Drop,
    W: Write + Send + Drop,
    L: Telling + Send + Drop,
>(
    rt: &T,
    alloc: Global,
    n: u32,
    gate: &G,
    farewell: &F,
    unnamed: UnnamedWithSeats,
    seats: Vec<Seat<DeskAndChain>>,
    channels: Vec<Channel<R, W, L>>,
) -> Result<DeskEnd<R, W>, Fault>
    requires names { (unnamed.state.shown.book ≡ N.book) × (unnamed.table ≡ N.table) × (unnamed.seats ≡ N.seats) }
    requires workers { n ≤ 32 }
    requires seats { (j : ℕ) (d : _) → j < vec_len seats → slice_index_or seats.items j d ≡ seat_at unnamed.table unnamed.state (j + 1) }
    requires count { (vec_len channels ≡ vec_len seats + 1) × (unnamed.seats ≡ vec_len channels) }
    ensures served { (net : Network) → IsOpening net unnamed.state → IfOk result (λ end. IsServed R.remaining W.contents L.tells net channels.items end.ends.items end.net) }
    ensures fault { IfErr result CannotBegin }
{
    match unnamed.named::<N>(alloc, channels.len()) {
        Ok((hub, first)) => run_at(rt, alloc, n, gate, farewell, hub, first, seats, channels),
        Err(_) => Err(Fault::NoPlace),
    }
}

/// Runs all sessions at a hub that has no name yet.
fn run_unnamed<
    T: Threads + Wait + Sync,
    G: Gate + Sync,
    F: Farewell + Sync,
    R: Read + Send + Drop,
    W: Write + Send + Drop,
    L: Telling + Send + Drop,
>(
    rt: &T,
    alloc: Global,
    n: u32,
    gate: &G,
    farewell: &F,
    mut unnamed: UnnamedWithSeats,
    channels: Vec<Channel<R, W, L>>,
) -> Result<DeskEnd<R, W>, Fault>
    requires workers { n ≤ 32 }
    requires one { (0 < vec_len channels) × (unnamed.seats ≡ 1) }
    ensures served { (net : Network) → IsOpening net unnamed.state → IfOk result (λ end. IsServed R.remaining W.contents L.tells net channels.items end.ends.items end.net) }
    ensures fault { IfErr result CannotBegin }
{
    match admit_more(alloc, &mut unnamed, channels.len() - 1) {
        Ok(seats) => run_named::<Brand, _, _, _, _, _, _>(
            rt, alloc, n, gate, farewell, unnamed, seats, channels,
        ),
        Err(fault) => give_up(unnamed, fault),
    }
}

/// Runs all sessions at one desk over a network, each in a thread of its own, beside that many workers. With no worker a session that
/// waits for a version does their work in line. Who says farewell is told of each session as soon as it has ended.
///
/// One list of accepted events and one chain of published versions explain what each session was told: see `IsServed`.
///
/// # Errors
///
/// `OutOfMemory` or `NoPlace` if memory or places for the sessions are refused.
pub fn run_seats<
    T: Threads + Wait + Sync,
    G: Gate + Sync,
    F: Farewell + Sync,
    R: Read + Send + Drop,
    W: Write + Send + Drop,
    L: Telling + Send + Drop,
>(
    rt: &T,
    alloc: Global,
    n: u32,
    gate: &G,
    farewell: &F,
    net: Net,
    channels: Vec<Channel<R, W, L>>,
) -> Result<DeskEnd<R, W>, Fault>
    requires workers { n ≤ 32 }
    requires one { 0 < vec_len channels }
    ensures served { IfOk result (λ end. IsServed R.remaining W.contents L.tells net channels.items end.ends.items end.net) }
    ensures fault { IfErr result CannotBegin }
{
    match open_hub(rt, alloc, net) {
        Ok(unnamed) => run_unnamed(rt, alloc, n, gate, farewell, unnamed, channels),
        Err(_) => Err(Fault::OutOfMemory),
    }
}
