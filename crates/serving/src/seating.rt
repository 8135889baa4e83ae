//! Sessions at their seats, before they begin.

ghost use Rattle.std.specs.Prelude.{◌≡◌, ◌+◌, ◌<◌, ◌≤◌, ◌∷◌, ◌++◌, [], ℕ, Err, Some, IfErr, IfOk, OnOk, slice_index_or, vec_capacity, vec_len};
ghost use Rattle.versions.specs.Working.{left_at};
ghost use Rattle.beside.specs.Beside.{newcomer};
ghost use Rattle.serving.specs.Served.{CannotBegin};
ghost use Rattle.serving.specs.Sittings.{AreSeated, AreSeatedTo, HasAdmitted, SeatsLast, seat_at, unbegun};

use crate::channels::{Channel, SessionEnd};
use crate::sittings::Sitting;
use beside::Visitor;
use seats::Seat;
use sessions::Fault;
use std::alloc::Global;
use versions::{BySeats, DeskAndChain, Guest, Hub, Naming, UnnamedWithSeats};

/// Adds to the end of a list.
pub(crate) fn push<T: Drop>(list: &mut Vec<T>, item: T) -> Result<(), Fault>
    ensures added { OnOk result (list.new.items ≡ list.old.items ++ item ∷ []) }
    ensures fault { IfErr result CannotBegin }
{
    match list.push(item) {
        Ok(()) => Ok(()),
        Err(_) => Err(Fault::OutOfMemory),
    }
}

/// Lets go of what a run needed that can't go on.
pub(crate) fn give_up<T: Drop, X>(what: T, fault: Fault) -> Result<X, Fault>
    ensures { result ≡ Err fault }
{
    drop(what);
    Err(fault)
}

/// Seats behind the first, in rising number.
pub(crate) fn admit_more(
    alloc: Global,
    unnamed: &mut UnnamedWithSeats,
    more: usize,
) -> Result<Vec<Seat<DeskAndChain>>, Fault>
    requires { unnamed.old.seats ≡ 1 }
    ensures admitted { IfOk result (λ v. HasAdmitted unnamed.old unnamed.new more v.items) }
    ensures fault { IfErr result CannotBegin }
{
    let mut seats = Vec::with_capacity(alloc, more)?;
    for at in 0..more {
        let _ = at;
        push(&mut seats, unnamed.admit())?;
    }
    Ok(seats)
}

/// A session at its seat, which has not begun.
fn seat_one<N: Naming, R: Drop, W: Drop, L: Drop>(
    hub: &Hub<N, BySeats>,
    guest: Guest<N>,
    channel: Channel<R, W, L>,
) -> Result<Sitting<N, R, W, L>, Fault>
    requires { left_at guest.saw ≡ hub.now.state }
    ensures seated { IfOk result (λ s. s ≡ unbegun (newcomer guest hub.now.state) channel) }
    ensures fault { IfErr result CannotBegin }
{
    match Visitor::new(hub, guest) {
        Ok(visitor) => Ok(Sitting {
            visitor: Some(visitor),
            guest: None,
            channel,
            lines: 0,
            fault: None,
        }),
        Err(_) => Err(Fault::NoPlace),
    }
}

/// Adds a session at its seat, which has not begun.
fn seat_next<N: Naming, R: Drop, W: Drop, L: Drop>(
    hub: &Hub<N, BySeats>,
    guest: Guest<N>,
    channel: Channel<R, W, L>,
    sittings: &mut Vec<Sitting<N, R, W, L>>,
) -> Result<(), Fault>
    requires { left_at guest.saw ≡ hub.now.state }
    ensures seated { OnOk result (sittings.new.items ≡ sittings.old.items ++ unbegun (newcomer guest hub.now.state) channel ∷ []) }
    ensures fault { IfErr result CannotBegin }
{
    match seat_one(hub, guest, channel) {
        Ok(sitting) => push(sittings, sitting),
        Err(fault) => Err(fault),
    }
}

/// Adds a session at its seat, which has not begun, and whose channel is the last of those that are left.
fn seat_last<N: Naming, R: Drop, W: Drop, L: Drop>(
    hub: &Hub<N, BySeats>,
    guest: Guest<N>,
    channels: &mut Vec<Channel<R, W, L>>,
    sittings: &mut Vec<Sitting<N, R, W, L>>,
) -> Result<(), Fault>
    requires { left_at guest.saw ≡ hub.now.state }
    ensures seated { OnOk result (SeatsLast (newcomer guest hub.now.state) channels.old.items channels.new.items sittings.old.items sittings.new.items) }
    ensures fault { IfErr result CannotBegin }
{
    match channels.pop() {
        Some(channel) => seat_next(hub, guest, channel, sittings),
        None => Err(Fault::NoPlace),
    }
}

/// Adds the sessions behind the first, the last first.
fn seat_more<N: Naming, R: Drop, W: Drop, L: Drop>(
    hub: &Hub<N, BySeats>,
    mut seats: Vec<Seat<DeskAndChain>>,
    channels: &mut Vec<Channel<R, W, L>>,
    sittings: &mut Vec<Sitting<N, R, W, L>>,
) -> Result<(), Fault>
    requires seats { (j : ℕ) (d : _) → j < vec_len seats → slice_index_or seats.items j d ≡ seat_at N.table hub.now.state (j + 1) }
    requires count { (vec_len channels.old ≡ vec_len seats + 1) × (vec_len sittings.old ≡ 0) }
    ensures seated { OnOk result (AreSeatedTo 1 N.table hub.now.state channels.old.items channels.new.items sittings.new.items) }
    ensures fault { IfErr result CannotBegin }
{
    while let Some(seat) = seats.pop() {
        let guest = Guest::over(seat, seats.len() + 1);
        if let Err(fault) = seat_last(hub, guest, channels, sittings) {
            return Err(fault);
        }
    }
    Ok(())
}

/// All sessions at their seats, the last first.
fn seat_all<N: Naming, R: Drop, W: Drop, L: Drop>(
    alloc: Global,
    hub: &Hub<N, BySeats>,
    first: Guest<N>,
    seats: Vec<Seat<DeskAndChain>>,
    mut channels: Vec<Channel<R, W, L>>,
) -> Result<Vec<Sitting<N, R, W, L>>, Fault>
    requires first { first ≡ seat_at N.table hub.now.state 0 }
    requires seats { (j : ℕ) (d : _) → j < vec_len seats → slice_index_or seats.items j d ≡ seat_at N.table hub.now.state (j + 1) }
    requires count { vec_len channels ≡ vec_len seats + 1 }
    ensures seated { IfOk result (λ v. AreSeated N.table hub.now.state channels.items v.items) }
    ensures fault { IfErr result CannotBegin }
{
    let mut sittings = Vec::new(alloc);
    if let Err(fault) = seat_more(hub, seats, &mut channels, &mut sittings) {
        return Err(fault);
    }
    if let Err(fault) = seat_last(hub, first, &mut channels, &mut sittings) {
        return Err(fault);
    }
    Ok(sittings)
}

/// All sessions at their seats, the last first, and a list with room for their ends, so that none of these needs memory once they have run.
pub(crate) fn seat_with_room<N: Naming, R: Drop, W: Drop, L: Drop>(
    alloc: Global,
    hub: &Hub<N, BySeats>,
    first: Guest<N>,
    seats: Vec<Seat<DeskAndChain>>,
    channels: Vec<Channel<R, W, L>>,
) -> Result<(Vec<Sitting<N, R, W, L>>, Vec<SessionEnd<R, W>>), Fault>
    requires first { first ≡ seat_at N.table hub.now.state 0 }
    requires seats { (j : ℕ) (d : _) → j < vec_len seats → slice_index_or seats.items j d ≡ seat_at N.table hub.now.state (j + 1) }
    requires count { vec_len channels ≡ vec_len seats + 1 }
    ensures seated { IfOk result (λ both. AreSeated N.table hub.now.state channels.items both.0.items) }
    ensures room { IfOk result (λ both. (vec_len both.1 ≡ 0) × (vec_len both.0 ≤ vec_capacity both.1)) }
    ensures fault { IfErr result CannotBegin }
{
    let sittings = seat_all(alloc, hub, first, seats, channels)?;
    let room = Vec::with_capacity(alloc, sittings.len())?;
    Ok((sittings, room))
}
