//! How sessions ended, once their hub has.

ghost use Rattle.std.specs.Prelude.{◌≡◌, ◌<◌, ◌≤◌, List, Some, length, vec_capacity, vec_len};
ghost use Rattle.net_data.specs.Network.{Network};
ghost use Rattle.desk_core.specs.Desk.{net_now};
ghost use Rattle.seats.specs.Minutes.{OnlyOthersSince, SeatValue};
ghost use Rattle.versions.specs.Working.{IsWholeHistory};
ghost use Rattle.versions.specs.declared.state.DeskAndChain.{DeskAndChain as DeskAndChain_value};
ghost use Rattle.histories.specs.Histories.{IsOpening};
ghost use Rattle.serving.specs.Served.{IsServed};
ghost use Rattle.serving.specs.Sittings.{AreEnded, AreSat, AreSeated, IsEndOf};

use crate::channels::{DeskEnd, SessionEnd};
use crate::sittings::Sitting;
use answers::Telling;
use net_data::Net;
use std::alloc::Global;
use std::io::{Read, Write};
use std::sync::Wait;
use versions::{Guest, History, Naming};

/// Explains a seat by the history of its hub, if there is one.
fn explain<N: Naming, T: Wait>(rt: &T, history: &mut History<N>, guest: Option<Guest<N>>)
    ensures same { history.new ≡ history.old }
    ensures seat { (seat : SeatValue DeskAndChain_value) → guest ≡ Some seat
        → IsWholeHistory N.seats history.old.log history.old.state × OnlyOthersSince seat.me seat.saw history.old.log }
{
    if let Some(mut guest) = guest {
        history.explain(rt, &mut guest);
    }
}

/// How a session ended that was run, whose seat is explained by the history of the hub.
fn ended<N: Naming, T: Wait, R: Drop, W: Drop, L: Drop>(
    rt: &T,
    history: &mut History<N>,
    sitting: Sitting<N, R, W, L>,
) -> SessionEnd<R, W>
    ensures same { history.new ≡ history.old }
    ensures end { IsEndOf N.seats history.old.log history.old.state sitting result }
{
    let Sitting {
        visitor: _,
        guest,
        channel,
        lines,
        fault,
    } = sitting;
    explain(rt, history, guest);
    SessionEnd {
        lines,
        fault,
        reader: channel.reader,
        writer: channel.writer,
    }
}

/// How all sessions ended, in the order in which they were given: they come the last first. The list has room for them.
fn end_all<N: Naming, T: Wait, R: Drop, W: Drop, L: Drop>(
    rt: &T,
    history: &mut History<N>,
    mut sittings: Vec<Sitting<N, R, W, L>>,
    mut ends: Vec<SessionEnd<R, W>>,
) -> Vec<SessionEnd<R, W>>
    requires room { (vec_len ends ≡ 0) × (vec_len sittings ≤ vec_capacity ends) }
    ensures same { history.new ≡ history.old }
    ensures ends { AreEnded N.seats history.old.log history.old.state sittings.items result.items }
{
    while let Some(sitting) = sittings.pop() {
        ends.push_reserved(ended(rt, history, sitting));
    }
    ends
}

/// The network after all events of a hub that has ended, if memory for it is granted.
fn net_after<N: Naming>(alloc: Global, history: History<N>) -> Option<Net>
    ensures { (net : Network) → result ≡ Some net → net ≡ net_now history.state.desk }
{
    history.into_desk().net_now().copy(alloc).ok()
}

/// The end of sessions that were run, at a hub that has ended. The list has room for their ends.
pub(crate) fn end_run<N: Naming, T: Wait, R: Read + Drop, W: Write + Drop, L: Telling + Drop>(
    rt: &T,
    alloc: Global,
    mut history: History<N>,
    sat: Vec<Sitting<N, R, W, L>>,
    room: Vec<SessionEnd<R, W>>,
) -> DeskEnd<R, W>
    requires room { (vec_len room ≡ 0) × (vec_len sat ≤ vec_capacity room) }
    ensures { (state : DeskAndChain_value) (net : Network) (channels : List _) (sittings : List _)
        → IsOpening net state → AreSeated N.table state channels sittings → AreSat R.remaining W.contents L.tells N.seats sittings sat.items → length channels ≡ N.seats → 0 < N.seats
        → IsServed R.remaining W.contents L.tells net channels result.ends.items result.net }
{
    let ends = end_all(rt, &mut history, sat, room);
    DeskEnd {
        ends,
        net: net_after(alloc, history),
    }
}
