//! A session at its seat, from its first line to its last visit.

ghost use Rattle.std.specs.Prelude.{◌≡◌, Some};
ghost use Rattle.beside.specs.Beside.{BesideValue};
ghost use Rattle.serving.specs.Sittings.{IsSat, Sits, final_fault};

use crate::channels::Channel;
use crate::seated::Seated;
use answers::Telling;
use beside::{Beside, Visitor};
use sessions::{Fault, LinesEnd, read_lines};
use std::alloc::Global;
use std::io::{Read, Write};
use std::marker::Model;
use std::sync::{Mutex, Wait};
use versions::{BySeats, Guest, Hub, Naming};
use worker_pool::Signals;

/// A session with its seat: before it runs with who comes to the hub, and then with the seat alone.
#[derive(Drop)]
pub(crate) struct Sitting<N: Naming, R, W, L> {
    /// Who comes to the hub, until the session is run.
    pub visitor: Option<Visitor<N>>,
    /// The seat, once the session was run.
    pub guest: Option<Guest<N>>,
    pub channel: Channel<R, W, L>,
    /// How many lines of answers were written whole.
    pub lines: u128,
    /// Why it ended early, if it did.
    pub fault: Option<Fault>,
}

impl<N: Naming, R, W, L> Model for Sitting<N, R, W, L> {
    ghost use Rattle.serving.specs.Sittings.{SittingValue};

    ghost Value = { SittingValue R W L };

    ghost view = { λ s. record {
      visitor = s.visitor;
      guest = s.guest;
      reader = s.channel.reader;
      writer = s.channel.writer;
      telling = s.channel.telling;
      rules = s.channel.rules;
      lines = s.lines;
      fault = s.fault;
    } };
}

/// The fault of a session: that of its last visit, else that of its lines.
fn fault_of(told: Result<(), Fault>, ended: Option<Fault>) -> Option<Fault>
    ensures { result ≡ final_fault told ended }
{
    match told {
        Ok(()) => ended,
        Err(fault) => Some(fault),
    }
}

/// What is left of a session that was run: its seat, how many lines of answers were written whole, and why it ended early, if it did.
struct Sat<N: Naming> {
    guest: Guest<N>,
    lines: u128,
    fault: Option<Fault>,
}

/// Reads the lines of a session to the end, has each answered before more is read, and comes to the hub for the last time.
fn read_all<N: Naming, T: Wait, R: Read, W: Write, L: Telling>(
    rt: &T,
    alloc: Global,
    hub: &Mutex<Hub<N, BySeats>>,
    signals: &Signals,
    visitor: Visitor<N>,
    channel: &mut Channel<R, W, L>,
) -> Sat<N>
    ensures rules { (channel.new.telling ≡ channel.old.telling) × (channel.new.rules ≡ channel.old.rules) }
    ensures sits { Sits (L.tells channel.old.telling) N.seats channel.old.rules visitor (R.remaining channel.old.reader)
        (R.remaining channel.new.reader) (W.contents channel.old.writer) (W.contents channel.new.writer) result.fault result.lines result.guest }
{
    let seated = Seated {
        beside: Beside::new(rt, hub, signals, visitor),
        rules: &channel.rules,
    };
    let LinesEnd {
        lines,
        fault,
        state,
    } = read_lines(
        alloc,
        &channel.telling,
        &mut channel.reader,
        &mut channel.writer,
        seated,
    );
    let (guest, told) = state.beside.part();
    Sat {
        guest,
        lines,
        fault: fault_of(told, fault),
    }
}

/// Runs a session that has not begun.
pub(crate) fn sit<N: Naming, T: Wait, R: Read, W: Write, L: Telling>(
    rt: &T,
    alloc: Global,
    hub: &Mutex<Hub<N, BySeats>>,
    signals: &Signals,
    sitting: &mut Sitting<N, R, W, L>,
)
    ensures { (start : BesideValue) → sitting.old.visitor ≡ Some start → IsSat R.remaining W.contents L.tells N.seats start sitting.old sitting.new }
{
    let Some(visitor) = sitting.visitor.take() else {
        return;
    };
    let Sat {
        guest,
        lines,
        fault,
    } = read_all(rt, alloc, hub, signals, visitor, &mut sitting.channel);
    sitting.guest = Some(guest);
    sitting.lines = lines;
    sitting.fault = fault;
}
