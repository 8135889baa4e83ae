//! Runs of scripts and inputs beside workers.

ghost use Rattle.std.specs.Prelude.{◌≡◌, ◌<◌, ◌≤◌, IfErr, IfOk, MatchResult, None, Ok};
ghost use Rattle.net_data.specs.Network.{Network};
ghost use Rattle.net_text.specs.Reading.{Says};
ghost use Rattle.sessions.specs.Input.{IsLoadFault, RanInput};
ghost use Rattle.beside.specs.Beside.{BesideValue, CommandsBeside, LeavesBeside, StartsBeside, newcomer};
ghost use Rattle.beside.specs.Runs.{IsFresh, RanBeside, first_seat};
ghost use Rattle.versions.specs.Working.{left_at};
ghost use Rattle.beside.specs.Told.{ToldInput, ToldScript};

use crate::answering::Beside;
use crate::reading::{After, BesideEnd, Script, Whole};
use crate::visitor::Visitor;
use answers::Telling;
use desk_core::Desk;
use net_data::Net;
use sessions::{Fault, ended_by, load_text, read_text};
use std::alloc::{AllocError, Global};
use std::io::{Read, Write};
use std::marker::Brand;
use std::sync::{Mutex, Wait};
use std::thread::Threads;
use versions::{BySeats, Guest, Hub, Naming, UnnamedWithSeats};
use worker_pool::{Gate, Signals, run_pool};

/// A hub and its client that have no name yet, over a new desk.
fn open_hub<R: Wait>(rt: &R, alloc: Global, net: Net) -> Result<UnnamedWithSeats, AllocError>
    ensures { IfOk result (IsFresh net) }
{
    let desk = Desk::start(alloc, net)?;
    UnnamedWithSeats::new(rt, alloc, desk)
}

/// Who comes to a hub for a script, as its client left it.
fn come<N: Naming>(hub: &Hub<N, BySeats>, guest: Guest<N>) -> Result<Visitor<N>, Fault>
    requires { left_at guest.saw ≡ hub.now.state }
    ensures ok { IfOk result (λ v. v ≡ newcomer guest hub.now.state) }
    ensures fault { IfErr result (λ fault. fault ≡ Fault.NoPlace) }
{
    match Visitor::new(hub, guest) {
        Ok(visitor) => Ok(visitor),
        Err(_) => Err(Fault::NoPlace),
    }
}

/// Reads a script beside workers at a hub.
fn read_beside<
    N: Naming + Send + Sync,
    T: Threads + Wait + Sync,
    G: Gate + Sync,
    R: Read + Drop,
    W: Write + Drop,
    S: Script,
>(
    rt: &T,
    alloc: Global,
    n: u32,
    gate: &G,
    reader: R,
    writer: W,
    hub: &Mutex<Hub<N, BySeats>>,
    visitor: Visitor<N>,
    script: S,
) -> BesideEnd<R, W>
    requires workers { (0 < n) × (n ≤ 32) }
    requires ready { S.ready script }
    requires one { N.seats ≡ 1 }
    ensures { S.ran script visitor (R.remaining reader) (R.remaining result.reader) (W.contents writer) (W.contents result.writer) result.end }
{
    let signals = Signals::new();
    let beside = Beside {
        rt,
        hub,
        signals: &signals,
        visitor,
    };
    let (_, end) = run_pool(
        rt,
        alloc,
        n,
        hub,
        &signals,
        gate,
        || -> BesideEnd<R, W>
            requires { S.ready script × (N.seats ≡ 1) }
        { script.read(alloc, reader, writer, beside) },
    );
    end
}

/// Reads a script beside workers at a hub, if somebody came to it. If not, nothing is read.
fn read_if_come<
    N: Naming + Send + Sync,
    T: Threads + Wait + Sync,
    G: Gate + Sync,
    R: Read + Drop,
    W: Write + Drop,
    S: Script,
>(
    rt: &T,
    alloc: Global,
    n: u32,
    gate: &G,
    reader: R,
    writer: W,
    hub: &Mutex<Hub<N, BySeats>>,
    come: Result<Visitor<N>, Fault>,
    script: S,
) -> BesideEnd<R, W>
    requires workers { (0 < n) × (n ≤ 32) }
    requires ready { S.ready script }
    requires one { N.seats ≡ 1 }
    requires fault { IfErr come (λ fault. fault ≡ Fault.NoPlace) }
    ensures { (start : BesideValue) → IfOk come (λ v. v ≡ start)
        → S.ran script start (R.remaining reader) (R.remaining result.reader) (W.contents writer) (W.contents result.writer) result.end }
{
    match come {
        Ok(visitor) => read_beside(rt, alloc, n, gate, reader, writer, hub, visitor, script),
        Err(fault) => script.refuse(reader, writer, fault),
    }
}

/// Ends a hub.
fn close<N: Naming, R: Wait>(rt: &R, hub: Mutex<Hub<N, BySeats>>) {
    let _desk = hub.into_inner().close(rt);
}

/// Reads a script beside workers at a hub, which its client has just left, and ends the hub.
fn read_at<
    N: Naming + Send + Sync,
    T: Threads + Wait + Sync,
    G: Gate + Sync,
    R: Read + Drop,
    W: Write + Drop,
    S: Script,
>(
    rt: &T,
    alloc: Global,
    n: u32,
    gate: &G,
    reader: R,
    writer: W,
    hub: Hub<N, BySeats>,
    guest: Guest<N>,
    script: S,
) -> BesideEnd<R, W>
    requires left { left_at guest.saw ≡ hub.state }
    requires workers { (0 < n) × (n ≤ 32) }
    requires ready { S.ready script }
    requires one { N.seats ≡ 1 }
    ensures { S.ran script (newcomer guest hub.state) (R.remaining reader) (R.remaining result.reader) (W.contents writer) (W.contents result.writer) result.end }
{
    let come = come(&hub, guest);
    let hub = Mutex::new(hub);
    let end = read_if_come(rt, alloc, n, gate, reader, writer, &hub, come, script);
    close(rt, hub);
    end
}

/// Reads a script beside workers, at a hub that gets its name here.
fn run_named<
    N: Naming + Send + Sync,
    T: Threads + Wait + Sync,
    G: Gate + Sync,
    R: Read + Drop,
    W: Write + Drop,
    S: Script,
>(
    rt: &T,
    alloc: Global,
    n: u32,
    gate: &G,
    reader: R,
    writer: W,
    unnamed: UnnamedWithSeats,
    script: S,
) -> BesideEnd<R, W>
    requires names { (unnamed.state.shown.book ≡ N.book) × (unnamed.table ≡ N.table) × (unnamed.seats ≡ N.seats) }
    requires workers { (0 < n) × (n ≤ 32) }
    requires ready { S.ready script }
    requires one { N.seats ≡ 1 }
    ensures { S.ran script (newcomer (first_seat unnamed) unnamed.state) (R.remaining reader) (R.remaining result.reader) (W.contents writer) (W.contents result.writer) result.end }
{
    match unnamed.named::<N>(alloc, 1) {
        Ok((hub, guest)) => read_at(rt, alloc, n, gate, reader, writer, hub, guest, script),
        Err(_) => script.refuse(reader, writer, Fault::NoPlace),
    }
}

/// Reads a script to its end beside that many workers, which settle jobs through a gate, and answers each line before more is
/// read, from a new desk over a network. Each answer is written as it is told by who tells it. The network that comes back is the
/// one after all accepted events.
///
/// - `ran`: what is read, what is written, how it ends, and by which fault.
/// - `told`, without a fault: at each line all versions that were published at a lock, or seen, are the ones of their numbers;
///   and a script with a `sync` between what it asks and the events before tells just the answers that it has in line.
pub fn run_beside<
    T: Threads + Wait + Sync,
    G: Gate + Sync,
    L: Telling,
    R: Read + Drop,
    W: Write + Drop,
>(
    rt: &T,
    alloc: Global,
    n: u32,
    gate: &G,
    telling: &L,
    reader: R,
    writer: W,
    net: Net,
) -> BesideEnd<R, W>
    requires { (0 < n) × (n ≤ 32) }
    ensures ran { RanBeside (L.tells telling.now) net (R.remaining reader) (R.remaining result.reader)
        (W.contents writer) (W.contents result.writer) result.end.fault result.end.lines result.end.net }
    ensures told { result.end.fault ≡ None → ToldScript (L.tells telling.now) net (R.remaining reader) (R.remaining result.reader) (W.contents writer) (W.contents result.writer) }
{
    match open_hub(rt, alloc, net) {
        Ok(unnamed) => {
            let script = Whole { telling };
            run_named::<Brand, _, _, _, _, _>(rt, alloc, n, gate, reader, writer, unnamed, script)
        }
        Err(_) => BesideEnd {
            end: ended_by(Fault::OutOfMemory, 0),
            reader,
            writer,
        },
    }
}

/// A hub and its client that have no name yet, over a new desk over the network that a text says.
fn open_text<R: Wait>(rt: &R, alloc: Global, text: &[u8]) -> Result<UnnamedWithSeats, Fault>
    ensures { MatchResult result (λ pair. (net : Network) × Says text.now (Ok net) × IsFresh net pair) (IsLoadFault text.now) }
{
    let net = load_text(alloc, text)?;
    match open_hub(rt, alloc, net) {
        Ok(unnamed) => Ok(unnamed),
        Err(_) => Err(Fault::OutOfMemory),
    }
}

/// Reads a network text up to the line `%%`, and then a script to its end, as `run_beside` does it from a new desk over that
/// network. Without that line the whole input is the network text. Nothing is written unless the network text was read and
/// loaded.
///
/// - `ran`: what is read, what is written, how it ends, and by which fault.
/// - `told`, without a fault: as `run_beside` says it.
pub fn run_input_beside<
    T: Threads + Wait + Sync,
    G: Gate + Sync,
    L: Telling,
    R: Read + Drop,
    W: Write + Drop,
>(rt: &T, alloc: Global, n: u32, gate: &G, telling: &L, mut reader: R, writer: W) -> BesideEnd<R, W>
    requires { (0 < n) × (n ≤ 32) }
    ensures ran { RanInput StartsBeside (L.tells telling.now) (CommandsBeside 1) (LeavesBeside 1) (Unit {0}) (R.remaining reader) (R.remaining result.reader)
        (W.contents writer) (W.contents result.writer) result.end.fault result.end.lines result.end.net }
    ensures told { result.end.fault ≡ None → ToldInput (L.tells telling.now) (R.remaining reader) (R.remaining result.reader) (W.contents writer) (W.contents result.writer) }
{
    let opening = match read_text(alloc, &mut reader) {
        Ok(opening) => opening,
        Err(fault) => return BesideEnd {
            end: ended_by(fault, 0),
            reader,
            writer,
        },
    };
    match open_text(rt, alloc, &opening.bytes[..opening.text]) {
        Ok(unnamed) => {
            let script = After { opening, telling };
            run_named::<Brand, _, _, _, _, _>(rt, alloc, n, gate, reader, writer, unnamed, script)
        }
        Err(fault) => BesideEnd {
            end: ended_by(fault, 0),
            reader,
            writer,
        },
    }
}
