//! Runs of scripts from a reader to a writer.

ghost use Rattle.std.specs.Prelude.{◌≡◌, ℕ, ◌+◌, ◌*◌, ◌^◌, ◌<◌, ◌≤◌, List, Option, Some, None};
ghost use Rattle.std.specs.Io.KnownBytes.{IsAtEnd};
ghost use Rattle.sessions.specs.Lines.{line_count};
ghost use Rattle.sessions.specs.Run.{HasAnswered, IsEnd, Ran, RanTo};

use crate::answering::Answering;
use crate::faults::Fault;
use crate::session::Session;
use answers::Telling;
use net_data::Net;
use std::alloc::Global;
use std::io::{ErrorKind, Read, Write};

/// How a run ended.
#[derive(Drop)]
pub struct ScriptEnd {
    /// How many lines of answers were written whole.
    pub lines: u128,
    /// Why the run ended early, if it did.
    pub fault: Option<Fault>,
    /// The network after all accepted events; none after a fault.
    pub net: Option<Net>,
}

/// How a run ended, with who answered handed back.
#[derive(Drop)]
pub struct LinesEnd<A> {
    /// How many lines of answers were written whole.
    pub lines: u128,
    /// Why the run ended early, if it did.
    pub fault: Option<Fault>,
    /// Who answered, as the run left it.
    pub state: A,
}

/// How many bytes are asked for in one read.
pub const CHUNK: usize = 65536;

/// The number of reads after which a run gives up.
pub const READ_LIMIT: u64 = 4294967296;

/// The end of a run by a fault, after that many answers.
pub fn ended_by(fault: Fault, lines: u128) -> ScriptEnd
    ensures lines { result.lines ≡ lines }
    ensures fault { result.fault ≡ Some fault }
    ensures net { result.net ≡ None }
{
    ScriptEnd {
        lines,
        fault: Some(fault),
        net: None,
    }
}

impl<A: Answering> Session<A> {
    /// The end of a run that answered all. A fault may still cut the network off.
    pub(crate) fn done(self, alloc: Global) -> ScriptEnd
        ensures lines { result.lines ≡ self.lines }
        ensures end { IsEnd A.leaves A.needs_place self.state result.fault result.net }
    {
        match self.state.into_net(alloc) {
            Ok(net) => ScriptEnd {
                lines: self.lines,
                fault: None,
                net: Some(net),
            },
            Err(fault) => ended_by(fault, self.lines),
        }
    }

    /// The end of a run by a fault.
    pub(crate) fn failed(self, fault: Fault) -> ScriptEnd
        ensures lines { result.lines ≡ self.lines }
        ensures fault { result.fault ≡ Some fault }
        ensures net { result.net ≡ None }
    {
        ended_by(fault, self.lines)
    }

    /// Answers a last line that no line feed ends.
    fn finish<T: Telling, W: Write>(
        &mut self,
        alloc: Global,
        telling: &T,
        writer: &mut W,
    ) -> Option<Fault>
        requires { self.old.lines + 2 ^ 64 ≤ 2 ^ 128 }
        ensures { (start : A) (unread left held : Option (List ℕ))
            → HasAnswered (T.tells telling.now) A.commands start unread left held (W.contents writer.old) self.old → IsAtEnd left
            → RanTo (T.tells telling.now) A.commands A.fails A.needs_place start unread left held (W.contents writer.new) result self.new.lines self.new.state }
    {
        if !self.line.has_begun() {
            return None;
        }
        match self.step(alloc, telling, writer, b"\n".as_slice()) {
            Ok(()) => None,
            Err(fault) => Some(fault),
        }
    }

    /// Reads on to the end of the script, and answers each line before more is read. Tells the fault that ended the run, if
    /// one did. Who answers stays, as the answers left it.
    pub fn read_to_end<T: Telling, R: Read, W: Write>(
        &mut self,
        alloc: Global,
        telling: &T,
        reader: &mut R,
        writer: &mut W,
        reads: u64,
    ) -> Option<Fault>
        requires { self.old.lines ≤ (reads + 1) * 2 ^ 64 }
        ensures { (start : A) (unread held : Option (List ℕ))
            → HasAnswered (T.tells telling.now) A.commands start unread (R.remaining reader.old) held (W.contents writer.old) self.old
            → RanTo (T.tells telling.now) A.commands A.fails A.needs_place start unread (R.remaining reader.new) held (W.contents writer.new) result self.new.lines self.new.state }
    {
        let mut chunk = [0u8; CHUNK];
        for _turn in reads..READ_LIMIT {
            match reader.read(&mut chunk) {
                Ok(0) => return self.finish(alloc, telling, writer),
                Ok(n) => {
                    if let Err(fault) = self.step(alloc, telling, writer, &chunk[..n]) {
                        return Some(fault);
                    }
                }
                Err(e) => {
                    if e.kind() != ErrorKind::Interrupted {
                        return Some(Fault::Read);
                    }
                }
            }
        }
        Some(Fault::Read)
    }

    /// Reads on to the end of the script, as `read_to_end` does, and gives the network away.
    pub fn read_on<T: Telling, R: Read, W: Write>(
        mut self,
        alloc: Global,
        telling: &T,
        reader: &mut R,
        writer: &mut W,
        reads: u64,
    ) -> ScriptEnd
        requires { self.lines ≤ (reads + 1) * 2 ^ 64 }
        ensures { (start : A) (unread held : Option (List ℕ))
            → HasAnswered (T.tells telling.now) A.commands start unread (R.remaining reader.old) held (W.contents writer.old) self
            → Ran (T.tells telling.now) A.commands A.leaves A.needs_place start unread (R.remaining reader.new) held (W.contents writer.new) result.fault result.lines result.net }
    {
        match self.read_to_end(alloc, telling, reader, writer, reads) {
            None => self.done(alloc),
            Some(fault) => self.failed(fault),
        }
    }
}

/// Reads a script to its end, has each line answered before more is read, and gives back who answered.
pub fn read_lines<A: Answering, T: Telling, R: Read, W: Write>(
    alloc: Global,
    telling: &T,
    reader: &mut R,
    writer: &mut W,
    start: A,
) -> LinesEnd<A>
    ensures { RanTo (T.tells telling.now) A.commands A.fails A.needs_place start (R.remaining reader.old) (R.remaining reader.new)
        (W.contents writer.old) (W.contents writer.new) result.fault result.lines result.state }
{
    let mut session = Session::new(alloc, start, 1);
    let fault = session.read_to_end(alloc, telling, reader, writer, 0);
    LinesEnd {
        lines: session.lines,
        fault,
        state: session.state,
    }
}

/// Reads a script to its end, and has each line answered before more is read.
pub fn run_lines<A: Answering, T: Telling, R: Read, W: Write>(
    alloc: Global,
    telling: &T,
    reader: &mut R,
    writer: &mut W,
    start: A,
) -> ScriptEnd
    ensures { Ran (T.tells telling.now) A.commands A.leaves A.needs_place start (R.remaining reader.old) (R.remaining reader.new)
        (W.contents writer.old) (W.contents writer.new) result.fault result.lines result.net }
{
    Session::new(alloc, start, 1).read_on(alloc, telling, reader, writer, 0)
}
