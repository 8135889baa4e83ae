//! A run of an input that starts with the network text.

ghost use Rattle.std.specs.Prelude.{◌≡◌, ◌≢◌, ℕ, ◌-◌, ◌*◌, ◌≤◌, min, ◌++◌, List, length, take, [], IfErr, IfOk, OnOk, MatchResult, IfSome, Option, None, Some, Ok, Err};
ghost use Rattle.std.specs.Io.KnownBytes.{Consumes, IsAtEnd};
ghost use Rattle.std.specs.IoError.{error_kind};
ghost use Rattle.net_text.specs.Reading.{Says};
ghost use Rattle.sessions.specs.Input.{is_mark, IsOpenAt, IsMarkAt, IsOpening, IsUnopened, IsLoadFault, RanAfter, text_part, script_part};

use crate::answering::Answering;
use crate::faults::Fault;
use crate::lines::without_return;
use crate::runs::{CHUNK, READ_LIMIT, ScriptEnd};
use crate::scanning::count_lines;
use crate::session::Session;
use answers::Telling;
use net_data::Net;
use net_text::{LoadFault, load};
use std::alloc::{AllocError, Global};
use std::io::{Error, ErrorKind, Read, Write};

/// A limit on the bytes of a network text.
pub const TEXT_LIMIT: usize = 134217728;

/// The bytes of the line between the network text and the script, with both bytes that end it.
const MARK_LEN: usize = 4;

/// Whether a line is the one between the network text and the script.
fn is_mark_line(line: &[u8]) -> bool
    ensures { result ≡ is_mark line.now }
{
    without_return(line) == b"%%".as_slice()
}

/// Where the last line that was looked at begins, and where its line feed stands if it is the mark.
#[derive(Clone, Copy)]
struct Look {
    line: usize,
    mark: Option<usize>,
}

/// Looks for the mark from a place on, in whose line nothing but its start was looked at.
fn find_mark(bytes: &[u8], first: usize, from: usize) -> Look
    requires { IsOpenAt bytes.now first from }
    ensures none { result.mark ≡ None → IsOpenAt bytes.now result.line (length bytes.now) }
    ensures some { IfSome result.mark (λ at. IsMarkAt bytes.now result.line at) }
{
    let mut line = first;
    for at in from..bytes.len() {
        if bytes[at] == b'\n' {
            if is_mark_line(&bytes[line..at]) {
                return Look {
                    line,
                    mark: Some(at),
                };
            }
            line = at + 1;
        }
    }
    Look { line, mark: None }
}

/// The network text, the place where it ends, and the place where the script starts if a mark stands between them.
#[derive(Drop)]
pub struct Opening {
    /// All bytes that were read.
    pub bytes: Vec<u8>,
    /// Where the network text ends.
    pub text: usize,
    /// Where the script starts.
    pub script: Option<usize>,
    /// How many reads there were.
    pub reads: u64,
}

/// What was read of an input while no mark was found, and where its last line begins.
#[derive(Drop)]
struct Head {
    bytes: Vec<u8>,
    line: usize,
}

impl Head {
    /// Nothing that was read.
    fn new(alloc: Global) -> Head
        ensures bytes { result.bytes.items ≡ [] }
        ensures line { result.line ≡ 0 }
    {
        Head {
            bytes: Vec::new(alloc),
            line: 0,
        }
    }

    /// Takes the bytes of one read, and tells where the line feed of the first mark stands if it is among them.
    fn take(&mut self, chunk: &[u8]) -> Result<Option<usize>, AllocError>
        requires { IsOpenAt self.old.bytes.items self.old.line (length self.old.bytes.items) }
        ensures bytes { OnOk result (self.new.bytes.items ≡ self.old.bytes.items ++ chunk.now) }
        ensures none { result ≡ Ok None → IsOpenAt self.new.bytes.items self.new.line (length self.new.bytes.items) }
        ensures some { IfOk result (λ mark. IfSome mark (λ at. IsMarkAt self.new.bytes.items self.new.line at)) }
    {
        let from = self.bytes.len();
        self.bytes.extend_from_slice(chunk)?;
        let look = find_mark(self.bytes.as_slice(), self.line, from);
        self.line = look.line;
        Ok(look.mark)
    }

    /// The opening of an input whose mark was read.
    fn marked(self, at: usize, reads: u64) -> Result<Opening, Fault>
        requires { IsMarkAt self.bytes.items self.line at }
        ensures { (unread left : Option (List ℕ)) → Consumes unread left self.bytes.items → length self.bytes.items ≤ reads * 65536
            → MatchResult result (IsOpening unread left) (IsUnopened unread left) }
    {
        if self.line > TEXT_LIMIT {
            return Err(Fault::Read);
        }
        Ok(Opening {
            bytes: self.bytes,
            text: self.line,
            script: Some(at + 1),
            reads,
        })
    }

    /// The opening of an input that ended with no mark, or with one as its last line.
    fn ended(self, reads: u64) -> Result<Opening, Fault>
        requires { IsOpenAt self.bytes.items self.line (length self.bytes.items) }
        ensures { (unread left : Option (List ℕ)) → Consumes unread left self.bytes.items → IsAtEnd left
            → length self.bytes.items ≤ reads * 65536 → MatchResult result (IsOpening unread left) (IsUnopened unread left) }
    {
        let text = self.text_end();
        if text > TEXT_LIMIT {
            return Err(Fault::Read);
        }
        Ok(Opening {
            bytes: self.bytes,
            text,
            script: None,
            reads,
        })
    }

    /// Where the network text of an input that ended here ends.
    fn text_end(&self) -> usize
        requires { IsOpenAt self.now.bytes.items self.now.line (length self.now.bytes.items) }
        ensures within { result ≤ length self.now.bytes.items }
        ensures parts { (text_part self.now.bytes.items ≡ take result self.now.bytes.items) × (script_part self.now.bytes.items ≡ []) }
    {
        let bytes = self.bytes.as_slice();
        if is_mark_line(&bytes[self.line..]) {
            return self.line;
        }
        bytes.len()
    }
}

/// How many bytes the next read may take, where this many were read.
fn room_after(read: usize) -> usize
    requires { read ≤ 134217732 }
    ensures { result ≡ min (134217732 - read) 65536 }
{
    (TEXT_LIMIT + MARK_LEN - read).min(CHUNK)
}

/// What an error of a read is; it goes here.
fn kind_of(error: Error) -> ErrorKind
    ensures { result ≡ error_kind error }
{
    error.kind()
}

/// Reads the network text, up to the mark or the end of the input.
pub fn read_text<R: Read>(alloc: Global, reader: &mut R) -> Result<Opening, Fault>
    ensures { MatchResult result (IsOpening (R.remaining reader.old) (R.remaining reader.new))
        (IsUnopened (R.remaining reader.old) (R.remaining reader.new)) }
{
    let mut head = Head::new(alloc);
    let mut chunk = [0u8; CHUNK];
    for turn in 0..READ_LIMIT {
        let room = room_after(head.bytes.len());
        if room == 0 {
            return Err(Fault::Read);
        }
        let window = &mut chunk[..room];
        match reader.read(window) {
            Ok(0) => return head.ended(turn),
            Ok(n) => match head.take(&window[..n]) {
                Ok(None) => {}
                Ok(Some(at)) => return head.marked(at, turn + 1),
                Err(_) => return Err(Fault::OutOfMemory),
            },
            Err(e) => {
                if kind_of(e) != ErrorKind::Interrupted {
                    return Err(Fault::Read);
                }
            }
        }
    }
    Err(Fault::Read)
}

/// What was loaded, with its fault as one of the run.
pub(crate) fn of_run(loaded: Result<Net, LoadFault>) -> Result<Net, Fault>
    ensures { (text : List ℕ) → IfOk loaded (λ net. Says text (Ok net)) → IfErr loaded (λ e. e ≢ LoadFault.OutOfMemory → Says text (Err e))
        → loaded ≢ Err LoadFault.Read → MatchResult result (λ net. Says text (Ok net)) (IsLoadFault text) }
{
    match loaded {
        Ok(net) => Ok(net),
        Err(LoadFault::OutOfMemory) => Err(Fault::OutOfMemory),
        Err(fault) => Err(Fault::Load(fault)),
    }
}

/// The network that a text says.
pub fn load_text(alloc: Global, text: &[u8]) -> Result<Net, Fault>
    ensures { MatchResult result (λ net. Says text.now (Ok net)) (IsLoadFault text.now) }
{
    of_run(load(alloc, text))
}

impl Opening {
    /// The number of the script's first line in the input, from 1.
    fn first_number(&self) -> u64 {
        let before = self.script.unwrap_or(0);
        match self.bytes.get(..before) {
            Some(front) => (count_lines(front) as u64).saturating_add(1),
            None => 1,
        }
    }

    /// Runs the script that comes after the network text.
    pub fn run<A: Answering, T: Telling, R: Read, W: Write>(
        self,
        alloc: Global,
        telling: &T,
        reader: &mut R,
        writer: &mut W,
        start: A,
    ) -> ScriptEnd
        requires script { IfSome self.script (λ at. at ≤ length self.bytes.items) }
        requires few { length self.bytes.items ≤ self.reads * 65536 }
        ensures { (unread : Option (List ℕ)) → IsOpening unread (R.remaining reader.old) self
            → RanAfter (T.tells telling.now) A.commands A.leaves A.needs_place (take self.text self.bytes.items) start
            unread (R.remaining reader.new) (W.contents writer.old) (W.contents writer.new) result.fault result.lines result.net }
    {
        let mut session = Session::new(alloc, start, self.first_number());
        let at = match self.script {
            Some(at) => at,
            None => return session.done(alloc),
        };
        if let Err(fault) = session.step(alloc, telling, writer, &self.bytes[at..]) {
            return session.failed(fault);
        }
        drop(self.bytes);
        session.read_on(alloc, telling, reader, writer, self.reads)
    }
}
