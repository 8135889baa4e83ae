//! The end of an input at its first line `quit`.

ghost use Rattle.std.specs.Prelude.{◌≡◌, Some};
ghost use Rattle.sessions.specs.Quitting.{IsFound, after as comes_after, after_all, after_text, is_idle, is_quit as says_quit};

use crate::scanning::split_line;
use memchr::{memchr, memrchr};
use std::io;

/// How far a line has come that may be `quit`: spaces, the word, spaces again, and a carriage return at most.
#[derive(Clone, Copy, PartialEq, Eq)]
pub enum Progress {
    /// Spaces, or nothing.
    Spaces,
    /// Then `q`.
    Q,
    /// Then `qu`.
    Qu,
    /// Then `qui`.
    Qui,
    /// Then `quit`, and spaces.
    Quit,
    /// Then a carriage return.
    Return,
    /// Something else.
    Other,
}

impl Progress {
    /// How far it has come after one more byte.
    fn after(self, byte: u8) -> Progress
        ensures { result ≡ comes_after self byte }
    {
        match (self, byte) {
            (Progress::Spaces, b' ') => Progress::Spaces,
            (Progress::Spaces, b'q') => Progress::Q,
            (Progress::Q, b'u') => Progress::Qu,
            (Progress::Qu, b'i') => Progress::Qui,
            (Progress::Qui, b't') => Progress::Quit,
            (Progress::Quit, b' ') => Progress::Quit,
            (Progress::Quit, b'\r') => Progress::Return,
            _ => Progress::Other,
        }
    }

    /// How far it has come after some more bytes.
    #[tactic(auto, using(crate::proofs::QuitLemmas::other_stays))]
    fn after_all(self, bytes: &[u8]) -> Progress
        ensures { result ≡ after_all self bytes.now }
    {
        let mut line = self;
        let mut rest = bytes;
        while let Some((byte, more)) = rest.split_first() {
            if line == Progress::Other {
                return Progress::Other;
            }
            line = line.after(*byte);
            rest = more;
        }
        line
    }

    /// How far the last line has come after some more bytes, among which lines may end.
    fn after_text(self, bytes: &[u8]) -> Progress
        ensures { result ≡ after_text self bytes.now }
    {
        match memrchr(b'\n', bytes) {
            Some(at) => Progress::Spaces.after_all(&bytes[at + 1..]),
            None => self.after_all(bytes),
        }
    }

    /// Whether no letter of `quit` has come.
    fn is_idle(self) -> bool
        ensures { result ≡ is_idle self }
    {
        matches!(self, Progress::Spaces | Progress::Other)
    }

    /// Whether a line that ends here is `quit`.
    fn is_quit(self) -> bool
        ensures { result ≡ says_quit self }
    {
        matches!(self, Progress::Quit | Progress::Return)
    }
}

/// What some bytes come to.
pub enum Found {
    /// A line `quit` ends with so many of them.
    Quit(usize),
    /// None does, and their last line has come so far.
    Line(Progress),
}

/// Looks line by line for the first one that is `quit`, among the next bytes of a line and those after it.
fn find_by_line(start: Progress, bytes: &[u8]) -> Found
    ensures { IsFound start bytes.now result }
{
    let mut line = start;
    let mut rest = bytes;
    while let Some((front, after)) = split_line(rest) {
        if line.after_all(front).is_quit() {
            return Found::Quit(bytes.len() - after.len());
        }
        line = Progress::Spaces;
        rest = after;
    }
    Found::Line(line.after_all(rest))
}

/// Looks for the first line `quit` among the next bytes of a line and those after it.
fn find_quit(start: Progress, bytes: &[u8]) -> Found
    ensures { IsFound start bytes.now result }
{
    // Mostly there is no `q`.
    match memchr(b'q', bytes) {
        None if start.is_idle() => Found::Line(start.after_text(bytes)),
        _ => find_by_line(start, bytes),
    }
}

/// A reader whose input ends with its first line `quit`: one with that word alone.
#[derive(Drop)]
pub struct UntilQuit<R: io::Read> {
    reader: R,
    /// How far the line has come that is being read; none after the line `quit`.
    line: Option<Progress>,
}

impl<R: io::Read> UntilQuit<R> {
    /// A reader of which nothing was read.
    pub fn new(reader: R) -> UntilQuit<R>
        ensures reader { result.reader ≡ reader }
        ensures line { result.line ≡ Some Progress.Spaces }
    {
        UntilQuit {
            reader,
            line: Some(Progress::Spaces),
        }
    }
}

impl<R: io::Read> io::Read for UntilQuit<R> {
    ghost use Rattle.sessions.specs.Quitting.{left_of};

    ghost remaining = { λ q. left_of q.line (R.remaining q.reader) };

    fn read(&mut self, buf: &mut [u8]) -> io::Result<usize> {
        let Some(line) = self.line else {
            return Ok(0);
        };
        let count = self.reader.read(buf)?;
        match find_quit(line, &buf[..count]) {
            Found::Quit(end) => {
                self.line = None;
                Ok(end)
            }
            Found::Line(next) => {
                self.line = Some(next);
                Ok(count)
            }
        }
    }
}
