//! The lines of a script.

ghost use Rattle.std.specs.Prelude.{◌≡◌, ◌==◌, ℕ, [], ◌∷◌, ◌++◌, List, OnOk, IsTrue, false, ◌≢◌, slice_index};
ghost use Rattle.std.specs.List.{list_all};
ghost use Rattle.sessions.specs.Lines.{trimmed, is_silent};
ghost use Rattle.sessions.specs.Run.{IsLine};

use std::alloc::{AllocError, Global};

/// A limit on a line's bytes, without the carriage return at its end.
pub const LINE_LIMIT: usize = 131072;

/// A line without the carriage return at its end.
pub fn without_return(line: &[u8]) -> &[u8]
    ensures { result.now ≡ trimmed line.entry.now }
{
    match line {
        [front @ .., 13] => front,
        _ => line,
    }
}

/// Whether a line is a comment.
fn is_comment(line: &[u8]) -> bool
    ensures { result ≡ (slice_index line.now 0 == 35) }
{
    match line {
        [b'#', ..] => true,
        _ => false,
    }
}

/// Whether a line has only spaces.
fn only_spaces(line: &[u8]) -> bool
    ensures { result ≡ list_all (λ b. b == 32) line.now }
{
    line.iter().all(|b| *b == b' ')
}

/// Whether a line gets no answer.
pub fn is_quiet(line: &[u8]) -> bool
    ensures { result ≡ is_silent line.now }
{
    is_comment(line) || only_spaces(line)
}

/// A line that is being read. At most one byte more than the limit is kept of it.
#[derive(Drop)]
pub struct Line {
    pub bytes: Vec<u8>,
    pub too_long: bool,
}

impl Line {
    /// A line that has not begun.
    pub fn new(alloc: Global) -> Line
        ensures { IsLine result [] }
    {
        Line {
            bytes: Vec::new(alloc),
            too_long: false,
        }
    }

    /// Takes the next byte.
    pub fn take(&mut self, byte: u8) -> Result<(), AllocError>
        ensures { OnOk result ((rest : List ℕ) → IsLine self.old rest → IsLine self.new (rest ++ byte ∷ [])) }
    {
        if self.too_long {
            return Ok(());
        }
        if self.bytes.len() > LINE_LIMIT {
            self.too_long = true;
            return Ok(());
        }
        self.bytes.push(byte)?;
        Ok(())
    }

    /// Takes the next bytes one by one.
    fn take_each(&mut self, bytes: &[u8]) -> Result<(), AllocError>
        ensures { OnOk result ((rest : List ℕ) → IsLine self.old rest → IsLine self.new (rest ++ bytes.now)) }
    {
        for byte in bytes {
            self.take(*byte)?;
        }
        Ok(())
    }

    /// Takes the next bytes.
    pub fn take_all(&mut self, bytes: &[u8]) -> Result<(), AllocError>
        ensures { OnOk result ((rest : List ℕ) → IsLine self.old rest → IsLine self.new (rest ++ bytes.now)) }
    {
        let kept = self.bytes.len();
        // Only what fits within the limit is kept in one piece.
        if self.too_long || kept > LINE_LIMIT || bytes.len() > LINE_LIMIT + 1 - kept {
            return self.take_each(bytes);
        }
        self.bytes.extend_from_slice(bytes)?;
        Ok(())
    }

    /// Begins a new line.
    pub fn clear(&mut self)
        ensures { IsLine self.new [] }
    {
        self.bytes.clear();
        self.too_long = false;
    }

    /// Whether it has a byte.
    pub fn has_begun(&self) -> bool
        ensures some { IsTrue result → (rest : List ℕ) → IsLine self.now rest → rest ≢ [] }
        ensures none { result ≡ false → (rest : List ℕ) → IsLine self.now rest → rest ≡ [] }
    {
        self.too_long || !self.bytes.is_empty()
    }
}
