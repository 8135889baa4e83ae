//! What was read of a FIFO and isn't handed on yet: whole lines are, and what a writer has begun waits for its end.

ghost use Rattle.std.specs.Prelude.{◌≤◌, length};

use std::alloc::{AllocError, Global};

/// So many bytes of a line that has no end yet are held back: as many as a line that is answered has with both bytes that end it.
const MOST_HELD: usize = 131074;

/// Bytes that were read, of which those up to a place may be handed on.
#[derive(Drop)]
pub struct HeldLines {
    bytes: Vec<u8>,
    /// So many of them were handed on.
    given: usize,
    /// So many of them may be.
    ready: usize,
    /// Whether the line that has no end yet is too long to be held back, so that its front may be handed on.
    is_long: bool,
}

impl HeldLines {
    /// Nothing.
    pub fn new(alloc: Global) -> HeldLines {
        HeldLines {
            bytes: Vec::new(alloc),
            given: 0,
            ready: 0,
            is_long: false,
        }
    }

    /// What may be handed on.
    fn front(&self) -> &[u8] {
        self.bytes
            .as_slice()
            .get(self.given..self.ready)
            .unwrap_or(&[])
    }

    /// Whether anything may be handed on.
    pub fn is_ready(&self) -> bool {
        !self.front().is_empty()
    }

    /// Hands on as much as there is, and room for: how many bytes.
    pub fn hand_on(&mut self, buf: &mut [u8]) -> usize
        ensures { result ≤ length buf.new }
    {
        let front = self.front();
        let count = front.len().min(buf.len());
        buf[..count].copy_from_slice(&front[..count]);
        self.given = self.given.saturating_add(count);
        count
    }

    /// Lets go what was handed on.
    fn forget_given(&mut self) {
        let given = self.given.min(self.bytes.len());
        if given > 0 {
            let left = self.bytes.len() - given;
            self.bytes.copy_within(given.., 0);
            self.bytes.truncate(left);
        }
        self.ready = self.ready.saturating_sub(given);
        self.given = 0;
    }

    /// Lets the front of a line be handed on that is too long to be held back.
    fn release_long(&mut self) {
        if self.is_long || self.bytes.len().saturating_sub(self.ready) > MOST_HELD {
            self.is_long = true;
            self.ready = self.bytes.len();
        }
    }

    /// Takes what was read.
    pub fn take(&mut self, chunk: &[u8]) -> Result<(), AllocError> {
        self.forget_given();
        self.bytes.extend_from_slice(chunk)?;
        if let Some(behind) = chunk.iter().rev().position(|byte| *byte == b'\n') {
            self.ready = self.bytes.len().saturating_sub(behind);
            self.is_long = false;
        }
        self.release_long();
        Ok(())
    }

    /// Ends what was cut off in the middle of a line, when all that may be was handed on: what was held back is dropped, and a line
    /// whose front was handed on gets its end. Gives how many bytes were dropped.
    pub fn cut_off(&mut self) -> Result<usize, AllocError> {
        self.forget_given();
        if self.is_long {
            self.bytes.push(b'\n')?;
            self.ready = self.bytes.len();
            self.is_long = false;
            return Ok(0);
        }
        let dropped = self.bytes.len();
        self.bytes.clear();
        self.ready = 0;
        Ok(dropped)
    }
}
