//! The input and the output of a run: what the system says where one of them fails, and how many answers are refusals.

use console::{Fault, ScriptEnd};
use std::io;
use std::io::ErrorKind;
use std::sync::atomic::{AtomicBool, AtomicI32, AtomicU64, Ordering};

/// What is seen of a run by its reader and its writers. They may be in another thread.
#[derive(Drop)]
pub struct Seen {
    /// Whether memory was refused for a file's name or for what a reader holds back.
    pub is_out_of_memory: AtomicBool,
    /// The system's number of what was wrong with the input, 0 if it isn't known.
    input: AtomicI32,
    /// The same of the output.
    output: AtomicI32,
    /// How many lines were refused, 0 if that isn't counted.
    refused: AtomicU64,
}

impl Seen {
    /// Nothing yet.
    pub fn new() -> Seen {
        Seen {
            is_out_of_memory: AtomicBool::new(false),
            input: AtomicI32::new(0),
            output: AtomicI32::new(0),
            refused: AtomicU64::new(0),
        }
    }

    /// Counts a refused line.
    pub fn count_refusal(&self) {
        let so_far = self.refused();
        self.refused
            .store(so_far.saturating_add(1), Ordering::SeqCst);
    }

    /// How many lines were refused, 0 if that isn't counted.
    pub fn refused(&self) -> u64 {
        self.refused.load(Ordering::SeqCst)
    }

    /// What the system said of the input or the output, if one of them ended a run with that fault.
    pub fn error_of(&self, fault: &Fault) -> Option<io::Error> {
        let number = match fault {
            Fault::Read => self.input.load(Ordering::SeqCst),
            Fault::Write => self.output.load(Ordering::SeqCst),
            _ => 0,
        };
        if number == 0 {
            return None;
        }
        Some(io::Error::from_raw_os_error(number))
    }

    /// What the system said of standard input or output, if one of them ended the run with that fault, with its name.
    pub fn reason_of(&self, fault: &Fault) -> Option<(&'static str, io::Error)> {
        let error = self.error_of(fault)?;
        match fault {
            Fault::Read => Some(("standard input", error)),
            _ => Some(("standard output", error)),
        }
    }

    /// Notes what the system said, or that memory was refused; not that the call was interrupted, which is tried again.
    fn note<T>(&self, told: &io::Result<T>, place: &AtomicI32) {
        let Err(error) = told else {
            return;
        };
        match error.kind() {
            ErrorKind::Interrupted => {}
            ErrorKind::OutOfMemory => self.is_out_of_memory.store(true, Ordering::SeqCst),
            _ => place.store(error.raw_os_error().unwrap_or(0), Ordering::SeqCst),
        }
    }

    /// The fault of a run that ended with a fault, or with none: if memory for what it reads or writes was refused, that was it.
    pub fn fault_of(&self, fault: Option<Fault>) -> Option<Fault> {
        if self.is_out_of_memory.load(Ordering::SeqCst) {
            return Some(Fault::OutOfMemory);
        }
        fault
    }

    /// The end of a run: if memory for what it reads or writes was refused, that was its fault.
    pub fn end_of(&self, mut end: ScriptEnd) -> ScriptEnd {
        end.fault = self.fault_of(end.fault);
        end
    }
}

/// A reader of which it is seen why it fails.
#[derive(Drop)]
pub struct SeenReader<'a, R: io::Read> {
    seen: &'a Seen,
    reader: R,
}

impl<'a, R: io::Read> SeenReader<'a, R> {
    /// A reader, and where it tells why it fails.
    pub fn new(seen: &'a Seen, reader: R) -> SeenReader<'a, R> {
        SeenReader { seen, reader }
    }
}

impl<'a, R: io::Read> io::Read for SeenReader<'a, R> {
    ghost remaining = { λ p. R.remaining p.reader };

    fn read(&mut self, buf: &mut [u8]) -> io::Result<usize> {
        let read = self.reader.read(buf);
        self.seen.note(&read, &self.seen.input);
        read
    }
}

/// A writer of which it is seen why it fails.
#[derive(Drop)]
pub struct SeenWriter<'a, W: io::Write> {
    seen: &'a Seen,
    writer: W,
}

impl<'a, W: io::Write> SeenWriter<'a, W> {
    /// A writer, and where it tells why it fails.
    pub fn new(seen: &'a Seen, writer: W) -> SeenWriter<'a, W> {
        SeenWriter { seen, writer }
    }
}

impl<'a, W: io::Write> io::Write for SeenWriter<'a, W> {
    ghost contents = { λ p. W.contents p.writer };

    fn write(&mut self, buf: &[u8]) -> io::Result<usize> {
        let written = self.writer.write(buf);
        self.seen.note(&written, &self.seen.output);
        written
    }

    fn flush(&mut self) -> io::Result<()> {
        self.writer.flush()
    }
}
