//! Who tells what there is to tell on the standard streams, and why an order ends early, with its status.

use crate::reasons::write_reason;
use crate::saying::say;
use crate::seat_faults::{SeatsFault, write_seats_fault};
use crate::sheets::{FolderFault, describe};
use answers::{Reason, reason_title};
use console::{Fault, write_fault};
use std::alloc::{AllocError, Global};
use std::io;
use std::io::{ErrorKind, Write};
use std::process::ExitCode;

/// Why an order ends early.
#[derive(Drop)]
pub enum Stop {
    /// This fault.
    Fault(Fault),
    /// This fault, since the standard stream of this name fails.
    Stream(Fault, &'static str, io::Error),
    /// What is wrong with the text SEATS.
    Seats(SeatsFault),
    /// Why the tables of a folder say no network.
    Folder(FolderFault),
    /// A picture is asked about a destination that has no plan.
    NoPlan,
    /// A picture is asked about what is no code.
    NoCode,
    /// The number of workers is none.
    NoWorkers,
    /// An argument isn't UTF-8.
    NotUtf8,
}

impl From<Fault> for Stop {
    fn from(fault: Fault) -> Stop {
        Stop::Fault(fault)
    }
}

impl From<AllocError> for Stop {
    fn from(_refused: AllocError) -> Stop {
        Stop::Fault(Fault::OutOfMemory)
    }
}

impl From<SeatsFault> for Stop {
    fn from(fault: SeatsFault) -> Stop {
        Stop::Seats(fault)
    }
}

impl From<FolderFault> for Stop {
    fn from(fault: FolderFault) -> Stop {
        Stop::Folder(fault)
    }
}

/// How an order ends: with a status, or early.
pub type Done = Result<ExitCode, Stop>;

/// Who tells what there is to tell.
#[derive(Clone, Copy)]
pub struct Teller<'a> {
    /// What it is told by.
    pub rt: &'a HostRuntime,
    /// Whether it is explained on standard error what is wrong.
    pub explained: bool,
}

impl<'a> Teller<'a> {
    /// Who tells faults alone.
    pub fn brief(rt: &'a HostRuntime) -> Teller<'a> {
        Teller {
            rt,
            explained: false,
        }
    }

    /// Where memory comes from.
    pub fn alloc(self) -> Global {
        self.rt.alloc()
    }

    /// Says a sentence, if faults are explained.
    pub fn say(self, pieces: &[&str]) {
        if self.explained {
            say(self.rt, pieces);
        }
    }

    /// Says why a file can't be read or written, if faults are explained.
    pub fn explain_file(self, name: &str, error: &io::Error) {
        if self.explained {
            if let Ok(text) = write_reason(self.alloc(), name, error) {
                say(self.rt, &[text.as_str()]);
            }
        }
    }

    /// Says what a fault means, if faults are explained.
    pub fn explain_fault(self, fault: Fault) {
        self.say(&[explanations::explain_fault(&fault).meaning]);
    }

    /// Writes bytes that were asked for, if there was memory for them.
    pub fn tell_bytes(self, bytes: Result<Vec<u8>, AllocError>) -> Done {
        let bytes = bytes?;
        match io::writer(self.rt).write_all(bytes.as_slice()) {
            Ok(()) => Ok(ExitCode::SUCCESS),
            Err(error) => Err(Stop::Stream(Fault::Write, "standard output", error)),
        }
    }

    /// Writes a text that was asked for, if there was memory for it.
    pub fn tell(self, text: Result<String, AllocError>) -> Done {
        self.tell_bytes(text.map(|text| text.into_bytes()))
    }

    /// Says on a line what ended an order.
    fn tell_words(self, words: &str) -> io::Result<()> {
        eprintln!(self.rt; "route_desk: {words}")
    }

    /// Says on a line what ended an order, or that there was no memory to say it.
    fn tell_text(self, text: Result<String, AllocError>) -> io::Result<()> {
        match text {
            Ok(text) => self.tell_words(text.as_str()),
            Err(_) => self.tell_words("1 OutOfMemory"),
        }
    }

    /// Says that a standard stream failed. That nobody reads the output any more is no fault to be told: the status says it.
    fn tell_stream(self, fault: Fault, stream: &str, error: &io::Error) -> io::Result<()> {
        if error.kind() == ErrorKind::BrokenPipe {
            return Ok(());
        }
        self.explain_file(stream, error);
        self.tell_text(write_fault(self.alloc(), fault))
    }

    /// Says why an order ended early.
    fn tell_stop(self, stop: &Stop) -> io::Result<()> {
        let alloc = self.alloc();
        match stop {
            Stop::Fault(fault) => self.tell_text(write_fault(alloc, *fault)),
            Stop::Stream(fault, stream, error) => self.tell_stream(*fault, *stream, error),
            Stop::Seats(fault) => self.tell_text(write_seats_fault(alloc, fault)),
            Stop::Folder(fault) => self.tell_text(describe(alloc, fault)),
            Stop::NoPlan => self.tell_words(reason_title(&Reason::NoPlan)),
            Stop::NoCode => self.tell_words("X is no signalling point code"),
            Stop::NoWorkers => self.tell_words("workers"),
            Stop::NotUtf8 => self.tell_words("an argument isn't UTF-8"),
        }
    }
}

/// The status of an order that ended early: 2 if its command line isn't read.
fn status_of(stop: &Stop) -> ExitCode {
    match stop {
        Stop::NoCode | Stop::NoWorkers | Stop::NotUtf8 => ExitCode::from(2),
        _ => ExitCode::from(1),
    }
}

/// Ends an order: says why it ended early, if it did, and gives its status.
pub fn end(teller: Teller<'_>, done: Done) -> io::Result<ExitCode> {
    match done {
        Ok(status) => Ok(status),
        Err(stop) => {
            teller.tell_stop(&stop)?;
            Ok(status_of(&stop))
        }
    }
}
