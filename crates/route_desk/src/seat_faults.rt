//! What is wrong with the text SEATS, and how it is told.

use crate::seat_text::SeatEntry;
use std::alloc::{AllocError, AllocFailed, Global};

/// So many seats there are at most.
pub const MOST_SEATS: usize = 60;

/// What is wrong with an entry.
#[derive(Debug, Clone, Copy, PartialEq, Eq)]
pub enum Flaw {
    /// It has a key that there isn't.
    Unknown,
    /// The value of this key is missing, of another type or out of its range.
    Value(&'static str),
    /// Its name is that of an entry before it.
    NameTwice,
    /// The file of this key is that of an entry before it, or of its other key.
    FileTwice(&'static str),
    /// It has `reopen`, and its input is no FIFO.
    NoFifo,
    /// It is one too many.
    TooMany,
    /// Memory was refused for it.
    OutOfMemory,
}

impl From<AllocError> for Flaw {
    fn from(_refused: AllocError) -> Flaw {
        Flaw::OutOfMemory
    }
}

/// Why the text SEATS says no seats.
#[derive(Debug, Clone, Copy, PartialEq, Eq)]
pub enum SeatsFault {
    /// 60: it is no TOML document.
    NotToml,
    /// 61: it has no seat, or `seat` is no list of tables.
    NoSeats,
    /// 61: it has another key.
    UnknownKey,
    /// 62: the entry in this place, counted from 0, is wrong.
    BadLine(usize, Flaw),
    /// 1: memory was refused.
    OutOfMemory,
}

impl<T: Drop> From<AllocFailed<T>> for SeatsFault {
    fn from(_refused: AllocFailed<T>) -> SeatsFault {
        SeatsFault::OutOfMemory
    }
}

/// The fault of an entry that is wrong, by its place from 0.
pub fn fault_at(place: usize, flaw: Flaw) -> SeatsFault {
    match flaw {
        Flaw::OutOfMemory => SeatsFault::OutOfMemory,
        flaw => SeatsFault::BadLine(place, flaw),
    }
}

/// Whether two names are those of one file: `-` is one stream at an input, and another at an output.
fn is_same(one: &str, other: &str, are_alike: bool) -> bool {
    one == other && (are_alike || one != "-")
}

/// Whether an input is that of an entry, or its output.
fn has_input(entry: &SeatEntry, input: &str) -> bool {
    is_same(entry.input.as_str(), input, true) || is_same(entry.output.as_str(), input, false)
}

/// Whether an output is that of an entry, or its input.
fn has_output(entry: &SeatEntry, output: &str) -> bool {
    is_same(entry.output.as_str(), output, true) || is_same(entry.input.as_str(), output, false)
}

/// What an entry has that stands in it or before it already.
pub fn doubled_of(before: &[SeatEntry], entry: &SeatEntry) -> Option<Flaw> {
    let (input, output) = (entry.input.as_str(), entry.output.as_str());
    if before
        .iter()
        .any(|other| other.name.as_str() == entry.name.as_str())
    {
        return Some(Flaw::NameTwice);
    }
    if before.iter().any(|other| has_input(other, input)) {
        return Some(Flaw::FileTwice("in"));
    }
    if is_same(input, output, false) || before.iter().any(|other| has_output(other, output)) {
        return Some(Flaw::FileTwice("out"));
    }
    None
}

/// A fault of SEATS, as its number, its name and its values.
pub fn write_seats_fault(alloc: Global, fault: &SeatsFault) -> Result<String, AllocError> {
    match fault {
        SeatsFault::NotToml => String::from_str(alloc, "60 NotToml"),
        SeatsFault::NoSeats => String::from_str(alloc, "61 BadKey seat"),
        SeatsFault::UnknownKey => String::from_str(alloc, "61 BadKey unknown"),
        SeatsFault::BadLine(place, _) => format!(in alloc; "62 BadLine seat {place}"),
        SeatsFault::OutOfMemory => String::from_str(alloc, "1 OutOfMemory"),
    }
}
