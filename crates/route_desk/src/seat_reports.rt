//! What is told of seats: why they can't be run, and why one ended early.

use crate::reports::{Done, Stop, Teller};
use crate::seat_faults::{SeatsFault, fault_at};
use crate::seat_files::StreamFault;
use crate::seat_reasons::explain_seats;
use crate::seat_text::SeatEntry;
use crate::streams::Seen;
use console::{Fault, write_fault};
use std::io;
use std::process::ExitCode;

/// The text SEATS with its name.
#[derive(Clone, Copy)]
pub struct SeatsText<'a> {
    pub name: &'a str,
    pub bytes: &'a [u8],
}

/// Why a desk isn't run whose text SEATS is wrong. What is wrong with it is said if faults are explained.
pub fn wrong_text(teller: Teller<'_>, text: SeatsText<'_>, fault: SeatsFault) -> Stop {
    if teller.explained {
        explain_seats(teller, text.name, text.bytes, &fault);
    }
    Stop::Seats(fault)
}

/// Says which fault ended a seat. Its name has nothing that could steer a terminal.
fn tell_seat(rt: &HostRuntime, entry: &SeatEntry, fault: &Fault) {
    let name = entry.name.as_str();
    let _ = match write_fault(rt.alloc(), *fault) {
        Ok(text) => eprintln!(rt; "route_desk: {name}: {text}"),
        Err(_) => eprintln!(rt; "route_desk: {name}: 1 OutOfMemory"),
    };
}

/// The file of a seat that a fault is about.
fn file_of<'a>(entry: &'a SeatEntry, fault: &Fault) -> &'a str {
    match (fault, entry.input.as_str(), entry.output.as_str()) {
        (Fault::Read, "-", _) => "standard input",
        (Fault::Read, input, _) => input,
        (_, _, "-") => "standard output",
        (_, _, output) => output,
    }
}

/// Says that a seat can't be run, since one of its files can't be read or written.
fn refuse_seat(
    teller: Teller<'_>,
    entry: Option<&SeatEntry>,
    fault: &Fault,
    error: &io::Error,
) -> Done {
    let Some(entry) = entry else {
        return Err(Stop::Fault(*fault));
    };
    teller.explain_file(file_of(entry, fault), error);
    tell_seat(teller.rt, entry, fault);
    Ok(ExitCode::from(1))
}

/// Says why the seats of a text can't be run.
pub fn refuse_streams(
    teller: Teller<'_>,
    text: SeatsText<'_>,
    entries: &[SeatEntry],
    fault: &StreamFault,
) -> Done {
    match fault {
        StreamFault::Entry(place, flaw) => {
            Err(wrong_text(teller, text, fault_at(*place, *flaw)))
        }
        StreamFault::File(place, fault, error) => {
            refuse_seat(teller, entries.get(*place), fault, error)
        }
        StreamFault::OutOfMemory => Err(Stop::Fault(Fault::OutOfMemory)),
    }
}

/// Says why a seat ended early, if it did: the system's reason, or what its fault means. Gives whether it did.
pub fn tell_end(teller: Teller<'_>, entry: &SeatEntry, seen: &Seen, fault: Option<Fault>) -> bool {
    let Some(fault) = seen.fault_of(fault) else {
        return false;
    };
    match seen.error_of(&fault) {
        Some(error) => teller.explain_file(file_of(entry, &fault), &error),
        None => teller.explain_fault(fault),
    }
    tell_seat(teller.rt, entry, &fault);
    true
}
