//! What is wrong with the text SEATS, in a sentence on standard error: where it stands, and what to do.

use crate::keys::{Keys, form_of};
use crate::places::{Place, place_of, section_of};
use crate::reasons::{Wrong, table_of, tell, write_value, wrong_document, wrong_name};
use crate::reports::Teller;
use crate::seat_faults::{Flaw, SeatsFault};
use crate::sentences::front_of;
use console::Fault;
use std::alloc::{AllocError, Global};
use toml::Table;

/// The table of a seat, by its position.
fn seat_at(table: &Table, position: usize) -> Option<&Table> {
    table.get("seat")?.as_array()?.get(position)?.as_table()
}

/// The text of a key of a seat, shortened.
fn shown_at<'a>(seat: &'a Table, name: &str) -> &'a str {
    match seat.get(name) {
        Some(value) => front_of(value.as_str().unwrap_or("")),
        None => "",
    }
}

/// That the key `seat` is missing, or no list of tables.
fn wrong_list(alloc: Global, bytes: &[u8]) -> Result<Wrong, AllocError> {
    let table = table_of(alloc, bytes)?;
    let Some(form) = form_of(Keys::Seats, "seat") else {
        return Err(AllocError);
    };
    Ok(Wrong {
        place: place_of(bytes, "seat", 0),
        sentence: write_value(alloc, &table, form)?,
    })
}

/// The first key beside `seat`.
fn wrong_key(alloc: Global, bytes: &[u8]) -> Result<Wrong, AllocError> {
    let table = table_of(alloc, bytes)?;
    wrong_name(alloc, Keys::Seats, bytes, &table)
}

/// The key that a flaw is about: that of the seats for one of the whole entry.
fn key_of(flaw: &Flaw) -> &'static str {
    match flaw {
        Flaw::Value(key) | Flaw::FileTwice(key) => *key,
        Flaw::NameTwice => "name",
        Flaw::NoFifo => "reopen",
        Flaw::Unknown | Flaw::TooMany | Flaw::OutOfMemory => "seat",
    }
}

/// That a key names a file that another names too.
fn write_file_twice(alloc: Global, seat: &Table, key: &str) -> Result<String, AllocError> {
    let file = shown_at(seat, key);
    format!(in alloc;
        "{key} names {file}, as another in or out does; give each a file or a FIFO of its own"
    )
}

/// What is wrong with a seat, and what to do.
fn write_flaw(alloc: Global, seat: &Table, flaw: &Flaw) -> Result<String, AllocError> {
    let text = match flaw {
        Flaw::Value(key) => {
            return match form_of(Keys::Seat, key) {
                Some(form) => write_value(alloc, seat, form),
                None => Err(AllocError),
            };
        }
        Flaw::FileTwice(key) => return write_file_twice(alloc, seat, key),
        Flaw::NameTwice => "another seat has that name too; give each a name of its own",
        Flaw::NoFifo => {
            "reopen is for a FIFO alone, and in names none; leave it out, or make the FIFO by mkfifo"
        }
        Flaw::TooMany => "a desk has at most 60 seats; leave it out",
        Flaw::Unknown | Flaw::OutOfMemory => "",
    };
    String::from_str(alloc, text)
}

/// What is wrong with a seat, and where in the part of the text that has it.
fn wrong_in_part(
    alloc: Global,
    part: &[u8],
    seat: &Table,
    flaw: &Flaw,
) -> Result<Wrong, AllocError> {
    match flaw {
        Flaw::Unknown => wrong_name(alloc, Keys::Seat, part, seat),
        _ => Ok(Wrong {
            place: place_of(part, key_of(flaw), 0),
            sentence: write_flaw(alloc, seat, flaw)?,
        }),
    }
}

/// A sentence with the seat that it is about: its position, and its name if it has one.
fn write_about(
    alloc: Global,
    seat: &Table,
    position: usize,
    sentence: &str,
) -> Result<String, AllocError> {
    match shown_at(seat, "name") {
        "" => format!(in alloc; "seat {position}: {sentence}"),
        name => format!(in alloc; "seat {position} (\"{name}\"): {sentence}"),
    }
}

/// What is wrong with a seat, by its position, and where.
fn wrong_seat(
    alloc: Global,
    bytes: &[u8],
    position: usize,
    flaw: &Flaw,
) -> Result<Wrong, AllocError> {
    let table = table_of(alloc, bytes)?;
    let Some(seat) = seat_at(&table, position) else {
        return Err(AllocError);
    };
    // a list of tables between brackets has no headers: then the place is that of the list
    let section = section_of(bytes, "seat", position);
    let part: &[u8] = match &section {
        Some(section) => section.bytes,
        None => &[],
    };
    let wrong = wrong_in_part(alloc, part, seat, flaw)?;
    let place = match section {
        Some(section) => {
            Some(section.place(wrong.place.unwrap_or(Place { line: 1, column: 1 })))
        }
        None => place_of(bytes, "seat", 0),
    };
    Ok(Wrong {
        place,
        sentence: write_about(alloc, seat, position, wrong.sentence.as_str())?,
    })
}

/// Says what is wrong with the text SEATS, where, and what to do.
pub fn explain_seats(teller: Teller<'_>, name: &str, bytes: &[u8], fault: &SeatsFault) {
    let alloc = teller.alloc();
    match fault {
        SeatsFault::NotToml => tell(teller, name, wrong_document(alloc, bytes)),
        SeatsFault::NoSeats => tell(teller, name, wrong_list(alloc, bytes)),
        SeatsFault::UnknownKey => tell(teller, name, wrong_key(alloc, bytes)),
        SeatsFault::BadLine(position, flaw) => {
            tell(teller, name, wrong_seat(alloc, bytes, *position, flaw))
        }
        SeatsFault::OutOfMemory => teller.explain_fault(Fault::OutOfMemory),
    }
}
