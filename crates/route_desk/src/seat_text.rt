//! The text SEATS: which sessions a desk has, and where each reads and writes.

use crate::keys::Keys;
use crate::reasons::is_unknown;
use crate::seat_faults::{Flaw, MOST_SEATS, SeatsFault, doubled_of, fault_at};
use json_answers::Form;
use std::alloc::Global;
use toml::{Table, Value};

/// So many bytes a name has at most.
const LONGEST_NAME: usize = 32;

/// A seat, as its entry says it.
#[derive(Drop)]
pub struct SeatEntry {
    pub name: String,
    /// Where its lines come from: a file, or `-`.
    pub input: String,
    /// Where its answers go: a file, or `-`.
    pub output: String,
    /// The form of its answers, none if it isn't told.
    pub form: Option<Form>,
    /// Whether it may post.
    pub posts: bool,
    /// The collector that posts its plain events.
    pub collector: u8,
    /// Whether a FIFO that it reads is opened again, none if it isn't told.
    pub reopen: Option<bool>,
}

/// The text of a key, if the entry has it.
fn text_at(alloc: Global, table: &Table, name: &'static str) -> Result<Option<String>, Flaw> {
    let Some(value) = table.get(name) else {
        return Ok(None);
    };
    match value.as_str() {
        Some(text) => Ok(Some(String::from_str(alloc, text)?)),
        None => Err(Flaw::Value(name)),
    }
}

/// The text of a key that an entry has to have.
fn text_of(alloc: Global, table: &Table, name: &'static str) -> Result<String, Flaw> {
    match text_at(alloc, table, name)? {
        Some(text) if !text.is_empty() => Ok(text),
        _ => Err(Flaw::Value(name)),
    }
}

/// Whether a key says yes, if the entry has it.
fn flag_at(table: &Table, name: &'static str) -> Result<Option<bool>, Flaw> {
    let Some(value) = table.get(name) else {
        return Ok(None);
    };
    match value.as_bool() {
        Some(flag) => Ok(Some(flag)),
        None => Err(Flaw::Value(name)),
    }
}

/// Whether a byte may stand in the name of a seat.
fn is_name_byte(byte: u8) -> bool {
    matches!(byte, b'a'..=b'z' | b'A'..=b'Z' | b'0'..=b'9' | b'-' | b'_')
}

/// The name of a seat.
fn name_of(alloc: Global, table: &Table) -> Result<String, Flaw> {
    let name = text_of(alloc, table, "name")?;
    if name.len() > LONGEST_NAME || !name.as_bytes().iter().all(|byte| is_name_byte(*byte)) {
        return Err(Flaw::Value("name"));
    }
    Ok(name)
}

/// The form of the answers of a seat, none if it isn't told.
fn form_of(alloc: Global, table: &Table) -> Result<Option<Form>, Flaw> {
    let Some(form) = text_at(alloc, table, "answers")? else {
        return Ok(None);
    };
    match form.as_str() {
        "text" => Ok(Some(Form::Text)),
        "json" => Ok(Some(Form::Objects)),
        _ => Err(Flaw::Value("answers")),
    }
}

/// The collector of a seat.
fn collector_of(table: &Table) -> Result<u8, Flaw> {
    let Some(value) = table.get("collector") else {
        return Ok(0);
    };
    let Some(number) = value.as_integer() else {
        return Err(Flaw::Value("collector"));
    };
    match u8::try_from(number) {
        Ok(number) => Ok(number),
        Err(_) => Err(Flaw::Value("collector")),
    }
}

/// Whether a table has a key that it mustn't have.
fn has_unknown(keys: Keys, table: &Table) -> bool {
    table
        .keys()
        .any(|name| is_unknown(keys, table, name.as_str()))
}

/// Reads an entry.
fn read_entry(alloc: Global, table: &Table) -> Result<SeatEntry, Flaw> {
    if has_unknown(Keys::Seat, table) {
        return Err(Flaw::Unknown);
    }
    Ok(SeatEntry {
        name: name_of(alloc, table)?,
        input: text_of(alloc, table, "in")?,
        output: text_of(alloc, table, "out")?,
        form: form_of(alloc, table)?,
        posts: flag_at(table, "posts")?.unwrap_or(true),
        collector: collector_of(table)?,
        reopen: flag_at(table, "reopen")?,
    })
}

/// Reads the entry of a table after those before it.
fn read_next(alloc: Global, before: &[SeatEntry], table: &Table) -> Result<SeatEntry, Flaw> {
    if before.len() >= MOST_SEATS {
        return Err(Flaw::TooMany);
    }
    let entry = read_entry(alloc, table)?;
    match doubled_of(before, &entry) {
        Some(flaw) => Err(flaw),
        None => Ok(entry),
    }
}

/// The tables of the seats, none if there is no seat or they are no list of tables.
fn tables_of(table: &Table) -> Option<&[Value]> {
    let list = table.get("seat")?.as_array()?;
    if list.is_empty() || list.iter().any(|value| !value.is_table()) {
        return None;
    }
    Some(list.as_slice())
}

/// Reads the entries of a list of tables.
fn read_entries(alloc: Global, list: &[Value]) -> Result<Vec<SeatEntry>, SeatsFault> {
    let mut entries = Vec::new(alloc);
    for value in list {
        let Some(table) = value.as_table() else {
            return Err(SeatsFault::NoSeats);
        };
        match read_next(alloc, entries.as_slice(), table) {
            Ok(entry) => entries.push(entry)?,
            Err(flaw) => return Err(fault_at(entries.len(), flaw)),
        }
    }
    Ok(entries)
}

/// Reads the seats of a document.
fn read_table(alloc: Global, table: &Table) -> Result<Vec<SeatEntry>, SeatsFault> {
    if has_unknown(Keys::Seats, table) {
        return Err(SeatsFault::UnknownKey);
    }
    match tables_of(table) {
        Some(list) => read_entries(alloc, list),
        None => Err(SeatsFault::NoSeats),
    }
}

/// Reads the seats that a text says, in its order.
///
/// # Errors
///
/// The first fault: of the document, of its keys, and then of its entries.
pub fn read_seats(alloc: Global, bytes: &[u8]) -> Result<Vec<SeatEntry>, SeatsFault> {
    match toml::table_from_slice(alloc, bytes) {
        Ok(table) => read_table(alloc, &table),
        Err(error) if error.is_memory() => Err(SeatsFault::OutOfMemory),
        Err(_) => Err(SeatsFault::NotToml),
    }
}
