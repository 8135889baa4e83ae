//! Why a run ends early, in a sentence on standard error: what is wrong, where, and what to do.

use crate::keys::{KeyForm, Keys, entry_at, entry_without_text, form_of, name_of, nearest};
use crate::places::{Place, place_at, place_of};
use crate::reports::Teller;
use crate::sentences::front_of;
use console::Fault;
use explanations::{explain_cause, explain_edit};
use net_data::Refusal;
use net_text::{Key, LoadFault};
use plan_rows::Cause;
use point_codes::PointCode;
use std::alloc::{AllocError, Global};
use std::io;
use toml::Table;

/// Where in a text something is wrong, and what.
#[derive(Drop)]
pub struct Wrong {
    pub place: Option<Place>,
    pub sentence: String,
}

/// Says what is wrong with a text, and where, if that is known.
pub fn tell(teller: Teller<'_>, name: &str, wrong: Result<Wrong, AllocError>) {
    let Ok(wrong) = wrong else {
        return;
    };
    let sentence = wrong.sentence.as_str();
    let Some(Place { line, column }) = wrong.place else {
        return teller.say(&[name, ": ", sentence]);
    };
    if let Ok(place) = format!(in teller.alloc(); ": line {line}, column {column}: ") {
        teller.say(&[name, place.as_str(), sentence]);
    }
}

/// That a text is no TOML document: why, and where.
fn write_document(
    alloc: Global,
    bytes: &[u8],
    error: &toml::de::Error,
) -> Result<Wrong, AllocError> {
    let (why, start) = (error.message(), error.span().map_or(0, |span| span.start));
    Ok(Wrong {
        place: Some(place_at(bytes, start)),
        sentence: format!(in alloc; "{why}; mend the text there")?,
    })
}

/// Where a text is no TOML document, and why.
pub fn wrong_document(alloc: Global, bytes: &[u8]) -> Result<Wrong, AllocError> {
    match toml::table_from_slice(alloc, bytes) {
        Ok(_) => Err(AllocError),
        Err(error) => write_document(alloc, bytes, &error),
    }
}

/// What there is to say of a key that isn't known.
fn write_unknown(alloc: Global, keys: Keys, name: &str) -> Result<String, AllocError> {
    let told = keys.told();
    if form_of(keys, name).is_some() {
        return String::from_str(
            alloc,
            "tfr is a key of format 2 alone: write format = 2, or leave it out",
        );
    }
    match nearest(keys, name) {
        Some(nearest) => format!(in alloc; "there is no key {name}; is {nearest} meant? {told}"),
        None => format!(in alloc; "there is no key {name}; {told}"),
    }
}

/// Whether a key of a table is none that it may have: any key is known, but `tfr` only if the format isn't 1.
pub fn is_unknown(keys: Keys, table: &Table, name: &str) -> bool {
    if form_of(keys, name).is_none() {
        return true;
    }
    let format = match table.get("format") {
        Some(value) => value.as_integer(),
        None => None,
    };
    name == "tfr" && format == Some(1)
}

/// Whether a place stands before another, or the other isn't known.
fn is_before(place: Option<Place>, other: Option<Place>) -> bool {
    match (place, other) {
        (Some(one), Some(other)) => one.line < other.line,
        (Some(_), None) => true,
        _ => false,
    }
}

/// The first key of a text that isn't known.
pub fn wrong_name(
    alloc: Global,
    keys: Keys,
    bytes: &[u8],
    table: &Table,
) -> Result<Wrong, AllocError> {
    let (mut found, mut first): (Option<&String>, Option<Place>) = (None, None);
    for name in table.keys() {
        let place = place_of(bytes, name.as_str(), 0);
        if is_unknown(keys, table, name.as_str()) && (found.is_none() || is_before(place, first)) {
            found = Some(name);
            first = place;
        }
    }
    let name = found.map_or("", |name| name.as_str());
    Ok(Wrong {
        place: first,
        sentence: write_unknown(alloc, keys, name)?,
    })
}

/// What is wrong with the value of a key.
pub fn write_value(alloc: Global, table: &Table, form: &KeyForm) -> Result<String, AllocError> {
    let (name, value, example) = (form.name, form.value, form.example);
    let Some(given) = table.get(name) else {
        return format!(in alloc; "the key {name} is missing: it has to be {value}, as {example}");
    };
    match entry_without_text(given) {
        Some(place) if !form.entry.is_empty() => {
            format!(in alloc; "{name} has to be {value}, and entry {place} is none, as {example}")
        }
        _ => format!(in alloc; "{name} has to be {value}, as {example}"),
    }
}

/// The document of a text that is one.
pub fn table_of(alloc: Global, bytes: &[u8]) -> Result<Table, AllocError> {
    match toml::table_from_slice(alloc, bytes) {
        Ok(table) => Ok(table),
        Err(_) => Err(AllocError),
    }
}

/// What is wrong with a key of a text.
fn wrong_key(alloc: Global, bytes: &[u8], key: Key) -> Result<Wrong, AllocError> {
    let table = table_of(alloc, bytes)?;
    let Some(form) = name_of(key).and_then(|name| form_of(Keys::Network, name)) else {
        return wrong_name(alloc, Keys::Network, bytes, &table);
    };
    Ok(Wrong {
        place: place_of(bytes, form.name, 0),
        sentence: write_value(alloc, &table, form)?,
    })
}

/// What is wrong with a row of a plan, and what to do.
fn write_row(alloc: Global, point: PointCode, cause: Cause) -> Result<String, AllocError> {
    let explained = explain_cause(cause);
    let (meaning, action) = (explained.meaning, explained.action);
    format!(in alloc; "the row of {point} can't be in that plan. {meaning} {action}")
}

/// What an entry of a network text, or a line of a table, is refused for, and what to do there.
pub fn write_refused(alloc: Global, refusal: &Refusal) -> Result<String, AllocError> {
    let explained = explain_edit(refusal);
    let (meaning, action) = (explained.meaning, explained.action);
    match refusal {
        Refusal::BadRow(point, cause) => write_row(alloc, *point, *cause),
        Refusal::Joined(id) => {
            format!(in alloc;
                "set {id} joins the two points already. Add the links to it: there is one set between two points."
            )
        }
        Refusal::NoPoint => String::from_str(
            alloc,
            "a point that it names is not in the network. Add it to the points, or mend the code.",
        ),
        Refusal::Paired => String::from_str(
            alloc,
            "a point that it names has a mate already. Name each point in one pair.",
        ),
        _ => format!(in alloc; "{meaning} {action}"),
    }
}

/// What is wrong with an entry of a text: the entry, and a sentence.
fn wrong_entry(
    alloc: Global,
    bytes: &[u8],
    key: Key,
    place: usize,
    sentence: Result<String, AllocError>,
) -> Result<Wrong, AllocError> {
    let sentence = sentence?;
    let (name, sentence) = (name_of(key).unwrap_or(""), sentence.as_str());
    let table = table_of(alloc, bytes)?;
    let entry = front_of(entry_at(&table, name, place).unwrap_or(""));
    Ok(Wrong {
        place: place_of(bytes, name, place),
        sentence: format!(in alloc; "{name} {place} (\"{entry}\"): {sentence}")?,
    })
}

/// That an entry can't be read, and what one is.
fn write_unread(alloc: Global, key: Key) -> Result<String, AllocError> {
    let name = name_of(key).unwrap_or("");
    let entry = form_of(Keys::Network, name).map_or("", |form| form.entry);
    format!(in alloc; "the entry can't be read; an entry of {name} is {entry}")
}

/// Says what is wrong with a network text, where, and what to do.
pub fn explain_text(teller: Teller<'_>, name: &str, bytes: &[u8], fault: Fault) {
    let alloc = teller.alloc();
    match fault {
        Fault::Load(LoadFault::NotToml) => tell(teller, name, wrong_document(alloc, bytes)),
        Fault::Load(LoadFault::BadKey(key)) => tell(teller, name, wrong_key(alloc, bytes, key)),
        Fault::Load(LoadFault::BadLine(key, place)) => {
            let sentence = write_unread(alloc, key);
            tell(
                teller,
                name,
                wrong_entry(alloc, bytes, key, place, sentence),
            )
        }
        Fault::Load(LoadFault::Refused(key, place, refusal)) => {
            let sentence = write_refused(alloc, &refusal);
            tell(
                teller,
                name,
                wrong_entry(alloc, bytes, key, place, sentence),
            )
        }
        _ => teller.explain_fault(fault),
    }
}

/// The reason in the text of a system's error, without its number.
fn reason_in(text: &str) -> &str {
    match text.split_once(" (os error ") {
        Some((reason, _)) => reason,
        None => text,
    }
}

/// Why a file can't be read or written: `nofile: No such file or directory`.
pub fn write_reason(alloc: Global, name: &str, error: &io::Error) -> Result<String, AllocError> {
    let text = format!(in alloc; "{error}")?;
    let reason = reason_in(text.as_str());
    format!(in alloc; "{name}: {reason}")
}
