//! What stands against an entry of a what-if, which is refused once those before it are made.

use crate::net_sentences::NetSentence;
use net_building::{Listed, Whole, apply_each, events_of_listed};
use net_data::Net;
use script_words::Show;
use std::alloc::{AllocError, Global};
use what_if::Refused;

/// Makes what an entry of a list means on a network: none if it is refused or there is no memory.
fn make(alloc: Global, made: &mut Net, entry: &Listed) -> Option<()> {
    let events = events_of_listed(alloc, made, entry).ok()?.ok()?;
    match apply_each(alloc, made, events.as_slice()).ok()? {
        Some(_) => None,
        None => Some(()),
    }
}

/// A network with some entries of a list made on it, none if one is refused or there is no memory.
fn with_made(alloc: Global, net: &Net, entries: &[Listed]) -> Option<Box<Net>> {
    let copy = net.copy(alloc).ok()?;
    let mut made = Box::new(alloc, copy).ok()?;
    for entry in entries {
        make(alloc, &mut made, entry)?;
    }
    Some(made)
}

/// The entries before the one in a place, counted from 1, and that one.
fn parted(entries: &[Listed], place: u64) -> Option<(&[Listed], &Listed)> {
    let position = usize::try_from(place).ok()?.checked_sub(1)?;
    Some((entries.get(..position)?, entries.get(position)?))
}

impl<'a> NetSentence<'a> {
    /// Adds the set or the point that is missing where the change of a whole one is refused; nothing if it is there.
    pub fn put_missing_whole(&mut self, whole: &Whole) -> Result<(), AllocError> {
        self.put_lacking(match whole {
            Whole::Set(id, _) => Show::Set(*id),
            Whole::Point(code, _) => Show::Point(*code),
        })
    }

    /// Adds what stands in the network against an entry of a list, if that refuses it so.
    fn put_against(&mut self, entry: &Listed, refused: &Refused) -> Result<(), AllocError> {
        let told = refused.refusal;
        match entry {
            Listed::Event(event) => match self.net.refusal_of(event) {
                Some(refusal) if refusal == told => self.put_standing(event, told),
                _ => Ok(()),
            },
            Listed::Whole(whole) => self.put_missing_whole(whole),
        }
    }
}

/// What stands against the refused entry once those before it are made, with its place; empty if that can't be told.
fn write_at(
    alloc: Global,
    made: &Net,
    entry: &Listed,
    refused: &Refused,
) -> Result<String, AllocError> {
    let mut sentence = NetSentence::new(alloc, made);
    sentence.put_against(entry, refused)?;
    let standing = sentence.into_text();
    if standing.is_empty() {
        return Ok(standing);
    }
    let (place, standing) = (refused.place, standing.as_str());
    format!(in alloc; "event {place}: {standing}")
}

/// What stands against the refused event of a what-if, with its place; empty if that can't be told.
pub fn write_tried(
    alloc: Global,
    net: &Net,
    entries: &[Listed],
    refused: &Refused,
) -> Result<String, AllocError> {
    let Some((before, entry)) = parted(entries, refused.place) else {
        return Ok(String::new(alloc));
    };
    match with_made(alloc, net, before) {
        Some(made) => write_at(alloc, &made, entry, refused),
        None => Ok(String::new(alloc)),
    }
}
