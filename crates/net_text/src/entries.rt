//! The events of an entry.

ghost use Rattle.std.specs.Prelude.{◌≡◌, map, option_map, IfOk};
ghost use Rattle.script_words.specs.Events.{plan_of};
ghost use Rattle.net_building.specs.Building.{set_events};
ghost use Rattle.net_text.specs.Entries.{set_of, only_event, events_of_words, entry_of};

use crate::faults::Key;
use crate::sets::read_set;
use net_building::events_of_set;
use net_data::Event;
use script_words::{read_added_point, read_pair, read_plan};
use std::alloc::{AllocError, Global};
use tokens::{Format, split_words};

/// One event, if there is one.
fn one_event(alloc: Global, event: Option<Event>) -> Result<Option<Vec<Event>>, AllocError>
    ensures { IfOk result (λ events. option_map (λ v. v.items) events ≡ option_map only_event event) }
{
    match event {
        Some(event) => {
            let mut events = Vec::with_capacity(alloc, 1)?;
            events.push(event)?;
            Ok(Some(events))
        }
        None => Ok(None),
    }
}

/// The events of an entry of a set.
fn read_set_events(
    alloc: Global,
    format: Format,
    words: &[&[u8]],
) -> Result<Option<Vec<Event>>, AllocError>
    ensures { IfOk result (λ events. option_map (λ v. v.items) events ≡ option_map set_events (set_of format (map (λ w. w.now) words.now))) }
{
    match read_set(alloc, format, words)? {
        Some(set) => Ok(Some(events_of_set(alloc, &set)?)),
        None => Ok(None),
    }
}

/// The event of an entry of a plan.
fn read_plan_event(alloc: Global, words: &[&[u8]]) -> Result<Option<Vec<Event>>, AllocError>
    ensures { IfOk result (λ events. option_map (λ v. v.items) events ≡ option_map only_event (plan_of (map (λ w. w.now) words.now))) }
{
    let plan = read_plan(alloc, words)?;
    one_event(alloc, plan)
}

/// The events that the words of an entry say.
fn read_words(
    alloc: Global,
    key: Key,
    format: Format,
    words: &[&[u8]],
) -> Result<Option<Vec<Event>>, AllocError>
    ensures { IfOk result (λ events. option_map (λ v. v.items) events ≡ events_of_words key format (map (λ w. w.now) words.now)) }
{
    match key {
        Key::Points => one_event(alloc, read_added_point(words)),
        Key::Pairs => one_event(alloc, read_pair(words)),
        Key::Sets => read_set_events(alloc, format, words),
        Key::Plans => read_plan_event(alloc, words),
        Key::Format | Key::Ni | Key::Tfr | Key::Unknown => Ok(None),
    }
}

/// The events that an entry says, in this format. `None` if it can't be read.
pub fn read_entry(
    alloc: Global,
    key: Key,
    format: Format,
    text: &[u8],
) -> Result<Option<Vec<Event>>, AllocError>
    ensures { IfOk result (λ events. option_map (λ v. v.items) events ≡ entry_of key format text.now) }
{
    let words = split_words(alloc, text)?;
    read_words(alloc, key, format, words.as_slice())
}
