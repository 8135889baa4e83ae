//! The change of a whole set or point, and what stands in a list of events.

ghost use Rattle.std.specs.Prelude.{◌≡◌, map, IfOk};
ghost use Rattle.script_words.specs.Events.{at_end};
ghost use Rattle.script_words.specs.Wholes.{change_at_end, change_named, listed_of, whole_by, whole_named};

use crate::changes::pick_change;
use crate::events::read_event_by;
use crate::verbs::{Verb, read_verb};
use link_state::End::{First, Second};
use link_state::LinkChange;
use link_state::LinkChange::{Block, Fail, Inhibit, Restore, Unblock, Uninhibit};
use net_building::{Listed, Whole};
use std::alloc::{AllocError, Global};
use tokens::{read_code, read_id};

/// `END`, or nothing, which names the first end.
fn read_end(first: LinkChange, second: LinkChange, end: &[&[u8]]) -> Option<LinkChange>
    ensures { result ≡ change_at_end first second (map (λ w. w.now) end.now) }
{
    match end {
        [] => Some(first),
        [word] => pick_change(first, second, *word),
        [_, _, ..] => None,
    }
}

/// The change that a word names, with the words after ID or CODE.
fn read_named(verb: Verb, end: &[&[u8]]) -> Option<LinkChange>
    ensures { result ≡ change_named verb (map (λ w. w.now) end.now) }
{
    match verb {
        Verb::Fail if end.is_empty() => Some(Fail),
        Verb::Restore if end.is_empty() => Some(Restore),
        Verb::Block => read_end(Block(First), Block(Second), end),
        Verb::Unblock => read_end(Unblock(First), Unblock(Second), end),
        Verb::Inhibit => read_end(Inhibit(First), Inhibit(Second), end),
        Verb::Uninhibit => read_end(Uninhibit(First), Uninhibit(Second), end),
        _ => None,
    }
}

/// A set by its ID, or a point by its CODE.
fn read_subject(subject: Verb, change: LinkChange, name: &[u8]) -> Option<Whole>
    ensures { result ≡ whole_named subject change name.now }
{
    match subject {
        Verb::Set => Some(Whole::Set(read_id(name)?, change)),
        Verb::Point => Some(Whole::Point(read_code(name)?, change)),
        _ => None,
    }
}

/// `CHANGE ID`, `CHANGE CODE`, and either with `END`, after `set` or `point`. `None` if the words have another form.
pub fn read_whole_by(subject: Verb, words: &[&[u8]]) -> Option<Whole>
    ensures { result ≡ whole_by subject (map (λ w. w.now) words.now) }
{
    match words {
        [what, name, end @ ..] => {
            let change = read_named(read_verb(*what)?, end)?;
            read_subject(subject, change, *name)
        }
        [] => None,
        [_] => None,
    }
}

/// An event, or the change of a whole set or point. `None` if the words are neither. It fails if memory is refused.
pub fn read_listed(alloc: Global, words: &[&[u8]]) -> Result<Option<Listed>, AllocError>
    ensures { IfOk result (λ listed. listed ≡ listed_of (map (λ w. w.now) words.now)) }
{
    let [word, rest @ ..] = words else {
        return Ok(None);
    };
    let Some(verb) = read_verb(*word) else {
        return Ok(None);
    };
    if let Some(event) = read_event_by(alloc, verb, rest)? {
        return Ok(Some(Listed::Event(event)));
    }
    Ok(read_whole_by(verb, rest).map(Listed::Whole))
}
