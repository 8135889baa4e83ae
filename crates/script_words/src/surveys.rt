//! What a line asks to be surveyed.

ghost use Rattle.std.specs.Prelude.{◌≡◌, map, IfOk, IfSome};
ghost use Rattle.script_words.specs.Commands.{IsWithin, events_if, survey_of, surveyed_of};

use crate::commands::{Command, Events};
use crate::what_ifs::read_events;
use crate::words::is_word;
use net_building::Surveyed;
use std::alloc::{AllocError, Global};

/// `sets`, `points` or `down`.
fn read_surveyed(word: &[u8]) -> Option<Surveyed>
    ensures { result ≡ surveyed_of word.now }
{
    match word {
        _ if is_word(word, "sets") => Some(Surveyed::Sets),
        _ if is_word(word, "points") => Some(Surveyed::Points),
        _ if is_word(word, "down") => Some(Surveyed::Down),
        _ => None,
    }
}

/// No word, or `EVENT ; EVENT ..`.
fn read_events_if(alloc: Global, words: &[&[u8]]) -> Result<Option<Events>, AllocError>
    ensures { IfOk result (λ events. events ≡ events_if (map (λ w. w.now) words.now)) }
{
    match words {
        [] => Ok(Some(Events::from_vec(Vec::new(alloc)))),
        [_, ..] => read_events(alloc, words),
    }
}

/// `sets`, `points` or `down`, and events after it, if some are named.
pub fn read_survey(alloc: Global, words: &[&[u8]]) -> Result<Option<Command>, AllocError>
    ensures value { IfOk result (λ command. command ≡ survey_of (map (λ w. w.now) words.now)) }
    ensures within { IfOk result (λ command. IfSome command IsWithin) }
{
    let [what, rest @ ..] = words else {
        return Ok(None);
    };
    let Some(surveyed) = read_surveyed(*what) else {
        return Ok(None);
    };
    match read_events_if(alloc, rest)? {
        Some(events) => Ok(Some(Command::Survey(surveyed, events))),
        None => Ok(None),
    }
}
