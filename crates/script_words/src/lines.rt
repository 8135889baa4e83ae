//! The command of a line.

ghost use Rattle.std.specs.Prelude.{◌≡◌, ◌≢◌, ◌<◌, map, option_map, IfOk, IfSome};
ghost use Rattle.tokens.specs.Words.{words_of};
ghost use Rattle.script_words.specs.Commands.{IsWithin, alone, collector_alone, command_listed, slot_alone, switch_of, post_of, command_by, command_of};
ghost use Rattle.script_words.specs.Wholes.{listed_by};

use crate::command_words::{CommandWord, read_command_word};
use crate::commands::Command;
use crate::events::read_event_by;
use crate::moves::read_changes;
use crate::numbers::{read_collector, read_sequence, read_slot};
use crate::pictures::{read_picture, read_save};
use crate::queries::{read_about, read_either, read_octets, read_trace};
use crate::questions::Question;
use crate::read_event;
use crate::shows::{read_show, read_statuses};
use crate::surveys::read_survey;
use crate::verbs::{Verb, read_verb};
use crate::what_ifs::read_events;
use crate::wholes::read_whole_by;
use crate::words::is_word;
use std::alloc::{AllocError, Global};
use tokens::split_words;

/// A command of one word, if no other word comes after it.
fn only(command: Command, rest: &[&[u8]]) -> Option<Command>
    requires { IsWithin command }
    ensures value { result ≡ alone command (map (λ w. w.now) rest.now) }
    ensures within { IfSome result IsWithin }
{
    match rest {
        [] => Some(command),
        [_, ..] => None,
    }
}

/// `K`.
fn read_only_slot(words: &[&[u8]]) -> Option<u8>
    ensures value { result ≡ slot_alone (map (λ w. w.now) words.now) }
    ensures within { IfSome result (λ slot. slot < 32) }
{
    match words {
        [slot] => read_slot(*slot),
        [] => None,
        [_, _, ..] => None,
    }
}

/// `C`.
fn read_only_collector(words: &[&[u8]]) -> Option<u8>
    ensures { result ≡ collector_alone (map (λ w. w.now) words.now) }
{
    match words {
        [collector] => read_collector(*collector),
        [] => None,
        [_, _, ..] => None,
    }
}

/// `on` or `off`.
fn read_switch(words: &[&[u8]]) -> Option<bool>
    ensures { result ≡ switch_of (map (λ w. w.now) words.now) }
{
    match words {
        [what] => match *what {
            _ if is_word(*what, "on") => Some(true),
            _ if is_word(*what, "off") => Some(false),
            _ => None,
        },
        [] => None,
        [_, _, ..] => None,
    }
}

/// `C SEQ EVENT`.
fn read_post(alloc: Global, words: &[&[u8]]) -> Result<Option<Command>, AllocError>
    ensures value { IfOk result (λ command. command ≡ post_of (map (λ w. w.now) words.now)) }
    ensures within { IfOk result (λ command. IfSome command IsWithin) }
{
    match words {
        [collector, sequence, event @ ..] => {
            let Some(collector) = read_collector(*collector) else {
                return Ok(None);
            };
            let Some(sequence) = read_sequence(*sequence) else {
                return Ok(None);
            };
            match read_event(alloc, event)? {
                Some(event) => Ok(Some(Command::Post(collector, sequence, event))),
                None => Ok(None),
            }
        }
        [] => Ok(None),
        [_] => Ok(None),
    }
}

/// The command of a first word that asks nothing about the row of a point, and the words after it. It stands apart, so that
/// questions, which are many, don't make room for what only others need.
#[inline(never)]
fn read_besides(
    alloc: Global,
    word: CommandWord,
    rest: &[&[u8]],
) -> Result<Option<Command>, AllocError>
    requires rows { (word ≢ CommandWord.Status) × (word ≢ CommandWord.Sls) × (word ≢ CommandWord.Messages) × (word ≢ CommandWord.Octets) }
    requires ways { (word ≢ CommandWord.Why) × (word ≢ CommandWord.Mend) × (word ≢ CommandWord.Remedy) × (word ≢ CommandWord.Trace) }
    ensures value { IfOk result (λ command. command ≡ command_by word (map (λ w. w.now) rest.now)) }
    ensures within { IfOk result (λ command. IfSome command IsWithin) }
{
    match word {
        CommandWord::WhatIf => Ok(read_events(alloc, rest)?.map(Command::WhatIf)),
        CommandWord::Reroutes => Ok(read_events(alloc, rest)?.map(Command::Reroutes)),
        CommandWord::Survey => read_survey(alloc, rest),
        CommandWord::Post => read_post(alloc, rest),
        CommandWord::Picture => read_picture(alloc, rest),
        CommandWord::Save => read_save(alloc, rest),
        CommandWord::Show => Ok(read_show(rest).map(Command::Show)),
        CommandWord::Statuses => Ok(read_statuses(rest).map(Command::Show)),
        CommandWord::Sync => Ok(only(Command::Sync, rest)),
        CommandWord::Open => Ok(only(Command::Open, rest)),
        CommandWord::Take => Ok(read_only_slot(rest).map(Command::Take)),
        CommandWord::Give => Ok(read_only_slot(rest).map(Command::Give)),
        CommandWord::Abandon => Ok(read_only_slot(rest).map(Command::Abandon)),
        CommandWord::Publish => Ok(only(Command::Publish, rest)),
        CommandWord::Version => Ok(only(Command::Version, rest)),
        CommandWord::Last => Ok(read_only_collector(rest).map(Command::Last)),
        CommandWord::Who => Ok(only(Command::Who, rest)),
        CommandWord::Warn => Ok(only(Command::Warn, rest)),
        CommandWord::Audit => Ok(only(Command::Audit, rest)),
        CommandWord::Changes => Ok(read_changes(rest)),
        CommandWord::Watch => Ok(read_switch(rest).map(Command::Watch)),
        _ => unreachable!(),
    }
}

/// The command of a first word and the words after it.
fn read_by(alloc: Global, word: CommandWord, rest: &[&[u8]]) -> Result<Option<Command>, AllocError>
    ensures value { IfOk result (λ command. command ≡ command_by word (map (λ w. w.now) rest.now)) }
    ensures within { IfOk result (λ command. IfSome command IsWithin) }
{
    match word {
        CommandWord::Status => Ok(read_about(Question::Status, rest)),
        CommandWord::Sls => Ok(read_about(Question::Links, rest)),
        CommandWord::Messages => Ok(read_about(Question::Messages, rest)),
        CommandWord::Octets => Ok(read_octets(rest)),
        CommandWord::Why => Ok(read_about(Question::Why, rest)),
        CommandWord::Mend => Ok(read_either(Question::Mend, Question::MendAllowed, rest)),
        CommandWord::Remedy => Ok(read_either(Question::Remedy, Question::RemedyAllowed, rest)),
        CommandWord::Trace => Ok(read_trace(rest)),
        _ => read_besides(alloc, word, rest),
    }
}

/// The command of the first word of an event and the words after it: an event, or the change of a whole set or point.
fn read_said(alloc: Global, verb: Verb, rest: &[&[u8]]) -> Result<Option<Command>, AllocError>
    ensures value { IfOk result (λ command. command ≡ option_map command_listed (listed_by verb (map (λ w. w.now) rest.now))) }
    ensures within { IfOk result (λ command. IfSome command IsWithin) }
{
    if let Some(event) = read_event_by(alloc, verb, rest)? {
        return Ok(Some(Command::Event(event)));
    }
    Ok(read_whole_by(verb, rest).map(Command::Whole))
}

/// The command that the words of a line say, if they say one.
fn read_command(alloc: Global, words: &[&[u8]]) -> Result<Option<Command>, AllocError>
    ensures value { IfOk result (λ command. command ≡ command_of (map (λ w. w.now) words.now)) }
    ensures within { IfOk result (λ command. IfSome command IsWithin) }
{
    let [word, rest @ ..] = words else {
        return Ok(None);
    };
    // No word begins both an event and another command, and most lines are events.
    if let Some(verb) = read_verb(*word) {
        return read_said(alloc, verb, rest);
    }
    match read_command_word(*word) {
        Some(word) => read_by(alloc, word, rest),
        None => Ok(None),
    }
}

/// The command that a line says. `None` if it says none. It fails if memory is refused.
pub fn read_line(alloc: Global, line: &[u8]) -> Result<Option<Command>, AllocError>
    ensures value { IfOk result (λ command. command ≡ command_of (words_of line.now)) }
    ensures within { IfOk result (λ command. IfSome command IsWithin) }
{
    let words = split_words(alloc, line)?;
    read_command(alloc, words.as_slice())
}
