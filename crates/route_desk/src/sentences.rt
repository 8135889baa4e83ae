//! The sentence for a line that was refused.

use crate::net_sentences::NetSentence;
use crate::saying::write_bytes;
use crate::tried::write_tried;
use answers::{Asked, Reason};
use explanations::explain_reason;
use net_building::Whole;
use net_data::{Event, Net, Refusal as EditRefusal};
use point_codes::PointCode;
use script_words::{Command, Events, Show, form_of, read_line};
use std::alloc::{AllocError, Global};
use work_units::Refusal;

/// What a script begins with that some editors put there.
const BYTE_ORDER_MARK: char = '\u{feff}';

/// So much of a word is shown.
const SHOWN: usize = 60;

/// The front of a text that is shown.
pub fn front_of(text: &str) -> &str {
    match text.char_indices().nth(SHOWN) {
        Some((end, _)) => text.get(..end).unwrap_or(text),
        None => text,
    }
}

/// What a word of a form stands for, if that is told by the word alone.
fn meaning_of(place: &str) -> Option<&'static str> {
    match place {
        "Y" | "X" | "Z" | "CODE" => Some("a signalling point code"),
        "ID" => Some("the id of a link set, 0 to 4095"),
        "SLC" => Some("a signalling link code, 0 to 15"),
        "END" => Some("a or b"),
        "K" => Some("a slot, 0 to 31"),
        "C" => Some("a collector, 0 to 255"),
        "S" => Some("a signalling link selection, 0 to 15"),
        _ => None,
    }
}

/// Whether a text is a number up to a greatest one, without leading zeros.
fn is_number(word: &str, greatest: u32) -> bool {
    match word.parse::<u32>() {
        Ok(number) => number <= greatest && !(word.len() > 1 && word.starts_with('0')),
        Err(_) => false,
    }
}

/// Whether a word may stand in a place of a form.
fn fits(place: &str, word: &str) -> bool {
    match place {
        "Y" | "X" | "Z" | "CODE" => PointCode::parse(word.as_bytes()).is_ok(),
        "ID" => is_number(word, 65535),
        "SLC" => is_number(word, 255),
        "S" => is_number(word, 15),
        "END" => word == "a" || word == "b",
        "K" => is_number(word, 31),
        "C" => is_number(word, 255),
        _ => true,
    }
}

/// Which word of a line doesn't stand for the one in its place in a form, from 1.
enum Misfit<'a> {
    /// It is missing: what is to stand there.
    Missing(u32, &'a str),
    /// It is another: what is to stand there.
    Wrong(u32, &'a str),
    /// The form has no more.
    TooMany(u32),
}

/// The first word of a line that doesn't stand for the one in its place in a form.
fn misfit_of<'a>(form: &'a str, line: &str) -> Option<Misfit<'a>> {
    let mut words = line.split_ascii_whitespace();
    let mut count = 0u32;
    for place in form.split(' ') {
        count = count.saturating_add(1);
        match words.next() {
            None => return Some(Misfit::Missing(count, place)),
            Some(word) => {
                if !fits(place, word) {
                    return Some(Misfit::Wrong(count, place));
                }
            }
        }
    }
    match words.next() {
        Some(_) => Some(Misfit::TooMany(count.saturating_add(1))),
        None => None,
    }
}

/// Which word doesn't fit, and what is expected there.
fn write_misfit(alloc: Global, misfit: Misfit<'_>) -> Result<String, AllocError> {
    let (count, place, relation) = match misfit {
        Misfit::Missing(count, place) => (count, place, "is missing,"),
        Misfit::Wrong(count, place) => (count, place, "has to be"),
        Misfit::TooMany(count) => return format!(in alloc; "word {count} is one too many"),
    };
    let wanted = meaning_of(place).unwrap_or(place);
    format!(in alloc; "word {count} {relation} {wanted}")
}

/// Whether each word of a form stands for one word of a line.
fn is_plain(form: &str) -> bool {
    !form.contains("..") && !form.contains(" or ") && !form.contains("EVENT")
}

/// What was expected of a line whose first word begins a command of this form.
fn write_expected(alloc: Global, form: &str, line: &str) -> Result<String, AllocError> {
    if is_plain(form) {
        if let Some(misfit) = misfit_of(form, line) {
            return write_misfit(alloc, misfit);
        }
    }
    format!(in alloc; "the form is {form}")
}

/// What was expected of a line that begins with a word, with an example.
fn write_by_word(alloc: Global, word: &str, line: &str) -> Result<String, AllocError> {
    let Some(form) = form_of(word.as_bytes()) else {
        let word = front_of(word);
        return format!(in alloc; "no command begins with {word}; help tells the words");
    };
    let expected = write_expected(alloc, form.form, line)?;
    let (expected, example) = (expected.as_str(), form.example);
    format!(in alloc; "{expected}, as {example}")
}

/// Why a line is no command.
fn write_no_command(alloc: Global, line: &str) -> Result<String, AllocError> {
    if line.starts_with(BYTE_ORDER_MARK) {
        return String::from_str(
            alloc,
            "the line begins with a byte order mark; save the script without one",
        );
    }
    let word = line.split_ascii_whitespace().next().unwrap_or("");
    write_by_word(alloc, word, line)
}

/// Why a command is answered `62 BadLine`.
fn not_now(command: &Command) -> &'static str {
    match command {
        Command::Give(_) | Command::Abandon(_) => {
            "the slot is empty; beside workers they give what they did themselves"
        }
        _ => "beside workers this is done by them",
    }
}

/// Why a line is answered `62 BadLine`.
fn write_bad_line(alloc: Global, line: &str) -> Result<String, AllocError> {
    match read_line(alloc, line.as_bytes())? {
        Some(command) => String::from_str(alloc, not_now(&command)),
        None => write_no_command(alloc, line),
    }
}

/// The event of a command, if it has just one.
fn event_in(command: &Command) -> Option<&Event> {
    match command {
        Command::Event(event) | Command::Post(_, _, event) => Some(event),
        _ => None,
    }
}

/// The point and the destination that a question is about.
fn asked_in(command: &Command) -> Option<(PointCode, PointCode)> {
    match command {
        Command::About(_, point, dest) => Some((*point, *dest)),
        Command::Trace(point, dest, _) => Some((*point, *dest)),
        _ => None,
    }
}

/// The events that a command tries on a copy of the network.
fn tried_in(command: &Command) -> Option<&Events> {
    match command {
        Command::WhatIf(events) | Command::Reroutes(events) | Command::Survey(_, events) => Some(
            events,
        ),
        _ => None,
    }
}

/// What a command asks to be shown; a picture about a destination shows its plan.
fn shown_in(command: &Command) -> Option<Show> {
    match command {
        Command::Show(what) => Some(*what),
        Command::Picture(_, Some(dest)) => Some(Show::Plan(*dest)),
        _ => None,
    }
}

impl<'a> NetSentence<'a> {
    /// Adds what stands in the network against the change of a whole set or point.
    fn put_whole(&mut self, whole: &Whole, why: Reason) -> Result<(), AllocError> {
        match (whole, why) {
            (Whole::Point(code, _), Reason::Desk(Refusal::Edit(EditRefusal::NoSet))) => {
                self.put_about("", *code)?;
                self.put(" is an end of no link set")
            }
            _ => self.put_missing_whole(whole),
        }
    }

    /// Adds what stands in the network against the event of a command, if it has just one.
    fn put_event(&mut self, command: &Command) -> Result<(), AllocError> {
        let Some(event) = event_in(command) else {
            return Ok(());
        };
        match self.net.refusal_of(event) {
            Some(refusal) => self.put_standing(event, refusal),
            None => Ok(()),
        }
    }

    /// Adds what stands in the network against a command that is refused, if that can be told.
    fn put_command(&mut self, command: &Command, why: Reason) -> Result<(), AllocError> {
        if let Command::Whole(whole) = command {
            return self.put_whole(whole, why);
        }
        if let Some(what) = shown_in(command) {
            return self.put_missing_shown(what);
        }
        match asked_in(command) {
            Some((point, dest)) => self.put_missing_row(point, dest),
            None => self.put_event(command),
        }
    }
}

/// What stands in a network against a command that is refused, in text; empty if that can't be told.
fn write_about(
    alloc: Global,
    net: &Net,
    command: &Command,
    why: Reason,
) -> Result<String, AllocError> {
    if let (Some(events), Reason::Event(refused)) = (tried_in(command), why) {
        return write_tried(alloc, net, events.as_slice(), &refused);
    }
    let mut sentence = NetSentence::new(alloc, net);
    sentence.put_command(command, why)?;
    Ok(sentence.into_text())
}

/// What stands in a network against a refused line, in text; empty if that can't be told.
fn write_against(alloc: Global, net: &Net, line: &str, why: Reason) -> Result<String, AllocError> {
    match read_line(alloc, line.as_bytes())? {
        Some(command) => write_about(alloc, net, &command, why),
        None => Ok(String::new(alloc)),
    }
}

/// What is wrong with a refused line: why it is no command, what stands against it, or what its refusal means.
fn write_reason(
    alloc: Global,
    line: &str,
    why: Reason,
    net: Option<&Net>,
) -> Result<String, AllocError> {
    if let Reason::BadLine = why {
        return write_bad_line(alloc, line);
    }
    if let Some(net) = net {
        let standing = write_against(alloc, net, line, why)?;
        if !standing.is_empty() {
            return Ok(standing);
        }
    }
    String::from_str(alloc, explain_reason(&why).meaning)
}

/// The sentence for the line of a number.
pub fn write_sentence(alloc: Global, number: u64, reason: &str) -> Result<String, AllocError> {
    format!(in alloc; "line {number}: {reason}")
}

/// What is wrong with a refused line of bytes, by why it is refused.
fn write_reason_of(
    alloc: Global,
    line: &[u8],
    why: Reason,
    net: Option<&Net>,
) -> Result<String, AllocError> {
    match str::from_utf8(line) {
        Ok(line) => write_reason(alloc, line, why, net),
        Err(_) => {
            let shown = write_bytes(alloc, line)?;
            let shown = front_of(shown.as_str());
            format!(in alloc; "the line isn't UTF-8: {shown}")
        }
    }
}

/// The sentence for a refused line, by why it is refused.
pub fn sentence_of(
    alloc: Global,
    asked: Asked<'_>,
    why: Reason,
    net: Option<&Net>,
) -> Result<String, AllocError> {
    let reason = match asked.line {
        Some(line) => write_reason_of(alloc, line, why, net)?,
        None => String::from_str(alloc, "the line has more than 131,072 bytes")?,
    };
    write_sentence(alloc, asked.number, reason.as_str())
}
