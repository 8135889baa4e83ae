//! What there is to say of the lines of a script that are refused.

use crate::reports::Teller;
use crate::sentences::{sentence_of, write_sentence};
use answers::{Answer, Asked, Reason};
use net_data::Net;
use std::alloc::{AllocError, Global};
use std::cell::RefCell;
use std::mem::replace;

/// Notes of a script: what there is to say of its refused lines.
#[derive(Drop)]
pub struct Notes {
    alloc: Global,
    /// What was read of an input that starts with a network text, until its first line is answered; none of a script.
    read: Option<Vec<u8>>,
    /// The sentence for the line whose answer comes next, if it is known already.
    sentence: Option<String>,
    /// What there is to say, in lines, and wasn't said yet.
    unsaid: String,
}

/// A line without a carriage return at its end.
fn without_return(line: &[u8]) -> &[u8] {
    match line {
        [front @ .., b'\r'] => front,
        _ => line,
    }
}

/// The network text at the front of what was read: all before the first line `%%`.
fn text_in(read: &[u8]) -> &[u8] {
    let mut end = 0usize;
    for line in read.split(|byte| *byte == b'\n') {
        if without_return(line) == b"%%".as_slice() {
            return read.get(..end).unwrap_or(read);
        }
        end = end.saturating_add(line.len()).saturating_add(1);
    }
    read
}

impl Notes {
    /// Notes of a script or of an input of which this was read, if refused lines are to be explained.
    fn of(teller: Teller<'_>, read: Option<Vec<u8>>) -> Option<RefCell<Notes>> {
        if !teller.explained {
            return None;
        }
        Some(RefCell::new(Notes {
            alloc: teller.alloc(),
            read,
            sentence: None,
            unsaid: String::new(teller.alloc()),
        }))
    }

    /// Notes of a script, if refused lines are to be explained.
    pub fn of_script(teller: Teller<'_>) -> Option<RefCell<Notes>> {
        Notes::of(teller, None)
    }

    /// Notes of an input that starts with a network text, if refused lines are to be explained.
    pub fn of_input(teller: Teller<'_>) -> Option<RefCell<Notes>> {
        Notes::of(teller, Some(Vec::new(teller.alloc())))
    }

    /// The network text of an input, of which no line was answered.
    pub fn text(&self) -> &[u8] {
        match &self.read {
            Some(read) => text_in(read.as_slice()),
            None => &[],
        }
    }

    /// Takes what was read of an input, until its first line is answered, while there is memory for it.
    pub fn read(&mut self, bytes: &[u8]) {
        if let Some(read) = &mut self.read {
            if read.extend_from_slice(bytes).is_err() {
                self.read = None;
            }
        }
    }

    /// Explains a line that is refused, by the network after all accepted events, if there is memory for it.
    pub fn explain(&mut self, asked: Asked<'_>, why: Reason, net: &Net) {
        self.sentence = sentence_of(self.alloc, asked, why, Some(net)).ok();
    }

    /// Explains a line that is refused by the reason for it, if there was memory for that.
    pub fn give_reason(&mut self, asked: Asked<'_>, reason: Result<String, AllocError>) {
        self.sentence = match reason {
            Ok(reason) => write_sentence(self.alloc, asked.number, reason.as_str()).ok(),
            Err(_) => None,
        };
    }

    /// The sentence for a refused line: the one that is known already, or what its refusal means.
    fn sentence(&mut self, asked: Asked<'_>, why: Reason) -> Result<String, AllocError> {
        match self.sentence.take() {
            Some(sentence) => Ok(sentence),
            None => sentence_of(self.alloc, asked, why, None),
        }
    }

    /// Notes what there is to say of a line that is answered, if it is refused and there is memory for that.
    pub fn see(&mut self, asked: Asked<'_>, answer: &Answer) {
        self.read = None;
        let Answer::Refused(why) = answer else {
            return;
        };
        if let Ok(sentence) = self.sentence(asked, *why) {
            if self.unsaid.push_str(sentence.as_str()).is_ok() {
                let _ = self.unsaid.push('\n');
            }
        }
    }

    /// What there is to say and wasn't said yet, in lines, given away.
    pub fn take_unsaid(&mut self) -> String {
        replace(&mut self.unsaid, String::new(self.alloc))
    }
}
