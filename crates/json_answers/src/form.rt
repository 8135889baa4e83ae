//! How an answer is printed: in text, or as objects of JSON.

ghost use Rattle.std.specs.Prelude.{◌≡◌, ◌++◌, OnOk, string_bytes};
ghost use Rattle.json_answers.specs.Form.{notice_objects, object_line, printed_in};
ghost use Rattle.json_answers.specs.Objects.{answer_members};

use crate::moves::put_changes;
use crate::objects::{put_bytes, put_line, write_object};
use crate::told::Told;
use answers::{Answer, Moved, Publication, print_answer};
use json::Writer;
use std::alloc::{AllocError, Global};

/// The form in which answers are printed.
#[derive(Clone, Copy, PartialEq, Eq)]
pub enum Form {
    /// In text.
    Text,
    /// As objects of JSON.
    Objects,
}

/// What a publication moved, with its number.
#[derive(Clone, Copy)]
struct Notice<'a> {
    number: u64,
    moved: &'a Moved,
}

impl<'a> Told for Notice<'a> {
    ghost use Rattle.json_answers.specs.Form.{notice_members};

    ghost members = { λ n. notice_members n.number n.moved.now };

    fn put_members(&self, alloc: Global, writer: &mut Writer) -> Result<(), AllocError> {
        put_changes(alloc, writer, "watch", self.number, self.moved)
    }
}

/// Adds the notice behind an answer: what a publication moved, if that is told.
fn put_notice(alloc: Global, text: &mut String, answer: &Answer) -> Result<(), AllocError>
    ensures { OnOk result (string_bytes text.new ≡ string_bytes text.old ++ notice_objects answer.now) }
{
    match answer {
        Answer::Publication(Publication::Published(number, Some(moved)))
        | Answer::Publication(Publication::Synced(number, Some(moved))) => {
            let (number, moved) = (*number, moved.get());
            put_line(alloc, text, &Notice { number, moved })
        }
        _ => Ok(()),
    }
}

/// Adds the objects of an answer, each on a line of its own.
fn print_objects(alloc: Global, text: &mut String, answer: &Answer) -> Result<(), AllocError>
    ensures { OnOk result (string_bytes text.new ≡ string_bytes text.old ++ (object_line (answer_members answer.now) ++ notice_objects answer.now)) }
{
    let object = write_object(alloc, answer)?;
    put_bytes(text, object.as_slice())?;
    put_notice(alloc, text, answer)
}

impl Form {
    /// Adds an answer as it is printed in this form.
    ///
    /// # Errors
    ///
    /// `AllocError` if memory is refused; part of the answer may stand in the text then.
    pub fn print(self, alloc: Global, answer: &Answer, text: &mut String) -> Result<(), AllocError>
        ensures { OnOk result (string_bytes text.new ≡ string_bytes text.old ++ printed_in self answer.now) }
    {
        match self {
            Form::Text => print_answer(alloc, text, answer),
            Form::Objects => print_objects(alloc, text, answer),
        }
    }
}
