//! An answer as an object.

ghost use Rattle.std.specs.Prelude.{◌≡◌, ◌∷◌, ◌++◌, [], OnOk, IfOk, Some, string_bytes};
ghost use Rattle.std.specs.Str.{IsUtf8};
ghost use Rattle.json.specs.Json.{document};
ghost use Rattle.json.specs.Lex.{tokens};
ghost use Rattle.json.specs.Tree.{json_tokens};
ghost use Rattle.json_answers.specs.Form.{object_line};
ghost use Rattle.json_answers.specs.Members.{Adds, member_tokens, object_with};
ghost use Rattle.json_answers.specs.Objects.{answer_members, answer_object, help_members, object_text};
ghost use Rattle.json_answers.specs.Values.{members_text};

use crate::members::{after_space, put_text, put_word};
use crate::moves::put_publication;
use crate::nets::put_net;
use crate::refusals::put_reason;
use crate::replies::{put_all_taken, put_reply};
use crate::rows::put_row;
use crate::shown::put_shown;
use crate::told::{Told, put_object};
use crate::who::put_who;
use answers::Answer;
use json::Writer;
use std::alloc::{AllocError, Global};

/// Writes what `help` tells.
fn put_help(writer: &mut Writer, text: &str) -> Result<(), AllocError>
    ensures { OnOk result (Adds writer.old writer.new (member_tokens (help_members text.now))) }
{
    put_word(writer, "help")?;
    put_text(writer, "text", after_space(text))
}

impl Told for Answer {
    ghost use Rattle.json_answers.specs.Objects.{answer_members};

    ghost members = { answer_members };

    fn put_members(&self, alloc: Global, writer: &mut Writer) -> Result<(), AllocError> {
        match self {
            Answer::Reply(reply) => put_reply(alloc, writer, reply),
            Answer::AllTaken(taken) => put_all_taken(writer, taken),
            Answer::Publication(publication) => put_publication(alloc, writer, publication),
            Answer::Row(row) => put_row(alloc, writer, row),
            Answer::Net(net) => put_net(alloc, writer, net),
            Answer::Shown(shown) => put_shown(alloc, writer, shown.get()),
            Answer::Who(counts) => put_who(alloc, writer, counts),
            Answer::Help(text) => put_help(writer, text.as_str()),
            Answer::Refused(reason) => put_reason(alloc, writer, reason),
        }
    }
}

/// The object of a value in bytes.
fn object_bytes<T: Told>(alloc: Global, value: &T) -> Result<Vec<u8>, AllocError>
    ensures text { IfOk result (λ bytes. bytes.items ≡ members_text (T.members value.now)) }
    ensures utf8 { IfOk result (λ bytes. IsUtf8 bytes.items) }
    ensures tokens { IfOk result (λ bytes. tokens bytes.items ≡ json_tokens (object_with (T.members value.now))) }
{
    let mut writer = Writer::new(Vec::new(alloc));
    put_object(alloc, &mut writer, value)?;
    Ok(writer.into_inner())
}

/// Bytes as a text.
fn text_of(bytes: &[u8]) -> &str
    requires { IsUtf8 bytes.now }
    ensures { result.now ≡ bytes.entry.now }
{
    match str::from_utf8(bytes) {
        Ok(text) => text,
        Err(_) => unreachable!(),
    }
}

/// The object of an answer in bytes. It fails if memory is refused.
pub fn write_object(alloc: Global, answer: &Answer) -> Result<Vec<u8>, AllocError>
    ensures text { IfOk result (λ bytes. bytes.items ≡ object_text answer.now) }
    ensures utf8 { IfOk result (λ bytes. IsUtf8 bytes.items) }
    ensures reads { IfOk result (λ bytes. document bytes.items ≡ Some (answer_object answer.now)) }
{
    object_bytes(alloc, answer)
}

/// Adds bytes, on a line of their own.
pub(crate) fn put_bytes(text: &mut String, bytes: &[u8]) -> Result<(), AllocError>
    requires { IsUtf8 bytes.now }
    ensures { OnOk result (string_bytes text.new ≡ string_bytes text.old ++ (bytes.now ++ 10 ∷ [])) }
{
    text.push_str(text_of(bytes))?;
    text.push('\n')
}

/// Adds the object of a value, on a line of its own.
pub(crate) fn put_line<T: Told>(
    alloc: Global,
    text: &mut String,
    value: &T,
) -> Result<(), AllocError>
    ensures { OnOk result (string_bytes text.new ≡ string_bytes text.old ++ object_line (T.members value.now)) }
{
    let object = object_bytes(alloc, value)?;
    put_bytes(text, object.as_slice())
}
