//! Members of an object, by the values that they tell.

ghost use Rattle.std.specs.Prelude.{◌≡◌, ◌==◌, ◌∷◌, [], OnOk, codes};
ghost use Rattle.std.specs.List.{after_first, before_first};
ghost use Rattle.json.specs.Json.{null, number};
ghost use Rattle.json.specs.Print.{IsNumber};
ghost use Rattle.json_answers.specs.Members.{Adds, member_tokens};
ghost use Rattle.json_answers.specs.Refusals.{number_if};
ghost use Rattle.json_answers.specs.Shown.{code_if, two_numbers};
ghost use Rattle.json_answers.specs.Values.{code_member, number_member, numbered_members, text_member, word_member};

use json::Writer;
use point_codes::PointCode;
use std::alloc::{AllocError, Global};

/// What comes before the first space of a text; all if there is none.
pub fn before_space(text: &str) -> &str
    ensures { result.now ≡ before_first (λ b. b == 32) text.entry.now }
{
    match text.split_once(' ') {
        Some((front, _)) => front,
        None => text,
    }
}

/// What comes after the first space of a text; nothing if there is none.
pub fn after_space(text: &str) -> &str
    ensures { result.now ≡ after_first (λ b. b == 32) text.entry.now }
{
    match text.split_once(' ') {
        Some((_, rest)) => rest,
        None => "",
    }
}

/// Writes a member whose value is a text.
pub fn put_text(writer: &mut Writer, name: &str, text: &str) -> Result<(), AllocError>
    ensures { OnOk result (Adds writer.old writer.new (member_tokens (text_member name.now text.now ∷ []))) }
{
    writer.key(name)?;
    writer.string(text)
}

/// Writes a member whose value is a number.
pub fn put_number(writer: &mut Writer, name: &str, number: u64) -> Result<(), AllocError>
    ensures { OnOk result (Adds writer.old writer.new (member_tokens (number_member name.now number ∷ []))) }
{
    writer.key(name)?;
    writer.u64(number)
}

/// Writes a member whose value is a number that stands in text.
pub fn put_digits(writer: &mut Writer, name: &str, digits: &str) -> Result<(), AllocError>
    requires { IsNumber digits.now }
    ensures { OnOk result (Adds writer.old writer.new (member_tokens ((name.now, number digits.now) ∷ []))) }
{
    writer.key(name)?;
    writer.number(digits)
}

/// Writes the id of a set.
pub fn put_set(writer: &mut Writer, id: u16) -> Result<(), AllocError>
    ensures { OnOk result (Adds writer.old writer.new (member_tokens (number_member (codes "set") id ∷ []))) }
{
    put_number(writer, "set", u64::from(id))
}

/// Writes a member whose value is a code.
pub fn put_code(
    alloc: Global,
    writer: &mut Writer,
    name: &str,
    code: PointCode,
) -> Result<(), AllocError>
    ensures { OnOk result (Adds writer.old writer.new (member_tokens (code_member name.now code ∷ []))) }
{
    let text = format!(in alloc; "{code}")?;
    put_text(writer, name, text.as_str())
}

/// Writes a member whose value is null.
pub fn put_null(writer: &mut Writer, name: &str) -> Result<(), AllocError>
    ensures { OnOk result (Adds writer.old writer.new (member_tokens ((name.now, null) ∷ []))) }
{
    writer.key(name)?;
    writer.null()
}

/// Writes two numbers, each under a name.
pub fn put_two(
    writer: &mut Writer,
    name: &str,
    number: u64,
    other: &str,
    second: u64,
) -> Result<(), AllocError>
    ensures { OnOk result (Adds writer.old writer.new (member_tokens (two_numbers name.now number other.now second))) }
{
    put_number(writer, name, number)?;
    put_number(writer, other, second)
}

/// Writes a number, null if there is none.
pub fn put_number_if(writer: &mut Writer, name: &str, number: Option<u64>) -> Result<(), AllocError>
    ensures { OnOk result (Adds writer.old writer.new (member_tokens ((name.now, number_if number) ∷ []))) }
{
    match number {
        Some(number) => put_number(writer, name, number),
        None => put_null(writer, name),
    }
}

/// Writes a code, null if there is none.
pub fn put_code_if(
    alloc: Global,
    writer: &mut Writer,
    name: &str,
    code: Option<PointCode>,
) -> Result<(), AllocError>
    ensures { OnOk result (Adds writer.old writer.new (member_tokens ((name.now, code_if code) ∷ []))) }
{
    match code {
        Some(code) => put_code(alloc, writer, name, code),
        None => put_null(writer, name),
    }
}

/// Writes the word of an answer.
pub fn put_word(writer: &mut Writer, word: &str) -> Result<(), AllocError>
    ensures { OnOk result (Adds writer.old writer.new (member_tokens (word_member word.now ∷ []))) }
{
    put_text(writer, "word", word)
}

/// Writes the word of an answer, and a number.
pub fn put_numbered(
    writer: &mut Writer,
    word: &str,
    name: &str,
    number: u64,
) -> Result<(), AllocError>
    ensures { OnOk result (Adds writer.old writer.new (member_tokens (numbered_members word.now name.now number))) }
{
    put_word(writer, word)?;
    put_number(writer, name, number)
}
