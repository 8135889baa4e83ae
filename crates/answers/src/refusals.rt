//! How refusals are printed.

ghost use Rattle.std.specs.Prelude.{◌≡◌, ◌++◌, OnErr, OnOk, string_bytes};
ghost use Rattle.answers.specs.Refusals.{refusal_name, refusal_values, refusal_text, cause_letter};

use net_data::{Cause, Refusal};
use point_codes::PointCode;
use std::alloc::{AllocError, Global};

/// The number and the name of a refusal.
pub fn refusal_title(refusal: &Refusal) -> &'static str
    ensures { result.now ≡ refusal_name refusal.now }
{
    match refusal {
        Refusal::OutOfMemory => "1 OutOfMemory",
        Refusal::NoPoint => "10 NoPoint",
        Refusal::PointThere => "11 PointThere",
        Refusal::PointUsed => "12 PointUsed",
        Refusal::NotStp => "13 NotStp",
        Refusal::Paired => "14 Paired",
        Refusal::NotPaired => "15 NotPaired",
        Refusal::PairUsed => "16 PairUsed",
        Refusal::NoSet => "17 NoSet",
        Refusal::SetThere => "18 SetThere",
        Refusal::Joined(_) => "19 Joined",
        Refusal::SameEnds => "20 SameEnds",
        Refusal::BadLinks => "21 BadLinks",
        Refusal::NoLink => "22 NoLink",
        Refusal::LinkThere => "23 LinkThere",
        Refusal::LastLink => "24 LastLink",
        Refusal::SetUsed => "25 SetUsed",
        Refusal::NoPlan => "26 NoPlan",
        Refusal::BadRow(_, _) => "27 BadRow",
        Refusal::Limit => "28 Limit",
    }
}

/// The letter of what is wrong with a row.
pub fn cause_word(cause: Cause) -> &'static str
    ensures { result.now ≡ cause_letter cause }
{
    match cause {
        Cause::IsDest => "a",
        Cause::Twice => "b",
        Cause::NotJoined => "c",
        Cause::ViaTwice => "d",
        Cause::NotLower => "e",
        Cause::ViaMate => "f",
        Cause::BadMate => "g",
        Cause::NoRoute => "h",
    }
}

/// Adds the values of a refusal, each after a space.
pub(crate) fn put_values(
    alloc: Global,
    text: &mut String,
    refusal: &Refusal,
) -> Result<(), AllocError>
    ensures { OnOk result (string_bytes text.new ≡ string_bytes text.old ++ refusal_values refusal.now) }
{
    match refusal {
        Refusal::Joined(id) => {
            let words = format!(in alloc; " {id}")?;
            text.push_str(words.as_str())
        }
        Refusal::BadRow(point, cause) => put_bad_row(alloc, text, *point, *cause),
        _ => Ok(()),
    }
}

/// Adds the point of a row and the letter of what is wrong with it.
fn put_bad_row(
    alloc: Global,
    text: &mut String,
    point: PointCode,
    cause: Cause,
) -> Result<(), AllocError>
    ensures { OnOk result (string_bytes text.new ≡ string_bytes text.old ++ refusal_values (Refusal.BadRow point cause)) }
{
    text.push_str(" ")?;
    point.put_text(alloc, text)?;
    text.push_str(" ")?;
    text.push_str(cause_word(cause))
}

/// Adds a refusal: its number, its name and its values. If memory is refused the text stays as it was.
pub fn put_refusal(alloc: Global, text: &mut String, refusal: &Refusal) -> Result<(), AllocError>
    ensures text { OnOk result (string_bytes text.new ≡ string_bytes text.old ++ refusal_text refusal.now) }
    ensures kept { OnErr result (string_bytes text.new ≡ string_bytes text.old) }
{
    let mut words = String::from_str(alloc, refusal_title(refusal))?;
    put_values(alloc, &mut words, refusal)?;
    text.push_str(words.as_str())
}
