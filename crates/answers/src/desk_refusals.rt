//! How a desk's refusals are printed.

ghost use Rattle.std.specs.Prelude.{◌≡◌, ◌++◌, OnOk, string_bytes};
ghost use Rattle.answers.specs.DeskRefusals.{desk_name, desk_values};

use crate::codes::put_numbered;
use crate::refusals::{put_values as put_edit_values, refusal_title};
use std::alloc::{AllocError, Global};
use work_units::Refusal;

/// The number and the name of a refusal.
pub fn desk_title(refusal: &Refusal) -> &'static str
    ensures { result.now ≡ desk_name refusal.now }
{
    match refusal {
        Refusal::OutOfMemory => "1 OutOfMemory",
        Refusal::Edit(refusal) => refusal_title(refusal),
        Refusal::Gap(_) => "40 Gap",
        Refusal::Old(_) => "41 Old",
        Refusal::Clash => "42 Clash",
        Refusal::BacklogFull => "43 BacklogFull",
        Refusal::NotReady(_) => "44 NotReady",
        Refusal::Nothing => "45 Nothing",
        Refusal::Busy => "46 Busy",
        Refusal::Stale(_) => "47 Stale",
        Refusal::Unasked => "48 Unasked",
        Refusal::Differs => "49 Differs",
        Refusal::EndOfNumbers => "51 EndOfNumbers",
        Refusal::NotOpen => "52 NotOpen",
    }
}

/// Adds the number of the open target, if there is one.
fn put_target(text: &mut String, target: Option<u64>) -> Result<(), AllocError>
    ensures { OnOk result (string_bytes text.new ≡ string_bytes text.old ++ desk_values (Refusal.Stale target)) }
{
    match target {
        Some(number) => put_numbered(text, " ", number),
        None => text.push_str(" none"),
    }
}

/// Adds the values of a refusal, each after a space.
pub(crate) fn put_values(
    alloc: Global,
    text: &mut String,
    refusal: &Refusal,
) -> Result<(), AllocError>
    ensures { OnOk result (string_bytes text.new ≡ string_bytes text.old ++ desk_values refusal.now) }
{
    match refusal {
        Refusal::Edit(refusal) => put_edit_values(alloc, text, refusal),
        Refusal::Gap(next) => put_numbered(text, " ", *next),
        Refusal::Old(last) => put_numbered(text, " ", *last),
        Refusal::NotReady(left) => put_numbered(text, " ", *left as u64),
        Refusal::Stale(target) => put_target(text, *target),
        _ => Ok(()),
    }
}
