//! Refusals.

ghost use Rattle.std.specs.Prelude.{◌≡◌, OnOk};
ghost use Rattle.answers.specs.Answers.{reason_name};
ghost use Rattle.json_answers.specs.Members.{Adds, member_tokens};
ghost use Rattle.json_answers.specs.Refusals.{desk_members, edit_values, reason_members, value_members, title_members};

use crate::members::{
    after_space, before_space, put_code, put_digits, put_number, put_number_if, put_set, put_text,
};
use answers::{Reason, cause_word, reason_title};
use json::Writer;
use net_data::Refusal;
use std::alloc::{AllocError, Global};
use work_units::Refusal as DeskRefusal;

/// Writes the number and the name of why a line is refused.
#[tactic(auto, using(crate::proofs::TitleLemmas::reason_numbered))]
fn put_title(writer: &mut Writer, reason: &Reason) -> Result<(), AllocError>
    ensures { OnOk result (Adds writer.old writer.new (member_tokens (title_members (reason_name reason.now)))) }
{
    let title = reason_title(reason);
    put_digits(writer, "refused", before_space(title))?;
    put_text(writer, "name", after_space(title))
}

/// Writes the values of a refusal of an event.
fn put_edit_values(alloc: Global, writer: &mut Writer, refusal: &Refusal) -> Result<(), AllocError>
    ensures { OnOk result (Adds writer.old writer.new (member_tokens (edit_values refusal.now))) }
{
    match refusal {
        Refusal::Joined(id) => put_set(writer, *id),
        Refusal::BadRow(point, cause) => {
            put_code(alloc, writer, "point", *point)?;
            put_text(writer, "cause", cause_word(*cause))
        }
        _ => Ok(()),
    }
}

/// Writes the values of a refusal of the desk.
fn put_desk_values(
    alloc: Global,
    writer: &mut Writer,
    refusal: &DeskRefusal,
) -> Result<(), AllocError>
    ensures { OnOk result (Adds writer.old writer.new (member_tokens (desk_members refusal.now))) }
{
    match refusal {
        DeskRefusal::Edit(refusal) => put_edit_values(alloc, writer, refusal),
        DeskRefusal::Gap(next) => put_number(writer, "next", *next),
        DeskRefusal::Old(last) => put_number(writer, "last", *last),
        DeskRefusal::NotReady(left) => put_number(writer, "left", *left as u64),
        DeskRefusal::Stale(target) => put_number_if(writer, "target", *target),
        _ => Ok(()),
    }
}

/// Writes the values of why a line is refused.
fn put_reason_values(alloc: Global, writer: &mut Writer, reason: &Reason) -> Result<(), AllocError>
    ensures { OnOk result (Adds writer.old writer.new (member_tokens (value_members reason.now))) }
{
    match reason {
        Reason::Desk(refusal) => put_desk_values(alloc, writer, refusal),
        Reason::Event(refused) => {
            put_edit_values(alloc, writer, &refused.refusal)?;
            put_number(writer, "at", refused.place)
        }
        _ => Ok(()),
    }
}

/// Writes why a line is refused: its number and its name, and its values.
pub fn put_reason(alloc: Global, writer: &mut Writer, reason: &Reason) -> Result<(), AllocError>
    ensures { OnOk result (Adds writer.old writer.new (member_tokens (reason_members reason.now))) }
{
    put_title(writer, reason)?;
    put_reason_values(alloc, writer, reason)
}
