//! What a planner is warned of.

ghost use Rattle.std.specs.Prelude.{◌∷◌, [], OnOk, codes};
ghost use Rattle.answers.specs.Warnings.{warning_name};
ghost use Rattle.json_answers.specs.Members.{Adds, member_tokens};
ghost use Rattle.json_answers.specs.Objects.{towards_members, warned_values, warnings_members};
ghost use Rattle.json_answers.specs.Values.{text_member};

use crate::members::{put_code, put_number, put_set, put_text};
use crate::told::{Told, put_list};
use answers::name_of_warning;
use json::Writer;
use point_codes::PointCode;
use std::alloc::{AllocError, Global};
use what_if::{Warning, Warnings};

/// Writes the name of a warning's kind.
fn put_kind(writer: &mut Writer, warning: &Warning) -> Result<(), AllocError>
    ensures { OnOk result (Adds writer.old writer.new (member_tokens (text_member (codes "kind") (warning_name warning.now) ∷ []))) }
{
    put_text(writer, "kind", name_of_warning(warning))
}

/// Writes a point and a destination.
fn put_towards(
    alloc: Global,
    writer: &mut Writer,
    point: PointCode,
    dest: PointCode,
) -> Result<(), AllocError>
    ensures { OnOk result (Adds writer.old writer.new (member_tokens (towards_members point dest))) }
{
    put_code(alloc, writer, "point", point)?;
    put_code(alloc, writer, "destination", dest)
}

/// Writes what a warning is about.
fn put_values(alloc: Global, writer: &mut Writer, warning: &Warning) -> Result<(), AllocError>
    ensures { OnOk result (Adds writer.old writer.new (member_tokens (warned_values warning.now))) }
{
    match warning {
        Warning::MissingRow(point, dest) => put_towards(alloc, writer, *point, *dest),
        Warning::MissingPlan(point, dest) => put_towards(alloc, writer, *point, *dest),
        Warning::Unreached(point) | Warning::Unnamed(point) => put_code(
            alloc, writer, "point", *point,
        ),
        Warning::Unused(id) => put_set(writer, *id),
        Warning::SetFails(id, pairs) => {
            put_set(writer, *id)?;
            put_number(writer, "pairs", *pairs as u64)
        }
        Warning::PointFails(code, pairs) => {
            put_code(alloc, writer, "point", *code)?;
            put_number(writer, "pairs", *pairs as u64)
        }
    }
}

impl Told for Warning {
    ghost use Rattle.json_answers.specs.Objects.{warning_members};

    ghost members = { warning_members };

    fn put_members(&self, alloc: Global, writer: &mut Writer) -> Result<(), AllocError> {
        put_kind(writer, self)?;
        put_values(alloc, writer, self)
    }
}

/// Writes how many warnings there are, and each.
pub fn put_warnings(
    alloc: Global,
    writer: &mut Writer,
    warnings: &Warnings,
) -> Result<(), AllocError>
    ensures { OnOk result (Adds writer.old writer.new (member_tokens (warnings_members warnings.now))) }
{
    let warnings = warnings.as_slice();
    put_number(writer, "count", warnings.len() as u64)?;
    put_list(alloc, writer, "warnings", warnings)
}
