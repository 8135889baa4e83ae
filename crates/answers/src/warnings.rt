//! The answer to `warn`, and how warnings are told.

ghost use Rattle.std.specs.Prelude.{◌≡◌, ◌++◌, IfOk, OnOk, string_bytes};
ghost use Rattle.std.specs.List.{flat_map};
ghost use Rattle.what_if.specs.Warnings.{warnings_of as the_warnings};
ghost use Rattle.answers.specs.Warnings.{towards_text, warn_answer, warning_lines, warning_name, warning_on_line, warning_text, warning_values, warning_word as told_after_space, warnings_text};

use crate::answer::{Answer, NetAnswer};
use crate::codes::{put_number, put_numbered, write_code};
use net_versions::Version;
use point_codes::PointCode;
use std::alloc::{AllocError, Global};
use what_if::{Warning, Warnings, warnings_of};

/// The name of a warning's kind.
pub fn name_of_warning(warning: &Warning) -> &'static str
    ensures { result.now ≡ warning_name warning.now }
{
    match warning {
        Warning::MissingRow(_, _) => "MissingRow",
        Warning::MissingPlan(_, _) => "MissingPlan",
        Warning::Unreached(_) => "Unreached",
        Warning::Unnamed(_) => "Unnamed",
        Warning::Unused(_) => "Unused",
        Warning::SetFails(_, _) | Warning::PointFails(_, _) => "SingleFailure",
    }
}

/// Adds a point and a destination.
fn put_towards(text: &mut String, point: PointCode, dest: PointCode) -> Result<(), AllocError>
    ensures { OnOk result (string_bytes text.new ≡ string_bytes text.old ++ towards_text point dest) }
{
    write_code(text, point)?;
    text.push('/')?;
    write_code(text, dest)
}

/// Adds what a warning is about.
fn put_values(text: &mut String, warning: &Warning) -> Result<(), AllocError>
    ensures { OnOk result (string_bytes text.new ≡ string_bytes text.old ++ warning_values warning.now) }
{
    match warning {
        Warning::MissingRow(point, dest) => put_towards(text, *point, *dest),
        Warning::MissingPlan(point, dest) => put_towards(text, *point, *dest),
        Warning::Unreached(point) | Warning::Unnamed(point) => write_code(text, *point),
        Warning::Unused(id) => put_number(text, *id),
        Warning::SetFails(id, pairs) => {
            put_number(text, *id)?;
            put_numbered(text, ":", *pairs as u64)
        }
        Warning::PointFails(code, pairs) => {
            write_code(text, *code)?;
            put_numbered(text, ":", *pairs as u64)
        }
    }
}

/// Adds a warning: the name of its kind, and what it is about. It takes no memory but that of the text.
pub fn put_warning(text: &mut String, warning: &Warning) -> Result<(), AllocError>
    ensures { OnOk result (string_bytes text.new ≡ string_bytes text.old ++ warning_text warning.now) }
{
    text.push_str(name_of_warning(warning))?;
    text.push(':')?;
    put_values(text, warning)
}

/// Adds a warning after a space.
fn put_after_space(text: &mut String, warning: &Warning) -> Result<(), AllocError>
    ensures { OnOk result (string_bytes text.new ≡ string_bytes text.old ++ told_after_space warning.now) }
{
    text.push(' ')?;
    put_warning(text, warning)
}

/// Adds warnings, each after a space.
fn put_each(text: &mut String, warnings: &[Warning]) -> Result<(), AllocError>
    ensures { OnOk result (string_bytes text.new ≡ string_bytes text.old ++ flat_map told_after_space warnings.now) }
{
    for warning in warnings {
        put_after_space(text, warning)?;
    }
    Ok(())
}

/// Adds how many warnings there are, and each. It takes no memory but that of the text.
pub(crate) fn put_warnings(text: &mut String, warnings: &Warnings) -> Result<(), AllocError>
    ensures { OnOk result (string_bytes text.new ≡ string_bytes text.old ++ warnings_text warnings.now) }
{
    let warnings = warnings.as_slice();
    put_numbered(text, "warn ", warnings.len() as u64)?;
    put_each(text, warnings)
}

/// Adds a warning on a line of its own.
fn put_line(text: &mut String, warning: &Warning) -> Result<(), AllocError>
    ensures { OnOk result (string_bytes text.new ≡ string_bytes text.old ++ warning_on_line warning.now) }
{
    put_warning(text, warning)?;
    text.push('\n')
}

/// Adds warnings, each on a line of its own.
fn put_each_line(text: &mut String, warnings: &[Warning]) -> Result<(), AllocError>
    ensures { OnOk result (string_bytes text.new ≡ string_bytes text.old ++ flat_map warning_on_line warnings.now) }
{
    for warning in warnings {
        put_line(text, warning)?;
    }
    Ok(())
}

/// Adds warnings, each on a line of its own, and how many there are on the last line.
pub fn put_warning_lines(text: &mut String, warnings: &Warnings) -> Result<(), AllocError>
    ensures { OnOk result (string_bytes text.new ≡ string_bytes text.old ++ warning_lines warnings.now) }
{
    let warnings = warnings.as_slice();
    put_each_line(text, warnings)?;
    put_numbered(text, "warnings ", warnings.len() as u64)?;
    text.push('\n')
}

/// All that a planner is warned of in the network of a version (own, after Q.704 clauses 3.2 and 4). It fails if memory is refused.
pub fn answer_warn(alloc: Global, version: &Version) -> Result<Answer, AllocError>
    ensures { IfOk result (λ answer. answer ≡ warn_answer (the_warnings version.now.network)) }
{
    Ok(Answer::Net(NetAnswer::Warned(warnings_of(alloc, version)?)))
}
