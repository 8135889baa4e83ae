//! What is asked of a version.

ghost use Rattle.std.specs.Prelude.{◌≡◌, true, IfOk};
ghost use Rattle.script_words.specs.Commands.{IsWithin};
ghost use Rattle.desk_console.specs.Asked.{asked_answer, is_asked};

use crate::picturing::answer_picture;
use answers::{
    Answer, answer_about, answer_audit, answer_reroutes, answer_shown, answer_survey, answer_trace,
    answer_warn, answer_what_if,
};
use net_versions::Version;
use script_words::Command;
use std::alloc::{AllocError, Global};

/// The answer to a command that asks something of a version. It fails if memory is refused.
pub fn answer_asked(
    alloc: Global,
    version: &Version,
    command: &Command,
) -> Result<Answer, AllocError>
    requires within { IsWithin command.now }
    requires asked { is_asked command.now ≡ true }
    ensures { IfOk result (λ answer. answer ≡ asked_answer command.now version.now) }
{
    match command {
        Command::About(asked, point, dest) => answer_about(alloc, *asked, version, *point, *dest),
        Command::Trace(point, dest, s) => answer_trace(alloc, version, *point, *dest, *s),
        Command::WhatIf(events) => answer_what_if(alloc, version, events.as_slice()),
        Command::Reroutes(events) => answer_reroutes(alloc, version, events.as_slice()),
        Command::Survey(what, events) => answer_survey(alloc, version, *what, events.as_slice()),
        Command::Warn => answer_warn(alloc, version),
        Command::Audit => Ok(answer_audit(version)),
        Command::Picture(file, about) => answer_picture(alloc, version, file.as_str(), *about),
        Command::Show(what) => answer_shown(alloc, version, *what),
        _ => unreachable!(),
    }
}
