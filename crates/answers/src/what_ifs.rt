//! The answer to `whatif`.

ghost use Rattle.std.specs.Prelude.{◌≡◌, ◌++◌, IfOk, OnOk, string_bytes};
ghost use Rattle.std.specs.List.{flat_map};
ghost use Rattle.what_if.specs.Listed.{report_listed as the_report};
ghost use Rattle.answers.specs.Answers.{reason_values};
ghost use Rattle.answers.specs.WhatIfs.{change_text, report_text, what_if_answer};
ghost use Rattle.answers.specs.WhatIfs.{status_word as status_text};

use crate::answer::{Answer, NetAnswer, Reason};
use crate::codes::put_numbered;
use crate::refusals::put_values;
use crate::status::far_word;
use net_building::Listed;
use net_versions::Version;
use route_choice::Far;
use std::alloc::{AllocError, Global};
use what_if::{Change, Refused, Report, report_listed};

/// A status, or that there is no row.
pub(crate) fn status_word(status: Option<Far>) -> &'static str
    ensures { result.now ≡ status_text status }
{
    match status {
        Some(far) => far_word(far),
        None => "none",
    }
}

/// Adds a change after a space.
fn put_change(alloc: Global, text: &mut String, change: Change) -> Result<(), AllocError>
    ensures { OnOk result (string_bytes text.new ≡ string_bytes text.old ++ change_text change) }
{
    let Change { point, dest, .. } = change;
    let before = status_word(change.before);
    let after = status_word(change.after);
    let word = format!(in alloc; " {point}/{dest} {before}>{after}")?;
    text.push_str(word.as_str())
}

/// Adds changes, each after a space.
fn put_changes(alloc: Global, text: &mut String, changes: &[Change]) -> Result<(), AllocError>
    ensures { OnOk result (string_bytes text.new ≡ string_bytes text.old ++ flat_map change_text changes.now) }
{
    for change in changes {
        put_change(alloc, text, *change)?;
    }
    Ok(())
}

/// Adds a report, with its changes in their order.
pub(crate) fn put_report(
    alloc: Global,
    text: &mut String,
    report: &Report,
) -> Result<(), AllocError>
    ensures { OnOk result (string_bytes text.new ≡ string_bytes text.old ++ report_text report.now) }
{
    text.push_str(if report.denied {
        "whatif denied"
    } else {
        "whatif granted"
    })?;
    put_changes(alloc, text, report.changes.as_slice())
}

/// Adds the values of the refusal of an event, and its place.
pub(crate) fn put_refused_values(
    alloc: Global,
    text: &mut String,
    refused: &Refused,
) -> Result<(), AllocError>
    ensures { OnOk result (string_bytes text.new ≡ string_bytes text.old ++ reason_values (Reason.Event refused.now)) }
{
    put_values(alloc, text, &refused.refusal)?;
    put_numbered(text, " at ", refused.place)
}

/// What a list of events would change, made one after the other on the network of a version. The change of a whole set or point stands
/// for its events. The first entry that is refused is told, with its place (own, after Q.704 clause 10). It fails if memory is refused.
pub fn answer_what_if(
    alloc: Global,
    version: &Version,
    entries: &[Listed],
) -> Result<Answer, AllocError>
    ensures { IfOk result (λ answer. answer ≡ what_if_answer (the_report version.now.network entries.now)) }
{
    match report_listed(alloc, version, entries)? {
        Ok(report) => Ok(Answer::Net(NetAnswer::WhatIf(report))),
        Err(refused) => Ok(Answer::Refused(Reason::Event(refused))),
    }
}
