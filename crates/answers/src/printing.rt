//! How an answer is told in text.

ghost use Rattle.std.specs.Prelude.{◌≡◌, ◌++◌, OnOk, string_bytes};
ghost use Rattle.answers.specs.Answers.{answer_text, net_text, printed, reason_name, reason_text, reason_values, row_text};

use crate::answer::{Answer, NetAnswer, Reason, RowAnswer};
use crate::audits::{put_right, put_wrong};
use crate::changes::put_publication;
use crate::desk_refusals::{desk_title, put_values as put_desk_values};
use crate::links::put_links;
use crate::mend::put_mend;
use crate::messages::{put_messages, put_octets};
use crate::refusals::refusal_title;
use crate::remedies::put_remedy;
use crate::replies::put_reply;
use crate::reroutes::put_reroutes;
use crate::shown_text::put_shown;
use crate::status::put_status;
use crate::surveys::put_survey;
use crate::taken::put_all_taken;
use crate::text::Text;
use crate::traces::put_trace;
use crate::warnings::put_warnings;
use crate::what_ifs::{put_refused_values, put_report};
use crate::who::put_who;
use crate::why::put_why;
use net_data::Refusal;
use std::alloc::{AllocError, Global};

/// The number and the name of why a line is refused, as `26 NoPlan`.
pub fn reason_title(reason: &Reason) -> &'static str
    ensures { result.now ≡ reason_name reason.now }
{
    match reason {
        Reason::Desk(refusal) => desk_title(refusal),
        Reason::Event(refused) => refusal_title(&refused.refusal),
        Reason::NoPlan => refusal_title(&Refusal::NoPlan),
        Reason::NoRow => "29 NoRow",
        Reason::NotKept => "53 NotKept",
        Reason::BadLine => "62 BadLine",
        Reason::Write => "64 Write",
    }
}

/// Adds the values of why a line is refused, each after a space.
fn put_reason_values(alloc: Global, text: &mut String, reason: &Reason) -> Result<(), AllocError>
    ensures { OnOk result (string_bytes text.new ≡ string_bytes text.old ++ reason_values reason.now) }
{
    match reason {
        Reason::Desk(refusal) => put_desk_values(alloc, text, refusal),
        Reason::Event(refused) => put_refused_values(alloc, text, refused),
        _ => Ok(()),
    }
}

/// Adds why a line is refused.
fn put_reason(alloc: Global, text: &mut String, reason: &Reason) -> Result<(), AllocError>
    ensures { OnOk result (string_bytes text.new ≡ string_bytes text.old ++ reason_text reason.now) }
{
    text.push_str("refused ")?;
    text.push_str(reason_title(reason))?;
    put_reason_values(alloc, text, reason)
}

/// Adds what is told of a row.
fn put_row(alloc: Global, text: &mut String, row: &RowAnswer) -> Result<(), AllocError>
    ensures { OnOk result (string_bytes text.new ≡ string_bytes text.old ++ row_text row.now) }
{
    match row {
        RowAnswer::Status(choice) => put_status(text, choice),
        RowAnswer::Links(class, links) => put_links(text, *class, links),
        RowAnswer::Messages(messages) => put_messages(text, messages),
        RowAnswer::Octets(octets) => put_octets(text, octets),
        RowAnswer::Why(far, ways) => put_why(text, *far, ways),
        RowAnswer::Mend(mend) => put_mend(alloc, text, mend),
        RowAnswer::Remedy(remedy) => put_remedy(text, remedy),
    }
}

/// Adds a word, and the name of a file.
fn put_file(text: &mut String, word: &str, file: &Text) -> Result<(), AllocError>
    ensures { OnOk result (string_bytes text.new ≡ string_bytes text.old ++ (word.now ++ file.now)) }
{
    text.push_str(word)?;
    text.push_str(file.as_str())
}

/// Adds what is told of the whole network.
fn put_net(alloc: Global, text: &mut String, net: &NetAnswer) -> Result<(), AllocError>
    ensures { OnOk result (string_bytes text.new ≡ string_bytes text.old ++ net_text net.now) }
{
    match net {
        NetAnswer::Trace(trace) => put_trace(text, trace),
        NetAnswer::WhatIf(report) => put_report(alloc, text, report),
        NetAnswer::Reroutes(reroutes) => {
            text.push_str("reroutes")?;
            put_reroutes(text, reroutes)
        }
        NetAnswer::Survey(survey) => put_survey(text, survey.get()),
        NetAnswer::Warned(warnings) => put_warnings(text, warnings),
        NetAnswer::Right(count) => put_right(text, *count),
        NetAnswer::Wrong(dest, complaint) => put_wrong(alloc, text, *dest, *complaint),
        NetAnswer::Picture(file, _) | NetAnswer::Drawn(file) => put_file(text, "picture ", file),
        NetAnswer::Saving(file, _) | NetAnswer::Saved(file) => put_file(text, "saved ", file),
    }
}

/// Adds an answer, without the line feed that ends it.
pub fn put_answer(alloc: Global, text: &mut String, answer: &Answer) -> Result<(), AllocError>
    ensures { OnOk result (string_bytes text.new ≡ string_bytes text.old ++ answer_text answer.now) }
{
    match answer {
        Answer::Reply(reply) => put_reply(text, reply),
        Answer::AllTaken(taken) => put_all_taken(text, taken),
        Answer::Publication(publication) => put_publication(text, publication),
        Answer::Row(row) => put_row(alloc, text, row),
        Answer::Net(net) => put_net(alloc, text, net),
        Answer::Shown(shown) => put_shown(alloc, text, shown.get()),
        Answer::Who(counts) => put_who(text, counts),
        Answer::Help(told) => text.push_str(told.as_str()),
        Answer::Refused(reason) => put_reason(alloc, text, reason),
    }
}

/// Adds an answer as it is printed: in text, ended by a line feed.
pub fn print_answer(alloc: Global, text: &mut String, answer: &Answer) -> Result<(), AllocError>
    ensures { OnOk result (string_bytes text.new ≡ string_bytes text.old ++ printed answer.now) }
{
    put_answer(alloc, text, answer)?;
    text.push('\n')
}
