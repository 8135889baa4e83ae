//! What is told of the whole network.

ghost use Rattle.std.specs.Prelude.{◌∷◌, [], OnOk, codes, if◌then◌else◌};
ghost use Rattle.answers.specs.Audits.{clause_letter};
ghost use Rattle.json_answers.specs.Members.{Adds, member_tokens};
ghost use Rattle.json_answers.specs.Objects.{complaint_members, net_members, net_values, net_word, report_members, trace_members, traced_members};
ghost use Rattle.json_answers.specs.Values.{text_member, word_member};

use crate::members::{put_code, put_number, put_text, put_word};
use crate::moves::{put_change_list, put_moves};
use crate::surveys::put_survey;
use crate::told::{Told, put_list};
use crate::warnings::put_warnings;
use answers::{NetAnswer, clause_word};
use json::Writer;
use point_codes::PointCode;
use profile::{Hop, Trace};
use std::alloc::{AllocError, Global};
use transfer_state::{Clause, Complaint};
use what_if::Report;

impl Told for Hop {
    ghost use Rattle.json_answers.specs.Objects.{hop_members};

    ghost members = { hop_members };

    fn put_members(&self, alloc: Global, writer: &mut Writer) -> Result<(), AllocError> {
        self.link.put_members(alloc, writer)?;
        put_code(alloc, writer, "to", self.to)
    }
}

/// Writes whether a trace reaches the destination, and its hops.
fn put_traced(alloc: Global, writer: &mut Writer, end: &str, hops: &[Hop]) -> Result<(), AllocError>
    ensures { OnOk result (Adds writer.old writer.new (member_tokens (traced_members end.now hops.now))) }
{
    put_text(writer, "result", end)?;
    put_list(alloc, writer, "hops", hops)
}

/// Writes where a signalling link selection leads.
fn put_trace(alloc: Global, writer: &mut Writer, trace: &Trace) -> Result<(), AllocError>
    ensures { OnOk result (Adds writer.old writer.new (member_tokens (trace_members trace.now))) }
{
    match trace {
        Trace::Reached(hops) => put_traced(alloc, writer, "reached", hops.as_slice()),
        Trace::Stopped => put_traced(alloc, writer, "stopped", &[]),
    }
}

/// Writes whether events are denied.
fn put_result(writer: &mut Writer, denied: bool) -> Result<(), AllocError>
    ensures { OnOk result (Adds writer.old writer.new (member_tokens (text_member (codes "result") (if denied then codes "denied" else codes "granted") ∷ []))) }
{
    put_text(writer, "result", if denied { "denied" } else { "granted" })
}

/// Writes what events would change.
fn put_report(alloc: Global, writer: &mut Writer, report: &Report) -> Result<(), AllocError>
    ensures { OnOk result (Adds writer.old writer.new (member_tokens (report_members report.now))) }
{
    put_result(writer, report.denied)?;
    put_change_list(alloc, writer, &report.changes)
}

/// Writes that so many tables are right.
fn put_right(writer: &mut Writer, count: u64) -> Result<(), AllocError>
    ensures { OnOk result (Adds writer.old writer.new (member_tokens (net_values (NetAnswer.Right count)))) }
{
    put_text(writer, "result", "ok")?;
    put_number(writer, "plans", count)
}

/// Writes the letter of what is wrong.
fn put_clause(writer: &mut Writer, clause: Clause) -> Result<(), AllocError>
    ensures { OnOk result (Adds writer.old writer.new (member_tokens (text_member (codes "complaint") (clause_letter clause) ∷ []))) }
{
    put_text(writer, "complaint", clause_word(clause))
}

/// Writes the destination of a wrong table, and the point and the letter of the first complaint about it.
pub fn put_complaint(
    alloc: Global,
    writer: &mut Writer,
    dest: PointCode,
    complaint: Complaint,
) -> Result<(), AllocError>
    ensures { OnOk result (Adds writer.old writer.new (member_tokens (complaint_members dest complaint))) }
{
    put_code(alloc, writer, "destination", dest)?;
    put_code(alloc, writer, "point", complaint.point)?;
    put_clause(writer, complaint.clause)
}

/// Writes a wrong table.
fn put_wrong(
    alloc: Global,
    writer: &mut Writer,
    dest: PointCode,
    complaint: Complaint,
) -> Result<(), AllocError>
    ensures { OnOk result (Adds writer.old writer.new (member_tokens (net_values (NetAnswer.Wrong dest complaint)))) }
{
    put_text(writer, "result", "bad")?;
    put_complaint(alloc, writer, dest, complaint)
}

/// Writes the word of what is told of the whole network.
fn put_net_word(writer: &mut Writer, net: &NetAnswer) -> Result<(), AllocError>
    ensures { OnOk result (Adds writer.old writer.new (member_tokens (word_member (net_word net.now) ∷ []))) }
{
    put_word(
        writer,
        match net {
            NetAnswer::Trace(_) => "trace",
            NetAnswer::WhatIf(_) => "whatif",
            NetAnswer::Reroutes(_) => "reroutes",
            NetAnswer::Survey(_) => "survey",
            NetAnswer::Warned(_) => "warn",
            NetAnswer::Right(_) | NetAnswer::Wrong(_, _) => "audit",
            NetAnswer::Picture(_, _) | NetAnswer::Drawn(_) => "picture",
            NetAnswer::Saving(_, _) | NetAnswer::Saved(_) => "saved",
        },
    )
}

/// Writes what is told of the whole network behind its word.
fn put_net_values(alloc: Global, writer: &mut Writer, net: &NetAnswer) -> Result<(), AllocError>
    ensures { OnOk result (Adds writer.old writer.new (member_tokens (net_values net.now))) }
{
    match net {
        NetAnswer::Trace(trace) => put_trace(alloc, writer, trace),
        NetAnswer::WhatIf(report) => put_report(alloc, writer, report),
        NetAnswer::Reroutes(reroutes) => put_moves(alloc, writer, reroutes),
        NetAnswer::Survey(survey) => put_survey(alloc, writer, survey.get()),
        NetAnswer::Warned(warnings) => put_warnings(alloc, writer, warnings),
        NetAnswer::Right(count) => put_right(writer, *count as u64),
        NetAnswer::Wrong(dest, complaint) => put_wrong(alloc, writer, *dest, *complaint),
        NetAnswer::Picture(file, _)
        | NetAnswer::Drawn(file)
        | NetAnswer::Saving(file, _)
        | NetAnswer::Saved(file) => put_text(writer, "file", file.as_str()),
    }
}

/// Writes what is told of the whole network.
pub fn put_net(alloc: Global, writer: &mut Writer, net: &NetAnswer) -> Result<(), AllocError>
    ensures { OnOk result (Adds writer.old writer.new (member_tokens (net_members net.now))) }
{
    put_net_word(writer, net)?;
    put_net_values(alloc, writer, net)
}
