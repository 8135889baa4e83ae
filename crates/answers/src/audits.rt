//! The answer to `audit`.

ghost use Rattle.std.specs.Prelude.{◌≡◌, ◌++◌, OnErr, OnOk, length, string_bytes};
ghost use Rattle.answers.specs.Audits.{audit_answer, audit_right, audit_wrong, clause_letter, complaint_text};

use crate::answer::{Answer, NetAnswer};
use crate::codes::put_numbered;
use net_versions::Version;
use point_codes::PointCode;
use std::alloc::{AllocError, Global};
use transfer_state::{Clause, Complaint};

/// The letter of what is wrong.
pub fn clause_word(clause: Clause) -> &'static str
    ensures { result.now ≡ clause_letter clause }
{
    match clause {
        Clause::Points => "a",
        Clause::Route => "b",
        Clause::Status => "c",
        Clause::Links => "d",
        Clause::Messages => "e",
    }
}

/// Adds the destination of a wrong table, and the point and the letter of the first complaint about it. If memory is refused
/// the text stays as it was.
pub fn put_complaint(
    alloc: Global,
    text: &mut String,
    dest: PointCode,
    complaint: Complaint,
) -> Result<(), AllocError>
    ensures text { OnOk result (string_bytes text.new ≡ string_bytes text.old ++ complaint_text dest complaint) }
    ensures kept { OnErr result (string_bytes text.new ≡ string_bytes text.old) }
{
    let point = complaint.point;
    let letter = clause_word(complaint.clause);
    let words = format!(in alloc; "{dest} {point} {letter}")?;
    text.push_str(words.as_str())
}

/// Adds that many tables, each right.
pub(crate) fn put_right(text: &mut String, count: usize) -> Result<(), AllocError>
    ensures { OnOk result (string_bytes text.new ≡ string_bytes text.old ++ audit_right count) }
{
    put_numbered(text, "audit ok ", count as u64)
}

/// Adds a wrong table.
pub(crate) fn put_wrong(
    alloc: Global,
    text: &mut String,
    dest: PointCode,
    complaint: Complaint,
) -> Result<(), AllocError>
    ensures { OnOk result (string_bytes text.new ≡ string_bytes text.old ++ audit_wrong dest complaint) }
{
    text.push_str("audit bad ")?;
    put_complaint(alloc, text, dest, complaint)
}

/// The check of every table of a version by the local rule: so many tables, each right, or the first wrong one (own, after Q.704
/// clauses 13.2 to 13.4). A version has settled tables alone, so they are always right, which is the contract.
pub fn answer_audit(version: &Version) -> Answer
    ensures { result ≡ audit_answer (length version.now.network.plans) }
{
    let plans = version.net().net().plans();
    for position in 0..plans.len() {
        let routing = version.routing_in_place(position);
        if let Err(complaint) = routing.audit() {
            return Answer::Net(NetAnswer::Wrong(routing.dest(), complaint));
        }
    }
    Answer::Net(NetAnswer::Right(plans.len()))
}
