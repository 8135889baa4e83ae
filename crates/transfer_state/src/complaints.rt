//! The local certificate of a table: whether each row is what it makes of the messages that its neighbours hold towards
//! it.

ghost use Rattle.std.specs.Prelude.{◌≡◌, ◌≢◌, ◌↔◌, IsTrue, map, IfErr, OnOk, OnErr};
ghost use Rattle.std.specs.Option.{MatchOption};
ghost use Rattle.profile.specs.Valid.{IsSmall};
ghost use Rattle.profile.specs.Whole.{messages_of as messages_by, state_of as state_by, scratch, IsSettledTable};
ghost use Rattle.excerpts.specs.Excerpt.{source_of};
ghost use Rattle.transfer_state.specs.Complaints.{right_state, HasPoints, IsWrongIn, IsFirstComplaint};

use crate::choosing::{is_same_status, rows_of};
use crate::hearing::{Heard, choice_heard};
use crate::states::{links_of, message, size_of};
use excerpts::Excerpt;
use net_items::Row;
use point_codes::PointCode;
use profile::{Message, RowLinks, RowState, Table};
use route_choice::Choice;

/// What can be wrong with a table, in the order in which it is looked for (own).
#[derive(Clone, Copy, Debug, PartialEq, Eq)]
pub enum Clause {
    /// The destination or the points of the rows are not the plan's, in rising code.
    Points,
    /// A row's class or its members are not those that it chooses.
    Route,
    /// A row's status is not the one that follows.
    Status,
    /// A row's links are not those of its choice.
    Links,
    /// A row's messages are not those in force.
    Messages,
}

/// The first fault of a table (own).
#[derive(Clone, Copy, Debug, PartialEq, Eq)]
pub struct Complaint {
    /// The point of the first wrong row, or the plan's destination if the points are wrong.
    pub point: PointCode,
    /// What is wrong there.
    pub clause: Clause,
}

/// Whether the states have the points of the rows, in their order.
fn are_points(states: &[RowState], rows: &[Row]) -> bool
    ensures { IsTrue result ↔ (map (λ state. state.point) states.now ≡ map (λ row. row.point) rows.now) }
{
    let mut xs = states;
    let mut ys = rows;
    while let Some((x, more)) = xs.split_first() {
        match ys.split_first() {
            None => return false,
            Some((y, others)) => {
                if x.point != y.point {
                    return false;
                }
                xs = more;
                ys = others;
            }
        }
    }
    ys.is_empty()
}

/// Whether the table's destination and points are the plan's.
fn has_points(e: &Excerpt, table: &Table) -> bool
    ensures { IsTrue result ↔ HasPoints (source_of e.now) table.now }
{
    table.dest == e.dest() && are_points(table.rows.as_slice(), rows_of(e))
}

/// Whether the members are the same, each at its place.
fn are_same_members(one: &[Option<PointCode>; 2], other: &[Option<PointCode>; 2]) -> bool
    ensures { IsTrue result ↔ (one.now ≡ other.now) }
{
    one[0] == other[0] && one[1] == other[1]
}

/// Whether class and members are the same.
pub(crate) fn is_same_route(one: &Choice, other: &Choice) -> bool
    ensures { IsTrue result ↔ ((one.now.class ≡ other.now.class) × (one.now.members ≡ other.now.members)) }
{
    one.class == other.class && are_same_members(&one.members, &other.members)
}

/// Whether these are the links of a row with this choice.
fn are_links(e: &Excerpt, row: &Row, choice: &Choice, links: &RowLinks) -> bool
    requires { IsSmall row.now }
    ensures { IsTrue result ↔ (links.now ≡ (state_by (source_of e.now) row.now choice.now).links) }
{
    let size = size_of(row, choice.class);
    links.equals(&links_of(e, row, choice, size))
}

/// Whether these are the messages in force from a row with this choice, in rising code of the receiver.
fn are_messages(e: &Excerpt, row: &Row, choice: &Choice, messages: &[Message]) -> bool
    ensures { IsTrue result ↔ (messages.now ≡ messages_by (source_of e.now) row.now choice.now) }
{
    let mut left = messages;
    if e.is_stp(row.point) {
        for z in e.neighbours(row.point) {
            if z != e.dest() {
                let Some((first, more)) = left.split_first() else {
                    return false;
                };
                if first.to != z || first.kind != message(choice, z) {
                    return false;
                }
                left = more;
            }
        }
    }
    left.is_empty()
}

/// The first clause in which a row's state is wrong.
fn fault_in(e: &Excerpt, table: &Table, row: &Row, state: &RowState) -> Option<Clause>
    requires points { HasPoints (source_of e.now) table.now }
    requires small { IsSmall row.now }
    requires point { state.now.point ≡ row.now.point }
    ensures { MatchOption result (state.now ≡ right_state (source_of e.now) table.now row.now) (λ clause. IsWrongIn clause state.now (right_state (source_of e.now) table.now row.now)) }
{
    let right = choice_heard(e, &Heard::Written(table), row);
    if !is_same_route(&state.choice, &right) {
        return Some(Clause::Route);
    }
    if !is_same_status(state.choice.status, right.status) {
        return Some(Clause::Status);
    }
    if !are_links(e, row, &right, &state.links) {
        return Some(Clause::Links);
    }
    if !are_messages(e, row, &right, state.messages.as_slice()) {
        return Some(Clause::Messages);
    }
    None
}

/// Whether a table is the one of its excerpt, told by each row and its neighbours' messages alone (own, after Q.704
/// clauses 13.2 to 13.4). It takes no memory.
///
/// The complaint is the first: where the table's destination or points are not the plan's, `Points` with the plan's
/// destination; else the first wrong row in rising code, with the first of `Route`, `Status`, `Links` and `Messages` in
/// which it is wrong.
pub fn check(e: &Excerpt, table: &Table) -> Result<(), Complaint>
    ensures settled { OnOk result (IsSettledTable (source_of e.now) table.now) }
    ensures scratch { OnOk result (table.now ≡ scratch (source_of e.now)) }
    ensures first { IfErr result (IsFirstComplaint (source_of e.now) table.now) }
    ensures wrong { OnErr result (table.now ≢ scratch (source_of e.now)) }
{
    e.validity();
    if !has_points(e, table) {
        return Err(Complaint {
            point: e.dest(),
            clause: Clause::Points,
        });
    }
    let rows = rows_of(e);
    let states = table.rows.as_slice();
    for i in 0..rows.len() {
        let row = &rows[i];
        if let Some(clause) = fault_in(e, table, row, &states[i]) {
            return Err(Complaint {
                point: row.point,
                clause,
            });
        }
    }
    Ok(())
}
