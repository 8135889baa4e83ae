//! What a row hears from a table, or from what is kept of it, and the choice that follows: the local rule of `profile`.
//!
//! The rows of the table stand in the places of the plan's, so a point's row is found where it stands among the plan's rows.

ghost use Rattle.std.specs.Prelude.{◌≡◌, ◌<◌, ◌≤◌, ◌==◌, length, All, map, find, slice_index_or};
ghost use Rattle.profile.specs.declared.tables.RowState.{RowState};
ghost use Rattle.std.specs.Option.{option_copied};
ghost use Rattle.route_choice.specs.Routes.{offered, offered_in, mate_of_pair};
ghost use Rattle.profile.specs.Local.{reading as reading_of};
ghost use Rattle.profile.specs.Status.{offers, offer};
ghost use Rattle.profile.specs.Valid.{IsSmall};
ghost use Rattle.profile.specs.Whole.{heard_in as heard_in_of, heard_from as heard_from_of, choice_heard as choice_heard_of};
ghost use Rattle.excerpts.specs.Excerpt.{source_of};
ghost use Rattle.transfer_state.specs.Complaints.{far_from, heard_table, kept_table, mate_from, HasAllPoints};

use crate::choosing::rows_of;
use crate::kept::{Kept, opened_choice};
use crate::states::message_to;
use excerpts::Excerpt;
use net_items::Row;
use point_codes::{MsgKind, PointCode};
use profile::{Messages, Table};
use route_choice::{Choice, Far};

/// What tells the messages in force towards a destination.
#[derive(Clone, Copy, Drop)]
pub(crate) enum Heard<'a> {
    /// A table that is written out.
    Written(&'a Table),
    /// What is kept of the choices of the rows, in their places: it has the messages that follow.
    Kept(&'a [Kept]),
}

/// The status that a message tells (Q.704 clauses 13.2 to 13.4).
fn reading(kind: MsgKind) -> Far
    ensures { result ≡ reading_of kind }
{
    match kind {
        MsgKind::Tfa => Far::Allowed,
        MsgKind::Tfr => Far::Restricted,
        MsgKind::Tfp => Far::Prohibited,
    }
}

/// What a point hears from messages: prohibited where none goes to it.
fn heard_in(messages: &Messages, point: PointCode) -> Far
    ensures { result ≡ heard_in_of messages.now point }
{
    match messages.to(point) {
        Some(m) => reading(m.kind),
        None => Far::Prohibited,
    }
}

/// What a point hears of the row in a place by what is kept.
fn heard_in_kept(e: &Excerpt, kept: &[Kept], position: usize, point: PointCode) -> Far
    requires here { position < length e.now.plan.rows }
    requires together { length kept.now ≡ length e.now.plan.rows }
    ensures { (d : RowState) → result ≡ heard_in_of (slice_index_or (kept_table (source_of e.now) kept.now).rows position d).messages point }
{
    let row = &rows_of(e)[position];
    let choice = opened_choice(e, row, kept[position]);
    match message_to(e, row, &choice, point) {
        Some(message) => reading(message.kind),
        None => Far::Prohibited,
    }
}

/// What a point hears of the row in a place.
fn heard_in_place(e: &Excerpt, heard: &Heard<'_>, position: usize, point: PointCode) -> Far
    requires here { position < length e.now.plan.rows }
    requires points { HasAllPoints (source_of e.now) heard.now }
    ensures { (d : RowState) → result ≡ heard_in_of (slice_index_or (heard_table (source_of e.now) heard.now).rows position d).messages point }
{
    match heard {
        Heard::Written(table) => heard_in(&table.rows.as_slice()[position].messages, point),
        Heard::Kept(kept) => heard_in_kept(e, kept, position, point),
    }
}

/// What a point hears of a neighbour: prohibited if the neighbour has no row.
fn heard_from(e: &Excerpt, heard: &Heard<'_>, point: PointCode, neighbour: PointCode) -> Far
    requires { HasAllPoints (source_of e.now) heard.now }
    ensures { result ≡ heard_from_of (heard_table (source_of e.now) heard.now) point neighbour }
{
    e.validity();
    match e.position_of_row(neighbour) {
        Ok(at) => heard_in_place(e, heard, at, point),
        Err(_) => Far::Prohibited,
    }
}

/// What a point hears over a via: prohibited if no available set joins them, allowed of the destination.
fn offer_heard(e: &Excerpt, heard: &Heard<'_>, point: PointCode, via: PointCode) -> Far
    requires { HasAllPoints (source_of e.now) heard.now }
    ensures { result ≡ (offer (source_of e.now) (far_from (source_of e.now) (heard_table (source_of e.now) heard.now) point) point via).far }
{
    if !e.is_connected(point, via) {
        Far::Prohibited
    } else if via == e.dest() {
        Far::Allowed
    } else {
        heard_from(e, heard, point, via)
    }
}

/// What a point hears over the vias of a class, in their places.
fn fars_heard_in(e: &Excerpt, heard: &Heard<'_>, point: PointCode, vias: &[PointCode]) -> [Far; 2]
    requires points { HasAllPoints (source_of e.now) heard.now }
    requires small { length vias.now ≤ 2 }
    ensures { offered_in vias.now result ≡ map (offer (source_of e.now) (far_from (source_of e.now) (heard_table (source_of e.now) heard.now) point) point) vias.now }
{
    match vias {
        [] => [Far::Prohibited, Far::Prohibited],
        [only] => [offer_heard(e, heard, point, *only), Far::Prohibited],
        [first, second, ..] => [
            offer_heard(e, heard, point, *first),
            offer_heard(e, heard, point, *second),
        ],
    }
}

/// What a row hears over its vias, in their places.
fn fars_heard(e: &Excerpt, heard: &Heard<'_>, row: &Row) -> [[Far; 2]; 4]
    requires points { HasAllPoints (source_of e.now) heard.now }
    requires few { length row.now.classes ≤ 4 }
    requires small { All (λ vias. length vias ≤ 2) row.now.classes }
    ensures { offered row.now.classes result ≡ offers (source_of e.now) (far_from (source_of e.now) (heard_table (source_of e.now) heard.now) row.now.point) row.now }
{
    let mut fars = [[Far::Prohibited; 2]; 4];
    let classes = row.classes.as_slice();
    for (i, vias) in classes.iter().enumerate() {
        fars[i] = fars_heard_in(e, heard, row.point, vias.as_slice());
    }
    fars
}

/// What a row hears of its mate, if it may use it.
pub(crate) fn mate_heard(e: &Excerpt, heard: &Heard<'_>, row: &Row) -> Option<(PointCode, Far)>
    requires { HasAllPoints (source_of e.now) heard.now }
    ensures { mate_of_pair result ≡ mate_from (source_of e.now) (heard_table (source_of e.now) heard.now) row.now }
{
    if !row.mate {
        return None;
    }
    let point = e.mate_of(row.point)?;
    let mate = e.row(point)?;
    if e.is_connected(row.point, mate.point) {
        let far = heard_from(e, heard, row.point, mate.point);
        Some((mate.point, far))
    } else {
        None
    }
}

/// The choice that a row makes by what it hears.
pub(crate) fn choice_heard(e: &Excerpt, heard: &Heard<'_>, row: &Row) -> Choice
    requires points { HasAllPoints (source_of e.now) heard.now }
    requires small { IsSmall row.now }
    ensures { result ≡ choice_heard_of (source_of e.now) (heard_table (source_of e.now) heard.now) row.now }
{
    let mate = mate_heard(e, heard, row);
    route_choice::choose(row, &fars_heard(e, heard, row), mate, e.tfr())
}
