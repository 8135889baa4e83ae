//! The choices of all rows, followed from those of the same plan before sets became available or were so no longer.
//!
//! Marked are the rows whose choices may not obey the rule any more. Each is chosen anew, and if its status changes, those that
//! rest on it are marked. Once none is left, all choices obey the rule, and only those from scratch do.

ghost use Rattle.std.specs.Prelude.{◌≡◌, ◌≢◌, ◌<◌, ℕ, ◌∷◌, [], true, false, IfOk, OnOk, IfNone, Some, length, slice_get};
ghost use Rattle.std.specs.Option.{IfSome};
ghost use Rattle.excerpts.specs.Excerpt.{source_of};
ghost use Rattle.net_items.specs.Keyed.{IsFoundAt};
ghost use Rattle.net_items.specs.Lookups.{mate_of};
ghost use Rattle.std.specs.List.{list_any, AllByRecursion};
ghost use Rattle.excerpts.specs.Turned.{has_ends, HasTurned, IsTold};
ghost use Rattle.excerpts.specs.declared.turned.Ends.{Ends};
ghost use Rattle.transfer_state.specs.Following.{is_marked, rests_on, AreMarks, HasMark, HasMarks, HasMarksOf, HasReaders, IsWithoutMark, KeepsMarks, ObeysBut};
ghost use Rattle.transfer_state.specs.Routing.{settled_choices, IsChosen};

use crate::choices::Choices;
use crate::choosing::{Statuses, is_same_status, kept_choice, rows_of};
use crate::kept::Kept;
use excerpts::{Ends, Excerpt};
use net_items::Row;
use point_codes::PointCode;
use std::alloc::{AllocError, Global};

/// How many rows are chosen anew at most. Beyond, it costs less to choose all from scratch.
const FOLLOW_LIMIT: usize = 128;

/// Marks the row in a place.
fn mark_place(marks: &mut Vec<usize>, position: usize) -> Result<(), AllocError>
    ensures kept { OnOk result (KeepsMarks marks.old.items marks.new.items) }
    ensures marked { OnOk result (is_marked marks.new.items position ≡ true) }
    ensures only { OnOk result ((k : ℕ) → is_marked marks.new.items k ≡ true → k ≢ position → is_marked marks.old.items k ≡ true) }
{
    if !marks.iter().any(|mark| *mark == position) {
        marks.push(position)?;
    }
    Ok(())
}

/// Marks the row of a point, which is found in a place.
fn mark_found(
    e: &Excerpt,
    marks: &mut Vec<usize>,
    point: PointCode,
    at: usize,
) -> Result<(), AllocError>
    requires found { IsFoundAt (λ r. r.point) point e.now.plan.rows at }
    requires marks { AreMarks e.now marks.old.items }
    ensures within { OnOk result (AreMarks e.now marks.new.items) }
    ensures kept { OnOk result (KeepsMarks marks.old.items marks.new.items) }
    ensures marked { OnOk result (HasMark e.now marks.new.items point) }
{
    e.validity();
    // The proof speaks of the row's point.
    let _ = point;
    mark_place(marks, at)
}

/// Marks the row of a point, if it has one.
fn mark_row(e: &Excerpt, marks: &mut Vec<usize>, point: PointCode) -> Result<(), AllocError>
    requires { AreMarks e.now marks.old.items }
    ensures within { OnOk result (AreMarks e.now marks.new.items) }
    ensures kept { OnOk result (KeepsMarks marks.old.items marks.new.items) }
    ensures marked { OnOk result (HasMark e.now marks.new.items point) }
{
    e.validity();
    match e.position_of_row(point) {
        Ok(at) => mark_found(e, marks, point, at),
        Err(_) => Ok(()),
    }
}

/// Marks the row of a point's mate, if it has one.
fn mark_mate(e: &Excerpt, marks: &mut Vec<usize>, point: PointCode) -> Result<(), AllocError>
    requires { AreMarks e.now marks.old.items }
    ensures within { OnOk result (AreMarks e.now marks.new.items) }
    ensures kept { OnOk result (KeepsMarks marks.old.items marks.new.items) }
    ensures marked { OnOk result ((m : ℕ) → mate_of e.now.network.points point ≡ Some m → HasMark e.now marks.new.items m) }
{
    match e.mate_of(point) {
        Some(mate) => mark_row(e, marks, mate),
        None => Ok(()),
    }
}

/// Marks the rows of a point and of its mate.
fn mark_with_mate(e: &Excerpt, marks: &mut Vec<usize>, point: PointCode) -> Result<(), AllocError>
    requires { AreMarks e.now marks.old.items }
    ensures within { OnOk result (AreMarks e.now marks.new.items) }
    ensures kept { OnOk result (KeepsMarks marks.old.items marks.new.items) }
    ensures marked { OnOk result (HasMarks e.now marks.new.items point) }
{
    mark_row(e, marks, point)?;
    mark_mate(e, marks, point)
}

/// Whether the row of a point rests on what another point offers to it, or may: it leads there, or that is its mate.
fn rests(e: &Excerpt, point: PointCode, other: PointCode) -> bool
    ensures { result ≡ rests_on e.now point other }
{
    if e.leads(point, other) {
        return true;
    }
    match e.mate_of(point) {
        Some(mate) => mate == other,
        None => false,
    }
}

/// Whether the row of some point rests on a set between the two points of any of these pairs, or may.
pub(crate) fn rests_on_any(e: &Excerpt, turned: &[Ends]) -> bool
    ensures { result ≡ list_any (λ (ends : Ends). rests_on e.now ends.point ends.other) turned.now }
{
    turned.iter().any(|ends| rests(e, ends.point, ends.other))
}

/// Marks the rows of a point and of its mate that rest on what another point offers to the first.
fn mark_end(
    e: &Excerpt,
    marks: &mut Vec<usize>,
    point: PointCode,
    other: PointCode,
) -> Result<(), AllocError>
    requires { AreMarks e.now marks.old.items }
    ensures within { OnOk result (AreMarks e.now marks.new.items) }
    ensures kept { OnOk result (KeepsMarks marks.old.items marks.new.items) }
    ensures marked { OnOk result (HasMarksOf e.now marks.new.items point other) }
{
    if rests(e, point, other) {
        return mark_with_mate(e, marks, point);
    }
    Ok(())
}

/// Marks those that rest on a set that turned.
fn mark_ends(e: &Excerpt, marks: &mut Vec<usize>, ends: &Ends) -> Result<(), AllocError>
    requires marks { AreMarks e.now marks.old.items }
    requires told { IsTold e.now.network.points ends.now }
    ensures within { OnOk result (AreMarks e.now marks.new.items) }
    ensures kept { OnOk result (KeepsMarks marks.old.items marks.new.items) }
    ensures marked { OnOk result (HasMarksOf e.now marks.new.items ends.now.point ends.now.other) }
{
    match e.position_leading(ends.point, ends.other, ends.transfers) {
        Some(at) => {
            mark_found(e, marks, ends.point, at)?;
            mark_mate(e, marks, ends.point)
        }
        None if ends.mates => mark_with_mate(e, marks, ends.point),
        None => Ok(()),
    }
}

/// Marks the rows that rest on a set between the two points of any of these pairs.
fn mark_turned(e: &Excerpt, marks: &mut Vec<usize>, turned: &[Ends]) -> Result<(), AllocError>
    requires marks { AreMarks e.now marks.old.items }
    requires told { AllByRecursion (IsTold e.now.network.points) turned.now }
    ensures within { OnOk result (AreMarks e.now marks.new.items) }
    ensures marked { OnOk result ((y z : ℕ) → has_ends turned.now y z ≡ true → HasMarksOf e.now marks.new.items y z) }
{
    for ends in turned {
        mark_ends(e, marks, ends)?;
    }
    Ok(())
}

/// Marks the rows that rest on the status of a point.
fn mark_readers(e: &Excerpt, marks: &mut Vec<usize>, point: PointCode) -> Result<(), AllocError>
    requires { AreMarks e.now marks.old.items }
    ensures within { OnOk result (AreMarks e.now marks.new.items) }
    ensures kept { OnOk result (KeepsMarks marks.old.items marks.new.items) }
    ensures marked { OnOk result (HasReaders e.now marks.new.items point) }
{
    for neighbour in e.neighbours(point) {
        mark_end(e, marks, neighbour, point)?;
    }
    Ok(())
}

/// The rank of the row in a place.
fn rank_at(rows: &[Row], position: usize) -> u8
    requires { position < length rows.now }
{
    rows[position].rank
}

/// The place among the marks of one whose row has the least rank. If none is expected below a rank, the first of that rank is one.
fn least(rows: &[Row], marks: &[usize], expected: u8) -> Option<usize>
    requires { (k : ℕ) → is_marked marks.now k ≡ true → k < length rows.now }
    ensures some { IfSome result (λ at. at < length marks.now) }
    ensures none { IfNone result (marks.now ≡ []) }
{
    let mut least = 0;
    let mut lowest = u8::MAX;
    for at in 0..marks.len() {
        let rank = rank_at(rows, marks[at]);
        if rank <= expected {
            return Some(at);
        }
        if rank < lowest {
            least = at;
            lowest = rank;
        }
    }
    if marks.is_empty() { None } else { Some(least) }
}

/// Takes out the mark of a row of the least rank, if there is one: the rows that rest on it are of higher rank, so each row is
/// mostly chosen once, and no mark is expected below the rank of the row before.
fn take_least(rows: &[Row], marks: &mut Vec<usize>, expected: u8) -> Option<usize>
    requires { (k : ℕ) → is_marked marks.old.items k ≡ true → k < length rows.now }
    ensures some { IfSome result (IsWithoutMark marks.old.items marks.new.items) }
    ensures none { IfNone result (marks.old.items ≡ []) }
{
    let at = least(rows, marks, expected)?;
    Some(marks.swap_remove(at))
}

/// The row in a place.
fn row_in_place<'a>(e: &'a Excerpt, position: usize) -> &'a Row
    requires { position < length e.now.plan.rows }
    ensures { slice_get e.entry.now.plan.rows position ≡ Some result.now }
{
    &rows_of(e)[position]
}

/// Chooses the row in a place anew, and marks those that rest on its status, if that changed.
fn choose_anew(
    e: &Excerpt,
    choices: &mut [Kept],
    marks: &mut Vec<usize>,
    position: usize,
) -> Result<(), AllocError>
    requires here { position < length choices.old }
    requires together { length choices.old ≡ length e.now.plan.rows }
    requires within { AreMarks e.now marks.old.items }
    requires obey { ObeysBut (source_of e.now) choices.old (position ∷ marks.old.items) }
    ensures together { length choices.new ≡ length e.now.plan.rows }
    ensures within { OnOk result (AreMarks e.now marks.new.items) }
    ensures obey { OnOk result (ObeysBut (source_of e.now) choices.new marks.new.items) }
{
    e.validity();
    let row = row_in_place(e, position);
    let choice = kept_choice(e, &Statuses::Choices(choices), row);
    let is_same = is_same_status(choice.status(), choices[position].status());
    choices[position] = choice;
    if !is_same {
        mark_readers(e, marks, row.point)?;
    }
    Ok(())
}

/// The choices of all rows, if few have to be chosen anew.
fn followed(
    alloc: Global,
    e: &Excerpt,
    before: &[Kept],
    marks: Vec<usize>,
) -> Result<Option<Vec<Kept>>, AllocError>
    requires together { length before.now ≡ length e.now.plan.rows }
    requires within { AreMarks e.now marks.items }
    requires obey { ObeysBut (source_of e.now) before.now marks.items }
    ensures { IfOk result (λ o. IfSome o (λ choices. IsChosen e.now choices.items)) }
{
    e.validity();
    let mut marks = marks;
    let mut choices = Vec::from_slice(alloc, before)?;
    let mut rank = 0;
    for _ in 0..FOLLOW_LIMIT {
        let Some(position) = take_least(rows_of(e), &mut marks, rank) else {
            return Ok(Some(choices));
        };
        rank = rank_at(rows_of(e), position);
        choose_anew(e, &mut choices, &mut marks, position)?;
    }
    Ok(None)
}

/// Reads ahead the codes of rows at the ends of sets that turned: how many of these rows stand where they are expected.
fn read_codes_ahead(e: &Excerpt, turned: &[Ends]) -> usize {
    let mut count = 0usize;
    for ends in turned {
        if ends.transfers {
            count = count.saturating_add(usize::from(e.is_expected(ends.point)));
        }
    }
    count
}

/// Reads ahead these rows: how many of them stand near where they are expected.
fn read_rows_ahead(e: &Excerpt, turned: &[Ends]) -> usize {
    let mut count = 0usize;
    for ends in turned {
        if ends.transfers {
            count = count.saturating_add(usize::from(e.is_near(ends.point)));
        }
    }
    count
}

/// Reads ahead what will be marked: about how many rows that are. One pass reads their codes and the next one the rows, so that what comes
/// from memory comes at once, and not one row after the other while they are marked.
fn read_ahead(e: &Excerpt, turned: &[Ends]) -> usize {
    let expected = read_codes_ahead(e, turned);
    expected.max(read_rows_ahead(e, turned))
}

/// The places of the rows that rest on a set between the two points of any of these pairs.
fn marks_of(alloc: Global, e: &Excerpt, turned: &[Ends]) -> Result<Vec<usize>, AllocError>
    requires { AllByRecursion (IsTold e.now.network.points) turned.now }
    ensures within { IfOk result (λ marks. AreMarks e.now marks.items) }
    ensures marked { IfOk result (λ marks. (y z : ℕ) → has_ends turned.now y z ≡ true → HasMarksOf e.now marks.items y z) }
{
    let mut marks = Vec::with_capacity(alloc, read_ahead(e, turned))?;
    mark_turned(e, &mut marks, turned)?;
    Ok(marks)
}

/// What is kept of the choices of all rows, if few have to be chosen anew: that of those before, shared, if none has to.
pub(crate) fn choices_after(
    alloc: Global,
    e: &Excerpt,
    before: &Excerpt,
    choices: &Choices,
    turned: &[Ends],
) -> Result<Option<Choices>, AllocError>
    requires dest { e.now.plan.dest ≡ before.now.plan.dest }
    requires turned { HasTurned before.now.network e.now.network turned.now }
    requires settled { choices.now ≡ settled_choices before.now }
    ensures { IfOk result (λ o. IfSome o (λ c. c ≡ settled_choices e.now)) }
{
    e.validity();
    before.validity();
    let marks = marks_of(alloc, e, turned)?;
    if marks.is_empty() {
        return Ok(Some(choices.share()?));
    }
    match followed(alloc, e, choices.as_slice(), marks)? {
        Some(list) => Ok(Some(Choices::by(alloc, e.dest(), list)?)),
        None => Ok(None),
    }
}
