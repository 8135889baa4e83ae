//! What is wrong with the rows of a plan.

ghost use Rattle.std.specs.Prelude.{◌≡◌, [], ◌==◌, List, None, length, true};
ghost use Rattle.net_items.specs.declared.lists.Row.{Row};
ghost use Rattle.std.specs.List.{list_all, list_any};
ghost use Rattle.net_items.specs.Keyed.{IsRising};
ghost use Rattle.net_items.specs.Lookups.{vias_of, has_point};
ghost use Rattle.net_sets.specs.Sets.{is_distinct as distinct, is_nil as nil};
ghost use Rattle.plan_rows.specs.Rows.{is_small_row as small_row};
ghost use Rattle.plan_rows.specs.Ranks.{IsRanks};
ghost use Rattle.plan_rows.specs.Settings.{HaveTransferMates};
ghost use Rattle.plan_rows.specs.Causes.{cause_of as the_cause, wrong_row as the_wrong_row};

use crate::ranks::note_ranks;
use crate::row_questions::{
    are_vias_joined, are_vias_lower, are_vias_no_mates, are_vias_right, has_mate_row, is_small_row,
};
use crate::seen::{are_vias_once, is_seen, see, see_points};
use crate::settings::Setting;
use crate::transfers::note_transfers;
use net_items::{Point, Row};
use net_sets::{Around, Sets};
use point_codes::PointCode;

/// What is wrong with a row of a plan.
#[derive(Clone, Copy, Debug, PartialEq, Eq)]
pub enum Cause {
    /// The row's point is the destination.
    IsDest,
    /// An earlier row has the point.
    Twice,
    /// A via is joined to the point by no set.
    NotJoined,
    /// A via stands twice.
    ViaTwice,
    /// A via is neither the destination nor a transfer point with a row of lower rank.
    NotLower,
    /// A via is the point's mate, and not the destination.
    ViaMate,
    /// The mate flag is set, and the point is no transfer point, has no mate, is not joined to it, the mate is the destination, or has no row of the same rank.
    BadMate,
    /// Neither a class nor the mate flag.
    NoRoute,
}

/// A row of a plan in which something is wrong.
#[derive(Clone, Copy, Debug, PartialEq, Eq)]
pub struct WrongRow {
    /// The row's point.
    pub point: PointCode,
    /// The first thing that is wrong with it.
    pub cause: Cause,
}

/// Whether nothing is wrong with a row. Each via is looked at once, so this is told sooner than what is wrong.
fn is_right(
    setting: &Setting<'_>,
    sets: &Sets,
    around: &Around<'_>,
    row: &Row,
    repeated: bool,
    once: bool,
) -> bool
    requires { around.now ≡ record { point = row.now.point; sets = sets.now } }
    ensures { (earlier : List Row) → repeated ≡ list_any (λ other. other.point == row.now.point) earlier → once ≡ distinct (vias_of row.now) → result ≡ true → the_cause setting.now.points sets.now setting.now.dest setting.now.rows earlier row.now ≡ None }
{
    if row.point == setting.dest() {
        return false;
    }
    if repeated {
        return false;
    }
    if !once {
        return false;
    }
    if !are_vias_right(setting, around, row) {
        return false;
    }
    if row.mate {
        return has_mate_row(setting, sets, row);
    }
    !has_no_class(row)
}

/// What is wrong with a row, whose earlier rows are given, with the sets around its point, whether an earlier row has its
/// point, and whether each of its vias stands once.
pub fn cause_of(
    setting: &Setting<'_>,
    sets: &Sets,
    around: &Around<'_>,
    earlier: &[Row],
    row: &Row,
    twice: bool,
    once: bool,
) -> Option<Cause>
    requires around { around.now ≡ record { point = row.now.point; sets = sets.now } }
    requires twice { twice ≡ list_any (λ other. other.point == row.now.point) earlier.now }
    requires once { once ≡ distinct (vias_of row.now) }
    ensures { result ≡ the_cause setting.now.points sets.now setting.now.dest setting.now.rows earlier.now row.now }
{
    if is_right(setting, sets, around, row, twice, once) {
        return None;
    }
    if row.point == setting.dest() {
        return Some(Cause::IsDest);
    }
    if twice {
        return Some(Cause::Twice);
    }
    if !are_vias_joined(around, row) {
        return Some(Cause::NotJoined);
    }
    if !once {
        return Some(Cause::ViaTwice);
    }
    if !are_vias_lower(setting, row) {
        return Some(Cause::NotLower);
    }
    if !are_vias_no_mates(setting, row) {
        return Some(Cause::ViaMate);
    }
    if row.mate && !has_mate_row(setting, sets, row) {
        return Some(Cause::BadMate);
    }
    if has_no_class(row) && !row.mate {
        return Some(Cause::NoRoute);
    }
    None
}

fn has_no_class(row: &Row) -> bool
    ensures { result ≡ nil row.now.classes }
{
    match row.classes.as_slice() {
        [] => true,
        [_, ..] => false,
    }
}

/// Whether the point of each row is there.
pub fn has_points(points: &[Point], rows: &[Row]) -> bool
    ensures { result ≡ list_all (λ r. has_point points.now r.point) rows.now }
{
    let mut seen = [false; 16384];
    see_points(&mut seen, points);
    for row in rows {
        if !is_seen(&seen, row.point) {
            return false;
        }
    }
    true
}

/// Whether each row is within the limits of ranks and classes.
pub fn are_small_rows(rows: &[Row]) -> bool
    ensures { result ≡ list_all small_row rows.now }
{
    rows.iter().all(|row| is_small_row(row))
}

/// The first wrong row, and what is wrong with it.
pub fn wrong_row(points: &[Point], sets: &Sets, dest: PointCode, rows: &[Row]) -> Option<WrongRow>
    requires rising { IsRising (λ p. p.code) points.now }
    requires mates { HaveTransferMates points.now }
    ensures { result ≡ the_wrong_row points.now sets.now dest rows.now [] rows.now }
{
    let mut ranks = [0; 16384];
    let mut transfers = [false; 16384];
    let mut seen = [false; 16384];
    note_ranks(&mut ranks, rows);
    note_transfers(&mut transfers, points);
    let setting = Setting::new(points, &transfers, dest, rows, &ranks);
    let mut around = sets.around(dest);
    for position in 0..rows.len() {
        let row = &rows[position];
        around = around.next(sets, row.point);
        let earlier = &rows[..position];
        let twice = see(&mut seen, row.point);
        let once = are_vias_once(row);
        let cause = cause_of(&setting, sets, &around, earlier, row, twice, once);
        if let Some(cause) = cause {
            return Some(WrongRow {
                point: row.point,
                cause,
            });
        }
    }
    None
}
