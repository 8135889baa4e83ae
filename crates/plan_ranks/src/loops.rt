//! Rows of a plan that need each other.

ghost use Rattle.std.specs.Prelude.{◌≡◌, true, IfOk};
ghost use Rattle.std.specs.Option.{IfSome};
ghost use Rattle.std.specs.List.{list_any};
ghost use Rattle.net_items.specs.Keyed.{IsRising};
ghost use Rattle.plan_rows.specs.Rows.{is_mate as mates};
ghost use Rattle.plan_rows.specs.Uses.{row_uses as row_used, is_flagged};
ghost use Rattle.plan_ranks.specs.Loops.{leads as led, may_use as may_be_used, is_next as is_the_next, is_chain, has_step, is_loop as is_a_loop, IsRankFault};
ghost use Rattle.plan_ranks.specs.Ranks.{HasNoRanks};

use crate::faults::RankFault;
use crate::needs::Need;
use net_items::lookups::mate_of;
use net_items::{Point, Row};
use plan_rows::uses::is_via;
use point_codes::PointCode;
use std::alloc::{AllocError, Global};

/// Whether a row is of this point and has another as a via, which isn't the destination.
fn is_led(row: &Row, dest: PointCode, point: PointCode, other: PointCode) -> bool
    ensures { result ≡ row_used point other dest row.now }
{
    row.point == point && other != dest && is_via(row, other)
}

/// Whether a row of a point has another as a via, which isn't the destination.
fn leads(dest: PointCode, rows: &[Row], point: PointCode, other: PointCode) -> bool
    ensures { result ≡ led dest rows.now point other }
{
    rows.iter().any(|row| is_led(row, dest, point, other))
}

/// Whether a point has a row with the mate flag.
fn has_flag(rows: &[Row], point: PointCode) -> bool
    ensures { result ≡ list_any (is_flagged point) rows.now }
{
    rows.iter().any(|row| row.point == point && row.mate)
}

/// Whether a point has another as its mate.
fn is_mate(points: &[Point], point: PointCode, other: PointCode) -> bool
    requires { IsRising (λ p. p.code) points.now }
    ensures { result ≡ mates points.now point other }
{
    match mate_of(points, point) {
        Some(mate) => mate == other,
        None => false,
    }
}

/// Whether a point may use another as its mate.
fn may_use(points: &[Point], rows: &[Row], point: PointCode, other: PointCode) -> bool
    requires { IsRising (λ p. p.code) points.now }
    ensures { result ≡ may_be_used points.now rows.now point other }
{
    is_mate(points, point, other) && has_flag(rows, point)
}

/// Whether a point has another as a via, or one of them may use the other as its mate.
fn is_next(
    points: &[Point],
    dest: PointCode,
    rows: &[Row],
    point: PointCode,
    other: PointCode,
) -> bool
    requires { IsRising (λ p. p.code) points.now }
    ensures { result ≡ is_the_next points.now dest rows.now point other }
{
    leads(dest, rows, point, other)
        || may_use(points, rows, point, other)
        || may_use(points, rows, other, point)
}

/// Whether from a point each leads on to the next, and the last to the end.
fn is_closed(
    points: &[Point],
    dest: PointCode,
    rows: &[Row],
    end: PointCode,
    first: PointCode,
    others: &[PointCode],
) -> bool
    requires { IsRising (λ p. p.code) points.now }
    ensures { result ≡ is_chain (is_the_next points.now dest rows.now) end first others.now }
{
    let mut point = first;
    for other in others {
        if !is_next(points, dest, rows, point, *other) {
            return false;
        }
        point = *other;
    }
    is_next(points, dest, rows, point, end)
}

/// Whether some step of the chain is over a via.
fn has_via(
    dest: PointCode,
    rows: &[Row],
    end: PointCode,
    first: PointCode,
    others: &[PointCode],
) -> bool
    ensures { result ≡ has_step (led dest rows.now) end first others.now }
{
    let mut point = first;
    for other in others {
        if leads(dest, rows, point, *other) {
            return true;
        }
        point = *other;
    }
    leads(dest, rows, point, end)
}

/// Whether each point has the next as a via or as its mate, the last the first, and at least one as a via.
fn is_loop(points: &[Point], dest: PointCode, rows: &[Row], codes: &[PointCode]) -> bool
    requires { IsRising (λ p. p.code) points.now }
    ensures { result ≡ is_a_loop points.now dest rows.now codes.now }
{
    match codes {
        [] => false,
        [first, others @ ..] => {
            is_closed(points, dest, rows, *first, *first, others)
                && has_via(dest, rows, *first, *first, others)
        }
    }
}

/// How high a need asks its row to be. At the same height a via comes before a mate.
fn weight_of(ranks: &[u8], need: Need) -> u16 {
    let lower = ranks.get(need.lower).copied().unwrap_or(0);
    if need.by == 0 {
        u16::from(lower) * 2
    } else {
        u16::from(lower) * 2 + 3
    }
}

/// The place that a row at a place needs most.
fn most_needed(needs: &[Need], ranks: &[u8], place: usize) -> Option<usize> {
    let mut most = None;
    let mut weight = 0;
    for need in needs {
        if need.upper == place && weight_of(ranks, *need) >= weight {
            weight = weight_of(ranks, *need);
            most = Some(need.lower);
        }
    }
    most
}

/// The places that rows need most, from a place on to the first that comes again, which stands at the end; or fewer.
fn walk(
    alloc: Global,
    needs: &[Need],
    ranks: &[u8],
    start: usize,
) -> Result<Vec<usize>, AllocError> {
    let mut path = vec![in alloc; start]?;
    let mut place = start;
    for _step in 0..ranks.len() {
        match most_needed(needs, ranks, place) {
            Some(next) => place = next,
            None => return Ok(path),
        }
        let again = path.contains(&place);
        path.push(place)?;
        if again {
            return Ok(path);
        }
    }
    Ok(path)
}

/// The points of the rows at the places of a path between the first that is its last and the last.
fn codes_of(alloc: Global, rows: &[Row], path: &[usize]) -> Result<Vec<PointCode>, AllocError> {
    let mut codes = Vec::new(alloc);
    if let Some((last, before)) = path.split_last() {
        for place in before.iter().skip_while(|place| **place != *last) {
            if let Some(row) = rows.get(*place) {
                codes.push(row.point)?;
            }
        }
    }
    Ok(codes)
}

/// Two mates that the points of a loop are.
fn mates_of(points: &[Point], codes: &[PointCode]) -> Option<(PointCode, PointCode)>
    requires { IsRising (λ p. p.code) points.now }
    ensures { IfSome result (λ p. mates points.now p.0 p.1 ≡ true) }
{
    match codes {
        [one, other] => {
            if is_mate(points, *one, *other) {
                return Some((*one, *other));
            }
            None
        }
        _ => None,
    }
}

/// What is told of a loop that was found. It is looked at first.
fn loop_fault(points: &[Point], dest: PointCode, rows: &[Row], codes: Vec<PointCode>) -> RankFault
    requires rising { IsRising (λ p. p.code) points.now }
    requires none { HasNoRanks points.now dest rows.now }
    ensures { IsRankFault points.now dest rows.now result }
{
    if let Some((one, other)) = mates_of(points, codes.as_slice()) {
        if is_loop(points, dest, rows, &[one, other]) {
            return RankFault::MateLoop(one, other);
        }
    }
    if is_loop(points, dest, rows, codes.as_slice()) {
        return RankFault::Loop(codes);
    }
    RankFault::TooDeep
}

/// Why rows have no ranks: a loop that is met where each row leads on to what it needs most, from the row at a place on.
pub(crate) fn rank_fault(
    alloc: Global,
    points: &[Point],
    dest: PointCode,
    rows: &[Row],
    needs: &[Need],
    ranks: &[u8],
    start: usize,
) -> Result<RankFault, AllocError>
    requires rising { IsRising (λ p. p.code) points.now }
    requires none { HasNoRanks points.now dest rows.now }
    ensures { IfOk result (IsRankFault points.now dest rows.now) }
{
    let path = walk(alloc, needs, ranks, start)?;
    let codes = codes_of(alloc, rows, path.as_slice())?;
    Ok(loop_fault(points, dest, rows, codes))
}
