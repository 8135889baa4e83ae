//! The rows of plans, from their ways.

ghost use Rattle.std.specs.Prelude.{◌≡◌, ◌<◌, ◌≤◌, ◌-◌, List, map, take, drop, length, true, IfOk, IfErr, [], ◌∷◌, ◌++◌, ◌+◌};
ghost use Rattle.std.specs.List.{flat_map};
ghost use Rattle.std.specs.Option.{IfSome};
ghost use Rattle.net_sheets.specs.declared.routes.Route.{Route};
ghost use Rattle.net_sheets.specs.Tables.{class_routes, row_routes};
ghost use Rattle.net_sheets.specs.Faults.{is_via_of as a_via_of, is_via_at as a_via_at, are_two_before as two_before, is_third_way as a_third_way, is_third as a_third, IsRowsFault};

use crate::faults::{Reason, SpotFault};
use crate::lists::push;
use crate::records::spot_of;
use crate::routes::Route;
use csv::ByteRecord;
use net_items::{Classes, Row, Vias};
use point_codes::PointCode;
use std::alloc::{AllocError, Global};

/// The destination of a way.
pub(crate) fn dest_of(route: &Route) -> PointCode {
    match route {
        Route::Via(dest, _, _, _) => *dest,
        Route::Mate(dest, _) => *dest,
    }
}

/// The point of a way.
pub(crate) fn point_of(route: &Route) -> PointCode {
    match route {
        Route::Via(_, point, _, _) => *point,
        Route::Mate(_, point) => *point,
    }
}

/// The via of a way, if it is of this destination, point and class.
fn via_of(route: &Route, dest: PointCode, point: PointCode, class: usize) -> Option<PointCode>
    ensures { IfSome result (λ z. route.now ≡ Route.Via dest point class z) }
{
    match route {
        Route::Via(to, from, number, via) => {
            if *to == dest && *from == point && *number == class {
                return Some(*via);
            }
            None
        }
        Route::Mate(_, _) => None,
    }
}

/// Whether a way is that over the mate.
fn is_mate(route: &Route, dest: PointCode, point: PointCode) -> bool
    ensures { result ≡ true → route.now ≡ Route.Mate dest point }
{
    match route {
        Route::Via(_, _, _, _) => false,
        Route::Mate(to, from) => *to == dest && *from == point,
    }
}

/// The vias of the first ways, as far as they are of this class.
fn take_class(
    alloc: Global,
    dest: PointCode,
    point: PointCode,
    class: usize,
    routes: &[Route],
) -> Result<Vec<PointCode>, AllocError>
    ensures within { IfOk result (λ vias. length vias.items ≤ length routes.now) }
    ensures vias { IfOk result (λ vias. map (Route.Via dest point class) vias.items ≡ take (length vias.items) routes.now) }
{
    let mut vias = Vec::new(alloc);
    for route in routes {
        match via_of(route, dest, point, class) {
            Some(via) => vias.push(via)?,
            None => return Ok(vias),
        }
    }
    Ok(vias)
}

/// The classes of the first ways, as far as they are of this row, and how many ways those are.
fn take_classes(
    alloc: Global,
    dest: PointCode,
    point: PointCode,
    routes: &[Route],
) -> Result<(Vec<Vias>, usize), AllocError>
    ensures within { IfOk result (λ p. p.1 ≤ length routes.now) }
    ensures classes { IfOk result (λ p. class_routes dest point 1 p.0.items ≡ take p.1 routes.now) }
{
    let mut classes = Vec::new(alloc);
    let mut count = 0;
    while count < routes.len() {
        let class = classes.len() + 1;
        let vias = take_class(alloc, dest, point, class, &routes[count..])?;
        if vias.is_empty() {
            return Ok((classes, count));
        }
        count += vias.len();
        classes.push(Vias::from_slice(alloc, vias.as_slice())?)?;
    }
    Ok((classes, count))
}

/// Whether the way at a place is that over the mate.
fn is_mate_at(routes: &[Route], place: usize, dest: PointCode, point: PointCode) -> bool
    ensures within { result ≡ true → place < length routes.now }
    ensures mate { result ≡ true → take (place + 1) routes.now ≡ take place routes.now ++ Route.Mate dest point ∷ [] }
{
    match routes.get(place) {
        Some(route) => is_mate(route, dest, point),
        None => false,
    }
}

/// These classes. One of them, as most rows have, needs no memory.
fn classes_from(alloc: Global, mut list: Vec<Vias>) -> Result<Classes, AllocError>
    ensures { IfOk result (λ classes. classes ≡ list.items) }
{
    match list.pop() {
        Some(last) => {
            if list.is_empty() {
                return Ok(Classes::of_one(last));
            }
            list.push(last)?;
            Classes::from_vec(alloc, list)
        }
        None => Ok(Classes::new()),
    }
}

/// The row of this point that the first ways say, and how many ways it has.
fn read_row(
    alloc: Global,
    dest: PointCode,
    point: PointCode,
    routes: &[Route],
) -> Result<(Row, usize), AllocError>
    ensures within { IfOk result (λ p. p.1 ≤ length routes.now) }
    ensures row { IfOk result (λ p. row_routes dest p.0 ≡ take p.1 routes.now) }
{
    let (classes, count) = take_classes(alloc, dest, point, routes)?;
    let mate = is_mate_at(routes, count, dest, point);
    let row = Row {
        point,
        rank: 0,
        mate,
        classes: classes_from(alloc, classes)?,
    };
    if mate {
        return Ok((row, count + 1));
    }
    Ok((row, count))
}

/// Whether a way is a via of this class of this row.
fn is_via_of(route: &Route, dest: PointCode, point: PointCode, class: usize) -> bool
    ensures { result ≡ a_via_of dest point class route.now }
{
    match route {
        Route::Via(to, from, number, _) => *to == dest && *from == point && *number == class,
        Route::Mate(_, _) => false,
    }
}

/// Whether the way at a place is a via of this class of this row.
fn is_via_at(
    routes: &[Route],
    place: usize,
    dest: PointCode,
    point: PointCode,
    class: usize,
) -> bool
    ensures { result ≡ a_via_at routes.now place dest point class }
{
    match routes.get(place) {
        Some(route) => is_via_of(route, dest, point, class),
        None => false,
    }
}

/// Whether the two ways before a place are vias of this class of this row.
fn are_two_before(
    routes: &[Route],
    place: usize,
    dest: PointCode,
    point: PointCode,
    class: usize,
) -> bool
    ensures { result ≡ two_before routes.now place dest point class }
{
    place >= 2
        && is_via_at(routes, place - 2, dest, point, class)
        && is_via_at(routes, place - 1, dest, point, class)
}

/// Whether a way at a place is a third via of its class.
fn is_third_way(routes: &[Route], place: usize, route: &Route) -> bool
    ensures { result ≡ a_third_way routes.now place route.now }
{
    match route {
        Route::Via(dest, point, class, _) => are_two_before(routes, place, *dest, *point, *class),
        Route::Mate(_, _) => false,
    }
}

/// Whether at a place stands a third via of its class.
fn is_third(routes: &[Route], place: usize) -> bool
    ensures { result ≡ a_third routes.now place }
{
    match routes.get(place) {
        Some(route) => is_third_way(routes, place, route),
        None => false,
    }
}

/// The place of the first third via of a class, among the ways from one place to another.
fn third_via(routes: &[Route], start: usize, end: usize) -> Option<usize>
    ensures { IfSome result (λ place. a_third routes.now place ≡ true) }
{
    for place in start..end {
        if is_third(routes, place) {
            return Some(place);
        }
    }
    None
}

/// What is wrong with one more row of a point after these, if anything: the point has one of them.
fn order_fault(rows: &[Row], point: PointCode) -> Option<Reason>
    ensures { (routes : List Route) → IfSome result (IsRowsFault routes) }
{
    if !rows.iter().any(|row| row.point == point) {
        return None;
    }
    match rows.last() {
        Some(last) if last.point == point => Some(Reason::ClassOrder),
        _ => Some(Reason::SplitPoint),
    }
}

/// The row after these that the ways from a place on say, and how many ways it has.
fn next_row(
    alloc: Global,
    table: &[ByteRecord],
    routes: &[Route],
    rows: &[Row],
    dest: PointCode,
    at: usize,
) -> Result<(Row, usize), SpotFault>
    requires { at < length routes.now }
    ensures err { IfErr result (λ fault. IsRowsFault routes.now fault.reason) }
    ensures some { IfOk result (λ p. 0 < p.1) }
    ensures within { IfOk result (λ p. at + p.1 ≤ length routes.now) }
    ensures row { IfOk result (λ p. row_routes dest p.0 ≡ take p.1 (drop at routes.now)) }
{
    let point = point_of(&routes[at]);
    if let Some(reason) = order_fault(rows, point) {
        let spot = spot_of(table, at, 0);
        return Err(SpotFault { spot, reason });
    }
    let (row, count) = read_row(alloc, dest, point, &routes[at..])?;
    if count == 0 {
        let spot = spot_of(table, at, 0);
        let reason = Reason::ClassOrder;
        return Err(SpotFault { spot, reason });
    }
    if let Some(third) = third_via(routes, at, at + count) {
        let spot = spot_of(table, third, 0);
        let reason = Reason::ThirdVia;
        return Err(SpotFault { spot, reason });
    }
    Ok((row, count))
}

/// The rows of a plan that the ways from a place on say, and the place after the plan.
pub(crate) fn read_rows(
    alloc: Global,
    table: &[ByteRecord],
    routes: &[Route],
    dest: PointCode,
    start: usize,
) -> Result<(Vec<Row>, usize), SpotFault>
    requires { start < length routes.now }
    ensures err { IfErr result (λ fault. IsRowsFault routes.now fault.reason) }
    ensures after { IfOk result (λ p. start < p.1) }
    ensures within { IfOk result (λ p. p.1 ≤ length routes.now) }
    ensures some { IfOk result (λ p. 0 < length p.0.items) }
    ensures rows { IfOk result (λ p. take start routes.now ++ flat_map (row_routes dest) p.0.items ≡ take p.1 routes.now) }
{
    let mut rows = Vec::new(alloc);
    let mut at = start;
    while at < routes.len() {
        let (row, count) = next_row(alloc, table, routes, rows.as_slice(), dest, at)?;
        push(&mut rows, row)?;
        at += count;
        if !is_of(routes, at, dest) {
            return Ok((rows, at));
        }
    }
    Ok((rows, at))
}

/// Whether the way at a place is of this destination.
fn is_of(routes: &[Route], place: usize, dest: PointCode) -> bool {
    match routes.get(place) {
        Some(route) => dest_of(route) == dest,
        None => false,
    }
}
