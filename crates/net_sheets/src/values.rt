//! What the records of the tables say.

ghost use Rattle.std.specs.Prelude.{◌≡◌, map, option_map, Ok, IfOk, IfErr};
ghost use Rattle.csv.specs.Records.{fields_of};
ghost use Rattle.tokens.specs.Marked.{marked_of};
ghost use Rattle.tokens.specs.Pieces.{pieces_of};
ghost use Rattle.tokens.specs.declared.marked.Format.TheVariants.{Two};
ghost use Rattle.net_sheets.specs.Records.{field as the_field};
ghost use Rattle.net_sheets.specs.Values.{mate_in, point_of, set_of, class_in, way_of, route_of, all_read};
ghost use Rattle.net_sheets.specs.Faults.{IsFieldFault, reason_of};

use crate::faults::{Flaw, Reason, SpotFault};
use crate::lists::push;
use crate::records::{field, spot_of};
use crate::routes::Route;
use csv::ByteRecord;
use net_building::GivenSet;
use net_items::{Link, Point};
use point_codes::{PointCode, read_number, split_at_byte};
use std::alloc::{AllocError, Global};
use tokens::{Format, read_code, read_id, read_kind, read_marked};

/// A code, or nothing. `None` if it is neither.
fn read_mate(text: &[u8]) -> Option<Option<PointCode>>
    ensures { result ≡ mate_in text.now }
{
    if text.is_empty() {
        return Some(None);
    }
    match read_code(text) {
        Some(code) => Some(Some(code)),
        None => None,
    }
}

/// A record of the table of points. The error is the first flaw.
fn read_point(record: &ByteRecord) -> Result<Point, Flaw>
    ensures { result ≡ point_of (fields_of record.now) }
{
    let code = read_code(field(record, 0)).ok_or(Flaw::Column(1))?;
    let kind = read_kind(field(record, 1)).ok_or(Flaw::Column(2))?;
    let mate = read_mate(field(record, 2)).ok_or(Flaw::Column(3))?;
    Ok(Point { code, kind, mate })
}

/// Links with their marks, between single spaces. `None` if a word is no MARKED.
fn read_links(alloc: Global, text: &[u8]) -> Result<Option<Vec<Link>>, AllocError>
    ensures { IfOk result (λ links. option_map (λ v. v.items) links ≡ pieces_of 32 (marked_of Two) text.now) }
{
    let mut links = Vec::new(alloc);
    let mut rest = text;
    while let Some((first, after)) = split_at_byte(rest, b' ') {
        match read_marked(Format::Two, first) {
            Some(link) => links.push(link)?,
            None => return Ok(None),
        }
        rest = after;
    }
    match read_marked(Format::Two, rest) {
        Some(link) => links.push(link)?,
        None => return Ok(None),
    }
    Ok(Some(links))
}

/// The set of a record with these links. The error is the first flaw.
fn set_with(record: &ByteRecord, links: Option<Vec<Link>>) -> Result<GivenSet, Flaw>
    ensures { option_map (λ v. v.items) links ≡ pieces_of 32 (marked_of Two) (the_field (fields_of record.now) 3) → result ≡ set_of (fields_of record.now) }
{
    let id = read_id(field(record, 0)).ok_or(Flaw::Column(1))?;
    let a = read_code(field(record, 1)).ok_or(Flaw::Column(2))?;
    let b = read_code(field(record, 2)).ok_or(Flaw::Column(3))?;
    let links = links.ok_or(Flaw::Column(4))?;
    Ok(GivenSet::new(id, a, b, links))
}

/// A class from 1 to 4.
fn read_class(text: &[u8]) -> Result<usize, Flaw>
    ensures { result ≡ class_in text.now }
{
    if text == b"5".as_slice() {
        return Err(Flaw::FifthClass);
    }
    let class = read_number(text, 4).ok_or(Flaw::Column(3))?;
    if class == 0 {
        return Err(Flaw::Column(3));
    }
    Ok(class as usize)
}

/// The way that a class and a via say. The error is the first flaw.
fn read_way(dest: PointCode, point: PointCode, class: &[u8], via: &[u8]) -> Result<Route, Flaw>
    ensures { result ≡ way_of dest point class.now via.now }
{
    if class == b"mate".as_slice() {
        if via.is_empty() {
            return Ok(Route::Mate(dest, point));
        }
        return Err(Flaw::Column(4));
    }
    let class = read_class(class)?;
    let via = read_code(via).ok_or(Flaw::Column(4))?;
    Ok(Route::Via(dest, point, class, via))
}

/// A record of the table of routes. The error is the first flaw.
fn read_route(record: &ByteRecord) -> Result<Route, Flaw>
    ensures { result ≡ route_of (fields_of record.now) }
{
    let dest = read_code(field(record, 0)).ok_or(Flaw::Column(1))?;
    let point = read_code(field(record, 1)).ok_or(Flaw::Column(2))?;
    read_way(dest, point, field(record, 2), field(record, 3))
}

/// The fault of the record at a place that says nothing.
pub(crate) fn flaw_fault(table: &[ByteRecord], place: usize, flaw: Flaw) -> SpotFault
    ensures { result.reason ≡ reason_of flaw }
{
    match flaw {
        Flaw::Column(column) => SpotFault {
            spot: spot_of(table, place, column),
            reason: Reason::Field(column),
        },
        Flaw::FifthClass => SpotFault {
            spot: spot_of(table, place, 3),
            reason: Reason::FifthClass,
        },
    }
}

/// The points of records.
pub(crate) fn read_points(alloc: Global, table: &[ByteRecord]) -> Result<Vec<Point>, SpotFault>
    ensures ok { IfOk result (λ points. all_read point_of (map fields_of table.now) ≡ Ok points.items) }
    ensures err { IfErr result (λ fault. IsFieldFault (all_read point_of (map fields_of table.now)) fault.reason) }
{
    let mut points = Vec::new(alloc);
    for (i, record) in table.iter().enumerate() {
        match read_point(record) {
            Ok(point) => push(&mut points, point)?,
            Err(flaw) => return Err(flaw_fault(table, i, flaw)),
        }
    }
    Ok(points)
}

/// The sets of records.
pub(crate) fn read_sets(alloc: Global, table: &[ByteRecord]) -> Result<Vec<GivenSet>, SpotFault>
    ensures ok { IfOk result (λ sets. all_read set_of (map fields_of table.now) ≡ Ok sets.items) }
    ensures err { IfErr result (λ fault. IsFieldFault (all_read set_of (map fields_of table.now)) fault.reason) }
{
    let mut sets = Vec::new(alloc);
    for (i, record) in table.iter().enumerate() {
        let links = read_links(alloc, field(record, 3))?;
        match set_with(record, links) {
            Ok(set) => push(&mut sets, set)?,
            Err(flaw) => return Err(flaw_fault(table, i, flaw)),
        }
    }
    Ok(sets)
}

/// The ways of records.
pub(crate) fn read_routes(alloc: Global, table: &[ByteRecord]) -> Result<Vec<Route>, SpotFault>
    ensures ok { IfOk result (λ routes. all_read route_of (map fields_of table.now) ≡ Ok routes.items) }
    ensures err { IfErr result (λ fault. IsFieldFault (all_read route_of (map fields_of table.now)) fault.reason) }
{
    let mut routes = Vec::new(alloc);
    for (i, record) in table.iter().enumerate() {
        match read_route(record) {
            Ok(route) => push(&mut routes, route)?,
            Err(flaw) => return Err(flaw_fault(table, i, flaw)),
        }
    }
    Ok(routes)
}
