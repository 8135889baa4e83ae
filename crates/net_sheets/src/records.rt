//! The records of a table in text.

ghost use Rattle.std.specs.Prelude.{◌≡◌, ◌<◌, ◌≤◌, ◌++◌, ◌∷◌, [], map, drop, length, true, false, vec_len, Ok, Some, None, IfOk, IfErr, IfSome, OnOk};
ghost use Rattle.std.specs.List.{All};
ghost use Rattle.csv.specs.Reading.{AreRecords, default_config, strip_bom, reader_trim, reader_config, reader_state, reader_headers, names_headers, source_of, owned_rows_reader, owned_rows_left};
ghost use Rattle.csv.specs.declared.reader.Trim.TheVariants as trim;
ghost use Rattle.csv.specs.Records.{Row, fields_of};
ghost use Rattle.csv.specs.declared.parser.State.TheVariants as st;
ghost use Rattle.net_sheets.specs.Records.{IsTable, field as the_field};
ghost use Rattle.net_sheets.specs.Faults.{IsTableFault};

use crate::faults::{Reason, SpotFault};
use crate::lists::push;
use crate::places::{Spot, start_of_text};
use csv::{ByteRecord, ByteRecordsIntoIter, Error, ErrorKind, Position, Reader, ReaderBuilder};
use std::alloc::Global;

/// A reader of a text, whose header is a record as others.
fn reader_of(alloc: Global, text: &[u8]) -> Reader<&[u8]>
    ensures trim { reader_trim result ≡ trim.None }
    ensures has_headers { names_headers result ≡ false }
    ensures headers { reader_headers result ≡ None }
    ensures config { reader_config result ≡ default_config }
    ensures state { reader_state result ≡ st.StartRecord }
    ensures source { source_of (λ s. Some s.now) result ≡ Some (strip_bom text.entry.now) }
{
    ReaderBuilder::new()
        .has_headers(false)
        .from_reader(alloc, text)
}

/// The records of a text in turn, the header among them.
fn records_of(alloc: Global, text: &[u8]) -> ByteRecordsIntoIter<&[u8]>
    ensures trim { reader_trim (owned_rows_reader result) ≡ trim.None }
    ensures has_headers { names_headers (owned_rows_reader result) ≡ false }
    ensures headers { reader_headers (owned_rows_reader result) ≡ None }
    ensures config { reader_config (owned_rows_reader result) ≡ default_config }
    ensures state { reader_state (owned_rows_reader result) ≡ st.StartRecord }
    ensures source { source_of (λ s. Some s.now) (owned_rows_reader result) ≡ Some (strip_bom text.entry.now) }
    ensures left { 0 < owned_rows_left result }
{
    reader_of(alloc, text).into_byte_records()
}

/// The spot of the record at a position, or the start of the text.
fn spot_at(position: Option<Position>) -> Spot {
    match position {
        Some(position) => Spot {
            byte: position.byte() as usize,
            field: 0,
        },
        None => start_of_text(),
    }
}

/// The spot of the record at a place, or of one of its fields, by its number from 1.
pub(crate) fn spot_of(table: &[ByteRecord], place: usize, field: u8) -> Spot {
    match table.get(place) {
        Some(record) => {
            let byte = spot_at(record.position()).byte;
            Spot { byte, field }
        }
        None => start_of_text(),
    }
}

/// The field at a place, or nothing.
pub(crate) fn field(record: &ByteRecord, place: usize) -> &[u8]
    ensures { result.now ≡ the_field (fields_of record.entry.now) place }
{
    match record.get(place) {
        Some(field) => field,
        None => &[],
    }
}

/// Whether a record is the header.
fn is_header(record: &ByteRecord, header: &[&[u8]]) -> bool
    ensures { result ≡ true → fields_of record.now ≡ map (λ name. name.now) header.now }
{
    if record.len() != header.len() {
        return false;
    }
    for (i, name) in header.iter().enumerate() {
        if field(record, i) != *name {
            return false;
        }
    }
    true
}

/// Reads the first record of a text. The answer is whether it could be read.
fn read_first(alloc: Global, text: &[u8], first: &mut ByteRecord) -> bool {
    reader_of(alloc, text).read_byte_record(first).is_ok()
}

/// Whether the first record of a text is the header, as far as it can be read.
fn begins_with(alloc: Global, text: &[u8], header: &[&[u8]]) -> bool {
    let mut first = ByteRecord::new(alloc);
    !read_first(alloc, text, &mut first) || is_header(&first, header)
}

/// Why a text isn't read as CSV.
#[derive(Clone, Copy)]
enum Misread {
    /// Memory was refused.
    Memory,
    /// At this spot it is no CSV.
    At(Spot),
}

/// What an error of reading CSV says.
fn cause_of(error: &Error) -> Misread {
    match error.kind() {
        ErrorKind::OutOfMemory => Misread::Memory,
        ErrorKind::UnequalLengths { pos, .. } => Misread::At(spot_at(*pos)),
        _ => Misread::At(start_of_text()),
    }
}

/// The fault of a text that isn't read as CSV.
fn fault_of(misread: Misread) -> SpotFault
    ensures { IsTableFault result.reason }
{
    match misread {
        Misread::Memory => SpotFault {
            spot: start_of_text(),
            reason: Reason::OutOfMemory,
        },
        Misread::At(spot) => SpotFault {
            spot,
            reason: Reason::Csv,
        },
    }
}

/// Adds a record that was read to others.
fn keep(rows: &mut Vec<ByteRecord>, row: Result<ByteRecord, Error>) -> Result<(), Misread>
    ensures { OnOk result ((r : Row) × (row ≡ Ok r) × (rows.new.items ≡ rows.old.items ++ r ∷ [])) }
{
    match row {
        Ok(row) => match rows.push(row) {
            Ok(()) => Ok(()),
            Err(_) => Err(Misread::Memory),
        },
        Err(error) => Err(cause_of(&error)),
    }
}

/// Adds the records of a text to an empty list.
fn read_all(alloc: Global, text: &[u8], rows: &mut Vec<ByteRecord>) -> Result<(), Misread>
    requires { rows.old.items ≡ [] }
    ensures { OnOk result (AreRecords default_config st.StartRecord (strip_bom text.now) (map fields_of rows.new.items)) }
{
    let mut read = Ok(());
    for row in records_of(alloc, text) {
        if read.is_ok() {
            read = keep(rows, row);
        }
    }
    read
}

/// The records of a text, the header among them. The error is `Csv` or `OutOfMemory`.
fn all_records(alloc: Global, text: &[u8]) -> Result<Vec<ByteRecord>, SpotFault>
    ensures err { IfErr result (λ fault. IsTableFault fault.reason) }
    ensures ok { IfOk result (λ v. AreRecords default_config st.StartRecord (strip_bom text.now) (map fields_of v.items)) }
{
    let mut rows = Vec::new(alloc);
    match read_all(alloc, text, &mut rows) {
        Ok(()) => Ok(rows),
        Err(misread) => Err(fault_of(misread)),
    }
}

/// The spot of the first record that doesn't have so many fields.
fn misfit(records: &[ByteRecord], width: usize) -> Option<Spot>
    ensures { result ≡ None → All (λ fields. length (fields_of fields) ≡ width) records.now }
{
    for record in records {
        if record.len() != width {
            return Some(spot_at(record.position()));
        }
    }
    None
}

/// What is wrong with the header or with the width of a record.
fn table_fault(table: &[ByteRecord], header: &[&[u8]]) -> Option<SpotFault>
    ensures some { result ≡ None → 1 ≤ length table.now }
    ensures header { result ≡ None → map fields_of table.now ≡ map (λ name. name.now) header.now ∷ map fields_of (drop 1 table.now) }
    ensures fault { IfSome result (λ fault. IsTableFault fault.reason) }
    ensures wide { result ≡ None → All (λ fields. length (fields_of fields) ≡ length header.now) (drop 1 table.now) }
{
    match table {
        [first, others @ ..] => {
            if !is_header(first, header) {
                return Some(SpotFault {
                    spot: spot_at(first.position()),
                    reason: Reason::Columns,
                });
            }
            match misfit(others, header.len()) {
                Some(spot) => Some(SpotFault {
                    spot,
                    reason: Reason::Csv,
                }),
                None => None,
            }
        }
        [] => Some(SpotFault {
            spot: start_of_text(),
            reason: Reason::Columns,
        }),
    }
}

/// The records of a table, its header, which is this one, among them. The error is `Csv`, `Columns` or `OutOfMemory`.
pub(crate) fn read_table(
    alloc: Global,
    text: &[u8],
    header: &[&[u8]],
) -> Result<Vec<ByteRecord>, SpotFault>
    ensures err { IfErr result (λ fault. IsTableFault fault.reason) }
    ensures some { IfOk result (λ table. 1 ≤ vec_len table) }
    ensures table { IfOk result (λ table. IsTable (map (λ name. name.now) header.now) text.now (map fields_of (drop 1 table.items))) }
{
    let table = match all_records(alloc, text) {
        Ok(table) => table,
        Err(fault) => {
            if begins_with(alloc, text, header) {
                return Err(fault);
            }
            return Err(SpotFault {
                spot: start_of_text(),
                reason: Reason::Columns,
            });
        }
    };
    match table_fault(table.as_slice(), header) {
        Some(fault) => Err(fault),
        None => Ok(table),
    }
}
