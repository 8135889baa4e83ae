//! The table of a network: its network indicator, the option of transfer-restricted messages, its plans without rows and ranks of rows.

ghost use Rattle.std.specs.Prelude.{◌≡◌, ◌<◌, ◌≤◌, ◌∷◌, ◌++◌, [], map, take, drop, length, slice_get, vec_len, option_map, Ok, Some, IfOk, IfErr};
ghost use Rattle.std.specs.Option.{IfSome};
ghost use Rattle.csv.specs.Records.{fields_of};
ghost use Rattle.net_sheets.specs.About.{network_header, flag_of, rank_in, plan_value_of, value_of, entry_of, entries_of, IsAbout};
ghost use Rattle.net_sheets.specs.Records.{IsTable};
ghost use Rattle.net_sheets.specs.Values.{all_read};
ghost use Rattle.net_sheets.specs.Faults.{IsTableFault, IsFieldFault, IsKeysFault, IsAboutFault};

use crate::faults::{Flaw, Reason, SpotFault};
use crate::lists::push;
use crate::places::{Spot, start_of_text};
use crate::records::{field, read_table, spot_of};
use crate::values::flaw_fault;
use csv::ByteRecord;
use plan_ranks::RowRank;
use point_codes::{PointCode, split_at_byte};
use std::alloc::Global;
use tokens::{read_code, read_rank, read_slc};

/// The network indicator of a network without such a table: national (Q.704 clause 14.2).
const NATIONAL: u8 = 2;

/// A record of the table.
#[derive(Clone, Copy)]
pub(crate) enum Entry {
    /// The network indicator.
    Ni(u8),
    /// The option of transfer-restricted messages.
    Tfr(bool),
    /// The destination of a plan without rows.
    Bare(PointCode),
    /// The rank of a row.
    Rank(RowRank),
}

/// What the table says.
#[derive(Drop)]
pub(crate) struct About {
    /// The network indicator.
    pub ni: u8,
    /// The option of transfer-restricted messages.
    pub tfr: bool,
    /// The destinations of the plans without rows.
    pub bare: Vec<PointCode>,
    /// The ranks of all rows, or none.
    pub ranks: Vec<RowRank>,
}

/// What `true` and `false` say.
fn read_flag(text: &[u8]) -> Option<bool>
    ensures { result ≡ flag_of text.now }
{
    if text == b"true".as_slice() {
        return Some(true);
    }
    if text == b"false".as_slice() {
        return Some(false);
    }
    None
}

/// The rank of a row: a destination, a point and a number between single spaces.
fn read_row_rank(text: &[u8]) -> Option<RowRank>
    ensures { result ≡ rank_in text.now }
{
    let (dest, rest) = split_at_byte(text, b' ')?;
    let (point, rank) = split_at_byte(rest, b' ')?;
    let dest = read_code(dest)?;
    let point = read_code(point)?;
    let rank = read_rank(rank)?;
    Some(RowRank { dest, point, rank })
}

/// What a key of plans and its value say. The error is the first flaw.
fn read_plan_value(key: &[u8], value: &[u8]) -> Result<Entry, Flaw>
    ensures { result ≡ plan_value_of key.now value.now }
{
    if key == b"plan".as_slice() {
        let dest = read_code(value).ok_or(Flaw::Column(2))?;
        return Ok(Entry::Bare(dest));
    }
    if key == b"rank".as_slice() {
        let rank = read_row_rank(value).ok_or(Flaw::Column(2))?;
        return Ok(Entry::Rank(rank));
    }
    Err(Flaw::Column(1))
}

/// What a key and its value say. The error is the first flaw.
fn read_value(key: &[u8], value: &[u8]) -> Result<Entry, Flaw>
    ensures { result ≡ value_of key.now value.now }
{
    if key == b"ni".as_slice() {
        let ni = read_slc(value).ok_or(Flaw::Column(2))?;
        return Ok(Entry::Ni(ni));
    }
    if key == b"tfr".as_slice() {
        let tfr = read_flag(value).ok_or(Flaw::Column(2))?;
        return Ok(Entry::Tfr(tfr));
    }
    read_plan_value(key, value)
}

/// A record of the table. The error is the first flaw.
fn read_entry(record: &ByteRecord) -> Result<Entry, Flaw>
    ensures { result ≡ entry_of (fields_of record.now) }
{
    read_value(field(record, 0), field(record, 1))
}

/// The records of the table.
fn read_entries(alloc: Global, table: &[ByteRecord]) -> Result<Vec<Entry>, SpotFault>
    ensures ok { IfOk result (λ entries. all_read entry_of (map fields_of table.now) ≡ Ok entries.items) }
    ensures err { IfErr result (λ fault. IsFieldFault (all_read entry_of (map fields_of table.now)) fault.reason) }
{
    let mut entries = Vec::new(alloc);
    for (i, record) in table.iter().enumerate() {
        match read_entry(record) {
            Ok(entry) => push(&mut entries, entry)?,
            Err(flaw) => return Err(flaw_fault(table, i, flaw)),
        }
    }
    Ok(entries)
}

/// The fault of keys that don't stand in their order, at a spot.
fn keys_fault(spot: Spot) -> SpotFault
    ensures { IsKeysFault result.reason }
{
    SpotFault {
        spot,
        reason: Reason::Keys,
    }
}

/// The destinations of the plans without rows with which these records begin.
fn read_bare(alloc: Global, entries: &[Entry]) -> Result<Vec<PointCode>, SpotFault>
    ensures told { IfOk result (λ bare. map Entry.Bare bare.items ≡ take (vec_len bare) entries.now) }
    ensures within { IfOk result (λ bare. vec_len bare ≤ length entries.now) }
    ensures err { IfErr result (λ fault. IsKeysFault fault.reason) }
{
    let mut bare = Vec::new(alloc);
    for entry in entries {
        match entry {
            Entry::Bare(dest) => push(&mut bare, *dest)?,
            _ => break,
        }
    }
    Ok(bare)
}

/// The ranks, which are all that these records say. The first of them has that place.
fn read_ranks(
    alloc: Global,
    table: &[ByteRecord],
    place: usize,
    entries: &[Entry],
) -> Result<Vec<RowRank>, SpotFault>
    ensures ok { IfOk result (λ ranks. map Entry.Rank ranks.items ≡ entries.now) }
    ensures err { IfErr result (λ fault. IsKeysFault fault.reason) }
{
    let mut ranks = Vec::new(alloc);
    for (i, entry) in entries.iter().enumerate() {
        match entry {
            Entry::Rank(rank) => push(&mut ranks, *rank)?,
            _ => return Err(keys_fault(spot_of(table, place.saturating_add(i), 0))),
        }
    }
    Ok(ranks)
}

/// The network indicator that the first record says.
fn ni_of(entries: &[Entry]) -> Option<u8>
    ensures { IfSome result (λ ni. slice_get entries.now 0 ≡ Some (Entry.Ni ni)) }
{
    match entries.get(0) {
        Some(Entry::Ni(ni)) => Some(*ni),
        _ => None,
    }
}

/// The option that the second record says.
fn tfr_of(entries: &[Entry]) -> Option<bool>
    ensures told { IfSome result (λ tfr. slice_get entries.now 1 ≡ Some (Entry.Tfr tfr)) }
    ensures two { IfSome result (λ _. 2 ≤ length entries.now) }
{
    match entries.get(1) {
        Some(Entry::Tfr(tfr)) => Some(*tfr),
        _ => None,
    }
}

/// The spot of the record at a place, or the end of the text if there is none.
fn spot_or_end(text: &[u8], table: &[ByteRecord], place: usize) -> Spot {
    if place < table.len() {
        return spot_of(table, place, 0);
    }
    let byte = text.len();
    Spot { byte, field: 0 }
}

/// What records of a text say: the network indicator, then the option, then plans without rows, then ranks.
fn about_from(
    alloc: Global,
    text: &[u8],
    table: &[ByteRecord],
    entries: &[Entry],
) -> Result<About, SpotFault>
    ensures ok { IfOk result (λ about. entries_of about.ni about.tfr about.bare.items about.ranks.items ≡ entries.now) }
    ensures small { IfOk result (λ about. about.ni < 4) }
    ensures err { IfErr result (λ fault. IsKeysFault fault.reason) }
{
    let Some(ni) = ni_of(entries) else {
        return Err(keys_fault(spot_or_end(text, table, 0)));
    };
    let Some(tfr) = tfr_of(entries) else {
        return Err(keys_fault(spot_or_end(text, table, 1)));
    };
    if ni > 3 {
        let spot = spot_of(table, 0, 2);
        let reason = Reason::Indicator;
        return Err(SpotFault { spot, reason });
    }
    let others = &entries[2..];
    let bare = read_bare(alloc, others)?;
    let count = bare.len();
    let ranks = read_ranks(alloc, table, count.saturating_add(2), &others[count..])?;
    Ok(About {
        ni,
        tfr,
        bare,
        ranks,
    })
}

/// The records of the table, its header among them.
fn read_network_table(alloc: Global, text: &[u8]) -> Result<Vec<ByteRecord>, SpotFault>
    ensures err { IfErr result (λ fault. IsTableFault fault.reason) }
    ensures some { IfOk result (λ table. 1 ≤ vec_len table) }
    ensures table { IfOk result (λ table. IsTable network_header text.now (map fields_of (drop 1 table.items))) }
{
    let header = [b"key".as_slice(), b"value".as_slice()];
    read_table(alloc, text, &header)
}

/// What the text of the table says.
fn about_in(alloc: Global, text: &[u8]) -> Result<About, SpotFault>
    ensures ok { IfOk result (λ about. IsAbout (Some text.now) about.ni about.tfr about.bare.items about.ranks.items) }
    ensures small { IfOk result (λ about. about.ni < 4) }
    ensures err { IfErr result (λ fault. IsAboutFault (Some text.now) fault.reason) }
{
    let table = read_network_table(alloc, text)?;
    let records = &table[1..];
    let entries = read_entries(alloc, records)?;
    about_from(alloc, text, records, entries.as_slice())
}

/// What the table says, or what holds where there is none.
pub(crate) fn read_about(alloc: Global, text: Option<&[u8]>) -> Result<About, SpotFault>
    ensures ok { IfOk result (λ about. IsAbout (option_map (λ t. t.now) text.entry) about.ni about.tfr about.bare.items about.ranks.items) }
    ensures small { IfOk result (λ about. about.ni < 4) }
    ensures err { IfErr result (λ fault. IsAboutFault (option_map (λ t. t.now) text.entry) fault.reason) }
{
    match text {
        Some(text) => about_in(alloc, text),
        None => Ok(About {
            ni: NATIONAL,
            tfr: true,
            bare: Vec::new(alloc),
            ranks: Vec::new(alloc),
        }),
    }
}

/// The spot of the value at a place among those behind the network indicator and the option, or the end of the text if there is none.
/// The table is read again, since this is asked of one that is refused.
pub(crate) fn spot_of_value(alloc: Global, text: Option<&[u8]>, place: usize) -> Spot {
    let Some(text) = text else {
        return start_of_text();
    };
    let Ok(table) = read_network_table(alloc, text) else {
        return start_of_text();
    };
    let place = place.saturating_add(3);
    if place < table.len() {
        return spot_of(table.as_slice(), place, 2);
    }
    let byte = text.len();
    Spot { byte, field: 0 }
}
