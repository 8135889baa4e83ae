//! The keys of a network text.

ghost use Rattle.std.specs.Prelude.{◌≡◌, ◌≤◌, map, option_map, Ok, Err, IfOk, IfErr, codes, string_bytes};
ghost use Rattle.std.specs.List.{list_all};
ghost use Rattle.std.specs.BTreeMap.{keys};
ghost use Rattle.toml.specs.Data.{get_member, as_array};
ghost use Rattle.toml.specs.View.{view, table_view};
ghost use Rattle.net_text.specs.Keys.{unsigned, has_tfr, is_known, has_known_keys, unsigned_of, keys_format, format_from, ni_from, tfr_from, is_text, text_of, list_of, texts_in, texts_from, options_in, held_by, held};

use crate::faults::{Key, LoadFault};
use tokens::Format;
use toml::{Table, Value};

/// What the keys hold: the entries are arrays of strings.
#[derive(Drop)]
pub struct Fields<'a> {
    /// The format, 1 or 2.
    pub format: Format,
    /// The network indicator, 0 to 3.
    pub ni: u8,
    /// The option of the transfer-restricted procedure.
    pub tfr: bool,
    /// `CODE KIND`.
    pub points: &'a [Value],
    /// `CODE CODE`.
    pub pairs: &'a [Value],
    /// `ID CODE CODE MARKED MARKED ..`.
    pub sets: &'a [Value],
    /// `CODE ROW ROW ..`.
    pub plans: &'a [Value],
}

/// What the keys hold that hold no entries.
#[derive(Clone, Copy)]
struct Options {
    /// The format, 1 or 2.
    format: Format,
    /// The network indicator, 0 to 3.
    ni: u8,
    /// The option of the transfer-restricted procedure.
    tfr: bool,
}

/// Whether a format has the key `tfr`.
fn knows_tfr(format: Format) -> bool
    ensures { result ≡ has_tfr format }
{
    match format {
        Format::One => false,
        Format::Two => true,
    }
}

/// Whether a key is one of the table.
fn is_key(format: Format, key: &str) -> bool
    ensures { result ≡ is_known format key.now }
{
    key == "format"
        || key == "ni"
        || (key == "tfr" && knows_tfr(format))
        || key == "points"
        || key == "pairs"
        || key == "sets"
        || key == "plans"
}

/// Whether each of the map's keys is one of the table.
fn all_keys_known(format: Format, table: &Table) -> bool
    ensures { result ≡ list_all (λ key. is_known format (string_bytes key)) (keys table.now) }
{
    table.keys().all(|key| is_key(format, key.as_str()))
}

/// Whether each key of the document is one of the table.
fn has_only_keys(format: Format, table: &Table) -> bool
    ensures { result ≡ has_known_keys format (table_view table.now) }
{
    all_keys_known(format, table)
}

/// The value at a key.
fn value_at<'a>(table: &'a Table, key: &str) -> Option<&'a Value>
    ensures { option_map (λ v. view v.now) result ≡ get_member key.now (table_view table.entry.now) }
{
    table.get(key)
}

/// A number that isn't negative.
fn not_negative(n: i64) -> Option<u64>
    ensures { result ≡ unsigned n }
{
    if n < 0 {
        return None;
    }
    Some(n as u64)
}

/// The number at a key, if it holds one that isn't negative.
fn read_unsigned(table: &Table, key: &str) -> Option<u64>
    ensures { result ≡ unsigned_of (get_member key.now (table_view table.now)) }
{
    let value = value_at(table, key)?;
    not_negative(value.as_integer()?)
}

/// The format by which keys are known: 1 if it is the number 1, else 2.
fn read_keys_format(table: &Table) -> Format
    ensures { result ≡ keys_format (unsigned_of (get_member (codes "format") (table_view table.now))) }
{
    match read_unsigned(table, "format") {
        Some(n) => { if n == 1 { Format::One } else { Format::Two } }
        None => Format::Two,
    }
}

/// The format, 1 or 2. `BadKey(Format)` if it is neither.
fn read_format(table: &Table) -> Result<Format, LoadFault>
    ensures { result ≡ format_from (unsigned_of (get_member (codes "format") (table_view table.now))) }
{
    match read_unsigned(table, "format") {
        Some(n) => {
            if n == 1 {
                Ok(Format::One)
            } else if n == 2 {
                Ok(Format::Two)
            } else {
                Err(LoadFault::BadKey(Key::Format))
            }
        }
        None => Err(LoadFault::BadKey(Key::Format)),
    }
}

/// The network indicator, 0 to 3. `BadKey(Ni)` if it is missing or another value.
fn read_ni(table: &Table) -> Result<u8, LoadFault>
    ensures ni { IfOk result (λ n. n ≤ 3) }
    ensures answer { result ≡ ni_from (unsigned_of (get_member (codes "ni") (table_view table.now))) }
{
    match read_unsigned(table, "ni") {
        Some(n) => {
            if n <= 3 {
                Ok(n as u8)
            } else {
                Err(LoadFault::BadKey(Key::Ni))
            }
        }
        None => Err(LoadFault::BadKey(Key::Ni)),
    }
}

/// The option `tfr`, on where missing. `BadKey(Tfr)` if it is no truth value.
fn read_tfr(table: &Table) -> Result<bool, LoadFault>
    ensures { result ≡ tfr_from (get_member (codes "tfr") (table_view table.now)) }
{
    match value_at(table, "tfr") {
        Some(value) => match value.as_bool() {
            Some(tfr) => Ok(tfr),
            None => Err(LoadFault::BadKey(Key::Tfr)),
        },
        None => Ok(true),
    }
}

/// Whether each element is a string.
fn has_only_texts(values: &[Value]) -> bool
    ensures { result ≡ list_all (λ v. is_text (view v)) values.now }
{
    values.iter().all(|value| value.as_str().is_some())
}

/// The string that a value is, or nothing.
pub fn text_in(value: &Value) -> &str
    ensures { result.now ≡ text_of (view value.entry.now) }
{
    match value.as_str() {
        Some(text) => text,
        None => "",
    }
}

/// The elements of an array of strings. `BadKey` if the value is no such array.
fn read_texts(value: &Value, key: Key) -> Result<&[Value], LoadFault>
    ensures ok { IfOk result (λ values. texts_in key (option_map list_of (as_array (view value.entry.now))) ≡ Ok (map (λ v. text_of (view v)) values.now)) }
    ensures err { IfErr result (λ e. texts_in key (option_map list_of (as_array (view value.entry.now))) ≡ Err e) }
{
    let values = match value.as_array() {
        Some(values) => values,
        None => return Err(LoadFault::BadKey(key)),
    };
    let values = values.as_slice();
    if !has_only_texts(values) {
        return Err(LoadFault::BadKey(key));
    }
    Ok(values)
}

/// The elements of the array of strings at a key, none if it is missing.
fn texts_at<'a>(table: &'a Table, name: &str, key: Key) -> Result<&'a [Value], LoadFault>
    ensures ok { IfOk result (λ values. texts_from key (get_member name.now (table_view table.entry.now)) ≡ Ok (map (λ v. text_of (view v)) values.now)) }
    ensures err { IfErr result (λ e. texts_from key (get_member name.now (table_view table.entry.now)) ≡ Err e) }
{
    match value_at(table, name) {
        Some(value) => read_texts(value, key),
        None => Ok(&[]),
    }
}

/// The keys that hold no entries, or the first fault of one of them.
fn read_options(table: &Table) -> Result<Options, LoadFault>
    ensures ok { IfOk result (λ o. options_in (table_view table.now) ≡ Ok (o.format, o.ni, o.tfr)) }
    ensures ni { IfOk result (λ o. o.ni ≤ 3) }
    ensures err { IfErr result (λ e. options_in (table_view table.now) ≡ Err e) }
{
    // Not by `?`, over which the prover doesn't find the type of a refusal.
    let format = match read_format(table) {
        Ok(format) => format,
        Err(fault) => return Err(fault),
    };
    let ni = match read_ni(table) {
        Ok(ni) => ni,
        Err(fault) => return Err(fault),
    };
    match read_tfr(table) {
        Ok(tfr) => Ok(Options { format, ni, tfr }),
        Err(fault) => Err(fault),
    }
}

/// What the keys hold, or the first fault: an unknown key, then the keys in the order of the table.
pub fn read_fields(table: &Table) -> Result<Fields<'_>, LoadFault>
    ensures ok { IfOk result (λ fields. held_by (table_view table.entry.now) ≡ Ok (held fields)) }
    ensures ni { IfOk result (λ fields. fields.ni ≤ 3) }
    ensures err { IfErr result (λ e. held_by (table_view table.entry.now) ≡ Err e) }
{
    if !has_only_keys(read_keys_format(table), table) {
        return Err(LoadFault::BadKey(Key::Unknown));
    }
    let Options { format, ni, tfr } = read_options(table)?;
    let points = texts_at(table, "points", Key::Points)?;
    let pairs = texts_at(table, "pairs", Key::Pairs)?;
    let sets = texts_at(table, "sets", Key::Sets)?;
    let plans = texts_at(table, "plans", Key::Plans)?;
    Ok(Fields {
        format,
        ni,
        tfr,
        points,
        pairs,
        sets,
        plans,
    })
}
