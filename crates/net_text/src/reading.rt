//! Reading a network text.

ghost use Rattle.std.specs.Prelude.{◌≡◌, ◌≢◌, ◌≤◌, map, Some, Ok, Err, IfOk, IfErr, OnOk, unwrap_or, codes};
ghost use Rattle.toml.specs.Data.{no_items, get_member, as_array};
ghost use Rattle.toml.specs.View.{view, table_view, items_view};
ghost use Rattle.net_text.specs.Keys.{Held, held, held_by, text_of, texts_from};
ghost use Rattle.net_text.specs.Entries.{entry_of};
ghost use Rattle.net_text.specs.Reading.{IsDocument, Says, network_of, apply_entry as entry_applied, apply_entries as entries_applied, apply_parts as parts_applied, start as started};

use crate::entries::read_entry;
use crate::faults::{Key, LoadFault};
use crate::keys::{Fields, read_fields, text_in};
use net_building::apply_events;
use net_data::{Event, Net, Refusal};
use std::alloc::Global;
use tokens::Format;
use toml::{Table, Value};

/// Applies one entry: `BadLine` if it can't be read, `Refused` where an event of it is refused.
fn apply_entry(
    alloc: Global,
    net: &mut Net,
    key: Key,
    format: Format,
    place: usize,
    text: &[u8],
) -> Result<(), LoadFault>
    ensures ok { OnOk result (entry_applied key place net.old (entry_of key format text.now) ≡ Ok net.new) }
    ensures err { IfErr result (λ e. e ≢ LoadFault.OutOfMemory → entry_applied key place net.old (entry_of key format text.now) ≡ Err e) }
{
    let events = match read_entry(alloc, key, format, text) {
        Ok(Some(events)) => events,
        Ok(None) => return Err(LoadFault::BadLine(key, place)),
        Err(_) => return Err(LoadFault::OutOfMemory),
    };
    match apply_events(alloc, net, events) {
        Ok(()) => Ok(()),
        Err(Refusal::OutOfMemory) => Err(LoadFault::OutOfMemory),
        Err(refusal) => Err(LoadFault::Refused(key, place, refusal)),
    }
}

/// Applies the entries of an array, up to the first fault.
fn apply_entries(
    alloc: Global,
    net: &mut Net,
    key: Key,
    format: Format,
    values: &[Value],
) -> Result<(), LoadFault>
    ensures ok { OnOk result (entries_applied key format 1 net.old (map (λ v. text_of (view v)) values.now) ≡ Ok net.new) }
    ensures err { IfErr result (λ e. e ≢ LoadFault.OutOfMemory → entries_applied key format 1 net.old (map (λ v. text_of (view v)) values.now) ≡ Err e) }
{
    for (i, value) in values.iter().enumerate() {
        if let Err(fault) = apply_entry(alloc, net, key, format, i + 1, text_in(value).as_bytes()) {
            return Err(fault);
        }
    }
    Ok(())
}

/// The empty network with its network indicator and its option `tfr`.
fn start(alloc: Global, fields: &Fields) -> Result<Net, LoadFault>
    requires { fields.now.ni ≤ 3 }
    ensures ok { IfOk result (λ net. net ≡ started (held fields.now)) }
    ensures err { IfErr result (λ e. e ≡ LoadFault.OutOfMemory) }
{
    let mut net = Net::empty(alloc, fields.ni);
    match net.apply(alloc, &Event::SetTfr(fields.tfr)) {
        Ok(()) => Ok(net),
        Err(_) => Err(LoadFault::OutOfMemory),
    }
}

/// Applies the entries of the arrays before the plans, in their order, up to the first fault.
fn apply_parts(alloc: Global, net: &mut Net, fields: &Fields) -> Result<(), LoadFault>
    ensures ok { OnOk result (parts_applied (held fields.now) net.old ≡ Ok net.new) }
    ensures err { IfErr result (λ e. e ≢ LoadFault.OutOfMemory → parts_applied (held fields.now) net.old ≡ Err e) }
{
    if let Err(fault) = apply_entries(alloc, net, Key::Points, fields.format, fields.points) {
        return Err(fault);
    }
    if let Err(fault) = apply_entries(alloc, net, Key::Pairs, fields.format, fields.pairs) {
        return Err(fault);
    }
    apply_entries(alloc, net, Key::Sets, fields.format, fields.sets)
}

/// The elements of a value that is given away, none if it isn't an array.
fn elements_of(alloc: Global, value: Value) -> Vec<Value>
    ensures { items_view result.items ≡ unwrap_or (as_array (view value)) no_items }
{
    match value {
        Value::Array(values) => values,
        _ => Vec::new(alloc),
    }
}

/// The elements of the array at `plans` of a table that is given away, none if it is missing. The rest of the table is
/// given back.
fn take_plans(alloc: Global, mut table: Table) -> Vec<Value>
    ensures { IfOk (texts_from Key.Plans (get_member (codes "plans") (table_view table))) (λ texts. map (λ v. text_of (view v)) result.items ≡ texts) }
{
    match table.remove("plans") {
        Some(value) => elements_of(alloc, value),
        None => Vec::new(alloc),
    }
}

/// Applies the entries of an array that is given away, up to the first fault. Each value is given back once it is
/// applied, so that its memory serves what the next ones add.
fn apply_owned_entries(
    alloc: Global,
    net: &mut Net,
    key: Key,
    format: Format,
    values: Vec<Value>,
) -> Result<(), LoadFault>
    ensures ok { OnOk result (entries_applied key format 1 net.old (map (λ v. text_of (view v)) values.items) ≡ Ok net.new) }
    ensures err { IfErr result (λ e. e ≢ LoadFault.OutOfMemory → entries_applied key format 1 net.old (map (λ v. text_of (view v)) values.items) ≡ Err e) }
{
    for (i, value) in values.into_iter().enumerate() {
        let text = text_in(&value).as_bytes();
        if let Err(fault) = apply_entry(alloc, net, key, format, i + 1, text) {
            return Err(fault);
        }
    }
    Ok(())
}

/// What a document says without its plans, and its format: all keys are read before the first entry.
fn read_parts(alloc: Global, table: &Table) -> Result<(Net, Format), LoadFault>
    ensures ok { IfOk result (λ r. (h : Held) × (held_by (table_view table.now) ≡ Ok h) × (h.format ≡ r.1) × (parts_applied h (started h) ≡ Ok r.0)) }
    ensures err { IfErr result (λ e. e ≢ LoadFault.OutOfMemory → network_of (table_view table.now) ≡ Err e) }
{
    let fields = read_fields(table)?;
    let mut net = start(alloc, &fields)?;
    apply_parts(alloc, &mut net, &fields)?;
    Ok((net, fields.format))
}

/// What a document says. Each plan is given back once it is applied, and the rest of the document before the first plan.
fn read_table(alloc: Global, table: Table) -> Result<Net, LoadFault>
    ensures ok { IfOk result (λ net. network_of (table_view table) ≡ Ok net) }
    ensures err { IfErr result (λ e. e ≢ LoadFault.OutOfMemory → network_of (table_view table) ≡ Err e) }
{
    let (mut net, format) = read_parts(alloc, &table)?;
    let plans = take_plans(alloc, table);
    apply_owned_entries(alloc, &mut net, Key::Plans, format, plans)?;
    Ok(net)
}

/// The document that a text is.
fn parse(alloc: Global, text: &[u8]) -> Result<Table, LoadFault>
    ensures ok { IfOk result (λ table. IsDocument text.now (Some (table_view table))) }
    ensures err { IfErr result (λ e. e ≢ LoadFault.OutOfMemory → Says text.now (Err e)) }
    ensures never_read { result ≢ Err LoadFault.Read }
{
    match toml::table_from_slice(alloc, text) {
        Ok(table) => Ok(table),
        Err(e) => {
            if e.is_memory() {
                return Err(LoadFault::OutOfMemory);
            }
            Err(LoadFault::NotToml)
        }
    }
}

/// The network that a text says. The error is the text's first fault: `NotToml`, `BadKey`, `BadLine` or `Refused`, in the
/// order of the crate's rules, or `OutOfMemory`; never `Read`.
pub fn load(alloc: Global, text: &[u8]) -> Result<Net, LoadFault>
    ensures ok { IfOk result (λ net. Says text.now (Ok net)) }
    ensures err { IfErr result (λ e. e ≢ LoadFault.OutOfMemory → Says text.now (Err e)) }
    ensures never_read { result ≢ Err LoadFault.Read }
{
    let table = parse(alloc, text)?;
    read_table(alloc, table)
}

/// The same of a text that is given away, so that its memory serves the network.
pub fn load_owned(alloc: Global, text: Vec<u8>) -> Result<Net, LoadFault>
    ensures ok { IfOk result (λ net. Says text.items (Ok net)) }
    ensures err { IfErr result (λ e. e ≢ LoadFault.OutOfMemory → Says text.items (Err e)) }
    ensures never_read { result ≢ Err LoadFault.Read }
{
    let table = parse(alloc, text.as_slice())?;
    drop(text);
    read_table(alloc, table)
}
