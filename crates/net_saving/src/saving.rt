//! The document of a network, and its text.

ghost use Rattle.std.specs.Prelude.{◌≡◌, map, pos, true, Ok, IfOk, OnOk, string_bytes};
ghost use Rattle.toml.specs.Data.{integer, boolean};
ghost use Rattle.toml.specs.View.{view, table_view};
ghost use Rattle.net_text.specs.Reading.{Says};
ghost use Rattle.net_saving.specs.Writing.{insert_member, insert_array, insert_points, insert_pairs, insert_sets, insert_plans, insert_arrays, document_of};

use crate::entries::{write_pairs, write_plans, write_points, write_sets};
use crate::layout::lay_out;
use net_data::{Net, Plans};
use net_items::{LinkSet, Point};
use net_text::load;
use std::alloc::{AllocError, Global};
use toml::{Table, Value};

/// Sets a key.
fn put(alloc: Global, table: &mut Table, key: &str, value: Value) -> Result<(), AllocError>
    ensures { OnOk result (table_view table.new ≡ insert_member key.now (view value) (table_view table.old)) }
{
    let key = String::from_str(alloc, key)?;
    match table.insert(key, value) {
        Ok(_) => Ok(()),
        Err(_) => Err(AllocError),
    }
}

/// Sets a key to a number.
fn put_number(alloc: Global, table: &mut Table, key: &str, n: u8) -> Result<(), AllocError>
    ensures { OnOk result (table_view table.new ≡ insert_member key.now (integer (pos n)) (table_view table.old)) }
{
    put(alloc, table, key, Value::Integer(i64::from(n)))
}

/// Sets a key to a truth value.
fn put_truth(alloc: Global, table: &mut Table, key: &str, truth: bool) -> Result<(), AllocError>
    ensures { OnOk result (table_view table.new ≡ insert_member key.now (boolean truth) (table_view table.old)) }
{
    put(alloc, table, key, Value::Boolean(truth))
}

/// Sets a key to an array, if it has elements.
fn put_array(
    alloc: Global,
    table: &mut Table,
    key: &str,
    values: Vec<Value>,
) -> Result<(), AllocError>
    ensures { OnOk result (table_view table.new ≡ insert_array key.now (map view values.items) (table_view table.old)) }
{
    if values.is_empty() {
        return Ok(());
    }
    put(alloc, table, key, Value::Array(values))
}

/// Sets the key of the points.
fn put_points(alloc: Global, table: &mut Table, points: &[Point]) -> Result<(), AllocError>
    ensures { OnOk result (table_view table.new ≡ insert_points points.now (table_view table.old)) }
{
    let values = write_points(alloc, points)?;
    put_array(alloc, table, "points", values)
}

/// Sets the key of the mated pairs.
fn put_pairs(alloc: Global, table: &mut Table, points: &[Point]) -> Result<(), AllocError>
    ensures { OnOk result (table_view table.new ≡ insert_pairs points.now (table_view table.old)) }
{
    let values = write_pairs(alloc, points)?;
    put_array(alloc, table, "pairs", values)
}

/// Sets the key of the sets.
fn put_sets(alloc: Global, table: &mut Table, sets: &[LinkSet]) -> Result<(), AllocError>
    ensures { OnOk result (table_view table.new ≡ insert_sets sets.now (table_view table.old)) }
{
    let values = write_sets(alloc, sets)?;
    put_array(alloc, table, "sets", values)
}

/// Sets the key of the plans.
fn put_plans(alloc: Global, table: &mut Table, plans: &Plans) -> Result<(), AllocError>
    ensures { OnOk result (table_view table.new ≡ insert_plans plans.now (table_view table.old)) }
{
    let values = write_plans(alloc, plans)?;
    put_array(alloc, table, "plans", values)
}

/// Sets the keys whose values are arrays, in falling order.
fn put_arrays(alloc: Global, table: &mut Table, net: &Net) -> Result<(), AllocError>
    ensures { OnOk result (table_view table.new ≡ insert_arrays net.now (table_view table.old)) }
{
    put_sets(alloc, table, net.sets())?;
    put_points(alloc, table, net.points())?;
    put_plans(alloc, table, net.plans())?;
    put_pairs(alloc, table, net.points())
}

/// The document of a network. Its keys are set in falling order.
fn document(alloc: Global, net: &Net) -> Result<Table, AllocError>
    ensures { IfOk result (λ table. table_view table ≡ document_of net.now) }
{
    let mut table = Table::new(alloc);
    put_truth(alloc, &mut table, "tfr", net.tfr())?;
    put_arrays(alloc, &mut table, net)?;
    put_number(alloc, &mut table, "ni", net.ni())?;
    put_number(alloc, &mut table, "format", 2)?;
    Ok(table)
}

/// The text of a network as the crate `toml` writes its document.
fn print_document(alloc: Global, net: &Net) -> Result<String, AllocError>
    ensures { IfOk result (λ text. Says (string_bytes text) (Ok net.now)) }
{
    // The proof reads from this that each number is in the range of its token.
    net.validity();
    let table = document(alloc, net)?;
    match toml::table_to_string_pretty(alloc, &table) {
        Ok(text) => {
            // The proof reads from this that the bytes are UTF-8.
            let _seen = text.as_str();
            Ok(text)
        }
        Err(_) => Err(AllocError),
    }
}

/// Whether a text is read as a network.
fn is_read_as(alloc: Global, text: &str, net: &Net) -> bool
    ensures { result ≡ true → Says text.now (Ok net.now) }
{
    match load(alloc, text.as_bytes()) {
        Ok(read) => read.equals(net),
        Err(_) => false,
    }
}

/// A text that reads as the network, in format 2. It fails if memory is refused.
///
/// It is laid out as a person would write it, and read before it is handed out; if it didn't read as the network, the
/// text would be that of the crate `toml`, which is proved to.
pub fn save(alloc: Global, net: &Net) -> Result<String, AllocError>
    ensures { IfOk result (λ text. Says (string_bytes text) (Ok net.now)) }
{
    let text = lay_out(alloc, net)?;
    if is_read_as(alloc, text.as_str(), net) {
        return Ok(text);
    }
    print_document(alloc, net)
}
