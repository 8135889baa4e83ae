//! The layout that a person would choose: the keys in the order in which they are read, an entry a line.

use crate::entries::{write_pairs, write_plans, write_points, write_sets};
use net_data::{Net, Plans};
use net_items::{LinkSet, Point};
use std::alloc::{AllocError, Global};
use toml::Value;

/// Adds an entry on a line of its own.
fn put_entry(text: &mut String, entry: &str) -> Result<(), AllocError> {
    text.push_str("  \"")?;
    text.push_str(entry)?;
    text.push_str("\",\n")
}

/// Adds a key with its entries, each on a line of its own; without entries, nothing.
fn put_entries(text: &mut String, key: &str, entries: &[Value]) -> Result<(), AllocError> {
    if entries.is_empty() {
        return Ok(());
    }
    text.push_str(key)?;
    text.push_str(" = [\n")?;
    for entry in entries {
        if let Some(entry) = entry.as_str() {
            put_entry(text, entry)?;
        }
    }
    text.push_str("]\n")
}

/// Adds the points, and then the mated pairs.
fn put_points(alloc: Global, text: &mut String, points: &[Point]) -> Result<(), AllocError> {
    put_entries(text, "points", &write_points(alloc, points)?)?;
    put_entries(text, "pairs", &write_pairs(alloc, points)?)
}

/// Adds the sets.
fn put_sets(alloc: Global, text: &mut String, sets: &[LinkSet]) -> Result<(), AllocError> {
    put_entries(text, "sets", &write_sets(alloc, sets)?)
}

/// Adds the plans.
fn put_plans(alloc: Global, text: &mut String, plans: &Plans) -> Result<(), AllocError> {
    put_entries(text, "plans", &write_plans(alloc, plans)?)
}

/// The text of a network in this layout. No contract says what it reads as: `save` reads it before it is handed out.
pub(crate) fn lay_out(alloc: Global, net: &Net) -> Result<String, AllocError> {
    let ni = net.ni();
    let tfr = net.tfr();
    let mut text = format!(in alloc; "format = 2\nni = {ni}\ntfr = {tfr}\n")?;
    put_points(alloc, &mut text, net.points())?;
    put_sets(alloc, &mut text, net.sets())?;
    put_plans(alloc, &mut text, net.plans())?;
    Ok(text)
}
