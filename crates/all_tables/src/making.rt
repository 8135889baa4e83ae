//! The tables of all planned destinations.

ghost use Rattle.std.specs.Prelude.{◌≡◌, IfOk, All, map};
ghost use Rattle.excerpts.specs.Excerpt.{table_at as the_table_at};
ghost use Rattle.all_tables.specs.Tables.{tables, those_there, IsSettledIn};

use excerpts::{Excerpt, Frozen};
use point_codes::PointCode;
use profile::Table;
use rayon::prelude::*;
use std::alloc::{AllocError, Global};
use std::thread::Threads;
use transfer_state::table_of;

/// The destinations that have a plan, in rising code.
fn destinations(alloc: Global, net: &Frozen) -> Result<Vec<PointCode>, AllocError>
    ensures { IfOk result (λ dests. dests.items ≡ map (λ p. p.dest) net.now.plans) }
{
    let plans = net.net().plans();
    let mut dests = Vec::with_capacity(alloc, plans.len())?;
    for position in 0..plans.len() {
        dests.push(plans.at(position).dest)?;
    }
    Ok(dests)
}

/// The table of a destination, if it has a plan.
fn table_at(alloc: Global, net: &Frozen, dest: PointCode) -> Result<Option<Table>, AllocError>
    ensures { IfOk result (λ table. table ≡ the_table_at net.now dest) }
{
    match Excerpt::of(net, dest) {
        Some(excerpt) => Ok(Some(table_of(alloc, &excerpt)?)),
        None => Ok(None),
    }
}

/// Those tables that are there, in their order.
fn present(alloc: Global, found: Vec<Option<Table>>) -> Result<Vec<Table>, AllocError>
    ensures { IfOk result (λ tables. tables.items ≡ those_there found.items) }
{
    let mut tables = Vec::with_capacity(alloc, found.len())?;
    for one in found {
        if let Some(table) = one {
            tables.push(table)?;
        }
    }
    Ok(tables)
}

/// The tables of destinations, each if it has a plan, in their order.
fn tables_at(
    rt: &(impl Threads + Sync),
    alloc: Global,
    net: &Frozen,
    dests: &[PointCode],
) -> Result<Vec<Option<Table>>, AllocError>
    ensures { IfOk result (λ v. v.items ≡ map (the_table_at net.now) dests.now) }
{
    dests
        .par_iter()
        .with_min_len(1)
        .map(
            |dest: &PointCode| -> Result<Option<Table>, AllocError>
                ensures { IfOk result (λ table. table ≡ the_table_at net.entry.now dest.now) }
            { table_at(alloc, net, *dest) },
        )
        .collect::<Result<Vec<Option<Table>>, AllocError>>(rt, alloc)?
}

/// The settled tables of all planned destinations, in rising code. It fails if memory is refused.
pub fn tables_of(
    rt: &(impl Threads + Sync),
    alloc: Global,
    net: &Frozen,
) -> Result<Vec<Table>, AllocError>
    ensures each { IfOk result (λ v. v.items ≡ tables net.now) }
    ensures settled { IfOk result (λ v. All (IsSettledIn net.now) v.items) }
{
    net.validity();
    let dests = destinations(alloc, net)?;
    let found = tables_at(rt, alloc, net, &dests)?;
    present(alloc, found)
}
