//! The program `library_calls`: the calls that `route_state` passes on, each made once, and again where memory was refused (own).
//!
//! 1. For each module of `route_state` it says whether the calls of that module answer as they should, over a network of two mated
//!    transfer points.
//! 2. A network, a desk or a hub that refused a call for want of memory is asked once more, and answers then as if it had never been
//!    asked before. What takes nothing along is made anew from its beginning.
//! 3. So it prints the same with any one request for memory refused.
//!
//! Stands on `route_state`. Nothing else changes with it.
#![tactic(auto)]

mod desks;
mod hubs;
mod parts;
mod questions;
mod samples;
mod scripts;
mod tables;
mod telling;

use std::io;
use std::sync::Wait;
use std::thread::Threads;

/// Says whether the calls of a module answer as they should; None if memory was refused twice.
fn tell(rt: &HostRuntime, module: &str, right: Option<bool>) -> io::Result<()> {
    let said = match right {
        Some(true) => "right",
        Some(false) => "wrong",
        None => "out of memory",
    };
    println!(rt; "{module}: {said}")
}

/// Points, links, sets and networks.
fn tell_parts(rt: &HostRuntime) -> io::Result<()> {
    let alloc = rt.alloc();
    let codes = parts::codes(alloc).or_else(|| parts::codes(alloc));
    tell(rt, "codes", codes)?;
    tell(rt, "marks", Some(parts::marks()))?;
    let nets = parts::nets(alloc).or_else(|| parts::nets(alloc));
    tell(rt, "nets", nets)?;
    let sets = parts::sets(alloc).or_else(|| parts::sets(alloc));
    tell(rt, "sets", sets)?;
    let shares = parts::shares(alloc).or_else(|| parts::shares(alloc));
    tell(rt, "shares", shares)?;
    tell(rt, "choices", parts::choices())
}

/// The table of a destination, and what works at it.
fn tell_tables(rt: &HostRuntime) -> io::Result<()> {
    let alloc = rt.alloc();
    let excerpt = tables::excerpt(alloc).or_else(|| tables::excerpt(alloc));
    tell(rt, "excerpt", excerpt)?;
    let tables = tables::tables(alloc).or_else(|| tables::tables(alloc));
    tell(rt, "tables", tables)?;
    let jobs = tables::jobs(alloc).or_else(|| tables::jobs(alloc));
    tell(rt, "jobs", jobs)?;
    let touched = tables::touched(alloc).or_else(|| tables::touched(alloc));
    tell(rt, "touched", touched)
}

/// Desks and hubs.
fn tell_desks<R: Threads + Wait + Sync>(rt: &HostRuntime, threads: &R) -> io::Result<()> {
    let alloc = rt.alloc();
    let desks = desks::desks(alloc).or_else(|| desks::desks(alloc));
    tell(rt, "desks", desks)?;
    let hubs = hubs::hubs(threads, alloc).or_else(|| hubs::hubs(threads, alloc));
    tell(rt, "hubs", hubs)?;
    let pools = hubs::pools(threads, alloc).or_else(|| hubs::pools(threads, alloc));
    tell(rt, "pools", pools)
}

/// Questions, texts and scripts.
fn tell_texts<R: Threads + Wait + Sync>(rt: &HostRuntime, threads: &R) -> io::Result<()> {
    let alloc = rt.alloc();
    let traces = questions::traces(alloc).or_else(|| questions::traces(alloc));
    tell(rt, "traces", traces)?;
    let what_ifs = questions::what_ifs(alloc).or_else(|| questions::what_ifs(alloc));
    tell(rt, "what_ifs", what_ifs)?;
    let texts = scripts::texts(alloc).or_else(|| scripts::texts(alloc));
    tell(rt, "texts", texts)?;
    let told = telling::told(alloc).or_else(|| telling::told(alloc));
    tell(rt, "told", told)?;
    let scripts = scripts::scripts(threads, alloc).or_else(|| scripts::scripts(threads, alloc));
    tell(rt, "scripts", scripts)
}

fn main(rt: HostRuntime) -> io::Result<()> {
    tell_parts(&rt)?;
    tell_tables(&rt)?;
    tell_desks(&rt, &rt)?;
    tell_texts(&rt, &rt)
}
