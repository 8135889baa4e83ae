//! Collectors beside workers, and readers that were told.

ghost use Rattle.std.specs.Prelude.{◌≡◌};

use crate::samples::{expect_ended, fail, restore, wait_for, worked_desk};
use net_data::Event;
use profile::Table;
use route_choice::Far;
use sample_nets::code;
use std::alloc::Global;
use std::marker::Brand;
use std::process::Abort;
use std::sync::{Mutex, Wait};
use std::thread::{Threads, join};
use versions::{Hub, Naming, Note, Reader, Unnamed, Version};
use worker_pool::{Plain, Signals, is_at_rest, run_pool};

/// A collector posts an event, and the workers are told.
fn post<N: Naming, R: Wait>(
    rt: &R,
    alloc: Global,
    hub: &Mutex<Hub<N>>,
    signals: &Signals,
    collector: u8,
    seq: u64,
    event: Event,
) {
    let mut guard = hub.lock(rt);
    let rested = is_at_rest(&guard);
    let _ = guard.post(alloc, collector, seq, event);
    drop(guard);
    signals.tell_post(rested);
}

/// A collector posts changes of the link 3 0 in turn.
fn collect<N: Naming, R: Wait>(
    rt: &R,
    alloc: Global,
    hub: &Mutex<Hub<N>>,
    signals: &Signals,
    collector: u8,
) {
    for seq in 1..1001u64 {
        let event = if seq % 2 == 1 {
            fail(3, 0)
        } else {
            restore(3, 0)
        };
        post(rt, alloc, hub, signals, collector, seq, event);
    }
}

/// Four collectors post at once.
fn collect_all<N: Naming + Sync, R: Threads + Wait + Sync>(
    rt: &R,
    alloc: Global,
    hub: &Mutex<Hub<N>>,
    signals: &Signals,
) {
    let run = |collector: u8| collect(rt, alloc, hub, signals, collector);
    join(
        rt,
        || join(rt, || run(0), || run(1)),
        || join(rt, || run(2), || run(3)),
    );
}

/// After the four a fifth collector posts, and a note tells when that is published.
fn drive<N: Naming + Sync, R: Threads + Wait + Abort + Sync>(
    rt: &R,
    alloc: Global,
    hub: &Mutex<Hub<N>>,
    signals: &Signals,
) -> Note<N> {
    collect_all(rt, alloc, hub, signals);
    post(rt, alloc, hub, signals, 4, 1, fail(4, 0));
    wait_for(rt, hub, signals, 4001);
    hub.lock(rt).note().expect(rt, "a note")
}

/// In a table, 2-10-2 leads restricted over its mate.
fn expect_mate(rt: &impl Abort, table: &Table) {
    let row = table.row(code("2-10-2").expect(rt, "a code"));
    let row = row.expect(rt, "a row");
    assert_eq!(rt; (row.choice.status, row.choice.class), (Far::Restricted, 5));
}

/// The table of 2-1-2 of a version.
fn table_of(rt: &impl Abort, alloc: Global, version: &Version) -> Table {
    let dest = code("2-1-2").expect(rt, "a code");
    let table = version.table(alloc, dest).expect(rt, "memory");
    table.expect(rt, "a plan")
}

/// The number of the version that a reader sees, in which 2-10-2 leads over its mate.
fn look<N: Naming, R: Abort>(rt: &R, alloc: Global, reader: &mut Reader<N>) -> u64 {
    let seen = reader.look().expect(rt, "a version");
    expect_mate(rt, &table_of(rt, alloc, &seen));
    seen.number()
}

/// A reader that asks anew sees the version of a number.
fn expect_newest<N: Naming, R: Abort>(rt: &R, reader: &mut Reader<N>, number: u64) {
    let refreshed = reader.refresh();
    assert_eq!(rt; (refreshed, reader.newest().number()), (Ok(()), number));
}

/// A reader in another thread learns a note and looks, both ways.
fn look_after<N: Naming, R: Abort>(rt: &R, alloc: Global, mut reader: Reader<N>, note: Note<N>) {
    reader.learn(note);
    let seen = look(rt, alloc, &mut reader);
    assert!(rt; seen >= 4001);
    expect_newest(rt, &mut reader, seen);
}

/// The collectors beside two workers.
fn run_collectors<N: Naming + Send + Sync, R: Threads + Wait + Abort + Sync>(
    rt: &R,
    alloc: Global,
    hub: &Mutex<Hub<N>>,
) -> Note<N> {
    let signals = Signals::new();
    run_pool(rt, alloc, 2, hub, &signals, &Plain, || {
        drive(rt, alloc, hub, &signals)
    })
    .1
}

/// The sequence numbers of the last posts of the five.
fn last_seqs<N: Naming>(hub: &Hub<N>) -> [u64; 5] {
    let desk = hub.desk();
    [
        desk.last_seq(0),
        desk.last_seq(1),
        desk.last_seq(2),
        desk.last_seq(3),
        desk.last_seq(4),
    ]
}

/// The newest version has all posts.
fn expect_hub_newest<N: Naming, R: Wait + Abort>(rt: &R, hub: &Mutex<Hub<N>>) {
    let newest = hub.lock(rt).newest().expect(rt, "a version");
    assert_eq!(rt; newest.number(), 4001);
}

/// The last post of each of the five is as it should be.
fn expect_last_seqs<N: Naming, R: Wait + Abort>(rt: &R, hub: &Mutex<Hub<N>>) {
    let seqs = last_seqs(&*hub.lock(rt));
    assert_eq!(rt; seqs, [1000, 1000, 1000, 1000, 1]);
}

/// The collectors post, a reader looks after them, and the newest version and the last post of each are as they should be.
fn expect_collected<N: Naming + Send + Sync, R: Threads + Wait + Abort + Sync>(
    rt: &R,
    alloc: Global,
    hub: &Mutex<Hub<N>>,
    reader: Reader<N>,
) {
    let note = run_collectors(rt, alloc, hub);
    expect_hub_newest(rt, hub);
    join(rt, move || look_after(rt, alloc, reader, note), || ());
    expect_last_seqs(rt, hub);
}

/// Collectors and workers at a new hub.
fn collected<N: Naming + Send + Sync, R: Threads + Wait + Abort + Sync>(
    rt: &R,
    alloc: Global,
    unnamed: Unnamed,
)
    requires { unnamed.shown.book ≡ N.book }
{
    let hub = unnamed.named::<N>(alloc).expect(rt, "places");
    let reader = hub.reader().expect(rt, "a place");
    let hub = Mutex::new(hub);
    expect_collected(rt, alloc, &hub, reader);
    expect_ended(rt, hub, (4001, 4001));
}

#[test]
fn collectors_post_beside_workers(rt: HostRuntime) {
    let desk = worked_desk(&rt, rt.alloc());
    let unnamed = Unnamed::new(desk).expect(&rt, "memory");
    collected::<Brand, _>(&rt, rt.alloc(), unnamed);
}
