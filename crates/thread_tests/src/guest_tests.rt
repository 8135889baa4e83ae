//! Guests of one hub, each in a thread of its own, beside workers.

ghost use Rattle.std.specs.Prelude.{◌≡◌};
ghost use Rattle.versions.specs.Working.{IsGuest};

use crate::samples::{fail, restore, wait_for, worked_desk};
use desk_core::{Desk, Posted};
use seats::Seat;
use std::alloc::{AllocError, Global};
use std::marker::Brand;
use std::process::Abort;
use std::sync::{Mutex, Wait};
use std::thread::{Threads, map_vec};
use versions::{BySeats, DeskAndChain, Guest, Hub, Naming, UnnamedWithSeats};
use worker_pool::{Plain, Signals, is_at_rest, run_pool};

/// How many posts each guest makes.
const POSTS: u32 = 20;

/// How many posts all three make.
const ALL: u64 = 60;

/// A guest, the collector that it posts for, and the numbers that its posts were taken for.
#[derive(Drop)]
struct Feed<N: Naming> {
    guest: Guest<N>,
    collector: u8,
    numbers: Vec<u64>,
}

/// One post of a guest, of which the workers are told: the number that it was taken for, or 0.
fn post_one<N: Naming, R: Wait>(
    rt: &R,
    alloc: Global,
    hub: &Mutex<Hub<N, BySeats>>,
    signals: &Signals,
    guest: &mut Guest<N>,
    collector: u8,
    seq: u64,
) -> u64 {
    let id = 3 + u16::from(collector % 2);
    let event = if seq % 2 == 1 {
        fail(id, 0)
    } else {
        restore(id, 0)
    };
    let mut guard = hub.lock(rt);
    let rested = is_at_rest(&guard);
    let reply = guest.post(rt, alloc, &mut *guard, collector, seq, event);
    drop(guard);
    signals.tell_post(rested);
    match reply {
        Ok(Posted::Taken(number)) => number,
        _ => 0,
    }
}

/// All posts of a guest. It comes once more after each.
fn post_all<N: Naming, R: Wait>(
    rt: &R,
    alloc: Global,
    hub: &Mutex<Hub<N, BySeats>>,
    signals: &Signals,
    mut feed: Feed<N>,
) -> Result<Feed<N>, AllocError> {
    for seq in 1..u64::from(POSTS) + 1 {
        let number = post_one(
            rt,
            alloc,
            hub,
            signals,
            &mut feed.guest,
            feed.collector,
            seq,
        );
        feed.numbers.push(number)?;
        feed.guest.visit(rt, &mut *hub.lock(rt));
    }
    Ok(feed)
}

/// The feeds, each in a thread of its own, beside two workers.
fn run_feeds<N: Naming + Send + Sync, R: Threads + Wait + Abort + Sync>(
    rt: &R,
    alloc: Global,
    hub: &Mutex<Hub<N, BySeats>>,
    feeds: Vec<Feed<N>>,
) -> Vec<Feed<N>> {
    let signals = Signals::new();
    let (_, fed) = run_pool(rt, alloc, 2, hub, &signals, &Plain, || {
        let fed = map_vec(
            rt,
            feeds,
            &|feed: Feed<N>| post_all(rt, alloc, hub, &signals, feed),
        );
        wait_for(rt, hub, &signals, ALL);
        fed
    });
    let mut all = Vec::new(alloc);
    for feed in fed.expect(rt, "threads") {
        all.push(feed.expect(rt, "memory")).expect(rt, "memory");
    }
    all
}

/// Each number from 1 on was told to one guest, once, and each guest's numbers rise.
fn expect_numbers<N: Naming>(rt: &impl Abort, alloc: Global, fed: &[Feed<N>]) {
    let mut all = Vec::new(alloc);
    for feed in fed {
        let mut last = 0;
        for number in feed.numbers.iter() {
            assert!(rt; *number > last);
            last = *number;
            all.push(last).expect(rt, "memory");
        }
    }
    all.sort().expect(rt, "memory");
    assert!(rt; all.iter().copied().eq(1..ALL + 1));
}

/// The desk of a hub that has ended, whose history explains all guests.
fn desk_after<N: Naming, R: Wait>(rt: &R, hub: Hub<N, BySeats>, fed: &mut [Feed<N>]) -> Desk {
    let mut history = hub.finish(rt);
    for feed in fed.iter_mut() {
        history.explain(rt, &mut feed.guest);
    }
    history.into_desk()
}

/// How many events of a desk are published and accepted, and how much room for posts is left; the desk goes.
fn counts_of(desk: Desk) -> (u64, u64, u32) {
    (desk.published().number(), desk.accepted(), desk.spare())
}

/// The end of a hub: the guests' numbers, and how many events are published and accepted, and how much room for posts is left.
fn expect_history<N: Naming, R: Wait + Abort>(
    rt: &R,
    alloc: Global,
    hub: Hub<N, BySeats>,
    mut fed: Vec<Feed<N>>,
) {
    expect_numbers(rt, alloc, fed.as_slice());
    let counts = counts_of(desk_after(rt, hub, fed.as_mut_slice()));
    assert_eq!(rt; counts, (ALL, ALL, 0));
}

/// Three guests of a new hub.
fn three<N: Naming + Send + Sync, R: Threads + Wait + Abort + Sync>(
    rt: &R,
    alloc: Global,
    unnamed: UnnamedWithSeats,
    one: Seat<DeskAndChain>,
    two: Seat<DeskAndChain>,
)
    requires names { (unnamed.state.shown.book ≡ N.book) × (unnamed.table ≡ N.table) × (unnamed.seats ≡ N.seats) }
    requires guests { IsGuest N.table one × IsGuest N.table two }
    requires seats { 3 ≡ N.seats }
    requires numbers { (1 ≡ one.me) × (2 ≡ two.me) }
{
    let (hub, first) = unnamed.named::<N>(alloc, 3).expect(rt, "places");
    let hub = Mutex::new(hub);
    let feeds = vec![in alloc;
        Feed {
            guest: first,
            collector: 0,
            numbers: Vec::new(alloc)
        },
        Feed {
            guest: Guest::over(one, 1),
            collector: 1,
            numbers: Vec::new(alloc)
        },
        Feed {
            guest: Guest::over(two, 2),
            collector: 2,
            numbers: Vec::new(alloc)
        },
    ];
    let fed = run_feeds(rt, alloc, &hub, feeds.expect(rt, "memory"));
    expect_history(rt, alloc, hub.into_inner(), fed);
}

/// A desk over the worked network, with room for all posts.
fn roomy_desk(rt: &impl Abort, alloc: Global) -> Desk {
    let mut desk = worked_desk(rt, alloc);
    desk.reserve(3 * POSTS).expect(rt, "memory");
    desk
}

#[test]
fn three_guests_post_beside_workers(rt: HostRuntime) {
    let alloc = rt.alloc();
    let desk = roomy_desk(&rt, alloc);
    let mut unnamed = UnnamedWithSeats::new(&rt, alloc, desk).expect(&rt, "memory");
    let one = unnamed.admit();
    let two = unnamed.admit();
    three::<Brand, _>(&rt, alloc, unnamed, one, two);
}
