//! Pools: that two workers work at once, and that a worker whose memory is refused ends.

ghost use Rattle.std.specs.Prelude.{◌≡◌};

use crate::gates::{Holding, Refusing};
use crate::samples::{desk_over, expect_ended, fail, posted, two_plans, wait_for, worked_desk};
use sample_nets::code;
use std::alloc::Global;
use std::marker::Brand;
use std::process::Abort;
use std::sync::{Mutex, Wait};
use std::thread::Threads;
use versions::{Hub, Naming, Unnamed};
use work_units::{Settled, settle};
use worker_pool::{PoolEnd, Signals, run_pool};

/// Two workers beside a wait for the first version.
fn run_two<N: Naming + Send + Sync, R: Threads + Wait + Sync>(
    rt: &R,
    alloc: Global,
    hub: &Mutex<Hub<N>>,
    gate: &Holding,
) -> PoolEnd {
    let signals = Signals::new();
    run_pool(rt, alloc, 2, hub, &signals, gate, || {
        wait_for(rt, hub, &signals, 1)
    })
    .0
}

/// Two workers come, and the gate sees the job of 2-1-3 while it holds that of 2-1-2.
fn expect_two<N: Naming + Send + Sync, R: Threads + Wait + Abort + Sync>(
    rt: &R,
    alloc: Global,
    hub: &Mutex<Hub<N>>,
) {
    let gate = Holding::of(code("2-1-2").expect(rt, "a code"));
    let end = run_two(rt, alloc, hub, &gate);
    assert_eq!(rt; (end.started, end.memory, gate.seen()), (2, 0, (2, false)));
}

/// Two workers at one target: the gate holds the job of 2-1-2 until that of 2-1-3 has come through.
fn held<N: Naming + Send + Sync, R: Threads + Wait + Abort + Sync>(
    rt: &R,
    alloc: Global,
    unnamed: Unnamed,
)
    requires { unnamed.shown.book ≡ N.book }
{
    let hub = posted::<N>(rt, alloc, unnamed, fail(3, 0));
    expect_two(rt, alloc, &hub);
    expect_ended(rt, hub, (1, 1));
}

#[test]
fn two_workers_work_at_once(rt: HostRuntime) {
    let desk = desk_over(&rt, rt.alloc(), two_plans(&rt, rt.alloc()));
    let unnamed = Unnamed::new(desk).expect(&rt, "memory");
    held::<Brand, _>(&rt, rt.alloc(), unnamed);
}

/// Waits until no worker lives.
fn wait_alone<N: Naming, R: Wait>(rt: &R, hub: &Mutex<Hub<N>>, signals: &Signals) {
    for _ in rt.forever() {
        let guard = hub.lock(rt);
        if guard.living() == 0 {
            return;
        }
        drop(signals.wait_for_news(rt, guard));
    }
    unreachable!()
}

/// Two workers whose memory is refused.
fn run_refused<N: Naming + Send + Sync, R: Threads + Wait + Sync>(
    rt: &R,
    alloc: Global,
    hub: &Mutex<Hub<N>>,
) -> PoolEnd {
    let signals = Signals::new();
    run_pool(rt, alloc, 2, hub, &signals, &Refusing, || {
        wait_alone(rt, hub, &signals)
    })
    .0
}

/// The result of the job that waits.
fn settled_job<N: Naming, R: Wait + Abort>(rt: &R, alloc: Global, hub: &Mutex<Hub<N>>) -> Settled {
    let job = hub.lock(rt).take().expect(rt, "a job");
    settle(alloc, job).ok().expect(rt, "a result")
}

/// Target 1 is open, and one destination waits.
fn expect_waiting<N: Naming, R: Wait + Abort>(rt: &R, hub: &Mutex<Hub<N>>) {
    let guard = hub.lock(rt);
    let (target, waiting) = (guard.desk().target(), guard.desk().waiting());
    drop(guard);
    assert_eq!(rt; (target, waiting), (Some(1), 1));
}

/// A result is taken in.
fn expect_given<N: Naming, R: Wait + Abort>(rt: &R, hub: &Mutex<Hub<N>>, settled: Settled) {
    let given = hub.lock(rt).give(settled).map_err(|(_, refusal)| refusal);
    assert_eq!(rt; given, Ok(()));
}

/// The work, done in line.
fn work_in_line<N: Naming, R: Wait + Abort>(rt: &R, alloc: Global, hub: &Mutex<Hub<N>>) {
    expect_given(rt, hub, settled_job(rt, alloc, hub));
    let published = hub.lock(rt).publish(rt, alloc);
    assert_eq!(rt; published, Ok(1));
}

/// Each worker takes the job, is refused memory and gives the job back; then the work is done in line.
fn refused<N: Naming + Send + Sync, R: Threads + Wait + Abort + Sync>(
    rt: &R,
    alloc: Global,
    unnamed: Unnamed,
)
    requires { unnamed.shown.book ≡ N.book }
{
    let hub = posted::<N>(rt, alloc, unnamed, fail(4, 0));
    let end = run_refused(rt, alloc, &hub);
    assert_eq!(rt; (end.started, end.memory), (2, 2));
    expect_waiting(rt, &hub);
    work_in_line(rt, alloc, &hub);
    expect_ended(rt, hub, (1, 1));
}

#[test]
fn refused_workers_end(rt: HostRuntime) {
    let desk = worked_desk(&rt, rt.alloc());
    let unnamed = Unnamed::new(desk).expect(&rt, "memory");
    refused::<Brand, _>(&rt, rt.alloc(), unnamed);
}
