//! The steps of a hub by two threads, and room for posts.

ghost use Rattle.std.specs.Prelude.{◌≡◌};

use crate::samples::{expect_ended, fail, posted, restore, worked_desk};
use desk_core::{Opened, Posted, Refusal};
use std::alloc::Global;
use std::marker::Brand;
use std::process::Abort;
use std::sync::{Mutex, Wait};
use std::thread::{Threads, join};
use versions::{Hub, Naming, Unnamed};
use work_units::{Job, Settled, settle};

/// The result of a job.
fn result_of(rt: &impl Abort, alloc: Global, job: Job) -> Settled {
    settle(alloc, job).ok().expect(rt, "a result")
}

/// The result of the job that is taken.
fn take_result<N: Naming, R: Abort>(rt: &R, alloc: Global, hub: &mut Hub<N>) -> Settled {
    let job = hub.take().expect(rt, "a job");
    result_of(rt, alloc, job)
}

/// What a first thread does: it takes a job, abandons it, and takes it again.
fn begin<N: Naming, R: Wait + Abort>(
    rt: &R,
    alloc: Global,
    hub: &Mutex<Hub<N>>,
) -> (Settled, Settled) {
    let mut guard = hub.lock(rt);
    let late = take_result(rt, alloc, &mut *guard);
    let _ = guard.abandon(late.version(), late.dest());
    let settled = take_result(rt, alloc, &mut *guard);
    (late, settled)
}

/// Opens a target twice.
fn open_twice<N: Naming, R: Wait>(
    rt: &R,
    alloc: Global,
    hub: &Mutex<Hub<N>>,
) -> [Result<Opened, Refusal>; 2] {
    let mut guard = hub.lock(rt);
    [guard.open(alloc), guard.open(alloc)]
}

/// Gives a result, and lets it go if it is handed back.
fn give<N: Naming, R: Wait>(rt: &R, hub: &Mutex<Hub<N>>, settled: Settled) -> Result<(), Refusal> {
    hub.lock(rt).give(settled).map_err(|(_, refusal)| refusal)
}

/// Publishes.
fn publish<N: Naming, R: Wait>(rt: &R, alloc: Global, hub: &Mutex<Hub<N>>) -> Result<u64, Refusal> {
    hub.lock(rt).publish(rt, alloc)
}

/// A result is taken in.
fn expect_given<N: Naming, R: Wait + Abort>(rt: &R, hub: &Mutex<Hub<N>>, settled: Settled) {
    let given = give(rt, hub, settled);
    assert_eq!(rt; given, Ok(()));
}

/// A result that comes late is handed back.
fn expect_late<N: Naming, R: Wait + Abort>(
    rt: &R,
    hub: &Mutex<Hub<N>>,
    late: Settled,
    wanted: Refusal,
) -> Settled {
    let given = hub.lock(rt).give(late);
    let (late, refusal) = given.err().expect(rt, "a refusal");
    assert_eq!(rt; refusal, wanted);
    late
}

/// Version 1 is published.
fn expect_published<N: Naming, R: Wait + Abort>(rt: &R, alloc: Global, hub: &Mutex<Hub<N>>) {
    let published = publish(rt, alloc, hub);
    assert_eq!(rt; published, Ok(1));
}

/// A second event is taken.
fn expect_taken<N: Naming, R: Wait + Abort>(rt: &R, alloc: Global, hub: &Mutex<Hub<N>>) {
    let posted = hub.lock(rt).post(alloc, 0, 2, restore(4, 0));
    assert_eq!(rt; posted, Ok(Posted::Taken(2)));
}

/// What a second thread does with the results of the first: it gives one, of which the other is a second, publishes, and opens the next
/// target. It hands the other back.
fn go_on<N: Naming, R: Wait + Abort>(
    rt: &R,
    alloc: Global,
    hub: &Mutex<Hub<N>>,
    late: Settled,
    settled: Settled,
) -> Settled {
    expect_given(rt, hub, settled);
    let late = expect_late(rt, hub, late, Refusal::Unasked);
    expect_published(rt, alloc, hub);
    expect_taken(rt, alloc, hub);
    expect_opened(rt, open_twice(rt, alloc, hub), 2);
    late
}

/// A target of a number was opened, for which one destination waits, and then no other.
fn expect_opened(rt: &impl Abort, opened: [Result<Opened, Refusal>; 2], target: u64) {
    let first = Opened { target, waiting: 1 };
    assert_eq!(rt; opened, [Ok(first), Err(Refusal::Busy)]);
}

/// It settles what waits, and publishes when all is given.
fn finish<N: Naming, R: Wait + Abort>(rt: &R, alloc: Global, hub: &Mutex<Hub<N>>) {
    let settled = take_result(rt, alloc, &mut *hub.lock(rt));
    let early = publish(rt, alloc, hub);
    let given = give(rt, hub, settled);
    let done = publish(rt, alloc, hub);
    assert_eq!(rt;
        (early, given, done),
        (Err(Refusal::NotReady(1)), Ok(()), Ok(2))
    );
}

/// The steps, by one thread after the other.
fn step<N: Naming + Send + Sync, R: Threads + Wait + Abort + Sync>(
    rt: &R,
    alloc: Global,
    hub: &Mutex<Hub<N>>,
) {
    expect_opened(rt, open_twice(rt, alloc, hub), 1);
    let ((late, settled), ()) = join(rt, || begin(rt, alloc, hub), || ());
    let ((), late) = join(rt, || (), || go_on(rt, alloc, hub, late, settled));
    let stale = Refusal::Stale(Some(2));
    let (late, ()) = join(rt, || expect_late(rt, hub, late, stale), || ());
    finish(rt, alloc, hub);
    drop(expect_late(rt, hub, late, Refusal::Stale(None)));
}

/// Makes the steps at a new hub.
fn stepped<N: Naming + Send + Sync, R: Threads + Wait + Abort + Sync>(
    rt: &R,
    alloc: Global,
    unnamed: Unnamed,
)
    requires { unnamed.shown.book ≡ N.book }
{
    let hub = posted::<N>(rt, alloc, unnamed, fail(4, 0));
    step(rt, alloc, &hub);
    expect_ended(rt, hub, (2, 2));
}

#[test]
fn two_threads_make_the_steps(rt: HostRuntime) {
    let desk = worked_desk(&rt, rt.alloc());
    let unnamed = Unnamed::new(desk).expect(&rt, "memory");
    stepped::<Brand, _>(&rt, rt.alloc(), unnamed);
}

/// Makes room for a post, and posts: the room before and after.
fn reserve_and_post<N: Naming, R: Abort>(rt: &R, alloc: Global, hub: &mut Hub<N>) -> (u32, u32) {
    hub.reserve(1).expect(rt, "memory");
    let before = hub.desk().spare();
    let posted = hub.post(alloc, 0, 2, restore(4, 0));
    assert_eq!(rt; posted, Ok(Posted::Taken(2)));
    (before, hub.desk().spare())
}

/// Makes room at a new hub.
fn reserved<N: Naming, R: Wait + Abort>(rt: &R, alloc: Global, unnamed: Unnamed)
    requires { unnamed.shown.book ≡ N.book }
{
    let hub = posted::<N>(rt, alloc, unnamed, fail(4, 0));
    let room = reserve_and_post(rt, alloc, &mut *hub.lock(rt));
    assert_eq!(rt; room, (1, 0));
    expect_ended(rt, hub, (0, 2));
}

#[test]
fn room_is_made_for_posts(rt: HostRuntime) {
    let desk = worked_desk(&rt, rt.alloc());
    let unnamed = Unnamed::new(desk).expect(&rt, "memory");
    reserved::<Brand, _>(&rt, rt.alloc(), unnamed);
}
