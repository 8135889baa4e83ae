//! Who is woken when a hub changes.

ghost use Rattle.std.specs.Prelude.{◌≡◌, ◌↔◌, IsTrue};
ghost use Rattle.desk_core.specs.Desk.{accepted};

use std::sync::atomic::{AtomicU64, Ordering};
use std::sync::{Condvar, MutexGuard, Wait};
use std::time::Duration;
use versions::{Hub, Naming, Posters};

/// How long a worker sleeps that has published while posts go on, in microseconds.
const MOMENT: u64 = 200;

/// Where threads at a hub sleep: its workers, until there is work for one more of them, and whoever waits for a publication.
///
/// Whoever changes the hub wakes those for whom something changed, once the lock is free:
///
/// - after a post at a hub at rest (`is_at_rest`), one worker; after any other post none, since a worker is at work then;
/// - after a turn that leaves destinations waiting, one more worker, which does the same;
/// - after a publication, all who wait for one. If posts go on, the worker that published sleeps for a moment before it opens the
///   next target, so that they don't wait for the lock at every other event; who waits for a publication wakes it;
/// - after a worker has gone, one worker, for what that one leaves, and all who wait for a publication: there may be no worker left.
#[derive(Drop)]
pub struct Signals {
    work: Condvar,
    news: Condvar,
    /// How many workers sleep for a moment.
    resting: AtomicU64,
}

impl Signals {
    /// Nobody sleeps yet.
    pub const fn new() -> Signals {
        Signals {
            work: Condvar::new(),
            news: Condvar::new(),
            resting: AtomicU64::new(0),
        }
    }

    /// Wakes a worker, if one sleeps: there is work for one more.
    pub(crate) fn tell_work(&self) {
        self.work.notify_one();
    }

    /// Wakes a worker after a post, if all that was accepted before it was published; else a worker is at work already, and goes on
    /// with what was posted.
    pub fn tell_post(&self, rested: bool) {
        if rested {
            self.tell_work();
        }
    }

    /// Wakes all who wait for a publication.
    pub(crate) fn tell_news(&self) {
        self.news.notify_all();
    }

    /// Wakes all, workers too.
    pub(crate) fn tell_all(&self) {
        self.work.notify_all();
        self.news.notify_all();
    }

    /// Sleeps until there may be work, without the lock.
    pub(crate) fn wait_for_work<'b, R: Wait, T>(
        &self,
        rt: &R,
        guard: MutexGuard<'b, T>,
    ) -> MutexGuard<'b, T> {
        self.work.wait(rt, guard)
    }

    /// How many wakes for workers there were.
    pub(crate) fn wakes(&self) -> u64 {
        self.work.notifications()
    }

    /// Sleeps for a moment without the lock, if no worker was woken since there were so many wakes.
    pub(crate) fn rest<R: Wait>(&self, rt: &R, wakes: u64) {
        self.resting.fetch_add(1, Ordering::SeqCst);
        self.work.sleep(rt, wakes, Duration::from_micros(MOMENT));
        self.resting.fetch_sub(1, Ordering::SeqCst);
    }

    /// Sleeps until there may be a publication, or a worker has gone, without the lock. A worker that sleeps for a moment is woken.
    pub fn wait_for_news<'b, R: Wait, T>(
        &self,
        rt: &R,
        guard: MutexGuard<'b, T>,
    ) -> MutexGuard<'b, T> {
        if self.resting.load(Ordering::SeqCst) > 0 {
            self.work.notify_one();
        }
        self.news.wait(rt, guard)
    }
}

/// Whether all that was accepted at a hub is published. Then its workers have nothing to do, and the next post gives work to one of
/// them; else one of them is at work, or about to be.
pub fn is_at_rest<N: Naming, P: Posters>(hub: &Hub<N, P>) -> bool
    ensures { IsTrue result ↔ (hub.now.state.desk.published.number ≡ accepted hub.now.state.desk) }
{
    let desk = hub.desk();
    desk.published().number() == desk.accepted()
}
