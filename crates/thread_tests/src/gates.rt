//! Gates that hold a job, or refuse it memory.

use point_codes::PointCode;
use std::alloc::{AllocError, Global};
use std::sync::atomic::{AtomicBool, AtomicU64, Ordering};
use std::thread;
use work_units::{Job, Settled, settle};
use worker_pool::Gate;

/// How many turns a job is held at most.
const LIMIT: u64 = 10_000_000;

/// Holds the job of one destination until a job of another has come through.
#[derive(Drop)]
pub(crate) struct Holding {
    held: PointCode,
    calls: AtomicU64,
    through: AtomicBool,
    late: AtomicBool,
}

impl Holding {
    pub(crate) fn of(held: PointCode) -> Holding {
        Holding {
            held,
            calls: AtomicU64::new(0),
            through: AtomicBool::new(false),
            late: AtomicBool::new(false),
        }
    }

    /// How many jobs came, and whether one was held to the limit.
    pub(crate) fn seen(&self) -> (u64, bool) {
        (
            self.calls.load(Ordering::SeqCst),
            self.late.load(Ordering::SeqCst),
        )
    }

    /// Waits until another job has come through.
    fn hold(&self) {
        for _ in 0..LIMIT {
            if self.through.load(Ordering::SeqCst) {
                return;
            }
            thread::yield_now();
        }
        self.late.store(true, Ordering::SeqCst);
    }
}

impl Gate for Holding {
    fn settle(&self, alloc: Global, job: Job) -> Result<Settled, (Job, AllocError)> {
        self.calls.fetch_add(1, Ordering::SeqCst);
        if job.dest() == self.held {
            self.hold();
            settle(alloc, job)
        } else {
            let settled = settle(alloc, job);
            self.through.store(true, Ordering::SeqCst);
            settled
        }
    }
}

/// Refuses memory for every job.
#[derive(Drop)]
pub(crate) struct Refusing;

impl Gate for Refusing {
    fn settle(&self, _alloc: Global, job: Job) -> Result<Settled, (Job, AllocError)> {
        Err((job, AllocError))
    }
}
