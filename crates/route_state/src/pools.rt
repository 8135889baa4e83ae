//! Worker threads at a hub.

pub use worker_pool::{
    Gate, Plain, PoolEnd, Signals, WorkerEnd, is_at_rest, lend_a_hand, run_pool, stop, work,
};
