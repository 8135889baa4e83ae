//! A desk: what it takes in, and what it publishes.

pub use desk_core::{Desk, Opened, Posted, Refusal, Reply, Step, Version, run};
