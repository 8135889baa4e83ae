//! Which destinations an event touches, and who waits or is out.

pub use dirty_sets::{TouchIndex, Waiting};
