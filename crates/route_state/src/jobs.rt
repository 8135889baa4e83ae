//! A job to settle one destination, and its result.

pub use work_units::{Job, Settled, settle};
