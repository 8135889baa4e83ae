//! The choice of one row, and its status.

pub use route_choice::{Choice, Far, choose, direct};
