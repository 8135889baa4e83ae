//! Networks that tests start from, by their texts, and the codes and edits that tests name.
//!
//! Stands on `net_text`. Nothing else changes with it.
#![tactic(auto)]

pub mod networks;

pub use networks::{TWO_ENDS, WORKED, add_set, code, net_of, two_ends, worked};
