//! Link sets: which are available, and which points they join.
//!
//! 1. A link is available if it is not failed, not blocked and not inhibited (Q.704 clause 3.2).
//! 2. A link set is available where at least one of its links is (own, after Q.704 clause 3.2).
//! 3. At most one set joins two points (own; the rule of a valid network). Two points are neighbours where an
//!    available set joins them.
//! 4. Neighbours are told in rising point code (own).
//!
//! Stands on `net_items`. A change here also changes specs/ (Availability, Neighbours), proofs/, must-fail/ and wrong-bodies/.
#![tactic(auto)]

pub mod availability;
pub mod neighbours;

pub use availability::{is_connected, mask, set_available};
pub use neighbours::{Neighbours, next_neighbour, other_end};
pub use net_items::lookups::set_between;
