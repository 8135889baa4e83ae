//! Availability of sets, the set between two points, and neighbours.

pub use link_sets::{Neighbours, is_connected, mask, next_neighbour, set_available, set_between};
