//! What a network is made of, as plain data: points, link sets with their links, and plans with their rows.
//!
//! 1. A signalling point is a signalling end point or a signalling transfer point, and may have a mate (Q.705).
//! 2. A link set is a set of links that directly join two points; a link is named by its signalling link code
//!    (Q.704 clause 2.2).
//! 3. A plan says, for one destination, over which adjacent points each point leads its traffic: classes of one or
//!    two vias in order of priority, and whether the mate may be used (own, after Q.704 clause 4).
//!
//! The lists inside these types are small types of their own, which contracts see as lists. Whether they make a
//! valid network is the subject of the crate `net_data`.
//!
//! Stands on `point_codes`, `link_state`, `smallvec`. A change here also changes specs/ (Classes, Keyed, Links, Lookups, Vias), proofs/,
//! must-fail/ and wrong-bodies/.
#![tactic(auto)]

pub mod classes;
pub mod copies;
pub mod equals;
pub mod items;
pub mod links;
mod listing;
pub mod lists;
pub mod lookups;
pub mod vias;

pub use classes::Classes;
pub use items::{GivenPlan, Kind, LinkSet, Plan, Point};
pub use links::{Link, LinkList, Links};
pub use listing::Listing;
pub use lists::{Row, Rows, Slcs};
pub use vias::Vias;
