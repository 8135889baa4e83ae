//! The link sets of a network, in rising id, with an index of the pairs of points that they join.
//!
//! 1. A link set is a set of links that directly join two points; a link is named by its signalling link code
//!    (Q.704 clause 2.2). Sets are found by their ids, links by their codes (ids own).
//! 2. The index tells of each pair of points whether a set joins it. It follows each set that comes or goes; a change
//!    of a set's links leaves it as it is (own).
//! 3. A new set has a link and no code above 15 or twice; a new link has the failed mark alone (own, after Q.704
//!    clause 3.2).
//! 4. Out of memory leaves the sets as they were. Only a new set, a new link and a copy take memory.
//!
//! Stands on `net_items`. A change here also changes specs/ (Joints, Sets), proofs/, must-fail/ and wrong-bodies/.
#![tactic(auto)]

pub mod changes;
pub mod set_questions;
pub mod sets;

pub use sets::{Around, Sets};
