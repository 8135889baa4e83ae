//! Ranks of the rows of a plan (own).
//!
//! 1. A row is higher than the row of each of its vias that isn't the destination, and as high as the row of its mate where one of the two
//!    may use the other; the crate `plan_rows` says what a valid plan asks.
//! 2. The least ranks are such ranks, and none is above its like in others. There are none where rows need each other, or where a row
//!    would need a rank above 255.
//! 3. Ranks that are given to rows, one after the other, have to be those of these rows.
//!
//! Stands on `net_data`. A change here also changes specs/ (Given, Loops, Ranks), proofs/ and must-fail/.
#![tactic(auto)]

mod faults;
mod given;
pub mod laws;
mod loops;
mod needs;
mod ranks;

pub use faults::RankFault;
pub use given::{RowRank, ranked_rows};
pub use laws::rank_law;
pub use ranks::least_ranks;
