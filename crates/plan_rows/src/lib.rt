//! What is wrong with the rows of a plan, and what they use.
//!
//! 1. A row of a plan is wrong by its first cause in this order: its point is the destination; an earlier row has its
//!    point; a via is not joined to it; a via stands twice; a via is neither the destination nor a transfer point with
//!    a row of lower rank; a via is the point's mate, and not the destination; the mate flag is set, and the point is no
//!    transfer point or has no mate, or the mate is not joined to it, is the destination or has no row of the same
//!    rank; it has neither a class nor the mate flag (own).
//! 2. "A row of lower rank" and "a row of the same rank" speak of any row of that point in the plan, before or after.
//!    The first wrong row is the first in the order given.
//! 3. A row uses the vias of its classes, and its point's mate if it has the mate flag; a plan uses its destination
//!    and the points of its rows (own).
//! 4. Questions of all rows are answered with tables by code, on the stack: nothing here takes memory.
//!
//! Stands on `net_sets`. A change here also changes specs/ (Causes, Ranks, Rows, Seen, Settings, Transfers, Uses),
//! proofs/, must-fail/ and wrong-bodies/.
#![tactic(auto)]

pub mod causes;
pub mod ranks;
pub mod row_questions;
pub mod seen;
pub mod settings;
pub mod transfers;
pub mod uses;

pub use causes::{Cause, WrongRow};
pub use settings::Setting;
