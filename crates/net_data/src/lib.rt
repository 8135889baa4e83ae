//! A network that is always valid, and its edits.
//!
//! 1. A network has a network indicator, the option of transfer-restricted messages, points, link sets and plans
//!    (Q.704 clause 2, Q.705).
//! 2. It is always valid: mates are two different transfer points, each the other's mate (Q.705); one link set of 1 to
//!    16 links joins two different points; each via of a row is joined to the row's point, stands once in the row, and is
//!    the destination or a transfer point with a row of lower rank; no via is the row point's mate, unless that is the
//!    destination; the mate of a row with the mate flag is joined to it and has a row of the same rank (ranks and mates
//!    own).
//! 3. An edit is refused by the first refusal that applies, in the order of their numbers, or makes one change. Want of
//!    memory comes last and changes nothing; an edit of a link's state takes no memory.
//!
//! Stands on `plan_rows`. A change here also changes specs/ (Edits, Kinds, Network, Valid), proofs/, must-fail/ and wrong-bodies/.
#![tactic(auto)]

pub mod edits;
pub mod equals;
pub mod events;
pub mod nets;
pub mod plans;
pub mod sorting;

pub use events::{Cause, Event, Refusal};
pub use nets::Net;
pub use plans::Plans;
