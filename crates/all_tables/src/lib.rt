//! The settled tables of all planned destinations of a network, worked out and checked by threads.
//!
//! 1. Each planned destination has one settled table: the one that the profile gives from scratch (own, after Q.704
//!    clauses 2.3 and 13.2 to 13.4). The tables of two destinations don't rest on each other.
//! 2. Tables that are at hand are checked one by one, each by the local rule alone; the first complaint is that of the
//!    first wrong table (own).
//! 3. The work is split among as many threads as there are processors; what comes of it is as from one.
//!
//! Stands on `transfer_state`, `rayon`. A change here also changes specs/ (Tables), proofs/, must-fail/ and wrong-bodies/.
#![tactic(auto)]

pub mod checking;
pub mod making;

pub use checking::{Wrong, check_tables};
pub use making::tables_of;
