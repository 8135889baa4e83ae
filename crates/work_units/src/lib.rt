//! A job to settle the routing towards one destination, and its result; and what a desk answers (own).
//!
//! 1. A job names the version that it is for and holds what the table of its destination reads.
//! 2. A result keeps version and excerpt of its job, and its routing is the one of that excerpt from scratch: no other can be made.
//! 3. A job needs nothing but itself, so it can be done anywhere, at any time, and twice.
//! 4. A job may have the routing of its destination in the version before, from which the result is followed: it is the same.
//! 5. What a desk answers to a post, to an opening and to a call that it refuses is plain data. When it answers which, the
//!    desk says; how each is printed, `answers` says. So neither of the two waits for the other to be proved.
//!
//! Stands on `transfer_state`. A change here also changes specs/ (Before, Work), must-fail/ and wrong-bodies/.
#![tactic(auto)]

mod befores;
pub mod jobs;
pub mod replies;
pub mod results;

pub use jobs::Job;
pub use replies::{Opened, Posted, Refusal};
pub use results::{Settled, settle};
