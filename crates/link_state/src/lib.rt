//! The state of a signalling link: its marks, and what changes them.
//!
//! 1. A link is failed (failed or inactive), blocked or inhibited (Q.704 clause 3.2); blocking and inhibiting are
//!    done by either end (own), so a link carries five marks.
//! 2. It is available if no mark is set (Q.704 clause 3.2).
//! 3. Its case of unavailability is 1 where failed, plus 2 if an end has blocked it, plus 4 if an end has
//!    inhibited it (numbering own); 0 is available.
//! 4. A new link has the failed mark alone (own).
//!
//! Stands on nothing of ours. A change here also changes specs/ (Marks), must-fail/ and wrong-bodies/.
#![tactic(auto)]

pub mod marks;

pub use marks::{End, LinkChange, Marks};
