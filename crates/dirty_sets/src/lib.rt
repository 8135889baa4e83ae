//! Which destinations an event touches, and which wait until their tables are settled again.
//!
//! 1. An event on a set touches each planned destination whose table reads the set before or after it. A plan that is
//!    set or dropped touches its own destination, and the transfer-restricted option all that are planned (own).
//! 2. What is not touched reads the same after the event, and so has the same table.
//! 3. An index tells which sets the table of each planned destination reads, and follows each accepted event.
//! 4. Events on links are only noted: what they touched is marked at the next change of the index.
//! 5. Destinations wait in order. The first goes out; one that is out waits again, last, or is done (own).
//!
//! Stands on `excerpts`, `indexmap`. A change here also changes specs/ (Bits, Entries, Index, Kept, Marks, Touch,
//! Touched, Waiting), proofs/, must-fail/ and wrong-bodies/.
#![tactic(auto)]

pub mod bits;
pub mod index;
pub mod laws;
mod noted;
mod readers;
mod reading;
pub mod touched;
pub mod waiting;

pub use bits::Codes;
pub use index::TouchIndex;
pub use laws::untouched_law;
pub use touched::Touched;
pub use waiting::Waiting;
