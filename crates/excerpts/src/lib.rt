//! A network that is shared, and one destination's view of it.
//!
//! 1. A network that doesn't change is shared, and not copied, by all who ask. It keeps an index of adjacent points, made
//!    once for all networks whose sets join the same points: which set is between two points, and who the neighbours of a
//!    point are (own). Contracts see the network alone: the index is never seen, and never wrong.
//! 2. Neighbours are the points that an available set joins, in rising code (own, after Q.704 clause 3.2).
//! 3. The table of a destination reads the plan, the kinds of the row points, the mates of those whose row has the mate
//!    flag, the transfer-restricted option, and every link set with an end that is a transfer point with a row, or
//!    between a row's point and one of its vias (own).
//! 4. An excerpt refers to the network and the plan where they stand; one that has to last shares them. Two excerpts are equal if their
//!    tables read the same.
//! 5. Two networks that agree on what a table reads give the same table.
//! 6. Of two networks it tells between which points an available set is in one of them alone (own, after Q.704 clause 3.2).
//! 7. It tells of points all of whose sets are available that they are such, where a small table shows it (own).
//!
//! Stands on `net_data`, `profile`. A change here also changes specs/ (Around, Excerpt, Index, Intact, Turned),
//! proofs/, must-fail/ and wrong-bodies/.
#![tactic(auto)]

pub mod excerpt;
pub mod faults;
pub mod frozen;
mod index;
mod indexed;
mod intact;
mod joints;
pub mod laws;
pub mod neighbours;
mod positions;
pub mod reading;
pub mod shared;
pub mod turned;

pub use excerpt::Excerpt;
pub use faults::ExcerptFault;
pub use frozen::Frozen;
pub use laws::same_table_law;
pub use neighbours::Neighbours;
pub use shared::SharedExcerpt;
pub use turned::{Ends, are_keeping};
