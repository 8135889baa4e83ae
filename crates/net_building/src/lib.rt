//! The events that build a network.
//!
//! 1. The events of a network are, in this order: SetTfr; AddPoint for each point; Pair for each pair of mates, the one of
//!    the lower code first; for each set AddSet and then the changes that its links need, each new link being failed alone:
//!    Restore, Block and Inhibit of the first and of the second end; SetPlan for each plan (own).
//! 2. None of them is refused, and together they make the network.
//! 3. The events of a set, as a text gives it, are made here, and events are applied one after the other, up to the first refusal.
//! 4. The change of a whole set or point means the change of each link of the set, or of all sets that end at the point; of a point
//!    the first end is its own. It is refused 17 NoSet or 10 NoPoint if there is none; none of its events is refused.
//! 5. What of a network can be surveyed, one after the other: its sets, its transfer points, and its sets that are down.
//!
//! Stands on `net_data`. A change here also changes specs/ (Building, Wholes), proofs/, must-fail/ and wrong-bodies/.
#![tactic(auto)]

mod applying;
mod given;
pub mod laws;
mod sets;
mod surveyed;
mod wholes;

pub use applying::{apply_each, apply_events};
pub use given::GivenSet;
pub use laws::rebuilt_law;
pub use sets::events_of_set;
pub use surveyed::Surveyed;
pub use wholes::{Listed, Whole, events_of_listed, events_of_whole, refusal_of_whole};
