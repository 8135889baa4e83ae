//! The desk's machine: numbered versions after any list of posts, openings, jobs, results and publications (all own).
//!
//! 1. A collector posts events with rising sequence numbers. A post again, with the sequence number and the event of the last
//!    accepted one, answers the number that this has. Otherwise it is refused in this order: an old sequence number, the last one with
//!    another event, one that leaves some out, the end of numbers, a full backlog, what the network refuses, out of memory.
//!    Else the event is accepted, under the next number.
//! 2. An opening freezes the accepted events as the target: the next version's number and network. Exactly the planned
//!    destinations that one of the events touches wait then, in rising code. All others keep their routing.
//! 3. A job is for the first destination that waits; it is out until its result is given or it is abandoned, and then waits
//!    again, last. A result is installed only for the target that it names, for a destination that is out, and if what it read is
//!    what the target's network has; else it is handed back.
//! 4. The target is published once nothing waits and nothing is out: the version with its number, the events since the
//!    version before, and its network, with the settled routing of each planned destination.
//! 5. A refusal leaves all as it was; out of memory comes last. Taking in results, abandoning and reading take no memory, and
//!    a change of a link takes none while room is reserved.
//!
//! Stands on `work_units`, `path_trace`, `dirty_sets`. A change here also changes specs/ (Desk, Inside, Runs, Steps,
//! Targets), proofs/, must-fail/ and wrong-bodies/.
#![tactic(auto)]

pub mod desk;
mod following;
mod opening;
pub mod posts;
pub mod runs;
pub mod steps;
mod targets;

pub use desk::Desk;
pub use net_versions::Version;
pub use runs::run;
pub use steps::{Reply, Step};
pub use work_units::{Opened, Posted, Refusal};
