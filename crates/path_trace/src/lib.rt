//! Traces of signalling link selections through a published version.
//!
//! 1. A trace follows the link that carries a signalling link selection from each point to the next (Q.704 clause 2.3),
//!    by the settled routing towards its destination.
//! 2. It is refused if the destination has no plan, and then if the point has no row (own).
//! 3. It stops exactly if the status of the point is prohibited. Else it leads to the destination, in at most twice
//!    the rank of hops (own).
//!
//! Stands on `net_versions`. A change here also changes specs/ (Traces), proofs/ and must-fail/.
#![tactic(auto)]

pub mod faults;
pub mod traces;

pub use faults::TraceFault;
pub use traces::trace;
