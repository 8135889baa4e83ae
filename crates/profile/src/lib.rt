//! The profile for one destination: statuses, routes, links, transfer messages, tables and traces, as definitions with
//! their laws.
//!
//! 1. A transfer-prohibited message stops traffic for the destination over its sender (Q.704 clause 13.2), a
//!    transfer-allowed one lets it pass (clause 13.3), a transfer-restricted one lets it pass if no other way is as
//!    good (clause 13.4).
//! 2. The status of the destination at itself is allowed. At any other point it is what the point's row makes of the
//!    statuses of its vias and of the direct status of its mate, by recursion on the rank (own, after Q.704 clauses
//!    13.2 to 13.4); a point with no row is prohibited.
//! 3. A via whose set is not available offers what a prohibited one offers (Q.704 clause 3.2).
//! 4. A transfer point tells each point that an available set joins to it, but the destination: prohibited if it
//!    leads its own traffic over that point, and else its status (Q.704 clauses 13.2 to 13.4).
//! 5. Each signalling link selection is carried by one via of the row's class and by one link of its set (Q.704
//!    clause 2.3).
//! 6. A table holds all this for the rows of one plan. It reads the sets of its transfer points and of its rows' vias,
//!    and no others (own).
//!
//! The crate has no program but the constructors, readers and copies of its types: `profile_law` states on its contract
//! what holds of every valid source.
//!
//! Stands on `sls_share`, `route_choice`. A change here also changes specs/ (Laws, Links, Local, Reads, Status, Traces,
//! Valid, Walk, Whole), proofs/, must-fail/ and wrong-bodies/.
#![tactic(auto)]

pub mod hops;
pub mod laws;
pub mod tables;

pub use hops::{Hop, Hops, Trace};
pub use laws::profile_law;
pub use tables::{LinkRef, Message, Messages, RowLinks, RowState, RowStates, SetLinks, Table};
