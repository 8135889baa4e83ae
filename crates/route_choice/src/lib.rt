//! The choice of a route for one row of a plan, from what the row is offered.
//!
//! 1. Over each via a row is offered the via's status: prohibited where transfer-prohibited is in force or the via
//!    cannot be reached (Q.704 clause 13.2), allowed (clause 13.3), restricted (clause 13.4).
//! 2. The row leads its traffic over the vias that offer the best status, in the lowest class that has one (own, after
//!    Q.704 clause 4); within that class each such via is a member.
//! 3. The direct status follows: prohibited if nothing better is offered (Q.704 clause 13.2); restricted where the
//!    best offer is restricted, or if it is allowed but not over class 1 (Q.704 clause 13.4); else allowed
//!    (Q.704 clause 13.3). Without the transfer-restricted option the status is allowed wherever it would be restricted.
//! 4. The mate is used, as class 5, where its direct status is better than the best offer (own). The status is then
//!    restricted, or allowed without the option.
//!
//! Stands on `net_items`. A change here also changes specs/ (Routes), proofs/, must-fail/ and wrong-bodies/.
#![tactic(auto)]

pub mod choices;
pub mod routes;

pub use choices::{Choice, Far};
pub use routes::{choose, direct};
