//! The table of an excerpt: statuses, routes, links and transfer messages, made by one sweep in rising rank, or checked
//! row by row.
//!
//! 1. The statuses of the vias of a row, and of the vias of its mate, are those of rows of lower rank, so one sweep over
//!    the ranks in rising order gives every choice with its status (own, after Q.704 clauses 13.2 to 13.4).
//! 2. With its choice each row has the link of each signalling link selection (Q.704 clause 2.3) and, at a transfer
//!    point, its messages in force (Q.704 clauses 13.2 to 13.4). The links are held by the sets to the members.
//! 3. A transfer point tells each neighbour but the destination: prohibited if it leads its own traffic over that
//!    neighbour, and else its status. An end point tells nothing (Q.704 clauses 13.2 to 13.4).
//! 4. The table is the one that the definitions of `profile` give from scratch.
//! 5. A table that is at hand is checked by the local rule (own): each row is what it makes of the messages that its
//!    neighbours hold towards it. Exactly the table from scratch passes. What is kept of a table is checked by the same rule.
//! 6. The routing towards a destination is the choice of each row. A byte is kept of it: class, places used and status (own). These bytes
//!    are shared, and what follows, members, links and messages, is worked out when it is asked for.
//! 7. The routing of a plan can be followed from that in another network, if the two differ in link sets alone: only rows that rest on
//!    a set that became available or was so no longer, or on a status that changed, are chosen anew (own).
//!
//! Stands on `excerpts`. A change here also changes specs/ (Complaints, Following, Kept, Members, Promises, Routing, Told), proofs/,
//! must-fail/ and wrong-bodies/.
#![tactic(auto)]

mod auditing;
pub mod choices;
mod choosing;
mod comparing;
pub mod complaints;
mod following;
mod hearing;
mod kept;
mod routes;
pub mod routing;
pub mod shared;
pub mod slots;
mod states;
mod sweep;
pub mod table;

pub use auditing::check_kept;
pub use choices::Choices;
pub use complaints::{Clause, Complaint, check};
pub use kept::Kept;
pub use profile::tables::{LinkRef, Message, Messages, RowLinks, RowState, RowStates, Table};
pub use routing::Routing;
pub use shared::SharedRouting;
pub use slots::RoutingSlot;
pub use states::{is_member, size_of};
pub use table::table_of;
