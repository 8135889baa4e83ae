//! The hub: a desk and the chain of its published versions, as one value for a lock, and readers that never wait (all own).
//!
//! 1. Each call of the hub is one step of its desk, and leaves all else as it is. A publication also puts just that version at
//!    the end of the chain; a refusal leaves desk and chain as they were.
//! 2. In the chain each version follows the one before it: its number is that plus the length of its batch, and its network is
//!    that of the one before after the batch. The desk's published version is the last.
//! 3. A reader takes no lock, no memory and no wait. What it sees is the last version of a chain that begins with all that it has
//!    seen and was told of. A note tells a chain to a reader that has been elsewhere.
//! 4. To a hub either anyone posts, or who has a seat there. Others may open, take, give, abandon and publish at a hub with seats.
//!    All who have a seat are told in the hub's minutes, and share one history: who comes back finds that only others came since
//!    it left, and that between two sights either workers made steps, or the one who was there posted. The hub counts how many events
//!    were accepted through each seat.
//! 5. A job that was just taken gets a ticket. A result that comes with the ticket of its job isn't compared with the target's
//!    network, as long as that target is open.
//!
//! Stands on `desk_core`, `seats`, `left_right`, `logbook`. A change here also changes specs/ (Authors, Book, Chains,
//! Hubs, Tickets, Worked, Working), proofs/, must-fail/ and wrong-bodies/.
#![tactic(auto)]

mod book;
mod guests;
mod hub;
mod laws;
mod posters;
mod prefix;
mod publishing;
mod reader;
mod shelf;
mod state;
mod tickets;

pub use book::Naming;
pub use guests::{Guest, History, UnnamedWithSeats};
pub use hub::{Hub, Unnamed};
pub use laws::{alone_law, synced_law, worked_law};
pub use net_versions::Version;
pub use posters::{Anyone, BySeats, Posters};
pub use reader::{NoPlace, Note, Reader};
pub use state::DeskAndChain;
pub use tickets::Ticket;
