//! Many sessions at one desk, each in a thread of its own, beside workers (all own).
//!
//! 1. Each session has a reader, a writer, who tells its answers, and a seat at one hub. Its lines are answered as those of a script
//!    beside workers are, one after the other; sessions wait for one another at the hub's lock alone.
//! 2. A session that may not post has its events and posts answered `refused 62 BadLine`. Its plain events are posted by its own
//!    collector, under the sequence number after that collector's last one. `who` tells how many events were accepted through each
//!    session, by its name.
//! 3. A fault ends its own session, and the others go on; who wants to know is told at once. The run ends when all sessions have.
//! 4. One list of accepted events explains what every session was told: each `taken N` is the N-th event of it, and came through
//!    that session; each of its events was told so once; and every version that was published or seen is the one of its number.
//!
//! Stands on `beside`. A change here also changes specs/ (Seated, Served, Sittings), proofs/ and
//! must-fail/.
#![tactic(auto)]

mod channels;
mod ends;
mod runs;
mod seated;
mod seating;
mod sittings;

pub use channels::{Channel, DeskEnd, Farewell, Rules, SessionEnd, Silent};
pub use runs::run_seats;
pub use seated::Seated;
