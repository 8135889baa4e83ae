//! A script beside worker threads (all own).
//!
//! 1. A script is run as `sessions` says it, from a new desk over a network, while workers open targets, settle jobs and
//!    publish versions. What answers a line is an `Answer`, a value; the text that is written of it is whatever the caller's
//!    `Telling` makes of it.
//! 2. An event, `post`, `version`, `last` and `save` are done under the lock, at the desk as it is found: as the script's thread left it, after
//!    steps of workers and no others. There they do what they do in line. The script's reader is told of what is published.
//! 3. What is asked of the published version (each question, `trace`, `whatif`, `reroutes`, `survey`, `audit`, `picture`) is answered
//!    from a look, without the lock: from the last version of a chain that begins with all that was seen before.
//! 4. `sync` waits for a look that shows all events that were taken, and tells its number. If no worker lives, the script's
//!    thread does their work meanwhile. `changes` tells what moved up to the last `sync`: between the versions that the last two of
//!    different numbers told, or from the one of a number. After `watch on` each `sync` with another version tells it too, as in line.
//! 5. `open`, `take`, `give`, `abandon` and `publish` are the workers' own, and answered `refused 62 BadLine`.
//! 6. A run without a fault gives back the network after all accepted events. It may also end with 50, if there is no place
//!    for the reader.
//!
//! Stands on `answers`, `sessions`, `desk_console`, `worker_pool`. A change here also changes specs/ (Beside, Right, Runs,
//! Seats, Synced, Told), proofs/ and must-fail/.
#![tactic(auto)]

mod answering;
mod asking;
pub mod laws;
mod reading;
mod running;
mod visitor;
mod wholes;

pub use answering::Beside;
pub use laws::workers_law;
pub use reading::BesideEnd;
pub use running::{run_beside, run_input_beside};
pub use visitor::Visitor;
