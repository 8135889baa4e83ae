//! The edge of the desk to the people who run it: scripts and inputs that a desk answers in line, and the check of a
//! network (all own).
//!
//! 1. A script is run as `sessions` says it. Each line that isn't too long or silent is answered with what
//!    `desk_console` does with it, from a new desk over the network, by the thread that reads the script; whoever is
//!    `Telling` makes the text of the answer.
//! 2. A run without a fault gives back the network after all accepted events.
//! 3. An input starts with the network text, up to the first line that is `%%`, and the script comes after that line;
//!    without it the input is the network text. Nothing is written unless the network text was read and loaded.
//! 4. The check of a network works out the settled tables of all planned destinations, checks each by the local rule,
//!    and answers `ok P` for P plans or `bad X Y c`: the destination of the first wrong table, and point and letter of
//!    the first complaint about it.
//! 5. A network's single failures are surveyed by as many threads as there are processors, and a planner is warned by these surveys;
//!    what comes of it is as from one thread.
//!
//! Stands on `all_tables`, `what_if`, `desk_console`, `sessions`, `rayon`. A change here also changes specs/ (Checking, Headline, InLine),
//! proofs/ and must-fail/.
#![tactic(auto)]

pub mod checking;
mod in_line;
pub mod input;
pub mod script;
pub mod surveying;

pub use checking::{CheckEnd, check_given, check_net};
pub use input::run_input;
pub use script::run_script;
pub use sessions::{Fault, ScriptEnd, input_parts_law, read_net, write_fault};
pub use surveying::{Unwatched, Watch, survey_by, warn_by};
