//! The command line of the desk (all own).
//!
//! 1. `route_desk run NET` answers a script from the network NET; `--save FILE` says if the network is written then.
//!    `--workers N` says how many threads settle jobs beside the script: N is a number 0 to 32, written without sign or
//!    leading zeros, and 0 if it isn't given.
//! 2. `route_desk play NET STEPS` answers the script of the file STEPS; `--save FILE` as above.
//! 3. `route_desk serve NET SEATS` answers many sessions at one desk over the network NET, as the file SEATS says them;
//!    `--save FILE` and `--workers N` as above, but that N is 1 if it isn't given.
//! 4. `route_desk check NET` works out and checks the tables of all destinations of the network NET; with the flag `--warn` it tells
//!    what a planner should look at, too.
//! 5. `route_desk survey NET` surveys the failures of single link sets of the network NET, with the flag `--points` those of transfer
//!    points.
//! 6. `route_desk picture NET` draws the network NET: as an SVG text with the flag `--svg`, else as a Graphviz DOT text.
//!    `--about X` says for which destination X the way of the traffic is drawn; X is any word here.
//!    `route_desk report NET` writes a report of the network NET with such a picture; it has `--about X` too.
//! 7. `route_desk import DIR` makes a network text from the tables of the folder DIR.
//! 8. `route_desk export NET DIR` writes the network NET as tables in the folder DIR, with the flag `--ranks` the ranks of its rows too.
//! 9. `route_desk explain WHAT` tells what the number or name WHAT means; WHAT may be left out, and is any word here.
//! 10. With the flag `--explain` all commands but explain say on standard error what is wrong.
//! 11. With the flag `--json` the commands run, play, serve, check, survey and explain write JSON objects.
//! 12. With the flag `--strict` the commands run and play save nothing, and end with status 1, if a line was refused.
//! 13. With the flag `--no-files` the commands run, play and serve refuse what would write a file for a script.
//! 14. An order is a task, one for each command, with its options; what a command hasn't is `None` or `false`.
//! 15. NET is a file, or in `run` alone `-` for standard input. An N that is no such number is refused by a fault of its own,
//!     whose `explained` is true exactly if the flag `--explain` is given. Any other words are told by `clap`, as are `--help`
//!     and `--version`.
//!
//! Stands on `clap`. A change here also changes specs/ (Words), proofs/, must-fail/ and wrong-bodies/.
#![tactic(auto)]

mod commands;
pub mod laws;
mod orders;
pub mod words;

pub use laws::version_law;
pub use words::{Options, Order, Task, WordFault, read_words};
