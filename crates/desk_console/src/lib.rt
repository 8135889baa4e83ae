//! A desk at a console: what each command of the script language does, and its answer (all own).
//!
//! 1. An event is posted by collector 0, under the sequence number after its last one; if that is the greatest
//!    number, it is refused 51 EndOfNumbers. `post`, `open` and `publish` are calls of the desk. `set CHANGE ID` and `point CHANGE
//!    CODE` are the change of each link of a set, or of all sets of a point, posted so one after the other: all of them or none.
//! 2. `take K` takes a job, does it, and keeps its result in the slot K; what was there is dropped once a job is given
//!    out. `give K` gives the result in the slot, which is empty then, or keeps the result if that is refused.
//!    `abandon K` abandons the destination of the result in the slot, which keeps it. If the slot is empty both are
//!    answered `refused 62 BadLine`.
//! 3. `sync` brings the desk up to date in line: destinations that are out are abandoned, in rising code; while a
//!    destination waits its job is taken, done and given; then the open target is published. If an event is newer, a target
//!    is opened and the same is done once more. If memory is refused, nothing that was accepted is lost. Slots keep their
//!    results.
//! 4. `version` tells the numbers of the published version and of the last accepted event. All other questions are
//!    answered from the published version alone.
//! 5. `changes` tells what moved from the version before to the published one: the one that was published when the last `publish` or
//!    `sync` came that published something. `changes N` tells it from the version N, if that is one of the last eight before the
//!    published one. After `watch on` each `publish` and `sync` that publishes something tells it too, behind its reply; `watch off`
//!    ends that. `last C` tells a collector's last sequence number, 0 if it has posted nothing.
//! 6. `picture FILE` gives a picture of the published network, for who tells the answers to put into that file: an SVG document if
//!    the file's name ends in `.svg`, in small letters or in capitals, else a DOT text; `picture FILE X` tells one about the
//!    destination X. `save FILE` gives the network after all accepted events for a file.
//! 7. A line that is no command is answered `refused 62 BadLine`, but for `help` and `help WORD`.
//!
//! Stands on `answers`, `pictures`. A change here also changes specs/ (Asked, Commands, Console, Does, Pictures, Right, Settling, Syncing, Taken,
//! Watch), proofs/, must-fail/ and wrong-bodies/.
#![tactic(auto)]

pub mod asking;
pub mod console;
mod obeying;
mod picturing;
mod slots;
pub mod syncing;
pub mod watching;
pub mod wholes;

pub use asking::answer_asked;
pub use console::Console;
pub use obeying::has_memory;
pub use picturing::answer_save;
pub use syncing::sync;
pub use watching::Watch;
pub use wholes::{answer_all_taken, events_at};
