//! Events, commands and questions in words: what a line of a script says.
//!
//! The words come split at spaces. ID, SLC, CODE, KIND and ROW are the tokens of the crate `tokens`. The forms of EVENT (own):
//!
//! 1. `fail ID SLC` and `restore ID SLC`: a link fails or is restored.
//! 2. `block ID SLC`, `block ID SLC a` and `block ID SLC b`, and so `unblock`, `inhibit` and `uninhibit`: a change that
//!    an end makes. `a` is the set's first end, `b` the second; if no end is named, it is the first.
//! 3. `point add CODE KIND` and `point drop CODE`: a point comes or goes.
//! 4. `pair CODE CODE` and `unpair CODE`: two points become mates, or a point and its mate are mates no longer.
//! 5. `set add ID CODE CODE SLC SLC ..`, with at least one SLC, and `set drop ID`: a link set comes, with its first and
//!    its second point and its links, or goes.
//! 6. `link add ID SLC` and `link drop ID SLC`: a link of a set comes or goes.
//! 7. `plan set CODE ROW ROW ..` and `plan drop CODE`: the plan of a destination is set, or goes. No ROW is an empty
//!    plan.
//! 8. `tfr on` and `tfr off`: the option of transfer-restricted messages.
//!
//! The forms of a command (own):
//!
//! 9. EVENT: an event, posted by collector 0. `post C SEQ EVENT`: a post by the collector C, 0 to 255, with the sequence
//!    number SEQ, a number of 64 bits.
//! 10. `open`, `publish`, `sync`, `version`, `who`, `warn` and `audit` stand alone; `take K`, `give K` and `abandon K` name a slot, 0 to 31; `last C`
//!     names a collector; `changes` and `changes N`, N a number of 64 bits, either with `lost`, `regained` or `moved` after it; `watch on`
//!     and `watch off`.
//! 11. `status Y X`, `sls Y X`, `messages Y X`, `octets Y Z X`, `why Y X`, `mend Y X`, `mend allowed Y X`, `remedy Y X` and `remedy allowed
//!     Y X`: a question about the row of the point Y in the table of the destination X; `trace Y X S`: the trace of the signalling link selection S, 0 to 15; `picture FILE` and
//!     `picture FILE X`: a picture for a file, whose name is a text in UTF-8; `save FILE`. `show`, `show down`, `show set ID`, `show point CODE` and
//!     `show plan X`: something of the published network; `statuses X`: how each point of the plan of X reaches X.
//! 12. `whatif EVENT ; EVENT ..`: what the events would change, and so `reroutes`: what they would move. `;` is a word of its own between two events, and there is
//!     at least one EVENT. `survey sets`, `survey points` and `survey down`, alone or with such a list after it: what single failures would take, or
//!     single repairs bring back.
//! 13. Words are read exactly if they are what is written of their event or command: no other word, and none too many or
//!     too few. Only a change of the first end has two forms, with `a` and without.
//! 14. `set CHANGE ID` and `point CHANGE CODE`, with `END` or without, may stand in the place of an EVENT in such a list and as a line of
//!     their own: the change of a whole set or point. CHANGE is the first word of a change of a link.
//! 15. One table has each word that begins a command, the form of its commands, an example and what they do, and `help` and `quit`
//!     besides, which begin none. A new command is a new entry, and `forms_law` isn't proved without it.
//!
//! Stands on `net_data`, `tokens`. A change here also changes specs/ (Commands, EventWords, Events, Forms, Numbers, Wholes), proofs/,
//! must-fail/ and wrong-bodies/.
#![tactic(auto)]

mod changes;
mod command_words;
mod commands;
mod edits;
mod events;
mod form_table;
pub mod laws;
mod lines;
mod lists;
pub mod moves;
mod numbers;
mod pictures;
mod queries;
pub mod questions;
pub mod shows;
mod surveys;
mod verbs;
mod what_ifs;
mod wholes;
mod words;

pub use commands::{Command, Events, FileName};
pub use edits::{read_added_point, read_pair, read_plan};
pub use events::read_event;
pub use form_table::{Form, form_of, forms};
pub use laws::{event_law, forms_law, sequence_law};
pub use lines::read_line;
pub use moves::Moves;
pub use questions::Question;
pub use shows::Show;
