//! What is answered to a line: its values (`Answer`), how they come about, and how they are told in text (all own).
//! Each text stands here and nowhere else, but for the forms of commands and their examples, which stand in `script_words`.
//!
//! 1. A question about the row of the point Y in the settled table of the destination X is refused 26 NoPlan where X
//!    has no plan, then 29 NoRow where Y has no row. It is answered by search, with no table made.
//! 2. What the row uses: `status STATUS class N by CODE CODE`, or `status prohibited` for class 0; class 5 is the mate.
//! 3. The link of each signalling link selection: `sls` and sixteen times `ID:SLC`, or `sls none` for class 0.
//! 4. The transfer messages in force from Y: `messages` and `TFA>CODE` for each, in rising code of the receiver.
//! 5. The octets of the message in force from Y to a point: `octets` and eight times `HH`, or `octets none`.
//! 6. Why Y uses what it uses: `why STATUS`, then ` ; class K CODE REASON` for each via of each class, the first first, and ` ; mate
//!    CODE REASON` if the row may use its mate; ` used` follows if Y leads its traffic over it. REASON is `ok`, `far restricted` or
//!    `far prohibited`, the status of the via, or the direct status of the mate; or `down ID LINK LINK .. far STATUS` with
//!    that status, if no link of the set between is available. A LINK is `SLC`, and `:failed`, `:blocked@CODE` and
//!    `:inhibited@CODE` for each of its marks, with the end that it is of.
//! 7. The links whose restoring makes the status of Y not prohibited, or allowed, that take least: `mend` and `ID:MARKED` for each,
//!    `mend ok` if none has to be restored, or `mend none` if no restoring does it. The commands that restore them: `remedy` and the
//!    commands, with ` ; ` between two; ` by CODE` follows one that is the matter of an end of the set. `remedy ok` and `remedy none`.
//! 8. The trace of a signalling link selection from Y to X: `trace reached` and `ID:SLC>CODE` for each hop, or `trace
//!    stopped`. It is refused as a question about a row is.
//! 9. What events would change: `whatif granted` or `whatif denied`, and `Y/X BEFORE>AFTER` for each change, where
//!    `none` stands for no row; or `refused`, the refusal of the first event that is refused, and `at PLACE`.
//! 10. What moved since the version before the published one, or since the one of a number: `changes P since N lost L regained R
//!     moved M`, and `Y/X BEFORE>AFTER` for each point and destination whose choice differs: the statuses, where these differ, else
//!     `STATUS:CLASS:CODE+CODE`; of all of them, or of those that are lost, regained or moved alone, as is asked; nothing if there is no
//!     version before, and refused 53 NotKept if the version isn't kept. What events would move: `reroutes lost ..`, told so too. `watch
//!     on` and `watch off` are answered so. What single failures would take, and single repairs bring back: `survey sets N`, `survey
//!     points N` or `survey down N` for N of them, and `ID:PAIRS` or `CODE:PAIRS` for each that takes or brings back some pair of a point
//!     and a destination. What a planner is warned of: `warn N`, and `NAME:VALUES` for each of N warnings.
//! 11. A check of every table by the local rule: `audit ok P` for P tables, or `audit bad X Y c` for the first wrong
//!    one: its destination, and the point and the letter of the first complaint.
//! 12. What is shown of the published network: `show points N sets N links N down N plans N tfr on`; `show down` and `ID:MARKED` for each
//!     link that isn't available; `show set`, `show point` and `show plan` with an entry of a network text, that of a point with its mate
//!     and its sets; `statuses allowed N restricted N prohibited N` and `Y:STATUS` for each row of a plan. They are refused 17 NoSet, 10
//!     NoPoint and 26 NoPlan where there is none.
//! 13. Replies of the desk: a post is answered `taken N`, or `again N` if it was accepted before; the change of a whole set or point
//!    `taken FIRST to LAST`; an opening `opened T
//!    waiting W`; the taking of a job `job V CODE`; a result `given`; an abandonment `abandoned`; a publication `published
//!    N`; `synced N` and `version P accepted N` tell what is published and accepted; `last SEQ` a collector's last
//!    sequence number; `who` and `NAME:EVENTS` for each seat, how many events were accepted through it.
//! 14. A refusal is `refused`, its number, its name and its values. An answer is told in one line, but that what a publication changed
//!     stands behind it on a line of its own, with `*` at its front.
//! 15. A line that is no command is refused 62 BadLine, but for `help`: it tells every word that begins a command, and `help
//!     WORD` the form of that word's commands, with an example and what they do: `help FORM, as EXAMPLE: MEANING`, and where they are
//!     refused, if they are. Both are of the table of `script_words`.
//! 16. Who tells the answers to a script is `Telling`: it says in which texts an answer may be told, and makes them. It may explain why a
//!     line is refused, by the network after all accepted events.
//!
//! Stands on `work_units`, `path_trace`, `what_if`, `tokens`, `script_words`, `itoa`. A change here also changes specs/ (Answers, Audits,
//! Changes, DeskRefusals, Ends, Filed, Help, Links, Mend, Messages, Refusals, Remedies, Replies, Reroutes, Rows, Shown, Status, Surveys,
//! Traces, Warnings, Ways, WhatIfs, Who, Why), proofs/, must-fail/ and wrong-bodies/.
#![tactic(auto)]

pub mod answer;
pub mod audits;
pub mod boxed;
pub mod changes;
mod codes;
mod desk_refusals;
mod ends;
pub mod help;
pub mod laws;
mod links;
mod mend;
mod messages;
pub mod printing;
pub mod refusals;
pub mod remedies;
pub mod replies;
pub mod reroutes;
pub mod rows;
mod showing;
pub mod shown;
mod shown_text;
mod status;
pub mod surveys;
pub mod taken;
pub mod telling;
pub mod text;
pub mod traces;
pub mod warnings;
pub mod ways;
pub mod what_ifs;
pub mod who;
mod why;

pub use answer::{Answer, Moved, NetAnswer, Publication, Reason, Reply, RowAnswer};
pub use audits::{answer_audit, clause_word, put_complaint};
pub use boxed::Boxed;
pub use changes::{answer_changes, moved_since};
pub use help::answer_other;
pub use laws::mend_law;
pub use messages::{hex_digit, kind_word};
pub use printing::{print_answer, put_answer, reason_title};
pub use refusals::{cause_word, put_refusal};
pub use remedies::{Action, Remedy, write_command};
pub use replies::{answer_abandoned, answer_given, answer_job, answer_open, answer_post};
pub use reroutes::answer_reroutes;
pub use rows::answer_about;
pub use showing::answer_shown;
pub use shown::{DownLinks, NetSize, PointStatus, SetNumbers, Shown, StatusCounts, Statuses};
pub use status::far_word;
pub use surveys::{answer_survey, surveyed_word};
pub use taken::{AllTaken, TakenEvents};
pub use telling::{Asked, Telling};
pub use text::Text;
pub use traces::answer_trace;
pub use warnings::{answer_warn, name_of_warning, put_warning, put_warning_lines};
pub use ways::{Offer, Way, Ways};
pub use what_ifs::answer_what_if;
pub use who::{SeatCount, SeatCounts, SeatNames, answer_who};
