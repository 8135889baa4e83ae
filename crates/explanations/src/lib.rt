//! What each refusal, fault, cause, complaint and warning means and what to do about it (all own). Each explanation stands here and nowhere
//! else; the tables of docs/SCRIPT.md show them.
//!
//! 1. An explanation has a title, which is what is printed: `27 BadRow`; of a cause or a complaint its letter and its name:
//!    `a IsDest`, `b route`; of a warning and of the limits a name alone. It says what the values behind the title are, what it means and what to do.
//! 2. Each refusal of an event, of the desk and of a line, each fault, cause, complaint and warning has one, under the title that is printed of it.
//! 3. The list has each number once, in the order of docs/SCRIPT.md. Warnings have a list of their own.
//! 4. A word finds the explanation whose title, number or name it is, and no other has that number or name. A letter alone finds the
//!    cause of that letter.
//! 5. An explanation is written as three or four lines, the list as a line for each.
//!
//! Stands on `plan_rows`, `net_data`, `transfer_state`, `work_units`, `what_if`, `net_text`, `answers`, `sessions`. A change here also changes
//! specs/ (Names, Titles, Written), proofs/, must-fail/, wrong-bodies/ and the tables of docs/SCRIPT.md.
#![tactic(auto)]

mod causes;
mod complaints;
mod desk;
mod edits;
pub mod explanation;
mod faults;
pub mod laws;
mod lines;
mod list;
mod warned;

pub use causes::explain_cause;
pub use complaints::explain_complaint;
pub use desk::explain_desk;
pub use edits::explain_edit;
pub use explanation::{Explanation, write_explanation, write_titles};
pub use faults::{explain_fault, explain_load};
pub use laws::{letters_law, names_law, titles_law};
pub use lines::explain_reason;
pub use list::{explanations, find, find_warning, warnings};
pub use warned::explain_warning;
