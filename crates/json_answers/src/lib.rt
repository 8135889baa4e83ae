//! Answers as objects of JSON (all own).
//!
//! 1. Each answer is one object on a line of its own, made of the values of the answer. It has `word`, which tells what it is, and the
//!    values under names; a refusal has `refused`, its number, and `name` instead, and then its values.
//! 2. Numbers are numbers, codes and words are texts, and null stands where there is nothing. What an answer lists is an array: of
//!    objects, or of texts.
//! 3. What a publication moved, if that is told, is an object of its own behind that of the publication: the notice.
//! 4. An answer is printed in a form: in text, or as objects.
//! 5. The text of an answer's object reads as that object.
//! 6. A check of a file, and an explanation, are objects too.
//! 7. Who tells the answers to a script in a form may have a clerk put its pictures and networks into files, explain why lines are refused, and see each
//!    answer before it is told.
//!
//! Stands on `answers`, `tokens`, `json`. A change here also changes specs/ (Checks, Filing, Form, Marked, Members, Objects,
//! Refusals, Shown, Values), proofs/, must-fail/ and wrong-bodies/.
#![tactic(auto)]

pub mod checks;
pub mod filing;
pub mod form;
mod members;
mod moves;
mod nets;
pub mod objects;
mod refusals;
mod remedies;
mod replies;
mod rows;
mod shown;
mod surveys;
pub mod texts;
mod told;
mod warnings;
mod ways;
mod who;

pub use checks::{write_right, write_wrong};
pub use filing::{Clerk, Content, Filing, Outcome};
pub use form::Form;
pub use objects::write_object;
pub use texts::write_texts;
