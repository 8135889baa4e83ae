//! Networks as TOML texts.
//!
//! 1. A network text is a TOML document with the keys `format` (1 or 2) and `ni` (0 to 3), which are required, and
//!    `tfr` (true or false, true where missing, format 2 alone), `points`, `pairs`, `sets` and `plans` (arrays of
//!    strings, empty where missing) (own).
//! 2. An entry of `points` is `CODE KIND`, of `pairs` `CODE CODE`, of `sets` `ID CODE CODE MARKED MARKED ..` with at
//!    least one MARKED, and of `plans` `CODE ROW ROW ..`; the crate `tokens` has the tokens (own).
//! 3. The network is what these events make of the empty one, in this order: SetTfr; AddPoint for each point; Pair for
//!    each pair; for each set AddSet, then Restore, Block and Inhibit for the links whose marks need it, the first end
//!    before the second; SetPlan for each plan.
//! 4. The faults come in this order: the text is no TOML; an unknown key; a bad key, in the order of rule 1; a bad
//!    entry, in the order of rule 3, by its place, counted from 1: one that can't be read or whose event is refused.
//!    Out of memory may come at any point.
//!
//! Stands on `net_building`, `script_words`, `toml`. A change here also changes specs/ (Entries, Faults, Keys,
//! Reading), proofs/ and must-fail/.
#![tactic(auto)]

mod entries;
mod faults;
mod keys;
pub mod laws;
mod reading;
mod sets;

pub use faults::{Key, LoadFault};
pub use laws::one_answer_law;
pub use reading::{load, load_owned};
pub use tokens::{read_code, read_id, read_kind, read_row, read_slc};
