//! Networks written as TOML texts.
//!
//! 1. A network is written in format 2, as a TOML document with the keys of the crate `net_text` in their order: `format`,
//!    `ni`, `tfr`, `points`, `pairs`, `sets`, `plans` (own).
//! 2. A key whose array would be empty is left out: it says the same (own).
//! 3. An entry of `points` is `CODE KIND`, of `pairs` `CODE CODE`, of `sets` `ID CODE CODE MARKED MARKED ..` and of `plans`
//!    `CODE ROW ROW ..`; the crate `tokens` has the tokens. Entries stand in the order of the network, each on a line of its own.
//! 4. A mated pair has one entry, the lower code first (own).
//! 5. What is written reads as the network.
//!
//! Stands on `net_text`, `toml`. A change here also changes specs/ (Writing), proofs/ and must-fail/.
#![tactic(auto)]

mod entries;
mod layout;
mod saving;

pub use saving::save;
