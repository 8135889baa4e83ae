//! Signalling point codes: how they are numbered and written.
//!
//! 1. A point code has 14 bits (Q.704 clause 2.2).
//! 2. It is written as zone, area and point, `z-a-p` in decimal (Q.708): z has 3 bits, a has 8, p has 3.
//! 3. The numbers are written without sign or leading zeros, so that each code has one text (own).
//! 4. All 16,384 codes are allowed (own).
//! 5. A transfer message has a service information octet, a routing label, a heading and the code of the destination
//!    concerned (Q.704 clauses 14.2, 15.2 and 15.7 to 15.9).
//!
//! Stands on `thiserror`. A change here also changes specs/ (Codes, Numbers, Octets), proofs/, must-fail/ and wrong-bodies/.
#![tactic(auto)]

pub mod codes;
pub mod kinds;
pub mod laws;
pub mod numbers;
pub mod octets;

pub use codes::{BadCode, PointCode};
pub use kinds::MsgKind;
pub use laws::{code_law, number_law};
pub use numbers::{read_number, split_at_byte};
pub use octets::tfm_octets;
