//! Published versions (own).
//!
//! 1. A version has a number, the events since the version before, and a network.
//! 2. It has the settled routing of each planned destination of its network, and of no other; each is the one of its own
//!    network, from scratch.
//! 3. Versions share what they keep that is the same.
//!
//! Stands on `transfer_state`. A change here also changes specs/ (Versions), proofs/, must-fail/ and wrong-bodies/.
#![tactic(auto)]

pub mod versions;

pub use versions::Version;
