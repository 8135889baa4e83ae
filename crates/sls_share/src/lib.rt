//! Sharing of traffic by signalling link selection (SLS): over the links of a set, and over the vias of a class.
//!
//! 1. Traffic is shared over the links of a link set, and over the link sets of one priority, by the SLS of each
//!    message (Q.704 clause 2.3); an SLS has 16 values.
//! 2. Over a class of two vias the lowest bit of the SLS names the preferred via: the first for 0, the second for 1.
//!    Where the preferred via is not used, the other carries the SLS (own).
//! 3. On its via an SLS has a share number: the SLS itself in a class of one via, and else its three upper bits plus 8
//!    times its lowest bit (own).
//! 4. The links of a set are tried in an order of positions that depends on the share number and on how many links the
//!    set has; the first available one carries the share number (probe order own). A link that becomes unavailable
//!    moves no other link's share numbers.
//! 5. The links that carry the sixteen share numbers follow from two masks: the signalling link codes of the set, and
//!    which of its links are available (own).
//!
//! Stands on `link_sets`. A change here also changes specs/ (Carried, Share), proofs/, must-fail/ and wrong-bodies/.
#![tactic(auto)]

pub mod carried;
pub mod laws;
pub mod share;

pub use carried::Carried;
pub use laws::probe_law;
pub use share::{link_for, member_for, probe};
