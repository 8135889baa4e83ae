//! The marks of a link, and what changes them.

pub use link_state::{End, LinkChange, Marks};
