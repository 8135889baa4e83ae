//! A hub: a desk for one lock, its readers, and guests who alone post to it.

pub use seats::Seat;
pub use versions::{
    Anyone, BySeats, DeskAndChain, Guest, History, Hub, Naming, NoPlace, Note, Posters, Reader,
    Unnamed, UnnamedWithSeats, Version,
};
