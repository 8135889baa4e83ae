//! What a Rust program takes of `route_desk` as a library, under one name each (own).
//!
//! 1. Nothing is written here: each module passes on types and calls of the crates below, with their contracts.
//! 2. A module has the name of its subject; where several crates serve one subject, it passes all of them on.
//!
//! Stands on the crates that its modules name. Nothing else changes with it.
#![tactic(auto)]

pub mod choices;
pub mod codes;
pub mod desks;
pub mod excerpt;
pub mod hubs;
pub mod jobs;
pub mod marks;
pub mod nets;
pub mod pools;
pub mod scripts;
pub mod sets;
pub mod shares;
pub mod tables;
pub mod texts;
pub mod told;
pub mod touched;
pub mod traces;
pub mod what_ifs;
