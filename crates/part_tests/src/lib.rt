//! Tests of the parts (codes, links, shares, choices, tokens, tables and plain data) and of edits of a network. Each call that
//! allocates runs once with ample memory, and its answer is compared with one worked out by hand.
//!
//! Stands on `profile`, `seats`, `sample_nets`. Nothing else changes with it.
#![tactic(auto)]

#[cfg(test)]
mod change_tests;
#[cfg(test)]
mod choice_tests;
#[cfg(test)]
mod code_tests;
#[cfg(test)]
mod copy_tests;
#[cfg(test)]
mod edits;
#[cfg(test)]
mod link_set_tests;
#[cfg(test)]
mod mark_tests;
#[cfg(test)]
mod net_tests;
#[cfg(test)]
mod parts;
#[cfg(test)]
mod seat_tests;
#[cfg(test)]
mod share_tests;
#[cfg(test)]
mod table_tests;
#[cfg(test)]
mod token_tests;
