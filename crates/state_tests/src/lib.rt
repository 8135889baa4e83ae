//! Tests of what no script shows: tables and excerpts, what an event touches, a desk's own calls, and how often a run reads, on
//! networks from their texts. Each answer is compared with one worked out by hand.
//!
//! Stands on `console`, `desk_core`, `sample_nets`. Nothing else changes with it.
#![tactic(auto)]

#[cfg(test)]
mod all_tables_tests;
#[cfg(test)]
mod check_tests;
#[cfg(test)]
mod desk_tests;
#[cfg(test)]
mod excerpt_tests;
#[cfg(test)]
mod limit_tests;
#[cfg(test)]
mod samples;
#[cfg(test)]
mod step_tests;
#[cfg(test)]
mod table_tests;
#[cfg(test)]
mod text_tests;
#[cfg(test)]
mod touch_tests;
#[cfg(test)]
mod verdict_tests;
#[cfg(test)]
mod waiting_tests;
#[cfg(test)]
mod wrong_tables;
