//! Tests with running threads: a hub between collectors, workers and readers, and a pool of workers.
//!
//! Stands on `beside`, `serving`, `sample_nets`. Nothing else changes with it.
#![tactic(auto)]

#[cfg(test)]
mod collector_tests;
#[cfg(test)]
mod gates;
#[cfg(test)]
mod guest_tests;
#[cfg(test)]
mod hub_tests;
#[cfg(test)]
mod pool_tests;
#[cfg(test)]
mod samples;
#[cfg(test)]
mod script_tests;
#[cfg(test)]
mod serving_tests;
