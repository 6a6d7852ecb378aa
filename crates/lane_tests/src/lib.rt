//! Tests of lanes over doors in memory, of single sessions and of workers.
#![tactic(auto)]

#[cfg(test)]
mod lanes_tests;
#[cfg(test)]
mod link_tests;
#[cfg(test)]
mod worker_tests;
