//! Tests of turns that threads share.
#![tactic(auto)]

#[cfg(test)]
mod counter_tests;
