//! Tests of whole requests from bytes.
#![tactic(auto)]

#[cfg(test)]
mod frame_tests;
#[cfg(test)]
mod turn_field_tests;
