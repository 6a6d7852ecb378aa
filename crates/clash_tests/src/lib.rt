//! Tests of what finds clashes: rules, cells, one bucket, a version that follows another, and whole versions.
#![tactic(auto)]

#[cfg(test)]
mod bucket_tests;
#[cfg(test)]
mod delta_tests;
#[cfg(test)]
mod grid_tests;
#[cfg(test)]
mod publish_tests;
#[cfg(test)]
mod rule_tests;
#[cfg(test)]
mod sample_pipes;
#[cfg(test)]
mod version_check_tests;
