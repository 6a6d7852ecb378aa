//! Tests of the book: its projects, topics, comments and viewpoints, versions and their clashes, and calls that take turns.
#![tactic(auto)]

#[cfg(test)]
mod brought_tests;
#[cfg(test)]
mod desk;
#[cfg(test)]
mod project_tests;
#[cfg(test)]
mod samples;
#[cfg(test)]
mod topic_request_tests;
#[cfg(test)]
mod turn_tests;
#[cfg(test)]
mod version_tests;
