//! Tests of topics, comments and viewpoints, in memory and as JSON.
#![tactic(auto)]

#[cfg(test)]
mod board_tests;
#[cfg(test)]
mod body_tests;
#[cfg(test)]
mod date_and_identifier_tests;
#[cfg(test)]
mod topic_tests;
#[cfg(test)]
mod viewpoint_tests;
