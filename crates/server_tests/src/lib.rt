//! Tests of the server's commands, over sources, sinks and doors in memory.
#![tactic(auto)]

#[cfg(test)]
mod replay_tests;
#[cfg(test)]
mod serve_tests;
