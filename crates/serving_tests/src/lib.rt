//! Tests of what is served: answers as JSON, requests and responses, and the commands that end by themselves.
#![tactic(auto)]

#[cfg(test)]
mod command_tests;
#[cfg(test)]
mod http_tests;
#[cfg(test)]
mod json_tests;
