//! Tests of stores of changes: over files, over disks that fail at each call, and under a lock that threads share.
#![tactic(auto)]

#[cfg(test)]
mod crash_tests;
#[cfg(test)]
mod lock_tests;
#[cfg(test)]
mod read_back;
#[cfg(test)]
mod store_file_tests;
