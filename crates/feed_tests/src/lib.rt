//! Tests of `feed_frames`.
#![tactic(auto)]

#[cfg(test)]
mod feed_frame_tests;
