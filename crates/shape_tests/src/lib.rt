//! Tests of shapes: placements and their frames, and face sets.
#![tactic(auto)]

#[cfg(test)]
mod axis_tests;
#[cfg(test)]
mod chain_tests;
#[cfg(test)]
mod face_tests;
#[cfg(test)]
mod operator_tests;
#[cfg(test)]
mod sample_axes;
#[cfg(test)]
mod sample_files;
