//! Tests of the geometry: exact predicates, distances, triangles that pierce, polygons that are cut, loops that are joined, and boxes
//! within a gap.
#![tactic(auto)]

#[cfg(test)]
mod bridge_tests;
#[cfg(test)]
mod clearance_tests;
#[cfg(test)]
mod ear_tests;
#[cfg(test)]
mod lane_tests;
#[cfg(test)]
mod piercing_tests;
#[cfg(test)]
mod predicate_tests;
#[cfg(test)]
mod sample_points;
