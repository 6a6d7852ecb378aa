//! Tests of what instances of IFC say: forms, units, storeys, whole models, and generated ones.
#![tactic(auto)]

#[cfg(test)]
mod build_tests;
#[cfg(test)]
mod generator_tests;
#[cfg(test)]
mod length_tests;
#[cfg(test)]
mod small_files;
#[cfg(test)]
mod survey_tests;
#[cfg(test)]
mod tree_tests;
#[cfg(test)]
mod unit_tests;
