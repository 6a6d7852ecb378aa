//! Tests of what others stand on: the data of models and their names, input and output, files and words.
#![tactic(auto)]

#[cfg(test)]
mod file_tests;
#[cfg(test)]
mod io_tests;
#[cfg(test)]
mod model_tests;
#[cfg(test)]
mod name_tests;
#[cfg(test)]
mod word_tests;
