//! Tests of Part 21 files: tokens, decimals and texts, and instances.
#![tactic(auto)]

#[cfg(test)]
mod lexer_tests;
#[cfg(test)]
mod reader_tests;
#[cfg(test)]
mod text_tests;
