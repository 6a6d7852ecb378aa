//! The commands that end by themselves: the clashes of files, and models that are made up.
#![tactic(auto)]

mod block;
mod check;
mod check_words;
mod generate;
mod generate_words;
mod judge;
mod refusal;
mod refusal_words;
mod report;
mod rules_file;
mod statuses;

pub use check::run_check;
pub use generate::run_generate;
pub use statuses::print_usage;
