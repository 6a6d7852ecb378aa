//! What a pass of the book comes to know by its calls.
#![tactic(auto)]

mod laws;

pub use laws::{calls_teach, idle_turns_teach, lessons_add_up, turns_teach};
