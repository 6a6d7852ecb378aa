//! The commands of the server: `replay` over a recorded session, `serve` over doors, and `run`, which does what a
//! command line asks for, also to print the version or the help.
#![tactic(auto)]

mod about;
mod alone;
mod commands;
pub mod laws;
mod one_thread;
mod replay;
mod replay_words;
mod serve;
mod serve_words;

pub use commands::{run, run_replay};
pub use serve::{Ended, run_serve};
