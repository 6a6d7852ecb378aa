//! The outside, as traits with a meaning: where bytes come from and go to, and what time it is.
#![tactic(auto)]

mod adapters;
mod clocks;
mod memory;
mod sure;
mod traits;
mod whole;

pub use adapters::{StdSink, StdSource, SystemClock};
pub use clocks::{ListClock, MemClock};
pub use memory::{MemSink, MemSource};
pub use sure::{SureSink, SureSource};
pub use traits::{Clock, Failed, Sink, Source};
pub use whole::write_whole;
