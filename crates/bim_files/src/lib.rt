//! Files by their names, as a trait with a meaning.
#![tactic(auto)]

mod front;
mod loans;
mod memory_files;
mod named_source;
mod sure_files;
mod system_files;

pub use front::{FileError, read_file};
pub use loans::MemFile;
pub use memory_files::{LentSource, MemFiles};
pub use named_source::{Files, NamedSource};
pub use sure_files::{SureFile, SureFiles, SureLentSource};
pub use system_files::{StdFile, StdFiles};
