//! A file of changes: a SQLite database with one table, to which rows are added one commit at a time.
#![tactic(auto)]

mod change_reader;
mod change_rows;
mod change_store;
mod store_faults;
mod store_opening;
mod store_path;

pub use change_reader::{ChangeReader, NotTaken};
pub use change_rows::MOST_BYTES;
pub use change_store::ChangeStore;
pub use store_faults::{AppendFault, OpenFault};
pub use store_opening::open_changes;
pub use store_path::open_store;
