//! Instances of the clear text encoding of the exchange structure (ISO 10303-21): the grammar of a file, and its reader.
#![tactic(auto)]

mod ahead;
mod double;
mod file;
mod header;
mod law;
mod nested;
mod passing;
mod reading;
mod schema;
mod section;
mod table;
mod word;

pub use law::{files_have_one_reading, table_is_grammar, uploads_have_one_answer};
pub use p21_table::{Exchange, InstanceRef, Instances, Keyword, Three, ValueRef, Values};
pub use p21_values::{Instance, MOST_DEPTH, MOST_INSTANCES, MOST_VALUES, Value21};
pub use reading::{read, read_owned};
