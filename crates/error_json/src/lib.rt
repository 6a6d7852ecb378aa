//! Errors as JSON, and the code, the name and the fields of each fault of a file and of clash rules.
#![tactic(auto)]

mod errors;
mod fault_values;
mod fault_words;

pub use errors::{
    error_at, error_full, error_named, error_newest, error_out, error_place, error_store,
    error_turn, error_version,
};
pub use fault_values::{rule_fault_out, upload_fault_out};
pub use fault_words::{
    FaultFields, many_word, rule_code, rule_fields, rule_name, upload_code, upload_fields,
    upload_name,
};
