//! Clash rules from JSON, and the rule of a pair of elements.
#![tactic(auto)]

mod json_rules;
mod member;
mod rule_fault;

pub use bim_model::rule_of;
pub use json_rules::from_json;
pub use rule_fault::{RuleError, RuleFault};
