//! The rules of a file.
ghost use Rattle.std.specs.Prelude.{◌≡◌, option_and_then};
ghost use Rattle.serde_json.specs.Read.{read};
ghost use Rattle.serde_json.specs.View.{view};
ghost use Rattle.batch_commands.specs.RulesFile.{if_object, object_of, rules_of_tree, rules_in, IsTreeOf, IsRulesRead};

use bim_model::Rules;
use clash_rules::{RuleError, RuleFault, from_json};
use serde_json::Value;
use std::alloc::{AllocError, Global};

/// What is wrong with a file of rules.
#[derive(Clone, Copy, Debug, PartialEq, Eq)]
pub enum RulesFault {
    /// H9: it is no JSON text, or one of something else than an object.
    BadJson,
    Rule(RuleFault),
}

/// Why there are no rules.
#[derive(Clone, Copy, Debug, PartialEq, Eq)]
pub enum RulesError {
    Fault(RulesFault),
    Memory,
}

// The tree of a text, where it is an object.
fn object_in(alloc: Global, text: &str) -> Result<Option<Value>, AllocError>
    ensures { IsTreeOf result (option_and_then if_object (read text.now)) }
{
    match Value::from_str(alloc, text) {
        Ok(tree) => {
            if tree.is_object() {
                Ok(Some(tree))
            } else {
                Ok(None)
            }
        }
        Err(error) => {
            if error.is_memory() {
                Err(AllocError)
            } else {
                Ok(None)
            }
        }
    }
}

// The tree of bytes, where they spell an object.
#[tactic(auto, using(crate::proofs::Reading::of_text, crate::proofs::Reading::not_text))]
fn object_of(alloc: Global, bytes: &[u8]) -> Result<Option<Value>, AllocError>
    ensures { IsTreeOf result (object_of bytes.now) }
{
    match str::from_utf8(bytes) {
        Ok(text) => object_in(alloc, text),
        Err(_) => Ok(None),
    }
}

// The rules of an object.
fn rules_of_tree(alloc: Global, tree: &Value) -> Result<Rules, RulesError>
    ensures { IsRulesRead result (rules_of_tree (Some (view tree.now))) }
{
    match from_json(alloc, tree) {
        Ok(rules) => Ok(rules),
        Err(RuleError::Fault(fault)) => Err(RulesError::Fault(RulesFault::Rule(fault))),
        Err(RuleError::Memory) => Err(RulesError::Memory),
    }
}

/// The rules that the bytes of a file spell.
pub fn rules_in(alloc: Global, bytes: &[u8]) -> Result<Rules, RulesError>
    ensures { IsRulesRead result (rules_in bytes.now) }
{
    match object_of(alloc, bytes) {
        Ok(Some(tree)) => rules_of_tree(alloc, &tree),
        Ok(None) => Err(RulesError::Fault(RulesFault::BadJson)),
        Err(_) => Err(RulesError::Memory),
    }
}
