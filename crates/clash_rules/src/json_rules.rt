//! Lists of rules.
ghost use Rattle.std.specs.Prelude.{◌≡◌, ◌++◌, ◌∷◌, [], length, All, Ok, IfOk, IfErr, OnOk};
ghost use Rattle.serde_json.specs.View.{view, items_view};
ghost use Rattle.bim_model.specs.Rules.{IsRule};
ghost use Rattle.clash_rules.specs.Json.{are_objects, rule_in, rules_from, rules_of_items, rules_of, IsFault, IsReadAs};

use crate::member::{class_in, distance_in, joined, level_in, tests_in};
use crate::rule_fault::{RuleError, RuleFault};
use bim_model::{MOST_RULES, Rule, Rules};
use serde_json::Value;
use std::alloc::{AllocError, Global};

// The rule of that number.
#[tactic(auto, unfolding(crate::specs::Json::rule_in))]
fn rule_in(alloc: Global, index: u64, rule: &Value) -> Result<Rule, RuleError>
    ensures read { IsReadAs result (rule_in index (view rule.now)) }
    ensures good { IfOk result IsRule }
{
    let a = class_in(alloc, rule, "a")?;
    let b = class_in(alloc, rule, "b")?;
    let level = level_in(alloc, rule)?;
    match joined(index, a, b, level, tests_in(rule), distance_in(rule)) {
        Ok(rule) => Ok(rule),
        Err(fault) => Err(RuleError::Fault(fault)),
    }
}

fn push_rule(rules: &mut Vec<Rule>, rule: Rule) -> Result<(), AllocError>
    ensures { OnOk result (rules.new.items ≡ rules.old.items ++ rule ∷ []) }
{
    rules.push(rule)?;
    Ok(())
}

// The rules that these values spell.
#[tactic(auto, using(crate::proofs::Loops::front_nil))]
fn rules_in(alloc: Global, items: &[Value]) -> Result<Vec<Rule>, RuleError>
    ensures read { IfOk result (λ rules. rules_from 0 (items_view items.now) ≡ Ok rules.items) }
    ensures fault { IfErr result (λ error. IsFault error (rules_from 0 (items_view items.now))) }
    ensures good { IfOk result (λ rules. All IsRule rules.items) }
    ensures count { IfOk result (λ rules. length rules.items ≡ length items.now) }
{
    let mut rules = Vec::with_capacity(alloc, items.len())?;
    for index in 0..items.len() {
        let rule = rule_in(alloc, index as u64, &items[index])?;
        push_rule(&mut rules, rule)?;
    }
    Ok(rules)
}

// Whether each value is an object.
fn are_objects(items: &[Value]) -> bool
    ensures { result ≡ are_objects (items_view items.now) }
{
    for item in items {
        if !item.is_object() {
            return false;
        }
    }
    true
}

// The rules of an array.
#[tactic(auto, unfolding(crate::specs::Json::rules_of_items), using(crate::proofs::Loops::count_is))]
fn rules_of(alloc: Global, items: &[Value]) -> Result<Rules, RuleError>
    ensures { IsReadAs result (rules_of_items (items_view items.now)) }
{
    let count = items.len();
    if count > MOST_RULES {
        return Err(RuleError::Fault(RuleFault::TooManyRules {
            count: count as u64,
        }));
    }
    if !are_objects(items) {
        return Err(RuleError::Fault(RuleFault::BadRule { index: 0 }));
    }
    let rules = rules_in(alloc, items)?;
    Ok(Rules::from_vec(rules))
}

/// The clash rules that a JSON tree spells: an object with `rules`, an array of objects. Each has `a` and
/// `b`, `*` or a class of 1 to 64 characters of `A-Z0-9_`, and may have `kind` (`clash`, the default,
/// `pierce` or `ignore`), `distance` (a whole number of millimetres, which a clash rule must have and a
/// pierce rule must not), `storey` (`any`, the default, `same` or `different`), `level` (a text of up to 256
/// bytes) and `models` (`any`, the default, `same` or `other`). A member that is null counts as absent,
/// another member is passed over.
///
/// First it is C2 where there are over 200 rules, then C1 where there is no array of objects, then the first
/// rule with a fault decides: C1 where a member is missing, bad or not allowed, otherwise C3 where the distance
/// isn't within 0 to 1,000.
#[tactic(auto, unfolding(crate::specs::Json::rules_of))]
pub fn from_json(alloc: Global, tree: &Value) -> Result<Rules, RuleError>
    ensures { IsReadAs result (rules_of (view tree.now)) }
{
    match tree.get("rules") {
        Some(value) => match value.as_array() {
            Some(items) => rules_of(alloc, items.as_slice()),
            None => Err(RuleError::Fault(RuleFault::BadRule { index: 0 })),
        },
        None => Err(RuleError::Fault(RuleFault::BadRule { index: 0 })),
    }
}
