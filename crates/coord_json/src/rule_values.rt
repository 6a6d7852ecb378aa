//! Clash rules as JSON values.
ghost use Rattle.std.specs.Prelude.{◌≡◌, IfOk};
ghost use Rattle.serde_json.specs.View.{view, items_view};
ghost use Rattle.coord_json.specs.RuleTrees.{class_text, storeys_text, models_text, storey_tree, clash_tree, plain_tree, kind_tree, rule_tree, rule_items};

use bim_model::{ClassTest, Distance, ModelTest, Rule, RuleKind, StoreyTest, Text};
use serde_json::{Value, json};
use std::alloc::{AllocError, Global};

/// The name of a storey, or null.
pub fn storey_out(alloc: Global, storey: &Option<Text>) -> Result<Value, AllocError>
    ensures { IfOk result (λ v. view v ≡ storey_tree storey.now) }
{
    match storey {
        Some(name) => json!(in alloc; name.as_str()),
        None => Ok(Value::Null),
    }
}

fn class_text(test: &ClassTest) -> &str
    ensures { result.now ≡ class_text test.now }
{
    match test {
        ClassTest::Any => "*",
        ClassTest::Named(name) => name.as_str(),
    }
}

fn storeys_text(test: StoreyTest) -> &'static str
    ensures { result.now ≡ storeys_text test }
{
    match test {
        StoreyTest::Any => "any",
        StoreyTest::Same => "same",
        StoreyTest::Different => "different",
    }
}

fn models_text(test: ModelTest) -> &'static str
    ensures { result.now ≡ models_text test }
{
    match test {
        ModelTest::Any => "any",
        ModelTest::Same => "same",
        ModelTest::Other => "other",
    }
}

#[tactic(auto, unfolding(crate::specs::RuleTrees::clash_tree))]
fn clash_tree(
    alloc: Global,
    a: &str,
    b: &str,
    distance: Distance,
    level: Value,
    models: &str,
    storey: &str,
) -> Result<Value, AllocError>
    ensures { IfOk result (λ v. view v ≡ clash_tree a.now b.now distance (view level) models.now storey.now) }
{
    json!(in alloc; {
        "a": a,
        "b": b,
        "distance": distance.millimetres(),
        "kind": "clash",
        "level": level,
        "models": models,
        "storey": storey
    })
}

#[tactic(auto, unfolding(crate::specs::RuleTrees::plain_tree))]
fn plain_tree(
    alloc: Global,
    kind: &str,
    a: &str,
    b: &str,
    level: Value,
    models: &str,
    storey: &str,
) -> Result<Value, AllocError>
    ensures { IfOk result (λ v. view v ≡ plain_tree kind.now a.now b.now (view level) models.now storey.now) }
{
    json!(in alloc; {
        "a": a,
        "b": b,
        "kind": kind,
        "level": level,
        "models": models,
        "storey": storey
    })
}

fn rule_out(alloc: Global, rule: &Rule) -> Result<Value, AllocError>
    ensures { IfOk result (λ v. view v ≡ rule_tree rule.now) }
{
    let a = class_text(&rule.a);
    let b = class_text(&rule.b);
    let level = storey_out(alloc, &rule.level)?;
    let models = models_text(rule.models);
    let storey = storeys_text(rule.storey);
    match rule.kind {
        RuleKind::Clash { distance } => clash_tree(alloc, a, b, distance, level, models, storey),
        RuleKind::Pierce => plain_tree(alloc, "pierce", a, b, level, models, storey),
        RuleKind::Ignore => plain_tree(alloc, "ignore", a, b, level, models, storey),
    }
}

/// Rules, as values in their order.
#[tactic(auto, using(crate::proofs::Lists::rules_more))]
pub fn rules_out(alloc: Global, rules: &[Rule]) -> Result<Vec<Value>, AllocError>
    ensures { IfOk result (λ trees. items_view trees.items ≡ rule_items rules.now) }
{
    let mut trees = Vec::with_capacity(alloc, rules.len())?;
    for rule in rules {
        trees.push(rule_out(alloc, rule)?)?;
    }
    Ok(trees)
}
