//! Clashes of a version as JSON values.
ghost use Rattle.std.specs.Prelude.{◌≡◌, ◌<◌, All, length, IfOk};
ghost use Rattle.serde_json.specs.View.{view, items_view};
ghost use Rattle.bim_model.specs.Keys.{subjects_of};
ghost use Rattle.clash_publish.specs.Listed.{IsClash};
ghost use Rattle.coord_json.specs.ClashTrees.{side_tree, element_side, near_tree, pierced_tree, pair_tree, clash_data, pair_items, part_tree, clashes_tree, pending_tree};

use bim_model::Distance;
use bucket_check::SetPair;
use clash_publish::Published;
use serde_json::{Value, json};
use std::alloc::{AllocError, Global};

#[tactic(auto, unfolding(crate::specs::ClashTrees::side_tree))]
fn side_tree(alloc: Global, guid: &str, model: &str) -> Result<Value, AllocError>
    ensures { IfOk result (λ v. view v ≡ side_tree guid.now model.now) }
{
    json!(in alloc; { "guid": guid, "model": model })
}

// The element of that number.
fn side_out(alloc: Global, set: &Published, number: u32) -> Result<Value, AllocError>
    requires { number < length (subjects_of set.now.models) }
    ensures { IfOk result (λ v. view v ≡ element_side set.now number) }
{
    let element = set.element(number);
    side_tree(alloc, element.guid.as_str(), set.model_name(number))
}

#[tactic(auto, unfolding(crate::specs::ClashTrees::near_tree))]
fn near_tree(
    alloc: Global,
    a: Value,
    b: Value,
    distance: Distance,
    rule: u32,
) -> Result<Value, AllocError>
    ensures { IfOk result (λ v. view v ≡ near_tree (view a) (view b) distance rule) }
{
    json!(in alloc; { "a": a, "b": b, "distance": distance.millimetres(), "rule": rule })
}

#[tactic(auto, unfolding(crate::specs::ClashTrees::pierced_tree))]
fn pierced_tree(alloc: Global, a: Value, b: Value, rule: u32) -> Result<Value, AllocError>
    ensures { IfOk result (λ v. view v ≡ pierced_tree (view a) (view b) rule) }
{
    json!(in alloc; { "a": a, "b": b, "rule": rule })
}

// Two elements that clash, by the distance of their rule, if it has one.
fn pair_tree(
    alloc: Global,
    a: Value,
    b: Value,
    distance: Option<Distance>,
    rule: u32,
) -> Result<Value, AllocError>
    ensures { IfOk result (λ v. view v ≡ pair_tree (view a) (view b) distance rule) }
{
    match distance {
        Some(distance) => near_tree(alloc, a, b, distance, rule),
        None => pierced_tree(alloc, a, b, rule),
    }
}

fn pair_out(alloc: Global, set: &Published, pair: SetPair) -> Result<Value, AllocError>
    requires { IsClash set.now pair }
    ensures { IfOk result (λ v. view v ≡ clash_data set.now pair) }
{
    let a = side_out(alloc, set, pair.a)?;
    let b = side_out(alloc, set, pair.b)?;
    pair_tree(alloc, a, b, set.distance(pair.rule), pair.rule)
}

// Clashes of a version, as values in their order.
fn pairs_out(alloc: Global, set: &Published, pairs: &[SetPair]) -> Result<Vec<Value>, AllocError>
    requires { All (IsClash set.now) pairs.now }
    ensures { IfOk result (λ trees. items_view trees.items ≡ pair_items set.now pairs.now) }
{
    let mut trees = Vec::with_capacity(alloc, pairs.len())?;
    for pair in pairs {
        trees.push(pair_out(alloc, set, *pair)?)?;
    }
    Ok(trees)
}

#[tactic(auto, unfolding(crate::specs::ClashTrees::part_tree))]
fn part_tree(
    alloc: Global,
    pairs: Vec<Value>,
    first: u64,
    total: u64,
    version: u64,
) -> Result<Value, AllocError>
    ensures { IfOk result (λ v. view v ≡ part_tree (items_view pairs.items) first total version) }
{
    let pairs = Value::Array(pairs);
    json!(in alloc; { "clashes": pairs, "first": first, "total": total, "version": version })
}

/// Of all clashes of a version at most so many from a place on, with that place and how many there are, as an object.
pub fn clashes_out(
    alloc: Global,
    version: u64,
    set: &Published,
    first: u64,
    count: u64,
) -> Result<Value, AllocError>
    ensures { IfOk result (λ v. view v ≡ clashes_tree version set.now first count) }
{
    let pairs = pairs_out(alloc, set, set.page(first, count))?;
    part_tree(alloc, pairs, first, set.total(), version)
}

/// How many buckets of a version are still to be checked, as an object.
#[tactic(auto, unfolding(crate::specs::ClashTrees::pending_tree))]
pub fn pending_out(alloc: Global, left: u64, version: u64) -> Result<Value, AllocError>
    ensures { IfOk result (λ v. view v ≡ pending_tree left version) }
{
    json!(in alloc; { "left": left, "version": version })
}
