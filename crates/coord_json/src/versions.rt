//! Versions, and what uploads answer, as JSON values.
ghost use Rattle.std.specs.Prelude.{◌≡◌, ◌<◌, ◌++◌, ◌∷◌, [], All, length, IfOk, OnOk};
ghost use Rattle.serde_json.specs.View.{view, items_view};
ghost use Rattle.bim_model.specs.Models.{IsModel, IsModelled};
ghost use Rattle.coord_json.specs.VersionTrees.{box_tree, element_tree, model_tree, version_tree, changed_tree, IsElementTree, AreElementTrees, IsModelTree, AreModelTrees, IsVersionTree};

use crate::rule_values::{rules_out, storey_out};
use bim_model::{Element, Extent, NamedModel, PER_MM, Snapshot, extent_of};
use serde_json::{Value, json};
use std::alloc::{AllocError, Global};

fn box_out(alloc: Global, extent: Extent) -> Result<Value, AllocError>
    ensures { IfOk result (λ v. view v ≡ box_tree extent) }
{
    let (low, high) = (extent.low, extent.high);
    json!(in alloc; [low.x, low.y, low.z, high.x, high.y, high.z])
}

#[tactic(auto, unfolding(crate::specs::VersionTrees::element_tree))]
fn element_tree(
    alloc: Global,
    extent: Value,
    class: &str,
    guid: &str,
    name: &str,
    storey: Value,
    triangles: usize,
) -> Result<Value, AllocError>
    ensures { IfOk result (λ v. view v
        ≡ element_tree (view extent) class.now guid.now name.now (view storey) triangles) }
{
    json!(in alloc; {
        "box": extent,
        "class": class,
        "guid": guid,
        "name": name,
        "storey": storey,
        "triangles": triangles
    })
}

// An element of a model.
fn element_out(alloc: Global, element: &Element) -> Result<Value, AllocError>
    requires { IsModelled element.now }
    ensures { IfOk result (λ v. IsElementTree element.now (view v)) }
{
    let extent = box_out(alloc, extent_of(element.triangles.as_slice()))?;
    let storey = storey_out(alloc, &element.storey)?;
    element_tree(
        alloc,
        extent,
        element.class.as_str(),
        element.guid.as_str(),
        element.name.as_str(),
        storey,
        element.triangles.len(),
    )
}

fn push_element(alloc: Global, trees: &mut Vec<Value>, element: &Element) -> Result<(), AllocError>
    requires { IsModelled element.now }
    ensures { OnOk result ((v : _) × IsElementTree element.now (view v)
        × (trees.new.items ≡ trees.old.items ++ v ∷ [])) }
{
    trees.push(element_out(alloc, element)?)?;
    Ok(())
}

// The elements of a model, as values in their order.
#[tactic(auto, using(crate::proofs::Lists::elements_more))]
fn elements_out(alloc: Global, elements: &[Element]) -> Result<Vec<Value>, AllocError>
    requires { All IsModelled elements.now }
    ensures { IfOk result (λ trees. AreElementTrees elements.now (items_view trees.items)) }
{
    let mut trees = Vec::with_capacity(alloc, elements.len())?;
    for element in elements {
        push_element(alloc, &mut trees, element)?;
    }
    Ok(trees)
}

#[tactic(auto, unfolding(crate::specs::VersionTrees::model_tree))]
fn model_tree(alloc: Global, elements: Vec<Value>, name: &str) -> Result<Value, AllocError>
    ensures { IfOk result (λ v. view v ≡ model_tree (items_view elements.items) name.now) }
{
    let elements = Value::Array(elements);
    json!(in alloc; { "elements": elements, "name": name })
}

fn push_model(alloc: Global, trees: &mut Vec<Value>, model: &NamedModel) -> Result<(), AllocError>
    ensures { OnOk result ((v : _) × IsModelTree model.now (view v)
        × (trees.new.items ≡ trees.old.items ++ v ∷ [])) }
{
    let elements = elements_out(alloc, model.model.get().elements())?;
    trees.push(model_tree(alloc, elements, model.name.as_str())?)?;
    Ok(())
}

// The models of a version, as values in their order.
#[tactic(auto, using(crate::proofs::Lists::models_more))]
fn models_out(alloc: Global, models: &[NamedModel]) -> Result<Vec<Value>, AllocError>
    ensures { IfOk result (λ trees. AreModelTrees models.now (items_view trees.items)) }
{
    let mut trees = Vec::with_capacity(alloc, models.len())?;
    for model in models {
        push_model(alloc, &mut trees, model)?;
    }
    Ok(trees)
}

#[tactic(auto, unfolding(crate::specs::VersionTrees::version_tree))]
fn version_tree(
    alloc: Global,
    models: Vec<Value>,
    newest: u64,
    rules: Vec<Value>,
    version: u64,
) -> Result<Value, AllocError>
    ensures { IfOk result (λ v. view v
        ≡ version_tree (items_view models.items) newest (items_view rules.items) version) }
{
    let models = Value::Array(models);
    let rules = Value::Array(rules);
    json!(in alloc; {
        "models": models,
        "newest": newest,
        "per_mm": PER_MM,
        "rules": rules,
        "version": version
    })
}

/// A version with its models and its rules, and how many grid numbers a millimetre has, as an object.
pub fn version_out(
    alloc: Global,
    version: u64,
    newest: u64,
    snapshot: &Snapshot,
) -> Result<Value, AllocError>
    ensures { IfOk result (λ v. IsVersionTree version newest snapshot.now (view v)) }
{
    let trees = models_out(alloc, snapshot.models())?;
    let rules = rules_out(alloc, snapshot.rules().list())?;
    version_tree(alloc, trees, newest, rules, version)
}

/// What an upload made, as an object: the number of the version, how many elements and triangles the uploaded
/// model has, and how many buckets are to be checked.
#[tactic(auto, unfolding(crate::specs::VersionTrees::changed_tree))]
pub fn changed_out(
    alloc: Global,
    version: u64,
    elements: u64,
    triangles: u64,
    left: u64,
) -> Result<Value, AllocError>
    ensures { IfOk result (λ v. view v ≡ changed_tree version elements triangles left) }
{
    json!(in alloc; { "elements": elements, "left": left, "triangles": triangles, "version": version })
}
