//! Viewpoints that go out.
ghost use Rattle.std.specs.Prelude.{◌≡◌, ◌++◌, ◌∷◌, [], map, All, IfSome, IfOk, OnOk, codes};
ghost use Rattle.serde_json.specs.View.{view, items_view, members_view};
ghost use Rattle.bim_model.specs.Guids.{IsGuid};
ghost use Rattle.bcf_viewpoints.specs.Components.{IsComponent, IsColoring};
ghost use Rattle.bcf_viewpoints.specs.Viewpoints.{IsViewBody};
ghost use Rattle.bcf_bodies.specs.TextMembers.{put_text_if, listed};
ghost use Rattle.bcf_bodies.specs.ViewTrees.{guid_text, component_tree, coloring_tree, visibility_tree, one_member, whole_tree, view_tree};

use crate::objects::{put_index, put_text, put_text_if};
use bcf_json::identifier_out;
use bcf_viewpoints::{Coloring, Component, ViewBody, ViewIs, ViewPart};
use bim_model::Guid;
use serde_json::{Map, Value, put};
use std::alloc::{AllocError, Global};

fn put_guid(
    alloc: Global,
    members: &mut Map<String, Value>,
    guid: &Option<Guid>,
) -> Result<(), AllocError>
    requires { IfSome guid.now (λ g. IsGuid g.chars) }
    ensures { OnOk result (members_view members.new.entries
        ≡ put_text_if (codes "ifc_guid") (guid_text guid.now) (members_view members.old.entries)) }
{
    match guid {
        Some(guid) => put_text(alloc, members, "ifc_guid", guid.as_str()),
        None => Ok(()),
    }
}

#[tactic(auto, unfolding(crate::specs::ViewTrees::component_tree))]
fn component_out(alloc: Global, component: &Component) -> Result<Value, AllocError>
    requires { IsComponent component.now }
    ensures { IfOk result (λ v. view v ≡ component_tree component.now) }
{
    let mut members = Map::new(alloc);
    put_text_if(
        alloc,
        &mut members,
        "originating_system",
        &component.originating_system,
    )?;
    put_guid(alloc, &mut members, &component.ifc_guid)?;
    put_text_if(
        alloc,
        &mut members,
        "authoring_tool_id",
        &component.authoring_tool_id,
    )?;
    Ok(Value::Object(members))
}

fn push_component(
    alloc: Global,
    trees: &mut Vec<Value>,
    component: &Component,
) -> Result<(), AllocError>
    requires { IsComponent component.now }
    ensures { OnOk result (map view trees.new.items
        ≡ map view trees.old.items ++ component_tree component.now ∷ []) }
{
    trees.push(component_out(alloc, component)?)?;
    Ok(())
}

fn components_out(alloc: Global, components: &[Component]) -> Result<Vec<Value>, AllocError>
    requires { All IsComponent components.now }
    ensures { IfOk result (λ trees. items_view trees.items ≡ listed component_tree components.now) }
{
    let mut trees = Vec::with_capacity(alloc, components.len())?;
    for component in components {
        push_component(alloc, &mut trees, component)?;
    }
    Ok(trees)
}

#[tactic(auto, unfolding(crate::specs::ViewTrees::coloring_tree))]
fn coloring_out(alloc: Global, coloring: &Coloring) -> Result<Value, AllocError>
    requires { IsColoring coloring.now }
    ensures { IfOk result (λ v. view v ≡ coloring_tree coloring.now) }
{
    let mut members = Map::new(alloc);
    let components = components_out(alloc, coloring.components.as_slice())?;
    put(&mut members, alloc, "components", Value::Array(components))?;
    put_text(alloc, &mut members, "color", coloring.color.as_str())?;
    Ok(Value::Object(members))
}

fn push_coloring(
    alloc: Global,
    trees: &mut Vec<Value>,
    coloring: &Coloring,
) -> Result<(), AllocError>
    requires { IsColoring coloring.now }
    ensures { OnOk result (map view trees.new.items
        ≡ map view trees.old.items ++ coloring_tree coloring.now ∷ []) }
{
    trees.push(coloring_out(alloc, coloring)?)?;
    Ok(())
}

fn colorings_out(alloc: Global, colorings: &[Coloring]) -> Result<Vec<Value>, AllocError>
    requires { All IsColoring colorings.now }
    ensures { IfOk result (λ trees. items_view trees.items ≡ listed coloring_tree colorings.now) }
{
    let mut trees = Vec::with_capacity(alloc, colorings.len())?;
    for coloring in colorings {
        push_coloring(alloc, &mut trees, coloring)?;
    }
    Ok(trees)
}

#[tactic(auto, unfolding(crate::specs::ViewTrees::one_member))]
fn one_member(alloc: Global, name: &str, value: Value) -> Result<Value, AllocError>
    ensures { IfOk result (λ v. view v ≡ one_member name.now (view value)) }
{
    let mut members = Map::new(alloc);
    put(&mut members, alloc, name, value)?;
    Ok(Value::Object(members))
}

#[tactic(auto, unfolding(crate::specs::ViewTrees::visibility_tree))]
fn visibility_out(alloc: Global, body: &ViewBody) -> Result<Value, AllocError>
    requires { IsViewBody body.now }
    ensures { IfOk result (λ v. view v ≡ visibility_tree body.now) }
{
    let mut members = Map::new(alloc);
    let exceptions = components_out(alloc, body.exceptions.as_slice())?;
    put(&mut members, alloc, "exceptions", Value::Array(exceptions))?;
    put(
        &mut members,
        alloc,
        "default_visibility",
        Value::Bool(body.default_visibility),
    )?;
    Ok(Value::Object(members))
}

#[tactic(auto, unfolding(crate::specs::ViewTrees::whole_tree))]
fn whole_out(alloc: Global, project: u32, viewpoint: &ViewIs) -> Result<Value, AllocError>
    ensures { IfOk result (λ v. view v ≡ whole_tree project viewpoint.now) }
{
    let mut members = Map::new(alloc);
    let guid = identifier_out(alloc, project, viewpoint.serial)?;
    put_text(alloc, &mut members, "guid", guid.as_str())?;
    put_index(alloc, &mut members, viewpoint.body.index)?;
    Ok(Value::Object(members))
}

/// A part of a viewpoint of a project, as an object: the viewpoint itself has `guid` and, if there is one,
/// `index`; the others have the one member `selection`, `coloring` or `visibility`.
#[tactic(auto, unfolding(crate::specs::ViewTrees::view_tree))]
pub fn view_out(
    alloc: Global,
    project: u32,
    viewpoint: &ViewIs,
    part: ViewPart,
) -> Result<Value, AllocError>
    requires { IsViewBody viewpoint.now.body }
    ensures { IfOk result (λ v. view v ≡ view_tree project viewpoint.now part) }
{
    match part {
        ViewPart::Whole => whole_out(alloc, project, viewpoint),
        ViewPart::Selection => {
            let components = components_out(alloc, viewpoint.body.selection.as_slice())?;
            one_member(alloc, "selection", Value::Array(components))
        }
        ViewPart::Coloring => {
            let colorings = colorings_out(alloc, viewpoint.body.coloring.as_slice())?;
            one_member(alloc, "coloring", Value::Array(colorings))
        }
        ViewPart::Visibility => {
            let visibility = visibility_out(alloc, &viewpoint.body)?;
            one_member(alloc, "visibility", visibility)
        }
    }
}
