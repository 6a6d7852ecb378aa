//! Components and colorings that come in.
ghost use Rattle.std.specs.Prelude.{◌≡◌, IfOk, IfSome, All, option_map, option_and_then, is_some};
ghost use Rattle.std.specs.List.{list_all};
ghost use Rattle.std.specs.Char.{is_ascii_hexdigit};
ghost use Rattle.serde_json.specs.Find.{as_str};
ghost use Rattle.serde_json.specs.View.{view, items_view};
ghost use Rattle.bcf_viewpoints.specs.Components.{IsComponent, IsColoring};
ghost use Rattle.bcf_bodies.specs.Members.{all_of};
ghost use Rattle.bcf_bodies.specs.ViewBodies.{guid_value, guid_in, joined_component, component_in, components_under, after_sign, is_color, if_color, color_in, is_coloring, joined_coloring, coloring_in, colorings_under};

use crate::member_kinds::is_list;
use crate::members::{items_under, text_in};
use bcf_viewpoints::{Coloring, Component, MOST_SOURCE};
use bim_model::{Guid, Items, Text};
use serde_json::Value;
use std::alloc::{AllocError, Global};

fn guid_of(value: &Value) -> Option<Guid>
    ensures { result ≡ guid_value (view value.now) }
{
    match value.as_str() {
        Some(text) => Guid::read(text.as_bytes()),
        None => None,
    }
}

#[tactic(auto, unfolding(crate::specs::ViewBodies::guid_in))]
fn guid_in(component: &Value) -> Option<Option<Guid>>
    ensures { result ≡ guid_in (view component.now) }
{
    match component.get("ifc_guid") {
        Some(value) => {
            if value.is_null() {
                return Some(None);
            }
            match guid_of(value) {
                Some(guid) => Some(Some(guid)),
                None => None,
            }
        }
        None => Some(None),
    }
}

#[tactic(auto, unfolding(crate::specs::ViewBodies::joined_component))]
fn joined_component(
    is_object: bool,
    ifc_guid: Option<Option<Guid>>,
    originating_system: Option<Option<Text>>,
    authoring_tool_id: Option<Option<Text>>,
) -> Option<Component>
    ensures { result ≡ joined_component is_object ifc_guid originating_system authoring_tool_id }
{
    if !is_object {
        return None;
    }
    let ifc_guid = ifc_guid?;
    let originating_system = originating_system?;
    let authoring_tool_id = authoring_tool_id?;
    Some(Component {
        ifc_guid,
        originating_system,
        authoring_tool_id,
    })
}

#[tactic(auto, unfolding(crate::specs::ViewBodies::component_in))]
fn component_in(alloc: Global, component: &Value) -> Result<Option<Component>, AllocError>
    ensures { IfOk result (λ found. found ≡ component_in (view component.now)) }
{
    let system = text_in(alloc, MOST_SOURCE, "originating_system", component)?;
    let tool = text_in(alloc, MOST_SOURCE, "authoring_tool_id", component)?;
    Ok(joined_component(component.is_object(), guid_in(component), system, tool))
}

/// The components of an array, none where one of them is bad.
pub fn components_among(
    alloc: Global,
    items: &[Value],
) -> Result<Option<Items<Component>>, AllocError>
    ensures { IfOk result (λ found. found ≡ all_of component_in (items_view items.now)) }
{
    let mut components = Items::new(alloc);
    for item in items {
        let Some(component) = component_in(alloc, item)? else {
            return Ok(None);
        };
        components.push(component)?;
    }
    Ok(Some(components))
}

/// The components under that name, none where one of them is bad.
#[tactic(auto, unfolding(crate::specs::ViewBodies::components_under))]
pub fn components_under(
    alloc: Global,
    name: &str,
    tree: &Value,
) -> Result<Option<Items<Component>>, AllocError>
    ensures { IfOk result (λ found. found ≡ components_under name.now (view tree.now)) }
{
    components_among(alloc, items_under(name, tree))
}

// Without a number sign at its front.
fn after_sign(text: &[u8]) -> &[u8]
    ensures { result.now ≡ after_sign text.now }
{
    match text {
        [b'#', rest @ ..] => rest,
        _ => text,
    }
}

fn are_digits(text: &[u8]) -> bool
    ensures { result ≡ list_all is_ascii_hexdigit text.now }
{
    text.iter().all(|byte| byte.is_ascii_hexdigit())
}

#[tactic(auto, unfolding(crate::specs::ViewBodies::is_color))]
fn is_color(text: &[u8]) -> bool
    ensures { result ≡ is_color text.now }
{
    let digits = after_sign(text);
    (digits.len() == 6 || digits.len() == 8) && are_digits(digits)
}

// The color of a coloring.
#[tactic(auto, unfolding(crate::specs::ViewBodies::color_in))]
fn color_in(coloring: &Value) -> Option<&str>
    ensures { option_map (λ color. color.now) result ≡ color_in (view coloring.now) }
{
    match coloring.get("color") {
        Some(value) => match value.as_str() {
            Some(text) => {
                if is_color(text.as_bytes()) {
                    Some(text)
                } else {
                    None
                }
            }
            None => None,
        },
        None => None,
    }
}

/// Whether a coloring is good but for its components.
#[tactic(auto, unfolding(crate::specs::ViewBodies::is_coloring))]
pub fn is_coloring(coloring: &Value) -> bool
    ensures { result ≡ is_coloring (view coloring.now) }
{
    color_in(coloring).is_some() && is_list("components", coloring)
}

#[tactic(auto, unfolding(crate::specs::ViewBodies::coloring_in))]
fn coloring_in(alloc: Global, coloring: &Value) -> Result<Option<Coloring>, AllocError>
    ensures { IfOk result (λ found. found ≡ coloring_in (view coloring.now)) }
{
    let Some(color) = color_in(coloring) else {
        return Ok(None);
    };
    let Some(components) = components_under(alloc, "components", coloring)? else {
        return Ok(None);
    };
    let color = Text::of(alloc, color)?;
    Ok(Some(Coloring { color, components }))
}

// The colorings of an array, none where a component of one of them is bad.
fn colorings_among(alloc: Global, items: &[Value]) -> Result<Option<Items<Coloring>>, AllocError>
    ensures { IfOk result (λ found. found ≡ all_of coloring_in (items_view items.now)) }
{
    let mut colorings = Items::new(alloc);
    for item in items {
        let Some(coloring) = coloring_in(alloc, item)? else {
            return Ok(None);
        };
        colorings.push(coloring)?;
    }
    Ok(Some(colorings))
}

/// The colorings under that name, none where a component of one of them is bad.
#[tactic(auto, unfolding(crate::specs::ViewBodies::colorings_under))]
pub fn colorings_under(
    alloc: Global,
    name: &str,
    tree: &Value,
) -> Result<Option<Items<Coloring>>, AllocError>
    ensures { IfOk result (λ found. found ≡ colorings_under name.now (view tree.now)) }
{
    colorings_among(alloc, items_under(name, tree))
}
