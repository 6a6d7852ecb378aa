//! Viewpoints that come in.
ghost use Rattle.std.specs.Prelude.{◌≡◌, ◌≤◌, ◌+◌, ◌&&◌, ℕ, Bool, false, nat_le, IfOk, option_and_then, codes};
ghost use Rattle.std.specs.Option.{unwrap_or};
ghost use Rattle.serde_json.specs.Data.{null};
ghost use Rattle.serde_json.specs.Events.{items_len};
ghost use Rattle.serde_json.specs.View.{view, items_view};
ghost use Rattle.bcf_viewpoints.specs.Components.{IsComponent, IsColoring};
ghost use Rattle.bcf_viewpoints.specs.Viewpoints.{IsViewBody};
ghost use Rattle.bcf_bodies.specs.Members.{all_are, is_list, is_table, is_flag, items_under};
ghost use Rattle.bcf_bodies.specs.BodyFaults.{IsReadAs};
ghost use Rattle.bcf_bodies.specs.ViewBodies.{component_in, is_coloring, visibility_of, is_shaped, colored_count, component_count, is_shown, view_of_parts, view_body};

use crate::body_fault::{BodyError, BodyFault, refuse};
use crate::components::{colorings_under, components_among, components_under, is_coloring};
use crate::member_kinds::{is_flag, is_list, is_table};
use crate::members::{index_in, items_under};
use bcf_viewpoints::{MOST_COMPONENTS, ViewBody};
use serde_json::Value;
use std::alloc::Global;

// The exceptions of the visibility, none where it is no array.
#[tactic(auto, unfolding(crate::specs::Members::items_under))]
fn exceptions_of(parts: &Value) -> &[Value]
    ensures { items_view result.now ≡ items_under (codes "exceptions") (visibility_of (view parts.now)) }
{
    match parts.get("visibility") {
        Some(visibility) => items_under("exceptions", visibility),
        None => &[],
    }
}

// Whether the members of the visibility are of the kind that they may be.
#[tactic(auto, unfolding(crate::specs::Members::is_flag, crate::specs::Members::is_list))]
fn is_visibility(parts: &Value) -> bool
    ensures { result ≡ (is_flag (codes "default_visibility") (visibility_of (view parts.now))
        && is_list (codes "exceptions") (visibility_of (view parts.now))) }
{
    match parts.get("visibility") {
        Some(visibility) => {
            is_flag("default_visibility", visibility) && is_list("exceptions", visibility)
        }
        None => true,
    }
}

// Whether each item is a coloring but for its components.
fn are_colorings(items: &[Value]) -> bool
    ensures { result ≡ all_are is_coloring (items_view items.now) }
{
    for item in items {
        if !is_coloring(item) {
            return false;
        }
    }
    true
}

// Whether a body's parts are good but for the components themselves.
#[tactic(auto, unfolding(crate::specs::ViewBodies::is_shaped))]
fn is_shaped(parts: &Value) -> bool
    ensures { result ≡ is_shaped (view parts.now) }
{
    let selection = is_list("selection", parts);
    let coloring = is_list("coloring", parts);
    let colorings = are_colorings(items_under("coloring", parts));
    let table = is_table("visibility", parts);
    let visibility = is_visibility(parts);
    selection && coloring && colorings && table && visibility
}

// Whether these colorings have at most so many components together.
fn are_few(items: &[Value], most: usize) -> bool
    ensures { result ≡ nat_le (colored_count (items_view items.now)) most }
{
    let mut left = most;
    for item in items {
        let count = items_under("components", item).len();
        if count > left {
            return false;
        }
        left -= count;
    }
    true
}

// Whether there are at most 1,000 components.
#[tactic(auto, unfolding(crate::specs::ViewBodies::component_count), using(crate::proofs::Lists::count_is, crate::proofs::Lists::fits_if))]
fn fits(parts: &Value) -> bool
    ensures { result ≡ nat_le (component_count (view parts.now)) MOST_COMPONENTS }
{
    let selected = items_under("selection", parts).len();
    let excepted = exceptions_of(parts).len();
    if selected > MOST_COMPONENTS {
        return false;
    }
    if excepted > MOST_COMPONENTS - selected {
        return false;
    }
    are_few(
        items_under("coloring", parts),
        MOST_COMPONENTS - selected - excepted,
    )
}

// Whether components are shown.
#[tactic(auto, unfolding(crate::specs::ViewBodies::is_shown))]
fn is_shown(parts: &Value) -> bool
    ensures { result ≡ is_shown (view parts.now) }
{
    match parts.get("visibility") {
        Some(visibility) => match visibility.get("default_visibility") {
            Some(value) => value.as_bool() == Some(true),
            None => false,
        },
        None => false,
    }
}

// What the parts of a body make with its index: first the shape decides, then the index, then the components.
#[tactic(auto, unfolding(crate::specs::ViewBodies::view_of_parts, crate::specs::ViewBodies::joined_view, crate::specs::ViewBodies::components_under))]
fn view_of_parts(
    alloc: Global,
    index: Option<Option<i32>>,
    parts: &Value,
) -> Result<ViewBody, BodyError>
    ensures { IsReadAs result (view_of_parts index (view parts.now)) }
{
    if !is_shaped(parts) {
        return refuse(alloc, "components");
    }
    let Some(index) = index else {
        return refuse(alloc, "index");
    };
    if !fits(parts) {
        return Err(BodyError::Fault(BodyFault::BadComponent));
    }
    let Some(selection) = components_under(alloc, "selection", parts)? else {
        return Err(BodyError::Fault(BodyFault::BadComponent));
    };
    let Some(coloring) = colorings_under(alloc, "coloring", parts)? else {
        return Err(BodyError::Fault(BodyFault::BadComponent));
    };
    let Some(exceptions) = components_among(alloc, exceptions_of(parts))? else {
        return Err(BodyError::Fault(BodyFault::BadComponent));
    };
    Ok(ViewBody {
        index,
        selection,
        coloring,
        default_visibility: is_shown(parts),
        exceptions,
    })
}

// The viewpoint that a body asks for.
#[tactic(auto, unfolding(crate::specs::ViewBodies::view_body))]
fn read_view(alloc: Global, tree: &Value) -> Result<ViewBody, BodyError>
    ensures { IsReadAs result (view_body (view tree.now)) }
{
    if !is_table("components", tree) {
        return refuse(alloc, "components");
    }
    match tree.get("components") {
        Some(parts) => view_of_parts(alloc, index_in(tree), parts),
        None => view_of_parts(alloc, index_in(tree), &Value::Null),
    }
}

/// The viewpoint that a body asks for, as far as it is kept: `index`, a whole number of 32 bits, and
/// `components`, an object with the arrays `selection` and `coloring` and the object `visibility`, all if
/// they are there. A coloring has a `color`, 6 or 8 hexadecimal digits after a `#` or without one, and an
/// array of `components`; the visibility has `default_visibility`, which is false where it isn't told, and an
/// array of `exceptions`. A component has `ifc_guid`, 22 characters, and `originating_system` and
/// `authoring_tool_id`, texts of up to 64 bytes, each if it is there. A member that is null counts as absent,
/// another member is passed over.
///
/// B4 with `components` where something in it is bad but the components themselves, then B4 with `index`,
/// then B8 where a component is bad or there are over 1,000.
pub fn view_in(alloc: Global, tree: &Value) -> Result<ViewBody, BodyError>
    ensures read { IsReadAs result (view_body (view tree.now)) }
    ensures good { IfOk result IsViewBody }
{
    read_view(alloc, tree)
}
