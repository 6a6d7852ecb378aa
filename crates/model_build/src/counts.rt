//! How many triangles a model has.
ghost use Rattle.std.specs.Prelude.{◌≤◌, ◌+◌, ◌∷◌, [], sum_by, IfOk};
ghost use Rattle.faceset.specs.FaceSets.{triangle_count};
ghost use Rattle.p21_values.specs.Attributes.{led_to};
ghost use Rattle.ifc_elements.specs.Items.{item_count, count_of};
ghost use Rattle.model_build.specs.Triangles.{most_triangles, CountsTo, body_count};
ghost use Rattle.ifc_elements.specs.Shapes.{AreShapes};

use bim_model::MOST_TRIANGLES;
use faceset::triangle_count;
use ifc_elements::{Shapes, bodies, is_mapped_item, spelled_items, spelled_sets};
use p21_table::{Exchange, InstanceRef, ValueRef, Values};
use std::alloc::{AllocError, Global};

/// The number of triangles so far and of a set. None where it is more than a model may have, as in all that follows.
fn count_set(exchange: &Exchange, set: &InstanceRef<'_>, so_far: u64) -> Option<u64>
    requires { so_far ≤ most_triangles }
    ensures { CountsTo (so_far + triangle_count exchange.now set.now) result }
{
    let more = triangle_count(exchange, set, MOST_TRIANGLES - so_far)?;
    Some(so_far + more)
}

/// .. and of the set that a value refers to.
fn count_set_of(exchange: &Exchange, value: &ValueRef<'_>, so_far: u64) -> Option<u64>
    requires { so_far ≤ most_triangles }
    ensures { CountsTo (so_far + sum_by (triangle_count exchange.now)
        (led_to exchange.now (value.now ∷ []))) result }
{
    match exchange.target(value) {
        Some(set) => count_set(exchange, &set, so_far),
        None => Some(so_far),
    }
}

/// .. and of the sets that values refer to.
fn count_sets(exchange: &Exchange, values: &Values<'_>, so_far: u64) -> Option<u64>
    requires { so_far ≤ most_triangles }
    ensures { CountsTo (so_far + sum_by (triangle_count exchange.now)
        (led_to exchange.now values.now)) result }
{
    let mut count = so_far;
    for value in values.iter() {
        let Some(counted) = count_set_of(exchange, &value, count) else {
            return None;
        };
        count = counted;
    }
    Some(count)
}

/// .. and of an item.
fn count_item(exchange: &Exchange, item: &InstanceRef<'_>, so_far: u64) -> Option<u64>
    requires { so_far ≤ most_triangles }
    ensures { CountsTo (so_far + item_count exchange.now item.now) result }
{
    if is_mapped_item(item) {
        count_sets(exchange, &spelled_sets(exchange, item), so_far)
    } else {
        count_set(exchange, item, so_far)
    }
}

/// .. and of the item that a value refers to.
fn count_item_of(exchange: &Exchange, value: &ValueRef<'_>, so_far: u64) -> Option<u64>
    requires { so_far ≤ most_triangles }
    ensures { CountsTo (so_far + sum_by (item_count exchange.now)
        (led_to exchange.now (value.now ∷ []))) result }
{
    match exchange.target(value) {
        Some(item) => count_item(exchange, &item, so_far),
        None => Some(so_far),
    }
}

/// .. and of the items that values refer to.
fn count_items(exchange: &Exchange, values: &Values<'_>, so_far: u64) -> Option<u64>
    requires { so_far ≤ most_triangles }
    ensures { CountsTo (so_far + sum_by (item_count exchange.now) (led_to exchange.now values.now)) result }
{
    let mut count = so_far;
    for value in values.iter() {
        let Some(counted) = count_item_of(exchange, &value, count) else {
            return None;
        };
        count = counted;
    }
    Some(count)
}

/// .. and of the items of the representation of that number.
fn count_body(exchange: &Exchange, id: u64, so_far: u64) -> Option<u64>
    requires { so_far ≤ most_triangles }
    ensures { CountsTo (so_far + body_count exchange.now id) result }
{
    match exchange.look(id) {
        Some(body) => count_items(exchange, &spelled_items(&body), so_far),
        None => Some(so_far),
    }
}

/// .. and of the items of the representations of these numbers.
fn count_bodies(exchange: &Exchange, ids: &[u64], so_far: u64) -> Option<u64>
    requires { so_far ≤ most_triangles }
    ensures { CountsTo (so_far + sum_by (body_count exchange.now) ids.now) result }
{
    let mut count = so_far;
    for id in ids {
        let Some(counted) = count_body(exchange, *id, count) else {
            return None;
        };
        count = counted;
    }
    Some(count)
}

/// .. and of the element of that number.
fn count_element(
    alloc: Global,
    exchange: &Exchange,
    shapes: &Shapes,
    id: u64,
    so_far: u64,
) -> Result<Option<u64>, AllocError>
    requires few { so_far ≤ most_triangles }
    requires shapes { AreShapes exchange.now shapes.now }
    ensures { IfOk result (CountsTo (so_far + count_of exchange.now id)) }
{
    match exchange.look(id) {
        Some(element) => {
            let found = bodies(alloc, exchange, shapes, &element)?;
            Ok(count_bodies(exchange, &found, so_far))
        }
        None => Ok(Some(so_far)),
    }
}

/// How many triangles these elements have together. None where they have more than a million. Takes no step more than a million triangles
/// ask for, beside copying the numbers of each element's bodies.
pub fn count_triangles(
    alloc: Global,
    exchange: &Exchange,
    shapes: &Shapes,
    elements: &[u64],
) -> Result<Option<u64>, AllocError>
    requires { AreShapes exchange.now shapes.now }
    ensures { IfOk result (CountsTo (sum_by (count_of exchange.now) elements.now)) }
{
    let mut count = 0;
    for id in elements {
        match count_element(alloc, exchange, shapes, *id, count)? {
            Some(counted) => count = counted,
            None => return Ok(None),
        }
    }
    Ok(Some(count))
}
