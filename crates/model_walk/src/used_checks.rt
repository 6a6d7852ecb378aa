//! What the instances that are used show, by their kinds: each is looked at once.
ghost use Rattle.std.specs.Prelude.{◌≡◌, ◌≤◌, true, length, All};
ghost use Rattle.std.specs.Bool.{OnTrue};
ghost use Rattle.ifc_instances.specs.declared.entity.Entity.TheVariants.{Representation, AxisPlacement, Operator, RepresentationMap, Point};
ghost use Rattle.ifc_instances.specs.EntityLookup.{is_a};
ghost use Rattle.ifc_units.specs.declared.length_error.GridFault.{GridFault};
ghost use Rattle.ifc_units.specs.Lengths.{InstanceRefused};
ghost use Rattle.placement.specs.declared.axes.Axes.{Axes};
ghost use Rattle.placement.specs.Directions.{HasAxes};
ghost use Rattle.placement.specs.Operators.{HasOperatorAxes};
ghost use Rattle.faceset.specs.FaceSets.{is_face, all_corners, most_corners};
ghost use Rattle.ifc_elements.specs.Items.{is_mapped_item};
ghost use Rattle.model_walk.specs.Clean.{LeadsToItem, HasReadItems, HasPlainScale, HasOperator, HasPlainOrigin, ShowsNone, grid_axis, identity};

use bim_model::Mode;
use faceset::{has_many_corners, is_face, is_set, place_of};
use ifc_elements::{is_item, is_mapped_item, spelled_items};
use ifc_instances::Entity;
use ifc_schema::is_body;
use ifc_units::{Scale, fault_of_points};
use p21_table::{Exchange, InstanceRef, ValueRef, Values};
use placement::{Axis, Frame, axes_of, axis_frame, operator_axes};

/// Whether an item leads to a face set or, where that may be, to a mapped item.
fn is_read(exchange: &Exchange, value: &ValueRef<'_>, mapped: bool) -> bool
    ensures { OnTrue result (LeadsToItem exchange.now mapped value.now) }
{
    let Some(id) = value.reference() else {
        return false;
    };
    match exchange.look(id) {
        Some(item) => is_item(&item) && !(mapped && is_mapped_item(&item)),
        None => false,
    }
}

/// Whether all items do.
fn are_read(exchange: &Exchange, values: &Values<'_>, mapped: bool) -> bool
    ensures { OnTrue result (All (LeadsToItem exchange.now mapped) values.now) }
{
    for value in values.iter() {
        if !is_read(exchange, &value, mapped) {
            return false;
        }
    }
    true
}

/// Whether the items of a representation are read, where they are looked at.
fn has_read_items(exchange: &Exchange, representation: &InstanceRef<'_>, mapped: bool) -> bool
    ensures { OnTrue result (HasReadItems exchange.now mapped representation.now) }
{
    (!mapped && !is_body(representation))
        || are_read(exchange, &spelled_items(representation), mapped)
}

/// Whether the scale of an operator is 1 (IFC4 ADD2 TC1, IfcCartesianTransformationOperator3D, Scale), or it has none.
fn has_plain_scale(operator: &InstanceRef<'_>) -> bool
    ensures { OnTrue result (HasPlainScale operator.now) }
{
    match operator.attribute(3) {
        Some(scale) => scale.number().is_none() || place_of(&scale, 1).is_some(),
        None => true,
    }
}

/// Whether a mapped item is mapped by an operator with no scale but 1.
fn has_operator(exchange: &Exchange, item: &InstanceRef<'_>) -> bool
    ensures { OnTrue result (HasOperator exchange.now item.now) }
{
    let Some(id) = item.reference_at(1) else {
        return false;
    };
    match exchange.look(id) {
        Some(operator) => Entity::Operator.includes(&operator) && has_plain_scale(&operator),
        None => false,
    }
}

/// Whether it is that axis of the grid.
fn is_along(axis: Axis, direction: u8) -> bool
    ensures { OnTrue result (axis ≡ grid_axis direction) }
{
    axis.direction == direction && !axis.negative
}

/// Whether it leaves each point where it is.
fn is_identity(frame: &Frame) -> bool
    ensures { OnTrue result (frame.now ≡ identity) }
{
    let offset = frame.offset;
    is_along(frame.x, 0)
        && is_along(frame.y, 1)
        && is_along(frame.z, 2)
        && offset.x == 0
        && offset.y == 0
        && offset.z == 0
}

/// Whether the mapping origin of a representation map is the identity.
fn has_plain_origin(exchange: &Exchange, map: &InstanceRef<'_>, scale: Scale, mode: Mode) -> bool
    ensures { OnTrue result (HasPlainOrigin exchange.now scale mode map.now) }
{
    let Some(origin) = map.reference_at(0) else {
        return false;
    };
    match axis_frame(exchange, origin, scale, mode) {
        Some(frame) => is_identity(&frame),
        None => false,
    }
}

/// Whether a representation has items that are read.
fn shows_items(exchange: &Exchange, instance: &InstanceRef<'_>, mapped: bool) -> bool
    ensures { OnTrue result (is_a Representation instance.now ≡ true
        → HasReadItems exchange.now mapped instance.now) }
{
    !Entity::Representation.includes(instance) || has_read_items(exchange, instance, mapped)
}

/// Whether an axis placement has axes along the grid's.
fn shows_axes(exchange: &Exchange, instance: &InstanceRef<'_>) -> bool
    ensures { OnTrue result (is_a AxisPlacement instance.now ≡ true
        → (axes : Axes) × HasAxes exchange.now instance.now.id axes) }
{
    !Entity::AxisPlacement.includes(instance) || axes_of(exchange, instance.id()).is_some()
}

/// Whether an operator has axes along the grid's.
fn shows_operator_axes(exchange: &Exchange, instance: &InstanceRef<'_>) -> bool
    ensures { OnTrue result (is_a Operator instance.now ≡ true
        → (axes : Axes) × HasOperatorAxes exchange.now instance.now.id axes) }
{
    !Entity::Operator.includes(instance) || operator_axes(exchange, instance.id()).is_some()
}

/// Whether a mapped item is mapped by an operator that is read.
fn shows_operator(exchange: &Exchange, instance: &InstanceRef<'_>) -> bool
    ensures { OnTrue result (is_mapped_item instance.now ≡ true → HasOperator exchange.now instance.now) }
{
    !is_mapped_item(instance) || has_operator(exchange, instance)
}

/// Whether a representation map has the identity as its origin.
fn shows_origin(exchange: &Exchange, instance: &InstanceRef<'_>, scale: Scale, mode: Mode) -> bool
    ensures { OnTrue result (is_a RepresentationMap instance.now ≡ true
        → HasPlainOrigin exchange.now scale mode instance.now) }
{
    !Entity::RepresentationMap.includes(instance)
        || has_plain_origin(exchange, instance, scale, mode)
}

/// Whether a face has not too many corners.
fn has_few_corners(instance: &InstanceRef<'_>) -> bool
    ensures { OnTrue result (is_face instance.now ≡ true → length (all_corners instance.now) ≤ most_corners) }
{
    !is_face(instance) || !has_many_corners(instance)
}

/// Whether the lengths of a point are on the grid and in reach.
fn is_measured(instance: &InstanceRef<'_>, scale: Scale, mode: Mode) -> bool
    ensures { OnTrue result (is_a Point instance.now ≡ true → (fault : GridFault)
        → InstanceRefused scale mode instance.now fault → ⊥) }
{
    !Entity::Point.includes(instance) || fault_of_points(instance, scale, mode).is_none()
}

/// Whether an instance that is used shows no fault by itself, by its kind. Whether it is mapped is given.
pub fn shows_none(
    exchange: &Exchange,
    instance: &InstanceRef<'_>,
    mapped: bool,
    scale: Scale,
    mode: Mode,
) -> bool
    ensures { OnTrue result (ShowsNone exchange.now scale mode mapped instance.now) }
{
    if !shows_items(exchange, instance, mapped) {
        return false;
    }
    if !shows_axes(exchange, instance) {
        return false;
    }
    if !shows_operator_axes(exchange, instance) {
        return false;
    }
    if !shows_operator(exchange, instance) {
        return false;
    }
    if !shows_origin(exchange, instance, scale, mode) {
        return false;
    }
    if !has_few_corners(instance) {
        return false;
    }
    is_measured(instance, scale, mode)
}
