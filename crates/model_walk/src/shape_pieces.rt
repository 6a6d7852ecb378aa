//! The items of the bodies of a product shape, each as the rows of a set and an operator (IFC4 ADD2 TC1, IfcProductDefinitionShape).
ghost use Rattle.std.specs.Prelude.{◌≤◌, ◌∷◌, [], List, Option, Some, IfOk, IfSome, flat_map};
ghost use Rattle.bim_model.specs.declared.limits.TheConstants.{MOST_TRIANGLES};
ghost use Rattle.bim_model.specs.declared.geometry.Point.{Point};
ghost use Rattle.bim_model.specs.declared.upload.Mode.{Mode};
ghost use Rattle.p21_values.specs.Attributes.{led_to};
ghost use Rattle.ifc_units.specs.declared.scale.Scale.{Scale};
ghost use Rattle.faceset.specs.FaceSets.{Joined};
ghost use Rattle.ifc_elements.specs.Items.{items_of, bodies_among};
ghost use Rattle.ifc_elements.specs.Sound.{KeptSet, KeptMapped};
ghost use Rattle.model_walk.specs.inner.PooledSets.{AreReadSets};
ghost use Rattle.model_walk.specs.inner.SurfacePieces.{AddsShown, Carried, IsOperator};
ghost use Rattle.model_walk.specs.inner.Stocked.{AddsPieces, shape_items};

use crate::set_pool::SetRows;
use bim_model::{MOST_TRIANGLES, Mode};
use ifc_elements::{is_body_representation, is_mapped_item, spelled_items, spelled_sets};
use ifc_units::Scale;
use p21_table::{Exchange, InstanceRef, ValueRef, Values};
use placement::{Frame, operator_frame};
use std::alloc::AllocError;
use walk_rows::Pool;

/// A set as a shape shows it: its place, and the frame that carries it, where it is mapped.
#[derive(Clone, Copy)]
pub struct Piece {
    pub set: usize,
    pub operator: Option<Frame>,
}

/// Which of the pieces are those of a shape, and how many triangles they have.
#[derive(Clone, Copy)]
pub struct Range {
    pub from: usize,
    pub to: usize,
    pub count: u64,
}

/// Adds the set that a value refers to, and gives the triangles so far. None where it has no rows, or there are too many triangles, as in all
/// that follows.
fn add_set(
    exchange: &Exchange,
    sets: &Pool<SetRows>,
    value: &ValueRef<'_>,
    operator: Option<Frame>,
    so_far: u64,
    out: &mut Vec<Piece>,
) -> Result<Option<u64>, AllocError>
    requires few { so_far ≤ MOST_TRIANGLES }
    requires operator { IsOperator operator }
    ensures few { IfOk result (λ found. IfSome found (λ count. count ≤ MOST_TRIANGLES)) }
    ensures added { (scale : Scale) (mode : Mode) (points : List (Option (List Point)))
        → AreReadSets exchange.now scale mode points sets.now
        → IfOk result (λ found. IfSome found (AddsShown points sets.now
        (Carried operator (Joined (KeptSet exchange.now scale mode) (led_to exchange.now (value.now ∷ []))))
        out.old.items out.new.items so_far)) }
{
    let Some(id) = value.reference() else {
        return Ok(None);
    };
    let Some(at) = exchange.place_of(id) else {
        return Ok(None);
    };
    let Some(set) = sets.get(at) else {
        return Ok(None);
    };
    let count = set.rows.len() as u64;
    if count > MOST_TRIANGLES - so_far {
        return Ok(None);
    }
    out.push(Piece { set: at, operator })?;
    Ok(Some(so_far + count))
}

/// .. and of the sets that values refer to.
fn add_sets(
    exchange: &Exchange,
    sets: &Pool<SetRows>,
    values: &Values<'_>,
    operator: Frame,
    so_far: u64,
    out: &mut Vec<Piece>,
) -> Result<Option<u64>, AllocError>
    requires few { so_far ≤ MOST_TRIANGLES }
    requires operator { IsOperator (Some operator) }
    ensures few { IfOk result (λ found. IfSome found (λ count. count ≤ MOST_TRIANGLES)) }
    ensures added { (scale : Scale) (mode : Mode) (points : List (Option (List Point)))
        → AreReadSets exchange.now scale mode points sets.now
        → IfOk result (λ found. IfSome found (AddsShown points sets.now
        (Carried (Some operator) (Joined (KeptSet exchange.now scale mode) (led_to exchange.now values.now)))
        out.old.items out.new.items so_far)) }
{
    let mut count = so_far;
    for value in values.iter() {
        match add_set(exchange, sets, &value, Some(operator), count, out)? {
            Some(more) => count = more,
            None => return Ok(None),
        }
    }
    Ok(Some(count))
}

/// .. of a mapped item.
fn add_mapped(
    exchange: &Exchange,
    sets: &Pool<SetRows>,
    item: &InstanceRef<'_>,
    scale: Scale,
    mode: Mode,
    so_far: u64,
    out: &mut Vec<Piece>,
) -> Result<Option<u64>, AllocError>
    requires few { so_far ≤ MOST_TRIANGLES }
    ensures few { IfOk result (λ found. IfSome found (λ count. count ≤ MOST_TRIANGLES)) }
    ensures added { (points : List (Option (List Point)))
        → AreReadSets exchange.now scale mode points sets.now
        → IfOk result (λ found. IfSome found (AddsShown points sets.now
        (KeptMapped exchange.now scale mode item.now)
        out.old.items out.new.items so_far)) }
{
    let Some(operator) = item.reference_at(1) else {
        return Ok(None);
    };
    let Some(frame) = operator_frame(exchange, operator, scale, mode) else {
        return Ok(None);
    };
    add_sets(
        exchange,
        sets,
        &spelled_sets(exchange, item),
        frame,
        so_far,
        out,
    )
}

/// .. of the item that a value refers to.
fn add_item(
    exchange: &Exchange,
    sets: &Pool<SetRows>,
    value: &ValueRef<'_>,
    scale: Scale,
    mode: Mode,
    so_far: u64,
    out: &mut Vec<Piece>,
) -> Result<Option<u64>, AllocError>
    requires few { so_far ≤ MOST_TRIANGLES }
    ensures few { IfOk result (λ found. IfSome found (λ count. count ≤ MOST_TRIANGLES)) }
    ensures added { (points : List (Option (List Point)))
        → AreReadSets exchange.now scale mode points sets.now
        → IfOk result (λ found. IfSome found (AddsPieces exchange.now scale mode points sets.now
        (led_to exchange.now (value.now ∷ [])) out.old.items out.new.items so_far)) }
{
    let Some(item) = exchange.target(value) else {
        return Ok(None);
    };
    if is_mapped_item(&item) {
        return add_mapped(exchange, sets, &item, scale, mode, so_far, out);
    }
    add_set(exchange, sets, value, None, so_far, out)
}

/// .. of the items of a representation.
fn add_items(
    exchange: &Exchange,
    sets: &Pool<SetRows>,
    representation: &InstanceRef<'_>,
    scale: Scale,
    mode: Mode,
    so_far: u64,
    out: &mut Vec<Piece>,
) -> Result<Option<u64>, AllocError>
    requires few { so_far ≤ MOST_TRIANGLES }
    ensures few { IfOk result (λ found. IfSome found (λ count. count ≤ MOST_TRIANGLES)) }
    ensures added { (points : List (Option (List Point)))
        → AreReadSets exchange.now scale mode points sets.now
        → IfOk result (λ found. IfSome found (AddsPieces exchange.now scale mode points sets.now
        (items_of exchange.now representation.now) out.old.items out.new.items so_far)) }
{
    let mut count = so_far;
    for value in spelled_items(representation) {
        match add_item(exchange, sets, &value, scale, mode, count, out)? {
            Some(more) => count = more,
            None => return Ok(None),
        }
    }
    Ok(Some(count))
}

/// .. of the representation that a value refers to, where it is a body.
fn add_body(
    exchange: &Exchange,
    sets: &Pool<SetRows>,
    value: &ValueRef<'_>,
    scale: Scale,
    mode: Mode,
    so_far: u64,
    out: &mut Vec<Piece>,
) -> Result<Option<u64>, AllocError>
    requires few { so_far ≤ MOST_TRIANGLES }
    ensures few { IfOk result (λ found. IfSome found (λ count. count ≤ MOST_TRIANGLES)) }
    ensures added { (points : List (Option (List Point)))
        → AreReadSets exchange.now scale mode points sets.now
        → IfOk result (λ found. IfSome found (AddsPieces exchange.now scale mode points sets.now
        (flat_map (items_of exchange.now) (bodies_among exchange.now (value.now ∷ [])))
        out.old.items out.new.items so_far)) }
{
    let Some(representation) = exchange.target(value) else {
        return Ok(Some(so_far));
    };
    if !is_body_representation(&representation) {
        return Ok(Some(so_far));
    }
    add_items(exchange, sets, &representation, scale, mode, so_far, out)
}

/// Adds the pieces of a shape, and gives how many triangles they have.
pub fn add_shape(
    exchange: &Exchange,
    sets: &Pool<SetRows>,
    shape: &InstanceRef<'_>,
    scale: Scale,
    mode: Mode,
    out: &mut Vec<Piece>,
) -> Result<Option<u64>, AllocError>
    ensures few { IfOk result (λ found. IfSome found (λ count. count ≤ MOST_TRIANGLES)) }
    ensures added { (points : List (Option (List Point)))
        → AreReadSets exchange.now scale mode points sets.now
        → IfOk result (λ found. IfSome found (AddsPieces exchange.now scale mode points sets.now
        (shape_items exchange.now shape.now) out.old.items out.new.items 0)) }
{
    let mut count = 0;
    for value in shape.listed(2) {
        match add_body(exchange, sets, &value, scale, mode, count, out)? {
            Some(more) => count = more,
            None => return Ok(None),
        }
    }
    Ok(Some(count))
}
