//! The elements of a model.
ghost use Rattle.std.specs.Prelude.{◌≡◌, ℕ, List, Some, IfOk, IfSome, MatchOption, MatchResult};
ghost use Rattle.std.specs.List.{AllZip};
ghost use Rattle.std.specs.List.Sorted.{IsStrictlyIncreasing};
ghost use Rattle.bim_model.specs.declared.upload.Mode.{Mode};
ghost use Rattle.ifc_units.specs.declared.scale.Scale.{Scale};
ghost use Rattle.p21_values.specs.declared.value.Instance.{Instance};
ghost use Rattle.placement.specs.Placed.{AreFrames, frame_in};
ghost use Rattle.spatial_tree.specs.Trees.{ListsStoreys};
ghost use Rattle.p21_values.specs.InstanceLookup.{look};
ghost use Rattle.ifc_elements.specs.Framed.{Framed, AllFramed};
ghost use Rattle.ifc_elements.specs.Sound.{AreSets};
ghost use Rattle.ifc_elements.specs.Shapes.{AreShapes};
ghost use Rattle.ifc_elements.specs.StoreyNames.{AreNames};
ghost use Rattle.ifc_elements.specs.ElementReadiness.{IsStanding, IsFrameOf, IsNearSurface, IsNearElement, Lacks, LacksAt, IsFirstLacking};

use crate::kept_sets::Sets;
use crate::lack::{ElementLack, Lacking};
use crate::shapes::Shapes;
use crate::storey_names::Names;
use crate::storeys::storey_name;
use crate::surface::{all_moved, own_triangles};
use crate::texts::{guid_of, name_of};
use bim_model::{Element, Items, Mode, Triangle};
use ifc_units::Scale;
use p21_table::{Exchange, InstanceRef};
use placement::{Frame, Frames};
use spatial_tree::Tree;
use std::alloc::{AllocError, Global};

/// The frame of an element. None where it names a placement that has none.
fn frame_of(frames: &Frames, instance: &InstanceRef<'_>) -> Option<Frame>
    requires { AllFramed (frame_in frames.now) }
    ensures framed { IfSome result Framed }
    ensures placed { (world : List Instance) (scale : Scale) (mode : Mode) (placements : List ℕ)
        → AreFrames world scale mode placements (frame_in frames.now)
        → MatchOption result (IsStanding placements instance.now → ⊥)
        (IsFrameOf world scale mode instance.now) }
{
    let value = instance.attribute(5)?;
    if value.is_absent() {
        return Some(Frame::identity());
    }
    let id = value.reference()?;
    frames.get(id)
}

/// The triangles of an element in the building.
fn surface_of(
    alloc: Global,
    exchange: &Exchange,
    frames: &Frames,
    shapes: &Shapes,
    sets: &Sets,
    instance: &InstanceRef<'_>,
    scale: Scale,
    mode: Mode,
) -> Result<Result<Vec<Triangle>, ElementLack>, AllocError>
    requires framed { AllFramed (frame_in frames.now) }
    requires shapes { AreShapes exchange.now shapes.now }
    ensures { (placements listed : List ℕ)
        → AreFrames exchange.now scale mode placements (frame_in frames.now)
        → AreSets exchange.now scale mode listed sets.now
        → IfOk result (λ made. MatchResult made
        (λ triangles. IsNearSurface exchange.now scale mode instance.now triangles.items)
        (Lacks exchange.now scale mode placements listed instance.now)) }
{
    let Some(frame) = frame_of(frames, instance) else {
        return Ok(Err(ElementLack::Unready));
    };
    let Some(own) = own_triangles(alloc, exchange, shapes, sets, instance, scale, mode)? else {
        return Ok(Err(ElementLack::Unready));
    };
    match all_moved(alloc, &frame, &own)? {
        Some(triangles) => Ok(Ok(triangles)),
        None => Ok(Err(ElementLack::Beyond)),
    }
}

/// The element that an instance is.
fn element_of(
    alloc: Global,
    exchange: &Exchange,
    tree: &Tree,
    names: &Names,
    frames: &Frames,
    shapes: &Shapes,
    sets: &Sets,
    instance: &InstanceRef<'_>,
    scale: Scale,
    mode: Mode,
) -> Result<Result<Element, ElementLack>, AllocError>
    requires storeys { ListsStoreys exchange.now tree.now }
    requires names { AreNames exchange.now names.now }
    requires framed { AllFramed (frame_in frames.now) }
    requires shapes { AreShapes exchange.now shapes.now }
    ensures { (placements listed : List ℕ) → look exchange.now instance.now.id ≡ Some instance.now
        → AreFrames exchange.now scale mode placements (frame_in frames.now)
        → AreSets exchange.now scale mode listed sets.now
        → IfOk result (λ made. MatchResult made (IsNearElement exchange.now scale mode instance.now.id)
        (Lacks exchange.now scale mode placements listed instance.now)) }
{
    let Some(guid) = guid_of(alloc, instance)? else {
        return Ok(Err(ElementLack::Unready));
    };
    let Some(keyword) = instance.keyword() else {
        return Ok(Err(ElementLack::Unready));
    };
    match surface_of(alloc, exchange, frames, shapes, sets, instance, scale, mode)? {
        Ok(triangles) => Ok(Ok(Element {
            guid,
            class: keyword.text(alloc)?,
            name: name_of(alloc, instance)?,
            storey: storey_name(alloc, exchange, tree, names, instance.id())?,
            triangles: Items::from_vec(triangles),
        })),
        Err(lack) => Ok(Err(lack)),
    }
}

/// The element of that number.
fn element_at(
    alloc: Global,
    exchange: &Exchange,
    tree: &Tree,
    names: &Names,
    frames: &Frames,
    shapes: &Shapes,
    sets: &Sets,
    id: u64,
    scale: Scale,
    mode: Mode,
) -> Result<Result<Element, ElementLack>, AllocError>
    requires storeys { ListsStoreys exchange.now tree.now }
    requires names { AreNames exchange.now names.now }
    requires framed { AllFramed (frame_in frames.now) }
    requires shapes { AreShapes exchange.now shapes.now }
    ensures { (placements listed : List ℕ)
        → AreFrames exchange.now scale mode placements (frame_in frames.now)
        → AreSets exchange.now scale mode listed sets.now
        → IfOk result (λ made. MatchResult made (IsNearElement exchange.now scale mode id)
        (LacksAt exchange.now scale mode placements listed id)) }
{
    match exchange.look(id) {
        Some(instance) => element_of(
            alloc, exchange, tree, names, frames, shapes, sets, &instance, scale, mode,
        ),
        None => Ok(Err(ElementLack::Unready)),
    }
}

/// The elements of these numbers, in their order. The first that lacks something decides why there are none.
pub fn elements_of(
    alloc: Global,
    exchange: &Exchange,
    tree: &Tree,
    names: &Names,
    frames: &Frames,
    shapes: &Shapes,
    sets: &Sets,
    ids: &[u64],
    scale: Scale,
    mode: Mode,
) -> Result<Result<Vec<Element>, Lacking>, AllocError>
    requires storeys { ListsStoreys exchange.now tree.now }
    requires names { AreNames exchange.now names.now }
    requires framed { AllFramed (frame_in frames.now) }
    requires shapes { AreShapes exchange.now shapes.now }
    requires rises { IsStrictlyIncreasing ids.now }
    ensures { (placements listed : List ℕ)
        → AreFrames exchange.now scale mode placements (frame_in frames.now)
        → AreSets exchange.now scale mode listed sets.now
        → IfOk result (λ made. MatchResult made
        (λ elements. AllZip (IsNearElement exchange.now scale mode) ids.now elements.items)
        (IsFirstLacking exchange.now scale mode placements listed ids.now)) }
{
    let mut made = Vec::with_capacity(alloc, ids.len())?;
    for id in ids {
        match element_at(
            alloc, exchange, tree, names, frames, shapes, sets, *id, scale, mode,
        )? {
            Ok(element) => made.push(element)?,
            Err(lack) => return Ok(Err(Lacking { id: *id, lack })),
        }
    }
    Ok(Ok(made))
}
