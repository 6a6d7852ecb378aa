//! What face sets say.
ghost use Rattle.std.specs.Prelude.{◌≡◌, IfOk, option_map};
ghost use Rattle.faceset.specs.FaceSets.{spelled_points, is_polygonal, is_set, is_face, numbering, outline, spelled_loops};

use ifc_instances::Entity;
use p21_table::{Exchange, InstanceRef, ValueRef, Values};
use std::alloc::{AllocError, Global};

/// Whether it is a polygonal face set (IFC4 ADD2 TC1, IfcPolygonalFaceSet).
pub fn is_polygonal(instance: &InstanceRef<'_>) -> bool
    ensures { result ≡ is_polygonal instance.now }
{
    Entity::PolygonalFaceSet.includes(instance)
}

/// Whether it is a face set, triangulated or polygonal.
pub fn is_set(instance: &InstanceRef<'_>) -> bool
    ensures { result ≡ is_set instance.now }
{
    Entity::TriangulatedFaceSet.includes(instance) || is_polygonal(instance)
}

/// Whether it is a face of a polygonal set, with voids or without.
pub fn is_face(instance: &InstanceRef<'_>) -> bool
    ensures { result ≡ is_face instance.now }
{
    Entity::Face.includes(instance) || Entity::FaceWithVoids.includes(instance)
}

/// The indexes of the corners of a face (IFC4 ADD2 TC1, IfcIndexedPolygonalFace, CoordIndex).
pub fn outline<'a>(face: &InstanceRef<'a>) -> Values<'a>
    ensures { result ≡ outline face.now }
{
    face.listed(0)
}

/// The inner loops of a face, each a list of indexes (IFC4 ADD2 TC1, IfcIndexedPolygonalFaceWithVoids, InnerCoordIndices). A
/// face without voids has none.
pub fn spelled_loops<'a>(face: &InstanceRef<'a>) -> Values<'a>
    ensures { result ≡ spelled_loops face.now }
{
    if Entity::FaceWithVoids.includes(face) {
        face.listed(1)
    } else {
        Values::none()
    }
}

/// The points of a set, as they are spelled.
#[tactic(auto, unfolding(crate::specs::FaceSets::points_of))]
pub(crate) fn spelled_points<'a>(exchange: &'a Exchange, set: &InstanceRef<'_>) -> Values<'a>
    ensures { result ≡ spelled_points exchange.now set.now }
{
    match exchange.target_at(set, 0) {
        Some(points) => points.listed(0),
        None => Values::none(),
    }
}

/// The numbers of the points that the set's indexes name, where it has them (PnIndex).
#[tactic(auto, unfolding(crate::specs::FaceSets::numbering))]
pub fn numbering<'a>(set: &InstanceRef<'a>) -> Option<Values<'a>>
    ensures { result ≡ numbering set.now }
{
    let at = if is_polygonal(set) { 3 } else { 4 };
    match set.attribute(at) {
        Some(value) => value.items(),
        None => None,
    }
}

/// The same, each number at its place, since indexes name them in any order.
pub(crate) fn placed_numbering<'a>(
    alloc: Global,
    set: &InstanceRef<'a>,
) -> Result<Option<Vec<ValueRef<'a>>>, AllocError>
    ensures { IfOk result (λ found. option_map (λ placed. placed.items) found ≡ numbering set.now) }
{
    match numbering(set) {
        Some(numbers) => Ok(Some(numbers.to_vec(alloc)?)),
        None => Ok(None),
    }
}
