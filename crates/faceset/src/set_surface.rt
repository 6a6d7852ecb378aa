//! The triangles of face sets.
ghost use Rattle.std.specs.Prelude.{◌≡◌, ℕ, List, ◌∷◌, [], length, sum_by, All, Any, IfOk, IfSome, IfNone, MatchOption, option_copied};
ghost use Rattle.bim_model.specs.declared.geometry.Triangle.{Triangle};
ghost use Rattle.bim_model.specs.Points.{IsGridPoint};
ghost use Rattle.p21_values.specs.Attributes.{led_to};
ghost use Rattle.faceset.specs.FaceSets.{Joined, IsCut, SetTriangles, IsSound, HasStuck, face_count, triangle_count};
ghost use Rattle.faceset.specs.inner.Cuts.{IsLoose};

use crate::faces::{Outcome, cut_face};
use crate::sets::{is_polygonal, placed_numbering};
use crate::triangulated::triangles;
use bim_model::{Point, Triangle};
use p21_table::{Exchange, InstanceRef, ValueRef, Values};
use std::alloc::{AllocError, Global};

/// The triangles of the face that a value refers to; none where it refers to none. None where it isn't cut.
fn face_triangles(
    alloc: Global,
    exchange: &Exchange,
    numbers: Option<&[ValueRef<'_>]>,
    points: &[Point],
    value: &ValueRef<'_>,
) -> Result<Option<Vec<Triangle>>, AllocError>
    requires { All IsGridPoint points.now }
    ensures triangles { IfOk result
        (λ made. MatchOption made (Any (IsLoose (option_copied numbers.entry) points.now)
        (led_to exchange.now (value.now ∷ [])))
        (λ triangles. Joined (IsCut (option_copied numbers.entry) points.now)
        (led_to exchange.now (value.now ∷ [])) triangles.items)) }
    ensures count { IfOk result (λ made. IfSome made
        (λ triangles. length triangles.items ≡ sum_by face_count (led_to exchange.now (value.now ∷ [])))) }
{
    let Some(id) = value.reference() else {
        return Ok(Some(Vec::new(alloc)));
    };
    let Some(face) = exchange.look(id) else {
        return Ok(Some(Vec::new(alloc)));
    };
    match cut_face(alloc, numbers, points, &face)? {
        Outcome::Cut(triangles) => Ok(Some(triangles)),
        Outcome::Stuck => Ok(None),
        Outcome::Unbridged => Ok(None),
        Outcome::Unready => Ok(None),
    }
}

/// The triangles of the faces that values refer to, one face after another. None where one isn't cut.
fn faces_triangles(
    alloc: Global,
    exchange: &Exchange,
    numbers: Option<&[ValueRef<'_>]>,
    points: &[Point],
    values: &Values<'_>,
) -> Result<Option<Vec<Triangle>>, AllocError>
    requires { All IsGridPoint points.now }
    ensures triangles { IfOk result
        (λ made. MatchOption made (Any (IsLoose (option_copied numbers.entry) points.now)
        (led_to exchange.now values.now))
        (λ triangles. Joined (IsCut (option_copied numbers.entry) points.now)
        (led_to exchange.now values.now) triangles.items)) }
    ensures count { IfOk result (λ made. IfSome made
        (λ triangles. length triangles.items ≡ sum_by face_count (led_to exchange.now values.now))) }
{
    let mut made = Vec::new(alloc);
    for value in values.iter() {
        let Some(mut more) = face_triangles(alloc, exchange, numbers, points, &value)? else {
            return Ok(None);
        };
        made.append(&mut more)?;
    }
    Ok(Some(made))
}

/// The triangles of a face set in its own coordinates, in the order of its rows or faces, each face cut once (IFC4 ADD2 TC1,
/// IfcTriangulatedFaceSet, IfcPolygonalFaceSet). The points are those of its list. None exactly where it has no triangles: a row isn't
/// three indexes of points; or a face has too few corners or too many, has an index that names no point, or can't be cut. A number of
/// its PnIndex that no index counts doesn't matter. None of a sound set comes where a face can't be cut.
pub fn set_triangles(
    alloc: Global,
    exchange: &Exchange,
    points: &[Point],
    set: &InstanceRef<'_>,
) -> Result<Option<Vec<Triangle>>, AllocError>
    requires { All IsGridPoint points.now }
    ensures triangles { IfOk result
        (λ made. MatchOption made (IsSound exchange.now points.now set.now
        → (id : ℕ) × HasStuck exchange.now points.now set.now id)
        (λ triangles. SetTriangles exchange.now points.now set.now triangles.items)) }
    ensures none { IfOk result (λ made. IfNone made
        ((triangles : List Triangle) → SetTriangles exchange.now points.now set.now triangles → ⊥)) }
    ensures count { IfOk result (λ made. IfSome made
        (λ triangles. length triangles.items ≡ triangle_count exchange.now set.now)) }
{
    let found = placed_numbering(alloc, set)?;
    let numbers = found.as_deref();
    if is_polygonal(set) {
        faces_triangles(alloc, exchange, numbers, points, &set.listed(2))
    } else {
        triangles(alloc, numbers, &set.listed(3), points)
    }
}
