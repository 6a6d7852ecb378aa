//! The rows of a face set, each read once (IFC4 ADD2 TC1, IfcTriangulatedFaceSet, IfcPolygonalFaceSet).
ghost use Rattle.std.specs.Prelude.{◌≡◌, ◌<◌, ◌^◌, All, length, IfOk, IfSome, option_copied};
ghost use Rattle.std.specs.Bool.{OnTrue};
ghost use Rattle.bim_model.specs.Points.{IsGridPoint};
ghost use Rattle.faceset.specs.FaceSets.{numbering, SetTriangles};
ghost use Rattle.walk_rows.specs.Rows.{AreNumbers, triangles_at};
ghost use Rattle.walk_rows.specs.SetRows.{HasNumbering, NamesFaces, NamesPoints};

use crate::face_rows::rows_of_faces;
use crate::row_places::{places_named, rows_of};
use crate::triangle_rows::Row;
use bim_model::Point;
use faceset::{is_polygonal, numbering};
use p21_table::{Exchange, InstanceRef, Values};
use std::alloc::{AllocError, Global};

/// Whether the attribute with the numbers of the points (PnIndex) is a list, or left out.
fn has_numbering(set: &InstanceRef<'_>) -> bool
    ensures { OnTrue result (HasNumbering set.now) }
{
    let at = if is_polygonal(set) { 3 } else { 4 };
    match set.attribute(at) {
        Some(value) => value.is_absent() || value.items().is_some(),
        None => true,
    }
}

/// The rows of a set, by the places that its numbers name where it has them; those of faces are at most so many.
fn rows_by(
    alloc: Global,
    exchange: &Exchange,
    set: &InstanceRef<'_>,
    numbers: Option<&[u32]>,
    points: &[Point],
    most: usize,
) -> Result<Option<Vec<Row>>, AllocError>
    requires few { length points.now < 2 ^ 32 }
    requires in_grid { All IsGridPoint points.now }
    requires numbers { AreNumbers (length points.now) (numbering set.now) (option_copied numbers) }
    ensures triangles { IfOk result (λ found. IfSome found
        (λ rows. SetTriangles exchange.now points.now set.now (triangles_at points.now rows.items))) }
    ensures faces { IfOk result (λ found. IfSome found (λ rows. NamesFaces exchange.now set.now)) }
{
    if is_polygonal(set) {
        rows_of_faces(alloc, exchange, &set.listed(2), numbers, points, most)
    } else {
        rows_of(alloc, &set.listed(3), numbers, points.len())
    }
}

/// The rows of a set whose list has these points. None where its numbers of points aren't a list, an index or such a number names no point,
/// a value in place of a face leads to none, a face can't be cut, or its faces have more than so many triangles.
pub fn rows_of_set(
    alloc: Global,
    exchange: &Exchange,
    set: &InstanceRef<'_>,
    points: &[Point],
    most: usize,
) -> Result<Option<Vec<Row>>, AllocError>
    requires few { length points.now < 2 ^ 32 }
    requires in_grid { All IsGridPoint points.now }
    ensures numbering { IfOk result (λ found. IfSome found (λ rows. HasNumbering set.now)) }
    ensures numbers { IfOk result (λ found. IfSome found
        (λ rows. NamesPoints (length points.now) (numbering set.now))) }
    ensures faces { IfOk result (λ found. IfSome found (λ rows. NamesFaces exchange.now set.now)) }
    ensures triangles { IfOk result (λ found. IfSome found
        (λ rows. SetTriangles exchange.now points.now set.now (triangles_at points.now rows.items))) }
{
    if !has_numbering(set) {
        return Ok(None);
    }
    let Some(values) = numbering(set) else {
        return rows_by(alloc, exchange, set, None, points, most);
    };
    match places_named(alloc, &values, points.len())? {
        Some(places) => rows_by(alloc, exchange, set, Some(&places), points, most),
        None => Ok(None),
    }
}
