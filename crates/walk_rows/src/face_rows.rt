//! The triangles of faces, as rows (IFC4 ADD2 TC1, IfcPolygonalFaceSet, IfcIndexedPolygonalFace,
//! IfcIndexedPolygonalFaceWithVoids).
ghost use Rattle.std.specs.Prelude.{◌≡◌, ◌<◌, ◌≤◌, ◌+◌, ◌^◌, ◌++◌, ◌∷◌, [], List, Option, Some, All, length, map, drop, IfOk, IfSome, OnOk, option_copied};
ghost use Rattle.std.specs.Bool.{OnTrue};
ghost use Rattle.std.specs.List.{AllZip, flat_map};
ghost use Rattle.bim_model.specs.Points.{IsGridPoint};
ghost use Rattle.p21_values.specs.declared.value.Value21.{Value21};
ghost use Rattle.p21_values.specs.Attributes.{items_in, led_to};
ghost use Rattle.p21_values.specs.Values.{reference_of};
ghost use Rattle.ear_cut.specs.Areas.{point_at};
ghost use Rattle.faceset.specs.FacePolygons.{ears_of};
ghost use Rattle.faceset.specs.FaceSets.{NamesPoint, IsCut, Joined, most_corners};
ghost use Rattle.walk_rows.specs.Rows.{AreNumbers, AddsRows, place_at, row_at, triangles_at};
ghost use Rattle.walk_rows.specs.SetRows.{LeadsToFace};
ghost use Rattle.walk_rows.specs.declared.face_rows.LastFace.{LastFace};
ghost use Rattle.walk_rows.specs.inner.LoopRows.{AreRings, NamesLoops, HasRings, inner_of};

use crate::row_places::place_named;
use crate::triangle_rows::Row;
use bim_model::Point;
use ear_cut::Ear;
use faceset::{LoopsCut, MOST_CORNERS, cut_loops, is_face, outline, points_at, spelled_loops};
use p21_table::{Exchange, InstanceRef, ValueRef, Values};
use std::alloc::{AllocError, Global};

/// Which points the corners of a face are. None where an index names none, or they are too many.
fn corner_places(
    alloc: Global,
    indexes: &Values<'_>,
    numbers: Option<&[u32]>,
    count: usize,
) -> Result<Option<Vec<u32>>, AllocError>
    requires { count < 2 ^ 32 }
    ensures places { (names : Option (List Value21)) → AreNumbers count names (option_copied numbers.entry)
        → IfOk result (λ found. IfSome found (λ places.
        AllZip (NamesPoint names count) indexes.now places.items)) }
    ensures few { IfOk result (λ found. IfSome found (λ places. length places.items ≤ most_corners)) }
{
    let mut made = Vec::new(alloc);
    for value in indexes.iter() {
        if made.as_slice().len() == MOST_CORNERS {
            return Ok(None);
        }
        match place_named(&value, numbers, count) {
            Some(place) => made.push(place)?,
            None => return Ok(None),
        }
    }
    Ok(Some(made))
}

/// Which points the corners of a loop are. None where they are fewer than three or too many, or an index names none.
fn loop_places(
    alloc: Global,
    indexes: &Values<'_>,
    numbers: Option<&[u32]>,
    count: usize,
) -> Result<Option<Vec<u32>>, AllocError>
    requires { count < 2 ^ 32 }
    ensures places { (names : Option (List Value21)) → AreNumbers count names (option_copied numbers.entry)
        → IfOk result (λ found. IfSome found (λ places.
        AllZip (NamesPoint names count) indexes.now places.items)) }
    ensures few { IfOk result (λ found. IfSome found (λ places. length places.items ≤ most_corners)) }
    ensures three { IfOk result (λ found. IfSome found (λ places. 2 < length places.items)) }
{
    let Some(places) = corner_places(alloc, indexes, numbers, count)? else {
        return Ok(None);
    };
    if places.len() < 3 {
        return Ok(None);
    }
    Ok(Some(places))
}

/// Which points the corners of inner loops are. None where a loop's are none, or there are too many with those before.
fn inner_places(
    alloc: Global,
    rows: &Values<'_>,
    numbers: Option<&[u32]>,
    count: usize,
    before: usize,
) -> Result<Option<Vec<Vec<u32>>>, AllocError>
    requires count { count < 2 ^ 32 }
    requires before { before ≤ most_corners }
    ensures places { (names : Option (List Value21)) → AreNumbers count names (option_copied numbers.entry)
        → IfOk result (λ found. IfSome found (λ made.
        AllZip (AllZip (NamesPoint names count)) (map items_in rows.now)
        (map (λ ring. ring.items) made.items))) }
    ensures many { IfOk result (λ found. IfSome found (λ made.
        AreRings before (map (λ ring. ring.items) made.items))) }
{
    let mut made = Vec::new(alloc);
    let mut total = before;
    for row in rows.iter() {
        let Some(places) = loop_places(alloc, &row.items_in(), numbers, count)? else {
            return Ok(None);
        };
        total += places.len();
        if total > MOST_CORNERS {
            return Ok(None);
        }
        made.push(places)?;
    }
    Ok(Some(made))
}

/// Which points the corners of the loops of a face are.
#[derive(Drop)]
pub struct LoopPlaces {
    pub outer: Vec<u32>,
    pub inner: Vec<Vec<u32>>,
}

/// Which points the corners of a face are. None where a loop has too few or all together too many, or an index names none.
fn face_places(
    alloc: Global,
    face: &InstanceRef<'_>,
    numbers: Option<&[u32]>,
    count: usize,
) -> Result<Option<LoopPlaces>, AllocError>
    requires { count < 2 ^ 32 }
    ensures places { (names : Option (List Value21)) → AreNumbers count names (option_copied numbers.entry)
        → IfOk result (λ found. IfSome found (NamesLoops names count face.now)) }
    ensures many { IfOk result (λ found. IfSome found HasRings) }
{
    let Some(outer) = loop_places(alloc, &outline(face), numbers, count)? else {
        return Ok(None);
    };
    let rows = spelled_loops(face);
    match inner_places(alloc, &rows, numbers, count, outer.len())? {
        Some(inner) => Ok(Some(LoopPlaces { outer, inner })),
        None => Ok(None),
    }
}

/// Adds the places of the inner loops of a face, one loop after another, to those of its outline.
fn add_places(all: &mut Vec<u32>, inner: &[Vec<u32>]) -> Result<(), AllocError>
    ensures { OnOk result (all.new.items ≡ all.old.items
        ++ flat_map (λ ring. ring) (map (λ ring. ring.items) inner.now)) }
{
    for ring in inner {
        all.extend_from_slice(ring)?;
    }
    Ok(())
}

/// Which points the corners of a face are, one loop after another.
fn all_places(places: LoopPlaces) -> Result<Vec<u32>, AllocError>
    ensures { IfOk result (λ all. all.items
        ≡ places.outer.items ++ flat_map (λ ring. ring) (map (λ ring. ring.items) places.inner.items)) }
{
    let LoopPlaces { outer, inner } = places;
    let mut all = outer;
    add_places(&mut all, &inner)?;
    Ok(all)
}

/// The points of loops.
fn rings_at(
    alloc: Global,
    points: &[Point],
    rings: &[Vec<u32>],
) -> Result<Vec<Vec<Point>>, AllocError>
    ensures { IfOk result (λ made. map (λ ring. ring.items) made.items
        ≡ map (map (point_at points.now)) (map (λ ring. ring.items) rings.now)) }
{
    let mut made = Vec::new(alloc);
    for ring in rings {
        made.push(points_at(alloc, points, ring)?)?;
    }
    Ok(made)
}

/// The place that stands there; beyond all points where none does.
fn place_at(places: &[u32], at: u32) -> u32
    ensures { result ≡ place_at places.now at }
{
    match places.get(at as usize) {
        Some(place) => *place,
        None => u32::MAX,
    }
}

/// The row of an ear.
fn row_at(places: &[u32], ear: Ear) -> Row
    ensures { result ≡ row_at places.now ear }
{
    Row {
        a: place_at(places, ear.a),
        b: place_at(places, ear.b),
        c: place_at(places, ear.c),
    }
}

/// Adds the rows of ears.
fn add_ears(places: &[u32], ears: &[Ear], rows: &mut Vec<Row>) -> Result<(), AllocError>
    ensures { OnOk result (rows.new.items ≡ rows.old.items ++ map (row_at places.now) ears.now) }
{
    for ear in ears {
        rows.push(row_at(places, *ear))?;
    }
    Ok(())
}

/// The triangles of a face, by places among all its corners. None where it can't be cut.
fn face_ears(
    alloc: Global,
    points: &[Point],
    places: &LoopPlaces,
) -> Result<Option<Vec<Ear>>, AllocError>
    requires in_grid { All IsGridPoint points.now }
    requires rings { HasRings places.now }
    ensures { IfOk result (λ found. IfSome found (λ ears. ears_of
        (map (point_at points.now) places.now.outer.items)
        (map (map (point_at points.now)) (inner_of places.now)) ≡ Some ears.items)) }
{
    let outer = points_at(alloc, points, &places.outer)?;
    let inner = rings_at(alloc, points, &places.inner)?;
    match cut_loops(alloc, &outer, &inner)? {
        LoopsCut::Cut(ears) => Ok(Some(ears)),
        LoopsCut::Stuck => Ok(None),
        LoopsCut::Apart => Ok(None),
    }
}

/// Adds the rows of a face. False where it has too few corners or too many, an index that names no point, or can't
/// be cut.
fn add_face(
    alloc: Global,
    face: &InstanceRef<'_>,
    numbers: Option<&[u32]>,
    points: &[Point],
    rows: &mut Vec<Row>,
) -> Result<bool, AllocError>
    requires few { length points.now < 2 ^ 32 }
    requires in_grid { All IsGridPoint points.now }
    ensures { (names : Option (List Value21))
        → AreNumbers (length points.now) names (option_copied numbers.entry)
        → IfOk result (λ added. OnTrue added
        (AddsRows points.now (IsCut names points.now face.now) rows.old.items rows.new.items)) }
{
    let Some(places) = face_places(alloc, face, numbers, points.len())? else {
        return Ok(false);
    };
    let Some(ears) = face_ears(alloc, points, &places)? else {
        return Ok(false);
    };
    let all = all_places(places)?;
    add_ears(&all, &ears, rows)?;
    Ok(true)
}

/// Adds the rows of the face that a value refers to.
fn add_face_of(
    alloc: Global,
    exchange: &Exchange,
    value: &ValueRef<'_>,
    numbers: Option<&[u32]>,
    points: &[Point],
    rows: &mut Vec<Row>,
) -> Result<bool, AllocError>
    requires few { length points.now < 2 ^ 32 }
    requires in_grid { All IsGridPoint points.now }
    ensures rows { (names : Option (List Value21))
        → AreNumbers (length points.now) names (option_copied numbers.entry)
        → IfOk result (λ added. OnTrue added (AddsRows points.now
        (Joined (IsCut names points.now) (led_to exchange.now (value.now ∷ [])))
        rows.old.items rows.new.items)) }
    ensures leads { IfOk result (λ added. OnTrue added (LeadsToFace exchange.now value.now)) }
{
    match exchange.target(value) {
        Some(face) => {
            if !is_face(&face) {
                return Ok(false);
            }
            add_face(alloc, &face, numbers, points, rows)
        }
        None => Ok(false),
    }
}

/// The face that was read last: its number, and where its rows begin.
#[derive(Clone, Copy)]
pub struct LastFace {
    pub id: u64,
    pub first: usize,
}

/// The face that a value refers to, whose rows begin there.
fn last_of(value: &ValueRef<'_>, first: usize) -> Option<LastFace>
    ensures { IfSome result (λ last. (reference_of value.now ≡ Some last.id) × (last.first ≡ first)) }
{
    match value.reference() {
        Some(id) => Some(LastFace { id, first }),
        None => None,
    }
}

/// Where among so many rows those of the face begin that a value refers to, if it was read last.
fn first_again(value: &ValueRef<'_>, last: Option<LastFace>, count: usize) -> Option<usize>
    ensures of { IfSome result (λ first. (face : LastFace) × (last ≡ Some face)
        × (reference_of value.now ≡ Some face.id) × (face.first ≡ first)) }
    ensures within { IfSome result (λ first. first ≤ count) }
{
    match (value.reference(), last) {
        (Some(id), Some(face)) if id == face.id && face.first <= count => Some(face.first),
        _ => None,
    }
}

/// Adds the rows from an index on once more.
fn add_again(alloc: Global, first: usize, rows: &mut Vec<Row>) -> Result<(), AllocError>
    requires { first ≤ length rows.old.items }
    ensures { OnOk result (rows.new.items ≡ rows.old.items ++ drop first rows.old.items) }
{
    let mut again = Vec::new(alloc);
    again.extend_from_slice(&rows[first..])?;
    rows.extend_from_slice(&again)?;
    Ok(())
}

/// Adds the rows of the face that a value refers to. If it was read last, its rows are taken again.
fn add_listed(
    alloc: Global,
    exchange: &Exchange,
    value: &ValueRef<'_>,
    numbers: Option<&[u32]>,
    points: &[Point],
    last: Option<LastFace>,
    rows: &mut Vec<Row>,
) -> Result<bool, AllocError>
    requires few { length points.now < 2 ^ 32 }
    requires in_grid { All IsGridPoint points.now }
    requires rows { IfSome last (λ face. (v : Value21) → reference_of v ≡ Some face.id
        → (names : Option (List Value21)) → AreNumbers (length points.now) names (option_copied numbers)
        → Joined (IsCut names points.now) (led_to exchange.now (v ∷ []))
        (triangles_at points.now (drop face.first rows.old.items))) }
    requires leads { IfSome last (λ face. (v : Value21) → reference_of v ≡ Some face.id
        → LeadsToFace exchange.now v) }
    ensures rows { (names : Option (List Value21))
        → AreNumbers (length points.now) names (option_copied numbers.entry)
        → IfOk result (λ added. OnTrue added (AddsRows points.now
        (Joined (IsCut names points.now) (led_to exchange.now (value.now ∷ [])))
        rows.old.items rows.new.items)) }
    ensures leads { IfOk result (λ added. OnTrue added (LeadsToFace exchange.now value.now)) }
{
    match first_again(value, last, rows.len()) {
        Some(first) => {
            add_again(alloc, first, rows)?;
            Ok(true)
        }
        None => add_face_of(alloc, exchange, value, numbers, points, rows),
    }
}

/// The rows of the faces that values refer to, one face after another, at most so many. None where one isn't cut.
/// A face that comes several times in a row is cut once.
pub fn rows_of_faces(
    alloc: Global,
    exchange: &Exchange,
    values: &Values<'_>,
    numbers: Option<&[u32]>,
    points: &[Point],
    most: usize,
) -> Result<Option<Vec<Row>>, AllocError>
    requires few { length points.now < 2 ^ 32 }
    requires in_grid { All IsGridPoint points.now }
    ensures rows { (names : Option (List Value21))
        → AreNumbers (length points.now) names (option_copied numbers.entry)
        → IfOk result (λ found. IfSome found (λ rows. Joined (IsCut names points.now)
        (led_to exchange.now values.now) (triangles_at points.now rows.items))) }
    ensures leads { IfOk result (λ found. IfSome found (λ rows. All (LeadsToFace exchange.now) values.now)) }
{
    let mut rows = Vec::new(alloc);
    let mut last = None;
    for value in values.iter() {
        let first = rows.len();
        let added = add_listed(alloc, exchange, &value, numbers, points, last, &mut rows)?;
        if !added || rows.len() > most {
            return Ok(None);
        }
        last = last_of(&value, first);
    }
    Ok(Some(rows))
}
