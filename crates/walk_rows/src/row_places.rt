//! Which points the indexes of a set name, read once each (IFC4 ADD2 TC1, IfcTriangulatedFaceSet, CoordIndex and PnIndex).
ghost use Rattle.std.specs.Prelude.{◌≡◌, ◌<◌, ◌^◌, ◌∷◌, [], List, Option, IfOk, IfSome, IfNone, option_copied};
ghost use Rattle.std.specs.List.{AllZip};
ghost use Rattle.p21_values.specs.declared.value.Value21.{Value21};
ghost use Rattle.p21_table.specs.ShortRows.{SaysShort, SaysRow};
ghost use Rattle.faceset.specs.Indexes.{PointsAt};
ghost use Rattle.faceset.specs.FaceSets.{NamesPoint};
ghost use Rattle.walk_rows.specs.Rows.{AreNumbers, IsRowOf};

use crate::triangle_rows::Row;
use bim_text::{Short, ShortRow};
use faceset::place_of;
use p21_table::{ValueRef, Values};
use std::alloc::{AllocError, Global};

/// Which of so many points, counted from 0, an index names.
fn point_named(value: &ValueRef<'_>, count: usize) -> Option<u32>
    requires { count < 2 ^ 32 }
    ensures { IfSome result (PointsAt count value.now) }
{
    match place_of(value, count) {
        Some(place) => Some(place as u32),
        None => None,
    }
}

/// The same, directly or by the places that the numbers of the points name.
pub fn place_named(value: &ValueRef<'_>, numbers: Option<&[u32]>, count: usize) -> Option<u32>
    requires { count < 2 ^ 32 }
    ensures { (names : Option (List Value21)) → AreNumbers count names (option_copied numbers.entry)
        → IfSome result (NamesPoint names count value.now) }
{
    match numbers {
        Some(places) => match place_of(value, places.len()) {
            Some(at) => Some(places[at]),
            None => None,
        },
        None => point_named(value, count),
    }
}

/// Which of so many points each value names. None where one of them names none.
pub fn places_named(
    alloc: Global,
    values: &Values<'_>,
    count: usize,
) -> Result<Option<Vec<u32>>, AllocError>
    requires { count < 2 ^ 32 }
    ensures { IfOk result (λ found. IfSome found (λ places.
        AllZip (PointsAt count) values.now places.items)) }
{
    let mut made = Vec::new(alloc);
    for value in values.iter() {
        match point_named(&value, count) {
            Some(place) => made.push(place)?,
            None => return Ok(None),
        }
    }
    Ok(Some(made))
}

/// The row of a value that is three indexes.
fn row_of(value: &ValueRef<'_>, numbers: Option<&[u32]>, count: usize) -> Option<Row>
    requires { count < 2 ^ 32 }
    ensures { (names : Option (List Value21)) → AreNumbers count names (option_copied numbers.entry)
        → IfSome result (IsRowOf names count value.now) }
{
    let found = value.items()?.three()?;
    Some(Row {
        a: place_named(&found.x, numbers, count)?,
        b: place_named(&found.y, numbers, count)?,
        c: place_named(&found.z, numbers, count)?,
    })
}

/// Which of so many things, counted from 0, a short number is the index of. None says nothing.
#[inline(always)]
fn short_index(short: Short, count: usize) -> Option<usize>
    ensures within { IfSome result (λ at. at < count) }
    ensures points { IfSome result (λ at. (value : Value21) → SaysShort short value
        → PointsAt count value at) }
{
    if short.negative || short.places != 0 || short.digits == 0 {
        return None;
    }
    if short.digits > count as u64 {
        return None;
    }
    Some(short.digits as usize - 1)
}

/// Which point it names, directly or by the places that the numbers of the points name. None says nothing.
#[inline(always)]
fn short_place(short: Short, numbers: Option<&[u32]>, count: usize) -> Option<u32>
    requires { count < 2 ^ 32 }
    ensures { (names : Option (List Value21)) → AreNumbers count names (option_copied numbers.entry)
        → IfSome result (λ place. (value : Value21) → SaysShort short value
        → NamesPoint names count value place) }
{
    match numbers {
        Some(places) => match short_index(short, places.len()) {
            Some(at) => Some(places[at]),
            None => None,
        },
        None => match short_index(short, count) {
            Some(at) => Some(at as u32),
            None => None,
        },
    }
}

/// The row of three short indexes. None says nothing.
fn short_row_of(row: ShortRow, numbers: Option<&[u32]>, count: usize) -> Option<Row>
    requires { count < 2 ^ 32 }
    ensures { (names : Option (List Value21)) → AreNumbers count names (option_copied numbers.entry)
        → IfSome result (λ made. (value : Value21) → SaysRow row value → IsRowOf names count value made) }
{
    Some(Row {
        a: short_place(row.x, numbers, count)?,
        b: short_place(row.y, numbers, count)?,
        c: short_place(row.z, numbers, count)?,
    })
}

/// The row of the next value: none where it has none, or has an index that is spelled unusually. None where no value is left.
fn next_row(left: &mut Values<'_>, numbers: Option<&[u32]>, count: usize) -> Option<Option<Row>>
    requires { count < 2 ^ 32 }
    ensures end { IfNone result (left.old ≡ []) }
    ensures row { IfSome result (λ found. IfSome found (λ row. (value : Value21)
        × (left.old ≡ value ∷ left.new)
        × ((names : Option (List Value21)) → AreNumbers count names (option_copied numbers.entry)
        → IsRowOf names count value row))) }
{
    if let Some(short) = left.next_row() {
        return Some(short_row_of(short, numbers, count));
    }
    match left.next() {
        Some(value) => Some(row_of(&value, numbers, count)),
        None => None,
    }
}

/// The rows of values, in their order. None where one isn't three indexes of points, or has one that is spelled unusually.
pub fn rows_of(
    alloc: Global,
    values: &Values<'_>,
    numbers: Option<&[u32]>,
    count: usize,
) -> Result<Option<Vec<Row>>, AllocError>
    requires { count < 2 ^ 32 }
    ensures { (names : Option (List Value21)) → AreNumbers count names (option_copied numbers.entry)
        → IfOk result (λ found. IfSome found (λ rows. AllZip (IsRowOf names count) values.now rows.items)) }
{
    let mut made = Vec::new(alloc);
    let mut left = values.iter();
    while let Some(found) = next_row(&mut left, numbers, count) {
        match found {
            Some(row) => made.push(row)?,
            None => return Ok(None),
        }
    }
    Ok(Some(made))
}
