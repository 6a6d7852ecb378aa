//! The rows of the face sets that are used, read once each.
ghost use Rattle.std.specs.Prelude.{◌≡◌, ◌<◌, ℕ, true, Some, length, IfOk, IfSome};
ghost use Rattle.std.specs.Bool.{OnTrue};
ghost use Rattle.bim_model.specs.declared.upload.Mode.{Mode};
ghost use Rattle.ifc_units.specs.declared.scale.Scale.{Scale};
ghost use Rattle.p21_values.specs.Attributes.{reference_at};
ghost use Rattle.p21_values.specs.InstancePlaces.{IsPlaceOf};
ghost use Rattle.faceset.specs.FaceSets.{is_set};
ghost use Rattle.model_walk.specs.declared.set_pool.SetRows.{SetRows};
ghost use Rattle.walk_rows.specs.Pools.{Pools};
ghost use Rattle.model_walk.specs.inner.PooledSets.{ArePooled, IsRead};

use bim_model::{Items, Point};
use p21_table::{Exchange, InstanceRef};
use std::alloc::{AllocError, Global};
use walk_rows::{Pool, Row, rows_of_set};

/// A place in a list has 32 bits.
const MOST_POINTS: usize = 1 << 32;

/// The rows of a set, and the place of the list of its points.
#[derive(Drop)]
pub struct SetRows {
    pub list: usize,
    pub rows: Items<Row>,
}

/// Where the list of the points of a set stands.
fn list_of(exchange: &Exchange, set: &InstanceRef<'_>) -> Option<usize>
    ensures { IfSome result (λ at. (id : ℕ) × (reference_at set.now 0 ≡ Some id)
        × IsPlaceOf exchange.now id at) }
{
    let id = set.reference_at(0)?;
    exchange.place_of(id)
}

/// What is kept of a set. None where it shows a fault, or has more than so many rows.
fn read_set(
    alloc: Global,
    exchange: &Exchange,
    points: &Pool<Items<Point>>,
    set: &InstanceRef<'_>,
    most: usize,
) -> Result<Option<SetRows>, AllocError>
    requires set { is_set set.now ≡ true }
    requires points { (scale : Scale) × (mode : Mode) × ArePooled exchange.now scale mode points.now }
    ensures { (scale : Scale) (mode : Mode) → ArePooled exchange.now scale mode points.now
        → IfOk result (λ made. IfSome made (λ kept. IsRead exchange.now scale mode points.now kept set.now)) }
{
    let Some(list) = list_of(exchange, set) else {
        return Ok(None);
    };
    let Some(found) = points.get(list) else {
        return Ok(None);
    };
    if found.len() >= MOST_POINTS {
        return Ok(None);
    }
    let Some(rows) = rows_of_set(alloc, exchange, set, found.as_slice(), most)? else {
        return Ok(None);
    };
    if rows.len() == 0 || rows.len() > most {
        return Ok(None);
    }
    Ok(Some(SetRows {
        list,
        rows: Items::from_vec(rows),
    }))
}

/// Keeps the rows of the set at a place, for which there is so much room. False where it shows a fault, or has more rows.
pub fn keep_set(
    alloc: Global,
    exchange: &Exchange,
    points: &Pool<Items<Point>>,
    set: &InstanceRef<'_>,
    at: usize,
    room: &mut usize,
    pool: &mut Pool<SetRows>,
) -> Result<bool, AllocError>
    requires set { is_set set.now ≡ true }
    requires points { (scale : Scale) × (mode : Mode) × ArePooled exchange.now scale mode points.now }
    requires within { at < length pool.old }
    ensures { (scale : Scale) (mode : Mode) → ArePooled exchange.now scale mode points.now
        → IfOk result (λ done. OnTrue done ((kept : SetRows)
        × IsRead exchange.now scale mode points.now kept set.now
        × Pools pool.old pool.new at kept)) }
{
    let Some(made) = read_set(alloc, exchange, points, set, *room)? else {
        return Ok(false);
    };
    *room = room.saturating_sub(made.rows.len());
    pool.put(at, made)?;
    Ok(true)
}
