//! The points of the lists of points that are used, read once each.
ghost use Rattle.std.specs.Prelude.{◌≡◌, ◌<◌, ℕ, List, length, IfOk, IfSome};
ghost use Rattle.std.specs.Bool.{MatchBool, OnTrue};
ghost use Rattle.bim_model.specs.declared.geometry.Point.{Point};
ghost use Rattle.ifc_instances.specs.declared.entity.Entity.TheVariants.{PointList};
ghost use Rattle.ifc_instances.specs.EntityLookup.{is_a};
ghost use Rattle.ifc_schema.specs.InstanceMarks.{Known, rank_at};
ghost use Rattle.ifc_units.specs.Lengths.{ArePoints};
ghost use Rattle.p21_values.specs.Attributes.{listed};
ghost use Rattle.walk_rows.specs.Pools.{Pools};
ghost use Rattle.model_walk.specs.inner.PooledSets.{HasPoints, ArePooled, HasLists};

use bim_model::{Items, Mode, Point};
use ifc_instances::Entity;
use ifc_schema::Work;
use ifc_units::{Scale, points};
use p21_table::{Exchange, InstanceRef};
use std::alloc::{AllocError, Global};
use walk_rows::Pool;

/// The points of a list of points (IFC4 ADD2 TC1, IfcCartesianPointList3D). None where it has none, or a number that isn't on the grid.
fn points_of(
    alloc: Global,
    list: &InstanceRef<'_>,
    scale: Scale,
    mode: Mode,
) -> Result<Option<Vec<Point>>, AllocError>
    ensures { IfOk result (λ found. IfSome found (λ points.
        ArePoints scale mode (listed list.now 0) points.items
        × (0 < length points.items))) }
{
    match points(alloc, &list.listed(0), scale, mode)? {
        Ok(found) => {
            if found.as_slice().len() == 0 {
                return Ok(None);
            }
            Ok(Some(found))
        }
        Err(_error) => Ok(None),
    }
}

/// Keeps the points of the instance at a place, where it is a list of points. False where they aren't on the grid.
fn keep_points(
    alloc: Global,
    list: &InstanceRef<'_>,
    at: usize,
    scale: Scale,
    mode: Mode,
    pool: &mut Pool<Items<Point>>,
) -> Result<bool, AllocError>
    requires { at < length pool.old }
    ensures { IfOk result (λ kept. OnTrue kept (MatchBool (is_a PointList list.now)
        ((points : List Point) × HasPoints scale mode points list.now × Pools pool.old pool.new at points)
        (pool.new ≡ pool.old))) }
{
    if !Entity::PointList.includes(list) {
        return Ok(true);
    }
    let Some(found) = points_of(alloc, list, scale, mode)? else {
        return Ok(false);
    };
    pool.put(at, Items::from_vec(found))?;
    Ok(true)
}

/// The points of the lists of points that are used, by their places. None where one of them has none, or a number that isn't on the grid.
pub fn points_in(
    alloc: Global,
    exchange: &Exchange,
    work: &Work,
    scale: Scale,
    mode: Mode,
) -> Result<Option<Pool<Items<Point>>>, AllocError>
    requires { Known exchange.now work.now }
    ensures sound { IfOk result (λ found. IfSome found (ArePooled exchange.now scale mode)) }
    ensures all { IfOk result (λ found. IfSome found
        (HasLists exchange.now (λ at. 0 < rank_at work.now at))) }
{
    let places = exchange.len();
    let mut pool = Pool::new(alloc, places)?;
    for at in 0..places {
        if work.marks[at].is_seen() {
            let kept = keep_points(alloc, &exchange.instance(at), at, scale, mode, &mut pool)?;
            if !kept {
                return Ok(None);
            }
        }
    }
    Ok(Some(pool))
}
