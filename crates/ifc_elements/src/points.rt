//! The points of a file, read once into a table.
ghost use Rattle.std.specs.Prelude.{◌≡◌, List, IfOk, MatchOption, option_copied};
ghost use Rattle.bim_model.specs.declared.geometry.Point.{Point};
ghost use Rattle.bim_model.specs.declared.upload.Mode.{Mode};
ghost use Rattle.ifc_units.specs.declared.scale.Scale.{Scale};
ghost use Rattle.ifc_elements.specs.PointTables.{kept_at, Tabled, IsTable, ListsPoints};

use bim_model::{Items, Mode, Point};
use ifc_instances::Entity;
use ifc_units::{Scale, points};
use p21_table::{Exchange, InstanceRef, Instances};
use std::alloc::{AllocError, Global};

/// The points of an instance that is a list of points on the grid.
fn points_of(
    alloc: Global,
    instance: &InstanceRef<'_>,
    scale: Scale,
    mode: Mode,
) -> Result<Option<Items<Point>>, AllocError>
    ensures { IfOk result (Tabled scale mode instance.now) }
{
    if !Entity::PointList.includes(instance) {
        return Ok(None);
    }
    match points(alloc, &instance.listed(0), scale, mode)? {
        Ok(points) => Ok(Some(Items::from_vec(points))),
        Err(_error) => Ok(None),
    }
}

/// The points of each instance that is a list of points on the grid, place by place.
pub fn table_of(
    alloc: Global,
    instances: &Instances<'_>,
    scale: Scale,
    mode: Mode,
) -> Result<Vec<Option<Items<Point>>>, AllocError>
    ensures { IfOk result (λ table. IsTable instances.now scale mode table.items) }
{
    let mut table = Vec::with_capacity(alloc, instances.len())?;
    for instance in instances.iter() {
        let points = points_of(alloc, &instance, scale, mode)?;
        table.push(points)?;
    }
    Ok(table)
}

/// The points at a place of the table, counted from 0.
pub fn kept_at(table: &[Option<Items<Point>>], at: usize) -> Option<&[Point]>
    ensures { option_copied result ≡ kept_at table.now at }
{
    match table.get(at) {
        Some(Some(points)) => Some(points.as_slice()),
        _ => None,
    }
}

/// The points of the list of that number.
pub fn points_at<'a>(
    exchange: &Exchange,
    table: &'a [Option<Items<Point>>],
    id: u64,
) -> Option<&'a [Point]>
    ensures { (scale : Scale) (mode : Mode) → IsTable exchange.now scale mode table.now
        → MatchOption (option_copied result)
        ((points : List Point) → ListsPoints exchange.now scale mode id points → ⊥)
        (ListsPoints exchange.now scale mode id) }
{
    let at = exchange.place_of(id)?;
    kept_at(table, at)
}
