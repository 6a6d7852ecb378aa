//! Faces that can't be cut.
ghost use Rattle.std.specs.Prelude.{◌≡◌, ℕ, Any, IfOk};
ghost use Rattle.std.specs.Bool.{MatchBool};
ghost use Rattle.ifc_elements.specs.PointTables.{IsTable};
ghost use Rattle.ifc_instances.specs.inner.Least.{LeastOf};
ghost use Rattle.model_build.specs.FaultyInstances.{ShownBy};
ghost use Rattle.model_build.specs.inner.Outcomes.{ShowsStuckSet, ShowsApartSet};

use crate::unsupported::lesser;
use bim_model::{Items, Mode, Point};
use faceset::{has_unbridged, is_set, least_stuck};
use ifc_elements::points_at;
use ifc_units::Scale;
use p21_table::Exchange;
use std::alloc::{AllocError, Global};

/// The least number of a face that can't be cut, of the set of that number. None where it is no set or refers to no points on the grid.
fn stuck_in(
    alloc: Global,
    exchange: &Exchange,
    table: &[Option<Items<Point>>],
    id: u64,
    scale: Scale,
    mode: Mode,
) -> Result<Option<u64>, AllocError>
    requires { IsTable exchange.now scale mode table.now }
    ensures { IfOk result (LeastOf (ShowsStuckSet exchange.now scale mode id)) }
{
    let Some(set) = exchange.look(id) else {
        return Ok(None);
    };
    if !is_set(&set) {
        return Ok(None);
    }
    let Some(list) = set.reference_at(0) else {
        return Ok(None);
    };
    let Some(points) = points_at(exchange, table, list) else {
        return Ok(None);
    };
    least_stuck(alloc, exchange, points, &set)
}

/// The least number of a face that can't be cut, of the sets among the instances of these numbers.
pub fn first_stuck(
    alloc: Global,
    exchange: &Exchange,
    table: &[Option<Items<Point>>],
    ids: &[u64],
    scale: Scale,
    mode: Mode,
) -> Result<Option<u64>, AllocError>
    requires { IsTable exchange.now scale mode table.now }
    ensures { IfOk result (LeastOf (ShownBy (ShowsStuckSet exchange.now scale mode) ids.now)) }
{
    let mut least = None;
    for id in ids {
        let here = stuck_in(alloc, exchange, table, *id, scale, mode)?;
        least = lesser(least, here);
    }
    Ok(least)
}

/// Whether the set of that number has that face, and its loops can't be joined.
fn is_unbridged_in(
    alloc: Global,
    exchange: &Exchange,
    table: &[Option<Items<Point>>],
    id: u64,
    face: u64,
    scale: Scale,
    mode: Mode,
) -> Result<bool, AllocError>
    requires { IsTable exchange.now scale mode table.now }
    ensures { IfOk result (λ apart. MatchBool apart (ShowsApartSet exchange.now scale mode id face)
        (ShowsApartSet exchange.now scale mode id face → ⊥)) }
{
    let Some(set) = exchange.look(id) else {
        return Ok(false);
    };
    if !is_set(&set) {
        return Ok(false);
    }
    let Some(list) = set.reference_at(0) else {
        return Ok(false);
    };
    let Some(points) = points_at(exchange, table, list) else {
        return Ok(false);
    };
    has_unbridged(alloc, exchange, points, &set, face)
}

/// Whether one of the sets among the instances of these numbers has that face, and its loops can't be joined.
pub fn some_unbridged(
    alloc: Global,
    exchange: &Exchange,
    table: &[Option<Items<Point>>],
    ids: &[u64],
    face: u64,
    scale: Scale,
    mode: Mode,
) -> Result<bool, AllocError>
    requires { IsTable exchange.now scale mode table.now }
    ensures { IfOk result (λ apart. MatchBool apart
        (Any (λ id. ShowsApartSet exchange.now scale mode id face) ids.now)
        (Any (λ id. ShowsApartSet exchange.now scale mode id face) ids.now → ⊥)) }
{
    for id in ids {
        let apart = is_unbridged_in(alloc, exchange, table, *id, face, scale, mode)?;
        if apart {
            return Ok(true);
        }
    }
    Ok(false)
}
