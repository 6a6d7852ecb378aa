//! The triangles of sets, made once for each set.
ghost use Rattle.std.specs.Prelude.{◌≡◌, ℕ, ◌++◌, ◌∷◌, [], List, All, IfOk, OnOk, OnErr, IfSome, None, MatchOption, option_copied};
ghost use Rattle.std.specs.Bool.{MatchBool};
ghost use Rattle.bim_model.specs.Boxes.{corners_of};
ghost use Rattle.bim_model.specs.Models.{IsInReach};
ghost use Rattle.ifc_elements.specs.PointTables.{IsTable};
ghost use Rattle.ifc_elements.specs.Sound.{AreSets, IsKept, IsUncut, IsUncutAt, IsUncutSet, Puts, set_in};

use crate::points::points_at;
use bim_model::{Items, Mode, Point, Triangle};
use faceset::{is_set, set_triangles};
use ifc_units::Scale;
use p21_table::{Exchange, InstanceRef};
use std::alloc::{AllocError, Global};
use std::collections::BTreeMap;
use std::marker::Model;

/// The triangles of sets in their own coordinates. Contracts see them as the list of the sets' numbers and triangles; all corners are in
/// reach.
#[derive(Drop)]
pub struct Sets {
    sets: BTreeMap<u64, Items<Triangle>>,
}

impl Model for Sets {
    ghost use Rattle.std.specs.Prelude.{ℕ, List};
    ghost use Rattle.bim_model.specs.declared.geometry.Triangle.{Triangle};
    ghost use Rattle.ifc_elements.specs.Sound.{AllNear};

    ghost Value = { List (ℕ × List Triangle) };

    ghost view = { λ s. s.sets.entries };

    ghost invariant = { λ s. AllNear s.sets.entries };
}

/// The triangles of a set. None where it refers to no list of points on the grid, an index names none of them, or a face can't be cut.
fn triangles_of(
    alloc: Global,
    exchange: &Exchange,
    table: &[Option<Items<Point>>],
    set: &InstanceRef<'_>,
    scale: Scale,
    mode: Mode,
) -> Result<Option<Vec<Triangle>>, AllocError>
    requires { IsTable exchange.now scale mode table.now }
    ensures { IfOk result (λ made. MatchOption made (IsUncutSet exchange.now scale mode set.now)
        (λ triangles. IsKept exchange.now scale mode triangles.items set.now)) }
{
    let Some(list) = set.reference_at(0) else {
        return Ok(None);
    };
    let Some(points) = points_at(exchange, table, list) else {
        return Ok(None);
    };
    set_triangles(alloc, exchange, points, set)
}

fn put(
    sets: &mut BTreeMap<u64, Items<Triangle>>,
    id: u64,
    triangles: Items<Triangle>,
) -> Result<(), AllocError>
    ensures ok { OnOk result (Puts (set_in sets.old.entries) (set_in sets.new.entries) id triangles) }
    ensures err { OnErr result ((other : ℕ) → set_in sets.new.entries other ≡ set_in sets.old.entries other) }
{
    sets.insert(id, triangles)?;
    Ok(())
}

impl Sets {
    /// The triangles of the listed sets, each face cut once. None where one of them isn't cut.
    pub fn of(
        alloc: Global,
        exchange: &Exchange,
        listed: &[u64],
        table: &[Option<Items<Point>>],
        scale: Scale,
        mode: Mode,
    ) -> Result<Option<Sets>, AllocError>
        requires { IsTable exchange.now scale mode table.now }
        ensures { IfOk result (λ sets. MatchOption sets (IsUncut exchange.now scale mode listed.now)
            (AreSets exchange.now scale mode listed.now)) }
    {
        let mut sets = Sets::new(alloc);
        for id in listed {
            let added = sets.add(alloc, exchange, *id, table, scale, mode)?;
            if !added {
                return Ok(None);
            }
        }
        Ok(Some(sets))
    }

    fn new(alloc: Global) -> Sets
        ensures { (id : ℕ) → set_in result id ≡ None }
    {
        Sets {
            sets: BTreeMap::new(alloc),
        }
    }

    /// Adds the triangles of the instance of that number, where it is a set. False where it isn't cut.
    fn add(
        &mut self,
        alloc: Global,
        exchange: &Exchange,
        id: u64,
        table: &[Option<Items<Point>>],
        scale: Scale,
        mode: Mode,
    ) -> Result<bool, AllocError>
        requires { IsTable exchange.now scale mode table.now }
        ensures { IfOk result (λ done. MatchBool done
            ((listed : List ℕ) → AreSets exchange.now scale mode listed self.old
            → AreSets exchange.now scale mode (listed ++ id ∷ []) self.new)
            (IsUncutAt exchange.now scale mode id)) }
    {
        let Some(set) = exchange.look(id) else {
            return Ok(true);
        };
        if !is_set(&set) {
            return Ok(true);
        }
        let Some(made) = triangles_of(alloc, exchange, table, &set, scale, mode)? else {
            return Ok(false);
        };
        self.put(id, Items::from_vec(made))?;
        Ok(true)
    }

    fn put(&mut self, id: u64, triangles: Items<Triangle>) -> Result<(), AllocError>
        requires { All IsInReach (corners_of triangles) }
        ensures { OnOk result (Puts (set_in self.old) (set_in self.new) id triangles) }
    {
        put(&mut self.sets, id, triangles)
    }

    /// The triangles of the set of that number; none of one that isn't among them.
    pub fn get(&self, id: u64) -> Option<&[Triangle]>
        ensures same { option_copied result ≡ set_in self.now id }
        ensures near { IfSome result (λ triangles. All IsInReach (corners_of triangles.now)) }
    {
        match self.sets.get(&id) {
            Some(triangles) => Some(triangles.as_slice()),
            None => None,
        }
    }
}
