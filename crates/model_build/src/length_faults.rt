//! Lengths that aren't on the grid or are beyond the reach.
ghost use Rattle.std.specs.Prelude.{◌≡◌, ℕ, Contains, MatchOption, option_copied};
ghost use Rattle.std.specs.List.Sorted.{IsStrictlyIncreasing};
ghost use Rattle.bim_model.specs.declared.upload.UploadFault.{UploadFault};
ghost use Rattle.ifc_units.specs.declared.length_error.GridFault.{GridFault};
ghost use Rattle.ifc_units.specs.Lengths.{InstanceRefused};
ghost use Rattle.ifc_elements.specs.PointTables.{Tabled, IsTable};
ghost use Rattle.model_build.specs.StageFaults.{LeastFault};
ghost use Rattle.model_build.specs.LengthFaults.{Refuses, LengthFault, told_of};

use bim_model::{Items, Mode, Point, UploadFault};
use ifc_elements::kept_at;
use ifc_units::{GridFault, Scale, fault_of_points};
use p21_table::{Exchange, InstanceRef};

/// Which fault the lengths of an instance have, whose points are kept where it is a list of points on the grid.
fn fault_of(
    instance: &InstanceRef<'_>,
    kept: Option<&[Point]>,
    scale: Scale,
    mode: Mode,
) -> Option<GridFault>
    requires { Tabled scale mode instance.now (option_copied kept) }
    ensures { MatchOption result ((refused : GridFault) → InstanceRefused scale mode instance.now refused
        → ⊥) (InstanceRefused scale mode instance.now) }
{
    match kept {
        Some(_points) => None,
        None => fault_of_points(instance, scale, mode),
    }
}

/// Which fault the lengths of the instance of that number have.
fn fault_at(
    exchange: &Exchange,
    table: &[Option<Items<Point>>],
    id: u64,
    scale: Scale,
    mode: Mode,
) -> Option<GridFault>
    requires { IsTable exchange.now scale mode table.now }
    ensures { MatchOption result ((refused : GridFault) → Refuses exchange.now scale mode id refused → ⊥)
        (Refuses exchange.now scale mode id) }
{
    let at = exchange.place_of(id)?;
    let instance = exchange.instance(at);
    fault_of(&instance, kept_at(table, at), scale, mode)
}

fn told(id: u64, refused: GridFault) -> UploadFault
    ensures { result ≡ told_of id refused }
{
    match refused {
        GridFault::OffGrid => UploadFault::OffGrid { id },
        GridFault::TooFar => UploadFault::TooFar { id },
    }
}

/// The fault of the first of these instances whose lengths have one.
pub fn first_length_fault(
    exchange: &Exchange,
    table: &[Option<Items<Point>>],
    ids: &[u64],
    scale: Scale,
    mode: Mode,
) -> Option<UploadFault>
    requires table { IsTable exchange.now scale mode table.now }
    requires rises { IsStrictlyIncreasing ids.now }
    ensures { MatchOption result ((id : ℕ) → Contains ids.now id → (fault : UploadFault)
        → LengthFault exchange.now scale mode id fault → ⊥)
        (LeastFault (Contains ids.now) (LengthFault exchange.now scale mode)) }
{
    for id in ids {
        if let Some(refused) = fault_at(exchange, table, *id, scale, mode) {
            return Some(told(*id, refused));
        }
    }
    None
}
