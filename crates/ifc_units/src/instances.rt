//! Points and lists of points as instances.
ghost use Rattle.std.specs.Prelude.{MatchOption};
ghost use Rattle.ifc_units.specs.declared.length_error.GridFault.{GridFault};
ghost use Rattle.ifc_units.specs.Lengths.{PointRefused, ListRefused, InstanceRefused};

use crate::length_error::GridFault;
use crate::lengths::{point, points_fault};
use crate::scale::Scale;
use bim_model::Mode;
use ifc_instances::Entity;
use p21_table::{InstanceRef, ValueRef};

// The fault of a value that is to be a point.
fn point_fault(value: &ValueRef<'_>, scale: Scale, mode: Mode) -> Option<GridFault>
    ensures { MatchOption result ((fault : GridFault) → PointRefused scale mode value.now fault → ⊥)
        (PointRefused scale mode value.now) }
{
    match point(value, scale, mode) {
        Ok(_point) => None,
        Err(error) => error.fault(),
    }
}

// The fault of a value that is to be a list of points.
fn list_fault(value: &ValueRef<'_>, scale: Scale, mode: Mode) -> Option<GridFault>
    ensures { MatchOption result ((fault : GridFault) → ListRefused scale mode value.now fault → ⊥)
        (ListRefused scale mode value.now) }
{
    match value.items() {
        Some(items) => points_fault(&items, scale, mode),
        None => None,
    }
}

/// Which fault the numbers of an instance have that is an `IFCCARTESIANPOINT` or an `IFCCARTESIANPOINTLIST3D`: that of the first which has
/// no grid number in reach. None of other instances, and where the first such value isn't a number.
pub fn fault_of_points(instance: &InstanceRef<'_>, scale: Scale, mode: Mode) -> Option<GridFault>
    ensures { MatchOption result ((fault : GridFault) → InstanceRefused scale mode instance.now fault → ⊥)
        (InstanceRefused scale mode instance.now) }
{
    let Some(value) = instance.attribute(0) else {
        return None;
    };
    if Entity::Point.includes(instance) {
        return point_fault(&value, scale, mode);
    }
    if Entity::PointList.includes(instance) {
        return list_fault(&value, scale, mode);
    }
    None
}
