//! The cell that owns two boxes.
ghost use Rattle.std.specs.Prelude.{◌≡◌, ◌&&◌, true, IfSome, IfNone};
ghost use Rattle.std.specs.Int.{int_max};
ghost use Rattle.bucket_grid.specs.inner.Axes.{low_on, high_on};
ghost use Rattle.bucket_grid.specs.Cells.{holds, is_in, owner_of, IsOwner};
ghost use Rattle.bucket_grid.specs.ElementPlaces.{IsGridBox};
ghost use Rattle.bucket_grid.specs.declared.cell.Cell.{Cell};

use crate::axis_cells::{Axis, first_on, last_on};
use crate::cell::Cell;
use bim_model::Extent;

// The later of two cells of an axis.
fn later(a: i32, b: i32) -> i32
    ensures { result ≡ int_max a b }
{
    if b < a { a } else { b }
}

/// On each axis the later of the first cells of two boxes: the least cell that holds both, if one does. It is a
/// quick form of the owner for boxes that are known to share a cell.
pub fn owner_of(a: &Extent, b: &Extent) -> Cell
    requires a_in { IsGridBox a.now }
    requires b_in { IsGridBox b.now }
    ensures x { result.x ≡ (owner_of a.now b.now).x }
    ensures y { result.y ≡ (owner_of a.now b.now).y }
    ensures z { result.z ≡ (owner_of a.now b.now).z }
{
    Cell {
        x: later(first_on(Axis::X, a), first_on(Axis::X, b)),
        y: later(first_on(Axis::Y, a), first_on(Axis::Y, b)),
        z: later(first_on(Axis::Z, a), first_on(Axis::Z, b)),
    }
}

// Whether a cell of the axis holds the box on it.
fn is_on(axis: Axis, extent: &Extent, cell: i32) -> bool
    requires { IsGridBox extent.now }
    ensures { result ≡ is_in (low_on axis extent.now) (high_on axis extent.now) cell }
{
    first_on(axis, extent) <= cell && cell <= last_on(axis, extent)
}

// Whether the cell holds the box.
fn holds(cell: Cell, extent: &Extent) -> bool
    requires { IsGridBox extent.now }
    ensures { result ≡ holds cell extent.now }
{
    is_on(Axis::X, extent, cell.x)
        && is_on(Axis::Y, extent, cell.y)
        && is_on(Axis::Z, extent, cell.z)
}

// Whether the cell holds both boxes.
fn hold_both(cell: Cell, a: &Extent, b: &Extent) -> bool
    requires a_in { IsGridBox a.now }
    requires b_in { IsGridBox b.now }
    ensures { result ≡ (holds cell a.now && holds cell b.now) }
{
    holds(cell, a) && holds(cell, b)
}

/// The least cell that holds both boxes, or none where no cell does.
pub fn shared_cell(a: &Extent, b: &Extent) -> Option<Cell>
    requires a_in { IsGridBox a.now }
    requires b_in { IsGridBox b.now }
    ensures some { IfSome result (λ cell. IsOwner cell a.now b.now) }
    ensures none { IfNone result ((cell : Cell) → holds cell a.now ≡ true → holds cell b.now ≡ true → ⊥) }
{
    let cell = owner_of(a, b);
    if hold_both(cell, a, b) {
        Some(cell)
    } else {
        None
    }
}
