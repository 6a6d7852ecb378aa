//! Cells.
ghost use Rattle.std.specs.Prelude.{◌≡◌, ◌+◌, ◌≤◌, ◌&&◌, ◌+ℤ◌, ◌*ℤ◌, unsigned_abs};
ghost use Rattle.std.specs.Int.{saturate_signed, w32};
ghost use Rattle.bim_model.specs.Points.{grid_limit};
ghost use Rattle.bucket_grid.specs.declared.cell.TheConstants.{GROWTH, FARTHEST_CELL};
ghost use Rattle.bucket_grid.specs.Cells.{cell_of, first_cell, last_cell, first_low, start_of};

use bim_model::{PER_MM, Point};

/// A cell of four metres on each side, by its number on each axis.
#[derive(Clone, Copy, Debug, PartialEq, Eq, PartialOrd, Ord)]
pub struct Cell {
    pub x: i32,
    pub y: i32,
    pub z: i32,
}

/// The side of a cell, in grid numbers.
pub const SIDE: i32 = 4_000 * PER_MM;

/// By how much a box is grown on each side, in grid numbers.
pub const GROWTH: i32 = 1_000 * PER_MM;

/// How far from zero the number of a cell that holds a box may lie on an axis.
pub const FARTHEST_CELL: i32 = 201;

/// The most cells of an axis that hold boxes: from the farthest one below zero to the farthest above.
pub const MOST_CELLS: u64 = 403;

// The cell of a coordinate. Zero is moved up, so that no coordinate with its growth is below zero: numbers without a sign are divided in a
// third of the time.
#[inline(always)]
fn cell_of(coordinate: i32) -> i32
    requires { unsigned_abs coordinate ≤ grid_limit + unsigned_abs GROWTH }
    ensures is { result ≡ cell_of coordinate }
    ensures small { unsigned_abs result ≤ unsigned_abs FARTHEST_CELL }
{
    ((coordinate + FARTHEST_CELL * SIDE) as u32 / SIDE as u32) as i32 - FARTHEST_CELL
}

/// The first cell of an axis that holds a low side.
pub fn first_cell(low: i32) -> i32
    requires { unsigned_abs low ≤ grid_limit }
    ensures is { result ≡ first_cell low }
    ensures small { unsigned_abs result ≤ unsigned_abs FARTHEST_CELL }
{
    cell_of(low - GROWTH)
}

/// The last cell of an axis that holds a high side.
pub fn last_cell(high: i32) -> i32
    requires { unsigned_abs high ≤ grid_limit }
    ensures is { result ≡ last_cell high }
    ensures small { unsigned_abs result ≤ unsigned_abs FARTHEST_CELL }
{
    cell_of(high + GROWTH)
}

// The least low side whose first cell is this one, as far as 32 bits go.
fn first_low(cell: i32) -> i32
    ensures { result ≡ first_low cell }
{
    let low = i64::from(cell) * i64::from(SIDE) + i64::from(GROWTH);
    if low < i64::from(i32::MIN) {
        i32::MIN
    } else if low > i64::from(i32::MAX) {
        i32::MAX
    } else {
        low as i32
    }
}

/// Where the boxes begin at the least that have their first cell here, as far as 32 bits go.
pub fn start_of(cell: Cell) -> Point
    ensures { result ≡ start_of cell }
{
    Point {
        x: first_low(cell.x),
        y: first_low(cell.y),
        z: first_low(cell.z),
    }
}
