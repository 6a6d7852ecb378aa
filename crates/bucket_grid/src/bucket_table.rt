//! The table of buckets.
ghost use Rattle.std.specs.Prelude.{◌≡◌, ◌+◌, ◌<◌, ◌≤◌, ◌++◌, length, IfOk, OnOk, All};
ghost use Rattle.bucket_grid.specs.declared.cell.TheConstants.{MOST_CELLS};
ghost use Rattle.bucket_grid.specs.Dealt.{IsAmong};
ghost use Rattle.bucket_grid.specs.BucketTable.{if_bucket, with_x, with_y, with_z, column, slab, table, IsLow};

use crate::bucket_part::Part;
use crate::buckets::Buckets;
use crate::cell::Cell;
use crate::lists::{Lists, Span, deal};
use bim_model::Items;
use std::alloc::{AllocError, Global};

/// A cell with two members or more, and their numbers, rising.
#[derive(Drop)]
pub struct Bucket {
    pub cell: Cell,
    pub members: Part,
}

// The cell so many places on along x.
fn with_x(low: Cell, place: usize) -> Cell
    requires low { IsLow low.x }
    requires few { place ≤ MOST_CELLS }
    ensures { result ≡ with_x low place }
{
    Cell {
        x: low.x + place as i32,
        y: low.y,
        z: low.z,
    }
}

// The cell so many places on along y.
fn with_y(low: Cell, place: usize) -> Cell
    requires low { IsLow low.y }
    requires few { place ≤ MOST_CELLS }
    ensures { result ≡ with_y low place }
{
    Cell {
        x: low.x,
        y: low.y + place as i32,
        z: low.z,
    }
}

// The cell so many places on along z.
fn with_z(low: Cell, place: usize) -> Cell
    requires low { IsLow low.z }
    requires few { place ≤ MOST_CELLS }
    ensures { result ≡ with_z low place }
{
    Cell {
        x: low.x,
        y: low.y,
        z: low.z + place as i32,
    }
}

// Adds the buckets of the column that begins at `low`.
fn add_column(
    low: Cell,
    numbers: &[u32],
    spans: &[Span],
    lists: &mut Lists,
    buckets: &mut Buckets,
) -> Result<(), AllocError>
    requires among { IsAmong spans.now numbers.now (length lists.old) }
    requires low { IsLow low.z }
    requires few { length lists.old ≤ MOST_CELLS }
    ensures buckets { OnOk result (buckets.new
        ≡ buckets.old ++ column spans.now low (length lists.old) numbers.now) }
    ensures count { OnOk result (length lists.new ≡ length lists.old) }
{
    if numbers.len() < 2 {
        return Ok(());
    }
    deal(lists, numbers, spans)?;
    let mut place = lists.next(0);
    while place < lists.count() {
        buckets.add(with_z(low, place), lists.get(place))?;
        place = lists.next(place + 1);
    }
    Ok(())
}

/// The spans of all boxes on each axis.
#[derive(Drop)]
pub struct Axes {
    pub x: Items<Span>,
    pub y: Items<Span>,
    pub z: Items<Span>,
}

// Adds the buckets of the slab that begins at `low`.
fn add_slab(
    low: Cell,
    numbers: &[u32],
    axes: &Axes,
    ys: &mut Lists,
    zs: &mut Lists,
    buckets: &mut Buckets,
) -> Result<(), AllocError>
    requires among_y { IsAmong axes.now.y numbers.now (length ys.old) }
    requires among_z { IsAmong axes.now.z numbers.now (length zs.old) }
    requires low_y { IsLow low.y }
    requires low_z { IsLow low.z }
    requires few_y { length ys.old ≤ MOST_CELLS }
    requires few_z { length zs.old ≤ MOST_CELLS }
    ensures buckets { OnOk result (buckets.new ≡ buckets.old
        ++ slab axes.now.y axes.now.z low (length ys.old) (length zs.old) numbers.now) }
    ensures count_y { OnOk result (length ys.new ≡ length ys.old) }
    ensures count_z { OnOk result (length zs.new ≡ length zs.old) }
{
    if numbers.len() < 2 {
        return Ok(());
    }
    deal(ys, numbers, axes.y.as_slice())?;
    let mut place = ys.next(0);
    while place < ys.count() {
        let column = with_y(low, place);
        add_column(column, ys.get(place), axes.z.as_slice(), zs, buckets)?;
        place = ys.next(place + 1);
    }
    Ok(())
}

/// The buckets of all boxes with these spans. The numbers of cells are counted from `low`. Room is taken at once for
/// so many members of all.
pub fn table_of(
    alloc: Global,
    low: Cell,
    numbers: &[u32],
    axes: &Axes,
    counts: (usize, usize, usize),
    memberships: usize,
) -> Result<Vec<Bucket>, AllocError>
    requires among_x { IsAmong axes.now.x numbers.now counts.0 }
    requires among_y { IsAmong axes.now.y numbers.now counts.1 }
    requires among_z { IsAmong axes.now.z numbers.now counts.2 }
    requires low_x { IsLow low.x }
    requires low_y { IsLow low.y }
    requires low_z { IsLow low.z }
    requires few_x { counts.0 ≤ MOST_CELLS }
    requires few_y { counts.1 ≤ MOST_CELLS }
    requires few_z { counts.2 ≤ MOST_CELLS }
    ensures { IfOk result (λ buckets. buckets.items
        ≡ table axes.now.x axes.now.y axes.now.z low counts.0 counts.1 counts.2 numbers.now) }
{
    let mut xs = Lists::of(alloc, counts.0)?;
    let mut ys = Lists::of(alloc, counts.1)?;
    let mut zs = Lists::of(alloc, counts.2)?;
    let mut buckets = Buckets::with_room(alloc, memberships)?;
    deal(&mut xs, numbers, axes.x.as_slice())?;
    let mut place = xs.next(0);
    while place < xs.count() {
        let slab = with_x(low, place);
        add_slab(slab, xs.get(place), axes, &mut ys, &mut zs, &mut buckets)?;
        place = xs.next(place + 1);
    }
    buckets.finish(alloc)
}
