//! The cells of one axis that hold each box.
ghost use Rattle.std.specs.Prelude.{◌≡◌, ◌≤◌, ◌≤ℤ◌, pos, ◌-ℤ◌, ◌+ℤ◌, unsigned_abs, IfOk, All};
ghost use Rattle.bim_model.specs.Points.{grid_limit};
ghost use Rattle.bucket_grid.specs.declared.cell.TheConstants.{FARTHEST_CELL, MOST_CELLS};
ghost use Rattle.bucket_grid.specs.Cells.{first_cell, last_cell};
ghost use Rattle.bucket_grid.specs.ElementPlaces.{IsGridBox};
ghost use Rattle.bucket_grid.specs.inner.Axes.{low_on, high_on, LieIn, span_on, AreSpansOn};
ghost use Rattle.bucket_grid.specs.Dealt.{IsSpan};

use crate::cell::{first_cell, last_cell};
use crate::lists::Span;
use bim_model::{Extent, GRID_LIMIT, Items};
use std::alloc::{AllocError, Global};

/// One of the three axes.
#[derive(Clone, Copy, Debug, PartialEq, Eq)]
pub enum Axis {
    X,
    Y,
    Z,
}

/// The first cell of the axis that holds the box.
pub fn first_on(axis: Axis, extent: &Extent) -> i32
    requires { IsGridBox extent.now }
    ensures is { result ≡ first_cell (low_on axis extent.now) }
    ensures small { unsigned_abs result ≤ unsigned_abs FARTHEST_CELL }
{
    match axis {
        Axis::X => first_cell(extent.low.x),
        Axis::Y => first_cell(extent.low.y),
        Axis::Z => first_cell(extent.low.z),
    }
}

/// The last cell of the axis that holds the box.
pub fn last_on(axis: Axis, extent: &Extent) -> i32
    requires { IsGridBox extent.now }
    ensures is { result ≡ last_cell (high_on axis extent.now) }
    ensures small { unsigned_abs result ≤ unsigned_abs FARTHEST_CELL }
    ensures order { first_cell (low_on axis extent.now) ≤ℤ result }
{
    match axis {
        Axis::X => last_cell(extent.high.x),
        Axis::Y => last_cell(extent.high.y),
        Axis::Z => last_cell(extent.high.z),
    }
}

// The low side of the box on the axis.
fn low_on(axis: Axis, extent: &Extent) -> i32
    requires { IsGridBox extent.now }
    ensures is { result ≡ low_on axis extent.now }
    ensures small { unsigned_abs result ≤ grid_limit }
{
    match axis {
        Axis::X => extent.low.x,
        Axis::Y => extent.low.y,
        Axis::Z => extent.low.z,
    }
}

// The high side of the box on the axis.
fn high_on(axis: Axis, extent: &Extent) -> i32
    requires { IsGridBox extent.now }
    ensures is { result ≡ high_on axis extent.now }
    ensures small { unsigned_abs result ≤ grid_limit }
{
    match axis {
        Axis::X => extent.high.x,
        Axis::Y => extent.high.y,
        Axis::Z => extent.high.z,
    }
}

// The lower of two sides.
fn lower(a: i32, b: i32) -> i32
    requires a_in { unsigned_abs a ≤ grid_limit }
    requires b_in { unsigned_abs b ≤ grid_limit }
    ensures a { result ≤ℤ a }
    ensures b { result ≤ℤ b }
    ensures small { unsigned_abs result ≤ grid_limit }
{
    if a <= b { a } else { b }
}

// The higher of two sides.
fn higher(a: i32, b: i32) -> i32
    requires a_in { unsigned_abs a ≤ grid_limit }
    requires b_in { unsigned_abs b ≤ grid_limit }
    ensures a { a ≤ℤ result }
    ensures b { b ≤ℤ result }
    ensures small { unsigned_abs result ≤ grid_limit }
{
    if a <= b { b } else { a }
}

/// Cells of an axis in which all boxes lie: the lowest, and how many.
#[derive(Clone, Copy, Debug, PartialEq, Eq)]
pub struct Range {
    pub low: i32,
    pub count: usize,
}

/// The cells of the axis in which the boxes lie: from that of the lowest side to that of the highest.
#[inline(always)]
pub fn range_on(axis: Axis, boxes: &[Extent]) -> Range
    requires { All IsGridBox boxes.now }
    ensures lie { LieIn axis result.low ((result.low +ℤ pos result.count) -ℤ pos 1) boxes.now }
    ensures low { unsigned_abs result.low ≤ unsigned_abs FARTHEST_CELL }
    ensures few { result.count ≤ MOST_CELLS }
{
    let mut least = GRID_LIMIT;
    let mut greatest = -GRID_LIMIT;
    for extent in boxes {
        least = lower(least, low_on(axis, extent));
        greatest = higher(greatest, high_on(axis, extent));
    }
    let low = first_cell(least);
    let high = last_cell(greatest);
    if high < low {
        return Range { low, count: 1 };
    }
    let count = (high - low) as usize + 1;
    Range { low, count }
}

/// The spans of the boxes on the axis, counted from `low`.
#[inline(always)]
pub fn spans_on(
    alloc: Global,
    axis: Axis,
    range: Range,
    boxes: &[Extent],
) -> Result<Items<Span>, AllocError>
    requires near { All IsGridBox boxes.now }
    requires low { unsigned_abs range.low ≤ unsigned_abs FARTHEST_CELL }
    requires few { range.count ≤ MOST_CELLS }
    requires lie { LieIn axis range.low ((range.low +ℤ pos range.count) -ℤ pos 1) boxes.now }
    ensures are { IfOk result (λ made. AreSpansOn axis range.low boxes.now made) }
    ensures spans { IfOk result (λ made. All (IsSpan range.count) made) }
{
    let mut spans = Vec::with_capacity(alloc, boxes.len())?;
    for extent in boxes {
        spans.push(span_of(axis, range, extent))?;
    }
    Ok(Items::from_vec(spans))
}

// The span of a box on the axis.
fn span_of(axis: Axis, range: Range, extent: &Extent) -> Span
    requires near { IsGridBox extent.now }
    requires low { unsigned_abs range.low ≤ unsigned_abs FARTHEST_CELL }
    requires few { range.count ≤ MOST_CELLS }
    requires above { range.low ≤ℤ first_cell (low_on axis extent.now) }
    requires below { last_cell (high_on axis extent.now) ≤ℤ ((range.low +ℤ pos range.count) -ℤ pos 1) }
    ensures first { range.low +ℤ pos result.first ≡ first_cell (low_on axis extent.now) }
    ensures last { range.low +ℤ pos result.last ≡ last_cell (high_on axis extent.now) }
    ensures span { IsSpan range.count result }
{
    Span {
        first: (first_on(axis, extent) - range.low) as u32,
        last: (last_on(axis, extent) - range.low) as u32,
    }
}

/// How many cells of the axis hold the box.
pub fn cells_on(axis: Axis, extent: &Extent) -> u64
    requires { IsGridBox extent.now }
    ensures is { result ≡ span_on axis extent.now }
    ensures small { result ≤ MOST_CELLS }
{
    (last_on(axis, extent) - first_on(axis, extent)) as u64 + 1
}
