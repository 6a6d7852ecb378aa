//! The bucket of a cell.
ghost use Rattle.std.specs.Prelude.{◌≡◌, ℕ, ◌<◌, ◌≤◌, length, slice_index_or, IfSome, IfNone, AllPairs, IsTrue};
ghost use Rattle.bucket_grid.specs.Cells.{cell_cmp};
ghost use Rattle.bucket_grid.specs.Search.{Rise, IsAt, IsNowhere};
ghost use Rattle.bucket_grid.specs.declared.bucket_table.Bucket.{Bucket};

use crate::bucket_table::Bucket;
use crate::cell::Cell;
use std::cmp::Ordering;

/// The place of the cell among the buckets, which rise, or none where it is not there.
pub fn place_of(buckets: &[Bucket], cell: Cell) -> Option<usize>
    requires { Rise buckets.now }
    ensures found { IfSome result (λ k. IsAt buckets.now cell k) }
    ensures none { IfNone result (IsNowhere buckets.now cell) }
{
    let mut low = 0;
    let mut high = buckets.len();
    while low < high {
        let middle = low + (high - low) / 2;
        match buckets[middle].cell.cmp(&cell) {
            Ordering::Equal => return Some(middle),
            Ordering::Less => low = middle + 1,
            Ordering::Greater => high = middle,
        }
    }
    None
}

// Whether the bucket at that place is the cell's.
fn is_at(buckets: &[Bucket], cell: Cell, place: usize) -> bool
    ensures { IsTrue result → IsAt buckets.now cell place }
{
    if place >= buckets.len() {
        return false;
    }
    let found = buckets[place].cell;
    found.x == cell.x && found.y == cell.y && found.z == cell.z
}

/// The same, where the cell is looked for at the place `likely` first.
pub fn place_by(buckets: &[Bucket], cell: Cell, likely: usize) -> Option<usize>
    requires { Rise buckets.now }
    ensures found { IfSome result (λ k. IsAt buckets.now cell k) }
    ensures none { IfNone result (IsNowhere buckets.now cell) }
{
    if is_at(buckets, cell, likely) {
        Some(likely)
    } else {
        place_of(buckets, cell)
    }
}
