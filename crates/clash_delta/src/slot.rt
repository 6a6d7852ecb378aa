//! One bucket of a grid.

use bim_model::Shared;
use bucket_check::BucketSet;
use bucket_grid::Cell;

/// A bucket of a grid: its cell, and its set once it is done.
#[derive(Drop)]
pub struct Slot {
    pub cell: Cell,
    pub set: Option<Shared<BucketSet>>,
}
