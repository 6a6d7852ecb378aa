//! What is to be checked.

use bim_model::Shared;
use bucket_grid::{Cell, Grid};

/// A bucket to be checked: a cell of the grid of a version of a project.
#[derive(Drop)]
pub struct BucketWork {
    pub project: u32,
    pub version: u64,
    pub cell: Cell,
    pub grid: Shared<Grid>,
}
