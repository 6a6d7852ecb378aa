//! What stands on a shelf.

use crate::published::Published;
use bim_model::Shared;

/// A published set under its project and version.
#[derive(Drop)]
pub struct Entry {
    pub project: u32,
    pub version: u64,
    pub set: Shared<Published>,
}
