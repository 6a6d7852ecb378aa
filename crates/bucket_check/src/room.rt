//! Room that is used for one bucket after the other.
ghost use Rattle.std.specs.Prelude.{◌≡◌, [], IfOk};

use crate::pair::SetPair;
use bim_model::{Items, Shared};
use box_lanes::BoxTable;
use std::alloc::{AllocError, Global};

/// A worker's room: the boxes of the members of a bucket, the places of some of them, where the next bucket may stand
/// among those of its grid, and a list for the buckets that own no clash. What it holds says nothing.
#[derive(Drop)]
pub struct Room {
    pub(crate) table: BoxTable,
    pub(crate) places: Vec<u32>,
    pub(crate) next: usize,
    no_pairs: Option<Shared<Items<SetPair>>>,
}

impl Room {
    /// Room that takes no memory yet.
    pub fn new(alloc: Global) -> Room {
        Room {
            table: BoxTable::new(alloc),
            places: Vec::new(alloc),
            next: 0,
            no_pairs: None,
        }
    }

    // A list without pairs. Most buckets own no clash, so it is made once, and their sets share it.
    pub(crate) fn no_pairs(&mut self, alloc: Global) -> Result<Shared<Items<SetPair>>, AllocError>
        ensures { IfOk result (λ list. list ≡ []) }
    {
        if let Some(list) = &self.no_pairs {
            if list.get().len() == 0 {
                return list.share();
            }
        }
        let list = Shared::new(alloc, Items::new(alloc))?;
        self.no_pairs = Some(list.share()?);
        Ok(list)
    }
}
