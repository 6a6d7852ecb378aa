//! What a bucket found.
ghost use Rattle.std.specs.Prelude.{◌≡◌, map, IfOk};
ghost use Rattle.bucket_grid.specs.Cells.{members};
ghost use Rattle.bucket_check.specs.Clashes.{own_clashes};
ghost use Rattle.bucket_check.specs.ClashSets.{own_places, pair_at, IsUnmoved};

use crate::bucket_work::BucketWork;
use crate::pair::SetPair;
use bim_model::{Items, Shared, know};
use std::alloc::AllocError;
use std::marker::Model;

/// The clashes that a bucket owns, with the work that they were found for.
#[derive(Drop)]
pub struct BucketSet {
    work: BucketWork,
    pairs: Shared<Items<SetPair>>,
}

impl Model for BucketSet {
    ghost use Rattle.std.specs.Prelude.{◌≡◌};
    ghost use Rattle.bucket_check.specs.ClashSets.{SetValue, own_places};

    ghost Value = { SetValue };

    ghost view = { λ s. record { work = s.work; pairs = s.pairs } };

    ghost invariant = { λ s. s.pairs ≡ own_places s.work.grid s.work.cell };
}

impl BucketSet {
    // The set of a work, with the pairs that its cell owns.
    pub(crate) fn of(work: BucketWork, pairs: Shared<Items<SetPair>>) -> BucketSet
        requires { pairs ≡ own_places work.grid work.cell }
        ensures work { result.work ≡ work }
        ensures pairs { result.pairs ≡ pairs }
        ensures found { result.pairs ≡ own_places work.grid work.cell }
    {
        BucketSet { work, pairs }
    }

    /// The work, lent.
    pub fn work(&self) -> &BucketWork
        ensures { result.now ≡ self.now.work }
    {
        &self.work
    }

    /// The pairs in the order of keys, by the places of the elements among the bucket's members, lent. They
    /// are exactly the clashes that the bucket owns.
    pub fn pairs(&self) -> &[SetPair]
        ensures same { result.now ≡ self.now.pairs }
        ensures found { result.now ≡ own_places self.now.work.grid self.now.work.cell }
        ensures owned { map (pair_at (members self.now.work.grid.boxes self.now.work.cell)) result.now
            ≡ own_clashes self.now.work.grid.version self.now.work.grid.boxes self.now.work.cell }
    {
        know(self.work.grid.get().rules());
        know(self.work.grid.get().boxes());
        self.pairs.get().as_slice()
    }

    /// The set of another work, on the same cell in a grid of equal rules where it has members of the same
    /// keys, classes, storeys and surfaces. The list of its pairs is shared.
    pub fn moved(&self, work: BucketWork) -> Result<BucketSet, AllocError>
        requires cell { work.cell ≡ self.now.work.cell }
        requires unmoved { IsUnmoved self.now.work.grid work.grid work.cell }
        ensures work { IfOk result (λ set. set.work ≡ work) }
        ensures pairs { IfOk result (λ set. set.pairs ≡ self.now.pairs) }
        ensures found { IfOk result (λ set. set.pairs ≡ own_places work.grid work.cell) }
    {
        know(self.work.grid.get().boxes());
        know(work.grid.get().boxes());
        let pairs = self.pairs.share()?;
        Ok(BucketSet::of(work, pairs))
    }
}
