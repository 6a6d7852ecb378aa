//! The clashes of a version.
ghost use Rattle.std.specs.Prelude.{◌≡◌, ◌<◌, length, take, drop, slice_get, All, IfOk, IfSome};
ghost use Rattle.bim_model.specs.Keys.{subjects_of};
ghost use Rattle.bim_model.specs.Models.{IsModelled};
ghost use Rattle.bim_model.specs.Snapshots.{IsSnapshot};
ghost use Rattle.bucket_check.specs.Clashes.{clashes};
ghost use Rattle.clash_publish.specs.Listed.{IsClash, element_of, distance_at};
ghost use Rattle.clash_publish.specs.Merged.{AreSetsOf};

use crate::merge::merged;
use bim_model::{Distance, Element, RuleKind, Shared, Snapshot, know};
use bucket_check::{BucketSet, SetPair};
use bucket_grid::Grid;
use std::alloc::{AllocError, Global};
use std::marker::Model;

/// A version and all its clashes. Contracts see it as the version, whose clashes are determined. A pair names its
/// elements by their numbers: their places in the list of all elements of the version by rising key, from 0.
#[derive(Drop)]
pub struct Published {
    grid: Shared<Grid>,
    pairs: Vec<SetPair>,
}

impl Model for Published {
    ghost use Rattle.std.specs.Prelude.{◌≡◌};
    ghost use Rattle.bim_model.specs.Snapshots.{Version};
    ghost use Rattle.bucket_check.specs.Clashes.{clashes};

    ghost Value = { Version };

    ghost view = { λ p. p.grid.version };

    ghost invariant = { λ p. p.pairs.items ≡ clashes p.grid.version };
}

impl Published {
    /// The clashes of the grid's version, of the sets of its buckets: one for each, in their order, found in this
    /// grid. An error if memory runs out.
    pub fn of(
        alloc: Global,
        grid: Shared<Grid>,
        sets: &[Shared<BucketSet>],
    ) -> Result<Published, AllocError>
        requires { AreSetsOf grid sets.now }
        ensures { IfOk result (λ made. made ≡ grid.version) }
    {
        let pairs = merged(alloc, grid.get(), sets)?;
        Ok(Published { grid, pairs })
    }

    /// The version, lent.
    pub fn snapshot(&self) -> &Snapshot
        ensures { result.now ≡ self.now }
    {
        self.grid.get().snapshot()
    }

    /// All clashes of the version, each once, by rising first and then second number, lent.
    pub fn pairs(&self) -> &[SetPair]
        ensures all { result.now ≡ clashes self.now }
        ensures each { All (IsClash self.now) result.now }
    {
        self.pairs.as_slice()
    }

    /// How many clashes the version has.
    pub fn total(&self) -> u64
        ensures { result ≡ length (clashes self.now) }
    {
        self.pairs.len() as u64
    }

    /// The clash at a place, from 0, or none exactly from the total on. Takes no memory.
    pub fn pair(&self, place: u64) -> Option<SetPair>
        ensures pair { result ≡ slice_get (clashes self.now) place }
        ensures clash { IfSome result (IsClash self.now) }
    {
        let pairs = self.pairs();
        if place < self.total() {
            Some(pairs[place as usize])
        } else {
            None
        }
    }

    /// At most so many clashes from that place on, lent: none from the total on.
    pub fn page(&self, first: u64, count: u64) -> &[SetPair]
        ensures page { result.now ≡ take count (drop first (clashes self.now)) }
        ensures each { All (IsClash self.now) result.now }
    {
        let pairs = self.pairs();
        let total = self.total();
        let start = first.min(total);
        let end = start + count.min(total - start);
        &pairs[start as usize..end as usize]
    }
}

impl Published {
    /// The element of a number, lent.
    pub fn element(&self, number: u32) -> &Element
        requires { number < length (subjects_of self.now.models) }
        ensures element { result.now ≡ (element_of self.now number).element }
        ensures modelled { IsModelled result.now }
    {
        let grid = self.grid.get();
        know(grid.places());
        grid.element(number as usize)
    }

    /// The name of the model of the element of a number, lent.
    pub fn model_name(&self, number: u32) -> &str
        requires { number < length (subjects_of self.now.models) }
        ensures { result.now ≡ (element_of self.now number).name }
    {
        let grid = self.grid.get();
        let place = grid.places()[number as usize];
        grid.models()[place.model].name.as_str()
    }

    /// The distance of a rule, none where it has none or isn't there.
    pub fn distance(&self, rule: u32) -> Option<Distance>
        ensures { result ≡ distance_at self.now.rules rule }
    {
        let rules = self.grid.get().rules().list();
        if rule as usize >= rules.len() {
            return None;
        }
        match rules[rule as usize].kind {
            RuleKind::Clash { distance } => Some(distance),
            RuleKind::Pierce => None,
            RuleKind::Ignore => None,
        }
    }
}
