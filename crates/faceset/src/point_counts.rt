//! How many points lists have.
ghost use Rattle.std.specs.Prelude.{◌≡◌, ◌<◌, ◌^◌, ℕ, None, length, IfOk, OnOk};
ghost use Rattle.faceset.specs.Reaches.{PutsKept, kept_in};
ghost use Rattle.faceset.specs.PointCounts.{AreCounts};
ghost use Rattle.faceset.specs.FaceSets.{spelled_points};

use crate::sets::spelled_points;
use p21_table::{Exchange, InstanceRef};
use std::alloc::{AllocError, Global};
use std::collections::BTreeMap;
use std::marker::Model;

/// How many points lists have, by the numbers of the lists, so that a list is gone over once, however many sets refer to it. Contracts see
/// the list of the numbers and the counts.
#[derive(Drop)]
pub struct PointCounts {
    counts: BTreeMap<u64, usize>,
}

impl Model for PointCounts {
    ghost use Rattle.std.specs.Prelude.{ℕ, List};

    ghost Value = { List (ℕ × ℕ) };

    ghost view = { λ p. p.counts.entries };
}

impl PointCounts {
    /// None as yet. Takes no memory.
    pub(crate) fn new(alloc: Global) -> PointCounts
        ensures { (id : ℕ) → kept_in result id ≡ None }
    {
        PointCounts {
            counts: BTreeMap::new(alloc),
        }
    }

    fn get(&self, id: u64) -> Option<usize>
        ensures { result ≡ kept_in self.now id }
    {
        match self.counts.get(&id) {
            Some(count) => Some(*count),
            None => None,
        }
    }

    fn put(&mut self, id: u64, count: usize) -> Result<(), AllocError>
        ensures { OnOk result (PutsKept (kept_in self.old) (kept_in self.new) id count) }
    {
        self.counts.insert(id, count)?;
        Ok(())
    }

    /// How many points the list has that a set refers to.
    pub(crate) fn of(
        &mut self,
        exchange: &Exchange,
        set: &InstanceRef<'_>,
    ) -> Result<usize, AllocError>
        requires { AreCounts exchange.now self.old }
        ensures count { IfOk result (λ count. count ≡ length (spelled_points exchange.now set.now)) }
        ensures few { IfOk result (λ count. count < 2 ^ 63) }
        ensures kept { OnOk result (AreCounts exchange.now self.new) }
    {
        let Some(id) = set.reference_at(0) else {
            return Ok(0);
        };
        if let Some(count) = self.get(id) {
            return Ok(count);
        }
        let count = spelled_points(exchange, set).len();
        self.put(id, count)?;
        Ok(count)
    }
}
