//! Chains of placements are walked up, each part once.
ghost use Rattle.std.specs.Prelude.{◌≡◌, ◌+◌, ◌<◌, ◌≤◌, ◌^◌, ◌++◌, ◌∷◌, ◌⊎◌, [], ℕ, List, Option, Some, None, IfSome, IfNone, IfOk, OnOk, Contains, length, slice_index, slice_set, replicate};
ghost use Rattle.p21_values.specs.declared.value.Instance.{Instance};
ghost use Rattle.p21_values.specs.declared.limits.TheConstants.{MOST_INSTANCES};
ghost use Rattle.placement.specs.Chains.{parent_in, parent_of, named_by};
ghost use Rattle.placement.specs.inner.Walks.{Ranked, Outcome, Rest, Settling, Settled, Visited, StandsAt, IsFrom};

use p21_table::{Exchange, InstanceRef, ValueRef};
use std::alloc::{AllocError, Global};

/// Where a placement is among the instances, and the number of the one that it stands in.
#[derive(Clone, Copy)]
pub struct Standing {
    pub at: usize,
    pub parent: Option<u64>,
}

/// What is known of the placements of a file.
#[derive(Drop)]
pub struct Walk {
    /// For each instance its place in `met`.
    pub ranks: Vec<Option<u32>>,
    /// The numbers of the placements, as they were met.
    pub met: Vec<u64>,
    /// The same, each after the one that it stands in.
    pub order: Vec<u64>,
}

/// What the placement of that number stands in. None where this can't be read.
pub fn standing_of(exchange: &Exchange, id: u64) -> Option<Standing>
    ensures some { IfSome result (StandsAt exchange.now id) }
    ensures none { IfNone result ((parent : Option ℕ) → parent_of exchange.now id ≡ Some parent → ⊥) }
{
    let at = exchange.place_of(id)?;
    let parent = parent_in(&exchange.instance(at))?;
    Some(Standing { at, parent })
}

fn parent_in(placement: &InstanceRef<'_>) -> Option<Option<u64>>
    ensures { result ≡ parent_in placement.now }
{
    let value = placement.attribute(0)?;
    named_by(&value)
}

fn named_by(value: &ValueRef<'_>) -> Option<Option<u64>>
    ensures { result ≡ named_by value.now }
{
    if value.is_absent() {
        Some(None)
    } else {
        value.reference().map(Some)
    }
}

impl Walk {
    /// Nothing is met yet.
    pub fn new(alloc: Global, places: usize) -> Result<Walk, AllocError>
        ensures ranks { IfOk result (λ walk. walk.ranks.items ≡ replicate places None) }
        ensures met { IfOk result (λ walk. walk.met.items ≡ []) }
        ensures order { IfOk result (λ walk. walk.order.items ≡ []) }
    {
        let ranks = vec![in alloc; None; places]?;
        Ok(Walk {
            ranks,
            met: Vec::new(alloc),
            order: Vec::new(alloc),
        })
    }

    /// Meets a placement.
    fn meet(&mut self, at: usize, id: u64) -> Result<(), AllocError>
        requires within { at < length self.old.ranks.items }
        requires few { length self.old.met.items < 2 ^ 32 }
        ensures ranks { OnOk result (self.new.ranks.items
            ≡ slice_set self.old.ranks.items at (Some (length self.old.met.items))) }
        ensures met { OnOk result (self.new.met.items ≡ self.old.met.items ++ id ∷ []) }
        ensures order { self.new.order.items ≡ self.old.order.items }
    {
        self.ranks[at] = Some(self.met.len() as u32);
        self.met.push(id)?;
        Ok(())
    }

    /// Walks up from a placement, to one that was met before or stands in none. False where this never ends.
    fn climb(&mut self, exchange: &Exchange, id: u64) -> Result<bool, AllocError>
        requires ranked { Ranked exchange.now self.old.ranks.items self.old.met.items }
        requires few { length exchange.now ≤ MOST_INSTANCES }
        ensures ranked { OnOk result (Ranked exchange.now self.new.ranks.items self.new.met.items) }
        ensures order { self.new.order.items ≡ self.old.order.items }
        ensures longer { OnOk result (length self.old.met.items ≤ length self.new.met.items) }
        ensures kept { OnOk result ((k : ℕ) → k < length self.old.met.items
            → slice_index self.new.met.items k ≡ slice_index self.old.met.items k) }
        ensures outcome { IfOk result (Outcome exchange.now self.new.met.items
            (length self.old.met.items) id) }
    {
        let start = self.met.len();
        let mut current = id;
        'up: loop {
            let Some(found) = standing_of(exchange, current) else {
                return Ok(false);
            };
            if let Some(rank) = self.ranks[found.at] {
                return Ok((rank as usize) < start);
            }
            self.meet(found.at, current)?;
            match found.parent {
                Some(parent) => current = parent,
                None => return Ok(true),
            }
        }
    }

    /// Puts the placements that were met from the start on into the order, the last one first.
    fn settle(&mut self, start: usize) -> Result<(), AllocError>
        requires within { start ≤ length self.old.met.items }
        ensures ranks { self.new.ranks.items ≡ self.old.ranks.items }
        ensures met { self.new.met.items ≡ self.old.met.items }
        ensures count { OnOk result (length self.new.order.items + start
            ≡ length self.old.order.items + length self.old.met.items) }
        ensures grows { OnOk result ((id : ℕ) → Contains self.old.order.items id
            → Contains self.new.order.items id) }
        ensures sound { OnOk result ((id : ℕ) → Contains self.new.order.items id
            → Contains self.old.order.items id ⊎ IsFrom self.old.met.items start id) }
        ensures order { OnOk result ((world : List Instance) → Rest world self.old.met.items start
            → Settling world self.old.order.items self.old.met.items start (length self.old.met.items)
            → Settling world self.new.order.items self.old.met.items start start) }
    {
        let mut k = self.met.len();
        while k > start {
            k -= 1;
            self.order.push(self.met[k])?;
        }
        Ok(())
    }

    /// Walks up from a placement, and puts what is met into the order. False where its chain never ends.
    pub fn visit(&mut self, exchange: &Exchange, id: u64) -> Result<bool, AllocError>
        requires settled { Settled exchange.now self.old }
        requires few { length exchange.now ≤ MOST_INSTANCES }
        ensures { IfOk result (Visited exchange.now self.old self.new id) }
    {
        let start = self.met.len();
        if !self.climb(exchange, id)? {
            return Ok(false);
        }
        self.settle(start)?;
        Ok(true)
    }
}
