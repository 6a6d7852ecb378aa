//! What is kept of instances, by their places.
use std::alloc::{AllocError, Global};
use std::marker::Model;

/// What is kept of some instances of a file, by their places: four bytes a place, and what is kept. Contracts see it as a list that has a place
/// for each instance.
#[derive(Drop)]
pub struct Pool<T> {
    slots: Vec<u32>,
    kept: Vec<T>,
}

impl<T> Model for Pool<T> {
    ghost use Rattle.std.specs.Prelude.{ℕ, List, Option, map, length, All, ◌≤◌};
    ghost use Rattle.walk_rows.specs.Pools.{slot_in};

    ghost Value = { List (Option T) };

    ghost view = { λ p. map (slot_in p.kept.items) p.slots.items };

    ghost invariant = { λ p. All (λ s. s ≤ length p.kept.items) p.slots.items };
}

impl<T: Drop> Pool<T> {
    ghost use Rattle.std.specs.Prelude.{◌≡◌, ◌<◌, ℕ, None, length, IfOk, OnOk, replicate, option_copied};
    ghost use Rattle.walk_rows.specs.Pools.{pooled, Pools};

    /// Nothing is kept yet.
    pub fn new(alloc: Global, places: usize) -> Result<Pool<T>, AllocError>
        ensures { IfOk result (λ pool. pool ≡ replicate places None) }
    {
        let slots = vec![in alloc; 0; places]?;
        Ok(Pool {
            slots,
            kept: Vec::new(alloc),
        })
    }

    /// Keeps this for a place.
    pub fn put(&mut self, at: usize, item: T) -> Result<(), AllocError>
        requires { at < length self.old }
        ensures { OnOk result (Pools self.old self.new at item) }
    {
        if self.kept.len() >= u32::MAX as usize {
            return Err(AllocError);
        }
        self.kept.push(item)?;
        let count = self.kept.as_slice().len();
        self.slots[at] = count as u32;
        Ok(())
    }

    /// What is kept for a place.
    pub fn get(&self, at: usize) -> Option<&T>
        ensures { option_copied result ≡ pooled self.now at }
    {
        let slot = *self.slots.get(at)?;
        if slot == 0 {
            return None;
        }
        self.kept.get(slot as usize - 1)
    }
}
