//! Published sets that are kept.
ghost use Rattle.std.specs.Prelude.{◌≡◌, ◌==◌, ◌&&◌, ℕ, cond, Some, None, option_map, OnOk, OnErr};
ghost use Rattle.clash_publish.specs.Shelves.{is_of, set_of, is_live};

use crate::entry::Entry;
use crate::horizon::Horizon;
use crate::published::Published;
use bim_model::Shared;
use std::alloc::{AllocError, Global};
use std::marker::Model;

/// Published sets by project and version, at most one of each.
#[derive(Drop)]
pub struct Shelf {
    entries: Vec<Entry>,
}

impl Model for Shelf {
    ghost use Rattle.std.specs.Prelude.{List};
    ghost use Rattle.clash_publish.specs.declared.entry.Entry.{Entry};

    ghost Value = { List Entry };

    ghost view = { λ s. s.entries.items };
}

// Whether the entry is of that version of that project.
fn is_of(entry: &Entry, project: u32, version: u64) -> bool
    ensures { result ≡ is_of project version entry.now }
{
    entry.project == project && entry.version == version
}

impl Shelf {
    /// A shelf without sets. Takes no memory.
    pub fn new(alloc: Global) -> Shelf
        ensures { (project version : ℕ) → set_of result project version ≡ None }
    {
        Shelf {
            entries: Vec::new(alloc),
        }
    }

    /// Puts a set under its project and version, also in place of one that stands there. An error where memory is
    /// wanting, which leaves the shelf as it was.
    pub fn put(
        &mut self,
        project: u32,
        version: u64,
        set: Shared<Published>,
    ) -> Result<(), AllocError>
        ensures ok { OnOk result ((p v : ℕ) → set_of self.new p v
            ≡ cond (project == p && version == v) (Some set) (set_of self.old p v)) }
        ensures err { OnErr result (self.new ≡ self.old) }
    {
        for place in 0..self.entries.len() {
            if is_of(&self.entries[place], project, version) {
                self.entries[place].set = set;
                return Ok(());
            }
        }
        self.entries.push(Entry {
            project,
            version,
            set,
        })?;
        Ok(())
    }

    /// The set of a version, lent, or none exactly where it isn't on the shelf. Takes no memory.
    pub fn get(&self, project: u32, version: u64) -> Option<&Shared<Published>>
        ensures { option_map (λ set. set.now) result ≡ set_of self.now project version }
    {
        for entry in &self.entries {
            if is_of(entry, project, version) {
                return Some(&entry.set);
            }
        }
        None
    }

    /// Drops exactly the versions that aren't among the newest sixteen of their project. Takes no memory.
    pub fn keep(&mut self, horizon: &Horizon)
        ensures { (p v : ℕ) → set_of self.new p v
            ≡ cond (is_live horizon.now.newest p v) (set_of self.old p v) None }
    {
        self.entries
            .retain(|entry| horizon.is_live(entry.project, entry.version));
    }
}
