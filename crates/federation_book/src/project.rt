//! What the book keeps of each project.
ghost use Rattle.std.specs.Prelude.{◌≡◌, ◌≤◌, ◌<◌, ◌+◌, ◌-◌, ◌^◌, ◌++◌, ◌∷◌, [], ℕ, length, drop, slice_index_or, vec_len, vec_capacity, IfOk};
ghost use Rattle.clash_publish.specs.declared.horizon.TheConstants.{LIVE_VERSIONS};
ghost use Rattle.book_history.specs.Versions.{VersionState, live_in};
ghost use Rattle.book_history.specs.Projects.{untouched};
ghost use Rattle.book_history.specs.History.{left_in};
ghost use Rattle.book_history.specs.Weights.{told};
ghost use Rattle.federation_book.specs.KeptProjects.{KeepsProject};

use crate::version::KeptVersion;
use book_topics::Board;
use clash_publish::LIVE_VERSIONS;
use std::alloc::{AllocError, Global};

/// What follows of the journal for a project.
#[derive(Drop)]
pub struct Project {
    /// Its topics, comments and viewpoints.
    pub board: Board,
    /// The number of its newest version.
    pub newest: u64,
    /// Its last sixteen versions, oldest first.
    pub live: Vec<KeptVersion>,
}

/// How many buckets of some versions are to be checked, or the greatest number.
pub fn left_in(versions: &[KeptVersion]) -> u64
    ensures { result ≡ told (left_in versions.now) }
{
    let mut left = 0_u64;
    for version in versions {
        left = left.saturating_add(version.left());
    }
    left
}

// Lets the first of seventeen versions go.
fn keep_sixteen(versions: &mut Vec<KeptVersion>)
    requires { length versions.old.items ≤ 17 }
    ensures { versions.new.items ≡ live_in versions.old.items }
{
    if versions.len() > LIVE_VERSIONS as usize {
        versions.remove(0);
    }
}

impl Project {
    /// A project of which nothing was changed yet.
    pub fn new(alloc: Global) -> Result<Project, AllocError>
        ensures { IfOk result (λ made. KeepsProject made untouched) }
    {
        let mut live = Vec::new(alloc);
        live.push(KeptVersion::nothing(alloc)?)?;
        Ok(Project {
            board: Board::new(alloc),
            newest: 0,
            live,
        })
    }

    /// Its newest version, lent.
    pub fn newest_version(&self) -> &KeptVersion
        requires { 0 < length self.now.live.items }
        ensures { (d : VersionState) → result.now
            ≡ slice_index_or self.now.live.items (length self.now.live.items - 1) d }
    {
        &self.live[self.live.len() - 1]
    }

    /// How many buckets of live versions are to be checked, if another version were made of which so many are.
    pub fn left_with(&self, left: u64) -> u64
        requires { 0 < length self.now.live.items }
        ensures { let live = self.now.live.items in
            result ≡ told (left_in (drop (length live + 1 - LIVE_VERSIONS) live) + left) }
    {
        let live = self.live.as_slice();
        if live.len() < LIVE_VERSIONS as usize {
            left_in(live).saturating_add(left)
        } else {
            left_in(&live[live.len() - 15..]).saturating_add(left)
        }
    }

    /// Adds a version, for which there is room, and lets the oldest go where there are sixteen.
    pub fn push_version(&mut self, version: KeptVersion)
        requires room { vec_len self.old.live < vec_capacity self.old.live }
        requires few { length self.old.live.items ≤ LIVE_VERSIONS }
        requires number { self.old.newest + 1 < 2 ^ 64 }
        ensures live { self.new.live.items ≡ live_in (self.old.live.items ++ version ∷ []) }
        ensures newest { self.new.newest ≡ self.old.newest + 1 }
        ensures board { self.new.board ≡ self.old.board }
    {
        self.live.push_reserved(version);
        keep_sixteen(&mut self.live);
        self.newest += 1;
    }
}
