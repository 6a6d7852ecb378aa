//! A version as the book keeps it.
ghost use Rattle.std.specs.Prelude.{◌≡◌, ◌≤◌, true, false, IfOk, MatchOption, length, map, slice_get, option_map, []};
ghost use Rattle.bim_model.specs.Keys.{subjects_of};
ghost use Rattle.bucket_grid.specs.Cells.{IsBucket};
ghost use Rattle.bucket_grid.specs.declared.cell.Cell.{Cell};
ghost use Rattle.book_history.specs.Buckets.{buckets_of, is_among};
ghost use Rattle.book_history.specs.Orders.{OrderValue};
ghost use Rattle.book_history.specs.Versions.{nothing, is_done, with_done, made_after};
ghost use Rattle.book_history.specs.Requests.{order_at};
ghost use Rattle.book_history.specs.HistoryLaws.{IsWhole};
ghost use Rattle.book_history.proofs.OneGrid.{HasParts};

use bim_model::{Rules, Shared, Snapshot, know};
use book_history::WorkOrder;
use bucket_check::{BucketSet, BucketWork};
use bucket_grid::{Cell, Grid, GridError};
use clash_delta::{Progress, carry};
use clash_publish::Published;
use std::alloc::{AllocError, Global};
use std::marker::Model;

/// A version: what it holds, its grid, how far its buckets are checked, and its clashes once someone asked for
/// them. Contracts see what it holds, and the buckets that are still to be checked.
#[derive(Drop)]
pub struct KeptVersion {
    snapshot: Shared<Snapshot>,
    grid: Shared<Grid>,
    progress: Progress,
    published: Option<Shared<Published>>,
}

impl Model for KeptVersion {
    ghost use Rattle.std.specs.Prelude.{◌≡◌, IfSome};
    ghost use Rattle.bim_model.specs.Snapshots.{Version};
    ghost use Rattle.clash_delta.specs.BucketProgress.{undone_cells, IsOf};
    ghost use Rattle.book_history.specs.Versions.{VersionState};

    ghost Value = { VersionState };

    ghost view = { λ v. record { content = v.snapshot; undone = undone_cells v.progress } };

    ghost invariant = { λ v. (v.grid.version ≡ v.snapshot) × IsOf v.grid v.progress
        × IfSome v.published (λ (p : Version). p ≡ v.snapshot) };
}

/// What is known of every grid: all that it holds is that of its version.
pub fn know_whole(grid: &Grid)
    ensures { IsWhole grid.now }
{
    know(grid.models());
    know(grid.places());
    know(grid.boxes());
    know(grid.buckets());
    know(grid.memberships());
}

/// What is known of every grid.
pub fn know_grid(grid: &Grid)
    ensures { HasParts grid.now }
{
    know(grid.models());
    know(grid.places());
    know(grid.boxes());
    know(grid.buckets());
}

// The grid of no models.
fn empty_grid(alloc: Global, snapshot: Shared<Snapshot>) -> Result<Grid, AllocError>
    requires { snapshot ≡ nothing.content }
    ensures version { IfOk result (λ grid. grid.version ≡ snapshot) }
    ensures buckets { IfOk result (λ grid. grid.buckets ≡ []) }
{
    match Grid::of(alloc, snapshot) {
        Ok(grid) => {
            know_grid(&grid);
            Ok(grid)
        }
        Err(GridError::TooSpread { .. }) => unreachable!(),
        Err(GridError::Memory) => Err(AllocError),
    }
}

impl KeptVersion {
    /// Version 0 of a project: no models, no rules.
    pub fn nothing(alloc: Global) -> Result<KeptVersion, AllocError>
        ensures { IfOk result (λ made. made ≡ nothing) }
    {
        let rules = Shared::new(alloc, Rules::new(alloc))?;
        let snapshot = Shared::new(alloc, Snapshot::new(alloc, rules))?;
        let grid = Shared::new(alloc, empty_grid(alloc, snapshot.share()?)?)?;
        let progress = Progress::fresh(alloc, grid.get())?;
        Ok(KeptVersion {
            snapshot,
            grid,
            progress,
            published: None,
        })
    }

    /// The version made after this one, of that number, with this grid. Buckets that are checked here and don't
    /// change are checked there.
    pub fn next(
        &self,
        alloc: Global,
        number: u64,
        snapshot: Shared<Snapshot>,
        grid: Grid,
    ) -> Result<KeptVersion, AllocError>
        requires { grid.version ≡ snapshot }
        ensures { IfOk result (λ made. made ≡ made_after self.now snapshot) }
    {
        let grid = Shared::new(alloc, grid)?;
        know_grid(self.grid.get());
        know_grid(grid.get());
        let progress = carry(alloc, &self.progress, self.grid.get(), &grid, number)?;
        Ok(KeptVersion {
            snapshot,
            grid,
            progress,
            published: None,
        })
    }

    /// What it holds, lent.
    pub fn snapshot(&self) -> &Shared<Snapshot>
        ensures { result.now ≡ self.now.content }
    {
        &self.snapshot
    }

    /// How many buckets are to be checked.
    pub fn left(&self) -> u64
        ensures { result ≡ length self.now.undone }
    {
        self.progress.left()
    }

    /// Whether the cell is that of a bucket that is checked.
    pub fn is_done(&self, cell: Cell) -> bool
        ensures { result ≡ is_done self.now cell }
    {
        know_grid(self.grid.get());
        self.progress.is_done(cell)
    }

    /// The order for the bucket at a place, from 0, among those that are to be checked, by rising cell. None past
    /// the last.
    pub fn order(
        &self,
        project: u32,
        version: u64,
        place: u64,
    ) -> Result<Option<WorkOrder>, AllocError>
        ensures { IfOk result (λ order. order
            ≡ option_map (order_at project version self.now.content) (slice_get self.now.undone place)) }
    {
        know_grid(self.grid.get());
        match self.progress.undone(place) {
            Some(cell) => Ok(Some(WorkOrder::of(BucketWork {
                project,
                version,
                cell,
                grid: self.grid.share()?,
            }))),
            None => Ok(None),
        }
    }

    /// The order for the bucket of a cell, whether it is checked or not. None where the cell is no bucket.
    pub fn order_at(
        &self,
        project: u32,
        version: u64,
        cell: Cell,
    ) -> Result<Option<WorkOrder>, AllocError>
        ensures { let there = is_among (buckets_of self.now.content) cell in
            IfOk result (λ order. MatchOption order (there ≡ false)
            (λ o. (there ≡ true) × (o ≡ order_at project version self.now.content cell))) }
    {
        know_grid(self.grid.get());
        if !self.progress.is_bucket(cell) {
            return Ok(None);
        }
        Ok(Some(WorkOrder::of(BucketWork {
            project,
            version,
            cell,
            grid: self.grid.share()?,
        })))
    }

    /// Takes the set of a bucket, and says how many are to be checked then.
    pub fn put(&mut self, set: Shared<BucketSet>) -> u64
        requires content { set.work.grid.version ≡ self.old.content }
        requires bucket { IsBucket set.work.grid.boxes set.work.cell }
        ensures done { self.new ≡ with_done set.work.cell self.old }
        ensures left { result ≡ length self.new.undone }
    {
        know_grid(self.grid.get());
        know_grid(set.get().work().grid.get());
        let _answer = self.progress.put(set);
        self.progress.left()
    }

    /// Its clashes. They are put together where someone asks for the first time, and kept from then on.
    pub fn clashes(&mut self, alloc: Global) -> Result<Shared<Published>, AllocError>
        requires { length self.old.undone ≡ 0 }
        ensures set { IfOk result (λ set. set ≡ self.old.content) }
        ensures same { self.new ≡ self.old }
    {
        if let Some(set) = &self.published {
            return set.share();
        }
        let sets = self.progress.sets(alloc)?;
        let made = Published::of(alloc, self.grid.share()?, &sets)?;
        let set = Shared::new(alloc, made)?;
        self.published = Some(set.share()?);
        Ok(set)
    }
}
