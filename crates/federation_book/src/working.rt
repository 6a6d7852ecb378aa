//! Buckets that are given out to be checked, and brought back.
ghost use Rattle.std.specs.Prelude.{◌≡◌, ◌↔◌, ◌≤◌, ◌<◌, ◌+◌, ◌-◌, ◌++◌, length, slice_index_or, IsTrue, IfOk, OnOk, OnErr};
ghost use Rattle.book_turn.specs.Entries.{listed};
ghost use Rattle.clash_publish.specs.declared.horizon.TheConstants.{LIVE_VERSIONS};
ghost use Rattle.book_history.specs.Orders.{OrderValue};
ghost use Rattle.book_history.specs.History.{left_in, IsBefore};
ghost use Rattle.book_history.specs.Requests.{orders_from, all_orders, order_for, finished, body_of, entry_by};
ghost use Rattle.book_history.specs.Legal.{IsGiven};
ghost use Rattle.book_history.specs.AcceptedChanges.{IsWorkOf};
ghost use Rattle.federation_book.specs.KeptProjects.{IsKept, settings_of};

use crate::project::{Project, left_in};
use crate::project_reads::{dropped, place_of};
use crate::state::State;
use crate::version::know_grid;
use bim_model::{Shared, know};
use book_history::{BookFault, Change, Entry, LIVE_VERSIONS, ReplyBody, Stamp, WorkOrder};
use bucket_check::BucketSet;
use bucket_grid::Cell;
use std::alloc::AllocError;

// The order for the bucket at a place among those of a project that are to be checked, by falling version and
// rising cell.
fn order_in(project: &Project, number: u32, place: u64) -> Result<WorkOrder, AllocError>
    requires few { length project.now.live.items ≤ project.now.newest + 1 }
    requires place { place < left_in project.now.live.items }
    ensures { (d : OrderValue) → IfOk result (λ order. order ≡ slice_index_or
        (orders_from number (project.now.newest + 1 - length project.now.live.items) project.now.live.items) place d) }
{
    let mut place = place;
    for step in 0..project.live.len() {
        let version = &project.live[project.live.len() - 1 - step];
        match version.order(number, project.newest - step as u64, place)? {
            Some(order) => return Ok(order),
            None => place -= version.left(),
        }
    }
    unreachable!()
}

/// Gives a bucket out, the one that the seat is given.
pub fn take_work(state: &State, seat: u32) -> Result<ReplyBody, AllocError>
    requires { IsKept state.now }
    ensures { let outcome = order_for
        (all_orders (length state.now.projects.items) state.now.entries.items) seat in
        IfOk result (λ body. body ≡ body_of state.now.entries.items outcome) }
{
    let total = state.left_all();
    if total == 0 {
        return Ok(ReplyBody::Refused(BookFault::NoWork));
    }
    let mut place = seat as u64 % total;
    for index in 0..state.projects.len() {
        let project = &state.projects[index];
        let left = left_in(&project.live);
        if place < left {
            let order = order_in(project, index as u32 + 1, place)?;
            return Ok(ReplyBody::Work(order));
        }
        place -= left;
    }
    unreachable!()
}

// Whether a version of the number is one of the last sixteen.
fn is_live(project: &Project, version: u64) -> bool
    ensures { IsTrue result
        ↔ (version ≤ project.now.newest) × (project.now.newest < version + LIVE_VERSIONS) }
{
    version <= project.newest && project.newest - version < LIVE_VERSIONS
}

/// The bucket of a cell of a live version, whether it is checked or not.
pub fn work_of(
    state: &State,
    number: u32,
    version: u64,
    cell: Cell,
) -> Result<Option<WorkOrder>, AllocError>
    requires { IsKept state.now }
    ensures { IfOk result (IsWorkOf (settings_of state.now) state.now.entries.items number version cell) }
{
    if number == 0 {
        return Ok(None);
    }
    if number as usize > state.projects.len() {
        return Ok(None);
    }
    let project = state.project(number);
    if !is_live(project, version) {
        return Ok(None);
    }
    project.live[place_of(project, version)].order_at(number, version, cell)
}

/// Takes the clashes of a bucket.
pub fn finish(
    state: &mut State,
    stamp: Stamp,
    set: Shared<BucketSet>,
) -> Result<ReplyBody, AllocError>
    requires kept { IsKept state.old }
    requires after { IsBefore stamp.turn state.old.entries.items }
    requires given { IsGiven (settings_of state.old) state.old.entries.items set.work }
    ensures reply { let outcome = finished state.old.entries.items set in
        IfOk result (λ body. body ≡ body_of state.old.entries.items outcome) }
    ensures added { let outcome = finished state.old.entries.items set in
        OnOk result (state.new.entries.items ≡ state.old.entries.items ++ listed (entry_by stamp outcome)) }
    ensures settings { settings_of state.new ≡ settings_of state.old }
    ensures kept { IsKept state.new }
    ensures err { OnErr result (state.new.entries.items ≡ state.old.entries.items) }
{
    let work = set.get().work();
    know_grid(work.grid.get());
    let (number, version, cell) = (work.project, work.version, work.cell);
    let project = state.project(number);
    if let Some(fault) = dropped(project, version) {
        return Ok(ReplyBody::Refused(fault));
    }
    let place = place_of(project, version);
    if project.live[place].is_done(cell) {
        return Ok(ReplyBody::Refused(BookFault::AlreadyDone));
    }
    state.entries.reserve(1)?;
    let project = &mut state.projects[number as usize - 1];
    let left = project.live[place].put(set);
    let entry = Entry {
        stamp,
        project: number,
        change: Change::BucketDone { version, cell },
    };
    know(state.triangles);
    know(state.text);
    state.append(entry, 0, 0);
    Ok(ReplyBody::Finished { left })
}
