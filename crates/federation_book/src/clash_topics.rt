//! Topics that are made of clashes.
ghost use Rattle.std.specs.Prelude.{◌≡◌, ◌≤◌, ◌∷◌, [], length, IfSome, IfOk, OnErr};
ghost use Rattle.book_history.specs.Projects.{clash_at};
ghost use Rattle.book_history.specs.History.{version_of, content_of, IsBefore};
ghost use Rattle.book_history.specs.Refusals.{no_clash};
ghost use Rattle.book_history.specs.Requests.{unless, noted, outcome_of};
ghost use Rattle.federation_book.specs.KeptProjects.{IsKept, settings_of};
ghost use Rattle.federation_book.specs.inner.Done.{IsDone};
ghost use Rattle.federation_book.specs.inner.Noting.{AreGuids};

use crate::noting::note;
use crate::project_reads::read_clashes;
use crate::state::State;
use bcf_topics::Author;
use bim_model::Guid;
use book_history::{BookFault, BookRequest, Change, ReplyBody, Stamp, Wanted};
use clash_publish::Published;
use std::alloc::AllocError;

// The elements of the clash at a place of a version.
fn clash_at(published: &Published, place: u64) -> Option<(Guid, Guid)>
    ensures is { result ≡ clash_at published.now place }
    ensures good { IfSome result AreGuids }
{
    match published.pair(place) {
        Some(pair) => Some((
            published.element(pair.a).guid,
            published.element(pair.b).guid,
        )),
        None => None,
    }
}

// The same of a version whose clashes are these.
fn note_clash(
    state: &mut State,
    stamp: Stamp,
    number: u32,
    version: u64,
    published: &Published,
    place: u64,
    author: Author,
    weight: u64,
) -> Result<ReplyBody, AllocError>
    requires kept { IsKept state.old }
    requires after { IsBefore stamp.turn state.old.entries.items }
    requires low { 1 ≤ number }
    requires high { number ≤ length state.old.projects.items }
    requires published { published.now ≡ content_of number version state.old.entries.items }
    ensures done { let h = state.old.entries.items in
        IfOk result (IsDone h state.new.entries.items stamp
        (unless (no_clash (version_of number version h) place ∷ [])
        (noted (settings_of state.old) h number (Change.ClashTopic version place author weight)))) }
    ensures settings { settings_of state.new ≡ settings_of state.old }
    ensures kept { IsKept state.new }
    ensures err { OnErr result (state.new.entries.items ≡ state.old.entries.items) }
{
    let Some(pair) = clash_at(published, place) else {
        let total = published.total();
        return Ok(ReplyBody::Refused(BookFault::NoClash { place, total }));
    };
    let change = Change::ClashTopic {
        version,
        place,
        author,
        weight,
    };
    note(state, number, stamp, change, Some(pair), weight)
}

/// Makes a topic of a clash and its viewpoint, unless something is full. An `Err` leaves all as it was.
pub fn clash_topic(
    state: &mut State,
    stamp: Stamp,
    project: u128,
    wanted: Wanted,
    place: u64,
    author: Author,
    weight: u64,
) -> Result<ReplyBody, AllocError>
    requires kept { IsKept state.old }
    requires after { IsBefore stamp.turn state.old.entries.items }
    ensures done { IfOk result (IsDone state.old.entries.items state.new.entries.items stamp
        (outcome_of (settings_of state.old) state.old.entries.items
        (BookRequest.ClashTopic project wanted place author weight))) }
    ensures settings { settings_of state.new ≡ settings_of state.old }
    ensures kept { IsKept state.new }
    ensures err { OnErr result (state.new.entries.items ≡ state.old.entries.items) }
{
    let Some(number) = state.number_of(project) else {
        return Ok(ReplyBody::Refused(BookFault::NoProject));
    };
    let read = read_clashes(state, Some(number), wanted, place, 1)?;
    match read {
        ReplyBody::Clashes { version, set, .. } => note_clash(
            state,
            stamp,
            number,
            version,
            set.get(),
            place,
            author,
            weight,
        ),
        refused => Ok(refused),
    }
}
