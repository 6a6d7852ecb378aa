//! Viewpoints.
ghost use Rattle.std.specs.Prelude.{◌≡◌, IfOk, OnErr};
ghost use Rattle.book_history.specs.History.{IsBefore};
ghost use Rattle.book_history.specs.Requests.{outcome_of};
ghost use Rattle.federation_book.specs.KeptProjects.{IsKept, settings_of};
ghost use Rattle.federation_book.specs.inner.Done.{IsDone, IsTold};

use crate::noting::note;
use crate::state::State;
use bcf_viewpoints::CheckedBody;
use book_history::{BookFault, BookRequest, Change, ReplyBody, Stamp};
use std::alloc::AllocError;

/// The viewpoints of a topic.
pub fn list_views(state: &State, project: u128, topic: u128) -> Result<ReplyBody, AllocError>
    requires { IsKept state.now }
    ensures { IfOk result (IsTold state.now.entries.items
        (outcome_of (settings_of state.now) state.now.entries.items
        (BookRequest.ListViews project topic))) }
{
    let Some(number) = state.number_of(project) else {
        return Ok(ReplyBody::Refused(BookFault::NoProject));
    };
    let board = state.board(number);
    let Some(topic) = board.topic_named(number, topic) else {
        return Ok(ReplyBody::Refused(BookFault::NoTopic));
    };
    let views = board.views(topic)?;
    Ok(ReplyBody::ViewList(views))
}

/// A viewpoint.
pub fn read_view(
    state: &State,
    project: u128,
    topic: u128,
    view: u128,
) -> Result<ReplyBody, AllocError>
    requires { IsKept state.now }
    ensures { IfOk result (IsTold state.now.entries.items
        (outcome_of (settings_of state.now) state.now.entries.items
        (BookRequest.ReadView project topic view))) }
{
    let Some(number) = state.number_of(project) else {
        return Ok(ReplyBody::Refused(BookFault::NoProject));
    };
    let board = state.board(number);
    let Some(topic) = board.topic_named(number, topic) else {
        return Ok(ReplyBody::Refused(BookFault::NoTopic));
    };
    let Some(serial) = board.view_named(number, topic, view) else {
        return Ok(ReplyBody::Refused(BookFault::NoViewpoint));
    };
    let alloc = *state.entries.allocator();
    let found = board.view(alloc, topic, serial)?;
    match found {
        Some(view) => Ok(ReplyBody::View(view)),
        None => Ok(ReplyBody::Gone),
    }
}

/// Makes a viewpoint, unless something is full. An `Err` leaves all as it was.
pub fn post_view(
    state: &mut State,
    stamp: Stamp,
    project: u128,
    topic: u128,
    body: CheckedBody,
    weight: u64,
) -> Result<ReplyBody, AllocError>
    requires kept { IsKept state.old }
    requires after { IsBefore stamp.turn state.old.entries.items }
    ensures done { IfOk result (IsDone state.old.entries.items state.new.entries.items stamp
        (outcome_of (settings_of state.old) state.old.entries.items
        (BookRequest.PostView project topic body weight))) }
    ensures settings { settings_of state.new ≡ settings_of state.old }
    ensures kept { IsKept state.new }
    ensures err { OnErr result (state.new.entries.items ≡ state.old.entries.items) }
{
    let Some(number) = state.number_of(project) else {
        return Ok(ReplyBody::Refused(BookFault::NoProject));
    };
    let board = state.board(number);
    let Some(topic) = board.topic_named(number, topic) else {
        return Ok(ReplyBody::Refused(BookFault::NoTopic));
    };
    let change = Change::PostView {
        topic,
        body,
        weight,
    };
    note(state, number, stamp, change, None, weight)
}

/// Deletes a viewpoint. An `Err` leaves all as it was.
pub fn delete_view(
    state: &mut State,
    stamp: Stamp,
    project: u128,
    topic: u128,
    view: u128,
) -> Result<ReplyBody, AllocError>
    requires kept { IsKept state.old }
    requires after { IsBefore stamp.turn state.old.entries.items }
    ensures done { IfOk result (IsDone state.old.entries.items state.new.entries.items stamp
        (outcome_of (settings_of state.old) state.old.entries.items
        (BookRequest.DeleteView project topic view))) }
    ensures settings { settings_of state.new ≡ settings_of state.old }
    ensures kept { IsKept state.new }
    ensures err { OnErr result (state.new.entries.items ≡ state.old.entries.items) }
{
    let Some(number) = state.number_of(project) else {
        return Ok(ReplyBody::Refused(BookFault::NoProject));
    };
    let board = state.board(number);
    let Some(topic) = board.topic_named(number, topic) else {
        return Ok(ReplyBody::Refused(BookFault::NoTopic));
    };
    let Some(view) = board.view_named(number, topic, view) else {
        return Ok(ReplyBody::Refused(BookFault::NoViewpoint));
    };
    let change = Change::DeleteView { topic, view };
    note(state, number, stamp, change, None, 0)
}
