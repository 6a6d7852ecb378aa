//! Comments.
ghost use Rattle.std.specs.Prelude.{◌≡◌, IfOk, OnErr};
ghost use Rattle.book_history.specs.History.{IsBefore};
ghost use Rattle.book_history.specs.Requests.{outcome_of};
ghost use Rattle.federation_book.specs.KeptProjects.{IsKept, settings_of};
ghost use Rattle.federation_book.specs.inner.Done.{IsDone, IsTold};

use crate::noting::note;
use crate::state::State;
use bcf_topics::{Author, CommentIn};
use bim_model::Duplicate;
use book_history::{BookFault, BookRequest, Change, ReplyBody, Stamp};
use std::alloc::AllocError;

/// The comments on a topic.
pub fn list_comments(state: &State, project: u128, topic: u128) -> Result<ReplyBody, AllocError>
    requires { IsKept state.now }
    ensures { IfOk result (IsTold state.now.entries.items
        (outcome_of (settings_of state.now) state.now.entries.items
        (BookRequest.ListComments project topic))) }
{
    let Some(number) = state.number_of(project) else {
        return Ok(ReplyBody::Refused(BookFault::NoProject));
    };
    let board = state.board(number);
    let Some(topic) = board.topic_named(number, topic) else {
        return Ok(ReplyBody::Refused(BookFault::NoTopic));
    };
    let alloc = *state.entries.allocator();
    let comments = board.comments(alloc, topic)?;
    Ok(ReplyBody::CommentList(comments))
}

/// A comment.
pub fn read_comment(
    state: &State,
    project: u128,
    topic: u128,
    comment: u128,
) -> Result<ReplyBody, AllocError>
    requires { IsKept state.now }
    ensures { IfOk result (IsTold state.now.entries.items
        (outcome_of (settings_of state.now) state.now.entries.items
        (BookRequest.ReadComment project topic comment))) }
{
    let Some(number) = state.number_of(project) else {
        return Ok(ReplyBody::Refused(BookFault::NoProject));
    };
    let board = state.board(number);
    let Some(topic) = board.topic_named(number, topic) else {
        return Ok(ReplyBody::Refused(BookFault::NoTopic));
    };
    let Some(serial) = board.comment_named(number, topic, comment) else {
        return Ok(ReplyBody::Refused(BookFault::NoComment));
    };
    let alloc = *state.entries.allocator();
    match board.comment(topic, serial) {
        Some(comment) => Ok(ReplyBody::CommentIs(comment.copy(alloc)?)),
        None => Ok(ReplyBody::Gone),
    }
}

/// Makes a comment, unless something is full. An `Err` leaves all as it was.
pub fn post_comment(
    state: &mut State,
    stamp: Stamp,
    project: u128,
    topic: u128,
    body: CommentIn,
    author: Author,
    weight: u64,
) -> Result<ReplyBody, AllocError>
    requires kept { IsKept state.old }
    requires after { IsBefore stamp.turn state.old.entries.items }
    ensures done { IfOk result (IsDone state.old.entries.items state.new.entries.items stamp
        (outcome_of (settings_of state.old) state.old.entries.items
        (BookRequest.PostComment project topic body author weight))) }
    ensures settings { settings_of state.new ≡ settings_of state.old }
    ensures kept { IsKept state.new }
    ensures err { OnErr result (state.new.entries.items ≡ state.old.entries.items) }
{
    let Some(number) = state.number_of(project) else {
        return Ok(ReplyBody::Refused(BookFault::NoProject));
    };
    let board = state.board(number);
    let Some(topic) = board.topic_named(number, topic) else {
        return Ok(ReplyBody::Refused(BookFault::NoTopic));
    };
    let Some(body) = board.comment_kept(number, topic, body) else {
        return Ok(ReplyBody::Refused(BookFault::NoViewpoint));
    };
    let change = Change::PostComment {
        topic,
        body,
        author,
        weight,
    };
    note(state, number, stamp, change, None, weight)
}

/// Puts another body in the place of a comment's. An `Err` leaves all as it was.
pub fn put_comment(
    state: &mut State,
    stamp: Stamp,
    project: u128,
    topic: u128,
    comment: u128,
    body: CommentIn,
    author: Author,
    weight: u64,
) -> Result<ReplyBody, AllocError>
    requires kept { IsKept state.old }
    requires after { IsBefore stamp.turn state.old.entries.items }
    ensures done { IfOk result (IsDone state.old.entries.items state.new.entries.items stamp
        (outcome_of (settings_of state.old) state.old.entries.items
        (BookRequest.PutComment project topic comment body author weight))) }
    ensures settings { settings_of state.new ≡ settings_of state.old }
    ensures kept { IsKept state.new }
    ensures err { OnErr result (state.new.entries.items ≡ state.old.entries.items) }
{
    let Some(number) = state.number_of(project) else {
        return Ok(ReplyBody::Refused(BookFault::NoProject));
    };
    let board = state.board(number);
    let Some(topic) = board.topic_named(number, topic) else {
        return Ok(ReplyBody::Refused(BookFault::NoTopic));
    };
    let Some(comment) = board.comment_named(number, topic, comment) else {
        return Ok(ReplyBody::Refused(BookFault::NoComment));
    };
    let Some(body) = board.comment_kept(number, topic, body) else {
        return Ok(ReplyBody::Refused(BookFault::NoViewpoint));
    };
    let change = Change::PutComment {
        topic,
        comment,
        body,
        author,
        weight,
    };
    note(state, number, stamp, change, None, weight)
}

/// Deletes a comment. An `Err` leaves all as it was.
pub fn delete_comment(
    state: &mut State,
    stamp: Stamp,
    project: u128,
    topic: u128,
    comment: u128,
) -> Result<ReplyBody, AllocError>
    requires kept { IsKept state.old }
    requires after { IsBefore stamp.turn state.old.entries.items }
    ensures done { IfOk result (IsDone state.old.entries.items state.new.entries.items stamp
        (outcome_of (settings_of state.old) state.old.entries.items
        (BookRequest.DeleteComment project topic comment))) }
    ensures settings { settings_of state.new ≡ settings_of state.old }
    ensures kept { IsKept state.new }
    ensures err { OnErr result (state.new.entries.items ≡ state.old.entries.items) }
{
    let Some(number) = state.number_of(project) else {
        return Ok(ReplyBody::Refused(BookFault::NoProject));
    };
    let board = state.board(number);
    let Some(topic) = board.topic_named(number, topic) else {
        return Ok(ReplyBody::Refused(BookFault::NoTopic));
    };
    let Some(comment) = board.comment_named(number, topic, comment) else {
        return Ok(ReplyBody::Refused(BookFault::NoComment));
    };
    let change = Change::DeleteComment { topic, comment };
    note(state, number, stamp, change, None, 0)
}
