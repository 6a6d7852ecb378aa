//! Topics.
ghost use Rattle.std.specs.Prelude.{◌≡◌, IfOk, OnErr};
ghost use Rattle.book_history.specs.History.{IsBefore};
ghost use Rattle.book_history.specs.Requests.{outcome_of};
ghost use Rattle.federation_book.specs.KeptProjects.{IsKept, settings_of};
ghost use Rattle.federation_book.specs.inner.Done.{IsDone, IsTold};

use crate::noting::note;
use crate::state::State;
use bcf_topics::{Author, TopicBody};
use bim_model::Duplicate;
use book_history::{BookFault, BookRequest, Change, ReplyBody, Stamp};
use std::alloc::AllocError;

/// The topics of a project.
pub fn list_topics(state: &State, project: u128) -> Result<ReplyBody, AllocError>
    requires { IsKept state.now }
    ensures { IfOk result (IsTold state.now.entries.items
        (outcome_of (settings_of state.now) state.now.entries.items
        (BookRequest.ListTopics project))) }
{
    let Some(number) = state.number_of(project) else {
        return Ok(ReplyBody::Refused(BookFault::NoProject));
    };
    let alloc = *state.entries.allocator();
    let board = state.board(number);
    let topics = board.topics(alloc)?;
    Ok(ReplyBody::TopicList(topics))
}

/// A topic.
pub fn read_topic(state: &State, project: u128, topic: u128) -> Result<ReplyBody, AllocError>
    requires { IsKept state.now }
    ensures { IfOk result (IsTold state.now.entries.items
        (outcome_of (settings_of state.now) state.now.entries.items
        (BookRequest.ReadTopic project topic))) }
{
    let Some(number) = state.number_of(project) else {
        return Ok(ReplyBody::Refused(BookFault::NoProject));
    };
    let board = state.board(number);
    let Some(serial) = board.topic_named(number, topic) else {
        return Ok(ReplyBody::Refused(BookFault::NoTopic));
    };
    let alloc = *state.entries.allocator();
    match board.topic(serial) {
        Some(topic) => Ok(ReplyBody::TopicIs(topic.copy(alloc)?)),
        None => Ok(ReplyBody::Gone),
    }
}

/// Makes a topic, unless something is full. An `Err` leaves all as it was.
pub fn post_topic(
    state: &mut State,
    stamp: Stamp,
    project: u128,
    body: TopicBody,
    author: Author,
    weight: u64,
) -> Result<ReplyBody, AllocError>
    requires kept { IsKept state.old }
    requires after { IsBefore stamp.turn state.old.entries.items }
    ensures done { IfOk result (IsDone state.old.entries.items state.new.entries.items stamp
        (outcome_of (settings_of state.old) state.old.entries.items
        (BookRequest.PostTopic project body author weight))) }
    ensures settings { settings_of state.new ≡ settings_of state.old }
    ensures kept { IsKept state.new }
    ensures err { OnErr result (state.new.entries.items ≡ state.old.entries.items) }
{
    let Some(number) = state.number_of(project) else {
        return Ok(ReplyBody::Refused(BookFault::NoProject));
    };
    let change = Change::PostTopic {
        body,
        author,
        weight,
    };
    note(state, number, stamp, change, None, weight)
}

/// Puts another body in the place of a topic's. An `Err` leaves all as it was.
pub fn put_topic(
    state: &mut State,
    stamp: Stamp,
    project: u128,
    topic: u128,
    body: TopicBody,
    author: Author,
    weight: u64,
) -> Result<ReplyBody, AllocError>
    requires kept { IsKept state.old }
    requires after { IsBefore stamp.turn state.old.entries.items }
    ensures done { IfOk result (IsDone state.old.entries.items state.new.entries.items stamp
        (outcome_of (settings_of state.old) state.old.entries.items
        (BookRequest.PutTopic project topic body author weight))) }
    ensures settings { settings_of state.new ≡ settings_of state.old }
    ensures kept { IsKept state.new }
    ensures err { OnErr result (state.new.entries.items ≡ state.old.entries.items) }
{
    let Some(number) = state.number_of(project) else {
        return Ok(ReplyBody::Refused(BookFault::NoProject));
    };
    let board = state.board(number);
    let Some(topic) = board.topic_named(number, topic) else {
        return Ok(ReplyBody::Refused(BookFault::NoTopic));
    };
    let change = Change::PutTopic {
        topic,
        body,
        author,
        weight,
    };
    note(state, number, stamp, change, None, weight)
}

/// Deletes a topic with its comments and viewpoints. An `Err` leaves all as it was.
pub fn delete_topic(
    state: &mut State,
    stamp: Stamp,
    project: u128,
    topic: u128,
) -> Result<ReplyBody, AllocError>
    requires kept { IsKept state.old }
    requires after { IsBefore stamp.turn state.old.entries.items }
    ensures done { IfOk result (IsDone state.old.entries.items state.new.entries.items stamp
        (outcome_of (settings_of state.old) state.old.entries.items
        (BookRequest.DeleteTopic project topic))) }
    ensures settings { settings_of state.new ≡ settings_of state.old }
    ensures kept { IsKept state.new }
    ensures err { OnErr result (state.new.entries.items ≡ state.old.entries.items) }
{
    let Some(number) = state.number_of(project) else {
        return Ok(ReplyBody::Refused(BookFault::NoProject));
    };
    let board = state.board(number);
    let Some(topic) = board.topic_named(number, topic) else {
        return Ok(ReplyBody::Refused(BookFault::NoTopic));
    };
    note(state, number, stamp, Change::DeleteTopic { topic }, None, 0)
}
