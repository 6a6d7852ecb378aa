//! Changes of topics, comments and viewpoints.
ghost use Rattle.std.specs.Prelude.{◌≡◌, ◌≤◌, ◌<◌, ◌+◌, ◌^◌, length, IfOk, OnErr};
ghost use Rattle.book_history.specs.History.{state_of, board_of, IsBefore};
ghost use Rattle.book_history.specs.Weights.{text_of};
ghost use Rattle.book_history.specs.Refusals.{first_of, not_noted};
ghost use Rattle.book_history.specs.Requests.{noted};
ghost use Rattle.federation_book.specs.KeptProjects.{IsKept, settings_of};
ghost use Rattle.federation_book.specs.inner.Done.{IsDone};
ghost use Rattle.federation_book.specs.inner.Noting.{clash_of, IsNote, IsFurther, Fits, IsApplied};

use crate::project::left_in;
use crate::state::State;
use bim_model::Guid;
use book_history::{BookFault, Change, Entry, ReplyBody, Stamp};
use book_topics::Board;
use std::alloc::{AllocError, Global};
use std::mem::drop;

// Makes a change of topics, or of what else a board has. The two elements are those of the clash of which a topic is
// made. An `Err` leaves all as it was.
fn apply(
    board: &mut Board,
    alloc: Global,
    change: &Change,
    pair: Option<(Guid, Guid)>,
) -> Result<ReplyBody, AllocError>
    requires fits { Fits board.old pair change.now }
    requires room { board.old.made + 2 < 2 ^ 48 }
    ensures ok { IfOk result (IsApplied pair change.now board.old board.new) }
    ensures err { OnErr result (board.new ≡ board.old) }
{
    match change {
        Change::PostTopic { body, author, .. } => {
            let made = board.post_topic(alloc, body, author)?;
            Ok(ReplyBody::TopicIs(made))
        }
        Change::PutTopic {
            topic,
            body,
            author,
            ..
        } => {
            let put = board.put_topic(alloc, *topic, body, author)?;
            Ok(ReplyBody::TopicIs(put))
        }
        Change::DeleteTopic { topic } => {
            board.delete_topic(*topic);
            Ok(ReplyBody::Gone)
        }
        Change::ClashTopic { author, .. } => {
            let Some((a, b)) = pair else { unreachable!() };
            let noted = board.post_clash(alloc, &a, &b, author)?;
            Ok(ReplyBody::TopicIs(noted))
        }
        _ => apply_further(board, alloc, change, pair),
    }
}

// The same for comments and viewpoints.
fn apply_further(
    board: &mut Board,
    alloc: Global,
    change: &Change,
    pair: Option<(Guid, Guid)>,
) -> Result<ReplyBody, AllocError>
    requires fits { Fits board.old pair change.now }
    requires further { IsFurther change.now }
    requires room { board.old.made + 2 < 2 ^ 48 }
    ensures ok { IfOk result (IsApplied pair change.now board.old board.new) }
    ensures err { OnErr result (board.new ≡ board.old) }
{
    match change {
        Change::PostComment {
            topic,
            body,
            author,
            ..
        } => {
            let made = board.post_comment(alloc, *topic, body, author)?;
            Ok(ReplyBody::CommentIs(made))
        }
        Change::PutComment {
            topic,
            comment,
            body,
            author,
            ..
        } => {
            let put = board.put_comment(alloc, *topic, *comment, body, author)?;
            Ok(ReplyBody::CommentIs(put))
        }
        Change::DeleteComment { topic, comment } => {
            board.delete_comment(*topic, *comment);
            Ok(ReplyBody::Gone)
        }
        Change::PostView { topic, body, .. } => {
            let view = board.post_view(alloc, *topic, body)?;
            Ok(ReplyBody::View(view))
        }
        Change::DeleteView { topic, view } => {
            board.delete_view(*topic, *view);
            Ok(ReplyBody::Gone)
        }
        _ => unreachable!(),
    }
}

// Why such a change isn't accepted, by which so many bytes of texts come.
fn not_noted(state: &State, number: u32, change: &Change, weight: u64) -> Option<BookFault>
    requires kept { IsKept state.now }
    requires low { 1 ≤ number }
    requires high { number ≤ length state.now.projects.items }
    requires note { IsNote change.now }
    requires weight { weight ≡ text_of change.now }
    ensures { result
        ≡ first_of (not_noted (settings_of state.now) state.now.entries.items number change.now) }
{
    if let Some(fault) = state.too_many(change) {
        return Some(fault);
    }
    let left = left_in(&state.project(number).live);
    state.store_full(number, 0, weight, left)
}

/// Makes a change of a project's topics, comments or viewpoints, unless something is full. Of a clash the two
/// elements are told, and of each change how many bytes of texts come by it. An `Err` leaves all as it was.
pub fn note(
    state: &mut State,
    number: u32,
    stamp: Stamp,
    change: Change,
    pair: Option<(Guid, Guid)>,
    weight: u64,
) -> Result<ReplyBody, AllocError>
    requires kept { IsKept state.old }
    requires after { IsBefore stamp.turn state.old.entries.items }
    requires low { 1 ≤ number }
    requires high { number ≤ length state.old.projects.items }
    requires pair { pair ≡ clash_of (state_of number state.old.entries.items) change }
    requires fits { Fits (board_of number state.old.entries.items) pair change }
    requires weight { weight ≡ text_of change }
    ensures done { IfOk result (IsDone state.old.entries.items state.new.entries.items stamp
        (noted (settings_of state.old) state.old.entries.items number change)) }
    ensures settings { settings_of state.new ≡ settings_of state.old }
    ensures kept { IsKept state.new }
    ensures err { OnErr result (state.new.entries.items ≡ state.old.entries.items) }
{
    if let Some(fault) = not_noted(state, number, &change, weight) {
        drop(change);
        return Ok(ReplyBody::Refused(fault));
    }
    let alloc = *state.entries.allocator();
    if let Err(error) = state.entries.reserve(1) {
        drop(change);
        return Err(error);
    }
    let project = &mut state.projects[number as usize - 1];
    match apply(&mut project.board, alloc, &change, pair) {
        Ok(body) => {
            let entry = Entry {
                stamp,
                project: number,
                change,
            };
            state.append(entry, 0, weight);
            Ok(body)
        }
        Err(error) => {
            drop(change);
            Err(error)
        }
    }
}
