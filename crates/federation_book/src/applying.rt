//! Entries of another book that are brought to this one.
ghost use Rattle.std.specs.Prelude.{◌≡◌, option_map, IsSome, OnOk, OnErr};
ghost use Rattle.bim_model.specs.Identifiers.{identifier};
ghost use Rattle.book_history.specs.declared.changes.Change.{Change};
ghost use Rattle.book_history.specs.History.{IsBefore};
ghost use Rattle.book_history.specs.MadeEntries.{AreMade};
ghost use Rattle.book_history.specs.AcceptedChanges.{comment_sent, request_for, IsBrought};
ghost use Rattle.book_history.specs.Requests.{entry_of};
ghost use Rattle.book_history.specs.Legal.{IsGiven};
ghost use Rattle.federation_book.specs.KeptProjects.{IsKept, settings_of};
ghost use Rattle.federation_book.specs.inner.AskedChanges.{IsAskedWhole};

use crate::asking::act_on;
use crate::making::set_shared_rules;
use crate::project_reads::project_of;
use crate::state::State;
use crate::version::know_whole;
use crate::working::finish;
use bcf_topics::{CommentBody, CommentIn};
use bim_model::{Rules, Shared, id_of};
use book_history::{BookRequest, Change, Entry, Stamp, Wanted};
use bucket_check::BucketSet;
use std::alloc::AllocError;
use std::mem::drop;

// The identifier of a viewpoint, if there is one.
fn view_sent(project: u32, viewpoint: Option<u64>) -> Option<u128>
    ensures { result ≡ option_map (identifier project) viewpoint }
{
    match viewpoint {
        Some(serial) => Some(id_of(project, serial)),
        None => None,
    }
}

// A comment as it is sent whose body is kept so.
fn comment_sent(project: u32, body: CommentBody) -> CommentIn
    ensures { result ≡ comment_sent project body }
{
    CommentIn {
        comment: body.comment,
        viewpoint: view_sent(project, body.viewpoint),
    }
}

// The request that asks for a change, by the identifiers of what the change names by numbers.
fn request_for(project: u32, change: Change) -> BookRequest
    requires { IsAskedWhole change }
    ensures { request_for project change ≡ Some result }
{
    let own = id_of(project, 0);
    match change {
        Change::Upload { name, model } => BookRequest::Upload {
            project: own,
            name,
            model,
        },
        Change::Remove { name } => BookRequest::Remove { project: own, name },
        Change::PostTopic {
            body,
            author,
            weight,
        } => BookRequest::PostTopic {
            project: own,
            body,
            author,
            weight,
        },
        Change::PutTopic {
            topic,
            body,
            author,
            weight,
        } => BookRequest::PutTopic {
            project: own,
            topic: id_of(project, topic),
            body,
            author,
            weight,
        },
        Change::DeleteTopic { topic } => BookRequest::DeleteTopic {
            project: own,
            topic: id_of(project, topic),
        },
        Change::PostComment {
            topic,
            body,
            author,
            weight,
        } => BookRequest::PostComment {
            project: own,
            topic: id_of(project, topic),
            body: comment_sent(project, body),
            author,
            weight,
        },
        Change::PutComment {
            topic,
            comment,
            body,
            author,
            weight,
        } => BookRequest::PutComment {
            project: own,
            topic: id_of(project, topic),
            comment: id_of(project, comment),
            body: comment_sent(project, body),
            author,
            weight,
        },
        Change::DeleteComment { topic, comment } => BookRequest::DeleteComment {
            project: own,
            topic: id_of(project, topic),
            comment: id_of(project, comment),
        },
        Change::PostView {
            topic,
            body,
            weight,
        } => BookRequest::PostView {
            project: own,
            topic: id_of(project, topic),
            body,
            weight,
        },
        Change::DeleteView { topic, view } => BookRequest::DeleteView {
            project: own,
            topic: id_of(project, topic),
            view: id_of(project, view),
        },
        Change::ClashTopic {
            version,
            place,
            author,
            weight,
        } => BookRequest::ClashTopic {
            project: own,
            version: Wanted::Number(version),
            place,
            author,
            weight,
        },
        Change::SetRules { .. } => unreachable!(),
        Change::BucketDone { .. } => unreachable!(),
    }
}

// Brings a change that a request asks for as it is.
fn bring_asked(
    state: &mut State,
    stamp: Stamp,
    project: u32,
    change: Change,
) -> Result<(), AllocError>
    requires kept { IsKept state.old }
    requires after { IsBefore stamp.turn state.old.entries.items }
    requires asked { IsAskedWhole change }
    ensures brought { OnOk result (IsBrought (settings_of state.old) state.old.entries.items
        (entry_of stamp project change) state.new.entries.items) }
    ensures settings { settings_of state.new ≡ settings_of state.old }
    ensures kept { IsKept state.new }
    ensures err { OnErr result (state.new.entries.items ≡ state.old.entries.items) }
{
    let request = request_for(project, change);
    let body = act_on(state, stamp, request)?;
    drop(body);
    Ok(())
}

// Brings new rules, which are shared.
fn bring_rules(
    state: &mut State,
    stamp: Stamp,
    project: u32,
    rules: Shared<Rules>,
    weight: u64,
) -> Result<(), AllocError>
    requires kept { IsKept state.old }
    requires after { IsBefore stamp.turn state.old.entries.items }
    ensures brought { OnOk result (IsBrought (settings_of state.old) state.old.entries.items
        (entry_of stamp project (Change.SetRules rules weight)) state.new.entries.items) }
    ensures settings { settings_of state.new ≡ settings_of state.old }
    ensures kept { IsKept state.new }
    ensures err { OnErr result (state.new.entries.items ≡ state.old.entries.items) }
{
    let number = project_of(state.projects.len(), id_of(project, 0));
    let body = set_shared_rules(state, number, stamp, rules, weight)?;
    drop(body);
    Ok(())
}

/// Brings an entry of another book: it is added where its change is accepted, and else nothing is. The condition is
/// that it isn't of a bucket that is done: that one takes the bucket's clashes.
pub fn bring(state: &mut State, entry: Entry) -> Result<(), AllocError>
    requires kept { IsKept state.old }
    requires after { IsBefore entry.stamp.turn state.old.entries.items }
    requires asked { IsSome (request_for entry.project entry.change) }
    ensures brought { OnOk result (IsBrought (settings_of state.old) state.old.entries.items entry
        state.new.entries.items) }
    ensures settings { settings_of state.new ≡ settings_of state.old }
    ensures kept { IsKept state.new }
    ensures err { OnErr result (state.new.entries.items ≡ state.old.entries.items) }
{
    let Entry {
        stamp,
        project,
        change,
    } = entry;
    match change {
        Change::SetRules { rules, weight } => bring_rules(state, stamp, project, rules, weight),
        other => bring_asked(state, stamp, project, other),
    }
}

/// Brings that a bucket is done, by the bucket's clashes: the entry is added where the bucket is still to be checked,
/// and else nothing is.
pub fn bring_set(state: &mut State, stamp: Stamp, set: Shared<BucketSet>) -> Result<(), AllocError>
    requires kept { IsKept state.old }
    requires after { IsBefore stamp.turn state.old.entries.items }
    requires given { IsGiven (settings_of state.old) state.old.entries.items set.work }
    ensures brought { OnOk result (IsBrought (settings_of state.old) state.old.entries.items
        (entry_of stamp set.work.project (Change.BucketDone set.work.version set.work.cell))
        state.new.entries.items) }
    ensures made { OnOk result (AreMade (settings_of state.old) state.old.entries.items
        → AreMade (settings_of state.old) state.new.entries.items) }
    ensures settings { settings_of state.new ≡ settings_of state.old }
    ensures kept { IsKept state.new }
    ensures err { OnErr result (state.new.entries.items ≡ state.old.entries.items) }
{
    know_whole(set.get().work().grid.get());
    let body = finish(state, stamp, set)?;
    drop(body);
    Ok(())
}
