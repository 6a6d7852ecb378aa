//! What is done with each request.
ghost use Rattle.std.specs.Prelude.{◌≡◌, IfOk, OnErr};
ghost use Rattle.book_history.specs.History.{IsBefore};
ghost use Rattle.book_history.specs.Requests.{outcome_of};
ghost use Rattle.book_history.specs.Legal.{IsLegal};
ghost use Rattle.federation_book.specs.KeptProjects.{IsKept, settings_of};
ghost use Rattle.federation_book.specs.inner.Done.{IsDone};

use crate::clash_topics::clash_topic;
use crate::comment_requests::{
    delete_comment, list_comments, post_comment, put_comment, read_comment,
};
use crate::making::{remove, set_rules, upload};
use crate::project_reads::{project_of, read_clashes, read_version};
use crate::projects::{list_projects, read_project};
use crate::state::State;
use crate::topic_requests::{delete_topic, list_topics, post_topic, put_topic, read_topic};
use crate::viewpoint_requests::{delete_view, list_views, post_view, read_view};
use crate::working::{finish, take_work};
use book_history::{BookRequest, ReplyBody, Stamp};
use std::alloc::AllocError;

/// Answers a request by all that is kept.
#[tactic(auto, using(crate::proofs::Acting::told_as, crate::proofs::Acting::done_as))]
pub fn act_on(
    state: &mut State,
    stamp: Stamp,
    request: BookRequest,
) -> Result<ReplyBody, AllocError>
    requires kept { IsKept state.old }
    requires after { IsBefore stamp.turn state.old.entries.items }
    requires legal { IsLegal (settings_of state.old) state.old.entries.items request }
    ensures done { IfOk result (IsDone state.old.entries.items state.new.entries.items stamp
        (outcome_of (settings_of state.old) state.old.entries.items request)) }
    ensures settings { settings_of state.new ≡ settings_of state.old }
    ensures kept { IsKept state.new }
    ensures err { OnErr result (state.new.entries.items ≡ state.old.entries.items) }
{
    let count = state.projects.len();
    match request {
        BookRequest::ListProjects => list_projects(state),
        BookRequest::ReadProject { project } => read_project(state, project),
        BookRequest::Upload {
            project,
            name,
            model,
        } => upload(state, project_of(count, project), stamp, name, model),
        BookRequest::Remove { project, name } => {
            remove(state, project_of(count, project), stamp, name)
        }
        BookRequest::SetRules {
            project,
            rules,
            weight,
        } => set_rules(state, project_of(count, project), stamp, rules, weight),
        BookRequest::ReadVersion { project, version } => {
            read_version(state, project_of(count, project), version)
        }
        BookRequest::ReadClashes {
            project,
            version,
            first,
            count: pairs,
        } => read_clashes(state, project_of(count, project), version, first, pairs),
        BookRequest::ClashTopic {
            project,
            version,
            place,
            author,
            weight,
        } => clash_topic(state, stamp, project, version, place, author, weight),
        BookRequest::ListTopics { project } => list_topics(state, project),
        BookRequest::ReadTopic { project, topic } => read_topic(state, project, topic),
        BookRequest::PostTopic {
            project,
            body,
            author,
            weight,
        } => post_topic(state, stamp, project, body, author, weight),
        BookRequest::PutTopic {
            project,
            topic,
            body,
            author,
            weight,
        } => put_topic(state, stamp, project, topic, body, author, weight),
        BookRequest::DeleteTopic { project, topic } => delete_topic(state, stamp, project, topic),
        BookRequest::ListComments { project, topic } => list_comments(state, project, topic),
        BookRequest::ReadComment {
            project,
            topic,
            comment,
        } => read_comment(state, project, topic, comment),
        BookRequest::PostComment {
            project,
            topic,
            body,
            author,
            weight,
        } => post_comment(state, stamp, project, topic, body, author, weight),
        BookRequest::PutComment {
            project,
            topic,
            comment,
            body,
            author,
            weight,
        } => put_comment(state, stamp, project, topic, comment, body, author, weight),
        BookRequest::DeleteComment {
            project,
            topic,
            comment,
        } => delete_comment(state, stamp, project, topic, comment),
        BookRequest::ListViews { project, topic } => list_views(state, project, topic),
        BookRequest::ReadView {
            project,
            topic,
            view,
        } => read_view(state, project, topic, view),
        BookRequest::PostView {
            project,
            topic,
            body,
            weight,
        } => post_view(state, stamp, project, topic, body, weight),
        BookRequest::DeleteView {
            project,
            topic,
            view,
        } => delete_view(state, stamp, project, topic, view),
        BookRequest::TakeWork { seat } => take_work(state, seat),
        BookRequest::Finish { set } => finish(state, stamp, set),
    }
}
