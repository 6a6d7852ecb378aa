//! From requests to calls for topics, comments and viewpoints.
ghost use Rattle.std.specs.Prelude.{◌≡◌, length, min, Ok};
ghost use Rattle.bim_model.specs.Moments.{IsMoment};
ghost use Rattle.book_history.specs.declared.requests.BookRequest.TheVariants.{PostTopic, PutTopic, PostComment, PutComment, PostView};
ghost use Rattle.bcf_bodies.specs.TopicBodies.{topic_body};
ghost use Rattle.bcf_bodies.specs.CommentBodies.{comment_body};
ghost use Rattle.bcf_bodies.specs.ViewBodies.{view_body};
ghost use Rattle.http_routes.specs.Targets.{query_of};
ghost use Rattle.http_routes.specs.ListQueries.{list_asked};
ghost use Rattle.bcf_http.specs.Asked.{object_of, author_of, asked_as, call_with, greatest, colored_weight, view_weight, list_call, topics_call, topic_call, comments_call, comment_call, views_call, view_call, call_of_topic, IsAskedAs};

use crate::asked::{Action, Refusal, RequestFault};
use crate::bodies::{comment_asked, topic_asked, view_asked};
use bcf_viewpoints::{Coloring, ViewBody};
use bim_model::{Author, Moment};
use book_history::BookRequest;
use http_frame::HttpRequest;
use http_routes::{PageError, TopicPlace, is_same, list_asked, split_target};
use std::alloc::Global;

// The call that makes a topic of the body.
fn post_topic(
    alloc: Global,
    request: HttpRequest,
    moment: u64,
    project: u128,
) -> Result<Action, Refusal>
    requires { IsMoment moment }
    ensures { IsAskedAs result
        (call_with (λ body. PostTopic project body (author_of moment request) (length request.body))
        (asked_as topic_body (object_of request.body))) }
{
    let HttpRequest { user, body, .. } = request;
    match topic_asked(alloc, body.as_slice()) {
        Ok(topic) => Ok(Action::Call(BookRequest::PostTopic {
            project,
            body: topic,
            author: Author {
                user,
                moment: Moment::new(moment),
            },
            weight: body.len() as u64,
        })),
        Err(refusal) => Err(refusal),
    }
}

// The call that puts the body in the place of a topic's.
fn put_topic(
    alloc: Global,
    request: HttpRequest,
    moment: u64,
    project: u128,
    topic: u128,
) -> Result<Action, Refusal>
    requires { IsMoment moment }
    ensures { IsAskedAs result
        (call_with (λ body. PutTopic project topic body (author_of moment request) (length request.body))
        (asked_as topic_body (object_of request.body))) }
{
    let HttpRequest { user, body, .. } = request;
    match topic_asked(alloc, body.as_slice()) {
        Ok(asked) => Ok(Action::Call(BookRequest::PutTopic {
            project,
            topic,
            body: asked,
            author: Author {
                user,
                moment: Moment::new(moment),
            },
            weight: body.len() as u64,
        })),
        Err(refusal) => Err(refusal),
    }
}

// The call that makes a comment of the body.
fn post_comment(
    alloc: Global,
    request: HttpRequest,
    moment: u64,
    project: u128,
    topic: u128,
) -> Result<Action, Refusal>
    requires { IsMoment moment }
    ensures { IsAskedAs result
        (call_with (λ body. PostComment project topic body (author_of moment request) (length request.body))
        (asked_as comment_body (object_of request.body))) }
{
    let HttpRequest { user, body, .. } = request;
    match comment_asked(alloc, body.as_slice()) {
        Ok(comment) => Ok(Action::Call(BookRequest::PostComment {
            project,
            topic,
            body: comment,
            author: Author {
                user,
                moment: Moment::new(moment),
            },
            weight: body.len() as u64,
        })),
        Err(refusal) => Err(refusal),
    }
}

// The call that puts the body in the place of a comment's.
fn put_comment(
    alloc: Global,
    request: HttpRequest,
    moment: u64,
    project: u128,
    topic: u128,
    comment: u128,
) -> Result<Action, Refusal>
    requires { IsMoment moment }
    ensures { IsAskedAs result
        (call_with
        (λ body. PutComment project topic comment body (author_of moment request) (length request.body))
        (asked_as comment_body (object_of request.body))) }
{
    let HttpRequest { user, body, .. } = request;
    match comment_asked(alloc, body.as_slice()) {
        Ok(asked) => Ok(Action::Call(BookRequest::PutComment {
            project,
            topic,
            comment,
            body: asked,
            author: Author {
                user,
                moment: Moment::new(moment),
            },
            weight: body.len() as u64,
        })),
        Err(refusal) => Err(refusal),
    }
}

/// What is asked of the topics of a project.
pub fn topics_call(
    alloc: Global,
    request: HttpRequest,
    moment: u64,
    project: u128,
) -> Result<Action, Refusal>
    requires { IsMoment moment }
    ensures { IsAskedAs result (topics_call moment request project) }
{
    if is_same(request.method.as_slice(), "POST") {
        return post_topic(alloc, request, moment, project);
    }
    list_call(alloc, &request, project)
}

// What is asked of the list of topics, by the query of its target.
fn list_call(alloc: Global, request: &HttpRequest, project: u128) -> Result<Action, Refusal>
    ensures { IsAskedAs result (list_call project (list_asked (query_of request.now.target))) }
{
    let (_, query) = split_target(request.target.as_slice());
    match list_asked(alloc, query) {
        Ok(asked) => Ok(Action::AskList {
            project,
            asked,
            bad_turn: false,
        }),
        Err(PageError::Bad(name)) => Err(Refusal::Fault(RequestFault::Query { name })),
        Err(PageError::Memory) => Err(Refusal::Memory),
    }
}

// What is asked of a topic.
fn topic_call(
    alloc: Global,
    request: HttpRequest,
    moment: u64,
    project: u128,
    topic: u128,
) -> Result<Action, Refusal>
    requires { IsMoment moment }
    ensures { IsAskedAs result (topic_call moment request project topic) }
{
    if is_same(request.method.as_slice(), "PUT") {
        return put_topic(alloc, request, moment, project, topic);
    }
    if is_same(request.method.as_slice(), "DELETE") {
        return Ok(Action::Call(BookRequest::DeleteTopic { project, topic }));
    }
    Ok(Action::Call(BookRequest::ReadTopic { project, topic }))
}

// What is asked of the comments on a topic.
fn comments_call(
    alloc: Global,
    request: HttpRequest,
    moment: u64,
    project: u128,
    topic: u128,
) -> Result<Action, Refusal>
    requires { IsMoment moment }
    ensures { IsAskedAs result (comments_call moment request project topic) }
{
    if is_same(request.method.as_slice(), "POST") {
        return post_comment(alloc, request, moment, project, topic);
    }
    Ok(Action::Call(BookRequest::ListComments { project, topic }))
}

// What is asked of a comment on a topic.
fn comment_call(
    alloc: Global,
    request: HttpRequest,
    moment: u64,
    project: u128,
    topic: u128,
    comment: u128,
) -> Result<Action, Refusal>
    requires { IsMoment moment }
    ensures { IsAskedAs result (comment_call moment request project topic comment) }
{
    if is_same(request.method.as_slice(), "PUT") {
        return put_comment(alloc, request, moment, project, topic, comment);
    }
    if is_same(request.method.as_slice(), "DELETE") {
        return Ok(Action::Call(BookRequest::DeleteComment {
            project,
            topic,
            comment,
        }));
    }
    Ok(Action::Call(BookRequest::ReadComment {
        project,
        topic,
        comment,
    }))
}

// How many colorings there are, and components that have their colors, or the greatest number.
fn colored(colorings: &[Coloring]) -> u64
    ensures { result ≡ min greatest (colored_weight colorings.now) }
{
    let mut count: u64 = 0;
    for coloring in colorings {
        count = count
            .saturating_add(1)
            .saturating_add(coloring.components.len() as u64);
    }
    count
}

// The weight of a viewpoint.
fn view_weight(body: &ViewBody) -> u64
    ensures { result ≡ view_weight body.now }
{
    colored(body.coloring.as_slice())
        .saturating_add(body.selection.len() as u64)
        .saturating_add(body.exceptions.len() as u64)
        .saturating_mul(256)
}

// The call that makes a viewpoint of the body.
fn post_view(
    alloc: Global,
    request: &HttpRequest,
    project: u128,
    topic: u128,
) -> Result<Action, Refusal>
    ensures { IsAskedAs result
        (call_with (λ body. PostView project topic body (view_weight body))
        (asked_as view_body (object_of request.now.body))) }
{
    match view_asked(alloc, request.body.as_slice()) {
        Ok(body) => {
            let weight = view_weight(body.get());
            Ok(Action::Call(BookRequest::PostView {
                project,
                topic,
                body,
                weight,
            }))
        }
        Err(refusal) => Err(refusal),
    }
}

// What is asked of the viewpoints of a topic.
fn views_call(
    alloc: Global,
    request: &HttpRequest,
    project: u128,
    topic: u128,
) -> Result<Action, Refusal>
    ensures { IsAskedAs result (views_call request.now project topic) }
{
    if is_same(request.method.as_slice(), "POST") {
        return post_view(alloc, request, project, topic);
    }
    Ok(Action::Call(BookRequest::ListViews { project, topic }))
}

// What is asked of a viewpoint.
fn view_call(request: &HttpRequest, project: u128, topic: u128, view: u128) -> BookRequest
    ensures { result ≡ view_call request.now project topic view }
{
    if is_same(request.method.as_slice(), "DELETE") {
        return BookRequest::DeleteView {
            project,
            topic,
            view,
        };
    }
    BookRequest::ReadView {
        project,
        topic,
        view,
    }
}

/// What is asked of what belongs to a topic.
pub fn call_of_topic(
    alloc: Global,
    request: HttpRequest,
    moment: u64,
    project: u128,
    topic: u128,
    place: TopicPlace,
) -> Result<Action, Refusal>
    requires { IsMoment moment }
    ensures { IsAskedAs result (call_of_topic moment request project topic place) }
{
    match place {
        TopicPlace::Whole => topic_call(alloc, request, moment, project, topic),
        TopicPlace::Comments => comments_call(alloc, request, moment, project, topic),
        TopicPlace::Comment(comment) => {
            comment_call(alloc, request, moment, project, topic, comment)
        }
        TopicPlace::Views => views_call(alloc, &request, project, topic),
        TopicPlace::View(view, _) => Ok(Action::Call(view_call(&request, project, topic, view))),
    }
}
