//! Answers as JSON values.
ghost use Rattle.std.specs.Prelude.{◌≡◌, IfOk};
ghost use Rattle.serde_json.specs.View.{view};
ghost use Rattle.bcf_http.specs.Answers.{query_text, store_text, body_fault_tree, request_fault_tree, book_fault_tree, frame_fault_tree, IsReplyTree, IsListTree, IsListedTree, IsAnswerTree};

use crate::answers::Answer;
use crate::arrays::{
    comments_out, project_out, projects_out, topics_at_out, topics_out, views_out,
};
use crate::asked::RequestFault;
use bcf_bodies::{BodyFault, comment_out, topic_out, view_out};
use bcf_topics::Topic;
use bcf_viewpoints::ViewPart;
use bim_model::Shared;
use book_history::{BookFault, ReplyBody, StoreWhat};
use coord_json::{changed_out, clashes_out, pending_out, version_out};
use error_json::{
    error_at, error_full, error_named, error_newest, error_out, error_place, error_store,
    error_turn, error_version, rule_fault_out, upload_fault_out,
};
use http_frame::FrameFault;
use http_routes::QueryName;
use odata_filter::Listing;
use serde_json::{Map, Value};
use std::alloc::{AllocError, Global};

fn query_text(name: QueryName) -> &'static str
    ensures { result.now ≡ query_text name }
{
    match name {
        QueryName::Grid => "grid",
        QueryName::First => "first",
        QueryName::Count => "count",
        QueryName::Filter => "$filter",
        QueryName::OrderBy => "$orderby",
        QueryName::Skip => "$skip",
        QueryName::Top => "$top",
    }
}

fn store_text(what: StoreWhat) -> &'static str
    ensures { result.now ≡ store_text what }
{
    match what {
        StoreWhat::Triangles => "triangles",
        StoreWhat::Text => "text",
    }
}

fn body_fault_out(alloc: Global, fault: &BodyFault) -> Result<Value, AllocError>
    ensures { IfOk result (λ v. view v ≡ body_fault_tree fault.now) }
{
    match fault {
        BodyFault::Title => error_out(alloc, "B3", "Title"),
        BodyFault::BadMember { name } => error_named(alloc, "B4", "BadMember", name.as_str()),
        BodyFault::BadComponent => error_out(alloc, "B8", "BadComponent"),
    }
}

fn fault_out(alloc: Global, fault: &RequestFault) -> Result<Value, AllocError>
    ensures { IfOk result (λ v. view v ≡ request_fault_tree fault.now) }
{
    match fault {
        RequestFault::NoRoute => error_out(alloc, "H7", "NoRoute"),
        RequestFault::Method { .. } => error_out(alloc, "H8", "Method"),
        RequestFault::Encoding => error_out(alloc, "H12", "Encoding"),
        RequestFault::Query { name } => error_named(alloc, "H11", "Query", query_text(*name)),
        RequestFault::Filter { at } => error_at(alloc, "H14", "Filter", *at),
        RequestFault::Order { at } => error_at(alloc, "H15", "Order", *at),
        RequestFault::BadTurn => error_out(alloc, "H13", "TurnField"),
        RequestFault::BadJson => error_out(alloc, "H9", "BadJson"),
        RequestFault::Rules(fault) => rule_fault_out(alloc, *fault),
        RequestFault::Body(fault) => body_fault_out(alloc, fault),
    }
}

fn frame_out(alloc: Global, fault: FrameFault) -> Result<Value, AllocError>
    ensures { IfOk result (λ v. view v ≡ frame_fault_tree fault) }
{
    match fault {
        FrameFault::BadHead => error_out(alloc, "H1", "BadHead"),
        FrameFault::HeadTooLong => error_out(alloc, "H2", "HeadTooLong"),
        FrameFault::BadLength => error_out(alloc, "H3", "BadLength"),
        FrameFault::BodyTooLong => error_out(alloc, "H4", "BodyTooLong"),
        FrameFault::BadChunk => error_out(alloc, "H5", "BadChunk"),
        FrameFault::Version => error_out(alloc, "H6", "Version"),
    }
}

fn refusal_out(alloc: Global, fault: BookFault) -> Result<Value, AllocError>
    ensures { IfOk result (λ v. view v ≡ book_fault_tree fault) }
{
    match fault {
        BookFault::NoProject => error_out(alloc, "K1", "NoProject"),
        BookFault::NoModel => error_out(alloc, "K2", "NoModel"),
        BookFault::NoVersion { newest } => error_newest(alloc, "K3", "NoVersion", newest),
        BookFault::VersionDropped { version, newest } => {
            error_version(alloc, "K4", "VersionDropped", newest, version)
        }
        BookFault::Pending { version, left } => pending_out(alloc, left, version),
        BookFault::StoreFull { what, count, limit } => {
            error_store(alloc, "K6", "StoreFull", count, limit, store_text(what))
        }
        BookFault::ElementsFull { count, limit } => {
            error_full(alloc, "K7", "ElementsFull", count, limit)
        }
        BookFault::TooSpread { count, limit } => error_full(alloc, "K8", "TooSpread", count, limit),
        BookFault::JournalFull { count, limit } => {
            error_full(alloc, "K9", "JournalFull", count, limit)
        }
        BookFault::AlreadyDone => error_out(alloc, "K10", "AlreadyDone"),
        BookFault::NoWork => error_out(alloc, "K11", "NoWork"),
        BookFault::NoClash { place, total } => error_place(alloc, "K12", "NoClash", place, total),
        BookFault::TurnAhead { given, turn } => error_turn(alloc, "K13", "TurnAhead", given, turn),
        BookFault::NoTopic => error_out(alloc, "B1", "NoTopic"),
        BookFault::NoComment => error_out(alloc, "B2", "NoComment"),
        BookFault::TopicsFull { count, limit } => {
            error_full(alloc, "B5", "TopicsFull", count, limit)
        }
        BookFault::CommentsFull { count, limit } => {
            error_full(alloc, "B6", "CommentsFull", count, limit)
        }
        BookFault::NoViewpoint => error_out(alloc, "B7", "NoViewpoint"),
        BookFault::ViewpointsFull { count, limit } => {
            error_full(alloc, "B9", "ViewpointsFull", count, limit)
        }
    }
}

fn reply_out(
    alloc: Global,
    project: u32,
    part: ViewPart,
    reply: &ReplyBody,
) -> Result<Value, AllocError>
    ensures { IfOk result (λ v. IsReplyTree project part reply.now (view v)) }
{
    match reply {
        ReplyBody::Projects(numbers) => projects_out(alloc, numbers.as_slice()),
        ReplyBody::Project(number) => project_out(alloc, *number),
        ReplyBody::TopicIs(topic) => topic_out(alloc, project, topic),
        ReplyBody::TopicList(topics) => topics_out(alloc, project, topics.as_slice()),
        ReplyBody::CommentIs(comment) => comment_out(alloc, project, comment),
        ReplyBody::CommentList(comments) => comments_out(alloc, project, comments.as_slice()),
        ReplyBody::View(view) => view_out(alloc, project, view.get(), part),
        ReplyBody::ViewList(views) => views_out(alloc, project, views.as_slice()),
        ReplyBody::Gone => Ok(Value::Object(Map::new(alloc))),
        ReplyBody::Changed {
            version,
            elements,
            triangles,
            left,
        } => changed_out(alloc, *version, *elements, *triangles, *left),
        ReplyBody::Version {
            version,
            newest,
            snapshot,
        } => version_out(alloc, *version, *newest, snapshot.get()),
        ReplyBody::Clashes {
            version,
            set,
            first,
            count,
        } => clashes_out(alloc, *version, set.get(), *first, *count),
        // no client is given work
        ReplyBody::Work(_) => Ok(Value::Null),
        ReplyBody::Finished { .. } => Ok(Value::Null),
        ReplyBody::Refused(fault) => refusal_out(alloc, *fault),
    }
}

// The topics that a listing lists, none of which is copied.
fn list_out(
    alloc: Global,
    project: u32,
    listing: &Listing,
    topics: &[Shared<Topic>],
) -> Result<Value, AllocError>
    ensures { IfOk result (λ v. IsListTree project listing.now topics.now (view v)) }
{
    let places = listing.places(alloc, topics)?;
    topics_at_out(alloc, project, topics, &places)
}

// A reply of the book, whose topics are listed so.
fn listed_out(
    alloc: Global,
    project: u32,
    part: ViewPart,
    listing: &Listing,
    reply: &ReplyBody,
) -> Result<Value, AllocError>
    ensures { IfOk result (λ v. IsListedTree project part listing.now reply.now (view v)) }
{
    match reply {
        ReplyBody::TopicList(topics) => list_out(alloc, project, listing, topics.as_slice()),
        _ => reply_out(alloc, project, part, reply),
    }
}

/// The tree of an answer, for a project and a part of a viewpoint.
pub fn answer_out(
    alloc: Global,
    project: u32,
    part: ViewPart,
    answer: &Answer,
) -> Result<Value, AllocError>
    ensures { IfOk result (λ v. IsAnswerTree project part answer.now (view v)) }
{
    match answer {
        Answer::Book(reply) => reply_out(alloc, project, part, &reply.body),
        Answer::Listed(reply, listing) => listed_out(alloc, project, part, listing, &reply.body),
        Answer::Refused(fault) => fault_out(alloc, fault),
        Answer::Built(fault) => upload_fault_out(alloc, *fault),
        Answer::Frame(fault) => frame_out(alloc, *fault),
        Answer::Memory => error_out(alloc, "M1", "Memory"),
    }
}
