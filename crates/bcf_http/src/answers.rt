//! From answers to responses.
ghost use Rattle.std.specs.Prelude.{◌≡◌, IfOk, string_bytes};
ghost use Rattle.bcf_http.specs.Answers.{IsResponse, IsAnswerText, refusal_status, reply_status, fault_status, frame_status, status_of, allow_of};

use crate::asked::RequestFault;
use crate::reply_kind::ReplyKind;
use crate::responses::response;
use crate::trees::answer_out;
use bcf_viewpoints::ViewPart;
use bim_model::{Bytes, UploadFault};
use book_history::{BookFault, BookReply, ReplyBody};
use http::StatusCode;
use http_frame::FrameFault;
use http_routes::RoutePath;
use odata_filter::Listing;
use std::alloc::{AllocError, Global};

/// What is answered to a request, or to bytes that are none.
#[derive(Drop)]
pub enum Answer {
    Book(BookReply),
    /// A reply of the book, whose topics are listed so.
    Listed(BookReply, Listing),
    Refused(RequestFault),
    /// The file of an upload makes no model.
    Built(UploadFault),
    Frame(FrameFault),
    Memory,
}

fn refusal_status(fault: BookFault) -> StatusCode
    ensures { result ≡ refusal_status fault }
{
    match fault {
        BookFault::NoProject => StatusCode::NOT_FOUND,
        BookFault::NoModel => StatusCode::NOT_FOUND,
        BookFault::NoVersion { .. } => StatusCode::NOT_FOUND,
        BookFault::VersionDropped { .. } => StatusCode::GONE,
        BookFault::Pending { .. } => StatusCode::ACCEPTED,
        BookFault::StoreFull { .. } => StatusCode::INSUFFICIENT_STORAGE,
        BookFault::ElementsFull { .. } => StatusCode::INSUFFICIENT_STORAGE,
        BookFault::TooSpread { .. } => StatusCode::INSUFFICIENT_STORAGE,
        BookFault::JournalFull { .. } => StatusCode::INSUFFICIENT_STORAGE,
        BookFault::AlreadyDone => StatusCode::NOT_FOUND,
        BookFault::NoWork => StatusCode::NOT_FOUND,
        BookFault::NoClash { .. } => StatusCode::NOT_FOUND,
        BookFault::TurnAhead { .. } => StatusCode::CONFLICT,
        BookFault::NoTopic => StatusCode::NOT_FOUND,
        BookFault::NoComment => StatusCode::NOT_FOUND,
        BookFault::TopicsFull { .. } => StatusCode::INSUFFICIENT_STORAGE,
        BookFault::CommentsFull { .. } => StatusCode::INSUFFICIENT_STORAGE,
        BookFault::NoViewpoint => StatusCode::NOT_FOUND,
        BookFault::ViewpointsFull { .. } => StatusCode::INSUFFICIENT_STORAGE,
    }
}

fn reply_status(created: bool, reply: &ReplyBody) -> StatusCode
    ensures { result ≡ reply_status created reply.now }
{
    let made = if created {
        StatusCode::CREATED
    } else {
        StatusCode::OK
    };
    match reply {
        ReplyBody::Projects(_) => StatusCode::OK,
        ReplyBody::Project(_) => StatusCode::OK,
        ReplyBody::TopicIs(_) => made,
        ReplyBody::TopicList(_) => StatusCode::OK,
        ReplyBody::CommentIs(_) => made,
        ReplyBody::CommentList(_) => StatusCode::OK,
        ReplyBody::View(_) => made,
        ReplyBody::ViewList(_) => StatusCode::OK,
        ReplyBody::Gone => StatusCode::OK,
        ReplyBody::Changed { .. } => made,
        ReplyBody::Version { .. } => StatusCode::OK,
        ReplyBody::Clashes { .. } => StatusCode::OK,
        ReplyBody::Work(_) => StatusCode::OK,
        ReplyBody::Finished { .. } => StatusCode::OK,
        ReplyBody::Refused(fault) => refusal_status(*fault),
    }
}

fn fault_status(fault: &RequestFault) -> StatusCode
    ensures { result ≡ fault_status fault.now }
{
    match fault {
        RequestFault::NoRoute => StatusCode::NOT_FOUND,
        RequestFault::Method { .. } => StatusCode::METHOD_NOT_ALLOWED,
        RequestFault::Encoding => StatusCode::UNSUPPORTED_MEDIA_TYPE,
        RequestFault::Query { .. } => StatusCode::BAD_REQUEST,
        RequestFault::Filter { .. } => StatusCode::BAD_REQUEST,
        RequestFault::Order { .. } => StatusCode::BAD_REQUEST,
        RequestFault::BadTurn => StatusCode::BAD_REQUEST,
        RequestFault::BadJson => StatusCode::BAD_REQUEST,
        RequestFault::Rules(_) => StatusCode::UNPROCESSABLE_ENTITY,
        RequestFault::Body(_) => StatusCode::UNPROCESSABLE_ENTITY,
    }
}

fn frame_status(fault: FrameFault) -> StatusCode
    ensures { result ≡ frame_status fault }
{
    match fault {
        FrameFault::BadHead => StatusCode::BAD_REQUEST,
        FrameFault::HeadTooLong => StatusCode::REQUEST_HEADER_FIELDS_TOO_LARGE,
        FrameFault::BadLength => StatusCode::BAD_REQUEST,
        FrameFault::BodyTooLong => StatusCode::PAYLOAD_TOO_LARGE,
        FrameFault::BadChunk => StatusCode::BAD_REQUEST,
        FrameFault::Version => StatusCode::HTTP_VERSION_NOT_SUPPORTED,
    }
}

fn status_of(created: bool, answer: &Answer) -> StatusCode
    ensures { result ≡ status_of created answer.now }
{
    match answer {
        Answer::Book(reply) => reply_status(created, &reply.body),
        Answer::Listed(reply, _) => reply_status(created, &reply.body),
        Answer::Refused(fault) => fault_status(fault),
        Answer::Built(_) => StatusCode::UNPROCESSABLE_ENTITY,
        Answer::Frame(fault) => frame_status(*fault),
        Answer::Memory => StatusCode::SERVICE_UNAVAILABLE,
    }
}

// The row whose methods are told.
fn allow_of(answer: &Answer) -> Option<RoutePath>
    ensures { result ≡ allow_of answer.now }
{
    match answer {
        Answer::Book(_) => None,
        Answer::Listed(_, _) => None,
        Answer::Refused(fault) => match fault {
            RequestFault::NoRoute => None,
            RequestFault::Method { path } => Some(*path),
            RequestFault::Encoding => None,
            RequestFault::Query { .. } => None,
            RequestFault::Filter { .. } => None,
            RequestFault::Order { .. } => None,
            RequestFault::BadTurn => None,
            RequestFault::BadJson => None,
            RequestFault::Rules(_) => None,
            RequestFault::Body(_) => None,
        },
        Answer::Built(_) => None,
        Answer::Frame(_) => None,
        Answer::Memory => None,
    }
}

// The tree of an answer as compact text.
fn text_of(
    alloc: Global,
    project: u32,
    part: ViewPart,
    answer: &Answer,
) -> Result<String, AllocError>
    ensures { IfOk result (λ s. IsAnswerText project part answer.now (string_bytes s)) }
{
    let tree = answer_out(alloc, project, part, answer)?;
    tree.to_string(alloc)
}

/// The response to a request of this kind. It prints the methods that are allowed, where another was asked
/// for, the turn, if there is one, and `Connection: close` where the connection is closed after it. It has no
/// body where the method is HEAD.
pub fn to_response(
    alloc: Global,
    answer: &Answer,
    kind: ReplyKind,
    turn: Option<u64>,
    close: bool,
) -> Result<Bytes, AllocError>
    ensures { IfOk result (IsResponse answer.now kind turn close) }
{
    let text = text_of(alloc, kind.project, kind.part, answer)?;
    let status = status_of(kind.created, answer);
    let allow = allow_of(answer);
    response(alloc, turn, close, kind.head, status, allow, text.as_str())
}
