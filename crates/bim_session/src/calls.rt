//! From requests to calls of the book, with the models that are built for them.
ghost use Rattle.std.specs.Prelude.{◌≡◌, ◌⊎◌, None, Ok, IfOk, IfErr};
ghost use Rattle.bim_model.specs.Moments.{IsMoment};
ghost use Rattle.model_build.specs.Profile.{IsCause};
ghost use Rattle.bim_session.specs.Session.{Means, MeansRequest, Lists, ListsBy, RefusesCall, turn_given};
ghost use Rattle.bim_session.specs.Talking.{IsUnasked};
ghost use Rattle.bcf_http.specs.ReplyKinds.{kind_of};
ghost use Rattle.bcf_http.specs.Asked.{BringsNone};

use bcf_http::{Action, Answer, Refusal, ReplyKind, asked_of, listing_of};
use bim_model::{BuildError, Bytes, Mode, Shared, Text};
use book_history::{BookCall, BookRequest};
use http_frame::{HttpRequest, TurnField};
use http_routes::{ListAsked, Routes};
use model_build::build_owned;
use odata_filter::Listing;
use std::alloc::Global;

// The upload of the model that a body makes.
fn upload_of(
    alloc: Global,
    project: u128,
    name: Text,
    mode: Mode,
    body: Bytes,
) -> Result<BookRequest, BuildError>
    ensures asked { IfOk result (MeansRequest (Ok (Action.Build project name mode body))) }
    ensures none { IfOk result BringsNone }
    ensures fault { IfErr result (λ error. IsCause body mode error) }
{
    let model = build_owned(alloc, body, mode)?;
    let model = Shared::new(alloc, model)?;
    Ok(BookRequest::Upload {
        project,
        name,
        model,
    })
}

// The turn that a request gives, if it gives one.
fn turn_given(field: TurnField) -> Option<u64>
    ensures { result ≡ turn_given field }
{
    match field {
        TurnField::Given(turn) => Some(turn),
        _ => None,
    }
}

/// A call of the book, with what its response needs.
#[derive(Drop)]
pub struct AskedCall {
    pub call: BookCall,
    /// How the topics of its reply are listed, if it asks for a list of topics.
    pub listing: Option<Listing>,
}

// A call whose reply is printed as it is.
fn plain(call: BookCall) -> AskedCall
    ensures { result ≡ record { call = call; listing = None } }
{
    AskedCall {
        call,
        listing: None,
    }
}

// The call for a list of topics, or how it is answered without one.
fn list_of(
    alloc: Global,
    project: u128,
    asked: &ListAsked,
    bad_turn: bool,
    seen: Option<u64>,
) -> Result<AskedCall, Answer>
    ensures call { IfOk result (λ made.
        MeansRequest (Ok (Action.AskList project asked.now bad_turn)) made.call.request) }
    ensures seen { IfOk result (λ made. made.call.seen ≡ seen) }
    ensures lists { IfOk result (λ made.
        ListsBy (Ok (Action.AskList project asked.now bad_turn)) made.listing) }
    ensures none { IfOk result (λ made. BringsNone made.call.request) }
    ensures fault { IfErr result (λ answer.
        RefusesCall (Ok (Action.AskList project asked.now bad_turn)) answer ⊎ (answer ≡ Answer.Memory)) }
{
    match listing_of(alloc, asked, bad_turn) {
        Ok(listing) => Ok(AskedCall {
            call: BookCall {
                seen,
                request: BookRequest::ListTopics { project },
            },
            listing: Some(listing),
        }),
        Err(Refusal::Fault(fault)) => Err(Answer::Refused(fault)),
        Err(Refusal::Memory) => Err(Answer::Memory),
    }
}

/// What the response needs of a request; and the call of the book that the request means at a moment, in seconds since
/// 1970, or how it is answered without one: by the fault that it alone decides, or as out of memory. The model of an
/// upload is built here, before any turn is taken, and the listing of topics is read. The call brings no set of a bucket,
/// so it may be made at every history.
pub fn call_of(
    alloc: Global,
    routes: &Routes,
    request: HttpRequest,
    moment: u64,
) -> (ReplyKind, Result<AskedCall, Answer>)
    requires { IsMoment moment }
    ensures kind { result.0 ≡ kind_of request }
    ensures call { IfOk result.1 (λ made. Means moment request made.call) }
    ensures lists { IfOk result.1 (λ made. Lists moment request made.listing) }
    ensures none { IfOk result.1 (λ made. BringsNone made.call.request) }
    ensures unasked { IfErr result.1 (IsUnasked moment request) }
{
    let seen = turn_given(request.seen);
    let (kind, asked) = asked_of(alloc, routes, request, moment);
    match asked {
        Ok(Action::Call(request)) => (kind, Ok(plain(BookCall { seen, request }))),
        Ok(
            Action::AskList {
                project,
                asked,
                bad_turn,
            },
        ) => (kind, list_of(alloc, project, &asked, bad_turn, seen)),
        Ok(
            Action::Build {
                project,
                name,
                mode,
                body,
            },
        ) => match upload_of(alloc, project, name, mode, body) {
            Ok(request) => (kind, Ok(plain(BookCall { seen, request }))),
            Err(BuildError::Fault(fault)) => (kind, Err(Answer::Built(fault))),
            Err(BuildError::Memory) => (kind, Err(Answer::Memory)),
        },
        Err(Refusal::Fault(fault)) => (kind, Err(Answer::Refused(fault))),
        Err(Refusal::Memory) => (kind, Err(Answer::Memory)),
    }
}
