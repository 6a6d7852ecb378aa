//! What requests ask for.
ghost use Rattle.std.specs.Prelude.{◌≡◌, length, option_map, Result, Err, IfOk};
ghost use Rattle.serde_json.specs.View.{view};
ghost use Rattle.book_history.specs.declared.requests.BookRequest.TheVariants.{ClashTopic};
ghost use Rattle.bim_model.specs.Moments.{IsMoment};
ghost use Rattle.http_routes.specs.Queries.{grid_asked, page_asked};
ghost use Rattle.http_routes.specs.Targets.{query_of};
ghost use Rattle.http_routes.specs.Resources.{place_lent};
ghost use Rattle.bcf_http.specs.ReplyKinds.{kind_of};
ghost use Rattle.http_frame.specs.declared.types.TurnField.{TurnField};
ghost use Rattle.bcf_http.specs.declared.asked.RequestFault.{RequestFault};
ghost use Rattle.bcf_http.specs.declared.asked.Action.{Action};
ghost use Rattle.bcf_http.specs.Asked.{object_of, author_of, model_asked, model_asked_by, with_rule_fault, rules_asked, rules_call, clashes_call, judged, asked_without_turn, asked_by, with_bad_turn, with_turn, IsJudged, IsAskedAs, IsMeantAs, AsksNone};
ghost use Rattle.clash_rules.specs.Json.{rules_of};

use crate::board_calls::{call_of_topic, topics_call};
use crate::bodies::object_of;
use crate::reply_kind::{ReplyKind, kind_at};
use bcf_bodies::BodyFault;
use bim_model::{Author, Bytes, Mode, Moment, Rules, Text};
use book_history::{BookRequest, Wanted};
use clash_rules::{RuleError, RuleFault, from_json};
use http_frame::{HttpRequest, TurnField};
use http_routes::{
    ListAsked, PageError, QueryName, Resource, RoutePath, Routes, grid_asked, has_method, is_same,
    page_asked, split_target,
};
use serde_json::Value;
use std::alloc::Global;

/// A fault of a request that the request alone decides.
#[derive(Debug, PartialEq, Eq, Drop)]
pub enum RequestFault {
    /// H7: the target names nothing.
    NoRoute,
    /// H8: what it names hasn't the method. The response tells the methods of its row.
    Method { path: RoutePath },
    /// H12: the body is encoded.
    Encoding,
    /// H11: a parameter of the query stands twice, or has a value that it may not have.
    Query { name: QueryName },
    /// H14: the text of `$filter` goes on at this place as no filter does.
    Filter { at: u64 },
    /// H15: the text of `$orderby` goes on at this place as no order does.
    Order { at: u64 },
    /// H13: the field `X-Book-Turn` stands twice, or isn't 1 to 15 digits.
    BadTurn,
    /// H9: the body is no JSON text, or no object.
    BadJson,
    /// A fault of the members of clash rules.
    Rules(RuleFault),
    /// A fault of the members of another body.
    Body(BodyFault),
}

/// Why a request asks for nothing.
#[derive(Debug, PartialEq, Eq, Drop)]
pub enum Refusal {
    Fault(RequestFault),
    Memory,
}

/// What a request asks for.
#[derive(Drop)]
pub enum Action {
    /// A call of the book.
    Call(BookRequest),
    /// A model is to be built of the body, and put into the project under the name.
    Build {
        project: u128,
        name: Text,
        mode: Mode,
        body: Bytes,
    },
    /// The topics of a project are to be listed as a query asks for; its texts aren't read yet.
    AskList {
        project: u128,
        asked: ListAsked,
        /// The turn that the request gives is bad, which is a fault only if the texts have none.
        bad_turn: bool,
    },
}

// The model that is to be built of the body.
fn build_asked(
    alloc: Global,
    request: HttpRequest,
    project: u128,
    name: Text,
    mode: Mode,
) -> Result<Action, Refusal>
    ensures { IsAskedAs result (Ok (Action.Build project name mode request.body)) }
{
    let HttpRequest { body, .. } = request;
    match Bytes::from_vec(alloc, body.into_vec()) {
        Ok(body) => Ok(Action::Build {
            project,
            name,
            mode,
            body,
        }),
        Err(_) => Err(Refusal::Memory),
    }
}

// What is asked of a model, where its target says well how lengths come on the grid.
fn model_asked(
    alloc: Global,
    request: HttpRequest,
    project: u128,
    name: Text,
    mode: Mode,
) -> Result<Action, Refusal>
    ensures { IsAskedAs result (model_asked request project name mode) }
{
    if is_same(request.method.as_slice(), "PUT") {
        return build_asked(alloc, request, project, name, mode);
    }
    Ok(Action::Call(BookRequest::Remove { project, name }))
}

// What is asked of a model, by the query of its target.
fn model_asked_by(
    alloc: Global,
    request: HttpRequest,
    project: u128,
    name: Text,
) -> Result<Action, Refusal>
    ensures { IsAskedAs result (model_asked_by request project name (grid_asked (query_of request.target))) }
{
    let (_, query) = split_target(request.target.as_slice());
    match grid_asked(alloc, query) {
        Ok(Some(mode)) => model_asked(alloc, request, project, name, mode),
        Ok(None) => Err(Refusal::Fault(RequestFault::Query {
            name: QueryName::Grid,
        })),
        Err(_) => Err(Refusal::Memory),
    }
}

// The clash rules that an object asks for.
fn rules_of(alloc: Global, tree: &Value) -> Result<Rules, Refusal>
    ensures { IsMeantAs result (with_rule_fault (rules_of (view tree.now))) }
{
    match from_json(alloc, tree) {
        Ok(rules) => Ok(rules),
        Err(RuleError::Fault(fault)) => Err(Refusal::Fault(RequestFault::Rules(fault))),
        Err(RuleError::Memory) => Err(Refusal::Memory),
    }
}

// The clash rules that a body asks for.
fn rules_asked(alloc: Global, body: &[u8]) -> Result<Rules, Refusal>
    ensures { IsMeantAs result (rules_asked (object_of body.now)) }
{
    match object_of(alloc, body) {
        Ok(tree) => rules_of(alloc, &tree),
        Err(refusal) => Err(refusal),
    }
}

// The call that sets the clash rules of the body.
fn rules_call(alloc: Global, request: &HttpRequest, project: u128) -> Result<Action, Refusal>
    ensures { IsAskedAs result (rules_call request.now project (rules_asked (object_of request.now.body))) }
{
    match rules_asked(alloc, request.body.as_slice()) {
        Ok(rules) => Ok(Action::Call(BookRequest::SetRules {
            project,
            rules,
            weight: request.body.len() as u64,
        })),
        Err(refusal) => Err(refusal),
    }
}

// What is asked of the clashes of a version, by the query of its target.
fn clashes_call(
    alloc: Global,
    request: &HttpRequest,
    project: u128,
    version: Wanted,
) -> Result<Action, Refusal>
    ensures { IsAskedAs result (clashes_call project version (page_asked (query_of request.now.target))) }
{
    let (_, query) = split_target(request.target.as_slice());
    match page_asked(alloc, query) {
        Ok(page) => Ok(Action::Call(BookRequest::ReadClashes {
            project,
            version,
            first: page.first,
            count: page.count,
        })),
        Err(PageError::Bad(name)) => Err(Refusal::Fault(RequestFault::Query { name })),
        Err(PageError::Memory) => Err(Refusal::Memory),
    }
}

/// What the response needs of a request; and what the request asks for at a moment, in seconds since 1970, or the first
/// fault that it alone decides: its target names nothing, this hasn't the method, the body is encoded, the query, the
/// turn that it gives, the body. What the target names is found once for both. A call that is asked for brings no set of a bucket.
pub fn asked_of(
    alloc: Global,
    routes: &Routes,
    request: HttpRequest,
    moment: u64,
) -> (ReplyKind, Result<Action, Refusal>)
    requires { IsMoment moment }
    ensures kind { result.0 ≡ kind_of request }
    ensures asked { IsAskedAs result.1 (asked_by moment request) }
    ensures none { IfOk result.1 AsksNone }
{
    let seen = request.seen;
    let (kind, asked) = asked_without_turn(alloc, routes, request, moment);
    (kind, with_turn(seen, asked))
}

// What the target of a request names; or the first fault of it, of the method and of the encoding.
fn judged<'t>(
    request: &HttpRequest,
    named: Option<Resource<'t>>,
) -> Result<Resource<'t>, RequestFault>
    ensures { IsJudged result (judged request.now (option_map place_lent named.entry)) }
{
    let Some(resource) = named else {
        return Err(RequestFault::NoRoute);
    };
    let path = resource.row();
    if !has_method(path, request.method.as_slice()) {
        return Err(RequestFault::Method { path });
    }
    if request.encoded {
        return Err(RequestFault::Encoding);
    }
    Ok(resource)
}

// What is asked for where the turn that a request gives is bad.
fn bad_turn(asked: Result<Action, Refusal>) -> Result<Action, Refusal>
    ensures { (meant : Result Action RequestFault) → IsAskedAs asked meant
        → IsAskedAs result (with_bad_turn meant) }
{
    match asked {
        Ok(action) => told_of(action),
        Err(Refusal::Fault(fault)) => Err(Refusal::Fault(fault_or_turn(fault))),
        Err(Refusal::Memory) => Err(Refusal::Memory),
    }
}

// The same of a request that asks for something: a list is told of the turn, all else is refused.
fn told_of(action: Action) -> Result<Action, Refusal>
    ensures { IsAskedAs result (with_bad_turn (Ok action)) }
{
    match action {
        Action::AskList { project, asked, .. } => Ok(Action::AskList {
            project,
            asked,
            bad_turn: true,
        }),
        Action::Call(call) => {
            drop(call);
            Err(Refusal::Fault(RequestFault::BadTurn))
        }
        Action::Build { .. } => Err(Refusal::Fault(RequestFault::BadTurn)),
    }
}

// The fault of a request whose turn is bad too.
fn fault_or_turn(fault: RequestFault) -> RequestFault
    ensures { Err result ≡ with_bad_turn (Err fault) }
{
    match fault {
        RequestFault::NoRoute => RequestFault::NoRoute,
        RequestFault::Method { path } => RequestFault::Method { path },
        RequestFault::Encoding => RequestFault::Encoding,
        RequestFault::Query { name } => RequestFault::Query { name },
        RequestFault::Filter { .. } => RequestFault::BadTurn,
        RequestFault::Order { .. } => RequestFault::BadTurn,
        RequestFault::BadTurn => RequestFault::BadTurn,
        RequestFault::BadJson => RequestFault::BadTurn,
        RequestFault::Rules(_) => RequestFault::BadTurn,
        RequestFault::Body(_) => RequestFault::BadTurn,
    }
}

// What is asked for, by the turn that the request gives.
fn with_turn(seen: TurnField, asked: Result<Action, Refusal>) -> Result<Action, Refusal>
    ensures { (meant : Result Action RequestFault) → IsAskedAs asked meant
        → IsAskedAs result (with_turn seen meant) }
{
    match seen {
        TurnField::Absent => asked,
        TurnField::Given(_) => asked,
        TurnField::Bad => bad_turn(asked),
    }
}

// What the response needs of a request, and what the request asks for, if the turn that it gives is passed over.
#[tactic(auto, unfolding(crate::specs::Asked::asked_without_turn, crate::specs::ReplyKinds::kind_of))]
fn asked_without_turn(
    alloc: Global,
    routes: &Routes,
    request: HttpRequest,
    moment: u64,
) -> (ReplyKind, Result<Action, Refusal>)
    requires { IsMoment moment }
    ensures kind { result.0 ≡ kind_of request }
    ensures asked { IsAskedAs result.1 (asked_without_turn moment request) }
{
    let named = routes.resource_of(request.target.as_slice());
    let kind = kind_at(&request, named);
    let asked = match judged(&request, named) {
        Err(fault) => Err(Refusal::Fault(fault)),
        Ok(Resource::Projects) => Ok(Action::Call(BookRequest::ListProjects)),
        Ok(Resource::Project { project }) => Ok(Action::Call(BookRequest::ReadProject { project })),
        Ok(Resource::Topics { project }) => topics_call(alloc, request, moment, project),
        Ok(
            Resource::OfTopic {
                project,
                topic,
                place,
            },
        ) => call_of_topic(alloc, request, moment, project, topic, place),
        Ok(Resource::Model { project, name }) => match Text::of(alloc, name) {
            Ok(name) => model_asked_by(alloc, request, project, name),
            Err(_) => Err(Refusal::Memory),
        },
        Ok(Resource::Rules { project }) => rules_call(alloc, &request, project),
        Ok(Resource::Version { project, wanted }) => Ok(Action::Call(BookRequest::ReadVersion {
            project,
            version: wanted,
        })),
        Ok(Resource::Clashes { project, wanted }) => clashes_call(alloc, &request, project, wanted),
        Ok(
            Resource::Clash {
                project,
                wanted,
                place,
            },
        ) => Ok(Action::Call(clash_topic(request, moment, project, wanted, place))),
    };
    (kind, asked)
}

// The call that makes a topic of a clash.
fn clash_topic(
    request: HttpRequest,
    moment: u64,
    project: u128,
    version: Wanted,
    place: u64,
) -> BookRequest
    requires { IsMoment moment }
    ensures { result ≡ ClashTopic project version place (author_of moment request) (length request.body) }
{
    let HttpRequest { user, body, .. } = request;
    BookRequest::ClashTopic {
        project,
        version,
        place,
        author: Author {
            user,
            moment: Moment::new(moment),
        },
        weight: body.len() as u64,
    }
}
