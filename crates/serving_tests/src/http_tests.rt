//! What requests ask for, and responses against bytes written by hand.
use bcf_bodies::BodyFault;
use bcf_http::{
    Action, Answer, Refusal, ReplyKind, RequestFault, asked_of, listing_of, to_response,
};
use bcf_topics::{CommentIn, Topic, TopicBody};
use bcf_viewpoints::ViewPart;
use bim_model::{Author, Bytes, Items, Mode, Moment, Shared, Text};
use book_history::{BookFault, BookReply, BookRequest, Horizon, ReplyBody, Wanted};
use clash_rules::RuleFault;
use http_frame::{FrameFault, HttpRequest, TurnField};
use http_routes::{ListAsked, QueryName, RoutePath, Routes};
use odata_filter::Listing;
use std::alloc::{AllocError, Global};
use std::process::Abort;
use std::test::Fail;

fn request(
    alloc: Global,
    method: &str,
    target: &str,
    seen: TurnField,
    body: &str,
) -> Result<HttpRequest, AllocError> {
    Ok(HttpRequest {
        method: Bytes::of(alloc, method.as_bytes())?,
        target: Bytes::of(alloc, target.as_bytes())?,
        minor: 1,
        user: Text::of(alloc, "anna")?,
        close: false,
        encoded: false,
        seen,
        body: Items::from_vec(body.as_bytes().to_vec(alloc)?),
    })
}

// What a request with this turn asks for at 2024-05-01T12:00:00Z, and what its response needs of it.
fn asked_above(
    alloc: Global,
    seen: TurnField,
    (method, target, body): (&str, &str, &str),
) -> Result<(ReplyKind, Result<Action, Refusal>), Fail> {
    let request = request(alloc, method, target, seen, body)?;
    match Routes::new(alloc) {
        Ok(routes) => {
            let asked = asked_of(alloc, &routes, request, 1_714_564_800);
            drop(routes);
            Ok(asked)
        }
        Err(error) => {
            drop(request);
            Err(Fail::from(error))
        }
    }
}

// The same of one that gives no turn.
fn asked_for(
    alloc: Global,
    method: &str,
    target: &str,
    body: &str,
) -> Result<(ReplyKind, Result<Action, Refusal>), Fail> {
    asked_above(alloc, TurnField::Absent, (method, target, body))
}

// What the response to a request without a body needs of it.
fn kind(alloc: Global, method: &str, target: &str) -> Result<ReplyKind, Fail> {
    let (kind, asked) = asked_for(alloc, method, target, "")?;
    drop(asked);
    Ok(kind)
}

#[test]
fn kinds_are_told(rt: HostRuntime) -> Result<(), Fail> {
    let alloc = rt.alloc();
    let target = "http://localhost/bcf/3.0/projects/00000002-0000-8000-8000-000000000000/topics?x";
    let made = ReplyKind {
        project: 2,
        created: true,
        head: false,
        part: ViewPart::Whole,
    };
    assert_eq!(rt; kind(alloc, "POST", target)?, made);
    let target =
        "/bcf/3.0/projects/00000001-0000-8000-8000-000000000000/topics/00000001-0000-8000-8000-000000000001/comments/00000001-0000-8000-8000-000000000002";
    assert!(rt; !kind(alloc, "PUT", target)?.created);
    let target =
        "/bcf/3.0/projects/00000001-0000-8000-8000-000000000000/topics/00000001-0000-8000-8000-000000000001/viewpoints/00000001-0000-8000-8000-000000000002/coloring";
    assert_eq!(rt; kind(alloc, "GET", target)?.part, ViewPart::Coloring);
    Ok(())
}

fn topic_line(
    alloc: Global,
    project: u128,
    body: &TopicBody,
    author: &Author,
    weight: u64,
) -> Result<String, AllocError> {
    let title = body.title.as_str();
    let user = author.user.as_str();
    let seconds = author.moment.seconds();
    format!(in alloc; "topic {project:032x} {title} {user} {seconds} {weight}")
}

fn comment_line(
    alloc: Global,
    ids: (u128, u128, u128),
    body: &CommentIn,
    author: &Author,
    weight: u64,
) -> Result<String, AllocError> {
    let (project, topic, comment) = ids;
    let text = body.comment.as_str();
    let view = body.viewpoint.unwrap_or(0);
    let user = author.user.as_str();
    format!(in alloc;
        "comment {project:032x} {topic:032x} {comment:032x} {text} {view:032x} {user} {weight}"
    )
}

fn clashes_line(
    alloc: Global,
    version: Wanted,
    first: u64,
    count: u64,
) -> Result<String, AllocError> {
    match version {
        Wanted::Newest => format!(in alloc; "clashes newest {first} {count}"),
        Wanted::Number(number) => format!(in alloc; "clashes {number} {first} {count}"),
    }
}

fn rules_line(alloc: Global, count: usize, weight: u64) -> Result<String, AllocError> {
    format!(in alloc; "rules {count} {weight}")
}

fn remove_line(alloc: Global, name: &str) -> Result<String, AllocError> {
    format!(in alloc; "remove {name}")
}

fn model_line(
    alloc: Global,
    project: u128,
    name: &str,
    mode: Mode,
    body: &[u8],
) -> Result<String, AllocError> {
    let body = String::from_utf8_lossy(alloc, body)?;
    let snaps = mode == Mode::Snap;
    format!(in alloc; "model {project:032x} {name} {snaps} {}", body.as_str())
}

// A request of the book in a line: its kind, whom it names and what it brings.
fn request_line(alloc: Global, request: &BookRequest) -> Result<String, AllocError> {
    match request {
        BookRequest::PostTopic {
            project,
            body,
            author,
            weight,
        } => topic_line(alloc, *project, body, author, *weight),
        BookRequest::PutComment {
            project,
            topic,
            comment,
            body,
            author,
            weight,
        } => comment_line(alloc, (*project, *topic, *comment), body, author, *weight),
        BookRequest::SetRules { rules, weight, .. } => {
            rules_line(alloc, rules.list().len(), *weight)
        }
        BookRequest::Remove { name, .. } => remove_line(alloc, name.as_str()),
        BookRequest::ReadClashes {
            version,
            first,
            count,
            ..
        } => clashes_line(alloc, *version, *first, *count),
        _ => String::from_str(alloc, "another request"),
    }
}

fn text_or(text: &Option<Text>) -> &str {
    match text {
        Some(text) => text.as_str(),
        None => "-",
    }
}

fn list_line(alloc: Global, project: u128, asked: &ListAsked) -> Result<String, AllocError> {
    let filter = text_or(&asked.filter);
    let order = text_or(&asked.order);
    let skip = asked.skip.unwrap_or(0);
    let top = asked.top.unwrap_or(0);
    format!(in alloc; "list {project:032x} {filter} {order} {skip} {top}")
}

fn asked_line(alloc: Global, asked: &Result<Action, Refusal>) -> Result<String, AllocError> {
    match asked {
        Ok(Action::Call(request)) => request_line(alloc, request),
        Ok(
            Action::Build {
                project,
                name,
                mode,
                body,
            },
        ) => model_line(alloc, *project, name.as_str(), *mode, body.as_slice()),
        Ok(Action::AskList { project, asked, .. }) => list_line(alloc, *project, asked),
        Err(_) => String::from_str(alloc, "refused"),
    }
}

// What a request asks, in a line.
fn told(alloc: Global, method: &str, target: &str, body: &str) -> Result<String, Fail> {
    let (_, asked) = asked_for(alloc, method, target, body)?;
    let line = asked_line(alloc, &asked);
    drop(asked);
    Ok(line?)
}

fn asks(
    rt: &impl Abort,
    alloc: Global,
    (method, target, body): (&str, &str, &str),
    wanted: &str,
) -> Result<(), Fail> {
    let line = told(alloc, method, target, body)?;
    assert_eq!(rt; line.as_str(), wanted);
    Ok(())
}

#[test]
fn topics_and_comments_are_asked_for(rt: HostRuntime) -> Result<(), Fail> {
    let target = "http://localhost/bcf/3.0/projects/00000002-0000-8000-8000-000000000000/topics?x";
    let post = ("POST", target, r#"{"title":"Pipe"}"#);
    let wanted = "topic 00000002000080008000000000000000 Pipe anna 1714564800 16";
    asks(&rt, rt.alloc(), post, wanted)?;
    let target =
        "/bcf/3.0/projects/00000001-0000-8000-8000-000000000000/topics/00000001-0000-8000-8000-000000000001/comments/00000001-0000-8000-8000-000000000002";
    let said = r#"{"comment":"Moved","viewpoint_guid":"00000001-0000-8000-8000-000000000003"}"#;
    let wanted =
        "comment 00000001000080008000000000000000 00000001000080008000000000000001 00000001000080008000000000000002 Moved 00000001000080008000000000000003 anna 75";
    asks(&rt, rt.alloc(), ("PUT", target, said), wanted)
}

#[test]
fn lists_of_topics_are_asked_for(rt: HostRuntime) -> Result<(), Fail> {
    let target =
        "/bcf/3.0/projects/00000001-0000-8000-8000-000000000000/topics?%24filter=title%20eq+%27a%27&$top=2&x=1&$orderby=title";
    let wanted = "list 00000001000080008000000000000000 title eq 'a' title 0 2";
    asks(&rt, rt.alloc(), ("GET", target, ""), wanted)?;
    let twice = "/bcf/3.0/projects/00000001-0000-8000-8000-000000000000/topics?$top=2&$top=2";
    asks(&rt, rt.alloc(), ("GET", twice, ""), "refused")
}

#[test]
fn models_and_versions_are_asked_for(rt: HostRuntime) -> Result<(), Fail> {
    let cases = [
        (
            (
                "PUT",
                "/coord/1/projects/00000001000080008000000000000000/models/a.b?y&gri%64=snap",
                "ISO",
            ),
            "model 00000001000080008000000000000000 a.b true ISO",
        ),
        (
            (
                "PUT",
                "/coord/1/projects/00000001-0000-8000-8000-000000000000/rules",
                r#"{"rules":[{"a":"*","b":"*","distance":50}]}"#,
            ),
            "rules 1 43",
        ),
        (
            (
                "DELETE",
                "/coord/1/projects/00000001-0000-8000-8000-000000000000/models/m",
                "x",
            ),
            "remove m",
        ),
        (
            (
                "GET",
                "/coord/1/projects/00000001-0000-8000-8000-000000000000/versions/newest/clashes?x=1",
                "",
            ),
            "clashes newest 0 1000",
        ),
        (
            (
                "GET",
                "/coord/1/projects/00000001-0000-8000-8000-000000000000/versions/00002/clashes?count=1&fir%73t=999999999999999",
                "",
            ),
            "clashes 2 999999999999999 1",
        ),
    ];
    for (request, wanted) in cases {
        asks(&rt, rt.alloc(), request, wanted)?;
    }
    Ok(())
}

fn is_refused(asked: &Result<Action, Refusal>, wanted: &RequestFault) -> bool {
    match asked {
        Err(Refusal::Fault(fault)) => fault == wanted,
        _ => false,
    }
}

fn is_refused_for(
    alloc: Global,
    (method, target, body): (&str, &str, &str),
    wanted: &RequestFault,
) -> Result<bool, Fail> {
    let (_, asked) = asked_for(alloc, method, target, body)?;
    let is_refused = is_refused(&asked, wanted);
    drop(asked);
    Ok(is_refused)
}

fn refuses(
    rt: &impl Abort,
    alloc: Global,
    request: (&str, &str, &str),
    wanted: RequestFault,
) -> Result<(), Fail> {
    let is_refused = is_refused_for(alloc, request, &wanted);
    drop(wanted);
    assert!(rt; is_refused?);
    Ok(())
}

// A query of the clashes of a version is refused for the parameter.
fn refuses_query(rt: &impl Abort, alloc: Global, query: &str, name: QueryName) -> Result<(), Fail> {
    let target = format!(in alloc;
        "/coord/1/projects/00000001-0000-8000-8000-000000000000/versions/1/clashes?{query}"
    )?;
    let request = ("GET", target.as_str(), "");
    let refused = refuses(rt, alloc, request, RequestFault::Query { name });
    drop(target);
    refused
}

#[test]
fn bad_queries_are_refused(rt: HostRuntime) -> Result<(), Fail> {
    let cases = [
        ("first=1&count=0&first=x", QueryName::Count),
        ("count=1001", QueryName::Count),
        ("count=1&count=1", QueryName::Count),
        ("count=", QueryName::Count),
        ("first=+1&count=0", QueryName::First),
        ("first=1&first=1", QueryName::First),
        ("first=1000000000000000", QueryName::First),
    ];
    for (query, name) in cases {
        refuses_query(&rt, rt.alloc(), query, name)?;
    }
    Ok(())
}

#[test]
fn bad_bodies_are_refused(rt: HostRuntime) -> Result<(), Fail> {
    let alloc = rt.alloc();
    let target = "/coord/1/projects/00000001-0000-8000-8000-000000000000/rules";
    let far = r#"{"rules":[{"a":"*","b":"*","distance":1001}]}"#;
    let fault = RequestFault::Rules(RuleFault::Distance { index: 0 });
    refuses(&rt, alloc, ("PUT", target, far), fault)?;
    refuses(&rt, alloc, ("PUT", target, "[]"), RequestFault::BadJson)?;
    let target =
        "/bcf/3.0/projects/00000001-0000-8000-8000-000000000000/topics/00000001-0000-8000-8000-000000000001/comments/00000001-0000-8000-8000-000000000002";
    let name = Text::of(alloc, "comment")?;
    let fault = RequestFault::Body(BodyFault::BadMember { name });
    refuses(&rt, alloc, ("PUT", target, r#"{"comment":""}"#), fault)
}

#[test]
fn bad_targets_are_refused(rt: HostRuntime) -> Result<(), Fail> {
    let alloc = rt.alloc();
    let nowhere = [
        (
            "PUT",
            "/bcf/3.0/projects/00000001-0000-8000-8000-000000000000/topics/00000001-0000-8000-8000-000000000001/comments/%30",
            "",
        ),
        (
            "GET",
            "/coord/1/projects/00000001-0000-8000-8000-000000000000/versions/1234567890123456",
            "",
        ),
        ("GET", "/bcf/3.0/projects/7", ""),
    ];
    for request in nowhere {
        refuses(&rt, alloc, request, RequestFault::NoRoute)?;
    }
    let target =
        "/coord/1/projects/00000001-0000-8000-8000-000000000000/models/m?grid=exact&grid=exact";
    let name = QueryName::Grid;
    refuses(
        &rt,
        alloc,
        ("PUT", target, ""),
        RequestFault::Query { name },
    )?;
    let path = RoutePath::Model;
    refuses(
        &rt,
        alloc,
        ("HEAD", target, ""),
        RequestFault::Method { path },
    )
}

// A request with a bad turn is refused so.
fn refuses_turn(
    rt: &impl Abort,
    alloc: Global,
    request: (&str, &str, &str),
    wanted: RequestFault,
) -> Result<(), Fail> {
    let (_, asked) = asked_above(alloc, TurnField::Bad, request)?;
    let is_refused = is_refused(&asked, &wanted);
    drop(asked);
    drop(wanted);
    assert!(rt; is_refused);
    Ok(())
}

#[test]
fn a_bad_turn_is_judged_behind_the_query_and_before_the_body(rt: HostRuntime) -> Result<(), Fail> {
    let alloc = rt.alloc();
    let topics = "/bcf/3.0/projects/00000001-0000-8000-8000-000000000000/topics";
    for request in [
        ("GET", "/bcf/3.0/projects", ""),
        ("POST", topics, "["),
        ("POST", topics, "{}"),
    ] {
        refuses_turn(&rt, alloc, request, RequestFault::BadTurn)?;
    }
    refuses_turn(&rt, alloc, ("GET", "/a", ""), RequestFault::NoRoute)?;
    let path = RoutePath::Topics;
    refuses_turn(
        &rt,
        alloc,
        ("PUT", topics, "["),
        RequestFault::Method { path },
    )?;
    let target = "/coord/1/projects/00000001-0000-8000-8000-000000000000/models/m?grid=";
    let name = QueryName::Grid;
    refuses_turn(
        &rt,
        alloc,
        ("PUT", target, ""),
        RequestFault::Query { name },
    )?;
    let target = "/coord/1/projects/00000001-0000-8000-8000-000000000000/models/m";
    refuses_turn(&rt, alloc, ("PUT", target, ""), RequestFault::BadTurn)
}

// The fault of a list, if it has one.
fn fault_of(listing: Result<Listing, Refusal>) -> Option<RequestFault> {
    match listing {
        Ok(listing) => {
            drop(listing);
            None
        }
        Err(Refusal::Fault(fault)) => Some(fault),
        Err(Refusal::Memory) => None,
    }
}

// The fault of a request for a list with a bad turn, once its texts were read.
fn list_fault(alloc: Global, target: &str) -> Result<Option<RequestFault>, Fail> {
    let (_, asked) = asked_above(alloc, TurnField::Bad, ("GET", target, ""))?;
    match asked {
        Ok(
            Action::AskList {
                asked,
                bad_turn,
                ..
            },
        ) => {
            let fault = fault_of(listing_of(alloc, &asked, bad_turn));
            drop(asked);
            Ok(fault)
        }
        other => {
            drop(other);
            Ok(None)
        }
    }
}

fn refuses_list(
    rt: &impl Abort,
    alloc: Global,
    target: &str,
    wanted: RequestFault,
) -> Result<(), Fail> {
    let fault = list_fault(alloc, target)?;
    let is_refused = fault == Some(wanted);
    drop(fault);
    assert!(rt; is_refused);
    Ok(())
}

#[test]
fn a_bad_turn_of_a_list_is_judged_behind_its_texts(rt: HostRuntime) -> Result<(), Fail> {
    let alloc = rt.alloc();
    let target =
        "/bcf/3.0/projects/00000001-0000-8000-8000-000000000000/topics?$orderby=labels&$filter=title+gt+5";
    refuses_list(&rt, alloc, target, RequestFault::Filter { at: 9 })?;
    let target =
        "/bcf/3.0/projects/00000001-0000-8000-8000-000000000000/topics?$orderby=labels&$filter=title+gt+%275%27";
    refuses_list(&rt, alloc, target, RequestFault::Order { at: 0 })?;
    let target =
        "/bcf/3.0/projects/00000001-0000-8000-8000-000000000000/topics?$orderby=title&$top=2";
    refuses_list(&rt, alloc, target, RequestFault::BadTurn)
}

fn pipe(alloc: Global) -> Result<Topic, AllocError> {
    let user = Text::of(alloc, "anonymous")?;
    Ok(Topic {
        serial: 1,
        body: TopicBody {
            title: Text::of(alloc, "Pipe")?,
            topic_type: None,
            topic_status: None,
            priority: None,
            index: None,
            labels: Items::new(alloc),
            assigned_to: None,
            stage: None,
            description: None,
            due: None,
        },
        created: Author {
            user,
            moment: Moment::new(1_714_564_800),
        },
        modified: None,
    })
}

fn replied(body: ReplyBody) -> Answer {
    let horizon = Horizon { newest: [0; 8] };
    Answer::Book(BookReply { body, horizon })
}

fn refused(fault: BookFault) -> Answer {
    replied(ReplyBody::Refused(fault))
}

fn made(alloc: Global) -> Result<Answer, AllocError> {
    Ok(replied(ReplyBody::TopicIs(pipe(alloc)?)))
}

fn pipes(alloc: Global) -> Result<Items<Shared<Topic>>, AllocError> {
    let pipe = Shared::new(alloc, pipe(alloc)?)?;
    let mut topics = Items::new(alloc);
    match topics.push(pipe) {
        Ok(()) => Ok(topics),
        Err(error) => {
            drop(topics);
            Err(error)
        }
    }
}

fn listed(alloc: Global) -> Result<Answer, AllocError> {
    Ok(replied(ReplyBody::TopicList(pipes(alloc)?)))
}

// The same list without its first topic.
fn listed_behind_the_first(alloc: Global) -> Result<Answer, AllocError> {
    let horizon = Horizon { newest: [0; 8] };
    let body = ReplyBody::TopicList(pipes(alloc)?);
    let listing = Listing {
        filter: None,
        order: None,
        skip: 1,
        top: None,
    };
    Ok(Answer::Listed(BookReply { body, horizon }, listing))
}

// The response that a method isn't one of the row's.
fn lacks(path: RoutePath) -> Answer {
    Answer::Refused(RequestFault::Method { path })
}

// The kind of a whole reply of the first project.
fn whole(created: bool, head: bool) -> ReplyKind {
    ReplyKind {
        project: 1,
        created,
        head,
        part: ViewPart::Whole,
    }
}

fn try_answer(
    rt: &impl Abort,
    alloc: Global,
    answer: Answer,
    (kind, turn, close): (ReplyKind, Option<u64>, bool),
    wanted: &str,
) -> Result<(), AllocError> {
    let bytes = to_response(alloc, &answer, kind, turn, close);
    drop(answer);
    let bytes = bytes?;
    assert_eq!(rt; bytes.as_slice(), wanted.as_bytes());
    drop(bytes);
    Ok(())
}

#[test]
fn topics_are_written(rt: HostRuntime) -> Result<(), Fail> {
    let alloc = rt.alloc();
    let kind = (whole(true, false), Some(1), false);
    let wanted =
        "HTTP/1.1 201 Created\r\nContent-Type: application/json\r\nX-Book-Turn: 1\r\nContent-Length: 156\r\n\r\n{\"creation_author\":\"anonymous\",\"creation_date\":\"2024-05-01T12:00:00Z\",\"guid\":\"00000001-0000-8000-8000-000000000001\",\"server_assigned_id\":\"1\",\"title\":\"Pipe\"}";
    try_answer(&rt, alloc, made(alloc)?, kind, wanted)?;
    let kind = (whole(false, false), Some(2), false);
    let wanted =
        "HTTP/1.1 200 OK\r\nContent-Type: application/json\r\nX-Book-Turn: 2\r\nContent-Length: 158\r\n\r\n[{\"creation_author\":\"anonymous\",\"creation_date\":\"2024-05-01T12:00:00Z\",\"guid\":\"00000001-0000-8000-8000-000000000001\",\"server_assigned_id\":\"1\",\"title\":\"Pipe\"}]";
    try_answer(&rt, alloc, listed(alloc)?, kind, wanted)?;
    let kind = (whole(false, false), Some(3), false);
    let wanted =
        "HTTP/1.1 200 OK\r\nContent-Type: application/json\r\nX-Book-Turn: 3\r\nContent-Length: 2\r\n\r\n[]";
    try_answer(&rt, alloc, listed_behind_the_first(alloc)?, kind, wanted)?;
    Ok(())
}

#[test]
fn faults_of_the_book_are_written(rt: HostRuntime) -> Result<(), Fail> {
    let alloc = rt.alloc();
    let fault = BookFault::NoClash { place: 1, total: 0 };
    let kind = (ReplyKind::none(), Some(2), false);
    let wanted =
        "HTTP/1.1 404 Not Found\r\nContent-Type: application/json\r\nX-Book-Turn: 2\r\nContent-Length: 58\r\n\r\n{\"code\":\"K12\",\"message\":\"K12 NoClash\",\"place\":1,\"total\":0}";
    try_answer(&rt, alloc, refused(fault), kind, wanted)?;
    let (version, left) = (2, 1);
    let fault = BookFault::Pending { version, left };
    let kind = (ReplyKind::none(), Some(5), false);
    let wanted =
        "HTTP/1.1 202 Accepted\r\nContent-Type: application/json\r\nX-Book-Turn: 5\r\nContent-Length: 22\r\n\r\n{\"left\":1,\"version\":2}";
    try_answer(&rt, alloc, refused(fault), kind, wanted)?;
    Ok(())
}

#[test]
fn methods_of_a_route_are_written(rt: HostRuntime) -> Result<(), Fail> {
    let alloc = rt.alloc();
    let kind = (ReplyKind::none(), None, false);
    let wanted =
        "HTTP/1.1 405 Method Not Allowed\r\nContent-Type: application/json\r\nAllow: PUT, DELETE\r\nContent-Length: 35\r\n\r\n{\"code\":\"H8\",\"message\":\"H8 Method\"}";
    try_answer(&rt, alloc, lacks(RoutePath::Model), kind, wanted)?;
    Ok(())
}

#[test]
fn head_has_no_body(rt: HostRuntime) -> Result<(), Fail> {
    let alloc = rt.alloc();
    let kind = (whole(false, true), None, false);
    let wanted =
        "HTTP/1.1 405 Method Not Allowed\r\nContent-Type: application/json\r\nAllow: GET, POST\r\nContent-Length: 35\r\n\r\n";
    try_answer(&rt, alloc, lacks(RoutePath::Topics), kind, wanted)?;
    Ok(())
}

#[test]
fn faults_of_frames_are_written(rt: HostRuntime) -> Result<(), Fail> {
    let alloc = rt.alloc();
    let kind = (ReplyKind::none(), None, true);
    let wanted =
        "HTTP/1.1 431 Request Header Fields Too Large\r\nContent-Type: application/json\r\nConnection: close\r\nContent-Length: 40\r\n\r\n{\"code\":\"H2\",\"message\":\"H2 HeadTooLong\"}";
    let long = Answer::Frame(FrameFault::HeadTooLong);
    try_answer(&rt, alloc, long, kind, wanted)?;
    Ok(())
}
