//! Bodies are read and written, against texts worked out by hand. Many more are end-to-end
//! cases.
ghost use Rattle.std.specs.Prelude.{IfOk};
ghost use Rattle.bcf_viewpoints.specs.Viewpoints.{IsViewBody};

use bcf_bodies::{
    BodyError, BodyFault, comment_in, comment_out, topic_in, topic_out, view_in, view_out,
};
use bcf_topics::{Author, Comment, CommentBody, CommentIn, Topic, TopicBody};
use bcf_viewpoints::{ViewBody, ViewIs, ViewPart};
use bim_model::{Moment, Text};
use serde_json::{Error, Value};
use std::alloc::{AllocError, Global};
use std::process::Abort;
use std::test::Fail;

fn author(alloc: Global, user: &str) -> Result<Author, AllocError> {
    Ok(Author {
        user: Text::of(alloc, user)?,
        moment: Moment::new(1_714_564_800),
    })
}

// Eva, if it was changed.
fn editor(alloc: Global, changed: bool) -> Result<Option<Author>, AllocError> {
    if changed {
        Ok(Some(author(alloc, "eva")?))
    } else {
        Ok(None)
    }
}

// Who made it and who changed it.
fn authors(alloc: Global, changed: bool) -> Result<(Author, Option<Author>), AllocError> {
    let modified = editor(alloc, changed)?;
    let created = author(alloc, "anonymous")?;
    Ok((created, modified))
}

fn text_of(alloc: Global, tree: Value) -> Result<String, AllocError> {
    let text = tree.to_string(alloc);
    drop(tree);
    text
}

fn fault_text(alloc: Global, error: &BodyError) -> Result<String, AllocError> {
    match error {
        BodyError::Fault(BodyFault::Title) => String::from_str(alloc, "B3"),
        BodyError::Fault(BodyFault::BadMember { name }) => format!(in alloc;
            "B4 {}",
            name.as_str()
        ),
        BodyError::Fault(BodyFault::BadComponent) => String::from_str(alloc, "B8"),
        BodyError::Memory => String::from_str(alloc, "Memory"),
    }
}

fn refused(alloc: Global, error: BodyError) -> Result<String, AllocError> {
    let text = fault_text(alloc, &error);
    drop(error);
    text
}

fn topic_read(alloc: Global, text: &str) -> Result<Result<TopicBody, BodyError>, Error> {
    let tree = Value::from_str(alloc, text)?;
    let read = topic_in(alloc, &tree);
    drop(tree);
    Ok(read)
}

fn topic_tree(
    alloc: Global,
    body: TopicBody,
    created: Author,
    modified: Option<Author>,
) -> Result<Value, AllocError> {
    let topic = Topic {
        serial: 1,
        body,
        created,
        modified,
    };
    let tree = topic_out(alloc, 1, &topic);
    drop(topic);
    tree
}

fn topic_written(alloc: Global, body: TopicBody, changed: bool) -> Result<String, AllocError> {
    match authors(alloc, changed) {
        Ok((created, modified)) => {
            let tree = topic_tree(alloc, body, created, modified)?;
            text_of(alloc, tree)
        }
        Err(error) => {
            drop(body);
            Err(error)
        }
    }
}

// How a topic of such a body is written, or its fault.
fn topic_text(alloc: Global, text: &str, changed: bool) -> Result<String, Fail> {
    match topic_read(alloc, text)? {
        Ok(body) => Ok(topic_written(alloc, body, changed)?),
        Err(error) => Ok(refused(alloc, error)?),
    }
}

fn try_topic(
    rt: &impl Abort,
    alloc: Global,
    text: &str,
    changed: bool,
    wanted: &str,
) -> Result<(), Fail> {
    let written = topic_text(alloc, text, changed)?;
    assert_eq!(rt; written.as_str(), wanted);
    Ok(())
}

#[test]
fn topics_go_in_and_out(rt: HostRuntime) -> Result<(), Fail> {
    let alloc = rt.alloc();
    let cases = [
        (r#"{"title":"x","index":1.5}"#, "B4 index"),
        (r#"{"index":1.5,"labels":7}"#, "B3"),
        (
            r#"{"title":"x","topic_type":1,"due_date":"soon"}"#,
            "B4 due_date",
        ),
        (
            r#"{"title":"Pipe","title":"Duct","labels":["MEP"],"stage":null,"x":1}"#,
            r#"{"creation_author":"anonymous","creation_date":"2024-05-01T12:00:00Z","guid":"00000001-0000-8000-8000-000000000001","labels":["MEP"],"modified_author":"eva","modified_date":"2024-05-01T12:00:00Z","server_assigned_id":"1","title":"Duct"}"#,
        ),
        (
            r#"{"title":"t","topic_type":"a","topic_status":"b","priority":"c","index":-7,"labels":["y","x"],"assigned_to":"d","stage":"e","description":"","due_date":"2024-05-01T14:00:00.5+02:00"}"#,
            r#"{"assigned_to":"d","creation_author":"anonymous","creation_date":"2024-05-01T12:00:00Z","description":"","due_date":"2024-05-01T12:00:00Z","guid":"00000001-0000-8000-8000-000000000001","index":-7,"labels":["y","x"],"modified_author":"eva","modified_date":"2024-05-01T12:00:00Z","priority":"c","server_assigned_id":"1","stage":"e","title":"t","topic_status":"b","topic_type":"a"}"#,
        ),
    ];
    for (text, wanted) in cases {
        try_topic(&rt, alloc, text, true, wanted)?;
    }
    let wanted =
        r#"{"creation_author":"anonymous","creation_date":"2024-05-01T12:00:00Z","guid":"00000001-0000-8000-8000-000000000001","server_assigned_id":"1","title":"Pipe"}"#;
    try_topic(&rt, alloc, r#"{"title":"Pipe"}"#, false, wanted)
}

fn comment_read(alloc: Global, text: &str) -> Result<Result<CommentIn, BodyError>, Error> {
    let tree = Value::from_str(alloc, text)?;
    let read = comment_in(alloc, &tree);
    drop(tree);
    Ok(read)
}

// The viewpoint that a comment names is told by its number alone.
fn kept(body: CommentIn) -> CommentBody {
    let viewpoint = match body.viewpoint {
        Some(id) => Some((id % 1_000) as u64),
        None => None,
    };
    CommentBody {
        comment: body.comment,
        viewpoint,
    }
}

fn comment_tree(
    alloc: Global,
    body: CommentIn,
    created: Author,
    modified: Option<Author>,
) -> Result<Value, AllocError> {
    let comment = Comment {
        serial: 2,
        topic: 1,
        body: kept(body),
        created,
        modified,
    };
    let tree = comment_out(alloc, 1, &comment);
    drop(comment);
    tree
}

fn comment_written(alloc: Global, body: CommentIn, changed: bool) -> Result<String, AllocError> {
    match authors(alloc, changed) {
        Ok((created, modified)) => {
            let tree = comment_tree(alloc, body, created, modified)?;
            text_of(alloc, tree)
        }
        Err(error) => {
            drop(body);
            Err(error)
        }
    }
}

// How a comment of such a body is written, or its fault.
fn comment_text(alloc: Global, text: &str, changed: bool) -> Result<String, Fail> {
    match comment_read(alloc, text)? {
        Ok(body) => Ok(comment_written(alloc, body, changed)?),
        Err(error) => Ok(refused(alloc, error)?),
    }
}

fn try_comment(
    rt: &impl Abort,
    alloc: Global,
    text: &str,
    changed: bool,
    wanted: &str,
) -> Result<(), Fail> {
    let written = comment_text(alloc, text, changed)?;
    assert_eq!(rt; written.as_str(), wanted);
    Ok(())
}

#[test]
fn comments_go_in_and_out(rt: HostRuntime) -> Result<(), Fail> {
    let alloc = rt.alloc();
    let cases = [
        (r#"{"comment":"","viewpoint_guid":1}"#, "B4 comment"),
        (
            r#"{"comment":"x","viewpoint_guid":"7"}"#,
            "B4 viewpoint_guid",
        ),
        (
            r#"{"comment":"Moved","viewpoint_guid":null}"#,
            r#"{"author":"anonymous","comment":"Moved","date":"2024-05-01T12:00:00Z","guid":"00000001-0000-8000-8000-000000000002","modified_author":"eva","modified_date":"2024-05-01T12:00:00Z","topic_guid":"00000001-0000-8000-8000-000000000001"}"#,
        ),
    ];
    for (text, wanted) in cases {
        try_comment(&rt, alloc, text, true, wanted)?;
    }
    let text = r#"{"comment":"Move it","viewpoint_guid":"{00000000-0000-0000-0000-000000000003}"}"#;
    let wanted =
        r#"{"author":"anonymous","comment":"Move it","date":"2024-05-01T12:00:00Z","guid":"00000001-0000-8000-8000-000000000002","topic_guid":"00000001-0000-8000-8000-000000000001","viewpoint_guid":"00000001-0000-8000-8000-000000000003"}"#;
    try_comment(&rt, alloc, text, false, wanted)
}

fn view_read(alloc: Global, text: &str) -> Result<Result<ViewBody, BodyError>, Error>
    ensures { IfOk result (λ read. IfOk read IsViewBody) }
{
    let tree = Value::from_str(alloc, text)?;
    let read = view_in(alloc, &tree);
    drop(tree);
    Ok(read)
}

fn view_written(alloc: Global, body: ViewBody, part: ViewPart) -> Result<String, AllocError>
    requires { IsViewBody body }
{
    let view = ViewIs { serial: 3, body };
    let tree = view_out(alloc, 1, &view, part);
    drop(view);
    text_of(alloc, tree?)
}

// How a part of a viewpoint of such a body is written, or its fault.
fn view_text(alloc: Global, text: &str, part: ViewPart) -> Result<String, Fail> {
    match view_read(alloc, text)? {
        Ok(body) => Ok(view_written(alloc, body, part)?),
        Err(error) => Ok(refused(alloc, error)?),
    }
}

fn try_view(
    rt: &impl Abort,
    alloc: Global,
    text: &str,
    part: ViewPart,
    wanted: &str,
) -> Result<(), Fail> {
    let written = view_text(alloc, text, part)?;
    assert_eq!(rt; written.as_str(), wanted);
    Ok(())
}

#[test]
fn viewpoints_go_in_and_out(rt: HostRuntime) -> Result<(), Fail> {
    let alloc = rt.alloc();
    let clash =
        r#"{"components":{"selection":[{"ifc_guid":"0000000000000000000011"}],"visibility":{"default_visibility":true}}}"#;
    let colored =
        r##"{"index":4,"components":{"coloring":[{"color":"#ff0000","components":[{"originating_system":"Plan","authoring_tool_id":""},{}]}]}}"##;
    let cases = [
        (
            clash,
            ViewPart::Whole,
            r#"{"guid":"00000001-0000-8000-8000-000000000003"}"#,
        ),
        (
            clash,
            ViewPart::Selection,
            r#"{"selection":[{"ifc_guid":"0000000000000000000011"}]}"#,
        ),
        (
            clash,
            ViewPart::Visibility,
            r#"{"visibility":{"default_visibility":true,"exceptions":[]}}"#,
        ),
        (
            colored,
            ViewPart::Whole,
            r#"{"guid":"00000001-0000-8000-8000-000000000003","index":4}"#,
        ),
        (
            colored,
            ViewPart::Coloring,
            r##"{"coloring":[{"color":"#ff0000","components":[{"authoring_tool_id":"","originating_system":"Plan"},{}]}]}"##,
        ),
        (
            colored,
            ViewPart::Visibility,
            r#"{"visibility":{"default_visibility":false,"exceptions":[]}}"#,
        ),
        (
            r#"{"components":{"selection":[{"ifc_guid":"0"}]}}"#,
            ViewPart::Whole,
            "B8",
        ),
        (
            r#"{"index":"1","components":{"selection":[7]}}"#,
            ViewPart::Whole,
            "B4 index",
        ),
        (
            r#"{"index":"1","components":[]}"#,
            ViewPart::Whole,
            "B4 components",
        ),
    ];
    for (text, part, wanted) in cases {
        try_view(&rt, alloc, text, part, wanted)?;
    }
    Ok(())
}
