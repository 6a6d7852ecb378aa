//! Topics, comments and viewpoints from request to request.
ghost use Rattle.std.specs.Prelude.{◌≡◌, ◌+◌, OnOk, IfOk};
ghost use Rattle.book_history.specs.History.{IsBefore};
ghost use Rattle.federation_book.specs.inner.AnyTime.{IsFree};

use crate::desk::{ask, refuse};
use crate::samples::{author, said, seen, titled, to_post};
use bcf_topics::{Comment, Topic};
use bim_model::id_of;
use book_history::{BookFault, BookRequest, Limits, ReplyBody};
use federation_book::Book;
use std::alloc::{AllocError, Global};
use std::process::Abort;
use std::test::Fail;

fn project() -> u128 {
    id_of(1, 0)
}

// The topic of the tests.
fn pipe() -> u128 {
    id_of(1, 1)
}

fn topic_line(alloc: Global, topic: &Topic) -> Result<String, AllocError> {
    let (serial, title) = (topic.serial, topic.body.title.as_str());
    let (maker, labels) = (topic.created.user.as_str(), topic.body.labels.len());
    match &topic.modified {
        Some(author) => {
            let editor = author.user.as_str();
            format!(in alloc; "topic {serial} {title} {maker} {editor} {labels}")
        }
        None => format!(in alloc; "topic {serial} {title} {maker}"),
    }
}

fn comment_line(alloc: Global, comment: &Comment) -> Result<String, AllocError> {
    let (serial, topic) = (comment.serial, comment.topic);
    let (text, maker) = (comment.body.comment.as_str(), comment.created.user.as_str());
    match &comment.modified {
        Some(author) => {
            let editor = author.user.as_str();
            format!(in alloc; "comment {serial} {topic} {text} {maker} {editor}")
        }
        None => format!(in alloc; "comment {serial} {topic} {text} {maker}"),
    }
}

// A reply in a line.
fn line_of(alloc: Global, body: &ReplyBody) -> Result<String, AllocError> {
    match body {
        ReplyBody::TopicIs(topic) => topic_line(alloc, topic),
        ReplyBody::CommentIs(comment) => comment_line(alloc, comment),
        ReplyBody::View(view) => {
            let (serial, shown) = (view.get().serial, view.get().body.default_visibility);
            format!(in alloc; "view {serial} {shown}")
        }
        ReplyBody::TopicList(list) => format!(in alloc; "{} topics", list.len()),
        ReplyBody::CommentList(list) => format!(in alloc; "{} comments", list.len()),
        ReplyBody::ViewList(list) => format!(in alloc; "{} views", list.len()),
        ReplyBody::Projects(list) => format!(in alloc; "{} projects", list.len()),
        ReplyBody::Project(number) => format!(in alloc; "project {number}"),
        ReplyBody::Gone => format!(in alloc; "gone"),
        _ => format!(in alloc; "another"),
    }
}

// Asks at a turn: the reply is this line.
fn says(
    rt: &impl Abort,
    alloc: Global,
    book: &mut Book,
    turn: u64,
    request: BookRequest,
    wanted: &str,
) -> Result<(), Fail>
    requires before { IsBefore turn book.old.journal }
    requires free { IsFree request }
    ensures { OnOk result (IsBefore (turn + 1) book.new.journal) }
{
    let body = ask(book, turn, request)?;
    let line = line_of(alloc, &body);
    drop(body);
    let line = line?;
    assert_eq!(rt; line.as_str(), wanted);
    Ok(())
}

fn to_put(alloc: Global, topic: u128, user: &str) -> Result<BookRequest, AllocError>
    ensures { IfOk result IsFree }
{
    let author = author(alloc, user)?;
    Ok(BookRequest::PutTopic {
        project: project(),
        topic,
        body: titled(alloc, "Duct")?,
        author,
        weight: 16,
    })
}

fn to_comment(
    alloc: Global,
    topic: u128,
    viewpoint: Option<u128>,
) -> Result<BookRequest, AllocError>
    ensures { IfOk result IsFree }
{
    let author = author(alloc, "anna")?;
    Ok(BookRequest::PostComment {
        project: project(),
        topic,
        body: said(alloc, "Move it", viewpoint)?,
        author,
        weight: 21,
    })
}

fn to_put_comment(alloc: Global, comment: u128, viewpoint: u128) -> Result<BookRequest, AllocError>
    ensures { IfOk result IsFree }
{
    let author = author(alloc, "eva")?;
    Ok(BookRequest::PutComment {
        project: project(),
        topic: pipe(),
        comment,
        body: said(alloc, "Moved", Some(viewpoint))?,
        author,
        weight: 40,
    })
}

fn to_view(alloc: Global, topic: u128) -> BookRequest
    ensures { IsFree result }
{
    BookRequest::PostView {
        project: project(),
        topic,
        body: seen(alloc),
        weight: 0,
    }
}

fn read_comment(comment: u128) -> BookRequest
    ensures { IsFree result }
{
    BookRequest::ReadComment {
        project: project(),
        topic: pipe(),
        comment,
    }
}

fn read_view(topic: u128, view: u128) -> BookRequest
    ensures { IsFree result }
{
    BookRequest::ReadView {
        project: project(),
        topic,
        view,
    }
}

fn list_comments(topic: u128) -> BookRequest
    ensures { IsFree result }
{
    BookRequest::ListComments {
        project: project(),
        topic,
    }
}

fn list_views(topic: u128) -> BookRequest
    ensures { IsFree result }
{
    BookRequest::ListViews {
        project: project(),
        topic,
    }
}

// The topic 1, the viewpoint 2 of it, and the comment 3 on it that names the viewpoint.
fn talked(rt: &impl Abort, alloc: Global, book: &mut Book) -> Result<(), Fail>
    requires { IsBefore 1 book.old.journal }
    ensures { OnOk result (IsBefore 4 book.new.journal) }
{
    let post = to_post(alloc, project(), "Pipe")?;
    says(rt, alloc, book, 1, post, "topic 1 Pipe anna")?;
    says(rt, alloc, book, 2, to_view(alloc, pipe()), "view 2 true")?;
    let comment = to_comment(alloc, pipe(), Some(id_of(1, 2)))?;
    says(rt, alloc, book, 3, comment, "comment 3 1 Move it anna")
}

fn replaced(rt: &impl Abort, alloc: Global, book: &mut Book) -> Result<(), Fail>
    requires { IsBefore 1 book.old.journal }
{
    talked(rt, alloc, book)?;
    let put = to_put_comment(alloc, id_of(1, 3), id_of(1, 2))?;
    says(rt, alloc, book, 4, put, "comment 3 1 Moved anna eva")?;
    let put = to_put(alloc, pipe(), "eva")?;
    says(rt, alloc, book, 5, put, "topic 1 Duct anna eva 0")?;
    let read = read_comment(id_of(1, 3));
    says(rt, alloc, book, 6, read, "comment 3 1 Moved anna eva")?;
    let read = read_view(pipe(), id_of(1, 2));
    says(rt, alloc, book, 7, read, "view 2 true")?;
    assert_eq!(rt; book.journal().len(), 5);
    Ok(())
}

#[test]
fn bodies_are_replaced(rt: HostRuntime) -> Result<(), Fail> {
    let mut book = Book::new(rt.alloc(), 1, Limits::stated())?;
    let done = replaced(&rt, rt.alloc(), &mut book);
    drop(book);
    done
}

fn gone_with_all(rt: &impl Abort, alloc: Global, book: &mut Book) -> Result<(), Fail>
    requires { IsBefore 1 book.old.journal }
{
    talked(rt, alloc, book)?;
    says(rt, alloc, book, 4, list_comments(pipe()), "1 comments")?;
    says(rt, alloc, book, 5, list_views(pipe()), "1 views")?;
    let gone = BookRequest::DeleteTopic {
        project: project(),
        topic: pipe(),
    };
    says(rt, alloc, book, 6, gone, "gone")?;
    refuse(rt, book, 7, list_comments(pipe()), BookFault::NoTopic)?;
    let post = to_post(alloc, project(), "Beam")?;
    says(rt, alloc, book, 8, post, "topic 4 Beam anna")
}

#[test]
fn a_topic_goes_with_what_was_said(rt: HostRuntime) -> Result<(), Fail> {
    let mut book = Book::new(rt.alloc(), 1, Limits::stated())?;
    let done = gone_with_all(&rt, rt.alloc(), &mut book);
    drop(book);
    done
}

fn outlived(rt: &impl Abort, alloc: Global, book: &mut Book) -> Result<(), Fail>
    requires { IsBefore 1 book.old.journal }
{
    talked(rt, alloc, book)?;
    let gone = BookRequest::DeleteView {
        project: project(),
        topic: pipe(),
        view: id_of(1, 2),
    };
    says(rt, alloc, book, 4, gone, "gone")?;
    let read = read_comment(id_of(1, 3));
    says(rt, alloc, book, 5, read, "comment 3 1 Move it anna")?;
    let gone = BookRequest::DeleteComment {
        project: project(),
        topic: pipe(),
        comment: id_of(1, 3),
    };
    says(rt, alloc, book, 6, gone, "gone")?;
    refuse(rt, book, 7, read_comment(id_of(1, 3)), BookFault::NoComment)
}

#[test]
fn a_comment_outlives_its_viewpoint(rt: HostRuntime) -> Result<(), Fail> {
    let mut book = Book::new(rt.alloc(), 1, Limits::stated())?;
    let done = outlived(&rt, rt.alloc(), &mut book);
    drop(book);
    done
}

fn not_there(rt: &impl Abort, alloc: Global, book: &mut Book) -> Result<(), Fail>
    requires { IsBefore 1 book.old.journal }
{
    talked(rt, alloc, book)?;
    let other = to_post(alloc, project(), "Beam")?;
    says(rt, alloc, book, 4, other, "topic 4 Beam anna")?;
    let none = BookFault::NoViewpoint;
    let strange = to_comment(alloc, id_of(1, 4), Some(id_of(1, 2)))?;
    refuse(rt, book, 5, strange, none)?;
    refuse(rt, book, 6, read_view(id_of(1, 4), id_of(1, 2)), none)?;
    let put = to_put_comment(alloc, id_of(1, 2), id_of(1, 2))?;
    refuse(rt, book, 7, put, BookFault::NoComment)?;
    let put = to_put(alloc, id_of(1, 2), "eva")?;
    refuse(rt, book, 8, put, BookFault::NoTopic)?;
    assert_eq!(rt; book.journal().len(), 4);
    Ok(())
}

#[test]
fn what_is_not_there_is_refused(rt: HostRuntime) -> Result<(), Fail> {
    let mut book = Book::new(rt.alloc(), 1, Limits::stated())?;
    let done = not_there(&rt, rt.alloc(), &mut book);
    drop(book);
    done
}

fn too_many(rt: &impl Abort, alloc: Global, book: &mut Book) -> Result<(), Fail>
    requires { IsBefore 1 book.old.journal }
{
    says(rt, alloc, book, 1, BookRequest::ListProjects, "2 projects")?;
    let post = to_post(alloc, project(), "Pipe")?;
    says(rt, alloc, book, 2, post, "topic 1 Pipe anna")?;
    let (count, limit) = (2, 1);
    let full = BookFault::TopicsFull { count, limit };
    refuse(rt, book, 3, to_post(alloc, id_of(2, 0), "Pipe")?, full)?;
    let (count, limit) = (1, 0);
    let full = BookFault::CommentsFull { count, limit };
    refuse(rt, book, 4, to_comment(alloc, pipe(), None)?, full)?;
    let full = BookFault::ViewpointsFull { count, limit };
    refuse(rt, book, 5, to_view(alloc, pipe()), full)
}

#[test]
fn too_many_are_refused(rt: HostRuntime) -> Result<(), Fail> {
    let mut limits = Limits::stated();
    limits.topics = 1;
    limits.comments = 0;
    limits.viewpoints = 0;
    let mut book = Book::new(rt.alloc(), 2, limits)?;
    let done = too_many(&rt, rt.alloc(), &mut book);
    drop(book);
    done
}
