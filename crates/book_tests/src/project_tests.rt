//! A book of two projects: what is made and listed, and what is refused.
ghost use Rattle.std.specs.Prelude.{◌≡◌, ◌+◌, OnOk, IfOk};
ghost use Rattle.book_history.specs.History.{IsBefore};
ghost use Rattle.federation_book.specs.inner.AnyTime.{IsFree};

use crate::desk::change;
use crate::samples::to_post;
use bcf_topics::Topic;
use bim_model::{Model, NamedModel, Shared, Text, id_of};
use book_history::{
    BookCall, BookFault, BookRequest, Change, Entry, Limits, ReplyBody, Stamp, Wanted,
};
use federation_book::Book;
use std::alloc::{AllocError, Global};
use std::process::Abort;
use std::test::Fail;

fn stamp(turn: u64) -> Stamp
    ensures { result.turn ≡ turn }
{
    Stamp {
        turn,
        pass: 0,
        call: turn,
    }
}

fn post(
    alloc: Global,
    book: &mut Book,
    turn: u64,
    project: u128,
    title: &str,
) -> Result<ReplyBody, AllocError>
    requires { IsBefore turn book.old.journal }
    ensures { OnOk result (IsBefore (turn + 1) book.new.journal) }
{
    let request = to_post(alloc, project, title)?;
    let call = BookCall {
        seen: None,
        request,
    };
    let reply = book.act(stamp(turn), call)?;
    Ok(reply.body)
}

fn list(book: &mut Book, turn: u64, project: u128) -> Result<ReplyBody, AllocError>
    requires { IsBefore turn book.old.journal }
    ensures { OnOk result (IsBefore (turn + 1) book.new.journal) }
{
    let call = BookCall {
        seen: None,
        request: BookRequest::ListTopics { project },
    };
    let reply = book.act(stamp(turn), call)?;
    Ok(reply.body)
}

// Makes a topic, and it has this serial number.
fn posts(
    rt: &impl Abort,
    alloc: Global,
    book: &mut Book,
    turn: u64,
    project: u128,
    title: &str,
) -> Result<(), AllocError>
    requires { IsBefore turn book.old.journal }
    ensures { OnOk result (IsBefore (turn + 1) book.new.journal) }
{
    let body = post(alloc, book, turn, project, title)?;
    is_topic(rt, &body, 1, title);
    drop(body);
    Ok(())
}

fn lists(
    rt: &impl Abort,
    book: &mut Book,
    turn: u64,
    project: u128,
    titles: &[&str],
) -> Result<(), AllocError>
    requires { IsBefore turn book.old.journal }
    ensures { OnOk result (IsBefore (turn + 1) book.new.journal) }
{
    let body = list(book, turn, project)?;
    is_list(rt, &body, titles);
    drop(body);
    Ok(())
}

fn posts_each(rt: &impl Abort, alloc: Global, book: &mut Book) -> Result<(), AllocError>
    requires { IsBefore 1 book.old.journal }
{
    posts(rt, alloc, book, 1, id_of(1, 0), "Pipe")?;
    posts(rt, alloc, book, 2, id_of(2, 0), "Beam")?;
    lists(rt, book, 3, id_of(2, 0), &["Beam"])?;
    is_journal(rt, book.journal());
    Ok(())
}

#[test]
fn each_project_has_its_topics(rt: HostRuntime) -> Result<(), Fail> {
    let mut book = Book::new(rt.alloc(), 2, Limits::stated())?;
    let posted = posts_each(&rt, rt.alloc(), &mut book);
    drop(book);
    Ok(posted?)
}

fn misses(rt: &impl Abort, alloc: Global, book: &mut Book) -> Result<(), AllocError>
    requires { IsBefore 1 book.old.journal }
{
    let body = list(book, 1, id_of(3, 0))?;
    is_refused(rt, &body);
    drop(body);
    let body = post(alloc, book, 2, id_of(1, 1), "Pipe")?;
    is_refused(rt, &body);
    drop(body);
    assert!(rt; book.journal().is_empty());
    Ok(())
}

#[test]
fn missing_projects_are_refused(rt: HostRuntime) -> Result<(), Fail> {
    let mut book = Book::new(rt.alloc(), 2, Limits::stated())?;
    let missed = misses(&rt, rt.alloc(), &mut book);
    drop(book);
    Ok(missed?)
}

pub fn is_refused(rt: &impl Abort, body: &ReplyBody) {
    assert!(rt; matches!(body, ReplyBody::Refused(BookFault::NoProject)));
}

pub fn is_topic(rt: &impl Abort, body: &ReplyBody, serial: u64, title: &str) {
    match body {
        ReplyBody::TopicIs(topic) => is_made(rt, topic, serial, title),
        _ => assert!(rt; false),
    }
}

fn is_made(rt: &impl Abort, topic: &Topic, serial: u64, title: &str) {
    assert_eq!(rt; topic.serial, serial);
    assert_eq!(rt; topic.body.title.as_str(), title);
    assert_eq!(rt; topic.created.user.as_str(), "anna");
    assert_eq!(rt; topic.created.moment.seconds(), 1_714_564_800);
}

pub fn is_list(rt: &impl Abort, body: &ReplyBody, titles: &[&str]) {
    match body {
        ReplyBody::TopicList(topics) => are_made(rt, topics.as_slice(), titles),
        _ => assert!(rt; false),
    }
}

fn are_made(rt: &impl Abort, topics: &[Shared<Topic>], titles: &[&str]) {
    assert_eq!(rt; topics.len(), titles.len());
    let mut serial = 0_u64;
    for (topic, title) in topics.iter().zip(titles) {
        serial = serial.saturating_add(1);
        is_made(rt, topic.get(), serial, title);
    }
}

fn is_journal(rt: &impl Abort, journal: &[Entry]) {
    let wanted = [(1, 1, "Pipe"), (2, 2, "Beam")];
    assert_eq!(rt; journal.len(), wanted.len());
    for (entry, (turn, project, title)) in journal.iter().zip(wanted) {
        assert_eq!(rt; entry.stamp.turn, turn);
        assert_eq!(rt; entry.project, project);
        is_post(rt, &entry.change, title);
    }
}

fn is_post(rt: &impl Abort, change: &Change, title: &str) {
    match change {
        Change::PostTopic {
            body,
            author,
            weight,
        } => {
            assert_eq!(rt; body.title.as_str(), title);
            assert_eq!(rt; author.user.as_str(), "anna");
            assert_eq!(rt; *weight, 17);
        }
        _ => assert!(rt; false),
    }
}

// Asks for the newest version of a project: its number, and the names of its models.
fn try_version(
    rt: &impl Abort,
    book: &mut Book,
    turn: u64,
    project: u128,
    wanted: u64,
    names: &[&str],
) -> Result<(), AllocError>
    requires { IsBefore turn book.old.journal }
    ensures { OnOk result (IsBefore (turn + 1) book.new.journal) }
{
    let version = Wanted::Newest;
    let request = BookRequest::ReadVersion { project, version };
    let call = BookCall {
        seen: None,
        request,
    };
    let reply = book.act(stamp(turn), call)?;
    is_version(rt, &reply.body, wanted, names);
    drop(reply);
    Ok(())
}

fn is_version(rt: &impl Abort, body: &ReplyBody, wanted: u64, names: &[&str]) {
    match body {
        ReplyBody::Version {
            version,
            newest,
            snapshot,
        } => {
            assert_eq!(rt; (*version, *newest), (wanted, wanted));
            are_named(rt, snapshot.get().models(), names);
            assert_eq!(rt; snapshot.get().rules().list().len(), 0);
        }
        _ => assert!(rt; false),
    }
}

fn are_named(rt: &impl Abort, models: &[NamedModel], names: &[&str]) {
    assert_eq!(rt; models.len(), names.len());
    for (model, name) in models.iter().zip(names) {
        assert_eq!(rt; model.name.as_str(), *name);
    }
}

// A model without elements is put in its place.
fn to_upload(alloc: Global, project: u128, name: &str) -> Result<BookRequest, AllocError>
    ensures { IfOk result IsFree }
{
    let model = Shared::new(alloc, Model::of(alloc, Vec::new(alloc))?)?;
    Ok(BookRequest::Upload {
        project,
        name: Text::of(alloc, name)?,
        model,
    })
}

// Uploads a model, and this version is made.
fn uploads(
    rt: &impl Abort,
    alloc: Global,
    book: &mut Book,
    turn: u64,
    at: (u128, &str),
    version: u64,
) -> Result<(), Fail>
    requires { IsBefore turn book.old.journal }
    ensures { OnOk result (IsBefore (turn + 1) book.new.journal) }
{
    let (project, name) = at;
    let request = to_upload(alloc, project, name)?;
    change(rt, book, turn, request, (version, 0, 0, 0))
}

fn uploads_each(rt: &impl Abort, alloc: Global, book: &mut Book) -> Result<(), Fail>
    requires { IsBefore 1 book.old.journal }
{
    let first = id_of(1, 0);
    let second = id_of(2, 0);
    uploads(rt, alloc, book, 1, (first, "m"), 1)?;
    uploads(rt, alloc, book, 2, (second, "b"), 1)?;
    uploads(rt, alloc, book, 3, (first, "a"), 2)?;
    try_version(rt, book, 4, first, 2, &["a", "m"])?;
    assert_eq!(rt; book.journal().len(), 3);
    Ok(())
}

#[test]
fn each_upload_makes_a_version(rt: HostRuntime) -> Result<(), Fail> {
    let mut book = Book::new(rt.alloc(), 2, Limits::stated())?;
    let uploaded = uploads_each(&rt, rt.alloc(), &mut book);
    drop(book);
    uploaded
}
