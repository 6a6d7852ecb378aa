//! A board on which all three kinds of objects are made, replaced and deleted.
ghost use Rattle.std.specs.Prelude.{◌≡◌, IfOk, OnOk, IsSome};
ghost use Rattle.bim_model.specs.Guids.{IsGuid};
ghost use Rattle.book_topics.specs.Boards.{topic_at, comment_at, view_at};

use bim_model::{Guid, Items, Moment, Text, id_of};
use book_topics::{
    Author, Board, CheckedBody, Comment, CommentBody, CommentIn, Topic, TopicBody, ViewBody,
};
use std::alloc::{AllocError, Global};
use std::process::Abort;
use std::test::Fail;

fn author(alloc: Global, user: &str) -> Result<Author, AllocError> {
    Ok(Author {
        user: Text::of(alloc, user)?,
        moment: Moment::new(1_714_564_800),
    })
}

fn topic_body(alloc: Global, title: &str) -> Result<TopicBody, AllocError> {
    Ok(TopicBody {
        title: Text::of(alloc, title)?,
        topic_type: None,
        topic_status: None,
        priority: None,
        index: None,
        labels: Items::new(alloc),
        assigned_to: None,
        stage: None,
        description: None,
        due: None,
    })
}

fn view_body(alloc: Global) -> CheckedBody {
    CheckedBody::of(ViewBody {
        index: Some(7),
        selection: Items::new(alloc),
        coloring: Items::new(alloc),
        default_visibility: true,
        exceptions: Items::new(alloc),
    })
}

fn guid(text: &[u8]) -> Result<Guid, Fail>
    ensures { IfOk result (λ guid. IsGuid guid.chars) }
{
    match Guid::read(text) {
        Some(guid) => Ok(guid),
        None => Err(Fail::from("no identifier")),
    }
}

// The topic 1 of the project 1.
fn pipe(board: &Board) -> Result<u64, Fail>
    ensures { IfOk result (λ topic. IsSome (topic_at board.now topic)) }
{
    match board.topic_named(1, id_of(1, 1)) {
        Some(topic) => Ok(topic),
        None => Err(Fail::from("no topic")),
    }
}

// Its viewpoint 2.
fn view_of(board: &Board, topic: u64) -> Result<u64, Fail>
    ensures { IfOk result (λ view. IsSome (view_at board.now topic view)) }
{
    match board.view_named(1, topic, id_of(1, 2)) {
        Some(view) => Ok(view),
        None => Err(Fail::from("no viewpoint")),
    }
}

// Its comment 3.
fn comment_of(board: &Board, topic: u64) -> Result<u64, Fail>
    ensures { IfOk result (λ comment. IsSome (comment_at board.now topic comment)) }
{
    match board.comment_named(1, topic, id_of(1, 3)) {
        Some(comment) => Ok(comment),
        None => Err(Fail::from("no comment")),
    }
}

fn post(
    alloc: Global,
    board: &mut Board,
    body: &TopicBody,
    author: &Author,
) -> Result<(), AllocError>
    requires { board.old.made ≡ 0 }
    ensures { OnOk result (board.new.made ≡ 1) }
{
    let topic = board.post_topic(alloc, body, author)?;
    drop(topic);
    Ok(())
}

fn post_pipe(alloc: Global, board: &mut Board, author: &Author) -> Result<(), AllocError>
    requires { board.old.made ≡ 0 }
    ensures { OnOk result (board.new.made ≡ 1) }
{
    let body = topic_body(alloc, "Pipe")?;
    let posted = post(alloc, board, &body, author);
    drop(body);
    posted
}

// A board with one topic.
fn with_pipe(alloc: Global) -> Result<Board, AllocError>
    ensures { IfOk result (λ board. board.made ≡ 1) }
{
    let author = author(alloc, "anna")?;
    let mut board = Board::new(alloc);
    post_pipe(alloc, &mut board, &author)?;
    Ok(board)
}

fn post_view(alloc: Global, board: &mut Board) -> Result<(), Fail>
    requires { board.old.made ≡ 1 }
    ensures { OnOk result (board.new.made ≡ 2) }
{
    let topic = pipe(board)?;
    let body = view_body(alloc);
    let posted = board.post_view(alloc, topic, &body);
    drop(body);
    drop(posted?);
    Ok(())
}

// .. and a viewpoint of it.
fn with_view(alloc: Global) -> Result<Board, Fail>
    ensures { IfOk result (λ board. board.made ≡ 2) }
{
    let mut board = with_pipe(alloc)?;
    post_view(alloc, &mut board)?;
    Ok(board)
}

fn sent(alloc: Global) -> Result<CommentIn, AllocError> {
    Ok(CommentIn {
        comment: Text::of(alloc, "Move it")?,
        viewpoint: Some(id_of(1, 2)),
    })
}

fn post_body(
    alloc: Global,
    board: &mut Board,
    topic: u64,
    body: &CommentBody,
) -> Result<(), AllocError>
    requires there { IsSome (topic_at board.old topic) }
    requires made { board.old.made ≡ 2 }
    ensures { OnOk result (board.new.made ≡ 3) }
{
    let author = author(alloc, "eva")?;
    let comment = board.post_comment(alloc, topic, body, &author);
    drop(author);
    drop(comment?);
    Ok(())
}

fn post_comment(alloc: Global, board: &mut Board) -> Result<(), Fail>
    requires { board.old.made ≡ 2 }
    ensures { OnOk result (board.new.made ≡ 3) }
{
    let topic = pipe(board)?;
    let sent = sent(alloc)?;
    let Some(body) = board.comment_kept(1, topic, sent) else {
        return Err(Fail::from("no viewpoint"));
    };
    let posted = post_body(alloc, board, topic, &body);
    drop(body);
    Ok(posted?)
}

// .. and a comment on it that names the viewpoint.
fn with_comment(alloc: Global) -> Result<Board, Fail>
    ensures { IfOk result (λ board. board.made ≡ 3) }
{
    let mut board = with_view(alloc)?;
    post_comment(alloc, &mut board)?;
    Ok(board)
}

fn counts(board: &Board) -> (u64, u64, u64) {
    (
        board.topic_count(),
        board.comment_count(),
        board.view_count(),
    )
}

fn topics_listed(alloc: Global, board: &Board) -> Result<usize, AllocError> {
    let topics = board.topics(alloc)?;
    let count = topics.len();
    drop(topics);
    Ok(count)
}

fn comments_listed(alloc: Global, board: &Board) -> Result<usize, AllocError> {
    let comments = board.comments(alloc, 1)?;
    let count = comments.len();
    drop(comments);
    Ok(count)
}

fn views_listed(board: &Board) -> Result<usize, AllocError> {
    let views = board.views(1)?;
    let count = views.len();
    drop(views);
    Ok(count)
}

fn is_viewed(alloc: Global, board: &Board) -> Result<bool, AllocError> {
    let view = board.view(alloc, 1, 2)?;
    let is_viewed = view.is_some();
    drop(view);
    Ok(is_viewed)
}

// How long the lists are: of topics, comments and viewpoints.
fn listed(alloc: Global, board: &Board) -> Result<(usize, usize, usize), AllocError> {
    let topics = topics_listed(alloc, board)?;
    let comments = comments_listed(alloc, board)?;
    Ok((topics, comments, views_listed(board)?))
}

// Identifiers name objects of their kind and project alone.
fn names_each(rt: &impl Abort, board: &Board) {
    assert_eq!(rt; counts(board), (1, 1, 1));
    assert_eq!(rt; board.comment_named(1, 1, id_of(1, 3)), Some(3));
    assert_eq!(rt; board.comment_named(1, 1, id_of(1, 2)), None);
    assert_eq!(rt; board.topic_named(2, id_of(1, 1)), None);
}

fn holds_each(rt: &impl Abort, alloc: Global, board: &Board) -> Result<(), AllocError> {
    assert_eq!(rt; listed(alloc, board)?, (1, 1, 1));
    assert!(rt; is_viewed(alloc, board)?);
    names_each(rt, board);
    Ok(())
}

#[test]
fn objects_are_made(rt: HostRuntime) -> Result<(), Fail> {
    let board = with_comment(rt.alloc())?;
    let held = holds_each(&rt, rt.alloc(), &board);
    drop(board);
    Ok(held?)
}

fn put_body(
    alloc: Global,
    board: &mut Board,
    topic: u64,
    author: &Author,
) -> Result<Topic, AllocError>
    requires { IsSome (topic_at board.old topic) }
{
    let body = topic_body(alloc, "Duct")?;
    let put = board.put_topic(alloc, topic, &body, author);
    drop(body);
    put
}

fn put_duct(rt: &impl Abort, alloc: Global, board: &mut Board) -> Result<(), Fail> {
    let topic = pipe(board)?;
    let author = author(alloc, "eva")?;
    let put = put_body(alloc, board, topic, &author);
    drop(author);
    let put = put?;
    is_duct(rt, &put);
    drop(put);
    Ok(())
}

fn is_duct(rt: &impl Abort, topic: &Topic) {
    assert_eq!(rt; topic.body.title.as_str(), "Duct");
    assert_eq!(rt; topic.created.user.as_str(), "anna");
}

fn has_duct(rt: &impl Abort, board: &Board) {
    match board.topic(1) {
        Some(topic) => is_duct(rt, topic),
        None => assert!(rt; false),
    }
}

#[test]
fn bodies_are_replaced(rt: HostRuntime) -> Result<(), Fail> {
    let mut board = with_comment(rt.alloc())?;
    let put = put_duct(&rt, rt.alloc(), &mut board);
    has_duct(&rt, &board);
    drop(board);
    put
}

fn moved(alloc: Global) -> Result<CommentBody, AllocError> {
    Ok(CommentBody {
        comment: Text::of(alloc, "Moved")?,
        viewpoint: None,
    })
}

fn put_comment(
    alloc: Global,
    board: &mut Board,
    topic: u64,
    comment: u64,
    author: &Author,
) -> Result<Comment, AllocError>
    requires topic { IsSome (topic_at board.old topic) }
    requires there { IsSome (comment_at board.old topic comment) }
{
    let body = moved(alloc)?;
    let put = board.put_comment(alloc, topic, comment, &body, author);
    drop(body);
    put
}

fn put_moved(rt: &impl Abort, alloc: Global, board: &mut Board) -> Result<(), Fail> {
    let topic = pipe(board)?;
    let comment = comment_of(board, topic)?;
    let author = author(alloc, "otto")?;
    let put = put_comment(alloc, board, topic, comment, &author);
    drop(author);
    let put = put?;
    is_moved(rt, &put);
    drop(put);
    Ok(())
}

fn is_moved(rt: &impl Abort, comment: &Comment) {
    assert_eq!(rt; comment.body.comment.as_str(), "Moved");
    assert_eq!(rt; comment.body.viewpoint, None);
}

fn has_moved(rt: &impl Abort, board: &Board) {
    match board.comment(1, 3) {
        Some(comment) => is_moved(rt, comment),
        None => assert!(rt; false),
    }
}

fn delete_comment(board: &mut Board) -> Result<(), Fail> {
    let topic = pipe(board)?;
    let comment = comment_of(board, topic)?;
    board.delete_comment(topic, comment);
    Ok(())
}

// The comment is replaced, and then deleted.
fn replaces(rt: &impl Abort, alloc: Global, board: &mut Board) -> Result<(), Fail> {
    put_moved(rt, alloc, board)?;
    has_moved(rt, board);
    delete_comment(board)?;
    assert_eq!(rt; counts(board), (1, 0, 1));
    Ok(())
}

#[test]
fn comments_are_replaced(rt: HostRuntime) -> Result<(), Fail> {
    let mut board = with_comment(rt.alloc())?;
    let replaced = replaces(&rt, rt.alloc(), &mut board);
    drop(board);
    replaced
}

fn delete_view(board: &mut Board) -> Result<(), Fail> {
    let topic = pipe(board)?;
    let view = view_of(board, topic)?;
    board.delete_view(topic, view);
    Ok(())
}

fn delete_topic(board: &mut Board) -> Result<(), Fail> {
    let topic = pipe(board)?;
    board.delete_topic(topic);
    Ok(())
}

// Its view goes, and then the topic.
fn goes(rt: &impl Abort, board: &mut Board) -> Result<(), Fail> {
    delete_view(board)?;
    assert_eq!(rt; counts(board), (1, 1, 0));
    delete_topic(board)?;
    assert_eq!(rt; counts(board), (0, 0, 0));
    Ok(())
}

#[test]
fn a_topic_goes_with_all_of_it(rt: HostRuntime) -> Result<(), Fail> {
    let mut board = with_comment(rt.alloc())?;
    let gone = goes(&rt, &mut board);
    drop(board);
    gone
}

fn post_clash(alloc: Global, board: &mut Board) -> Result<Topic, Fail>
    requires { board.old.made ≡ 1 }
{
    let a = guid(b"0000000000000000000011")?;
    let b = guid(b"0000000000000000000012")?;
    let author = author(alloc, "anna")?;
    let posted = board.post_clash(alloc, &a, &b, &author);
    drop(author);
    Ok(posted?)
}

fn is_clash(rt: &impl Abort, topic: &Topic) {
    assert_eq!(rt; topic.serial, 2);
    assert_eq!(rt;
        topic.body.title.as_str(),
        "Clash of 0000000000000000000011 and 0000000000000000000012"
    );
}

// How many components the viewpoint of the clash selects. None where there is no viewpoint.
fn selected(alloc: Global, board: &Board) -> Result<Option<usize>, AllocError> {
    let view = board.view(alloc, 2, 3)?;
    let count = match &view {
        Some(view) => Some(view.get().body.selection.len()),
        None => None,
    };
    drop(view);
    Ok(count)
}

#[test]
fn a_clash_makes_a_topic_and_a_viewpoint(rt: HostRuntime) -> Result<(), Fail> {
    let mut board = with_pipe(rt.alloc())?;
    let topic = post_clash(rt.alloc(), &mut board)?;
    is_clash(&rt, &topic);
    drop(topic);
    let selected = selected(rt.alloc(), &board);
    drop(board);
    assert_eq!(rt; selected?, Some(2));
    Ok(())
}
