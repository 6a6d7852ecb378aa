//! Topics and comments come, change and go.
ghost use Rattle.std.specs.Prelude.{◌<◌, ◌^◌, All, IfOk};

use bcf_topics::{Author, Comment, CommentBody, Topic, TopicBody, TopicError, Topics};
use bim_model::{Duplicate, Items, Moment, Text};
use std::alloc::{AllocError, Global};
use std::process::Abort;
use std::test::Fail;

fn author(alloc: Global, user: &str) -> Result<Author, AllocError> {
    Ok(Author {
        user: Text::of(alloc, user)?,
        moment: Moment::new(1_714_564_800),
    })
}

fn topic_body(alloc: Global, title: &str, stage: Option<Text>) -> Result<TopicBody, AllocError> {
    Ok(TopicBody {
        title: Text::of(alloc, title)?,
        topic_type: None,
        topic_status: None,
        priority: None,
        index: None,
        labels: Items::new(alloc),
        assigned_to: None,
        stage,
        description: None,
        due: None,
    })
}

fn comment_body(alloc: Global, comment: &str) -> Result<CommentBody, AllocError> {
    Ok(CommentBody {
        comment: Text::of(alloc, comment)?,
        viewpoint: None,
    })
}

// The topic 1, made by anna.
fn with_pipe(alloc: Global) -> Result<Topics, AllocError>
    ensures { IfOk result (λ topics. All (λ t. t.serial < 4) topics.topics) }
{
    let mut topics = Topics::new(alloc);
    let stage = Some(Text::of(alloc, "Design")?);
    let pipe = topic_body(alloc, "Pipe", stage)?;
    topics.post_topic(1, pipe, author(alloc, "anna")?)?;
    Ok(topics)
}

// Besides that the topic 4.
fn with_duct(alloc: Global) -> Result<Topics, AllocError> {
    let mut topics = with_pipe(alloc)?;
    let duct = topic_body(alloc, "Duct", None)?;
    topics.post_topic(4, duct, author(alloc, "eva")?)?;
    Ok(topics)
}

// Eva comments on a topic.
fn reply(alloc: Global, topics: &mut Topics, topic: u64, serial: u64) -> Result<(), TopicError> {
    let body = comment_body(alloc, "Move it")?;
    topics.post_comment(serial, topic, body, author(alloc, "eva")?)
}

// The topics 1 and 4, with the comments 2, 3 and 6 on the first and 5 on the second.
fn discussed(alloc: Global) -> Result<Topics, TopicError> {
    let mut topics = with_duct(alloc)?;
    for (serial, topic) in [(6, 1), (2, 1), (5, 4), (3, 1)] {
        reply(alloc, &mut topics, topic, serial)?;
    }
    Ok(topics)
}

// Otto replaces a topic.
fn put_topic(alloc: Global, topics: &mut Topics, serial: u64) -> Result<(), TopicError> {
    let body = topic_body(alloc, "Beam", None)?;
    topics.put_topic(serial, body, author(alloc, "otto")?)
}

// Otto replaces a comment.
fn put_comment(
    alloc: Global,
    topics: &mut Topics,
    topic: u64,
    serial: u64,
) -> Result<(), TopicError> {
    let body = comment_body(alloc, "Moved")?;
    topics.put_comment(topic, serial, body, author(alloc, "otto")?)
}

fn is_otto(rt: &impl Abort, author: &Option<Author>) {
    match author {
        Some(author) => assert_eq!(rt; author.user.as_str(), "otto"),
        None => assert!(rt; false),
    }
}

fn is_put(rt: &impl Abort, topic: &Topic) {
    assert_eq!(rt; topic.body.title.as_str(), "Beam");
    assert!(rt; topic.body.stage.is_none());
    assert_eq!(rt; topic.created.user.as_str(), "anna");
    is_otto(rt, &topic.modified);
}

// A copy is put as well.
fn is_put_there(rt: &impl Abort, alloc: Global, topics: &Topics) -> Result<(), AllocError> {
    match topics.topic(1) {
        Some(topic) => is_put(rt, &topic.copy(alloc)?),
        None => assert!(rt; false),
    }
    Ok(())
}

#[test]
fn topics_are_put(rt: HostRuntime) -> Result<(), Fail> {
    let alloc = rt.alloc();
    let mut topics = discussed(alloc)?;
    put_topic(alloc, &mut topics, 1)?;
    is_put_there(&rt, alloc, &topics)?;
    let missing = put_topic(alloc, &mut topics, 2);
    assert_eq!(rt; missing, Err(TopicError::NoTopic));
    Ok(())
}

#[test]
fn topics_are_deleted_with_their_comments(rt: HostRuntime) -> Result<(), Fail> {
    let mut topics = discussed(rt.alloc())?;
    topics.delete_topic(1)?;
    assert_eq!(rt; topics.topics().len(), 1);
    assert_eq!(rt; topics.comment_count(), 1);
    assert!(rt; topics.comment(1, 2).is_none());
    assert_eq!(rt; topics.delete_topic(1), Err(TopicError::NoTopic));
    Ok(())
}

fn line_of(alloc: Global, comment: &Comment) -> Result<String, AllocError> {
    let copy = comment.copy(alloc)?;
    let serial = copy.serial;
    let text = copy.body.comment.as_str();
    let user = copy.created.user.as_str();
    format!(in alloc; "{serial} {text} {user};")
}

fn lines_on(alloc: Global, topics: &Topics, topic: u64) -> Result<String, AllocError>
    requires { topic < 2 ^ 48 }
{
    let mut lines = String::new(alloc);
    for comment in topics.comments(topic)? {
        let line = line_of(alloc, comment)?;
        lines.push_str(line.as_str())?;
    }
    Ok(lines)
}

#[test]
fn comments_are_put_and_listed(rt: HostRuntime) -> Result<(), Fail> {
    let alloc = rt.alloc();
    let mut topics = discussed(alloc)?;
    put_comment(alloc, &mut topics, 1, 3)?;
    assert_eq!(rt;
        lines_on(alloc, &topics, 1)?.as_str(),
        "2 Move it eva;3 Moved eva;6 Move it eva;"
    );
    assert_eq!(rt; lines_on(alloc, &topics, 7)?.as_str(), "");
    Ok(())
}

#[test]
fn comments_are_deleted(rt: HostRuntime) -> Result<(), Fail> {
    let mut topics = discussed(rt.alloc())?;
    topics.delete_comment(1, 3)?;
    assert!(rt; topics.comment(1, 3).is_none());
    assert_eq!(rt; topics.comment_count(), 3);
    Ok(())
}

#[test]
fn missing_comments_are_refused(rt: HostRuntime) -> Result<(), Fail> {
    let alloc = rt.alloc();
    let mut topics = discussed(alloc)?;
    let cases = [
        (2, 3, TopicError::NoTopic),
        (4, 3, TopicError::NoComment),
        (1, 5, TopicError::NoComment),
    ];
    for (topic, serial, error) in cases {
        let put = put_comment(alloc, &mut topics, topic, serial);
        assert_eq!(rt; put, Err(error));
        assert_eq!(rt; topics.delete_comment(topic, serial), Err(error));
    }
    Ok(())
}
