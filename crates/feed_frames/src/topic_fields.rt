//! What is said of topics and in comments.
ghost use Rattle.std.specs.Prelude.{◌≡◌, ◌++◌, OnOk};
ghost use Rattle.feed_frames.specs.EntryBytes.{topic_front_bytes, topic_back_bytes, topic_bytes, comment_bytes};
ghost use Rattle.feed_frames.specs.inner.Readers.{Gives};
ghost use Rattle.feed_frames.specs.inner.EntryReaders.{topic_front_at, topic_back_at, topic_at, comment_at};

use crate::field::Field;
use crate::read_error::ReadError;
use crate::unread::Unread;
use bcf_topics::{CommentBody, TopicBody};
use bim_model::{Items, Moment, Text};
use std::alloc::{AllocError, Global};

// The first five fields of what is said of a topic.
#[derive(Drop)]
struct TopicFront {
    title: Text,
    topic_type: Option<Text>,
    topic_status: Option<Text>,
    priority: Option<Text>,
    index: Option<i32>,
}

// The last five.
#[derive(Drop)]
struct TopicBack {
    labels: Items<Text>,
    assigned_to: Option<Text>,
    stage: Option<Text>,
    description: Option<Text>,
    due: Option<Moment>,
}

#[tactic(auto, unfolding(crate::specs::EntryBytes::topic_front_bytes))]
fn put_front(topic: &TopicBody, out: &mut Vec<u8>) -> Result<(), AllocError>
    ensures { OnOk result (out.new.items ≡ out.old.items ++ topic_front_bytes topic.now) }
{
    topic.title.write_to(out)?;
    topic.topic_type.write_to(out)?;
    topic.topic_status.write_to(out)?;
    topic.priority.write_to(out)?;
    topic.index.write_to(out)
}

#[tactic(auto, unfolding(crate::specs::EntryBytes::topic_back_bytes))]
fn put_back(topic: &TopicBody, out: &mut Vec<u8>) -> Result<(), AllocError>
    ensures { OnOk result (out.new.items ≡ out.old.items ++ topic_back_bytes topic.now) }
{
    topic.labels.write_to(out)?;
    topic.assigned_to.write_to(out)?;
    topic.stage.write_to(out)?;
    topic.description.write_to(out)?;
    topic.due.write_to(out)
}

#[tactic(auto, unfolding(crate::specs::inner::EntryReaders::topic_front_at))]
fn take_front(alloc: Global, unread: &mut Unread) -> Result<TopicFront, ReadError>
    ensures { Gives result unread.new (topic_front_at unread.old) }
{
    let title = Text::read_from(alloc, unread)?;
    let topic_type = Option::<Text>::read_from(alloc, unread)?;
    let topic_status = Option::<Text>::read_from(alloc, unread)?;
    let priority = Option::<Text>::read_from(alloc, unread)?;
    let index = Option::<i32>::read_from(alloc, unread)?;
    Ok(TopicFront {
        title,
        topic_type,
        topic_status,
        priority,
        index,
    })
}

#[tactic(auto, unfolding(crate::specs::inner::EntryReaders::topic_back_at))]
fn take_back(alloc: Global, unread: &mut Unread) -> Result<TopicBack, ReadError>
    ensures { Gives result unread.new (topic_back_at unread.old) }
{
    let labels = Items::<Text>::read_from(alloc, unread)?;
    let assigned_to = Option::<Text>::read_from(alloc, unread)?;
    let stage = Option::<Text>::read_from(alloc, unread)?;
    let description = Option::<Text>::read_from(alloc, unread)?;
    let due = Option::<Moment>::read_from(alloc, unread)?;
    Ok(TopicBack {
        labels,
        assigned_to,
        stage,
        description,
        due,
    })
}

impl Field for TopicBody {
    ghost spelling = { topic_bytes };

    ghost reading = { topic_at };

    #[tactic(auto, unfolding(crate::specs::EntryBytes::topic_bytes))]
    fn write_to(&self, out: &mut Vec<u8>) -> Result<(), AllocError> {
        put_front(self, out)?;
        put_back(self, out)
    }

    #[tactic(auto, unfolding(crate::specs::inner::EntryReaders::topic_at))]
    fn read_from(alloc: Global, unread: &mut Unread) -> Result<TopicBody, ReadError> {
        let front = take_front(alloc, unread)?;
        let back = take_back(alloc, unread)?;
        Ok(TopicBody {
            title: front.title,
            topic_type: front.topic_type,
            topic_status: front.topic_status,
            priority: front.priority,
            index: front.index,
            labels: back.labels,
            assigned_to: back.assigned_to,
            stage: back.stage,
            description: back.description,
            due: back.due,
        })
    }
}

impl Field for CommentBody {
    ghost spelling = { comment_bytes };

    ghost reading = { comment_at };

    #[tactic(auto, unfolding(crate::specs::EntryBytes::comment_bytes))]
    fn write_to(&self, out: &mut Vec<u8>) -> Result<(), AllocError> {
        self.comment.write_to(out)?;
        self.viewpoint.write_to(out)
    }

    #[tactic(auto, unfolding(crate::specs::inner::EntryReaders::comment_at))]
    fn read_from(alloc: Global, unread: &mut Unread) -> Result<CommentBody, ReadError> {
        let comment = Text::read_from(alloc, unread)?;
        let viewpoint = Option::<u64>::read_from(alloc, unread)?;
        Ok(CommentBody { comment, viewpoint })
    }
}
