//! Topics that go out.
ghost use Rattle.std.specs.Prelude.{◌≡◌, ◌++◌, ◌∷◌, [], Some, map, option_map, IfOk, OnOk};
ghost use Rattle.serde_json.specs.Data.{string, object, no_members};
ghost use Rattle.serde_json.specs.View.{view, items_view, members_view};
ghost use Rattle.bcf_json.specs.JsonTexts.{IsDateText};
ghost use Rattle.bcf_bodies.specs.TextMembers.{put_text, listed};
ghost use Rattle.bcf_bodies.specs.TopicTrees.{moment_if, put_modified, put_labels, topic_base, put_words, put_rest, topic_members, IsDateIf, IsTopicTree};

use crate::objects::{put_index, put_text, put_text_if};
use bcf_json::{date_out, identifier_out};
use bcf_topics::{Author, Topic, TopicBody};
use bim_model::{Moment, Text};
use serde_json::{Map, Value, put};
use std::alloc::{AllocError, Global};

/// The date of a moment, if there is one.
pub fn date_if(alloc: Global, moment: Option<Moment>) -> Result<Option<Text>, AllocError>
    ensures { IfOk result (IsDateIf moment) }
{
    match moment {
        Some(moment) => Ok(Some(date_out(alloc, moment.seconds())?)),
        None => Ok(None),
    }
}

/// When a body was replaced last, if it ever was.
pub fn moment_if(author: &Option<Author>) -> Option<Moment>
    ensures { result ≡ moment_if author.now }
{
    match author {
        Some(author) => Some(author.moment),
        None => None,
    }
}

/// Puts who replaced a body last, and when, if anyone did.
pub fn put_modified(
    alloc: Global,
    members: &mut Map<String, Value>,
    author: &Option<Author>,
    date: &Option<Text>,
) -> Result<(), AllocError>
    ensures { OnOk result (members_view members.new.entries
        ≡ put_modified author.now date.now (members_view members.old.entries)) }
{
    match author {
        Some(author) => match date {
            Some(date) => {
                put_text(alloc, members, "modified_author", author.user.as_str())?;
                put_text(alloc, members, "modified_date", date.as_str())
            }
            None => Ok(()),
        },
        None => Ok(()),
    }
}

fn push_label(alloc: Global, trees: &mut Vec<Value>, label: &Text) -> Result<(), AllocError>
    ensures { OnOk result (map view trees.new.items ≡ map view trees.old.items ++ string label.now ∷ []) }
{
    let label = String::from_str(alloc, label.as_str())?;
    trees.push(Value::String(label))?;
    Ok(())
}

fn labels_out(alloc: Global, labels: &[Text]) -> Result<Vec<Value>, AllocError>
    ensures { IfOk result (λ trees. items_view trees.items ≡ listed (λ text. string text) labels.now) }
{
    let mut trees = Vec::with_capacity(alloc, labels.len())?;
    for label in labels {
        push_label(alloc, &mut trees, label)?;
    }
    Ok(trees)
}

fn put_labels(
    alloc: Global,
    members: &mut Map<String, Value>,
    labels: &[Text],
) -> Result<(), AllocError>
    ensures { OnOk result (members_view members.new.entries
        ≡ put_labels labels.now (members_view members.old.entries)) }
{
    if labels.is_empty() {
        return Ok(());
    }
    let trees = labels_out(alloc, labels)?;
    put(members, alloc, "labels", Value::Array(trees))
}

// What a topic always has.
#[tactic(auto, unfolding(crate::specs::TopicTrees::topic_base))]
fn base_out(
    alloc: Global,
    project: u32,
    topic: &Topic,
    created: &str,
) -> Result<Map<String, Value>, AllocError>
    ensures { IfOk result (λ members. members_view members.entries
        ≡ topic_base project topic.now created.now) }
{
    let mut members = Map::new(alloc);
    let guid = identifier_out(alloc, project, topic.serial)?;
    let serial = topic.serial.to_string(alloc)?;
    put_text(alloc, &mut members, "title", topic.body.title.as_str())?;
    put_text(alloc, &mut members, "server_assigned_id", serial.as_str())?;
    put_text(alloc, &mut members, "guid", guid.as_str())?;
    put_text(alloc, &mut members, "creation_date", created)?;
    put_text(
        alloc,
        &mut members,
        "creation_author",
        topic.created.user.as_str(),
    )?;
    Ok(members)
}

// The texts that a topic may have.
#[tactic(auto, unfolding(crate::specs::TopicTrees::put_words))]
fn put_words(
    alloc: Global,
    members: &mut Map<String, Value>,
    body: &TopicBody,
) -> Result<(), AllocError>
    ensures { OnOk result (members_view members.new.entries
        ≡ put_words body.now (members_view members.old.entries)) }
{
    put_text_if(alloc, members, "description", &body.description)?;
    put_text_if(alloc, members, "stage", &body.stage)?;
    put_text_if(alloc, members, "assigned_to", &body.assigned_to)?;
    put_text_if(alloc, members, "priority", &body.priority)?;
    put_text_if(alloc, members, "topic_status", &body.topic_status)?;
    put_text_if(alloc, members, "topic_type", &body.topic_type)?;
    Ok(())
}

// What else a topic may have.
#[tactic(auto, unfolding(crate::specs::TopicTrees::put_rest))]
fn put_rest(
    alloc: Global,
    members: &mut Map<String, Value>,
    body: &TopicBody,
    due: &Option<Text>,
) -> Result<(), AllocError>
    ensures { OnOk result (members_view members.new.entries
        ≡ put_rest body.now due.now (members_view members.old.entries)) }
{
    put_index(alloc, members, body.index)?;
    put_labels(alloc, members, body.labels.as_slice())?;
    put_text_if(alloc, members, "due_date", due)?;
    Ok(())
}

// The members of a topic, with the dates as texts.
#[tactic(auto, unfolding(crate::specs::TopicTrees::topic_members))]
fn members_out(
    alloc: Global,
    project: u32,
    topic: &Topic,
    created: &str,
    modified: &Option<Text>,
    due: &Option<Text>,
) -> Result<Map<String, Value>, AllocError>
    ensures { IfOk result (λ members. members_view members.entries
        ≡ topic_members project topic.now created.now modified.now due.now) }
{
    let mut members = base_out(alloc, project, topic, created)?;
    put_modified(alloc, &mut members, &topic.modified, modified)?;
    put_words(alloc, &mut members, &topic.body)?;
    put_rest(alloc, &mut members, &topic.body, due)?;
    Ok(members)
}

/// A topic of a project, as an object: `guid`, `server_assigned_id`, `title`, `creation_author` and
/// `creation_date`, after a replacement `modified_author` and `modified_date`, and the other members that it
/// has; `labels` where there are any.
#[tactic(auto, unfolding(crate::specs::TopicTrees::IsTopicTree))]
pub fn topic_out(alloc: Global, project: u32, topic: &Topic) -> Result<Value, AllocError>
    ensures { IfOk result (λ v. IsTopicTree project topic.now (view v)) }
{
    let created = date_out(alloc, topic.created.moment.seconds())?;
    let modified = date_if(alloc, moment_if(&topic.modified))?;
    let due = date_if(alloc, topic.body.due)?;
    let members = members_out(alloc, project, topic, created.as_str(), &modified, &due)?;
    Ok(Value::Object(members))
}
