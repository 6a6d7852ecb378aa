//! Topics that come in.
ghost use Rattle.std.specs.Prelude.{◌≡◌, IfOk, codes};
ghost use Rattle.serde_json.specs.View.{view, items_view};
ghost use Rattle.bcf_bodies.specs.Members.{short_text, all_of};
ghost use Rattle.bcf_bodies.specs.BodyFaults.{IsReadAs, IsPutAs};
ghost use Rattle.bcf_bodies.specs.TopicBodies.{labels_of, labels_in, member_or, title_in, word_in, titled, first_in, last_in, topic_body};

use crate::body_fault::{BodyError, BodyFault, refuse};
use crate::members::{due_in, filled_in, index_in, text_in};
use bcf_topics::{MOST_LABEL, MOST_LABELS, MOST_TITLE, MOST_WORDS, TopicBody};
use bim_model::{Items, Text};
use serde_json::Value;
use std::alloc::{AllocError, Global};

fn label_of(alloc: Global, value: &Value) -> Result<Option<Text>, AllocError>
    ensures { IfOk result (λ found. found ≡ short_text MOST_LABEL (view value.now)) }
{
    match value.as_str() {
        Some(text) => {
            if text.len() <= MOST_LABEL {
                Ok(Some(Text::of(alloc, text)?))
            } else {
                Ok(None)
            }
        }
        None => Ok(None),
    }
}

// The labels of an array, none where one of them is bad.
fn labels_among(alloc: Global, items: &[Value]) -> Result<Option<Items<Text>>, AllocError>
    ensures { IfOk result (λ found. found ≡ all_of (short_text MOST_LABEL) (items_view items.now)) }
{
    let mut labels = Items::new(alloc);
    for item in items {
        let Some(label) = label_of(alloc, item)? else {
            return Ok(None);
        };
        labels.push(label)?;
    }
    Ok(Some(labels))
}

#[tactic(auto, unfolding(crate::specs::TopicBodies::labels_of), using(crate::proofs::Lists::count_is))]
fn labels_of(alloc: Global, items: &[Value]) -> Result<Option<Items<Text>>, AllocError>
    ensures { IfOk result (λ found. found ≡ labels_of (items_view items.now)) }
{
    if items.len() <= MOST_LABELS {
        labels_among(alloc, items)
    } else {
        Ok(None)
    }
}

#[tactic(auto, unfolding(crate::specs::TopicBodies::labels_in))]
fn labels_in(alloc: Global, tree: &Value) -> Result<Option<Items<Text>>, AllocError>
    ensures { IfOk result (λ found. found ≡ labels_in (view tree.now)) }
{
    match tree.get("labels") {
        Some(value) => {
            if value.is_null() {
                return Ok(Some(Items::new(alloc)));
            }
            match value.as_array() {
                Some(items) => labels_of(alloc, items.as_slice()),
                None => Ok(None),
            }
        }
        None => Ok(Some(Items::new(alloc))),
    }
}

// What is read of a member, or the refusal of it where it is bad.
fn member<T>(alloc: Global, name: &str, value: Option<T>) -> Result<T, BodyError>
    ensures { IsReadAs result (member_or name.now value) }
{
    match value {
        Some(value) => Ok(value),
        None => refuse(alloc, name),
    }
}

fn title_in(alloc: Global, tree: &Value) -> Result<Text, BodyError>
    ensures { IsReadAs result (title_in (view tree.now)) }
{
    match filled_in(alloc, MOST_TITLE, "title", tree)? {
        Some(title) => Ok(title),
        None => Err(BodyError::Fault(BodyFault::Title)),
    }
}

#[tactic(auto, unfolding(crate::specs::TopicBodies::word_in))]
fn word_in(alloc: Global, name: &str, tree: &Value) -> Result<Option<Text>, BodyError>
    ensures { IsReadAs result (word_in name.now (view tree.now)) }
{
    member(alloc, name, text_in(alloc, MOST_WORDS, name, tree)?)
}

fn put_word(
    alloc: Global,
    place: &mut Option<Text>,
    name: &str,
    tree: &Value,
) -> Result<(), BodyError>
    ensures { IsPutAs result place.new (word_in name.now (view tree.now)) }
{
    *place = word_in(alloc, name, tree)?;
    Ok(())
}

fn put_labels(alloc: Global, place: &mut Items<Text>, tree: &Value) -> Result<(), BodyError>
    ensures { IsPutAs result place.new (member_or (codes "labels") (labels_in (view tree.now))) }
{
    let labels = labels_in(alloc, tree)?;
    *place = member(alloc, "labels", labels)?;
    Ok(())
}

// Puts in the members up to `labels`.
#[tactic(auto, unfolding(crate::specs::TopicBodies::first_in, crate::specs::TopicBodies::with_first))]
fn put_first(alloc: Global, body: &mut TopicBody, tree: &Value) -> Result<(), BodyError>
    ensures { IsPutAs result body.new (first_in (view tree.now) body.old) }
{
    put_word(alloc, &mut body.assigned_to, "assigned_to", tree)?;
    put_word(alloc, &mut body.description, "description", tree)?;
    body.due = member(alloc, "due_date", due_in(tree))?;
    body.index = member(alloc, "index", index_in(tree))?;
    put_labels(alloc, &mut body.labels, tree)
}

// Puts in the members from `priority` on.
#[tactic(auto, unfolding(crate::specs::TopicBodies::last_in, crate::specs::TopicBodies::with_last))]
fn put_last(alloc: Global, body: &mut TopicBody, tree: &Value) -> Result<(), BodyError>
    ensures { IsPutAs result body.new (last_in (view tree.now) body.old) }
{
    put_word(alloc, &mut body.priority, "priority", tree)?;
    put_word(alloc, &mut body.stage, "stage", tree)?;
    put_word(alloc, &mut body.topic_status, "topic_status", tree)?;
    put_word(alloc, &mut body.topic_type, "topic_type", tree)
}

// A topic of which the title alone is told.
fn titled(alloc: Global, title: Text) -> TopicBody
    ensures { result ≡ titled title }
{
    TopicBody {
        title,
        topic_type: None,
        topic_status: None,
        priority: None,
        index: None,
        labels: Items::new(alloc),
        assigned_to: None,
        stage: None,
        description: None,
        due: None,
    }
}

/// The topic that a body asks for: `title`, a text of 1 to 1,024 bytes, and, if they are there, `topic_type`,
/// `topic_status`, `priority`, `assigned_to`, `stage` and `description`, texts of up to 4,096 bytes, `index`,
/// a whole number of 32 bits, `labels`, up to 20 texts of up to 256 bytes, and `due_date`, a date and time of
/// 1970 or later. A member that is null counts as absent, another member is passed over.
///
/// B3 where the title is bad, then B4 with the first bad member by its name's bytes.
#[tactic(auto, unfolding(crate::specs::TopicBodies::topic_body))]
pub fn topic_in(alloc: Global, tree: &Value) -> Result<TopicBody, BodyError>
    ensures { IsReadAs result (topic_body (view tree.now)) }
{
    let mut body = titled(alloc, title_in(alloc, tree)?);
    put_first(alloc, &mut body, tree)?;
    put_last(alloc, &mut body, tree)?;
    Ok(body)
}
