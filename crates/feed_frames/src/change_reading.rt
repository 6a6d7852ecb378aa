//! Changes by their kinds, as they are read: what stands behind the byte of each.
ghost use Rattle.std.specs.Prelude.{◌≡◌};
ghost use Rattle.feed_frames.specs.SpelledEntries.{UploadsModel};
ghost use Rattle.feed_frames.specs.inner.Readers.{Gives, Admits, both_at};
ghost use Rattle.feed_frames.specs.inner.EntryReaders.{MakesUpload, named_elements_at, source_at, topic_at, comment_at, upload_at, remove_at, set_rules_at, bucket_done_at, post_topic_at, put_topic_at, delete_topic_at, post_comment_at, put_comment_at, delete_comment_at, post_view_at, delete_view_at, clash_topic_at, other_kinds, all_kinds, change_at};

use crate::field::Field;
use crate::read_error::ReadError;
use crate::rule_fields::take_rules;
use crate::unread::Unread;
use crate::view_fields::take_view;
use bcf_topics::{CommentBody, TopicBody};
use bim_model::{Author, Element, Items, Model, Shared, Text};
use book_history::Change;
use bucket_grid::Cell;
use std::alloc::Global;
use std::mem::drop;

/// The byte of an upload.
const UPLOAD: u8 = 1;

// The name and the elements of an upload.
fn take_elements(alloc: Global, unread: &mut Unread) -> Result<(Text, Items<Element>), ReadError>
    ensures { Gives result unread.new (named_elements_at unread.old) }
{
    let name = Text::read_from(alloc, unread)?;
    let elements = Items::<Element>::read_from(alloc, unread)?;
    Ok((name, elements))
}

// The upload of these elements, where they are a building model.
fn upload_of(alloc: Global, name: Text, elements: Items<Element>) -> Result<Change, ReadError>
    ensures { MakesUpload name elements result }
{
    match Model::checked(alloc, elements.into_vec())? {
        Some(model) => {
            let model = Shared::new(alloc, model)?;
            Ok(Change::Upload { name, model })
        }
        None => Err(ReadError::NotSpelled),
    }
}

// An upload whose elements are a building model.
fn take_upload(alloc: Global, unread: &mut Unread) -> Result<Change, ReadError>
    ensures { Admits UploadsModel result unread.new (upload_at unread.old) }
{
    let parts = take_elements(alloc, unread)?;
    upload_of(alloc, parts.0, parts.1)
}

// Who made a change, and what the text of its request weighs.
fn take_source(alloc: Global, unread: &mut Unread) -> Result<(Author, u64), ReadError>
    ensures { Gives result unread.new (source_at unread.old) }
{
    let author = Author::read_from(alloc, unread)?;
    let weight = unread.long()?;
    Ok((author, weight))
}

// What is said of a topic, and by whom.
fn take_topic(alloc: Global, unread: &mut Unread) -> Result<(TopicBody, (Author, u64)), ReadError>
    ensures { Gives result unread.new (both_at topic_at source_at unread.old) }
{
    let body = TopicBody::read_from(alloc, unread)?;
    match take_source(alloc, unread) {
        Ok(source) => Ok((body, source)),
        Err(error) => {
            drop(body);
            Err(error)
        }
    }
}

// What is said in a comment, and by whom.
fn take_comment(
    alloc: Global,
    unread: &mut Unread,
) -> Result<(CommentBody, (Author, u64)), ReadError>
    ensures { Gives result unread.new (both_at comment_at source_at unread.old) }
{
    let body = CommentBody::read_from(alloc, unread)?;
    match take_source(alloc, unread) {
        Ok(source) => Ok((body, source)),
        Err(error) => {
            drop(body);
            Err(error)
        }
    }
}

#[tactic(auto, unfolding(crate::specs::inner::EntryReaders::remove_at))]
fn take_remove(alloc: Global, unread: &mut Unread) -> Result<Change, ReadError>
    ensures { Gives result unread.new (remove_at unread.old) }
{
    let name = Text::read_from(alloc, unread)?;
    Ok(Change::Remove { name })
}

#[tactic(auto, unfolding(crate::specs::inner::EntryReaders::set_rules_at))]
fn take_set_rules(alloc: Global, unread: &mut Unread) -> Result<Change, ReadError>
    ensures { Gives result unread.new (set_rules_at unread.old) }
{
    let rules = take_rules(alloc, unread)?;
    let weight = unread.long()?;
    let rules = Shared::new(alloc, rules)?;
    Ok(Change::SetRules { rules, weight })
}

#[tactic(auto, unfolding(crate::specs::inner::EntryReaders::bucket_done_at))]
fn take_bucket_done(alloc: Global, unread: &mut Unread) -> Result<Change, ReadError>
    ensures { Gives result unread.new (bucket_done_at unread.old) }
{
    let version = unread.long()?;
    let cell = Cell::read_from(alloc, unread)?;
    Ok(Change::BucketDone { version, cell })
}

#[tactic(auto, unfolding(crate::specs::inner::EntryReaders::post_topic_at))]
fn take_post_topic(alloc: Global, unread: &mut Unread) -> Result<Change, ReadError>
    ensures { Gives result unread.new (post_topic_at unread.old) }
{
    let (body, (author, weight)) = take_topic(alloc, unread)?;
    Ok(Change::PostTopic {
        body,
        author,
        weight,
    })
}

#[tactic(auto, unfolding(crate::specs::inner::EntryReaders::put_topic_at))]
fn take_put_topic(alloc: Global, unread: &mut Unread) -> Result<Change, ReadError>
    ensures { Gives result unread.new (put_topic_at unread.old) }
{
    let topic = unread.long()?;
    let (body, (author, weight)) = take_topic(alloc, unread)?;
    Ok(Change::PutTopic {
        topic,
        body,
        author,
        weight,
    })
}

#[tactic(auto, unfolding(crate::specs::inner::EntryReaders::delete_topic_at))]
fn take_delete_topic(unread: &mut Unread) -> Result<Change, ReadError>
    ensures { Gives result unread.new (delete_topic_at unread.old) }
{
    let topic = unread.long()?;
    Ok(Change::DeleteTopic { topic })
}

#[tactic(auto, unfolding(crate::specs::inner::EntryReaders::post_comment_at))]
fn take_post_comment(alloc: Global, unread: &mut Unread) -> Result<Change, ReadError>
    ensures { Gives result unread.new (post_comment_at unread.old) }
{
    let topic = unread.long()?;
    let (body, (author, weight)) = take_comment(alloc, unread)?;
    Ok(Change::PostComment {
        topic,
        body,
        author,
        weight,
    })
}

#[tactic(auto, unfolding(crate::specs::inner::EntryReaders::put_comment_at))]
fn take_put_comment(alloc: Global, unread: &mut Unread) -> Result<Change, ReadError>
    ensures { Gives result unread.new (put_comment_at unread.old) }
{
    let topic = unread.long()?;
    let comment = unread.long()?;
    let (body, (author, weight)) = take_comment(alloc, unread)?;
    Ok(Change::PutComment {
        topic,
        comment,
        body,
        author,
        weight,
    })
}

#[tactic(auto, unfolding(crate::specs::inner::EntryReaders::delete_comment_at))]
fn take_delete_comment(unread: &mut Unread) -> Result<Change, ReadError>
    ensures { Gives result unread.new (delete_comment_at unread.old) }
{
    let topic = unread.long()?;
    let comment = unread.long()?;
    Ok(Change::DeleteComment { topic, comment })
}

#[tactic(auto, unfolding(crate::specs::inner::EntryReaders::post_view_at))]
fn take_post_view(alloc: Global, unread: &mut Unread) -> Result<Change, ReadError>
    ensures { Gives result unread.new (post_view_at unread.old) }
{
    let topic = unread.long()?;
    let body = take_view(alloc, unread)?;
    match unread.long() {
        Ok(weight) => Ok(Change::PostView {
            topic,
            body,
            weight,
        }),
        Err(error) => {
            drop(body);
            Err(error)
        }
    }
}

#[tactic(auto, unfolding(crate::specs::inner::EntryReaders::delete_view_at))]
fn take_delete_view(unread: &mut Unread) -> Result<Change, ReadError>
    ensures { Gives result unread.new (delete_view_at unread.old) }
{
    let topic = unread.long()?;
    let view = unread.long()?;
    Ok(Change::DeleteView { topic, view })
}

#[tactic(auto, unfolding(crate::specs::inner::EntryReaders::clash_topic_at))]
fn take_clash_topic(alloc: Global, unread: &mut Unread) -> Result<Change, ReadError>
    ensures { Gives result unread.new (clash_topic_at unread.old) }
{
    let version = unread.long()?;
    let place = unread.long()?;
    let (author, weight) = take_source(alloc, unread)?;
    Ok(Change::ClashTopic {
        version,
        place,
        author,
        weight,
    })
}

// A change other than an upload, by the byte of its kind.
#[tactic(auto, unfolding(crate::specs::inner::EntryReaders::other_kinds))]
fn take_other(kind: u8, alloc: Global, unread: &mut Unread) -> Result<Change, ReadError>
    ensures { Gives result unread.new (other_kinds kind unread.old) }
{
    match kind {
        2 => take_remove(alloc, unread),
        3 => take_set_rules(alloc, unread),
        4 => take_bucket_done(alloc, unread),
        5 => take_post_topic(alloc, unread),
        6 => take_put_topic(alloc, unread),
        7 => take_delete_topic(unread),
        8 => take_post_comment(alloc, unread),
        9 => take_put_comment(alloc, unread),
        10 => take_delete_comment(unread),
        11 => take_post_view(alloc, unread),
        12 => take_delete_view(unread),
        13 => take_clash_topic(alloc, unread),
        _ => Err(ReadError::NotSpelled),
    }
}

// What stands behind the byte of a kind.
fn take_behind(kind: u8, alloc: Global, unread: &mut Unread) -> Result<Change, ReadError>
    ensures { Admits UploadsModel result unread.new (all_kinds kind unread.old) }
{
    if kind == UPLOAD {
        take_upload(alloc, unread)
    } else {
        take_other(kind, alloc, unread)
    }
}

/// Takes a change from the front of the bytes.
pub(crate) fn take_change(alloc: Global, unread: &mut Unread) -> Result<Change, ReadError>
    ensures { Admits UploadsModel result unread.new (change_at unread.old) }
{
    let kind = unread.byte()?;
    take_behind(kind, alloc, unread)
}
