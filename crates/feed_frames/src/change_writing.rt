//! Changes by their kinds, as they are written: the byte of the kind, and then the fields.
ghost use Rattle.std.specs.Prelude.{◌≡◌, ◌++◌, OnOk};
ghost use Rattle.book_history.specs.declared.changes.Change.{Change};
ghost use Rattle.feed_frames.specs.EntryBytes.{kind_of, fields_of, change_bytes};

use crate::field::Field;
use crate::plain_fields::put_list;
use bcf_topics::{CommentBody, TopicBody};
use bcf_viewpoints::CheckedBody;
use bim_model::{Author, Model, Rules, Text};
use book_history::Change;
use bucket_grid::Cell;
use std::alloc::AllocError;

fn put_upload(name: &Text, model: &Model, out: &mut Vec<u8>) -> Result<(), AllocError>
    ensures { OnOk result (out.new.items ≡ out.old.items ++ fields_of (Change.Upload name.now model.now)) }
{
    name.write_to(out)?;
    put_list(model.elements(), out)
}

fn put_set_rules(rules: &Rules, weight: u64, out: &mut Vec<u8>) -> Result<(), AllocError>
    ensures { OnOk result (out.new.items ≡ out.old.items ++ fields_of (Change.SetRules rules.now weight)) }
{
    put_list(rules.list(), out)?;
    weight.write_to(out)
}

fn put_bucket_done(version: u64, cell: Cell, out: &mut Vec<u8>) -> Result<(), AllocError>
    ensures { OnOk result (out.new.items ≡ out.old.items ++ fields_of (Change.BucketDone version cell)) }
{
    version.write_to(out)?;
    cell.write_to(out)
}

fn put_post_topic(
    body: &TopicBody,
    author: &Author,
    weight: u64,
    out: &mut Vec<u8>,
) -> Result<(), AllocError>
    ensures { OnOk result (out.new.items
        ≡ out.old.items ++ fields_of (Change.PostTopic body.now author.now weight)) }
{
    body.write_to(out)?;
    author.write_to(out)?;
    weight.write_to(out)
}

fn put_put_topic(
    topic: u64,
    body: &TopicBody,
    author: &Author,
    weight: u64,
    out: &mut Vec<u8>,
) -> Result<(), AllocError>
    ensures { OnOk result (out.new.items
        ≡ out.old.items ++ fields_of (Change.PutTopic topic body.now author.now weight)) }
{
    topic.write_to(out)?;
    body.write_to(out)?;
    author.write_to(out)?;
    weight.write_to(out)
}

fn put_post_comment(
    topic: u64,
    body: &CommentBody,
    author: &Author,
    weight: u64,
    out: &mut Vec<u8>,
) -> Result<(), AllocError>
    ensures { OnOk result (out.new.items
        ≡ out.old.items ++ fields_of (Change.PostComment topic body.now author.now weight)) }
{
    topic.write_to(out)?;
    body.write_to(out)?;
    author.write_to(out)?;
    weight.write_to(out)
}

fn put_put_comment(
    topic: u64,
    comment: u64,
    body: &CommentBody,
    author: &Author,
    weight: u64,
    out: &mut Vec<u8>,
) -> Result<(), AllocError>
    ensures { OnOk result (out.new.items
        ≡ out.old.items ++ fields_of (Change.PutComment topic comment body.now author.now weight)) }
{
    topic.write_to(out)?;
    comment.write_to(out)?;
    body.write_to(out)?;
    author.write_to(out)?;
    weight.write_to(out)
}

fn put_delete_comment(topic: u64, comment: u64, out: &mut Vec<u8>) -> Result<(), AllocError>
    ensures { OnOk result (out.new.items ≡ out.old.items ++ fields_of (Change.DeleteComment topic comment)) }
{
    topic.write_to(out)?;
    comment.write_to(out)
}

fn put_post_view(
    topic: u64,
    body: &CheckedBody,
    weight: u64,
    out: &mut Vec<u8>,
) -> Result<(), AllocError>
    ensures { OnOk result (out.new.items
        ≡ out.old.items ++ fields_of (Change.PostView topic body.now weight)) }
{
    topic.write_to(out)?;
    body.get().write_to(out)?;
    weight.write_to(out)
}

fn put_delete_view(topic: u64, view: u64, out: &mut Vec<u8>) -> Result<(), AllocError>
    ensures { OnOk result (out.new.items ≡ out.old.items ++ fields_of (Change.DeleteView topic view)) }
{
    topic.write_to(out)?;
    view.write_to(out)
}

fn put_clash_topic(
    version: u64,
    place: u64,
    author: &Author,
    weight: u64,
    out: &mut Vec<u8>,
) -> Result<(), AllocError>
    ensures { OnOk result (out.new.items
        ≡ out.old.items ++ fields_of (Change.ClashTopic version place author.now weight)) }
{
    version.write_to(out)?;
    place.write_to(out)?;
    author.write_to(out)?;
    weight.write_to(out)
}

// The byte of its kind.
fn kind_of(change: &Change) -> u8
    ensures { result ≡ kind_of change.now }
{
    match change {
        Change::Upload { .. } => 1,
        Change::Remove { .. } => 2,
        Change::SetRules { .. } => 3,
        Change::BucketDone { .. } => 4,
        Change::PostTopic { .. } => 5,
        Change::PutTopic { .. } => 6,
        Change::DeleteTopic { .. } => 7,
        Change::PostComment { .. } => 8,
        Change::PutComment { .. } => 9,
        Change::DeleteComment { .. } => 10,
        Change::PostView { .. } => 11,
        Change::DeleteView { .. } => 12,
        Change::ClashTopic { .. } => 13,
    }
}

// The fields of a change.
fn put_fields(change: &Change, out: &mut Vec<u8>) -> Result<(), AllocError>
    ensures { OnOk result (out.new.items ≡ out.old.items ++ fields_of change.now) }
{
    match change {
        Change::Upload { name, model } => put_upload(name, model.get(), out),
        Change::Remove { name } => name.write_to(out),
        Change::SetRules { rules, weight } => put_set_rules(rules.get(), *weight, out),
        Change::BucketDone { version, cell } => put_bucket_done(*version, *cell, out),
        Change::PostTopic {
            body,
            author,
            weight,
        } => put_post_topic(body, author, *weight, out),
        Change::PutTopic {
            topic,
            body,
            author,
            weight,
        } => put_put_topic(*topic, body, author, *weight, out),
        Change::DeleteTopic { topic } => topic.write_to(out),
        Change::PostComment {
            topic,
            body,
            author,
            weight,
        } => put_post_comment(*topic, body, author, *weight, out),
        Change::PutComment {
            topic,
            comment,
            body,
            author,
            weight,
        } => put_put_comment(*topic, *comment, body, author, *weight, out),
        Change::DeleteComment { topic, comment } => put_delete_comment(*topic, *comment, out),
        Change::PostView {
            topic,
            body,
            weight,
        } => put_post_view(*topic, body, *weight, out),
        Change::DeleteView { topic, view } => put_delete_view(*topic, *view, out),
        Change::ClashTopic {
            version,
            place,
            author,
            weight,
        } => put_clash_topic(*version, *place, author, *weight, out),
    }
}

/// Writes a change behind the bytes.
#[tactic(auto, unfolding(crate::specs::EntryBytes::change_bytes))]
pub(crate) fn put_change(change: &Change, out: &mut Vec<u8>) -> Result<(), AllocError>
    ensures { OnOk result (out.new.items ≡ out.old.items ++ change_bytes change.now) }
{
    out.push(kind_of(change))?;
    put_fields(change, out)
}
