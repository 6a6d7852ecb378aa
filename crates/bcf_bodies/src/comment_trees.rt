//! Comments that go out.
ghost use Rattle.std.specs.Prelude.{◌≡◌, codes, IfOk, OnOk};
ghost use Rattle.serde_json.specs.Data.{object};
ghost use Rattle.serde_json.specs.View.{view, members_view};
ghost use Rattle.bcf_bodies.specs.TextMembers.{put_text_if};
ghost use Rattle.bcf_bodies.specs.CommentTrees.{viewpoint_text, comment_base, IsCommentTree};

use crate::objects::put_text;
use crate::topic_trees::{date_if, moment_if, put_modified};
use bcf_json::{date_out, identifier_out};
use bcf_topics::Comment;
use serde_json::{Map, Value};
use std::alloc::{AllocError, Global};

// What a comment always has.
#[tactic(auto, unfolding(crate::specs::CommentTrees::comment_base))]
fn base_out(
    alloc: Global,
    project: u32,
    comment: &Comment,
    created: &str,
) -> Result<Map<String, Value>, AllocError>
    ensures { IfOk result (λ members. members_view members.entries
        ≡ comment_base project comment.now created.now) }
{
    let mut members = Map::new(alloc);
    let guid = identifier_out(alloc, project, comment.serial)?;
    let topic = identifier_out(alloc, project, comment.topic)?;
    put_text(alloc, &mut members, "topic_guid", topic.as_str())?;
    put_text(alloc, &mut members, "guid", guid.as_str())?;
    put_text(alloc, &mut members, "date", created)?;
    put_text(
        alloc,
        &mut members,
        "comment",
        comment.body.comment.as_str(),
    )?;
    put_text(alloc, &mut members, "author", comment.created.user.as_str())?;
    Ok(members)
}

fn put_viewpoint(
    alloc: Global,
    members: &mut Map<String, Value>,
    project: u32,
    viewpoint: Option<u64>,
) -> Result<(), AllocError>
    ensures { OnOk result (members_view members.new.entries
        ≡ put_text_if (codes "viewpoint_guid") (viewpoint_text project viewpoint)
        (members_view members.old.entries)) }
{
    match viewpoint {
        Some(serial) => {
            let guid = identifier_out(alloc, project, serial)?;
            put_text(alloc, members, "viewpoint_guid", guid.as_str())
        }
        None => Ok(()),
    }
}

/// A comment of a project, as an object: `guid`, `topic_guid`, `comment`, `author` and `date`, after a
/// replacement `modified_author` and `modified_date`, and `viewpoint_guid` where it is about a viewpoint.
#[tactic(auto, unfolding(crate::specs::CommentTrees::comment_tree, crate::specs::CommentTrees::IsCommentTree))]
pub fn comment_out(alloc: Global, project: u32, comment: &Comment) -> Result<Value, AllocError>
    ensures { IfOk result (λ v. IsCommentTree project comment.now (view v)) }
{
    let created = date_out(alloc, comment.created.moment.seconds())?;
    let modified = date_if(alloc, moment_if(&comment.modified))?;
    let mut members = base_out(alloc, project, comment, created.as_str())?;
    put_modified(alloc, &mut members, &comment.modified, &modified)?;
    put_viewpoint(alloc, &mut members, project, comment.body.viewpoint)?;
    Ok(Value::Object(members))
}
