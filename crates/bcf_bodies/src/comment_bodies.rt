//! Comments that come in.
ghost use Rattle.serde_json.specs.View.{view};
ghost use Rattle.bcf_bodies.specs.BodyFaults.{IsReadAs};
ghost use Rattle.bcf_bodies.specs.CommentBodies.{joined_comment, comment_body};

use crate::body_fault::{BodyError, refuse};
use crate::members::{filled_in, viewpoint_in};
use bcf_topics::{CommentIn, MOST_COMMENT};
use bim_model::Text;
use serde_json::Value;
use std::alloc::Global;

// The comment of its members, each none where it is bad.
#[tactic(auto, unfolding(crate::specs::CommentBodies::joined_comment))]
fn joined(
    alloc: Global,
    comment: Option<Text>,
    viewpoint: Option<Option<u128>>,
) -> Result<CommentIn, BodyError>
    ensures { IsReadAs result (joined_comment comment viewpoint) }
{
    let Some(comment) = comment else {
        return refuse(alloc, "comment");
    };
    let Some(viewpoint) = viewpoint else {
        return refuse(alloc, "viewpoint_guid");
    };
    Ok(CommentIn { comment, viewpoint })
}

/// The comment that a body asks for: `comment`, a text of 1 to 8,192 bytes, and `viewpoint_guid`, an
/// identifier, if it is there. A member that is null counts as absent, another member is passed over. B4 with
/// the first bad member by its name's bytes.
#[tactic(auto, unfolding(crate::specs::CommentBodies::comment_body))]
pub fn comment_in(alloc: Global, tree: &Value) -> Result<CommentIn, BodyError>
    ensures { IsReadAs result (comment_body (view tree.now)) }
{
    let comment = filled_in(alloc, MOST_COMMENT, "comment", tree)?;
    joined(alloc, comment, viewpoint_in(tree))
}
