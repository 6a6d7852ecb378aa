//! The comments, by their topics' serial numbers and their own.
ghost use Rattle.std.specs.Prelude.{◌≡◌, ◌<◌, ◌^◌, map, is_some, if◌then◌else◌, IfOk, OnOk, OnErr};
ghost use Rattle.bcf_topics.specs.Comments.{comment_of, comments_on, comments_with, comments_put, comments_but, comments_off};

use crate::comment::{Comment, CommentBody};
use bim_model::Author;
use std::alloc::{AllocError, Global};
use std::collections::BTreeMap;

/// Puts a new comment in its place. An `Err` leaves the comments as they were.
#[tactic(auto, unfolding(crate::specs::Comments::comments_with))]
pub fn insert(
    comments: &mut BTreeMap<(u64, u64), Comment>,
    topic: u64,
    serial: u64,
    body: CommentBody,
    author: Author,
) -> Result<(), AllocError>
    ensures ok { OnOk result (comments.new.entries
        ≡ comments_with topic serial body author comments.old.entries) }
    ensures err { OnErr result (comments.new.entries ≡ comments.old.entries) }
{
    let comment = Comment {
        serial,
        topic,
        body,
        created: author,
        modified: None,
    };
    comments.insert((topic, serial), comment)?;
    Ok(())
}

/// Puts another body in a comment, and says whether it is there.
#[tactic(auto, unfolding(crate::specs::Comments::comment_of, crate::specs::Comments::comments_put))]
pub fn replace(
    comments: &mut BTreeMap<(u64, u64), Comment>,
    topic: u64,
    serial: u64,
    body: CommentBody,
    author: Author,
) -> bool
    ensures found { result ≡ is_some (comment_of topic serial comments.old.entries) }
    ensures after { comments.new.entries
        ≡ (if result then comments_put topic serial body author comments.old.entries
        else comments.old.entries) }
{
    match comments.get_mut(&(topic, serial)) {
        Some(comment) => {
            comment.body = body;
            comment.modified = Some(author);
            true
        }
        None => false,
    }
}

/// Takes a comment away, and says whether it was there.
#[tactic(auto, unfolding(crate::specs::Comments::comment_of, crate::specs::Comments::comments_but))]
pub fn remove(comments: &mut BTreeMap<(u64, u64), Comment>, topic: u64, serial: u64) -> bool
    ensures found { result ≡ is_some (comment_of topic serial comments.old.entries) }
    ensures after { comments.new.entries
        ≡ (if result then comments_but topic serial comments.old.entries else comments.old.entries) }
{
    comments.remove(&(topic, serial)).is_some()
}

/// Takes the comments on a topic away, in one pass.
pub fn remove_all(comments: &mut BTreeMap<(u64, u64), Comment>, topic: u64)
    ensures { comments.new.entries ≡ comments_off topic comments.old.entries }
{
    comments.retain(|place, _| place.0 != topic);
}

/// The comments on a topic, by rising serial number.
pub fn list(
    alloc: Global,
    comments: &BTreeMap<(u64, u64), Comment>,
    topic: u64,
) -> Result<Vec<&Comment>, AllocError>
    requires { topic < 2 ^ 48 }
    ensures { IfOk result (λ list. map (λ c. c.now) list.items ≡ comments_on topic comments.now.entries) }
{
    let mut list = Vec::new(alloc);
    for (_, comment) in comments.range((topic, 0)..(topic + 1, 0)) {
        list.push(comment)?;
    }
    Ok(list)
}
