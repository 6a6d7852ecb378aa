//! Accepted changes.

use bcf_topics::{CommentBody, TopicBody};
use bcf_viewpoints::CheckedBody;
use bim_model::{Author, Model, Rules, Shared, Text};
use book_turn::object::Stamp;
use bucket_grid::Cell;

/// A change that was accepted. Topics, comments and viewpoints are named by their serial numbers.
#[derive(Drop)]
pub enum Change {
    Upload {
        name: Text,
        model: Shared<Model>,
    },
    Remove {
        name: Text,
    },
    SetRules {
        rules: Shared<Rules>,
        weight: u64,
    },
    /// A bucket of a version is checked.
    BucketDone {
        version: u64,
        cell: Cell,
    },
    PostTopic {
        body: TopicBody,
        author: Author,
        weight: u64,
    },
    PutTopic {
        topic: u64,
        body: TopicBody,
        author: Author,
        weight: u64,
    },
    /// A topic goes, with its comments and viewpoints.
    DeleteTopic {
        topic: u64,
    },
    PostComment {
        topic: u64,
        body: CommentBody,
        author: Author,
        weight: u64,
    },
    PutComment {
        topic: u64,
        comment: u64,
        body: CommentBody,
        author: Author,
        weight: u64,
    },
    DeleteComment {
        topic: u64,
        comment: u64,
    },
    PostView {
        topic: u64,
        body: CheckedBody,
        weight: u64,
    },
    DeleteView {
        topic: u64,
        view: u64,
    },
    /// A topic and its viewpoint are made of the clash at a place of a version.
    ClashTopic {
        version: u64,
        place: u64,
        author: Author,
        weight: u64,
    },
}

/// An accepted change, with the turn at which it was made.
#[derive(Drop)]
pub struct Entry {
    pub stamp: Stamp,
    /// The number of its project, from 1.
    pub project: u32,
    pub change: Change,
}
