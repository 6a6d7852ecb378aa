//! Requests to the book.

use bcf_topics::{CommentIn, TopicBody};
use bcf_viewpoints::CheckedBody;
use bim_model::{Author, Model, Rules, Shared, Text};
use bucket_check::BucketSet;

/// What is asked of the book. Projects, topics, comments and viewpoints are named by their identifiers. A weight is
/// the length of the request's body in bytes, where nothing else is said.
#[derive(Drop)]
pub enum BookRequest {
    ListProjects,
    ReadProject {
        project: u128,
    },
    /// A model is put in its place by name: the next version has it.
    Upload {
        project: u128,
        /// 1 to 64 characters of `A-Za-z0-9_.-`.
        name: Text,
        model: Shared<Model>,
    },
    /// The model of this name is taken out: the next version is without it.
    Remove {
        project: u128,
        name: Text,
    },
    /// The next version has these rules in place of the project's.
    SetRules {
        project: u128,
        rules: Rules,
        weight: u64,
    },
    ReadVersion {
        project: u128,
        version: Wanted,
    },
    ReadClashes {
        project: u128,
        version: Wanted,
        /// The place of the first pair that is wanted.
        first: u64,
        /// How many are wanted at most.
        count: u64,
    },
    /// A topic is made of the clash at a place of a version, from 0, and a viewpoint of it that selects the two
    /// elements.
    ClashTopic {
        project: u128,
        version: Wanted,
        place: u64,
        author: Author,
        weight: u64,
    },
    ListTopics {
        project: u128,
    },
    ReadTopic {
        project: u128,
        topic: u128,
    },
    PostTopic {
        project: u128,
        body: TopicBody,
        author: Author,
        weight: u64,
    },
    /// The whole body of a topic is replaced.
    PutTopic {
        project: u128,
        topic: u128,
        body: TopicBody,
        author: Author,
        weight: u64,
    },
    /// A topic is deleted with its comments and viewpoints.
    DeleteTopic {
        project: u128,
        topic: u128,
    },
    ListComments {
        project: u128,
        topic: u128,
    },
    ReadComment {
        project: u128,
        topic: u128,
        comment: u128,
    },
    PostComment {
        project: u128,
        topic: u128,
        body: CommentIn,
        author: Author,
        weight: u64,
    },
    /// The whole body of a comment is replaced.
    PutComment {
        project: u128,
        topic: u128,
        comment: u128,
        body: CommentIn,
        author: Author,
        weight: u64,
    },
    DeleteComment {
        project: u128,
        topic: u128,
        comment: u128,
    },
    ListViews {
        project: u128,
        topic: u128,
    },
    ReadView {
        project: u128,
        topic: u128,
        view: u128,
    },
    PostView {
        project: u128,
        topic: u128,
        body: CheckedBody,
        /// 256 for each of its components and each of its colorings.
        weight: u64,
    },
    DeleteView {
        project: u128,
        topic: u128,
        view: u128,
    },
    /// A bucket that is still to be checked is given out. Different seats are given different ones where
    /// there are as many. It stays to be checked until its set is brought.
    TakeWork {
        seat: u32,
    },
    /// The clashes of a bucket that was given out are brought.
    Finish {
        set: Shared<BucketSet>,
    },
}

/// A request with the turn that it gives, if it gives one: its reply is to know all that was accepted up to that turn.
#[derive(Drop)]
pub struct BookCall {
    pub seen: Option<u64>,
    pub request: BookRequest,
}

/// Which version is asked for.
#[derive(Clone, Copy, Debug, PartialEq, Eq)]
pub enum Wanted {
    Newest,
    Number(u64),
}
