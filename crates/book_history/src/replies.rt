//! The book's replies.

use crate::book_fault::BookFault;
use crate::work_order::WorkOrder;
use bcf_topics::{Comment, Topic};
use bcf_viewpoints::CheckedView;
use bim_model::{Items, Shared, Snapshot};
use clash_publish::{Horizon, Published};

/// What is answered, without the turn that it is printed with.
#[derive(Drop)]
pub enum ReplyBody {
    /// The numbers of the projects, from 1.
    Projects(Items<u32>),
    /// The number of a project.
    Project(u32),
    /// The topics of a project by rising serial number, shared with the book.
    TopicList(Items<Shared<Topic>>),
    TopicIs(Topic),
    /// The comments on a topic by rising serial number.
    CommentList(Items<Comment>),
    CommentIs(Comment),
    /// The viewpoints of a topic by rising serial number.
    ViewList(Items<CheckedView>),
    View(CheckedView),
    /// It was deleted.
    Gone,
    /// A change made a version.
    Changed {
        /// Its number.
        version: u64,
        /// How many elements the uploaded model has; after another change, how many the version has.
        elements: u64,
        /// How many triangles these have together.
        triangles: u64,
        /// How many buckets of the version are to be checked.
        left: u64,
    },
    Version {
        version: u64,
        /// The number of the project's newest version.
        newest: u64,
        snapshot: Shared<Snapshot>,
    },
    /// All clashes of a version. The pairs from `first` on, at most `count` of them, are asked for.
    Clashes {
        version: u64,
        set: Shared<Published>,
        first: u64,
        count: u64,
    },
    /// A bucket to be checked.
    Work(WorkOrder),
    /// A bucket's clashes were taken.
    Finished {
        /// How many buckets of its version are still to be checked.
        left: u64,
    },
    Refused(BookFault),
}

/// The book's answer to a request.
#[derive(Drop)]
pub struct BookReply {
    pub body: ReplyBody,
    /// The newest version of each project after the call.
    pub horizon: Horizon,
}
