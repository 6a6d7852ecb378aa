//! The board of a project.
ghost use Rattle.std.specs.Prelude.{◌≡◌, ◌≤◌, length, option_copied};
ghost use Rattle.book_topics.specs.Boards.{blank, topic_at, comment_at};

use bcf_topics::{Comment, Topic, Topics};
use bcf_viewpoints::Viewpoints;
use std::alloc::Global;
use std::marker::Model;

/// The topics of a project with their comments and viewpoints. Each has a serial number among all that were made
/// of the three, from 1.
#[derive(Drop)]
pub struct Board {
    pub(crate) topics: Topics,
    pub(crate) views: Viewpoints,
    /// How many were made, also those that are gone.
    pub(crate) made: u64,
}

impl Model for Board {
    ghost use Rattle.book_topics.specs.Boards.{BoardState, IsBoard};

    ghost Value = { BoardState };

    ghost view = { λ b. record { discussion = b.topics; views = b.views; made = b.made } };

    ghost invariant = { λ b. IsBoard (record { discussion = b.topics; views = b.views; made = b.made }) };
}

impl Board {
    /// The board of a project of which nothing is said yet.
    pub fn new(alloc: Global) -> Board
        ensures { result ≡ blank }
    {
        Board {
            topics: Topics::new(alloc),
            views: Viewpoints::new(alloc),
            made: 0,
        }
    }

    /// How many topics there are.
    pub fn topic_count(&self) -> u64
        ensures count { result ≡ length self.now.discussion.topics }
        ensures few { result ≤ self.now.made }
    {
        self.topics.topics().len() as u64
    }

    /// How many comments there are on all topics.
    pub fn comment_count(&self) -> u64
        ensures count { result ≡ length self.now.discussion.comments }
        ensures few { result ≤ self.now.made }
    {
        self.topics.comment_count()
    }

    /// How many viewpoints all topics have.
    pub fn view_count(&self) -> u64
        ensures count { result ≡ length self.now.views }
        ensures few { result ≤ self.now.made }
    {
        self.views.count()
    }

    /// The topic of a serial number, lent.
    pub fn topic(&self, serial: u64) -> Option<&Topic>
        ensures { option_copied result ≡ topic_at self.now serial }
    {
        self.topics.topic(serial)
    }

    /// The comment of a serial number on a topic, lent.
    pub fn comment(&self, topic: u64, serial: u64) -> Option<&Comment>
        ensures { option_copied result ≡ comment_at self.now topic serial }
    {
        self.topics.comment(topic, serial)
    }
}
