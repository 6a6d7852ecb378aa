//! How many topics, comments and viewpoints there may be.
ghost use Rattle.std.specs.Prelude.{◌≡◌, ◌<◌, ◌^◌, length};
ghost use Rattle.book_history.specs.History.{topics_in, comments_in, views_in};
ghost use Rattle.book_history.specs.Refusals.{first_of, topics_full, comments_full, views_full, too_many};
ghost use Rattle.federation_book.specs.KeptProjects.{IsKept, settings_of};

use crate::state::State;
use book_history::{BookFault, Change};

impl State {
    // How many topics all projects have.
    fn topic_count(&self) -> u64
        requires { IsKept self.now }
        ensures count { result ≡ topics_in (length self.now.projects.items) self.now.entries.items }
        ensures few { result < 2 ^ 63 }
    {
        let mut count = 0_u64;
        for index in 0..self.projects.len() {
            count += self.projects[index].board.topic_count();
        }
        count
    }

    // .. comments.
    fn comment_count(&self) -> u64
        requires { IsKept self.now }
        ensures count { result ≡ comments_in (length self.now.projects.items) self.now.entries.items }
        ensures few { result < 2 ^ 63 }
    {
        let mut count = 0_u64;
        for index in 0..self.projects.len() {
            count += self.projects[index].board.comment_count();
        }
        count
    }

    // .. viewpoints.
    fn view_count(&self) -> u64
        requires { IsKept self.now }
        ensures count { result ≡ views_in (length self.now.projects.items) self.now.entries.items }
        ensures few { result < 2 ^ 63 }
    {
        let mut count = 0_u64;
        for index in 0..self.projects.len() {
            count += self.projects[index].board.view_count();
        }
        count
    }

    // All projects would have too many topics with one more.
    fn topics_full(&self) -> Option<BookFault>
        requires { IsKept self.now }
        ensures { result ≡ topics_full (settings_of self.now) self.now.entries.items }
    {
        let count = self.topic_count() + 1;
        let limit = self.limits.topics;
        if count > limit {
            Some(BookFault::TopicsFull { count, limit })
        } else {
            None
        }
    }

    // .. comments.
    fn comments_full(&self) -> Option<BookFault>
        requires { IsKept self.now }
        ensures { result ≡ comments_full (settings_of self.now) self.now.entries.items }
    {
        let count = self.comment_count() + 1;
        let limit = self.limits.comments;
        if count > limit {
            Some(BookFault::CommentsFull { count, limit })
        } else {
            None
        }
    }

    // .. viewpoints.
    fn views_full(&self) -> Option<BookFault>
        requires { IsKept self.now }
        ensures { result ≡ views_full (settings_of self.now) self.now.entries.items }
    {
        let count = self.view_count() + 1;
        let limit = self.limits.viewpoints;
        if count > limit {
            Some(BookFault::ViewpointsFull { count, limit })
        } else {
            None
        }
    }

    /// Why a change isn't accepted that makes a topic, a comment or a viewpoint: there would be too many of them.
    pub fn too_many(&self, change: &Change) -> Option<BookFault>
        requires { IsKept self.now }
        ensures { result ≡ first_of (too_many (settings_of self.now) self.now.entries.items change.now) }
    {
        match change {
            Change::Upload { .. } => None,
            Change::Remove { .. } => None,
            Change::SetRules { .. } => None,
            Change::BucketDone { .. } => None,
            Change::PostTopic { .. } => self.topics_full(),
            Change::PutTopic { .. } => None,
            Change::DeleteTopic { .. } => None,
            Change::PostComment { .. } => self.comments_full(),
            Change::PutComment { .. } => None,
            Change::DeleteComment { .. } => None,
            Change::PostView { .. } => self.views_full(),
            Change::DeleteView { .. } => None,
            Change::ClashTopic { .. } => match self.topics_full() {
                Some(fault) => Some(fault),
                None => self.views_full(),
            },
        }
    }
}
