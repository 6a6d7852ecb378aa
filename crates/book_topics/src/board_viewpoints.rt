//! Viewpoints of the topics of a board.
ghost use Rattle.std.specs.Prelude.{◌≡◌, ◌<◌, ◌+◌, ◌^◌, option_map, IsSome, IfOk, OnOk, OnErr};
ghost use Rattle.bcf_viewpoints.specs.Viewpoints.{viewpoint, views_on};
ghost use Rattle.book_topics.specs.Boards.{next_serial, topic_at, view_at, view_added, view_removed};

use crate::board::Board;
use crate::pairs::two_of;
use bcf_viewpoints::{CheckedBody, CheckedView};
use bim_model::{Duplicate, Items};
use std::alloc::{AllocError, Global};

impl Board {
    /// The viewpoints of a topic by rising serial number; none where there is no such topic.
    pub fn views(&self, topic: u64) -> Result<Items<CheckedView>, AllocError>
        requires { topic < 2 ^ 48 }
        ensures { IfOk result (λ list. list ≡ views_on topic self.now.views) }
    {
        self.views.listed(topic)
    }

    /// The viewpoint of a serial number of a topic.
    pub fn view(
        &self,
        alloc: Global,
        topic: u64,
        serial: u64,
    ) -> Result<Option<CheckedView>, AllocError>
        ensures { IfOk result (λ view. view ≡ option_map (viewpoint serial) (view_at self.now topic serial)) }
    {
        let Some(body) = self.views.get(topic, serial) else {
            return Ok(None);
        };
        let body = body.copy(alloc)?;
        Ok(Some(CheckedView::of(serial, body)))
    }

    /// Makes a viewpoint of a topic, and tells it. An `Err` leaves all as it was.
    pub fn post_view(
        &mut self,
        alloc: Global,
        topic: u64,
        body: &CheckedBody,
    ) -> Result<CheckedView, AllocError>
        requires there { IsSome (topic_at self.old topic) }
        requires room { self.old.made + 2 < 2 ^ 48 }
        ensures told { IfOk result (λ view. view ≡ viewpoint (next_serial self.old) body.now) }
        ensures ok { OnOk result (self.new ≡ view_added self.old topic body.now) }
        ensures err { OnErr result (self.new ≡ self.old) }
    {
        let serial = self.made + 1;
        let bodies = two_of(alloc, body.get())?;
        let (body, said) = bodies;
        self.views.post(serial, topic, body)?;
        self.made = serial;
        Ok(CheckedView::of(serial, said))
    }

    /// Deletes a viewpoint. Takes no memory.
    pub fn delete_view(&mut self, topic: u64, serial: u64)
        requires { IsSome (view_at self.old topic serial) }
        ensures { self.new ≡ view_removed self.old topic serial }
    {
        let Ok(()) = self.views.delete(topic, serial) else {
            unreachable!()
        };
    }
}
