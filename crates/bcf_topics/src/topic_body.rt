//! What a client says of a topic.
ghost use Rattle.std.specs.Prelude.{◌≡◌, IfOk};

use crate::optional::copy_text;
use bim_model::{Duplicate, Items, Moment, Text};
use std::alloc::{AllocError, Global};

/// What a client says of a topic.
#[derive(Drop)]
pub struct TopicBody {
    /// 1 to 1,024 bytes.
    pub title: Text,
    /// This and the other texts: at most 4,096 bytes.
    pub topic_type: Option<Text>,
    pub topic_status: Option<Text>,
    pub priority: Option<Text>,
    pub index: Option<i32>,
    /// At most 20, each of at most 256 bytes.
    pub labels: Items<Text>,
    pub assigned_to: Option<Text>,
    pub stage: Option<Text>,
    pub description: Option<Text>,
    /// When it is due.
    pub due: Option<Moment>,
}

impl Duplicate for TopicBody {
    fn copy(&self, alloc: Global) -> Result<TopicBody, AllocError> {
        Ok(TopicBody {
            title: self.title.copy(alloc)?,
            topic_type: copy_text(alloc, &self.topic_type)?,
            topic_status: copy_text(alloc, &self.topic_status)?,
            priority: copy_text(alloc, &self.priority)?,
            index: self.index,
            labels: self.labels.copy(alloc)?,
            assigned_to: copy_text(alloc, &self.assigned_to)?,
            stage: copy_text(alloc, &self.stage)?,
            description: copy_text(alloc, &self.description)?,
            due: self.due,
        })
    }
}
