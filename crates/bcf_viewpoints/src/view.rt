//! Viewpoints.

use crate::component::{Coloring, Component};
use bim_model::{Duplicate, Items};
use std::alloc::{AllocError, Global};

/// What a client says in a viewpoint, as far as it is kept.
#[derive(Drop)]
pub struct ViewBody {
    pub index: Option<i32>,
    /// The components that are selected. These, those of the colorings and the exceptions are at most 1,000
    /// together.
    pub selection: Items<Component>,
    pub coloring: Items<Coloring>,
    /// Whether components are shown, but for the exceptions.
    pub default_visibility: bool,
    pub exceptions: Items<Component>,
}

impl Duplicate for ViewBody {
    fn copy(&self, alloc: Global) -> Result<ViewBody, AllocError> {
        Ok(ViewBody {
            index: self.index,
            selection: self.selection.copy(alloc)?,
            coloring: self.coloring.copy(alloc)?,
            default_visibility: self.default_visibility,
            exceptions: self.exceptions.copy(alloc)?,
        })
    }
}

/// A viewpoint of a topic.
#[derive(Drop)]
pub struct ViewIs {
    /// The number among the objects made in its project, from 1.
    pub serial: u64,
    pub body: ViewBody,
}

impl Duplicate for ViewIs {
    fn copy(&self, alloc: Global) -> Result<ViewIs, AllocError> {
        Ok(ViewIs {
            serial: self.serial,
            body: self.body.copy(alloc)?,
        })
    }
}
