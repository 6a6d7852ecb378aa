//! Components, which are elements of building models as viewpoints name them.

use bcf_topics::copy_text;
use bim_model::{Duplicate, Guid, Items, Text};
use std::alloc::{AllocError, Global};

/// A component.
#[derive(Drop)]
pub struct Component {
    /// Its identifier in IFC.
    pub ifc_guid: Option<Guid>,
    /// The system that it comes from, at most 64 bytes.
    pub originating_system: Option<Text>,
    /// Its identifier there, at most 64 bytes.
    pub authoring_tool_id: Option<Text>,
}

/// A color, and the components that have it.
#[derive(Drop)]
pub struct Coloring {
    /// 6 or 8 hexadecimal digits, after a `#` or without one.
    pub color: Text,
    pub components: Items<Component>,
}

impl Duplicate for Component {
    fn copy(&self, alloc: Global) -> Result<Component, AllocError> {
        Ok(Component {
            ifc_guid: self.ifc_guid,
            originating_system: copy_text(alloc, &self.originating_system)?,
            authoring_tool_id: copy_text(alloc, &self.authoring_tool_id)?,
        })
    }
}

impl Duplicate for Coloring {
    fn copy(&self, alloc: Global) -> Result<Coloring, AllocError> {
        Ok(Coloring {
            color: self.color.copy(alloc)?,
            components: self.components.copy(alloc)?,
        })
    }
}
