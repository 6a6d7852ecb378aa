//! What is said in viewpoints.
ghost use Rattle.std.specs.Prelude.{◌≡◌};
ghost use Rattle.feed_frames.specs.EntryBytes.{component_bytes, coloring_bytes, view_bytes};
ghost use Rattle.feed_frames.specs.inner.Readers.{Gives};
ghost use Rattle.feed_frames.specs.inner.EntryReaders.{component_at, coloring_at, view_at};

use crate::field::Field;
use crate::read_error::ReadError;
use crate::unread::Unread;
use bcf_viewpoints::{CheckedBody, Coloring, Component, ViewBody};
use bim_model::{Guid, Items, Text};
use std::alloc::{AllocError, Global};

impl Field for Component {
    ghost spelling = { component_bytes };

    ghost reading = { component_at };

    #[tactic(auto, unfolding(crate::specs::EntryBytes::component_bytes))]
    fn write_to(&self, out: &mut Vec<u8>) -> Result<(), AllocError> {
        self.ifc_guid.write_to(out)?;
        self.originating_system.write_to(out)?;
        self.authoring_tool_id.write_to(out)
    }

    #[tactic(auto, unfolding(crate::specs::inner::EntryReaders::component_at))]
    fn read_from(alloc: Global, unread: &mut Unread) -> Result<Component, ReadError> {
        let ifc_guid = Option::<Guid>::read_from(alloc, unread)?;
        let originating_system = Option::<Text>::read_from(alloc, unread)?;
        let authoring_tool_id = Option::<Text>::read_from(alloc, unread)?;
        Ok(Component {
            ifc_guid,
            originating_system,
            authoring_tool_id,
        })
    }
}

impl Field for Coloring {
    ghost spelling = { coloring_bytes };

    ghost reading = { coloring_at };

    #[tactic(auto, unfolding(crate::specs::EntryBytes::coloring_bytes))]
    fn write_to(&self, out: &mut Vec<u8>) -> Result<(), AllocError> {
        self.color.write_to(out)?;
        self.components.write_to(out)
    }

    #[tactic(auto, unfolding(crate::specs::inner::EntryReaders::coloring_at))]
    fn read_from(alloc: Global, unread: &mut Unread) -> Result<Coloring, ReadError> {
        let color = Text::read_from(alloc, unread)?;
        let components = Items::<Component>::read_from(alloc, unread)?;
        Ok(Coloring { color, components })
    }
}

impl Field for ViewBody {
    ghost spelling = { view_bytes };

    ghost reading = { view_at };

    #[tactic(auto, unfolding(crate::specs::EntryBytes::view_bytes))]
    fn write_to(&self, out: &mut Vec<u8>) -> Result<(), AllocError> {
        self.index.write_to(out)?;
        self.selection.write_to(out)?;
        self.coloring.write_to(out)?;
        self.default_visibility.write_to(out)?;
        self.exceptions.write_to(out)
    }

    #[tactic(auto, unfolding(crate::specs::inner::EntryReaders::view_at))]
    fn read_from(alloc: Global, unread: &mut Unread) -> Result<ViewBody, ReadError> {
        let index = Option::<i32>::read_from(alloc, unread)?;
        let selection = Items::<Component>::read_from(alloc, unread)?;
        let coloring = Items::<Coloring>::read_from(alloc, unread)?;
        let default_visibility = bool::read_from(alloc, unread)?;
        let exceptions = Items::<Component>::read_from(alloc, unread)?;
        Ok(ViewBody {
            index,
            selection,
            coloring,
            default_visibility,
            exceptions,
        })
    }
}

/// What is said in a viewpoint, with the identifiers of its components.
pub(crate) fn take_view(alloc: Global, unread: &mut Unread) -> Result<CheckedBody, ReadError>
    ensures { Gives result unread.new (view_at unread.old) }
{
    unread.are_bytes();
    let body = ViewBody::read_from(alloc, unread)?;
    Ok(CheckedBody::of(body))
}
