//! The elements of building models.
ghost use Rattle.feed_frames.specs.EntryBytes.{point_bytes, triangle_bytes, element_bytes};
ghost use Rattle.feed_frames.specs.inner.EntryReaders.{point_at, triangle_at, element_at};

use crate::field::Field;
use crate::read_error::ReadError;
use crate::unread::Unread;
use bim_model::{Element, Guid, Items, Point, Text, Triangle};
use std::alloc::{AllocError, Global};

impl Field for Point {
    ghost spelling = { point_bytes };

    ghost reading = { point_at };

    #[tactic(auto, unfolding(crate::specs::EntryBytes::point_bytes))]
    fn write_to(&self, out: &mut Vec<u8>) -> Result<(), AllocError> {
        self.x.write_to(out)?;
        self.y.write_to(out)?;
        self.z.write_to(out)
    }

    #[tactic(auto, unfolding(crate::specs::inner::EntryReaders::point_at))]
    fn read_from(alloc: Global, unread: &mut Unread) -> Result<Point, ReadError> {
        let x = i32::read_from(alloc, unread)?;
        let y = i32::read_from(alloc, unread)?;
        let z = i32::read_from(alloc, unread)?;
        Ok(Point { x, y, z })
    }
}

impl Field for Triangle {
    ghost spelling = { triangle_bytes };

    ghost reading = { triangle_at };

    #[tactic(auto, unfolding(crate::specs::EntryBytes::triangle_bytes))]
    fn write_to(&self, out: &mut Vec<u8>) -> Result<(), AllocError> {
        self.a.write_to(out)?;
        self.b.write_to(out)?;
        self.c.write_to(out)
    }

    #[tactic(auto, unfolding(crate::specs::inner::EntryReaders::triangle_at))]
    fn read_from(alloc: Global, unread: &mut Unread) -> Result<Triangle, ReadError> {
        let a = Point::read_from(alloc, unread)?;
        let b = Point::read_from(alloc, unread)?;
        let c = Point::read_from(alloc, unread)?;
        Ok(Triangle { a, b, c })
    }
}

impl Field for Element {
    ghost spelling = { element_bytes };

    ghost reading = { element_at };

    #[tactic(auto, unfolding(crate::specs::EntryBytes::element_bytes))]
    fn write_to(&self, out: &mut Vec<u8>) -> Result<(), AllocError> {
        self.guid.write_to(out)?;
        self.class.write_to(out)?;
        self.name.write_to(out)?;
        self.storey.write_to(out)?;
        self.triangles.write_to(out)
    }

    #[tactic(auto, unfolding(crate::specs::inner::EntryReaders::element_at))]
    fn read_from(alloc: Global, unread: &mut Unread) -> Result<Element, ReadError> {
        let guid = Guid::read_from(alloc, unread)?;
        let class = Text::read_from(alloc, unread)?;
        let name = Text::read_from(alloc, unread)?;
        let storey = Option::<Text>::read_from(alloc, unread)?;
        let triangles = Items::<Triangle>::read_from(alloc, unread)?;
        Ok(Element {
            guid,
            class,
            name,
            storey,
            triangles,
        })
    }
}
