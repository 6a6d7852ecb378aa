//! The cell of a bucket, and the call that made an entry.
ghost use Rattle.feed_frames.specs.EntryBytes.{cell_bytes, stamp_bytes};
ghost use Rattle.feed_frames.specs.inner.EntryReaders.{cell_at, stamp_at};

use crate::field::Field;
use crate::read_error::ReadError;
use crate::unread::Unread;
use book_history::Stamp;
use bucket_grid::Cell;
use std::alloc::{AllocError, Global};

impl Field for Cell {
    ghost spelling = { cell_bytes };

    ghost reading = { cell_at };

    #[tactic(auto, unfolding(crate::specs::EntryBytes::cell_bytes))]
    fn write_to(&self, out: &mut Vec<u8>) -> Result<(), AllocError> {
        self.x.write_to(out)?;
        self.y.write_to(out)?;
        self.z.write_to(out)
    }

    #[tactic(auto, unfolding(crate::specs::inner::EntryReaders::cell_at))]
    fn read_from(alloc: Global, unread: &mut Unread) -> Result<Cell, ReadError> {
        let x = i32::read_from(alloc, unread)?;
        let y = i32::read_from(alloc, unread)?;
        let z = i32::read_from(alloc, unread)?;
        Ok(Cell { x, y, z })
    }
}

impl Field for Stamp {
    ghost spelling = { stamp_bytes };

    ghost reading = { stamp_at };

    #[tactic(auto, unfolding(crate::specs::EntryBytes::stamp_bytes))]
    fn write_to(&self, out: &mut Vec<u8>) -> Result<(), AllocError> {
        self.turn.write_to(out)?;
        self.pass.write_to(out)?;
        self.call.write_to(out)
    }

    #[tactic(auto, unfolding(crate::specs::inner::EntryReaders::stamp_at))]
    fn read_from(_: Global, unread: &mut Unread) -> Result<Stamp, ReadError> {
        let turn = unread.long()?;
        let pass = unread.short()?;
        let call = unread.long()?;
        Ok(Stamp { turn, pass, call })
    }
}
