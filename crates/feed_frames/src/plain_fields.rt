//! Numbers, truth values, values that may be missing, and lists.
ghost use Rattle.std.specs.Prelude.{◌≡◌, ◌++◌, OnOk};
ghost use Rattle.feed_frames.specs.FieldBytes.{long_bytes, short_bytes, signed_bytes, truth_bytes, optional_bytes, counted_bytes};
ghost use Rattle.feed_frames.specs.inner.Readers.{Gives, items_at};
ghost use Rattle.feed_frames.specs.inner.FieldReaders.{long_at, short_at, signed_at, truth_at, optional_at, counted_at};

use crate::field::Field;
use crate::read_error::ReadError;
use crate::unread::Unread;
use bim_model::Items;
use std::alloc::{AllocError, Global};

impl Field for u64 {
    ghost spelling = { long_bytes };

    ghost reading = { long_at };

    #[tactic(auto, unfolding(crate::specs::FieldBytes::long_bytes))]
    fn write_to(&self, out: &mut Vec<u8>) -> Result<(), AllocError> {
        out.extend_from_slice(&self.to_be_bytes())
    }

    fn read_from(_: Global, unread: &mut Unread) -> Result<u64, ReadError> {
        unread.long()
    }
}

impl Field for u32 {
    ghost spelling = { short_bytes };

    ghost reading = { short_at };

    #[tactic(auto, unfolding(crate::specs::FieldBytes::short_bytes))]
    fn write_to(&self, out: &mut Vec<u8>) -> Result<(), AllocError> {
        out.extend_from_slice(&self.to_be_bytes())
    }

    fn read_from(_: Global, unread: &mut Unread) -> Result<u32, ReadError> {
        unread.short()
    }
}

impl Field for i32 {
    ghost spelling = { signed_bytes };

    ghost reading = { signed_at };

    #[tactic(auto, unfolding(crate::specs::FieldBytes::signed_bytes))]
    fn write_to(&self, out: &mut Vec<u8>) -> Result<(), AllocError> {
        out.extend_from_slice(&self.to_be_bytes())
    }

    #[tactic(auto, unfolding(crate::specs::inner::FieldReaders::signed_at))]
    fn read_from(_: Global, unread: &mut Unread) -> Result<i32, ReadError> {
        let bits = unread.short()?;
        Ok(bits.cast_signed())
    }
}

impl Field for bool {
    ghost spelling = { truth_bytes };

    ghost reading = { truth_at };

    #[tactic(auto, unfolding(crate::specs::FieldBytes::truth_bytes))]
    fn write_to(&self, out: &mut Vec<u8>) -> Result<(), AllocError> {
        out.push(u8::from(*self))?;
        Ok(())
    }

    #[tactic(auto, unfolding(crate::specs::inner::FieldReaders::truth_at))]
    fn read_from(_: Global, unread: &mut Unread) -> Result<bool, ReadError> {
        match unread.byte()? {
            0 => Ok(false),
            1 => Ok(true),
            _ => Err(ReadError::NotSpelled),
        }
    }
}

impl<T: Field> Field for Option<T> {
    ghost spelling = { optional_bytes T.spelling };

    ghost reading = { optional_at T.reading };

    #[tactic(auto, unfolding(crate::specs::FieldBytes::optional_bytes))]
    fn write_to(&self, out: &mut Vec<u8>) -> Result<(), AllocError> {
        match self {
            None => out.push(0)?,
            Some(value) => {
                out.push(1)?;
                value.write_to(out)?;
            }
        }
        Ok(())
    }

    #[tactic(auto, unfolding(crate::specs::inner::FieldReaders::optional_at))]
    fn read_from(alloc: Global, unread: &mut Unread) -> Result<Option<T>, ReadError> {
        match unread.byte()? {
            0 => Ok(None),
            1 => {
                let value = T::read_from(alloc, unread)?;
                Ok(Some(value))
            }
            _ => Err(ReadError::NotSpelled),
        }
    }
}

/// Writes how many items there are, and each of them.
#[tactic(auto, unfolding(crate::specs::FieldBytes::counted_bytes))]
pub(crate) fn put_list<T: Field>(items: &[T], out: &mut Vec<u8>) -> Result<(), AllocError>
    ensures { OnOk result (out.new.items ≡ out.old.items ++ counted_bytes T.spelling items.now) }
{
    let count = items.len() as u64;
    count.write_to(out)?;
    for item in items {
        item.write_to(out)?;
    }
    Ok(())
}

// So many items.
fn items_of<T: Field>(alloc: Global, count: u64, unread: &mut Unread) -> Result<Items<T>, ReadError>
    ensures { Gives result unread.new (items_at T.reading count unread.old) }
{
    let mut items = Items::new(alloc);
    for _ in 0..count {
        let item = T::read_from(alloc, unread)?;
        items.push(item)?;
    }
    Ok(items)
}

impl<T: Field> Field for Items<T> {
    ghost spelling = { counted_bytes T.spelling };

    ghost reading = { counted_at T.reading };

    fn write_to(&self, out: &mut Vec<u8>) -> Result<(), AllocError> {
        put_list(self.as_slice(), out)
    }

    #[tactic(auto, unfolding(crate::specs::inner::FieldReaders::counted_at))]
    fn read_from(alloc: Global, unread: &mut Unread) -> Result<Items<T>, ReadError> {
        let count = unread.long()?;
        items_of(alloc, count, unread)
    }
}
