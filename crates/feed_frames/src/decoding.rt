//! Entries from the payloads of frames.
ghost use Rattle.std.specs.Prelude.{◌≡◌, ◌≢◌, IfOk, IfSome, IfNone};
ghost use Rattle.book_history.specs.declared.changes.Entry.{Entry};
ghost use Rattle.feed_frames.specs.EntryBytes.{payload};
ghost use Rattle.feed_frames.specs.SpelledEntries.{UploadsModelOf, IsEntry};
ghost use Rattle.feed_frames.specs.inner.Readers.{Gives, Admits, Lacks};
ghost use Rattle.feed_frames.specs.inner.EntryReaders.{head_at, body_at, entry_at};

use crate::change_reading::take_change;
use crate::field::Field;
use crate::read_error::ReadError;
use crate::unread::Unread;
use book_history::{Entry, Stamp};
use std::alloc::{AllocError, Global};
use std::mem::drop;

// The call that made an entry, and its project.
fn take_head(alloc: Global, unread: &mut Unread) -> Result<(Stamp, u32), ReadError>
    ensures { Gives result unread.new (head_at unread.old) }
{
    let stamp = Stamp::read_from(alloc, unread)?;
    let project = unread.short()?;
    Ok((stamp, project))
}

// The entry of a head, and of the change that stands behind it.
fn take_body(alloc: Global, head: (Stamp, u32), unread: &mut Unread) -> Result<Entry, ReadError>
    ensures { Admits UploadsModelOf result unread.new (body_at head unread.old) }
{
    let change = take_change(alloc, unread)?;
    Ok(Entry {
        stamp: head.0,
        project: head.1,
        change,
    })
}

// Takes an entry from the front of the bytes.
fn take_entry(alloc: Global, unread: &mut Unread) -> Result<Entry, ReadError>
    ensures { Admits UploadsModelOf result unread.new (entry_at unread.old) }
{
    let head = take_head(alloc, unread)?;
    take_body(alloc, head, unread)
}

// The entry that the bytes spell, all of them.
fn entry_of(alloc: Global, bytes: &[u8]) -> Result<Entry, ReadError>
    ensures found { IfOk result (λ entry. IsEntry entry × (payload entry ≡ bytes.now)) }
    ensures none { Lacks result ((e : Entry) → IsEntry e → payload e ≢ bytes.now) }
{
    let mut unread = Unread::new(bytes);
    let entry = take_entry(alloc, &mut unread)?;
    let whole = unread.is_empty();
    if whole {
        Ok(entry)
    } else {
        drop(entry);
        Err(ReadError::NotSpelled)
    }
}

/// The entry that a payload spells, all its bytes, or none where it spells no entry that keeps the rules of
/// the types.
pub fn decode(alloc: Global, bytes: &[u8]) -> Result<Option<Entry>, AllocError>
    ensures found { IfOk result (λ read. IfSome read (λ entry. IsEntry entry × (payload entry ≡ bytes.now))) }
    ensures none { IfOk result (λ read. IfNone read ((e : Entry) → IsEntry e → payload e ≢ bytes.now)) }
{
    match entry_of(alloc, bytes) {
        Ok(entry) => Ok(Some(entry)),
        Err(ReadError::NotSpelled) => Ok(None),
        Err(ReadError::Memory) => Err(AllocError),
    }
}
