//! Entries as frames.
ghost use Rattle.std.specs.Prelude.{◌≡◌, ◌≤◌, ◌-◌, ◌++◌, length, drop, OnOk, IfOk};
ghost use Rattle.feed_frames.specs.FieldBytes.{long_bytes};
ghost use Rattle.feed_frames.specs.EntryBytes.{payload, frame};

use crate::change_writing::put_change;
use crate::field::Field;
use bim_model::Bytes;
use book_history::Entry;
use std::alloc::{AllocError, Global};

/// The bytes of a count.
pub(crate) const COUNT: usize = 8;

// Writes the payload of an entry behind the bytes.
#[tactic(auto, unfolding(crate::specs::EntryBytes::payload))]
fn put_payload(entry: &Entry, out: &mut Vec<u8>) -> Result<(), AllocError>
    ensures { OnOk result (out.new.items ≡ out.old.items ++ payload entry.now) }
{
    entry.stamp.write_to(out)?;
    entry.project.write_to(out)?;
    put_change(&entry.change, out)
}

// Writes a count over eight bytes.
#[tactic(auto, unfolding(crate::specs::FieldBytes::long_bytes))]
fn put_count(room: &mut [u8], count: u64)
    requires { length room.old ≡ 8 }
    ensures { room.new ≡ long_bytes count }
{
    room.copy_from_slice(&count.to_be_bytes());
}

// Writes how many bytes follow over the first eight.
fn count_rest(bytes: &mut [u8])
    requires { 8 ≤ length bytes.old }
    ensures { bytes.new ≡ long_bytes (length bytes.old - 8) ++ drop 8 bytes.old }
{
    let count = (bytes.len() - COUNT) as u64;
    put_count(&mut bytes[..COUNT], count);
}

// The same of a vector.
fn set_count(bytes: &mut Vec<u8>)
    requires { 8 ≤ length bytes.old.items }
    ensures { bytes.new.items ≡ long_bytes (length bytes.old.items - 8) ++ drop 8 bytes.old.items }
{
    count_rest(bytes.as_mut_slice());
}

/// The frame of an entry: how many bytes its payload has, in eight bytes, and the payload.
pub fn encode(alloc: Global, entry: &Entry) -> Result<Bytes, AllocError>
    ensures { IfOk result (λ bytes. bytes ≡ frame entry.now) }
{
    let mut out = Vec::new(alloc);
    0u64.write_to(&mut out)?;
    put_payload(entry, &mut out)?;
    set_count(&mut out);
    Bytes::from_vec(alloc, out)
}
