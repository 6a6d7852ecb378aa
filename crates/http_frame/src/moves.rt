//! Moving bytes down within a buffer.
ghost use Rattle.std.specs.Prelude.{◌≡◌, ◌≤◌, ◌+◌, ◌++◌, length, take, drop};

use std::simd::prelude::*;

fn move_each(bytes: &mut [u8], from: usize, count: usize, to: usize)
    requires order { to ≤ from }
    requires within { from + count ≤ length bytes.old }
    ensures front { take (to + count) bytes.new ≡ take to bytes.old ++ take count (drop from bytes.old) }
    ensures rest { drop (from + count) bytes.new ≡ drop (from + count) bytes.old }
    ensures len { length bytes.new ≡ length bytes.old }
{
    bytes.copy_within(from..from + count, to);
}

/// Moves so many bytes from a place down to another, 32 at a time: these are read before one of them is written over.
pub fn move_down(bytes: &mut [u8], from: usize, count: usize, to: usize)
    requires order { to ≤ from }
    requires within { from + count ≤ length bytes.old }
    ensures front { take (to + count) bytes.new ≡ take to bytes.old ++ take count (drop from bytes.old) }
    ensures rest { drop (from + count) bytes.new ≡ drop (from + count) bytes.old }
    ensures len { length bytes.new ≡ length bytes.old }
{
    let mut done = 0;
    while done + 32 <= count {
        let part = u8x32::from_slice(&bytes[from + done..]);
        part.copy_to_slice(&mut bytes[to + done..]);
        done += 32;
    }
    move_each(bytes, from + done, count - done, to + done);
}
