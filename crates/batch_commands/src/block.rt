//! Writing in blocks.
ghost use Rattle.std.specs.Prelude.{◌≡◌, [], OnOk};
ghost use Rattle.batch_commands.specs.PrintedOutput.{Puts, Flushes};

use bim_io::{Sink, write_whole};
use std::alloc::{AllocError, Global};

/// Why what is printed stops.
#[derive(Clone, Copy, Debug, PartialEq, Eq)]
pub enum Stop {
    /// A write failed.
    Write,
    Memory,
}

impl From<AllocError> for Stop {
    ghost from_gives = { λ _ e. e ≡ Memory };

    ghost use Rattle.std.specs.Prelude.{◌≡◌};
    ghost use Rattle.batch_commands.specs.declared.block.Stop.TheVariants.{Memory};

    fn from(_: AllocError) -> Stop {
        Stop::Memory
    }
}

// How many bytes are gathered before they are written.
const BLOCK: usize = 65_536;

/// Writes all the bytes; a failed write is a reason to stop.
pub fn write_bytes<K: Sink>(sink: &mut K, bytes: &[u8]) -> Result<(), Stop>
    ensures { Flushes (K.seen sink.old) (K.seen sink.new) bytes.now result }
{
    match write_whole(sink, bytes) {
        Ok(()) => Ok(()),
        Err(_) => Err(Stop::Write),
    }
}

/// Writes what the block holds, and empties it.
pub fn flush<K: Sink>(sink: &mut K, block: &mut Vec<u8>) -> Result<(), Stop>
    ensures wrote { Flushes (K.seen sink.old) (K.seen sink.new) block.old.items result }
    ensures empty { OnOk result (block.new.items ≡ []) }
{
    let written = write_bytes(sink, block.as_slice());
    block.clear();
    written
}

/// Puts a text after what the block holds, and writes the block once it is full.
pub fn put<K: Sink>(sink: &mut K, block: &mut Vec<u8>, text: &str) -> Result<(), Stop>
    ensures { Puts (K.seen sink.old) (K.seen sink.new) block.old.items block.new.items text.now result }
{
    block.extend_from_slice(text.as_bytes())?;
    if block.len() < BLOCK {
        return Ok(());
    }
    flush(sink, block)
}
