//! Exit statuses, and the usage line.
ghost use Rattle.std.specs.Prelude.{◌≡◌};
ghost use Rattle.batch_commands.specs.PrintedOutput.{status_of, PrintsUsage};

use crate::block::Stop;
use bim_io::{Sink, write_whole};

const USAGE: &str = "usage: bim_server replay|check|generate|serve\n";

/// Where words are outside the grammar.
const BAD_WORDS: u8 = 2;

/// Where the rules, a file or the version is refused.
pub const REFUSED: u8 = 3;

/// Where a file can't be opened or read.
pub const NO_FILE: u8 = 4;

/// Where a write failed.
const NO_WRITE: u8 = 5;

/// Memory ran out.
pub const NO_MEMORY: u8 = 6;

/// The status of what was to be printed: the one of success where it was.
pub fn printed(success: u8, written: Result<(), Stop>) -> u8
    ensures { result ≡ status_of success written }
{
    match written {
        Ok(()) => success,
        Err(Stop::Write) => NO_WRITE,
        Err(Stop::Memory) => NO_MEMORY,
    }
}

/// Prints the usage line.
pub fn print_usage<K: Sink>(sink: &mut K) -> u8
    ensures { PrintsUsage (K.seen sink.old) (K.seen sink.new) result }
{
    let _written = write_whole(sink, USAGE.as_bytes());
    BAD_WORDS
}
