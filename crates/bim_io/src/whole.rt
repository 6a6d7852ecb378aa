//! Writing a whole piece.
ghost use Rattle.std.specs.Prelude.{◌≡◌, ◌≤◌, length, drop};
ghost use Rattle.bim_io.specs.Writes.{WritesWhole};

use crate::traits::{Failed, Sink};

fn tail(bytes: &[u8], at: usize) -> &[u8]
    requires { at ≤ length bytes.now }
    ensures { result.now ≡ drop at bytes.now }
{
    &bytes[at..]
}

/// Writes all the bytes, or a front of them where the sink fails.
pub fn write_whole<K: Sink>(sink: &mut K, bytes: &[u8]) -> Result<(), Failed>
    ensures { WritesWhole (K.seen sink.old) (K.seen sink.new) bytes.now result }
{
    let mut at = 0;
    while at < bytes.len() {
        match sink.write(tail(bytes, at)) {
            Ok(count) => at += count,
            Err(failed) => return Err(failed),
        }
    }
    Ok(())
}
