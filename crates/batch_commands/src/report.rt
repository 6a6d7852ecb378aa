//! What is printed of a check.
ghost use Rattle.std.specs.Prelude.{◌≡◌, string_bytes, IfOk};
ghost use Rattle.bucket_check.specs.Clashes.{clashes};
ghost use Rattle.clash_publish.specs.Listed.{IsClash};
ghost use Rattle.batch_commands.specs.Reports.{clash_line, count_line, clash_lines, found_bytes, refusal_line};
ghost use Rattle.batch_commands.specs.PrintedOutput.{Flushes, Puts};

use crate::block::{Stop, flush, put, write_bytes};
use crate::refusal::Refusal;
use crate::refusal_words::{rules_words, upload_words, version_words};
use bim_io::Sink;
use bucket_check::SetPair;
use clash_publish::Published;
use std::alloc::{AllocError, Global};

// The line of a clash.
fn clash_line(alloc: Global, found: &Published, pair: SetPair) -> Result<String, AllocError>
    requires { IsClash found.now pair }
    ensures { IfOk result (λ text. string_bytes text ≡ clash_line found.now pair) }
{
    let first = found.model_name(pair.a);
    let first_guid = found.element(pair.a).guid.as_str();
    let second = found.model_name(pair.b);
    let second_guid = found.element(pair.b).guid.as_str();
    let rule = pair.rule;
    format!(in alloc; "{first} {first_guid} {second} {second_guid} {rule}\n")
}

fn count_line(alloc: Global, found: &Published) -> Result<String, AllocError>
    ensures { IfOk result (λ text. string_bytes text ≡ count_line found.now) }
{
    let total = found.total();
    format!(in alloc; "clashes {total}\n")
}

// Puts the lines of all clashes.
fn put_clashes<K: Sink>(
    alloc: Global,
    sink: &mut K,
    block: &mut Vec<u8>,
    found: &Published,
) -> Result<(), Stop>
    ensures { Puts (K.seen sink.old) (K.seen sink.new) block.old.items block.new.items
        (clash_lines found.now (clashes found.now)) result }
{
    let pairs = found.pairs();
    for pair in pairs {
        let line = clash_line(alloc, found, *pair)?;
        put(sink, block, line.as_str())?;
    }
    Ok(())
}

// Puts the line of their number.
fn put_count<K: Sink>(
    alloc: Global,
    sink: &mut K,
    block: &mut Vec<u8>,
    found: &Published,
) -> Result<(), Stop>
    ensures { Puts (K.seen sink.old) (K.seen sink.new) block.old.items block.new.items
        (count_line found.now) result }
{
    let line = count_line(alloc, found)?;
    put(sink, block, line.as_str())
}

/// Prints the clashes of a version, one a line, and their number.
pub fn print_found<K: Sink>(alloc: Global, sink: &mut K, found: &Published) -> Result<(), Stop>
    ensures { Flushes (K.seen sink.old) (K.seen sink.new) (found_bytes found.now) result }
{
    let mut block = Vec::new(alloc);
    put_clashes(alloc, sink, &mut block, found)?;
    put_count(alloc, sink, &mut block, found)?;
    flush(sink, &mut block)
}

// The line of a refusal.
fn refusal_line(alloc: Global, refusal: &Refusal) -> Result<String, AllocError>
    ensures { IfOk result (λ text. string_bytes text ≡ refusal_line refusal.now) }
{
    match refusal {
        Refusal::Rules(fault) => {
            let words = rules_words(alloc, *fault)?;
            format!(in alloc; "rules: {words}\n")
        }
        Refusal::Model { name, fault } => {
            let words = upload_words(alloc, *fault)?;
            let name = name.as_str();
            format!(in alloc; "{name}: {words}\n")
        }
        Refusal::Version(fault) => {
            let words = version_words(alloc, *fault)?;
            format!(in alloc; "version: {words}\n")
        }
    }
}

/// Prints the line of a refusal.
pub fn print_refusal<K: Sink>(alloc: Global, sink: &mut K, refusal: &Refusal) -> Result<(), Stop>
    ensures { Flushes (K.seen sink.old) (K.seen sink.new) (refusal_line refusal.now) result }
{
    let line = refusal_line(alloc, refusal)?;
    write_bytes(sink, line.as_bytes())
}
