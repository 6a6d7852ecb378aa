//! The command `check`.
ghost use Rattle.std.specs.Prelude.{◌≡◌};
ghost use Rattle.bim_io.specs.Causes.{Rose, ComesOfFault};
ghost use Rattle.batch_commands.specs.CheckWords.{check_words};
ghost use Rattle.batch_commands.specs.Reports.{found_bytes, refusal_line};
ghost use Rattle.batch_commands.specs.PrintedOutput.{Prints};
ghost use Rattle.batch_commands.specs.BatchCommands.{AnswersError, ChecksBy, Checks};

use crate::check_words::{CheckWords, check_words};
use crate::judge::judge;
use crate::refusal::{JudgeError, Refusal};
use crate::report::{print_found, print_refusal};
use crate::statuses::{NO_FILE, NO_MEMORY, REFUSED, print_usage, printed};
use bim_files::Files;
use bim_io::Sink;
use bim_model::Text;
use clash_publish::Published;
use std::alloc::Global;

// Prints what was found.
fn answer_found<K: Sink>(alloc: Global, sink: &mut K, found: &Published) -> u8
    ensures { Prints (K.seen sink.old) (K.seen sink.new) (found_bytes found.now) 0 result }
{
    let written = print_found(alloc, sink, found);
    printed(0, written)
}

// Prints the line of a refusal.
fn answer_refusal<K: Sink>(alloc: Global, sink: &mut K, refusal: &Refusal) -> u8
    ensures { Prints (K.seen sink.old) (K.seen sink.new) (refusal_line refusal.now) 3 result }
{
    let written = print_refusal(alloc, sink, refusal);
    printed(REFUSED, written)
}

// Prints why nothing was found, where that is a refusal.
fn answer_error<K: Sink>(alloc: Global, sink: &mut K, error: JudgeError) -> u8
    ensures { AnswersError (K.seen sink.old) (K.seen sink.new) error result }
{
    match error {
        JudgeError::Refused(refusal) => answer_refusal(alloc, sink, &refusal),
        JudgeError::File => NO_FILE,
        JudgeError::Memory => NO_MEMORY,
    }
}

// Checks the files that the words name.
fn check_said<F: Files, K: Sink>(
    alloc: Global,
    said: &CheckWords,
    files: &mut F,
    sink: &mut K,
) -> u8
    ensures does { ChecksBy said.now (F.seen files.old) (F.seen files.new)
        (K.seen sink.old) (K.seen sink.new) result }
    ensures read { ComesOfFault (F.seen files.old).faults (F.seen files.new).faults (result ≡ 4) }
    ensures write { result ≡ 5 → Rose (K.seen sink.old).faults (K.seen sink.new).faults }
{
    match judge(alloc, files, said) {
        Ok(found) => answer_found(alloc, sink, &found),
        Err(error) => answer_error(alloc, sink, error),
    }
}

/// Prints the clashes of the models that the words name, under the rules that they name: one line a clash in
/// the order of keys, `MODEL GUID MODEL GUID RULE`, and then `clashes N`. Where the rules, a file or the
/// version is refused, the line of the first refusal and nothing else. The words are those after `check`. It
/// answers the exit status: 0 where the clashes are printed, 2 where the words are outside their grammar, 3
/// where something is refused, 4 where a file can't be opened or read, 5 where a write failed, 6 where memory
/// was wanting.
pub fn run_check<F: Files, K: Sink>(
    alloc: Global,
    words: &[Text],
    files: &mut F,
    sink: &mut K,
) -> u8
    ensures does { Checks (check_words words.now) (F.seen files.old) (F.seen files.new)
        (K.seen sink.old) (K.seen sink.new) result }
    ensures read { ComesOfFault (F.seen files.old).faults (F.seen files.new).faults (result ≡ 4) }
    ensures write { result ≡ 5 → Rose (K.seen sink.old).faults (K.seen sink.new).faults }
{
    match check_words(alloc, words) {
        Ok(Some(said)) => check_said(alloc, &said, files, sink),
        Ok(None) => print_usage(sink),
        Err(_) => NO_MEMORY,
    }
}
