//! The command `generate`.
ghost use Rattle.std.specs.Prelude.{◌≡◌, ◌≤◌, string_bytes, Some, IfOk};
ghost use Rattle.bim_io.specs.Causes.{Rose};
ghost use Rattle.model_generator.specs.GeneratedFiles.{generated};
ghost use Rattle.model_generator.specs.declared.pieces.TheConstants.{MOST_GENERATED};
ghost use Rattle.batch_commands.specs.GenerateWords.{generate_words};
ghost use Rattle.batch_commands.specs.BatchCommands.{touching, version_of, numbers_text, summary_of, IsSummary, Generates};
ghost use Rattle.batch_commands.specs.PrintedOutput.{Flushes, Prints, Puts};

use crate::block::{Stop, flush, put, write_bytes};
use crate::generate_words::{GenerateWords, generate_words};
use crate::statuses::{NO_MEMORY, print_usage, printed};
use bim_io::Sink;
use bim_model::{
    Bytes, ClassTest, Distance, Mode, Model, ModelTest, NamedModel, Rule, RuleKind, Rules, Shared,
    Snapshot, StoreyTest, Text,
};
use clash_check::clashes_of;
use model_build::build_owned;
use model_generator::Pieces;
use std::alloc::{AllocError, Global};

// Puts all pieces, one after the other.
fn put_pieces<K: Sink>(
    alloc: Global,
    sink: &mut K,
    block: &mut Vec<u8>,
    mut pieces: Pieces,
) -> Result<(), Stop>
    ensures { Puts (K.seen sink.old) (K.seen sink.new) block.old.items block.new.items pieces result }
{
    'asks: while let Some(piece) = pieces.next(alloc)? {
        put(sink, block, piece.as_str())?;
    }
    Ok(())
}

// Prints the file, piece by piece.
fn print_file<K: Sink>(alloc: Global, count: u32, number: u64, sink: &mut K) -> Result<(), Stop>
    requires { count ≤ MOST_GENERATED }
    ensures { Flushes (K.seen sink.old) (K.seen sink.new) (generated number count) result }
{
    let mut block = Vec::new(alloc);
    put_pieces(alloc, sink, &mut block, Pieces::of(count, number))?;
    flush(sink, &mut block)
}

// The bytes of all pieces.
fn all_bytes(alloc: Global, mut pieces: Pieces) -> Result<Vec<u8>, AllocError>
    ensures { IfOk result (λ bytes. bytes.items ≡ pieces) }
{
    let mut bytes = Vec::new(alloc);
    'asks: while let Some(piece) = pieces.next(alloc)? {
        bytes.extend_from_slice(piece.as_bytes())?;
    }
    Ok(bytes)
}

// The bytes of the file.
fn file_bytes(alloc: Global, count: u32, number: u64) -> Result<Bytes, AllocError>
    requires { count ≤ MOST_GENERATED }
    ensures { IfOk result (λ bytes. bytes ≡ generated number count) }
{
    let bytes = all_bytes(alloc, Pieces::of(count, number))?;
    Bytes::from_vec(alloc, bytes)
}

// Any two elements clash where they touch.
fn touching(alloc: Global) -> Result<Rules, AllocError>
    ensures { IfOk result (λ rules. rules ≡ touching) }
{
    let mut list = Vec::new(alloc);
    list.push(Rule {
        a: ClassTest::Any,
        b: ClassTest::Any,
        storey: StoreyTest::Any,
        level: None,
        models: ModelTest::Any,
        kind: RuleKind::Clash {
            distance: Distance::new(0),
        },
    })?;
    Ok(Rules::from_vec(list))
}

// The version of a model alone.
fn version_of(alloc: Global, model: Model) -> Result<Snapshot, AllocError>
    ensures { IfOk result (λ version. version ≡ version_of model) }
{
    let rules = touching(alloc)?;
    let shared = Shared::new(alloc, rules)?;
    let name = Text::of(alloc, "m")?;
    let model = Shared::new(alloc, model)?;
    let empty = Snapshot::new(alloc, shared);
    empty.with_model(alloc, NamedModel { name, model })
}

// The three numbers, one a line.
fn numbers_text(
    alloc: Global,
    elements: u64,
    triangles: u64,
    clashes: u64,
) -> Result<String, AllocError>
    ensures { IfOk result (λ text. string_bytes text ≡ numbers_text elements triangles clashes) }
{
    format!(in alloc; "elements {elements}\ntriangles {triangles}\nclashes {clashes}\n")
}

// How many elements, triangles and clashes a model has. A version of a generated model is never too large,
// which is not proved: it would be answered as out of memory.
fn summary_of(alloc: Global, model: Model) -> Result<String, AllocError>
    ensures { IfOk result (λ text. string_bytes text ≡ summary_of model) }
{
    let elements = model.elements().len() as u64;
    let triangles = model.triangle_count();
    let version = version_of(alloc, model)?;
    let shared = Shared::new(alloc, version)?;
    let Ok(found) = clashes_of(alloc, shared) else {
        return Err(AllocError);
    };
    let clashes = found.total();
    numbers_text(alloc, elements, triangles, clashes)
}

// The same of the file. It is never refused, which is not proved: that too would be answered as want of
// memory.
fn summary(alloc: Global, count: u32, number: u64) -> Result<String, AllocError>
    requires { count ≤ MOST_GENERATED }
    ensures { IfOk result (λ text. IsSummary number count (string_bytes text)) }
{
    let bytes = file_bytes(alloc, count, number)?;
    match build_owned(alloc, bytes, Mode::Exact) {
        Ok(model) => summary_of(alloc, model),
        Err(_) => Err(AllocError),
    }
}

// Prints the file.
fn answer_file<K: Sink>(alloc: Global, said: GenerateWords, sink: &mut K) -> u8
    requires { said.count ≤ MOST_GENERATED }
    ensures { Prints (K.seen sink.old) (K.seen sink.new) (generated said.number said.count) 0 result }
{
    let written = print_file(alloc, said.count, said.number, sink);
    printed(0, written)
}

// Prints what a file holds.
fn answer_numbers<K: Sink>(sink: &mut K, text: &str) -> u8
    ensures { Prints (K.seen sink.old) (K.seen sink.new) text.now 0 result }
{
    let written = write_bytes(sink, text.as_bytes());
    printed(0, written)
}

// Prints the file, or what it holds.
fn generate<K: Sink>(alloc: Global, said: GenerateWords, sink: &mut K) -> u8
    requires { said.count ≤ MOST_GENERATED }
    ensures does { Generates (Some said) (K.seen sink.old) (K.seen sink.new) result }
    ensures write { result ≡ 5 → Rose (K.seen sink.old).faults (K.seen sink.new).faults }
{
    if said.file {
        return answer_file(alloc, said, sink);
    }
    match summary(alloc, said.count, said.number) {
        Ok(text) => answer_numbers(sink, text.as_str()),
        Err(_) => NO_MEMORY,
    }
}

/// Makes a valid model of so many elements, and prints its file, or the numbers of its elements, of its
/// triangles and of its clashes where any two elements clash that touch, one a line. The words are those
/// after `generate`. It answers the exit status: 0 where all is printed, 2 where the words are outside their
/// grammar, 5 where a write failed, 6 where memory ran out.
pub fn run_generate<K: Sink>(alloc: Global, words: &[Text], sink: &mut K) -> u8
    ensures does { Generates (generate_words words.now) (K.seen sink.old) (K.seen sink.new) result }
    ensures write { result ≡ 5 → Rose (K.seen sink.old).faults (K.seen sink.new).faults }
{
    match generate_words(alloc, words) {
        Ok(Some(said)) => generate(alloc, said, sink),
        Ok(None) => print_usage(sink),
        Err(_) => NO_MEMORY,
    }
}
