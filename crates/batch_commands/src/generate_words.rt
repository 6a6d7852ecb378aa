//! The words of `generate`.
ghost use Rattle.std.specs.Prelude.{◌≡◌, ◌≤◌, option_map, IfOk, IfSome};
ghost use Rattle.clap.specs.Words.{app_of, found_of, rows_of};
ghost use Rattle.model_generator.specs.declared.pieces.TheConstants.{MOST_GENERATED};
ghost use Rattle.batch_commands.specs.GenerateWords.{count_said, number_said, file_said, both_said, generate_command, generate_said, generate_words};

use bim_model::Text;
use clap::{ArgMatches, Command};
use command_words::{
    is_word, lent_words, number_word, parse, plain_command, with_flag, with_option,
};
use model_generator::MOST_GENERATED;
use std::alloc::{AllocError, Global};

/// What the words of `generate` say.
#[derive(Clone, Copy, Debug, PartialEq, Eq)]
pub struct GenerateWords {
    /// How many elements there are: 1 to 10,000.
    pub count: u32,
    /// The number that the elements are drawn from.
    pub number: u64,
    /// Whether the file is printed, and not what it holds.
    pub file: bool,
}

fn count_said(text: Option<&str>) -> Option<u32>
    ensures said { result ≡ count_said (option_map (λ s. s.now) text.entry) }
    ensures few { IfSome result (λ n. n ≤ MOST_GENERATED) }
{
    let Some(text) = text else {
        return None;
    };
    match number_word(1, MOST_GENERATED as u64, text) {
        Some(number) => Some(number as u32),
        None => None,
    }
}

fn number_said(text: Option<&str>) -> Option<u64>
    ensures { result ≡ number_said (option_map (λ s. s.now) text.entry) }
{
    match text {
        Some(text) => number_word(0, u64::MAX, text),
        None => Some(1),
    }
}

fn file_said(text: Option<&str>) -> bool
    ensures { result ≡ file_said (option_map (λ s. s.now) text.entry) }
{
    match text {
        Some(text) => is_word(text, "true"),
        None => false,
    }
}

fn both_said(count: Option<u32>, number: Option<u64>, file: bool) -> Option<GenerateWords>
    requires { IfSome count (λ n. n ≤ MOST_GENERATED) }
    ensures said { result ≡ both_said count number file }
    ensures few { IfSome result (λ said. said.count ≤ MOST_GENERATED) }
{
    match (count, number) {
        (Some(count), Some(number)) => Some(GenerateWords {
            count,
            number,
            file,
        }),
        _ => None,
    }
}

fn generate_said(matches: &ArgMatches<'_>) -> Option<GenerateWords>
    ensures said { result ≡ generate_said (rows_of (found_of matches.now)) }
    ensures few { IfSome result (λ said. said.count ≤ MOST_GENERATED) }
{
    let count = count_said(matches.get_str("count"));
    let number = number_said(matches.get_str("number"));
    let file = file_said(matches.get_str("file"));
    both_said(count, number, file)
}

// `generate` has three options, in any order.
fn generate_command<'a>(alloc: Global) -> Result<Command<'a>, AllocError>
    ensures { IfOk result (λ command. app_of command ≡ generate_command) }
{
    let plain = plain_command(alloc, "generate");
    let counted = with_option(alloc, plain, "count")?;
    let numbered = with_option(alloc, counted, "number")?;
    with_flag(alloc, numbered, "file")
}

/// What the words after `generate` say, where they are in its grammar: `--count N`, 1 to 10,000, which must
/// be there, `--number N`, any of 64 bits, and `--file`, in any order, each at most once, also spelled
/// `--count=N`. A number is 1 to 20 digits.
pub fn generate_words(alloc: Global, words: &[Text]) -> Result<Option<GenerateWords>, AllocError>
    ensures words { IfOk result (λ said. said ≡ generate_words words.now) }
    ensures few { IfOk result (λ said. IfSome said (λ said. said.count ≤ MOST_GENERATED)) }
{
    let command = generate_command(alloc)?;
    let lent = lent_words(alloc, words)?;
    match parse(command, lent.as_slice())? {
        Some(matches) => Ok(generate_said(&matches)),
        None => Ok(None),
    }
}
