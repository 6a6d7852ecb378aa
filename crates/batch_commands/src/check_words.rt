//! The words of `check`.
ghost use Rattle.std.specs.Prelude.{◌≡◌, ◌&&◌, ℕ, map, option_map, nat_lt, nat_le, Some, IfOk};
ghost use Rattle.std.specs.List.{list_any};
ghost use Rattle.std.specs.Str.{bytes_eq};
ghost use Rattle.clap.specs.Words.{app_of, found_of, rows_of};
ghost use Rattle.batch_commands.specs.declared.check_words.TheConstants.{MOST_MODELS};
ghost use Rattle.batch_commands.specs.CheckWords.{model_word, all_some, names_differ, if_differ, if_models, mode_said, all_said, check_command, check_said, check_words};

use bim_model::{Items, Mode, Text, is_model_name};
use clap::{ArgMatches, Command};
use command_words::{is_word, lent_words, parse, plain_command, with_list, with_option};
use std::alloc::{AllocError, Global};

/// The most models that are checked together.
pub const MOST_MODELS: usize = 64;

/// A model that is named: its name, and the file that it is read from.
#[derive(Drop)]
pub struct ModelWord {
    pub name: Text,
    pub file: Text,
}

/// What the words of `check` say.
#[derive(Drop)]
pub struct CheckWords {
    /// The file of the rules.
    pub rules: Text,
    pub mode: Mode,
    /// 1 to 64 models of different names.
    pub models: Items<ModelWord>,
}

// The name and the file that a word says: what stands before and after its first `=`.
fn model_word(alloc: Global, text: &str) -> Result<Option<ModelWord>, AllocError>
    ensures { IfOk result (λ said. said ≡ model_word text.now) }
{
    match text.split_once('=') {
        Some((name, file)) => {
            if !is_model_name(name.as_bytes()) {
                return Ok(None);
            }
            let name = Text::of(alloc, name)?;
            let file = Text::of(alloc, file)?;
            Ok(Some(ModelWord { name, file }))
        }
        None => Ok(None),
    }
}

// What each of these words says, where each says something.
fn each_word(alloc: Global, texts: &[&str]) -> Result<Option<Vec<ModelWord>>, AllocError>
    ensures { IfOk result (λ said. option_map (λ words. words.items) said
        ≡ all_some (map model_word (map (λ t. t.now) texts.now))) }
{
    let mut words = Vec::with_capacity(alloc, texts.len())?;
    for text in texts {
        match model_word(alloc, text)? {
            Some(word) => words.push(word)?,
            None => return Ok(None),
        }
    }
    Ok(Some(words))
}

fn has_name(words: &[ModelWord], name: &Text) -> bool
    ensures { result ≡ list_any (λ (w : ModelWord). bytes_eq w.name name.now) words.now }
{
    words.iter().any(|word| word.name.as_str() == name.as_str())
}

// Whether no name stands twice.
fn names_differ(words: &[ModelWord]) -> bool
    ensures { result ≡ names_differ words.now }
{
    match words {
        [] => true,
        [first, rest @ ..] => !has_name(rest, &first.name) && names_differ(rest),
    }
}

// The models of words, where their names differ.
fn if_differ(words: Vec<ModelWord>) -> Option<Items<ModelWord>>
    ensures { result ≡ if_differ words.items }
{
    if names_differ(words.as_slice()) {
        Some(Items::from_vec(words))
    } else {
        None
    }
}

// Whether there may be so many models.
fn is_count(count: usize) -> bool
    ensures { result ≡ (nat_lt 0 count && nat_le count MOST_MODELS) }
{
    0 < count && count <= MOST_MODELS
}

// The models that these words name: 1 to 64 of different names.
fn few_said(alloc: Global, texts: &[&str]) -> Result<Option<Items<ModelWord>>, AllocError>
    ensures { IfOk result (λ said. said ≡ if_models (Some (map (λ t. t.now) texts.now))) }
{
    if !is_count(texts.len()) {
        return Ok(None);
    }
    match each_word(alloc, texts)? {
        Some(words) => Ok(if_differ(words)),
        None => Ok(None),
    }
}

// The same, where there are words.
fn models_said(
    alloc: Global,
    texts: Option<&[&str]>,
) -> Result<Option<Items<ModelWord>>, AllocError>
    ensures { IfOk result (λ said. said
        ≡ if_models (option_map (λ texts. map (λ t. t.now) texts.now) texts.entry)) }
{
    match texts {
        Some(texts) => few_said(alloc, texts),
        None => Ok(None),
    }
}

fn mode_said(text: Option<&str>) -> Option<Mode>
    ensures { result ≡ mode_said (option_map (λ s. s.now) text.entry) }
{
    let Some(text) = text else {
        return Some(Mode::Exact);
    };
    if is_word(text, "exact") {
        Some(Mode::Exact)
    } else if is_word(text, "snap") {
        Some(Mode::Snap)
    } else {
        None
    }
}

fn all_said(
    alloc: Global,
    rules: Option<&str>,
    mode: Option<Mode>,
    models: Option<Items<ModelWord>>,
) -> Result<Option<CheckWords>, AllocError>
    ensures { IfOk result (λ said. said ≡ all_said (option_map (λ s. s.now) rules.entry) mode models) }
{
    match (rules, mode, models) {
        (Some(rules), Some(mode), Some(models)) => {
            let rules = Text::of(alloc, rules)?;
            Ok(Some(CheckWords {
                rules,
                mode,
                models,
            }))
        }
        _ => Ok(None),
    }
}

fn check_said(alloc: Global, matches: &ArgMatches<'_>) -> Result<Option<CheckWords>, AllocError>
    ensures { IfOk result (λ said. said ≡ check_said (rows_of (found_of matches.now))) }
{
    let rules = matches.get_str("rules");
    let mode = mode_said(matches.get_str("grid"));
    let models = models_said(alloc, matches.get_strs("models"))?;
    all_said(alloc, rules, mode, models)
}

// `check` has two options, in any order, and words for the models.
fn check_command<'a>(alloc: Global) -> Result<Command<'a>, AllocError>
    ensures { IfOk result (λ command. app_of command ≡ check_command) }
{
    let plain = plain_command(alloc, "check");
    let ruled = with_option(alloc, plain, "rules")?;
    let meshed = with_option(alloc, ruled, "grid")?;
    with_list(alloc, meshed, "models")
}

/// What the words after `check` say, where they are in its grammar: `--rules FILE`, which must be there,
/// `--grid exact` or `--grid snap`, each at most once, also spelled with `=`, and 1 to 64 words `NAME=FILE`
/// of different names, each 1 to 64 characters of `A-Za-z0-9_.-`.
pub fn check_words(alloc: Global, words: &[Text]) -> Result<Option<CheckWords>, AllocError>
    ensures { IfOk result (λ said. said ≡ check_words words.now) }
{
    let command = check_command(alloc)?;
    let lent = lent_words(alloc, words)?;
    match parse(command, lent.as_slice())? {
        Some(matches) => check_said(alloc, &matches),
        None => Ok(None),
    }
}
