//! Files are read and judged one after the other.
ghost use Rattle.std.specs.Prelude.{◌≡◌, IfOk};
ghost use Rattle.batch_commands.specs.declared.refusal.Refusal.TheVariants as refusal;
ghost use Rattle.batch_commands.specs.Judging.{JudgesRules, JudgesModel, JudgesModels, Finds};

use crate::check_words::{CheckWords, ModelWord};
use crate::refusal::{JudgeError, Refusal};
use crate::rules_file::{RulesError, rules_in};
use bim_files::{FileError, Files, read_file};
use bim_model::{
    BuildError, Duplicate, Mode, Model, NamedModel, Rules, Shared, Snapshot, Text, UploadFault,
};
use clash_check::{VersionError, clashes_of};
use clash_publish::Published;
use model_build::build_owned;
use std::alloc::{AllocError, Global};

impl From<FileError> for JudgeError {
    ghost use Rattle.std.specs.Prelude.{◌≡◌};
    ghost use Rattle.batch_commands.specs.Judging.{of_file};

    ghost from_gives = { λ error made. made ≡ of_file error };

    fn from(error: FileError) -> JudgeError {
        match error {
            FileError::Failed => JudgeError::File,
            FileError::Memory => JudgeError::Memory,
        }
    }
}

// The rules of the file of that name.
fn judge_rules<F: Files>(alloc: Global, files: &mut F, name: &Text) -> Result<Rules, JudgeError>
    ensures { JudgesRules (F.seen files.old) (F.seen files.new) name.now result }
{
    let bytes = read_file(alloc, files, name)?;
    match rules_in(alloc, bytes.as_slice()) {
        Ok(rules) => Ok(rules),
        Err(RulesError::Fault(fault)) => Err(JudgeError::Refused(Refusal::Rules(fault))),
        Err(RulesError::Memory) => Err(JudgeError::Memory),
    }
}

// The model under the name that its word says.
fn named(alloc: Global, word: &ModelWord, model: Model) -> Result<NamedModel, AllocError>
    ensures name { IfOk result (λ made. made.name ≡ word.now.name) }
    ensures model { IfOk result (λ made. made.model ≡ model) }
{
    let name = word.name.copy(alloc)?;
    let model = Shared::new(alloc, model)?;
    Ok(NamedModel { name, model })
}

// The refusal of a word's file.
fn refused(alloc: Global, word: &ModelWord, fault: UploadFault) -> Result<Refusal, AllocError>
    ensures { IfOk result (λ why. why ≡ refusal.Model word.now.name fault) }
{
    let name = word.name.copy(alloc)?;
    Ok(Refusal::Model { name, fault })
}

// The model that a word names.
fn judge_model<F: Files>(
    alloc: Global,
    files: &mut F,
    mode: Mode,
    word: &ModelWord,
) -> Result<NamedModel, JudgeError>
    ensures { JudgesModel (F.seen files.old) (F.seen files.new) mode word.now result }
{
    let bytes = read_file(alloc, files, &word.file)?;
    match build_owned(alloc, bytes, mode) {
        Ok(model) => {
            let model = named(alloc, word, model)?;
            Ok(model)
        }
        Err(BuildError::Fault(fault)) => {
            let why = refused(alloc, word, fault)?;
            Err(JudgeError::Refused(why))
        }
        Err(BuildError::Memory) => Err(JudgeError::Memory),
    }
}

// The version of these rules and the models that the words name, each put in its place by name.
fn judge_models<F: Files>(
    alloc: Global,
    files: &mut F,
    mode: Mode,
    words: &[ModelWord],
    rules: Rules,
) -> Result<Snapshot, JudgeError>
    ensures { JudgesModels (F.seen files.old) (F.seen files.new) mode words.now rules result }
{
    let shared = Shared::new(alloc, rules)?;
    let mut version = Snapshot::new(alloc, shared);
    for word in words {
        let model = judge_model(alloc, files, mode, word)?;
        version = version.with_model(alloc, model)?;
    }
    Ok(version)
}

/// The version of the rules and models that the words name, with its clashes.
pub fn judge<F: Files>(
    alloc: Global,
    files: &mut F,
    said: &CheckWords,
) -> Result<Published, JudgeError>
    ensures { Finds (F.seen files.old) (F.seen files.new) said.now result }
{
    let rules = judge_rules(alloc, files, &said.rules)?;
    let version = judge_models(alloc, files, said.mode, said.models.as_slice(), rules)?;
    let shared = Shared::new(alloc, version)?;
    match clashes_of(alloc, shared) {
        Ok(found) => Ok(found),
        Err(VersionError::Fault(fault)) => Err(JudgeError::Refused(Refusal::Version(fault))),
        Err(VersionError::Memory) => Err(JudgeError::Memory),
    }
}
