//! Files in memory that never fail.
ghost use Rattle.std.specs.Prelude.{◌≡◌, ◌≤◌, Some, [], true, IfOk, IfSome, OnErr, map};
ghost use Rattle.bim_io.specs.Causes.{HasCause};
ghost use Rattle.bim_files.specs.Files.{content_of, IsFresh, Lends, LendsTold};
ghost use Rattle.bim_files.specs.MemoryFiles.{file_seen, held, lent_times, told_of, told_where};
ghost use Rattle.bim_files.specs.MemoryFiles.{sure_fresh, sure_lent_seen, sure_ends_empty, sure_seen_of};

use crate::loans::{MemFile, contents_of, lent_place_of, take_back};
use crate::named_source::{Files, NamedSource};
use bim_io::{Failed, Source, SureSource};
use bim_model::{Bytes, Duplicate, Items, Text};
use std::alloc::{AllocError, Global};
use std::marker::Model;

/// A file in memory whose reads never fail.
#[derive(Drop)]
pub struct SureFile {
    pub name: Text,
    pub contents: Bytes,
}

/// The source of a file in memory that never fails. One for which memory ran out gives nothing, and tells
/// neither its name nor its bytes.
#[derive(Drop)]
pub struct SureLentSource {
    name: Option<Text>,
    inner: Option<SureSource>,
    ended: bool,
}

impl Model for SureLentSource {
    ghost use Rattle.bim_files.specs.MemoryFiles.{SureLentState};

    ghost Value = { SureLentState };

    ghost view = { λ s. record { name = s.name; source = s.inner; ended = s.ended } };
}

impl Source for SureLentSource {
    ghost seen = { sure_lent_seen };

    ghost at_end = { λ s. sure_ends_empty s.source s.ended };

    fn read(&mut self, room: &mut [u8]) -> Result<usize, Failed> {
        self.read_named(room)
    }
}

impl NamedSource for SureLentSource {
    ghost name = { λ s. s.name };

    fn read_named(&mut self, room: &mut [u8]) -> Result<usize, Failed> {
        match &mut self.inner {
            Some(inner) => inner.read(room),
            None => {
                if !room.is_empty() {
                    self.ended = true;
                }
                Ok(0)
            }
        }
    }
}

/// Files in memory that never fail. A name that isn't there or is lent is an empty source. Where memory is
/// wanting for a source, it gives nothing, and from then on these files no longer tell what they hold.
#[derive(Drop)]
pub struct SureFiles {
    alloc: Global,
    files: Vec<MemFile>,
    lent: Vec<Text>,
    most: u64,
    tells: bool,
}

impl Model for SureFiles {
    ghost use Rattle.std.specs.Prelude.{◌≤◌};
    ghost use Rattle.bim_files.specs.MemoryFiles.{SureFilesState};

    ghost Value = { SureFilesState };

    ghost view = { λ f. record {
      files = f.files.items;
      lent = f.lent.items;
      tells = f.tells;
      most = f.most;
    } };

    ghost invariant = { λ f. 1 ≤ f.most };
}

// A source of these contents that is lent under a name, as new.
fn source_of(
    alloc: Global,
    name: &Text,
    contents: Bytes,
    most: u64,
) -> Result<SureLentSource, AllocError>
    requires { 1 ≤ most }
    ensures { IfOk result (λ source. source ≡ sure_fresh name.now contents most) }
{
    Ok(SureLentSource {
        name: Some(name.copy(alloc)?),
        inner: Some(SureSource::new(contents, most)?),
        ended: false,
    })
}

// What is left of a source that is lent under a name now: what its file holds, nothing where it is lent.
fn left_of(
    alloc: Global,
    files: &[MemFile],
    lent: &[Text],
    name: &Text,
) -> Result<Bytes, AllocError>
    ensures free { IfOk result (λ left. lent_times lent.now name.now ≡ 0
        → left ≡ content_of (map file_seen files.now) name.now) }
    ensures lent { IfOk result (λ left. 1 ≤ lent_times lent.now name.now → left ≡ []) }
{
    match lent_place_of(lent, name) {
        Some(_) => Bytes::of(alloc, b""),
        None => contents_of(alloc, files, name),
    }
}

// A file whose reads never fail.
fn held(alloc: Global, file: SureFile) -> MemFile
    ensures { result ≡ held file }
{
    MemFile {
        name: file.name,
        contents: file.contents,
        read_fails: Items::new(alloc),
    }
}

impl SureFiles {
    /// These files, of which one read moves at most `most` bytes. Of several of one name the first counts.
    pub fn new(alloc: Global, files: Vec<SureFile>, most: u64) -> Result<SureFiles, AllocError>
        requires { 1 ≤ most }
        ensures { IfOk result (λ f. f
            ≡ record { files = map held files.items; lent = []; tells = true; most = most }) }
    {
        let mut held_files = Vec::with_capacity(alloc, files.len())?;
        for file in files {
            held_files.push(held(alloc, file))?;
        }
        Ok(SureFiles {
            alloc,
            files: held_files,
            lent: Vec::new(alloc),
            most,
            tells: true,
        })
    }

    // A source of that name.
    fn lend(&mut self, name: &Text) -> Result<SureLentSource, AllocError>
        ensures lends { IfOk result (λ source. LendsTold (told_of self.old.files self.old.lent)
            (told_of self.new.files self.new.lent) name.now (sure_lent_seen source) source.name) }
        ensures fresh { IfOk result (λ source. IsFresh (sure_lent_seen source)) }
        ensures lent { IfOk result (λ source. 1 ≤ lent_times self.old.lent name.now
            → (sure_lent_seen source).left ≡ Some []) }
        ensures tells { self.new.tells ≡ self.old.tells }
    {
        let left = left_of(
            self.alloc,
            self.files.as_slice(),
            self.lent.as_slice(),
            name,
        )?;
        let source = source_of(self.alloc, name, left, self.most)?;
        self.lent.push(name.copy(self.alloc)?)?;
        Ok(source)
    }
}

impl Files for SureFiles {
    type S = SureLentSource;

    ghost seen = { sure_seen_of };

    fn open_file(&mut self, name: &Text) -> Result<SureLentSource, Failed>
        ensures fresh { IfOk result (λ source. IsFresh (sure_lent_seen source)) }
        ensures lends { IfOk result (λ source. Lends (told_where self.old.tells self.old.files self.old.lent)
            (told_where self.new.tells self.new.files self.new.lent) name.now (sure_lent_seen source)
            source.name) }
        ensures kept { OnErr result (told_where self.new.tells self.new.files self.new.lent
            ≡ told_where self.old.tells self.old.files self.old.lent) }
        ensures cause { HasCause 0 0 result }
        ensures lent { IfOk result (λ source. 1 ≤ lent_times self.old.lent name.now
            → IfSome (sure_lent_seen source).left (λ left. left ≡ [])) }
    {
        if let Ok(source) = self.lend(name) {
            return Ok(source);
        }
        self.tells = false;
        Ok(SureLentSource {
            name: None,
            inner: None,
            ended: false,
        })
    }

    fn close_file(&mut self, source: SureLentSource) {
        let Some(name) = &source.name else {
            return;
        };
        take_back(&mut self.lent, name);
    }
}
