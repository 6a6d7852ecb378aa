//! Files in memory that fail at the calls that they are set to fail at.
ghost use Rattle.std.specs.Prelude.{◌≡◌, ◌≤◌, Some, IfOk, IfSome, IfNone, IsErr, IsNone, OnErr, All};
ghost use Rattle.std.specs.Prelude.{Contains, false, []};
ghost use Rattle.bim_io.specs.Causes.{HasCause, counted};
ghost use Rattle.bim_io.specs.MemoryStreams.{ended_empty};
ghost use Rattle.bim_files.specs.Files.{IsFresh, Lends, LendsTold};
ghost use Rattle.bim_files.specs.MemoryFiles.{fresh_source, has_name, lent_seen, lent_times, told_of, seen_of};

use crate::loans::{MemFile, lent_place_of, place_of, take_back};
use crate::named_source::{Files, NamedSource};
use bim_io::{Failed, MemSource, Source};
use bim_model::{Duplicate, Items, Text};
use std::alloc::{AllocError, Global};
use std::marker::Model;

/// The source of a file in memory.
#[derive(Drop)]
pub struct LentSource {
    name: Text,
    inner: MemSource,
    faults: u64,
}

impl Model for LentSource {
    ghost use Rattle.bim_files.specs.MemoryFiles.{LentState};

    ghost Value = { LentState };

    ghost view = { λ s. record { name = s.name; source = s.inner; faults = s.faults } };
}

impl Source for LentSource {
    ghost seen = { lent_seen };

    ghost at_end = { λ s. ended_empty s.source.ended s.source.left };

    fn read(&mut self, room: &mut [u8]) -> Result<usize, Failed> {
        self.read_named(room)
    }
}

impl NamedSource for LentSource {
    ghost name = { λ s. Some s.name };

    fn read_named(&mut self, room: &mut [u8]) -> Result<usize, Failed> {
        match self.inner.read(room) {
            Ok(count) => Ok(count),
            Err(failed) => {
                self.faults = self.faults.saturating_add(1);
                Err(failed)
            }
        }
    }
}

/// Files in memory. The files of the numbers in `fails` can't be opened, counted from 1 over all openings;
/// nor can a file that isn't there or is lent, nor one for which memory runs out. Each source is as new:
/// its reads are counted anew.
#[derive(Drop)]
pub struct MemFiles {
    alloc: Global,
    files: Vec<MemFile>,
    lent: Vec<Text>,
    most: u64,
    fails: Items<u64>,
    calls: u64,
    faults: u64,
}

impl Model for MemFiles {
    ghost use Rattle.std.specs.Prelude.{◌≤◌};
    ghost use Rattle.bim_files.specs.MemoryFiles.{MemFilesState};

    ghost Value = { MemFilesState };

    ghost view = { λ f. record {
      files = f.files.items;
      lent = f.lent.items;
      most = f.most;
      fails = f.fails;
      calls = f.calls;
      faults = f.faults;
    } };

    ghost invariant = { λ f. 1 ≤ f.most };
}

// A source of a file, as new.
fn source_of(alloc: Global, file: &MemFile, most: u64) -> Result<LentSource, AllocError>
    requires { 1 ≤ most }
    ensures { IfOk result (λ source. source ≡ fresh_source file.now most) }
{
    let fails = Items::from_vec(file.read_fails.as_slice().to_vec(alloc)?);
    Ok(LentSource {
        name: file.name.copy(alloc)?,
        inner: MemSource::new(file.contents.copy(alloc)?, most, fails)?,
        faults: 0,
    })
}

impl MemFiles {
    /// These files, of which one read moves at most `most` bytes. Of several of one name the first counts.
    pub fn new(
        alloc: Global,
        files: Vec<MemFile>,
        most: u64,
        fails: Items<u64>,
    ) -> Result<MemFiles, AllocError>
        requires { 1 ≤ most }
        ensures { IfOk result (λ f. f ≡ record {
          files = files.items;
          lent = [];
          most = most;
          fails = fails;
          calls = 0;
          faults = 0;
        }) }
    {
        Ok(MemFiles {
            alloc,
            files,
            lent: Vec::new(alloc),
            most,
            fails,
            calls: 0,
            faults: 0,
        })
    }

    // The source of the file of that name, where it is there and not lent.
    fn lend(&mut self, name: &Text) -> Option<LentSource>
        ensures lends { IfSome result (λ source. LendsTold (told_of self.old.files self.old.lent)
            (told_of self.new.files self.new.lent) name.now (lent_seen source) (Some source.name)) }
        ensures fresh { IfSome result (λ source. IsFresh (lent_seen source)) }
        ensures kept { IfNone result ((self.new.files ≡ self.old.files) × (self.new.lent ≡ self.old.lent)) }
        ensures alone { 1 ≤ lent_times self.old.lent name.now → IsNone result }
        ensures there { All (λ (file : MemFile). has_name name.now file ≡ false) self.old.files
            → IsNone result }
        ensures counts { (self.new.calls ≡ self.old.calls) × (self.new.faults ≡ self.old.faults) }
        ensures fails { self.new.fails ≡ self.old.fails }
    {
        let None = lent_place_of(self.lent.as_slice(), name) else {
            return None;
        };
        let place = place_of(self.files.as_slice(), name)?;
        let source = source_of(self.alloc, &self.files[place], self.most).ok()?;
        let lent = name.copy(self.alloc).ok()?;
        self.lent.push(lent).ok()?;
        Some(source)
    }
}

impl Files for MemFiles {
    type S = LentSource;

    ghost seen = { λ f. seen_of f };

    fn open_file(&mut self, name: &Text) -> Result<LentSource, Failed>
        ensures fresh { IfOk result (λ source. IsFresh (lent_seen source)) }
        ensures lends { IfOk result (λ source. Lends (Some (told_of self.old.files self.old.lent))
            (Some (told_of self.new.files self.new.lent)) name.now (lent_seen source) (Some source.name)) }
        ensures kept { OnErr result (Some (told_of self.new.files self.new.lent)
            ≡ Some (told_of self.old.files self.old.lent)) }
        ensures cause { HasCause self.old.faults self.new.faults result }
        ensures fails { Contains self.old.fails (counted self.old.calls) → IsErr result }
        ensures alone { 1 ≤ lent_times self.old.lent name.now → IsErr result }
        ensures there { All (λ (file : MemFile). has_name name.now file ≡ false) self.old.files
            → IsErr result }
        ensures calls { self.new.calls ≡ counted self.old.calls }
        ensures list { self.new.fails ≡ self.old.fails }
    {
        self.calls = self.calls.saturating_add(1);
        if !self.fails.as_slice().contains(&self.calls) {
            if let Some(source) = self.lend(name) {
                return Ok(source);
            }
        }
        self.faults = self.faults.saturating_add(1);
        Err(Failed)
    }

    fn close_file(&mut self, source: LentSource) {
        if source.faults > 0 {
            self.faults = self.faults.saturating_add(1);
        }
        take_back(&mut self.lent, &source.name);
    }
}
