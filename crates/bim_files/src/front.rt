//! Reading a file.
ghost use Rattle.std.specs.Prelude.{◌≡◌, ◌≤◌, ◌<◌, ◌+◌, ◌-◌, ◌++◌, length, IfOk, IfErr, OnOk};
ghost use Rattle.bim_io.specs.Causes.{Rose};
ghost use Rattle.bim_files.specs.Files.{Holds, IsFront, Tells};
ghost use Rattle.bim_files.specs.FileReading.{Grown, FrontEnds, FileEnds};

use crate::named_source::{Files, NamedSource};
use bim_model::{Bytes, MOST_UPLOAD, Text};
use std::alloc::{AllocError, Global};

/// Why a file gives no bytes.
#[derive(Clone, Copy, Debug, PartialEq, Eq)]
pub enum FileError {
    /// The files failed: at opening it, or at a read.
    Failed,
    Memory,
}

impl From<AllocError> for FileError {
    ghost from_gives = { λ _ e. e ≡ Memory };

    ghost use Rattle.std.specs.Prelude.{◌≡◌};
    ghost use Rattle.bim_files.specs.declared.front.FileError.TheVariants.{Memory};

    fn from(_: AllocError) -> FileError {
        FileError::Memory
    }
}

// How many bytes one read asks for.
const ROOM: usize = 65_536;

// What one read did.
#[derive(Clone, Copy, Debug, PartialEq, Eq)]
enum Step {
    Again,
    End,
}

// Reads once, at most `most` bytes, and puts them after the others.
fn read_once<S: NamedSource>(
    source: &mut S,
    room: &mut [u8],
    bytes: &mut Vec<u8>,
    most: usize,
) -> Result<Step, FileError>
    requires some { 0 < most }
    requires fits { most ≤ length room.old }
    ensures room { length room.new ≡ length room.old }
    ensures step { Grown (S.Source.seen source.old) (S.Source.seen source.new)
        bytes.old.items bytes.new.items most result }
    ensures name { S.NamedSource.name source.new ≡ S.NamedSource.name source.old }
{
    let Ok(count) = source.read_named(&mut room[..most]) else {
        return Err(FileError::Failed);
    };
    if count == 0 {
        return Ok(Step::End);
    }
    bytes.extend_from_slice(&room[..count])?;
    Ok(Step::Again)
}

// Room for so many bytes.
fn room_of(alloc: Global, size: usize) -> Result<Vec<u8>, AllocError>
    ensures { IfOk result (λ room. length room.items ≡ size) }
{
    vec![in alloc; 0u8; size]
}

// The bytes of a source up to its end, or one more than an upload may have.
fn read_front<S: NamedSource>(alloc: Global, source: &mut S) -> Result<Bytes, FileError>
    ensures front { FrontEnds (S.Source.seen source.old) (S.Source.seen source.new) result }
    ensures name { S.NamedSource.name source.new ≡ S.NamedSource.name source.old }
{
    let mut room = room_of(alloc, ROOM)?;
    let mut bytes = Vec::new(alloc);
    'reads: while bytes.len() <= MOST_UPLOAD {
        let most = ROOM.min(MOST_UPLOAD + 1 - bytes.len());
        if let Step::End = read_once(source, room.as_mut_slice(), &mut bytes, most)? {
            return Ok(Bytes::from_vec(alloc, bytes)?);
        }
    }
    Ok(Bytes::from_vec(alloc, bytes)?)
}

/// The bytes of the file of that name: all of them, or exactly the first 33,554,433 where there are more. The
/// file is given back also where a read failed, or memory ran out.
pub fn read_file<F: Files>(alloc: Global, files: &mut F, name: &Text) -> Result<Bytes, FileError>
    ensures bytes { FileEnds (F.seen files.old) (F.seen files.new) name.now result }
{
    let Ok(mut source) = files.open_file(name) else {
        return Err(FileError::Failed);
    };
    let read = read_front(alloc, &mut source);
    files.close_file(source);
    read
}
