//! What files in memory hold, and which names are lent.
ghost use Rattle.std.specs.Prelude.{◌≡◌, ◌≤◌, ◌+◌, ℕ, List, false, All, IfOk, IfSome, IfNone, map};
ghost use Rattle.bim_files.specs.Files.{content_of, once};
ghost use Rattle.bim_files.specs.MemoryFiles.{file_seen, has_name, lent_times, IsFirst, StandsAt};

use bim_model::{Bytes, Duplicate, Items, Text};
use std::alloc::{AllocError, Global};

/// A file in memory.
#[derive(Drop)]
pub struct MemFile {
    pub name: Text,
    pub contents: Bytes,
    /// The reads of a source of this file that fail, counted from 1.
    pub read_fails: Items<u64>,
}

/// The first file of that name.
pub(crate) fn place_of(files: &[MemFile], name: &Text) -> Option<usize>
    ensures found { IfSome result (IsFirst files.now name.now) }
    ensures none { IfNone result (All (λ (file : MemFile). has_name name.now file ≡ false) files.now) }
{
    'places: for place in 0..files.len() {
        if files[place].name.as_str() == name.as_str() {
            return Some(place);
        }
    }
    None
}

/// What the first file of that name holds, nothing where there is none.
pub(crate) fn contents_of(
    alloc: Global,
    files: &[MemFile],
    name: &Text,
) -> Result<Bytes, AllocError>
    ensures { IfOk result (λ bytes. bytes ≡ content_of (map file_seen files.now) name.now) }
{
    match place_of(files, name) {
        Some(place) => files[place].contents.copy(alloc),
        None => Bytes::of(alloc, b""),
    }
}

/// Where that name stands first among those that are lent.
pub(crate) fn lent_place_of(lent: &[Text], name: &Text) -> Option<usize>
    ensures found { IfSome result (StandsAt lent.now name.now) }
    ensures none { IfNone result (lent_times lent.now name.now ≡ 0) }
{
    'places: for place in 0..lent.len() {
        if lent[place].as_str() == name.as_str() {
            return Some(place);
        }
    }
    None
}

/// Takes a name back once, where it is lent.
pub(crate) fn take_back(lent: &mut Vec<Text>, name: &Text)
    ensures { 1 ≤ lent_times lent.old.items name.now
        → (n : List ℕ) → lent_times lent.new.items n + once name.now n ≡ lent_times lent.old.items n }
{
    let Some(place) = lent_place_of(lent.as_slice(), name) else {
        return;
    };
    lent.swap_remove(place);
}
