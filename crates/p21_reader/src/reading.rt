//! A file is read.
ghost use Rattle.std.specs.Prelude.{◌≡◌, ◌⊎◌, ◌≤◌, List, IfOk, IfErr, MatchOption, IsPermutation, IsSortedByKey, length};
ghost use Rattle.std.specs.Ordering.{nat_cmp};
ghost use Rattle.std.specs.Bool.{OnTrue};
ghost use Rattle.p21_values.specs.Counting.{values_of};
ghost use Rattle.p21_reader.specs.inner.Tabling.{Counts};
ghost use Rattle.p21_reader.specs.Uploads.{SpellsExchange, IsCause, IsTooMany, TablesUpload};
ghost use Rattle.p21_values.specs.declared.limits.TheConstants.{MOST_VALUES, MOST_INSTANCES};
ghost use Rattle.bim_model.specs.declared.limits.TheConstants.{MOST_UPLOAD};
ghost use Rattle.p21_values.specs.declared.value.Instance.{Instance};

use crate::double::least_double;
use crate::file::{begin, read_file};
use crate::table::Table;
use bim_model::{BuildError, Bytes, MOST_UPLOAD, Many, UploadFault};
use p21_table::{Exchange, noted_places};
use p21_values::{Head, MOST_INSTANCES, MOST_VALUES};
use std::alloc::{AllocError, Global};

/// Whether there are too many instances, or else too many values.
fn too_many(table: &Table) -> Option<UploadFault>
    ensures { (found : List Instance) → length found ≡ length table.now.heads.items
        → Counts 0 table.now.values (values_of found)
        → MatchOption result ((length found ≤ MOST_INSTANCES) × (values_of found ≤ MOST_VALUES))
        (λ fault. IsTooMany found fault) }
{
    if table.heads.len() > MOST_INSTANCES {
        return Some(UploadFault::TooMany {
            what: Many::Instances,
        });
    }
    if table.values > MOST_VALUES {
        return Some(UploadFault::TooMany { what: Many::Values });
    }
    None
}

/// Whether no head's number is less than the one before it.
fn are_sorted(heads: &[Head]) -> bool
    ensures { OnTrue result (IsSortedByKey (λ h. h.id) nat_cmp heads.now) }
{
    let mut at = 1;
    while at < heads.len() {
        if heads[at].id < heads[at - 1].id {
            return false;
        }
        at += 1;
    }
    true
}

/// The heads by their numbers. Those of most files rise as they stand.
fn sorted(heads: Vec<Head>) -> Result<Vec<Head>, AllocError>
    ensures moved { IfOk result (λ made. IsPermutation heads.items made.items) }
    ensures sorted { IfOk result (λ made. IsSortedByKey (λ h. h.id) nat_cmp made.items) }
{
    if are_sorted(heads.as_slice()) {
        return Ok(heads);
    }
    let mut made = heads;
    made.sort_by_key(|head| head.id)?;
    Ok(made)
}

/// Reads a file: its instances are exactly those that the tokens of its DATA section spell, and bytes after its last semicolon aren't
/// looked at. A fault is the first of: too many bytes; not the two tokens that a file begins with; the first place where the bytes can't
/// go on to a file; a header that doesn't name IFC4; too many instances; too many values; the least number that two instances have.
pub fn read(alloc: Global, bytes: &[u8]) -> Result<Exchange, BuildError>
    ensures exchange { IfOk result (λ exchange. SpellsExchange bytes.now exchange) }
    ensures fault { IfErr result (λ error. IsCause bytes.now error) }
    ensures refused { IfErr result
        (λ error. error ≡ BuildError.Memory
        ⊎ ((instances : List Instance) → SpellsExchange bytes.now instances → ⊥)) }
{
    if bytes.len() > MOST_UPLOAD {
        return Err(BuildError::Fault(UploadFault::TooMany { what: Many::Bytes }));
    }
    read_owned(alloc, Bytes::of(alloc, bytes)?)
}

/// The same of bytes that it owns and keeps.
pub fn read_owned(alloc: Global, bytes: Bytes) -> Result<Exchange, BuildError>
    ensures exchange { IfOk result (λ exchange. SpellsExchange bytes exchange) }
    ensures fault { IfErr result (λ error. IsCause bytes error) }
    ensures refused { IfErr result
        (λ error. error ≡ BuildError.Memory
        ⊎ ((instances : List Instance) → SpellsExchange bytes instances → ⊥)) }
{
    if bytes.as_slice().len() > MOST_UPLOAD {
        return Err(BuildError::Fault(UploadFault::TooMany { what: Many::Bytes }));
    }
    let table = ifc4_table(alloc, bytes.as_slice())?;
    match too_many(&table) {
        Some(fault) => return Err(BuildError::Fault(fault)),
        None => {}
    }
    let heads = sorted(table.heads)?;
    let notes = noted_places(alloc, heads.as_slice())?;
    match least_double(heads.as_slice()) {
        None => Ok(Exchange::of(bytes, heads, table.starts, notes)),
        Some(id) => Err(BuildError::Fault(UploadFault::DoubleId { id })),
    }
}

/// The table of a file that isn't too long, in its order.
fn ifc4_table(alloc: Global, bytes: &[u8]) -> Result<Table, BuildError>
    requires { length bytes.now ≤ MOST_UPLOAD }
    ensures table { IfOk result (λ table. TablesUpload bytes.now table) }
    ensures fault { IfErr result (λ error. IsCause bytes.now error) }
{
    match begin(bytes) {
        None => Err(BuildError::Fault(UploadFault::NotPart21)),
        Some(begun) => {
            let file = read_file(alloc, bytes, begun)?;
            if file.is_ifc4 {
                Ok(file.table)
            } else {
                Err(BuildError::Fault(UploadFault::WrongSchema))
            }
        }
    }
}
