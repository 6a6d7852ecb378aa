//! A whole file, from the word that begins it to the one that ends it.
ghost use Rattle.std.specs.Prelude.{◌≡◌, ◌≤◌, length, IfOk, IfErr, IfSome, IfNone};
ghost use Rattle.bim_model.specs.declared.limits.TheConstants.{MOST_UPLOAD};
ghost use Rattle.p21_lexer.specs.Cutting.{start_of};
ghost use Rattle.p21_reader.specs.ExchangeFiles.{FaultAt};
ghost use Rattle.p21_reader.specs.Uploads.{BeginsPart21, BeginsAt, TablesFile};

use crate::ahead::{sign_end, word_end};
use crate::header::header;
use crate::table::{Table, table_section};
use crate::word::Mark;
use p21_values::{Kind, ReadFault};
use std::alloc::Global;

/// The table of a file's DATA section, in its order, and whether its header names IFC4.
#[derive(Drop)]
pub struct File {
    pub table: Table,
    pub is_ifc4: bool,
}

/// Past a byte order mark (EF BB BF).
fn start(bytes: &[u8]) -> usize
    ensures start { result ≡ start_of bytes.now }
    ensures within { result ≤ length bytes.now }
{
    match bytes {
        [0xEF, 0xBB, 0xBF, ..] => 3,
        _ => 0,
    }
}

/// The end of the two tokens that a file begins with; none where it doesn't.
pub fn begin(bytes: &[u8]) -> Option<usize>
    ensures begun { IfSome result (λ end. BeginsAt bytes.now end) }
    ensures none { IfNone result (BeginsPart21 bytes.now → ⊥) }
    ensures within { IfSome result (λ end. end ≤ length bytes.now) }
{
    match word_end(bytes, start(bytes), Mark::Iso) {
        None => None,
        Some(word) => sign_end(bytes, word, Kind::Semicolon),
    }
}

/// Reads a file from after its first two tokens on. Bytes after its last semicolon aren't looked at.
pub fn read_file(alloc: Global, bytes: &[u8], begun: usize) -> Result<File, ReadFault>
    requires short { length bytes.now ≤ MOST_UPLOAD }
    requires begun { BeginsAt bytes.now begun }
    requires within { begun ≤ length bytes.now }
    ensures file { IfOk result (λ file. TablesFile bytes.now file.table file.is_ifc4) }
    ensures fault { IfErr result (λ fault. FaultAt bytes.now fault) }
{
    let mut table = Table::new(alloc, bytes.len())?;
    let head = header(alloc, bytes, begun)?;
    table_section(bytes, head.end, &mut table)?;
    Ok(File {
        table,
        is_ifc4: head.is_ifc4,
    })
}
