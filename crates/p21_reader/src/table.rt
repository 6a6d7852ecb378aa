//! The table of a file: a head for each instance, and for each attribute the place where its value begins.
ghost use Rattle.std.specs.Prelude.{◌≡◌, ◌<◌, ◌≤◌, ◌+◌, ◌^◌, ◌-◌, ◌∷◌, [], ℕ, length, map, slice_range, Some, IfOk, IfSome, IfNone, OnOk};
ghost use Rattle.std.specs.Char.{to_ascii_uppercase};
ghost use Rattle.bim_model.specs.declared.limits.TheConstants.{MOST_UPLOAD};
ghost use Rattle.p21_values.specs.declared.limits.TheConstants.{MOST_DEPTH};
ghost use Rattle.ifc_keywords.specs.Codes.{code_of as code_said};
ghost use Rattle.p21_values.specs.Lexemes.{ReferenceTo, lexeme_of};
ghost use Rattle.p21_values.specs.TokenPieces.{IsPiece};
ghost use Rattle.p21_reader.specs.inner.Tabling.{PutsStart, PutsFirst, PutsBehind, PutsMore, PutsStarts, PutsBody, PutsInstance, TablesSection};

use crate::passing::{pass_complex, pass_value};
use crate::section::closing;
use crate::word::{Numbered, expect, take_name, take_word};
use ifc_keywords::code_of;
use p21_lexer::value_there;
use p21_values::{Head, Kind, MOST_DEPTH, Piece, ReadFault, refused, take};
use std::alloc::{AllocError, Global};

/// A new table has room for an instance for each so many bytes of the file; it grows where there are more.
const BYTES_A_HEAD: usize = 64;

/// And for an attribute for each so many.
const BYTES_A_START: usize = 16;

/// The heads of the instances, the starts of their attributes one after another, and how many values they are.
#[derive(Drop)]
pub struct Table {
    pub heads: Vec<Head>,
    pub starts: Vec<u32>,
    pub values: u64,
}

/// Adds the start of the value whose first token is given, and passes over it.
fn attribute(
    bytes: &[u8],
    first: Piece,
    depth: usize,
    table: &mut Table,
) -> Result<usize, ReadFault>
    requires short { length bytes.now ≤ MOST_UPLOAD }
    requires piece { IsPiece bytes.now first }
    requires depth { depth ≤ 32 }
    ensures start { PutsStart depth bytes.now first.token table.old table.new result }
    ensures heads { OnOk result (table.new.heads.items ≡ table.old.heads.items) }
    ensures on { IfOk result (λ end. first.token.end ≤ end) }
    ensures within { IfOk result (λ end. end ≤ length bytes.now) }
{
    let end = pass_value(bytes, first, depth, &mut table.values)?;
    table.starts.push(first.token.start as u32)?;
    Ok(end)
}

/// Adds the start of the value of one token that stands right after a comma, right there, and passes over both. None where another stands
/// there.
#[inline(always)]
fn plain_attribute(bytes: &[u8], at: usize, table: &mut Table) -> Result<Option<usize>, AllocError>
    requires short { length bytes.now ≤ MOST_UPLOAD }
    ensures start { (depth : ℕ) → IfOk result
        (λ found. IfSome found (PutsBehind depth bytes.now at table.old table.new)) }
    ensures none { IfOk result (λ found. IfNone found (table.new ≡ table.old)) }
    ensures heads { IfOk result (λ found. table.new.heads.items ≡ table.old.heads.items) }
    ensures on { IfOk result (λ found. IfSome found (λ end. at < end)) }
    ensures within { IfOk result (λ found. IfSome found (λ end. end ≤ length bytes.now)) }
{
    if at >= bytes.len() {
        return Ok(None);
    }
    if bytes[at] != b',' {
        return Ok(None);
    }
    match value_there(bytes, at + 1) {
        Some(end) => {
            table.starts.push((at + 1) as u32)?;
            table.values = table.values.saturating_add(1);
            Ok(Some(end))
        }
        None => Ok(None),
    }
}

/// Adds the start of the value of one token that stands right there, the first of a list, and passes over it. None where another stands
/// there.
#[inline(always)]
fn plain_first(bytes: &[u8], at: usize, table: &mut Table) -> Result<Option<usize>, AllocError>
    requires short { length bytes.now ≤ MOST_UPLOAD }
    ensures start { (depth : ℕ) → IfOk result
        (λ found. IfSome found (PutsFirst depth bytes.now at table.old table.new)) }
    ensures none { IfOk result (λ found. IfNone found (table.new ≡ table.old)) }
    ensures heads { IfOk result (λ found. table.new.heads.items ≡ table.old.heads.items) }
    ensures on { IfOk result (λ found. IfSome found (λ end. at < end)) }
    ensures within { IfOk result (λ found. IfSome found (λ end. end ≤ length bytes.now)) }
{
    match value_there(bytes, at) {
        Some(end) => {
            table.starts.push(at as u32)?;
            table.values = table.values.saturating_add(1);
            Ok(Some(end))
        }
        None => Ok(None),
    }
}

/// Adds the starts of values that are `$`, each right after a comma, and passes over them.
#[inline(always)]
fn pass_absent(bytes: &[u8], at: usize, table: &mut Table) -> Result<usize, AllocError>
    requires short { length bytes.now ≤ MOST_UPLOAD }
    requires at { at ≤ length bytes.now }
    ensures starts { (depth : ℕ) → IfOk result (PutsMore depth bytes.now at table.old table.new) }
    ensures few { IfOk result
        (λ end. length table.new.starts.items + at ≤ length table.old.starts.items + end) }
    ensures heads { IfOk result (λ end. table.new.heads.items ≡ table.old.heads.items) }
    ensures on { IfOk result (λ end. at ≤ end) }
    ensures within { IfOk result (λ end. end ≤ length bytes.now) }
{
    let mut end = at;
    while end + 1 < bytes.len() && bytes[end] == b',' && bytes[end + 1] == b'$' {
        table.starts.push((end + 1) as u32)?;
        table.values = table.values.saturating_add(1);
        end += 2;
    }
    Ok(end)
}

/// Adds the starts of the values behind an opening parenthesis, up to and with the closing one.
#[inline(never)]
fn attributes(bytes: &[u8], at: usize, depth: usize, table: &mut Table) -> Result<usize, ReadFault>
    requires short { length bytes.now ≤ MOST_UPLOAD }
    requires at { at ≤ length bytes.now }
    requires depth { depth ≤ 32 }
    requires counted { table.old.values < 2 ^ 64 }
    ensures starts { PutsStarts depth bytes.now at table.old table.new result }
    ensures few { IfOk result
        (λ end. length table.new.starts.items + at ≤ length table.old.starts.items + end) }
    ensures heads { OnOk result (table.new.heads.items ≡ table.old.heads.items) }
    ensures on { IfOk result (λ end. at ≤ end) }
    ensures within { IfOk result (λ end. end ≤ length bytes.now) }
{
    let mut end = match plain_first(bytes, at, table)? {
        Some(end) => end,
        None => {
            let first = take(bytes, at)?;
            if let Kind::Close = first.kind {
                return Ok(first.token.end);
            }
            attribute(bytes, first, depth, table)?
        }
    };
    'items: loop {
        end = pass_absent(bytes, end, table)?;
        match plain_attribute(bytes, end, table)? {
            Some(behind) => {
                end = behind;
                continue 'items;
            }
            None => {}
        }
        let next = take(bytes, end)?;
        match next.kind {
            Kind::Close => return Ok(next.token.end),
            Kind::Comma => {
                let item = take(bytes, next.token.end)?;
                end = attribute(bytes, item, depth, table)?;
            }
            _ => return Err(refused(next)),
        }
    }
}

/// Adds the starts of what stands between the equals sign of an instance and its semicolon, whose first token is given.
fn body(bytes: &[u8], first: Piece, table: &mut Table) -> Result<usize, ReadFault>
    requires short { length bytes.now ≤ MOST_UPLOAD }
    requires piece { IsPiece bytes.now first }
    requires counted { table.old.values < 2 ^ 64 }
    ensures body { PutsBody bytes.now first.token table.old table.new result }
    ensures few { IfOk result
        (λ end. length table.new.starts.items + first.token.end ≤ length table.old.starts.items + end) }
    ensures on { IfOk result (λ end. first.token.end ≤ end) }
    ensures heads { OnOk result (table.new.heads.items ≡ table.old.heads.items) }
    ensures within { IfOk result (λ end. end ≤ length bytes.now) }
{
    match first.kind {
        Kind::Word => {
            let open = expect(bytes, first.token.end, Kind::Open)?;
            attributes(bytes, open, MOST_DEPTH as usize - 1, table)
        }
        Kind::Open => pass_complex(bytes, first.token.end),
        _ => Err(refused(first)),
    }
}

/// Where the keyword ends whose token is given; where it begins, if it is none.
fn keyword_end(word: Piece) -> usize
    ensures some { word.kind ≡ Kind.Word → result ≡ word.token.end }
    ensures none { (word.kind ≡ Kind.Word → ⊥) → result ≡ word.token.start }
{
    if word.kind == Kind::Word {
        word.token.end
    } else {
        word.token.start
    }
}

/// The number of the keyword whose token is given; 255 where it is none of the known ones, or no keyword.
fn keyword_code(bytes: &[u8], word: Piece) -> u8
    requires short { length bytes.now ≤ MOST_UPLOAD }
    requires piece { IsPiece bytes.now word }
    ensures some { word.kind ≡ Kind.Word → result
        ≡ code_said (map to_ascii_uppercase (slice_range bytes.now word.token.start word.token.end)) }
    ensures none { (word.kind ≡ Kind.Word → ⊥) → result ≡ 255 }
{
    if word.kind == Kind::Word {
        code_of(&bytes[word.token.start..word.token.end])
    } else {
        255
    }
}

/// Adds an instance whose name is given.
fn entry(bytes: &[u8], name: Numbered, table: &mut Table) -> Result<usize, ReadFault>
    requires short { length bytes.now ≤ MOST_UPLOAD }
    requires piece { IsPiece bytes.now name.piece }
    requires number { ReferenceTo name.id ≡ lexeme_of bytes.now name.piece.token }
    requires counted { table.old.values < 2 ^ 64 }
    requires few { length table.old.starts.items ≤ name.piece.token.start }
    ensures instance { PutsInstance (lexeme_of bytes.now name.piece.token) bytes.now name.piece.token.end
        table.old table.new result }
    ensures few { IfOk result (λ end. length table.new.starts.items ≤ end) }
    ensures on { IfOk result (λ end. name.piece.token.end ≤ end) }
    ensures within { IfOk result (λ end. end ≤ length bytes.now) }
{
    let at = expect(bytes, name.piece.token.end, Kind::Equals)?;
    let word = take_word(bytes, at)?;
    let first = table.starts.len();
    let end = body(bytes, word, table)?;
    let count = table.starts.len() - first;
    let close = expect(bytes, end, Kind::Semicolon)?;
    table.heads.push(Head {
        id: name.id,
        word: word.token.start as u32,
        word_end: keyword_end(word) as u32,
        first: first as u32,
        count: count as u32,
        code: keyword_code(bytes, word),
    })?;
    Ok(close)
}

/// Reads the instances of a DATA section, and the end of the file, into an empty table.
pub fn table_section(bytes: &[u8], at: usize, table: &mut Table) -> Result<usize, ReadFault>
    requires short { length bytes.now ≤ MOST_UPLOAD }
    requires at { at ≤ length bytes.now }
    requires heads { table.old.heads.items ≡ [] }
    requires starts { table.old.starts.items ≡ [] }
    requires values { table.old.values ≡ 0 }
    ensures section { TablesSection bytes.now at table.new result }
{
    let mut end = at;
    loop {
        let next = take_name(bytes, end)?;
        match next.piece.kind {
            Kind::Name => end = entry(bytes, next, table)?,
            Kind::Word => return closing(bytes, next.piece),
            _ => return Err(refused(next.piece)),
        }
    }
}

impl Table {
    ghost use Rattle.std.specs.Prelude.{◌≡◌, [], IfOk};

    /// A table of no instances, with room from the start for those of a file of so many bytes.
    pub fn new(alloc: Global, size: usize) -> Result<Table, AllocError>
        ensures heads { IfOk result (λ table. table.heads.items ≡ []) }
        ensures starts { IfOk result (λ table. table.starts.items ≡ []) }
        ensures values { IfOk result (λ table. table.values ≡ 0) }
    {
        Ok(Table {
            heads: Vec::with_capacity(alloc, size / BYTES_A_HEAD)?,
            starts: Vec::with_capacity(alloc, size / BYTES_A_START)?,
            values: 0,
        })
    }
}
