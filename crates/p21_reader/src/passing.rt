//! Passing over a value: nothing is built, and nothing recurses.
ghost use Rattle.std.specs.Prelude.{◌≡◌, ◌⊎◌, true, false, ◌-◌, ◌<◌, ◌≤◌, ◌∷◌, [], ℕ, List, length, slice_index_or, Some, IfSome, IfOk, option_map};
ghost use Rattle.p21_values.specs.Grammar.{Class, Value, Inside, T, Open, AnyWord, Ones};
ghost use Rattle.p21_reader.specs.Instances.{Passes};
ghost use Rattle.p21_values.specs.declared.limits.TheConstants.{MOST_DEPTH};
ghost use Rattle.p21_reader.specs.Machine.{step};
ghost use Rattle.p21_values.specs.TokenPieces.{IsPiece, kind_of};
ghost use Rattle.p21_values.specs.Lexemes.{NumberOf, single_says, Cuts};
ghost use Rattle.p21_reader.specs.inner.ValueNesting.{wanted, signs, IsFit, tells, EndsRow, HasRow};
ghost use Rattle.p21_reader.specs.inner.Tabling.{Counts, PassesRow, PassesRows, PassesMore, PassesValue};

use crate::word::expect;
use p21_lexer::number_there;
use p21_values::{Kind, MOST_DEPTH, Piece, ReadFault, refused, take};

/// What is wanted next.
#[derive(Clone, Copy)]
pub enum Top {
    Value,
    /// A value, or the end of an empty list.
    Inside,
    /// The opening parenthesis after a keyword.
    Opening,
    /// What stands behind a value.
    Behind,
}

/// What is wanted next, and how many parentheses are open.
#[derive(Clone, Copy)]
pub struct Level {
    pub top: Top,
    pub depth: usize,
}

/// Up to where tokens were passed over, and what is wanted there.
#[derive(Clone, Copy)]
pub struct Reached {
    pub level: Level,
    pub end: usize,
}

/// What is wanted after a token, where a value is wanted.
fn after_value(kind: Kind, most: usize, depth: usize, typed: &mut [bool]) -> Option<Level>
    requires room { length typed.old ≡ 32 }
    requires most { most ≤ 32 }
    requires depth { depth ≤ most }
    ensures room { length typed.new ≡ 32 }
    ensures fits { IfSome result (λ l. IsFit l.top l.depth typed.new) }
    ensures depth { IfSome result (λ l. l.depth ≤ most) }
    ensures steps { (c : Class) → kind_of c ≡ kind
        → step (Value (Some (most - depth)) ∷ wanted most depth typed.old) c
        ≡ option_map (λ l. signs most l.top l.depth typed.new) result }
{
    match kind {
        Kind::Simple | Kind::Name => Some(Level {
            top: Top::Behind,
            depth,
        }),
        Kind::Open => {
            if depth == most {
                return None;
            }
            typed[depth] = false;
            Some(Level {
                top: Top::Inside,
                depth: depth + 1,
            })
        }
        Kind::Word => {
            if depth == most {
                return None;
            }
            typed[depth] = true;
            Some(Level {
                top: Top::Opening,
                depth: depth + 1,
            })
        }
        _ => None,
    }
}

/// What is wanted after a token after a value, where a parenthesis is open.
fn after_behind(kind: Kind, most: usize, depth: usize, typed: &[bool]) -> Option<Level>
    requires room { length typed.now ≡ 32 }
    requires most { most ≤ 32 }
    requires depth { depth ≤ most }
    requires open { 0 < depth }
    ensures fits { IfSome result (λ l. IsFit l.top l.depth typed.now) }
    ensures depth { IfSome result (λ l. l.depth ≤ most) }
    ensures steps { (c : Class) → kind_of c ≡ kind → step (wanted most depth typed.now) c
        ≡ option_map (λ l. signs most l.top l.depth typed.now) result }
{
    match kind {
        Kind::Close => Some(Level {
            top: Top::Behind,
            depth: depth - 1,
        }),
        Kind::Comma => {
            if typed[depth - 1] {
                None
            } else {
                Some(Level {
                    top: Top::Value,
                    depth,
                })
            }
        }
        _ => None,
    }
}

/// What is wanted after a token inside a list that has just been opened.
fn after_inside(kind: Kind, most: usize, depth: usize, typed: &mut [bool]) -> Option<Level>
    requires room { length typed.old ≡ 32 }
    requires most { most ≤ 32 }
    requires depth { depth ≤ most }
    requires fit { IsFit Top.Inside depth typed.old }
    ensures room { length typed.new ≡ 32 }
    ensures fits { IfSome result (λ l. IsFit l.top l.depth typed.new) }
    ensures depth { IfSome result (λ l. l.depth ≤ most) }
    ensures steps { (c : Class) → kind_of c ≡ kind → step (signs most Top.Inside depth typed.old) c
        ≡ option_map (λ l. signs most l.top l.depth typed.new) result }
{
    match kind {
        Kind::Close => Some(Level {
            top: Top::Behind,
            depth: depth - 1,
        }),
        _ => after_value(kind, most, depth, typed),
    }
}

/// What is wanted after a token.
fn after(top: Top, kind: Kind, most: usize, depth: usize, typed: &mut [bool]) -> Option<Level>
    requires room { length typed.old ≡ 32 }
    requires most { most ≤ 32 }
    requires depth { depth ≤ most }
    requires fit { IsFit top depth typed.old }
    requires open { top ≡ Top.Behind → 0 < depth }
    ensures room { length typed.new ≡ 32 }
    ensures fits { IfSome result (λ l. IsFit l.top l.depth typed.new) }
    ensures depth { IfSome result (λ l. l.depth ≤ most) }
    ensures steps { (c : Class) → kind_of c ≡ kind → step (signs most top depth typed.old) c
        ≡ option_map (λ l. signs most l.top l.depth typed.new) result }
{
    match top {
        Top::Value => after_value(kind, most, depth, typed),
        Top::Inside => after_inside(kind, most, depth, typed),
        Top::Opening => match kind {
            Kind::Open => Some(Level {
                top: Top::Value,
                depth,
            }),
            _ => None,
        },
        Top::Behind => after_behind(kind, most, depth, typed),
    }
}

/// Whether a value has ended and no parenthesis is open.
fn is_over(level: Level) -> bool
    ensures over { result ≡ true → (level.top ≡ Top.Behind) × (level.depth ≡ 0) }
    ensures going { result ≡ false → level.top ≡ Top.Behind → 0 < level.depth }
{
    match level.top {
        Top::Behind => level.depth == 0,
        _ => false,
    }
}

/// The count with what a token tells.
fn counted(so_far: u64, kind: Kind) -> u64
    ensures { Counts so_far result (tells kind) }
{
    match kind {
        Kind::Simple | Kind::Name | Kind::Open => so_far.saturating_add(1),
        _ => so_far,
    }
}

/// After a number that stands right there, and after this sign right after it. None says nothing.
#[inline(always)]
fn number_before(bytes: &[u8], at: usize, sign: u8) -> Option<usize>
    requires { sign ≡ 44 ⊎ sign ≡ 41 }
    ensures cuts { IfSome result (λ end. (x : List ℕ)
        × Cuts bytes.now at (NumberOf x ∷ single_says sign ∷ []) end) }
    ensures on { IfSome result (λ end. at ≤ end) }
    ensures within { IfSome result (λ end. end ≤ length bytes.now) }
{
    let end = number_there(bytes, at)?;
    if end >= bytes.len() {
        return None;
    }
    if bytes[end] != sign {
        return None;
    }
    Some(end + 1)
}

/// After a list of three numbers without blanks, whose opening parenthesis ends at `at`. None says nothing.
#[inline(always)]
fn row_end(bytes: &[u8], at: usize) -> Option<usize>
    ensures row { IfSome result (EndsRow bytes.now at) }
    ensures on { IfSome result (λ end. at ≤ end) }
    ensures within { IfSome result (λ end. end ≤ length bytes.now) }
{
    let second = number_before(bytes, at, b',')?;
    let third = number_before(bytes, second, b',')?;
    number_before(bytes, third, b')')
}

/// Passes over lists of three numbers without blanks, each right after a comma, as far as they stand there, and counts their values.
#[inline(always)]
fn pass_rows(bytes: &[u8], at: usize, count: &mut u64) -> usize
    requires within { at ≤ length bytes.now }
    ensures rows { PassesRows bytes.now at count.old count.new result }
    ensures on { at ≤ result }
    ensures within { result ≤ length bytes.now }
{
    let mut end = at;
    while let Some(behind) = row_behind(bytes, end) {
        *count = (*count).saturating_add(4);
        end = behind;
    }
    end
}

/// After a comma and a list of three numbers that stand right there. None says nothing.
#[inline(always)]
fn row_behind(bytes: &[u8], at: usize) -> Option<usize>
    requires within { at ≤ length bytes.now }
    ensures row { IfSome result (HasRow bytes.now at) }
    ensures on { IfSome result (λ end. at < end) }
    ensures within { IfSome result (λ end. end ≤ length bytes.now) }
{
    if at + 1 >= bytes.len() {
        return None;
    }
    if bytes[at] != b',' {
        return None;
    }
    if bytes[at + 1] != b'(' {
        return None;
    }
    row_end(bytes, at + 2)
}

/// Whether a value has ended in a list that may hold lists.
#[inline(always)]
fn holds_lists(level: Level, most: usize, typed: &[bool]) -> bool
    requires room { length typed.now ≡ 32 }
    requires most { most ≤ 32 }
    requires depth { level.depth ≤ most }
    ensures behind { result ≡ true → level.top ≡ Top.Behind }
    ensures some { result ≡ true → 0 < level.depth }
    ensures deep { result ≡ true → level.depth < most }
    ensures lists { result ≡ true → slice_index_or typed.now (level.depth - 1) false ≡ false }
{
    match level.top {
        Top::Behind => level.depth > 0 && level.depth < most && !typed[level.depth - 1],
        _ => false,
    }
}

/// Passes over rows after a value of a list that is open, where it may hold lists.
#[inline(always)]
fn pass_more(
    bytes: &[u8],
    reached: Reached,
    most: usize,
    typed: &[bool],
    count: &mut u64,
) -> Reached
    requires room { length typed.now ≡ 32 }
    requires most { most ≤ 32 }
    requires depth { reached.level.depth ≤ most }
    requires within { reached.end ≤ length bytes.now }
    ensures more { PassesMore bytes.now most typed.now reached count.old count.new result }
    ensures level { result.level ≡ reached.level }
    ensures on { reached.end ≤ result.end }
    ensures within { result.end ≤ length bytes.now }
{
    if holds_lists(reached.level, most, typed) {
        let end = pass_rows(bytes, reached.end, count);
        return Reached {
            level: reached.level,
            end,
        };
    }
    reached
}

/// Passes over what is left of a list that has just been opened, where it is such a row. Nothing is passed where it isn't.
#[inline(always)]
fn pass_row(bytes: &[u8], at: usize, level: Level, count: &mut u64) -> Reached
    requires within { at ≤ length bytes.now }
    requires open { level.top ≡ Top.Inside → 0 < level.depth }
    ensures row { PassesRow bytes.now at level count.old count.new result }
    ensures depth { result.level.depth ≤ level.depth }
    ensures on { at ≤ result.end }
    ensures within { result.end ≤ length bytes.now }
{
    if let Top::Inside = level.top {
        if let Some(end) = row_end(bytes, at) {
            *count = (*count).saturating_add(3);
            return Reached {
                level: Level {
                    top: Top::Behind,
                    depth: level.depth - 1,
                },
                end,
            };
        }
    }
    Reached { level, end: at }
}

/// Passes over a list or a typed value whose first token is given.
#[inline(never)]
fn pass_nested(bytes: &[u8], first: Piece, most: usize, count: &mut u64) -> Result<usize, ReadFault>
    requires piece { IsPiece bytes.now first }
    requires most { most ≤ 32 }
    ensures passes { PassesValue most bytes.now first.token count.old count.new result }
    ensures on { IfOk result (λ end. first.token.end ≤ end) }
    ensures within { IfOk result (λ end. end ≤ length bytes.now) }
{
    let mut typed = [false; 32];
    let mut level = Level {
        top: Top::Value,
        depth: 0,
    };
    let mut piece = first;
    loop {
        let Some(next) = after(level.top, piece.kind, most, level.depth, &mut typed) else {
            return Err(refused(piece));
        };
        *count = counted(*count, piece.kind);
        let row = pass_row(bytes, piece.token.end, next, count);
        let reached = pass_more(bytes, row, most, &typed, count);
        if is_over(reached.level) {
            return Ok(reached.end);
        }
        level = reached.level;
        piece = take(bytes, reached.end)?;
    }
}

/// Passes over the value whose first token is given, whose parentheses may nest that deep, and counts the values that it is.
pub fn pass_value(
    bytes: &[u8],
    first: Piece,
    most: usize,
    count: &mut u64,
) -> Result<usize, ReadFault>
    requires piece { IsPiece bytes.now first }
    requires most { most ≤ 32 }
    ensures passes { PassesValue most bytes.now first.token count.old count.new result }
    ensures on { IfOk result (λ end. first.token.end ≤ end) }
    ensures within { IfOk result (λ end. end ≤ length bytes.now) }
{
    match first.kind {
        Kind::Simple | Kind::Name => {
            *count = counted(*count, first.kind);
            Ok(first.token.end)
        }
        _ => pass_nested(bytes, first, most, count),
    }
}

/// Passes over values, from after the opening parenthesis up to and with the closing one.
fn pass_inside(bytes: &[u8], at: usize, depth: usize) -> Result<usize, ReadFault>
    requires at { at ≤ length bytes.now }
    requires depth { depth ≤ 32 }
    ensures passes { Passes (Inside (Some depth) ∷ []) bytes.now at result }
    ensures on { IfOk result (λ end. at ≤ end) }
    ensures within { IfOk result (λ end. end ≤ length bytes.now) }
{
    let mut passed = 0;
    let first = take(bytes, at)?;
    if let Kind::Close = first.kind {
        return Ok(first.token.end);
    }
    let mut end = pass_value(bytes, first, depth, &mut passed)?;
    loop {
        let next = take(bytes, end)?;
        match next.kind {
            Kind::Close => return Ok(next.token.end),
            Kind::Comma => {
                let item = take(bytes, next.token.end)?;
                end = pass_value(bytes, item, depth, &mut passed)?;
            }
            _ => return Err(refused(next)),
        }
    }
}

/// Passes over the values of one keyword of a complex instance, from after the keyword.
fn pass_one(bytes: &[u8], at: usize) -> Result<usize, ReadFault>
    requires { at ≤ length bytes.now }
    ensures passes { Passes (T Open ∷ Inside (Some (MOST_DEPTH - 2)) ∷ []) bytes.now at result }
    ensures on { IfOk result (λ end. at ≤ end) }
    ensures within { IfOk result (λ end. end ≤ length bytes.now) }
{
    let open = expect(bytes, at, Kind::Open)?;
    pass_inside(bytes, open, MOST_DEPTH as usize - 2)
}

/// Passes over a complex instance, from after its opening parenthesis, up to and with the closing one.
pub fn pass_complex(bytes: &[u8], at: usize) -> Result<usize, ReadFault>
    requires { at ≤ length bytes.now }
    ensures passes { Passes (AnyWord ∷ T Open ∷ Inside (Some (MOST_DEPTH - 2)) ∷ Ones ∷
        []) bytes.now at result }
    ensures within { IfOk result (λ end. end ≤ length bytes.now) }
{
    let word = take(bytes, at)?;
    if word.kind != Kind::Word {
        return Err(refused(word));
    }
    let mut end = pass_one(bytes, word.token.end)?;
    loop {
        let next = take(bytes, end)?;
        match next.kind {
            Kind::Close => return Ok(next.token.end),
            Kind::Word => end = pass_one(bytes, next.token.end)?,
            _ => return Err(refused(next)),
        }
    }
}
