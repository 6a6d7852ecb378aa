//! The values of a header statement, which are passed over.
ghost use Rattle.std.specs.Prelude.{◌≡◌, ◌≤◌, ◌∷◌, [], length, Some, None, IfOk, IfErr, OnOk, MatchOption};
ghost use Rattle.std.specs.Prelude.{true, false};
ghost use Rattle.p21_values.specs.Grammar.{Inside};
ghost use Rattle.p21_reader.specs.Machine.{next};
ghost use Rattle.p21_values.specs.Lexemes.{lexeme_of, class_of};
ghost use Rattle.p21_values.specs.TokenPieces.{IsPiece};
ghost use Rattle.p21_reader.specs.Instances.{Passes};
ghost use Rattle.p21_reader.specs.inner.Heading.{sign_of, signs_of, class_seen, Follows, FollowsNot};

use crate::word::{Seen, look};
use p21_values::{Piece, ReadFault, refused, take};
use std::alloc::Global;

/// What is wanted next within a header statement.
#[derive(Clone, Copy)]
pub enum Want {
    Open,
    Close,
    Value,
    Inside,
    After,
}

/// What is wanted after a token where a value is wanted, the last first.
fn after_value(found: Seen) -> Option<&'static [Want]>
    ensures { MatchOption result (next (sign_of Want.Value) (class_seen found) ≡ None)
        (λ wants. next (sign_of Want.Value) (class_seen found) ≡ Some (signs_of wants.now)) }
{
    match found {
        Seen::Simple => Some(&[]),
        Seen::Name => Some(&[]),
        Seen::Open => Some(&[Want::Inside]),
        Seen::Word(_) => Some(&[Want::Close, Want::Value, Want::Open]),
        _ => None,
    }
}

/// The same after an opening parenthesis.
fn after_open(found: Seen) -> Option<&'static [Want]>
    ensures { MatchOption result (next (sign_of Want.Inside) (class_seen found) ≡ None)
        (λ wants. next (sign_of Want.Inside) (class_seen found) ≡ Some (signs_of wants.now)) }
{
    match found {
        Seen::Close => Some(&[]),
        Seen::Simple => Some(&[Want::After]),
        Seen::Name => Some(&[Want::After]),
        Seen::Open => Some(&[Want::After, Want::Inside]),
        Seen::Word(_) => Some(&[Want::After, Want::Close, Want::Value, Want::Open]),
        _ => None,
    }
}

/// The same where one token alone is wanted.
fn after_one(is_wanted: bool) -> Option<&'static [Want]>
    ensures { MatchOption result (is_wanted ≡ false) (λ wants. (is_wanted ≡ true) × (wants.now ≡ [])) }
{
    if is_wanted { Some(&[]) } else { None }
}

/// What is wanted after a token in place of what was wanted, the last first.
fn after(want: Want, found: Seen) -> Option<&'static [Want]>
    ensures { MatchOption result (next (sign_of want) (class_seen found) ≡ None)
        (λ wants. next (sign_of want) (class_seen found) ≡ Some (signs_of wants.now)) }
{
    match want {
        Want::Open => after_one(matches!(found, Seen::Open)),
        Want::Close => after_one(matches!(found, Seen::Close)),
        Want::Value => after_value(found),
        Want::Inside => after_open(found),
        Want::After => match found {
            Seen::Close => Some(&[]),
            Seen::Comma => Some(&[Want::After, Want::Value]),
            _ => None,
        },
    }
}

/// Passes over a token.
fn follow(bytes: &[u8], piece: Piece, want: Want, wants: &mut Vec<Want>) -> Result<(), ReadFault>
    requires { IsPiece bytes.now piece }
    ensures follows { OnOk result (Follows (sign_of want) (class_of (lexeme_of bytes.now piece.token))
        (signs_of wants.old.items) (signs_of wants.new.items)) }
    ensures fault { IfErr result (λ fault. FollowsNot (sign_of want) bytes.now piece.token fault) }
{
    match after(want, look(bytes, piece)) {
        None => Err(refused(piece)),
        Some(later) => {
            wants.extend_from_slice(later)?;
            Ok(())
        }
    }
}

/// Passes over values, from after the opening parenthesis up to and with the closing one. Parentheses of the header nest without
/// limit, so what is wanted lies on a stack of its own.
pub fn pass_values(alloc: Global, bytes: &[u8], at: usize) -> Result<usize, ReadFault>
    requires { at ≤ length bytes.now }
    ensures passes { Passes (Inside None ∷ []) bytes.now at result }
    ensures within { IfOk result (λ end. end ≤ length bytes.now) }
{
    let mut wants = Vec::from_slice(alloc, &[Want::Inside])?;
    let mut end = at;
    while let Some(want) = wants.pop() {
        let piece = take(bytes, end)?;
        follow(bytes, piece, want, &mut wants)?;
        end = piece.token.end;
    }
    Ok(end)
}
