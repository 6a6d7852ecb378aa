//! Values one after another, as they stand in a list or an instance of a file.
ghost use Rattle.std.specs.Prelude.{◌≤◌, List, length};
ghost use Rattle.p21_values.specs.declared.value.Value21.{Value21};
ghost use Rattle.p21_values.specs.Standing.{StandInside};
ghost use Rattle.p21_values.proofs.Stood.{one_inside};

use crate::first_byte::behind_one;
use crate::standing::{item_there, next_there, sign_behind};
use crate::value_ref::ValueRef;
use bim_text::{ShortRow, short_row};
use std::alloc::{AllocError, Global};
use std::marker::Model;

/// Values in their order, as they stand in a file: an iterator that takes no memory. Contracts see it as the list of what is left.
#[derive(Drop)]
pub struct Values<'a> {
    bytes: &'a [u8],
    at: usize,
    ghost within: { at ≤ length bytes.now },
    ghost says: { (vs : List Value21) × ∥ StandInside bytes.now at vs ∥₁ } by { one_inside bytes.now at },
}

/// Three values, one after another.
#[derive(Drop)]
pub struct Three<'a> {
    pub x: ValueRef<'a>,
    pub y: ValueRef<'a>,
    pub z: ValueRef<'a>,
}

impl<'a> Model for Values<'a> {
    ghost use Rattle.std.specs.Prelude.{List};
    ghost use Rattle.p21_values.specs.declared.value.Value21.{Value21};
    ghost use Rattle.p21_values.specs.contracts.value.Value21 as row;
    ghost use Rattle.std.specs.Coded.{codes};

    ghost coded = { Prim.hlevel (codes, row.the_row.coded) };

    ghost Value = { List Value21 };

    ghost view = { λ v. v.says.0 };
}

impl<'a> Iterator for Values<'a> {
    ghost use Rattle.std.specs.Iterator.{YieldsFirst, item_count};

    type Item = ValueRef<'a>;

    ghost next_gives = { YieldsFirst (λ left. left) };

    ghost remaining = { item_count (λ left. left) };

    fn next(&mut self) -> Option<ValueRef<'a>> {
        if let Some(after) = behind_one(self.bytes, self.at) {
            let value = ValueRef::of(self.bytes, self.at);
            *self = Values::of(self.bytes, after);
            return Some(value);
        }
        let first = item_there(self.bytes, self.at)?;
        let value = ValueRef::of(self.bytes, self.at);
        *self = Values::of(self.bytes, next_there(self.bytes, first));
        Some(value)
    }
}

impl<'a> Values<'a> {
    ghost use Rattle.std.specs.Prelude.{◌≡◌, ◌<◌, ◌≤◌, ◌^◌, ◌∷◌, [], List, length, IfOk, IsTrue, ◌↔◌, MatchOption};
    ghost use Rattle.p21_values.specs.declared.value.Value21.{Value21};
    ghost use Rattle.p21_values.specs.Standing.{StandInside};
    ghost use Rattle.p21_table.specs.ShortRows.{SaysRow};

    /// The values that stand from there on, up to a closing parenthesis.
    pub(crate) fn of(bytes: &'a [u8], at: usize) -> Values<'a>
        requires within { at ≤ length bytes.now }
        requires says { (vs : List Value21) × ∥ StandInside bytes.now at vs ∥₁ }
        ensures says { (vs : List Value21) → StandInside bytes.now at vs → result ≡ vs }
        ensures few { length result < 2 ^ 63 }
    {
        Values { bytes, at }
    }

    /// No values.
    pub fn none() -> Values<'a>
        ensures { result ≡ [] }
    {
        Values::of(b")", 0)
    }

    /// The next value, where it is a row of three short numbers without blanks between them: it is read in one loop. None says nothing, and
    /// leaves it.
    pub fn next_row(&mut self) -> Option<ShortRow>
        ensures { MatchOption result (self.new ≡ self.old)
            (λ row. (value : Value21) × (self.old ≡ value ∷ self.new) × SaysRow row value) }
    {
        let row = short_row(self.bytes, self.at)?;
        let after = sign_behind(self.bytes, row.end)?;
        *self = Values::of(self.bytes, after);
        Some(row)
    }

    /// How many values are left. It goes over them.
    pub fn len(&self) -> usize
        ensures count { result ≡ length self.now }
        ensures few { result < 2 ^ 63 }
    {
        Values::of(self.bytes, self.at).count()
    }

    /// Whether there are exactly so many values left. It goes over no more than these.
    pub fn are(&self, count: usize) -> bool
        ensures { IsTrue result ↔ (length self.now ≡ count) }
    {
        let mut left = self.iter();
        for _ in 0..count {
            if left.next().is_none() {
                return false;
            }
        }
        left.next().is_none()
    }

    /// Whether there are at least so many values left. It goes over no more than these.
    pub fn are_at_least(&self, count: usize) -> bool
        ensures { IsTrue result ↔ (count ≤ length self.now) }
    {
        let mut left = self.iter();
        for _ in 0..count {
            if left.next().is_none() {
                return false;
            }
        }
        true
    }

    /// The values that are left, for a second time.
    pub fn iter(&self) -> Values<'a>
        ensures { result ≡ self.now }
    {
        Values::of(self.bytes, self.at)
    }

    /// The values that are left, each at its place, for those who seek in them again and again.
    pub fn to_vec(&self, alloc: Global) -> Result<Vec<ValueRef<'a>>, AllocError>
        ensures { IfOk result (λ made. made.items ≡ self.now) }
    {
        let mut made = Vec::with_capacity(alloc, self.len())?;
        for value in self.iter() {
            made.push(value)?;
        }
        Ok(made)
    }

    /// The values that are left, where they are exactly three.
    pub fn three(&self) -> Option<Three<'a>>
        ensures { MatchOption result ((x y z : Value21) → self.now ≡ x ∷ y ∷ z ∷ [] → ⊥)
            (λ t. self.now ≡ t.x ∷ t.y ∷ t.z ∷ []) }
    {
        let mut left = self.iter();
        let x = left.next()?;
        let y = left.next()?;
        let z = left.next()?;
        if left.next().is_some() {
            return None;
        }
        Some(Three { x, y, z })
    }
}
