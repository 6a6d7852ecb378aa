//! A value where it stands in a file.
ghost use Rattle.std.specs.Prelude.{◌≡◌, ◌≤◌, List, length, Some, None, IfSome, MatchOption};
ghost use Rattle.p21_values.specs.declared.value.Value21.{Value21};
ghost use Rattle.p21_values.specs.Values.{items_of};
ghost use Rattle.p21_values.specs.Standing.{Stands, StandInside};
ghost use Rattle.p21_table.specs.Stood.{Stood, one_stood};

use crate::first_byte::{
    absent_by_byte, guid_by_bytes, inside_by_byte, plain_by_bytes, reference_by_byte, text_by_byte,
    words_by_byte,
};
use crate::standing::{
    absent_there, enumeration_there, first_token, inside_there, number_there, reference_there,
    typed_there, words_there,
};
use crate::value_list::Values;
use p21_lexer::TokenKind;
use std::marker::Model;

/// A value where it stands in a file (ISO 10303-21, sections 6 and 10). Its tokens are cut when it is asked. Contracts see it as what it says.
#[derive(Drop)]
pub struct ValueRef<'a> {
    bytes: &'a [u8],
    at: usize,
    ghost within: { at ≤ length bytes.now },
    ghost says: { Stood bytes.now at } by { one_stood bytes.now at },
}

/// After the opening parenthesis of the list that stands there; none where the value that does is no list.
#[inline(always)]
fn inside_of(bytes: &[u8], at: usize) -> Option<usize>
    requires within { at ≤ length bytes.now }
    requires says { Stood bytes.now at }
    ensures inside { (v : Value21) → Stands bytes.now at v → MatchOption result (items_of v ≡ None)
        (λ at. (vs : List Value21) × (items_of v ≡ Some vs) × StandInside bytes.now at vs) }
    ensures within { IfSome result (λ at. at ≤ length bytes.now) }
{
    if let Some(answer) = inside_by_byte(bytes, at) {
        return answer;
    }
    let first = first_token(bytes, at)?;
    inside_there(bytes, first)
}

impl<'a> Model for ValueRef<'a> {
    ghost use Rattle.p21_values.specs.declared.value.Value21.{Value21};
    ghost use Rattle.p21_values.specs.contracts.value.Value21 as row;
    ghost use Rattle.std.specs.Coded.{codes};

    ghost coded = { Prim.hlevel (codes, row.the_row.coded) };

    ghost Value = { Value21 };

    ghost view = { λ v. v.says.0 };
}

impl<'a> ValueRef<'a> {
    ghost use Rattle.std.specs.Prelude.{◌≡◌, ◌≤◌, length, option_copied, Some, IfSome, is_some, true};
    ghost use Rattle.std.specs.List.{list_all};
    ghost use Rattle.bim_model.specs.Guids.{IsGuid};
    ghost use Rattle.bim_text.specs.TextSpellings.{is_plain};
    ghost use Rattle.p21_values.specs.declared.value.Value21.{Value21};
    ghost use Rattle.p21_values.specs.Standing.{Stands};
    ghost use Rattle.p21_table.specs.Stood.{Stood};
    ghost use Rattle.p21_values.specs.Values.{number_of, words_of, enumeration_of, reference_of, items_of, typed_of, measure_of, is_enumeration, is_absent};
    ghost use Rattle.p21_values.specs.Attributes.{items_in};

    /// The value that stands there.
    #[inline(always)]
    pub(crate) fn of(bytes: &'a [u8], at: usize) -> ValueRef<'a>
        requires within { at ≤ length bytes.now }
        requires says { Stood bytes.now at }
        ensures { (v : Value21) → Stands bytes.now at v → result ≡ v }
    {
        ValueRef { bytes, at }
    }

    /// The bytes of a number.
    pub fn number(&self) -> Option<&'a [u8]>
        ensures { option_copied result ≡ number_of self.now }
    {
        let first = first_token(self.bytes, self.at)?;
        number_there(self.bytes, first)
    }

    /// The bytes of a text, as it is spelled between its apostrophes.
    pub fn words(&self) -> Option<&'a [u8]>
        ensures { option_copied result ≡ words_of self.now }
    {
        if let Some(answer) = words_by_byte(self.bytes, self.at) {
            return answer;
        }
        let first = first_token(self.bytes, self.at)?;
        words_there(self.bytes, first)
    }

    /// The identifier that the text spells as it is (IFC4 ADD2 TC1, IfcGloballyUniqueId). None says nothing.
    #[inline(always)]
    pub fn plain_guid(&self) -> Option<&'a [u8]>
        ensures guid { IfSome result (λ guid. IsGuid guid.now) }
        ensures words { IfSome result (λ guid. words_of self.now ≡ Some guid.now) }
    {
        guid_by_bytes(self.bytes, self.at)
    }

    /// The text, where it is spelled as it is: all its bytes stand for themselves. None says nothing.
    #[inline(always)]
    pub fn plain_text(&self) -> Option<&'a [u8]>
        ensures plain { IfSome result (λ text. list_all is_plain text.now ≡ true) }
        ensures words { IfSome result (λ text. words_of self.now ≡ Some text.now) }
    {
        plain_by_bytes(self.bytes, self.at)
    }

    /// Whether it is a text.
    pub fn is_text(&self) -> bool
        ensures { result ≡ is_some (words_of self.now) }
    {
        if let Some(answer) = text_by_byte(self.bytes, self.at) {
            return answer;
        }
        self.words().is_some()
    }

    /// The letters of an enumeration, without its points.
    pub fn enumeration(&self) -> Option<&'a [u8]>
        ensures { option_copied result ≡ enumeration_of self.now }
    {
        let first = first_token(self.bytes, self.at)?;
        enumeration_there(self.bytes, first)
    }

    /// The number of the instance that a reference names.
    #[inline(always)]
    pub fn reference(&self) -> Option<u64>
        ensures { result ≡ reference_of self.now }
    {
        if let Some(answer) = reference_by_byte(self.bytes, self.at) {
            return answer;
        }
        let first = first_token(self.bytes, self.at)?;
        reference_there(self.bytes, first)
    }

    /// The items of a list.
    pub fn items(&self) -> Option<Values<'a>>
        ensures { result ≡ items_of self.now }
    {
        match inside_of(self.bytes, self.at) {
            Some(at) => Some(Values::of(self.bytes, at)),
            None => None,
        }
    }

    /// The value that a typed value holds, after its keyword (ISO 10303-21, section 10).
    pub fn typed(&self) -> Option<ValueRef<'a>>
        ensures { result ≡ typed_of self.now }
    {
        let first = first_token(self.bytes, self.at)?;
        match typed_there(self.bytes, first) {
            Some(at) => Some(ValueRef::of(self.bytes, at)),
            None => None,
        }
    }

    /// The bytes of the number that it is, or that it holds after a keyword (IFC4 ADD2 TC1, IfcValue).
    pub fn measure(&self) -> Option<&'a [u8]>
        ensures { option_copied result ≡ measure_of self.now }
    {
        match self.typed() {
            Some(held) => held.number(),
            None => self.number(),
        }
    }

    /// The items of a list; none of another value.
    pub fn items_in(&self) -> Values<'a>
        ensures { result ≡ items_in self.now }
    {
        match self.items() {
            Some(items) => items,
            None => Values::none(),
        }
    }

    /// Whether it is an enumeration.
    pub fn is_enumeration(&self) -> bool
        ensures { result ≡ is_enumeration self.now }
    {
        match first_token(self.bytes, self.at) {
            Some(first) => first.token.kind == TokenKind::Enumeration,
            None => false,
        }
    }

    /// Whether it is `$`, or `*`, which counts as that.
    pub fn is_absent(&self) -> bool
        ensures { result ≡ is_absent self.now }
    {
        if let Some(answer) = absent_by_byte(self.bytes, self.at) {
            return answer;
        }
        match first_token(self.bytes, self.at) {
            Some(first) => absent_there(self.bytes, first),
            None => false,
        }
    }
}
