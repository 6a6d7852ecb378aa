//! An instance where it stands in a file.
ghost use Rattle.std.specs.Prelude.{◌≡◌, ◌<◌, ◌≤◌, length, slice_range};

use crate::exchange::Exchange;
use crate::keyword::Keyword;
use crate::value_list::Values;
use crate::value_ref::ValueRef;
use std::marker::Model;

/// The bytes from there to there.
fn between(bytes: &[u8], from: usize, to: usize) -> &[u8]
    requires order { from ≤ to }
    requires within { to ≤ length bytes.now }
    ensures { result.now ≡ slice_range bytes.now from to }
{
    &bytes[from..to]
}

/// An instance where it stands in a file (ISO 10303-21, section 11), which takes no memory. Contracts see its number, its keyword and its
/// values.
#[derive(Drop)]
pub struct InstanceRef<'a> {
    exchange: &'a Exchange,
    at: usize,
    ghost within: { at < length exchange.now },
}

impl<'a> Model for InstanceRef<'a> {
    ghost use Rattle.p21_values.specs.declared.value.Instance.{Instance};
    ghost use Rattle.p21_values.specs.contracts.value.Value21 as row;
    ghost use Rattle.std.specs.Coded.{codes};
    ghost use Rattle.p21_values.specs.InstanceLookup.{instance_at};

    ghost coded = { Prim.hlevel (codes, row.the_row.coded) };

    ghost Value = { Instance };

    ghost view = { λ i. instance_at i.exchange.now i.at };
}

impl<'a> InstanceRef<'a> {
    ghost use Rattle.std.specs.Prelude.{◌≡◌, ◌<◌, Some, length};
    ghost use Rattle.std.specs.List.{slice_get};
    ghost use Rattle.ifc_keywords.specs.Codes.{code_at};
    ghost use Rattle.p21_values.specs.Attributes.{listed, reference_at};

    /// The instance at a place.
    pub(crate) fn of(exchange: &'a Exchange, at: usize) -> InstanceRef<'a>
        requires { at < length exchange.now }
        ensures { slice_get exchange.now at ≡ Some result }
    {
        InstanceRef { exchange, at }
    }

    /// The number of its name.
    pub fn id(&self) -> u64
        ensures { result ≡ self.now.id }
    {
        self.exchange.kept().heads[self.at].id
    }

    /// Its keyword; none of a complex instance.
    pub fn keyword(&self) -> Option<Keyword<'a>>
        ensures { result ≡ self.now.keyword }
    {
        let kept = self.exchange.kept();
        let head = kept.heads[self.at];
        if head.word == head.word_end {
            return None;
        }
        Some(Keyword::of(between(kept.bytes, head.word as usize, head.word_end as usize)))
    }

    /// The number of its keyword among the known ones; 255 of another, and of a complex instance.
    pub fn code(&self) -> u8
        ensures { result ≡ code_at self.now.keyword }
    {
        self.exchange.kept().heads[self.at].code
    }

    /// Its attributes in their order; none of a complex instance.
    pub fn values(&self) -> Values<'a>
        ensures { result ≡ self.now.values }
    {
        let kept = self.exchange.kept();
        let head = kept.heads[self.at];
        if head.count == 0 {
            return Values::none();
        }
        let start = kept.starts[head.first as usize] as usize;
        Values::of(kept.bytes, start)
    }

    /// The attribute of that number, from 0; none where it has fewer.
    #[inline(always)]
    pub fn attribute(&self, at: usize) -> Option<ValueRef<'a>>
        ensures { result ≡ slice_get self.now.values at }
    {
        let kept = self.exchange.kept();
        let head = kept.heads[self.at];
        if at >= head.count as usize {
            return None;
        }
        let start = kept.starts[head.first as usize + at] as usize;
        Some(ValueRef::of(kept.bytes, start))
    }

    /// The items of the list that is the attribute of that number; none where there is no list.
    #[tactic(auto, unfolding(p21_values::specs::Attributes::listed))]
    pub fn listed(&self, at: usize) -> Values<'a>
        ensures { result ≡ listed self.now at }
    {
        match self.attribute(at) {
            Some(value) => value.items_in(),
            None => Values::none(),
        }
    }

    /// The number of the instance that the attribute of that number refers to; none where it is no reference.
    pub fn reference_at(&self, at: usize) -> Option<u64>
        ensures { result ≡ reference_at self.now at }
    {
        match self.attribute(at) {
            Some(value) => value.reference(),
            None => None,
        }
    }
}
