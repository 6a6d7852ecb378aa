//! The keys of elements, and pairs of elements.
ghost use Rattle.std.specs.Prelude.{◌≡◌, IfOk};
ghost use Rattle.std.specs.Ordering.{is_lt};
ghost use Rattle.bim_model.specs.Keys.{is_key_below, pair_cmp};

use crate::guid::Guid;
use crate::items::Duplicate;
use crate::text::Text;
use std::alloc::{AllocError, Global};

/// What names an element within a version. Keys are ordered by the model's name, then by identifier, both by their bytes.
#[derive(Debug, Drop, PartialEq, Eq, PartialOrd, Ord)]
pub struct ElementKey {
    /// The name of its model.
    pub model: Text,
    /// Its global identifier, which no other element of the model has.
    pub guid: Guid,
}

impl ElementKey {
    /// Whether it stands before the other key.
    pub fn is_below(&self, other: &ElementKey) -> bool
        ensures { result ≡ is_key_below self.now other.now }
    {
        self.cmp(other).is_lt()
    }
}

impl Duplicate for ElementKey {
    fn copy(&self, alloc: Global) -> Result<ElementKey, AllocError> {
        Ok(ElementKey {
            model: self.model.copy(alloc)?,
            guid: self.guid,
        })
    }
}

/// Two elements of a version that clash, the one with the lower key first, and the rule by which they do. Pairs are ordered by the first
/// element, then by the second, then by the rule.
#[derive(Debug, Drop, PartialEq, Eq, PartialOrd, Ord)]
pub struct Pair {
    pub a: ElementKey,
    pub b: ElementKey,
    /// The rule's number in the list, from 0.
    pub rule: u32,
}

impl Pair {
    /// Whether it stands before the other pair.
    pub fn is_before(&self, other: &Pair) -> bool
        ensures { result ≡ is_lt (pair_cmp self.now other.now) }
    {
        let order = self.cmp(other);
        order.is_lt()
    }
}

impl Duplicate for Pair {
    fn copy(&self, alloc: Global) -> Result<Pair, AllocError> {
        Ok(Pair {
            a: self.a.copy(alloc)?,
            b: self.b.copy(alloc)?,
            rule: self.rule,
        })
    }
}
