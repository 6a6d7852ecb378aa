//! The operators that compare a member with a literal.
ghost use Rattle.std.specs.Prelude.{◌≡◌};
ghost use Rattle.odata_filter.specs.Conditions.{holds, holds_of_none};
ghost use Rattle.odata_filter.specs.FilterGrammar.{comparison_named};

use std::cmp::Ordering;

/// An operator that compares a member with a literal (OData 4.01, Part 2, 5.1.1.1).
#[derive(Clone, Copy, Debug, PartialEq, Eq)]
pub enum Comparison {
    /// `eq`
    Equal,
    /// `ne`, the only one that holds of an absent member.
    NotEqual,
    /// `gt`
    Greater,
    /// `ge`
    AtLeast,
    /// `lt`
    Less,
    /// `le`
    AtMost,
}

impl Comparison {
    /// The operator of that name.
    #[tactic(auto, unfolding(crate::specs::FilterGrammar::comparison_named))]
    pub fn named(name: &[u8]) -> Option<Comparison>
        ensures { result ≡ comparison_named name.now }
    {
        if name == "eq".as_bytes() {
            return Some(Comparison::Equal);
        }
        if name == "ne".as_bytes() {
            return Some(Comparison::NotEqual);
        }
        if name == "gt".as_bytes() {
            return Some(Comparison::Greater);
        }
        if name == "ge".as_bytes() {
            return Some(Comparison::AtLeast);
        }
        if name == "lt".as_bytes() {
            return Some(Comparison::Less);
        }
        if name == "le".as_bytes() {
            return Some(Comparison::AtMost);
        }
        None
    }

    /// Whether it holds of two values that stand so to each other.
    pub fn holds(self, order: Ordering) -> bool
        ensures { result ≡ holds self order }
    {
        match self {
            Comparison::Equal => order.is_eq(),
            Comparison::NotEqual => order.is_ne(),
            Comparison::Greater => order.is_gt(),
            Comparison::AtLeast => order.is_ge(),
            Comparison::Less => order.is_lt(),
            Comparison::AtMost => order.is_le(),
        }
    }

    /// Whether it holds of an absent value: only `ne` does.
    pub fn holds_of_none(self) -> bool
        ensures { result ≡ holds_of_none self }
    {
        matches!(self, Comparison::NotEqual)
    }
}
