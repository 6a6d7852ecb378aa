//! What has been read of a filter so far.
ghost use Rattle.std.specs.Prelude.{◌≡◌};
ghost use Rattle.odata_filter.specs.inner.FilterSteps.{empty_level, nothing_read};

use crate::comparison::Comparison;
use crate::filter::Filter;
use crate::topic_members::{Member, TextMember};
use crate::topic_test::TopicTest;
use bim_model::Items;
use std::alloc::Global;

/// What `contains` searches.
#[derive(Clone, Copy)]
pub enum Searched {
    InLabels,
    InMember(TextMember),
}

/// What may come next.
#[derive(Drop)]
pub enum Expected {
    /// `not`, `(`, `contains` or a member.
    Operand,
    Operator(Member),
    Literal(Member, Comparison),
    /// The parenthesis behind `contains`.
    SearchOpen,
    SearchMember,
    SearchComma(Searched),
    SearchText(Searched),
    /// The parenthesis behind the text.
    SearchClose(TopicTest),
    /// `and`, `or`, `)` or the end.
    Joint,
}

/// What stands in one pair of parentheses, or outside all.
#[derive(Drop)]
pub struct Level {
    /// What `or` has joined so far.
    pub either: Option<Filter>,
    /// What `and` has joined so far, behind that.
    pub both: Option<Filter>,
    /// How many `not` and `(` are open around it, its own parenthesis counted.
    pub base: u32,
    /// The same with the `not` before the operand that is being read.
    pub depth: u32,
}

/// The parentheses that are open, and what stands outside all.
#[derive(Drop)]
pub struct Levels {
    /// The innermost one.
    pub inner: Level,
    /// Those around it, the outermost first.
    pub outer: Items<Level>,
}

/// What has been read of a filter so far.
#[derive(Drop)]
pub struct Reading {
    pub expected: Expected,
    pub levels: Levels,
}

/// Nothing, within parentheses behind so many `not` and `(`.
pub fn empty_level(depth: u32) -> Level
    ensures { result ≡ empty_level depth }
{
    Level {
        either: None,
        both: None,
        base: depth,
        depth,
    }
}

/// Nothing yet.
pub fn nothing_read(alloc: Global) -> Reading
    ensures { result ≡ nothing_read }
{
    Reading {
        expected: Expected::Operand,
        levels: Levels {
            inner: empty_level(0),
            outer: Items::new(alloc),
        },
    }
}
