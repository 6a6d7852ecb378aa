//! How what has been read of a filter goes on: operands that stand complete, `not`, `or` and parentheses.
ghost use Rattle.std.specs.Prelude.{◌≡◌, ◌-◌, ◌++◌, ◌∷◌, [], Some, None, option_map, IfOk};
ghost use Rattle.odata_filter.specs.Conditions.{Both, Either, Tested};
ghost use Rattle.odata_filter.specs.inner.FilterSteps.{negated, joined, level_with, completed, closed, with_not, with_group, with_or, split_last, without_group, tested};

use crate::filter::Filter;
use crate::filter_state::{Expected, Level, Levels, Reading, empty_level};
use crate::limits::MOST_NESTED;
use crate::topic_test::TopicTest;
use bim_model::Items;
use std::alloc::{AllocError, Global};

// A filter behind so many `not`.
fn negated(alloc: Global, count: u32, filter: Filter) -> Result<Filter, AllocError>
    ensures { IfOk result (λ made. made ≡ negated count filter) }
{
    let mut made = filter;
    for _ in 0..count {
        made = Filter::negated(alloc, made)?;
    }
    Ok(made)
}

fn joined_by_and(
    alloc: Global,
    before: Option<Filter>,
    filter: Filter,
) -> Result<Filter, AllocError>
    ensures { IfOk result (λ made. made ≡ joined Both before filter) }
{
    match before {
        Some(before) => Filter::both(alloc, before, filter),
        None => Ok(filter),
    }
}

fn joined_by_or(alloc: Global, before: Option<Filter>, filter: Filter) -> Result<Filter, AllocError>
    ensures { IfOk result (λ made. made ≡ joined Either before filter) }
{
    match before {
        Some(before) => Filter::either(alloc, before, filter),
        None => Ok(filter),
    }
}

// An operand of a level stands complete: its `not` end here, and it joins those before it by `and`.
fn level_with(alloc: Global, level: Level, filter: Filter) -> Result<Level, AllocError>
    ensures { IfOk result (λ made. made ≡ level_with level filter) }
{
    let Level {
        either,
        both,
        base,
        depth,
    } = level;
    let operand = negated(alloc, depth.saturating_sub(base), filter)?;
    let both = joined_by_and(alloc, both, operand)?;
    Ok(Level {
        either,
        both: Some(both),
        base,
        depth: base,
    })
}

fn completed(
    alloc: Global,
    level: Level,
    outer: Items<Level>,
    filter: Filter,
) -> Result<Reading, AllocError>
    ensures { IfOk result (λ reading. reading ≡ completed level outer filter) }
{
    let inner = level_with(alloc, level, filter)?;
    Ok(Reading {
        expected: Expected::Joint,
        levels: Levels { inner, outer },
    })
}

/// A test is an operand that stands complete.
pub fn tested(alloc: Global, levels: Levels, test: TopicTest) -> Result<Reading, AllocError>
    ensures { IfOk result (λ next. next ≡ tested levels test) }
{
    let Levels { inner, outer } = levels;
    completed(alloc, inner, outer, Filter::tested(test))
}

/// The filter that a level has come to: what `and` joined, behind what `or` joined.
pub fn closed(
    alloc: Global,
    either: Option<Filter>,
    both: Option<Filter>,
) -> Result<Option<Filter>, AllocError>
    ensures { IfOk result (λ found. found ≡ option_map (λ x. joined Either either x) both) }
{
    match both {
        Some(both) => Ok(Some(joined_by_or(alloc, either, both)?)),
        None => Ok(None),
    }
}

/// Behind `not`, where one more may be open.
pub fn with_not(levels: Levels) -> Option<Reading>
    ensures { result ≡ with_not levels }
{
    let mut levels = levels;
    if levels.inner.depth < MOST_NESTED {
        levels.inner.depth += 1;
        Some(Reading {
            expected: Expected::Operand,
            levels,
        })
    } else {
        None
    }
}

/// Behind `(`, where one more may be open.
pub fn with_group(levels: Levels) -> Result<Option<Reading>, AllocError>
    ensures { IfOk result (λ next. next ≡ with_group levels) }
{
    if levels.inner.depth < MOST_NESTED {
        let depth = levels.inner.depth + 1;
        let Levels { inner, mut outer } = levels;
        outer.push(inner)?;
        Ok(Some(Reading {
            expected: Expected::Operand,
            levels: Levels {
                inner: empty_level(depth),
                outer,
            },
        }))
    } else {
        Ok(None)
    }
}

/// Behind `or`, which a filter stands before.
pub fn with_or(alloc: Global, levels: Levels) -> Result<Option<Reading>, AllocError>
    ensures { IfOk result (λ next. next ≡ with_or levels (closed levels.inner)) }
{
    let Levels { inner, outer } = levels;
    let Level {
        either,
        both,
        base,
        depth,
    } = inner;
    match closed(alloc, either, both)? {
        Some(filter) => Ok(Some(Reading {
            expected: Expected::Operand,
            levels: Levels {
                inner: Level {
                    either: Some(filter),
                    both: None,
                    base,
                    depth,
                },
                outer,
            },
        })),
        None => Ok(None),
    }
}

// A list of levels without its last one, and that one.
fn split_last(outer: Items<Level>) -> Option<(Items<Level>, Level)>
    ensures { result ≡ split_last outer }
{
    let mut levels = outer.into_vec();
    match levels.pop() {
        Some(level) => Some((Items::from_vec(levels), level)),
        None => None,
    }
}

/// Behind `)`: the filter in the parentheses is an operand of the level around them.
pub fn without_group(alloc: Global, levels: Levels) -> Result<Option<Reading>, AllocError>
    ensures { IfOk result (λ next. next ≡ without_group (split_last levels.outer) (closed levels.inner)) }
{
    let Levels { inner, outer } = levels;
    let Level {
        either,
        both,
        base: _,
        depth: _,
    } = inner;
    match split_last(outer) {
        Some((outer, around)) => match closed(alloc, either, both)? {
            Some(filter) => Ok(Some(completed(alloc, around, outer, filter)?)),
            None => Ok(None),
        },
        None => Ok(None),
    }
}
