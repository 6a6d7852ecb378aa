//! How the text of a filter is read.
ghost use Rattle.std.specs.Prelude.{◌≡◌, IfOk};
ghost use Rattle.odata_filter.specs.FilterGrammar.{IsFilter};
ghost use Rattle.odata_filter.specs.inner.FilterSteps.{ended_at, ended};
ghost use Rattle.odata_filter.specs.Readings.{IsRead};

use crate::filter::Filter;
use crate::filter_error::FilterError;
use crate::filter_levels::closed;
use crate::filter_state::{Expected, Level, Levels, Reading, nothing_read};
use crate::filter_steps::step;
use crate::filter_tokens::next_token;
use crate::limits::MOST_FILTER;
use std::alloc::{AllocError, Global};

// The filter at the end of a text, where it may end: behind an operand, outside all parentheses.
fn ended_at(
    alloc: Global,
    levels: Levels,
    expected: &Expected,
) -> Result<Option<Filter>, AllocError>
    ensures { IfOk result (λ found. found ≡ ended_at levels levels.outer expected.now) }
{
    let Levels { inner, outer } = levels;
    if outer.len() > 0 {
        return Ok(None);
    }
    match expected {
        Expected::Joint => {
            let Level {
                either,
                both,
                base: _,
                depth: _,
            } = inner;
            closed(alloc, either, both)
        }
        _ => Ok(None),
    }
}

// The same of what has been read.
#[tactic(auto, unfolding(crate::specs::inner::FilterSteps::ended))]
fn ended(alloc: Global, read: Reading) -> Result<Option<Filter>, AllocError>
    ensures { IfOk result (λ found. found ≡ ended read) }
{
    let Reading { expected, levels } = read;
    ended_at(alloc, levels, &expected)
}

impl Filter {
    /// The filter that a text spells. `Bad` has the place where the text goes on as no filter does.
    pub fn read(alloc: Global, text: &[u8]) -> Result<Filter, FilterError>
        ensures { IsRead IsFilter text.now result }
    {
        if text.len() > MOST_FILTER {
            return Err(FilterError::Bad {
                at: MOST_FILTER as u64,
            });
        }
        let mut read = nothing_read(alloc);
        let mut at = 0;
        while let Some(token) = next_token(text, at) {
            match step(alloc, text, read, token)? {
                Some(next) => read = next,
                None => return Err(FilterError::Bad {
                    at: token.at as u64,
                }),
            }
            at = token.end;
        }
        match ended(alloc, read)? {
            Some(filter) => Ok(filter),
            None => Err(FilterError::Bad {
                at: text.len() as u64,
            }),
        }
    }
}
