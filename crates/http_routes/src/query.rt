//! The queries of targets.
ghost use Rattle.std.specs.Prelude.{◌≡◌, [], ◌∷◌, bytes_eq, IfOk, MatchOption};
ghost use Rattle.form_urlencoded.specs.Parse.{raw_pairs_left};
ghost use Rattle.form_urlencoded.specs.Form.{raw_pairs};
ghost use Rattle.http_routes.specs.Queries.{form_text, values_given, mode_in, grid_asked, if_new, with_first, with_count, with_pair, given_by, nothing_given, page_asked, IsAsMeant};
ghost use Rattle.http_routes.specs.PathNumbers.{number_in};

use crate::number_forms::{number_in, number_within};
use crate::paths::is_same;
use bim_model::Mode;
use form_urlencoded::{RawPairs, decode, raw_pairs};
use std::alloc::{AllocError, Global};

/// The most pairs of a reply.
pub const MOST_PAIRS: u64 = 1_000;

/// The name of a parameter of a query.
#[derive(Clone, Copy, Debug, PartialEq, Eq)]
pub enum QueryName {
    /// `grid`, of a model.
    Grid,
    /// `first`, of clashes.
    First,
    /// `count`, of clashes.
    Count,
    /// `$filter`, of topics.
    Filter,
    /// `$orderby`, of topics.
    OrderBy,
    /// `$skip`, of topics.
    Skip,
    /// `$top`, of topics.
    Top,
}

/// Which part of a list of pairs is asked for.
#[derive(Clone, Copy, Debug, PartialEq, Eq)]
pub struct Page {
    /// The place of the first pair, from 0.
    pub first: u64,
    /// How many pairs are asked for: 1 to 1,000.
    pub count: u64,
}

/// What a query has given so far.
#[derive(Clone, Copy, Debug, PartialEq, Eq)]
pub struct PageGiven {
    pub first: Option<u64>,
    pub count: Option<u64>,
}

/// Why a query asks for no part of a list.
#[derive(Clone, Copy, Debug, PartialEq, Eq)]
pub enum PageError {
    /// This parameter stands twice, or has a value that it may not have.
    Bad(QueryName),
    Memory,
}

impl From<AllocError> for PageError {
    ghost from_gives = { λ _ e. e ≡ Memory };

    ghost use Rattle.std.specs.Prelude.{◌≡◌};
    ghost use Rattle.http_routes.specs.declared.query.PageError.TheVariants.{Memory};

    fn from(_: AllocError) -> PageError {
        PageError::Memory
    }
}

/// Whether a part of a form stands for the text.
pub fn stands_for(alloc: Global, part: &[u8], text: &str) -> Result<bool, AllocError>
    ensures { IfOk result (λ is. is ≡ bytes_eq (form_text part.now) text.now) }
{
    let decoded = decode(alloc, part)?;
    Ok(is_same(decoded.as_str().as_bytes(), text))
}

// The next value that is given to a name, still encoded: what is left then stands behind it.
fn next_given<'q>(
    alloc: Global,
    pairs: &mut RawPairs<'q>,
    name: &str,
) -> Result<Option<&'q [u8]>, AllocError>
    ensures { IfOk result (λ found. MatchOption found
        (values_given name.now (raw_pairs_left pairs.old) ≡ [])
        (λ value. values_given name.now (raw_pairs_left pairs.old)
        ≡ form_text value.now ∷ values_given name.now (raw_pairs_left pairs.new))) }
{
    while let Some((key, value)) = pairs.next() {
        if stands_for(alloc, key, name)? {
            return Ok(Some(value));
        }
    }
    Ok(None)
}

// How lengths come on the grid by a value.
fn mode_in(alloc: Global, value: &[u8]) -> Result<Option<Mode>, AllocError>
    ensures { IfOk result (λ mode. mode ≡ mode_in (form_text value.now)) }
{
    let decoded = decode(alloc, value)?;
    if is_same(decoded.as_str().as_bytes(), "exact") {
        return Ok(Some(Mode::Exact));
    }
    if is_same(decoded.as_str().as_bytes(), "snap") {
        return Ok(Some(Mode::Snap));
    }
    Ok(None)
}

/// How lengths come on the grid by a query: exactly, where it doesn't say; `None` where `grid` stands twice
/// or has another value than `exact` and `snap`.
#[tactic(auto, unfolding(crate::specs::Queries::grid_asked))]
pub fn grid_asked(alloc: Global, query: &[u8]) -> Result<Option<Mode>, AllocError>
    ensures { IfOk result (λ mode. mode ≡ grid_asked query.now) }
{
    let mut pairs = raw_pairs(query);
    let Some(value) = next_given(alloc, &mut pairs, "grid")? else {
        return Ok(Some(Mode::Exact));
    };
    if next_given(alloc, &mut pairs, "grid")?.is_some() {
        return Ok(None);
    }
    mode_in(alloc, value)
}

/// A number that a value spells, or none.
pub fn number_given(alloc: Global, value: &[u8]) -> Result<Option<u64>, AllocError>
    ensures { IfOk result (λ number. number ≡ number_in (form_text value.now)) }
{
    let decoded = decode(alloc, value)?;
    Ok(number_in(decoded.as_str()))
}

/// A number where none was given before.
pub fn if_new(before: Option<u64>, number: Option<u64>) -> Option<u64>
    ensures { result ≡ if_new before number }
{
    match before {
        Some(_) => None,
        None => number,
    }
}

fn with_first(given: PageGiven, number: Option<u64>) -> Result<PageGiven, PageError>
    ensures { IsAsMeant result (with_first given number) }
{
    match number {
        Some(number) => Ok(PageGiven {
            first: Some(number),
            count: given.count,
        }),
        None => Err(PageError::Bad(QueryName::First)),
    }
}

fn with_count(given: PageGiven, number: Option<u64>) -> Result<PageGiven, PageError>
    ensures { IsAsMeant result (with_count given number) }
{
    match number {
        Some(number) => Ok(PageGiven {
            first: given.first,
            count: Some(number),
        }),
        None => Err(PageError::Bad(QueryName::Count)),
    }
}

// What is given with one more pair of a name and a value.
fn with_pair(
    alloc: Global,
    given: PageGiven,
    name: &[u8],
    value: &[u8],
) -> Result<PageGiven, PageError>
    ensures { IsAsMeant result (with_pair given (form_text name.now) (form_text value.now)) }
{
    if stands_for(alloc, name, "first")? {
        let number = number_given(alloc, value)?;
        return with_first(given, if_new(given.first, number));
    }
    if stands_for(alloc, name, "count")? {
        let number = number_within(1, MOST_PAIRS, number_given(alloc, value)?);
        return with_count(given, if_new(given.count, number));
    }
    Ok(given)
}

// What the pairs of a query give.
fn given_by(alloc: Global, query: &[u8]) -> Result<PageGiven, PageError>
    ensures { IsAsMeant result (given_by nothing_given (raw_pairs query.now)) }
{
    let mut given = PageGiven {
        first: None,
        count: None,
    };
    let mut pairs = raw_pairs(query);
    while let Some((name, value)) = pairs.next() {
        given = with_pair(alloc, given, name, value)?;
    }
    Ok(given)
}

/// Which pairs a query asks for: from the first on, and 1,000, where it doesn't say. `Bad` names the first part of the
/// query, in the order of its text, that stands twice or has a value that it may not have.
#[tactic(auto, unfolding(crate::specs::Queries::page_asked))]
pub fn page_asked(alloc: Global, query: &[u8]) -> Result<Page, PageError>
    ensures { IsAsMeant result (page_asked query.now) }
{
    let given = given_by(alloc, query)?;
    Ok(Page {
        first: given.first.unwrap_or(0),
        count: given.count.unwrap_or(MOST_PAIRS),
    })
}
