//! Which of a project's topics a query asks for.
ghost use Rattle.std.specs.Prelude.{◌≡◌, IfOk};
ghost use Rattle.form_urlencoded.specs.Form.{raw_pairs};
ghost use Rattle.http_routes.specs.Queries.{form_text, IsAsMeant};
ghost use Rattle.http_routes.specs.ListQueries.{no_list, if_first, with_filter, with_order, with_skip, with_top, with_list_pair, list_by, list_asked};

use crate::query::{PageError, QueryName, if_new, number_given, stands_for};
use bim_model::Text;
use form_urlencoded::{decode, raw_pairs};
use std::alloc::{AllocError, Global};

/// Which of a project's topics a query asks for, as it spells them (OData 4.01, Part 2, 5.1). The two texts aren't read
/// yet; bytes of them that are no UTF-8 have become U+FFFD.
#[derive(Drop)]
pub struct ListAsked {
    /// `$filter`
    pub filter: Option<Text>,
    /// `$orderby`
    pub order: Option<Text>,
    /// `$skip`: how many of the first are left out.
    pub skip: Option<u64>,
    /// `$top`: how many are listed at most, after those.
    pub top: Option<u64>,
}

// The text that a value stands for.
fn text_given(alloc: Global, value: &[u8]) -> Result<Text, AllocError>
    ensures { IfOk result (λ text. text ≡ form_text value.now) }
{
    let decoded = decode(alloc, value)?;
    Text::of(alloc, decoded.as_str())
}

// A text where none was given before.
fn if_first(before: &Option<Text>, text: Text) -> Option<Text>
    ensures { result ≡ if_first before.now text }
{
    match before {
        Some(_) => None,
        None => Some(text),
    }
}

fn with_filter(asked: ListAsked, text: Option<Text>) -> Result<ListAsked, PageError>
    ensures { IsAsMeant result (with_filter asked text) }
{
    let ListAsked {
        order,
        skip,
        top,
        ..
    } = asked;
    match text {
        Some(text) => Ok(ListAsked {
            filter: Some(text),
            order,
            skip,
            top,
        }),
        None => Err(PageError::Bad(QueryName::Filter)),
    }
}

fn with_order(asked: ListAsked, text: Option<Text>) -> Result<ListAsked, PageError>
    ensures { IsAsMeant result (with_order asked text) }
{
    let ListAsked {
        filter,
        skip,
        top,
        ..
    } = asked;
    match text {
        Some(text) => Ok(ListAsked {
            filter,
            order: Some(text),
            skip,
            top,
        }),
        None => Err(PageError::Bad(QueryName::OrderBy)),
    }
}

fn with_skip(asked: ListAsked, number: Option<u64>) -> Result<ListAsked, PageError>
    ensures { IsAsMeant result (with_skip asked number) }
{
    let ListAsked {
        filter,
        order,
        top,
        ..
    } = asked;
    match number {
        Some(number) => Ok(ListAsked {
            filter,
            order,
            skip: Some(number),
            top,
        }),
        None => Err(PageError::Bad(QueryName::Skip)),
    }
}

fn with_top(asked: ListAsked, number: Option<u64>) -> Result<ListAsked, PageError>
    ensures { IsAsMeant result (with_top asked number) }
{
    let ListAsked {
        filter,
        order,
        skip,
        ..
    } = asked;
    match number {
        Some(number) => Ok(ListAsked {
            filter,
            order,
            skip,
            top: Some(number),
        }),
        None => Err(PageError::Bad(QueryName::Top)),
    }
}

// What is asked for with one more pair of a name and a value.
fn with_list_pair(
    alloc: Global,
    asked: ListAsked,
    name: &[u8],
    value: &[u8],
) -> Result<ListAsked, PageError>
    ensures { IsAsMeant result (with_list_pair asked (form_text name.now) (form_text value.now)) }
{
    if stands_for(alloc, name, "$filter")? {
        let text = if_first(&asked.filter, text_given(alloc, value)?);
        return with_filter(asked, text);
    }
    if stands_for(alloc, name, "$orderby")? {
        let text = if_first(&asked.order, text_given(alloc, value)?);
        return with_order(asked, text);
    }
    if stands_for(alloc, name, "$skip")? {
        let number = number_given(alloc, value)?;
        let number = if_new(asked.skip, number);
        return with_skip(asked, number);
    }
    if stands_for(alloc, name, "$top")? {
        let number = number_given(alloc, value)?;
        let number = if_new(asked.top, number);
        return with_top(asked, number);
    }
    Ok(asked)
}

// What the pairs of a query ask for.
fn list_by(alloc: Global, query: &[u8]) -> Result<ListAsked, PageError>
    ensures { IsAsMeant result (list_by no_list (raw_pairs query.now)) }
{
    let mut asked = ListAsked {
        filter: None,
        order: None,
        skip: None,
        top: None,
    };
    let mut pairs = raw_pairs(query);
    while let Some((name, value)) = pairs.next() {
        asked = with_list_pair(alloc, asked, name, value)?;
    }
    Ok(asked)
}

/// Which topics a query asks for by `$filter`, `$orderby`, `$skip` and `$top`; other names are passed over. `Bad` names the
/// first part of the query, in the order of its text, whose name stood before, or a number that isn't 1 to 15 digits.
#[tactic(auto, unfolding(crate::specs::ListQueries::list_asked))]
pub fn list_asked(alloc: Global, query: &[u8]) -> Result<ListAsked, PageError>
    ensures { IsAsMeant result (list_asked query.now) }
{
    list_by(alloc, query)
}
