//! How the topics of a project are listed, by the texts of a query.
ghost use Rattle.odata_filter.specs.FilterGrammar.{IsFilter};
ghost use Rattle.odata_filter.specs.OrderGrammar.{IsOrder};
ghost use Rattle.bcf_http.specs.ListRequests.{SpellsIf, IsBadAt, IsListingOf};
ghost use Rattle.std.specs.Prelude.{◌≡◌, false, IfOk, IfErr};
ghost use Rattle.odata_filter.specs.declared.filter_error.FilterError.TheVariants.{Bad};

use crate::asked::{Refusal, RequestFault};
use bim_model::Text;
use http_routes::ListAsked;
use odata_filter::{Filter, FilterError, Listing, Order};
use std::alloc::Global;
use std::mem::drop;

// The filter that a text spells, if there is one.
fn filter_of(alloc: Global, text: &Option<Text>) -> Result<Option<Filter>, FilterError>
    ensures read { IfOk result (SpellsIf IsFilter text.now) }
    ensures bad { IfErr result (λ error. (at : _) → error ≡ Bad at → IsBadAt IsFilter text.now at) }
{
    match text {
        Some(text) => Ok(Some(Filter::read(alloc, text.as_str().as_bytes())?)),
        None => Ok(None),
    }
}

// The order that a text spells, if there is one.
fn order_of(alloc: Global, text: &Option<Text>) -> Result<Option<Order>, FilterError>
    ensures read { IfOk result (SpellsIf IsOrder text.now) }
    ensures bad { IfErr result (λ error. (at : _) → error ≡ Bad at → IsBadAt IsOrder text.now at) }
{
    match text {
        Some(text) => Ok(Some(Order::read(alloc, text.as_str().as_bytes())?)),
        None => Ok(None),
    }
}

// The listing that a query asks for; or the place where the text of its filter, or else that of its order, goes on as
// none does.
fn listing_asked(alloc: Global, asked: &ListAsked) -> Result<Listing, Refusal>
    ensures { IsListingOf asked.now false result }
{
    let filter = match filter_of(alloc, &asked.filter) {
        Ok(filter) => filter,
        Err(FilterError::Bad { at }) => return Err(Refusal::Fault(RequestFault::Filter { at })),
        Err(FilterError::Memory) => return Err(Refusal::Memory),
    };
    match order_of(alloc, &asked.order) {
        Ok(order) => Ok(Listing {
            filter,
            order,
            skip: asked.skip.unwrap_or(0),
            top: asked.top,
        }),
        Err(FilterError::Bad { at }) => Err(Refusal::Fault(RequestFault::Order { at })),
        Err(FilterError::Memory) => Err(Refusal::Memory),
    }
}

/// The listing that a query asks for; or the first of these faults: of the text of its filter, of that of its order, of the
/// turn that its request gives.
pub fn listing_of(alloc: Global, asked: &ListAsked, bad_turn: bool) -> Result<Listing, Refusal>
    ensures { IsListingOf asked.now bad_turn result }
{
    let listing = listing_asked(alloc, asked)?;
    if bad_turn {
        drop(listing);
        return Err(Refusal::Fault(RequestFault::BadTurn));
    }
    Ok(listing)
}
