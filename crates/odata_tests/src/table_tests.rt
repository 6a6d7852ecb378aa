//! The tables of filters, orders and lists.
use crate::joined_rows::JOINED_FILTERS;
use crate::listing_rows::LISTINGS;
use crate::long_rows::{LONG_FILTERS, LONG_ORDERS};
use crate::number_rows::NUMBER_FILTERS;
use crate::order_rows::ORDERS;
use crate::refused_joined_rows::REFUSED_JOINED;
use crate::refused_number_rows::REFUSED_NUMBERS;
use crate::refused_rows::REFUSED_FILTERS;
use crate::sample_topics::sample_topics;
use crate::table_rows::{ListingRow, LongRow, Row, Wanted};
use crate::text_rows::TEXT_FILTERS;
use bcf_topics::Topic;
use bim_model::Shared;
use odata_filter::{Filter, FilterError, Listing, Order};
use std::alloc::{AllocError, Global};
use std::mem::drop;
use std::process::Abort;
use std::test::Fail;

// Whether these places are those of the topics with these serial numbers.
fn are_of(places: &[u32], topics: &[Shared<Topic>], serials: &[u64]) -> bool {
    for (place, serial) in places.iter().zip(serials) {
        match topics.get(*place as usize) {
            Some(topic) => {
                if topic.get().serial != *serial {
                    return false;
                }
            }
            None => return false,
        }
    }
    places.len() == serials.len()
}

fn filter_of(alloc: Global, text: Option<&[u8]>) -> Result<Option<Filter>, FilterError> {
    match text {
        Some(text) => Ok(Some(Filter::read(alloc, text)?)),
        None => Ok(None),
    }
}

fn order_of(alloc: Global, text: Option<&[u8]>) -> Result<Option<Order>, FilterError> {
    match text {
        Some(text) => Ok(Some(Order::read(alloc, text)?)),
        None => Ok(None),
    }
}

// The places of the topics that the texts list.
fn listed(
    alloc: Global,
    topics: &[Shared<Topic>],
    filter: Option<&[u8]>,
    order: Option<&[u8]>,
    skip: u64,
    top: Option<u64>,
) -> Result<Vec<u32>, FilterError> {
    let order = order_of(alloc, order)?;
    let filter = filter_of(alloc, filter)?;
    let listing = Listing {
        filter,
        order,
        skip,
        top,
    };
    let places = listing.places(alloc, topics);
    drop(listing);
    Ok(places?)
}

// Whether the topics at these places are wanted, or a text is refused where that is wanted.
fn is_as_wanted(
    found: Result<Vec<u32>, FilterError>,
    topics: &[Shared<Topic>],
    wanted: Wanted,
) -> Result<bool, AllocError> {
    match found {
        Ok(places) => match wanted {
            Ok(serials) => Ok(are_of(&places, topics, serials)),
            Err(_) => Ok(false),
        },
        Err(FilterError::Bad { at }) => match wanted {
            Ok(_) => Ok(false),
            Err(place) => Ok(at == place),
        },
        Err(FilterError::Memory) => Err(AllocError),
    }
}

// The first filter of a table that isn't as wanted.
fn wrong_filter(
    alloc: Global,
    topics: &[Shared<Topic>],
    rows: &[Row],
) -> Result<Option<&'static str>, AllocError> {
    for (text, wanted) in rows {
        let found = listed(alloc, topics, Some(text.as_bytes()), None, 0, None);
        if !is_as_wanted(found, topics, *wanted)? {
            return Ok(Some(*text));
        }
    }
    Ok(None)
}

fn filters_are_as_wanted(rt: &impl Abort, alloc: Global, rows: &[Row]) -> Result<(), Fail> {
    let topics = sample_topics(alloc)?;
    let wrong = wrong_filter(alloc, &topics, rows);
    drop(topics);
    assert_eq!(rt; wrong?, None);
    Ok(())
}

// The first order that isn't as wanted.
fn wrong_order(
    alloc: Global,
    topics: &[Shared<Topic>],
) -> Result<Option<&'static str>, AllocError> {
    for (text, wanted) in ORDERS.iter() {
        let found = listed(alloc, topics, None, Some(text.as_bytes()), 0, None);
        if !is_as_wanted(found, topics, *wanted)? {
            return Ok(Some(*text));
        }
    }
    Ok(None)
}

// The text of a long row.
fn long_text(alloc: Global, row: &LongRow) -> Result<Vec<u8>, AllocError> {
    let (first, repeated, count, last, _) = *row;
    let mut text = Vec::new(alloc);
    text.extend_from_slice(first.as_bytes())?;
    for _ in 0..count {
        text.extend_from_slice(repeated.as_bytes())?;
    }
    text.extend_from_slice(last.as_bytes())?;
    Ok(text)
}

// The first long filter that isn't as wanted.
fn wrong_long_filter(
    alloc: Global,
    topics: &[Shared<Topic>],
) -> Result<Option<LongRow>, AllocError> {
    for row in LONG_FILTERS.iter() {
        let text = long_text(alloc, row)?;
        let found = listed(alloc, topics, Some(text.as_slice()), None, 0, None);
        if !is_as_wanted(found, topics, row.4)? {
            return Ok(Some(*row));
        }
    }
    Ok(None)
}

// The first long order that isn't as wanted.
fn wrong_long_order(
    alloc: Global,
    topics: &[Shared<Topic>],
) -> Result<Option<LongRow>, AllocError> {
    for row in LONG_ORDERS.iter() {
        let text = long_text(alloc, row)?;
        let found = listed(alloc, topics, None, Some(text.as_slice()), 0, None);
        if !is_as_wanted(found, topics, row.4)? {
            return Ok(Some(*row));
        }
    }
    Ok(None)
}

fn bytes_of<'t>(text: Option<&'t str>) -> Option<&'t [u8]> {
    match text {
        Some(text) => Some(text.as_bytes()),
        None => None,
    }
}

// The first listing that isn't as wanted.
fn wrong_listing(
    alloc: Global,
    topics: &[Shared<Topic>],
) -> Result<Option<ListingRow>, AllocError> {
    for row in LISTINGS.iter() {
        let found = listed(
            alloc,
            topics,
            bytes_of(row.0),
            bytes_of(row.1),
            row.2,
            row.3,
        );
        if !is_as_wanted(found, topics, Ok(row.4))? {
            return Ok(Some(*row));
        }
    }
    Ok(None)
}

#[test]
fn filters_by_texts_keep_what_they_say(rt: HostRuntime) -> Result<(), Fail> {
    filters_are_as_wanted(&rt, rt.alloc(), &TEXT_FILTERS)
}

#[test]
fn filters_by_numbers_and_dates_keep_what_they_say(rt: HostRuntime) -> Result<(), Fail> {
    filters_are_as_wanted(&rt, rt.alloc(), &NUMBER_FILTERS)
}

#[test]
fn joined_filters_keep_what_they_say(rt: HostRuntime) -> Result<(), Fail> {
    filters_are_as_wanted(&rt, rt.alloc(), &JOINED_FILTERS)
}

#[test]
fn texts_that_are_no_filters_are_refused(rt: HostRuntime) -> Result<(), Fail> {
    filters_are_as_wanted(&rt, rt.alloc(), &REFUSED_FILTERS)
}

#[test]
fn numbers_and_dates_that_are_none_are_refused(rt: HostRuntime) -> Result<(), Fail> {
    filters_are_as_wanted(&rt, rt.alloc(), &REFUSED_NUMBERS)
}

#[test]
fn joined_filters_that_are_none_are_refused(rt: HostRuntime) -> Result<(), Fail> {
    filters_are_as_wanted(&rt, rt.alloc(), &REFUSED_JOINED)
}

#[test]
fn orders_order_as_they_say(rt: HostRuntime) -> Result<(), Fail> {
    let topics = sample_topics(rt.alloc())?;
    let wrong = wrong_order(rt.alloc(), &topics);
    drop(topics);
    assert_eq!(rt; wrong?, None);
    Ok(())
}

#[test]
fn long_filters_are_read_up_to_their_bound(rt: HostRuntime) -> Result<(), Fail> {
    let topics = sample_topics(rt.alloc())?;
    let wrong = wrong_long_filter(rt.alloc(), &topics);
    drop(topics);
    assert_eq!(rt; wrong?, None);
    Ok(())
}

#[test]
fn long_orders_are_read_up_to_their_bound(rt: HostRuntime) -> Result<(), Fail> {
    let topics = sample_topics(rt.alloc())?;
    let wrong = wrong_long_order(rt.alloc(), &topics);
    drop(topics);
    assert_eq!(rt; wrong?, None);
    Ok(())
}

#[test]
fn lists_have_the_pages_that_are_asked_for(rt: HostRuntime) -> Result<(), Fail> {
    let topics = sample_topics(rt.alloc())?;
    let wrong = wrong_listing(rt.alloc(), &topics);
    drop(topics);
    assert_eq!(rt; wrong?, None);
    Ok(())
}
