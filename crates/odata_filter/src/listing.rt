//! Lists of topics.
ghost use Rattle.std.specs.Prelude.{◌≡◌, ◌<◌, ◌≤◌, ◌++◌, ℕ, List, length, IfOk};
ghost use Rattle.std.specs.List.Sorted.{IsPermutation, IsSorted};
ghost use Rattle.odata_filter.specs.Listings.{kept, kept_from, keys_of, by_places, page_of, IsListed};
ghost use Rattle.odata_filter.specs.inner.PageFronts.{NoneBefore, IsFront};

use crate::filter::Filter;
use crate::topic_order::{Order, OrderKey, by_keys};
use bcf_topics::Topic;
use bim_model::Shared;
use std::alloc::{AllocError, Global};
use std::cmp::Ordering;

/// Which topics a list has, and in which order.
#[derive(Drop)]
pub struct Listing {
    /// What keeps the topics that are listed; all are where there is none.
    pub filter: Option<Filter>,
    /// What they are ordered by; those that tie stay in the order in which they are given.
    pub order: Option<Order>,
    /// How many of the first are left out.
    pub skip: u64,
    /// How many are listed at most, after those.
    pub top: Option<u64>,
}

fn kept(filter: &Option<Filter>, topic: &Topic) -> bool
    ensures { result ≡ kept filter.now topic.now }
{
    match filter {
        Some(filter) => filter.keeps(topic),
        None => true,
    }
}

// The places of the topics that are kept, rising.
fn kept_places(
    alloc: Global,
    filter: &Option<Filter>,
    topics: &[Shared<Topic>],
) -> Result<Vec<u32>, AllocError>
    requires { length topics.now ≤ 4294967295 }
    ensures { IfOk result (λ places. places.items ≡ kept_from 0 filter.now topics.now) }
{
    let mut places = Vec::new(alloc);
    let mut place = 0;
    for topic in topics {
        if kept(filter, topic.get()) {
            places.push(place)?;
        }
        place += 1;
    }
    Ok(places)
}

// The members to order by; none without an order.
fn keys_of(order: &Option<Order>) -> &[OrderKey]
    ensures { result.now ≡ keys_of order.now }
{
    match order {
        Some(order) => order.keys(),
        None => &[],
    }
}

// Two places by their topics, and those that tie by the places themselves.
#[tactic(auto, unfolding(crate::specs::Listings::by_places))]
fn by_places(keys: &[OrderKey], topics: &[Shared<Topic>], i: u32, j: u32) -> Ordering
    ensures { result ≡ by_places keys.now topics.now i j }
{
    let order = match topics.get(i as usize) {
        Some(x) => match topics.get(j as usize) {
            Some(y) => by_keys(keys, x.get(), y.get()),
            None => Ordering::Greater,
        },
        None => match topics.get(j as usize) {
            Some(_) => Ordering::Less,
            None => Ordering::Equal,
        },
    };
    order.then(i.cmp(&j))
}

// So many of the places that come first, in no stated order.
fn select(
    alloc: Global,
    keys: &[OrderKey],
    topics: &[Shared<Topic>],
    places: &mut [u32],
    count: usize,
) -> Result<Vec<u32>, AllocError>
    requires { count < length places.old }
    ensures { IfOk result (λ front. (rest : List ℕ) × IsPermutation places.old (front.items ++ rest)
        × NoneBefore (by_places keys.now topics.now) front.items rest × (length front.items ≡ count)) }
{
    let (front, _, _) = places.select_nth_unstable_by(
        count,
        |i, j| by_places(keys, topics, *i, *j),
    );
    let kept = Vec::from_slice(alloc, front)?;
    Ok(kept)
}

// The places that a page needs, so that the others need no order.
fn front_of(
    alloc: Global,
    keys: &[OrderKey],
    topics: &[Shared<Topic>],
    places: Vec<u32>,
    skip: u64,
    top: Option<u64>,
) -> Result<Vec<u32>, AllocError>
    ensures { IfOk result (λ front.
        IsFront (by_places keys.now topics.now) skip top places.items front.items) }
{
    let mut places = places;
    if let Some(top) = top {
        let needed = skip.saturating_add(top);
        if needed < places.len() as u64 {
            let front = select(alloc, keys, topics, places.as_mut_slice(), needed as usize)?;
            return Ok(front);
        }
    }
    Ok(places)
}

// The places in their order.
fn sort(keys: &[OrderKey], topics: &[Shared<Topic>], places: &mut Vec<u32>)
    ensures permutation { IsPermutation places.old.items places.new.items }
    ensures sorted { IsSorted (by_places keys.now topics.now) places.new.items }
{
    places.sort_unstable_by(|i, j| by_places(keys, topics, *i, *j));
}

// A part of a list.
fn page_of(alloc: Global, skip: u64, top: Option<u64>, list: &[u32]) -> Result<Vec<u32>, AllocError>
    ensures { IfOk result (λ page. page.items ≡ page_of skip top list.now) }
{
    let from = skip.min(list.len() as u64) as usize;
    let rest = &list[from..];
    match top {
        Some(top) => {
            let end = top.min(rest.len() as u64) as usize;
            Vec::from_slice(alloc, &rest[..end])
        }
        None => Vec::from_slice(alloc, rest),
    }
}

impl Listing {
    /// The places of the topics that are listed, in their order. No topic is copied. An `Err` is want of memory; more
    /// than 4,294,967,295 topics count as that.
    pub fn places(&self, alloc: Global, topics: &[Shared<Topic>]) -> Result<Vec<u32>, AllocError>
        ensures { IfOk result (λ places. IsListed self.now topics.now places.items) }
    {
        if topics.len() > u32::MAX as usize {
            return Err(AllocError);
        }
        let keys = keys_of(&self.order);
        let kept = kept_places(alloc, &self.filter, topics)?;
        let mut front = front_of(alloc, keys, topics, kept, self.skip, self.top)?;
        sort(keys, topics, &mut front);
        let page = page_of(alloc, self.skip, self.top, &front)?;
        Ok(page)
    }
}
