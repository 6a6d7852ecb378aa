//! The order of topics.
ghost use Rattle.std.specs.Prelude.{◌≡◌, List};
ghost use Rattle.odata_filter.specs.TopicOrders.{by_member, turned, by_keys};

use crate::topic_members::Member;
use bcf_topics::Topic;
use bim_model::Items;
use std::cmp::Ordering;
use std::marker::Model;

/// A member that an order goes by.
#[derive(Clone, Copy, Debug, PartialEq, Eq)]
pub struct OrderKey {
    pub member: Member,
    /// The greatest first, and what is absent last; otherwise the least first, and what is absent before it.
    pub falls: bool,
}

/// An order of topics: by a first member, then among those that tie by a second one, and so on.
#[derive(Drop)]
pub struct Order {
    keys: Items<OrderKey>,
}

impl Model for Order {
    ghost use Rattle.std.specs.Prelude.{List};
    ghost use Rattle.odata_filter.specs.declared.topic_order.OrderKey.{OrderKey};

    ghost Value = { List OrderKey };

    ghost view = { λ o. o.keys };
}

// Two topics by one member: what is absent comes first.
fn by_member(member: Member, x: &Topic, y: &Topic) -> Ordering
    ensures { result ≡ by_member member x.now y.now }
{
    match member {
        Member::OfText(text) => text.of(x).cmp(&text.of(y)),
        Member::Index => x.body.index.cmp(&y.body.index),
        Member::OfDate(date) => {
            let x = date.of(x).map(|moment| moment.seconds());
            let y = date.of(y).map(|moment| moment.seconds());
            x.cmp(&y)
        }
    }
}

/// Two topics by one member, rising or falling.
pub fn by_key(key: OrderKey, x: &Topic, y: &Topic) -> Ordering
    ensures { result ≡ turned key.falls key.member x.now y.now }
{
    if key.falls {
        by_member(key.member, y, x)
    } else {
        by_member(key.member, x, y)
    }
}

impl Order {
    /// The order by these members in turn.
    pub fn by(keys: Items<OrderKey>) -> Order
        ensures { result ≡ keys }
    {
        Order { keys }
    }

    /// The members that it goes by, lent.
    pub fn keys(&self) -> &[OrderKey]
        ensures { result.now ≡ self.now }
    {
        self.keys.as_slice()
    }
}

/// Two topics by each member in turn. Takes no memory.
#[tactic(auto, unfolding(crate::specs::TopicOrders::by_keys))]
pub fn by_keys(keys: &[OrderKey], x: &Topic, y: &Topic) -> Ordering
    ensures { result ≡ by_keys keys.now x.now y.now }
{
    for key in keys {
        let order = by_key(*key, x, y);
        if order != Ordering::Equal {
            return order;
        }
    }
    Ordering::Equal
}
