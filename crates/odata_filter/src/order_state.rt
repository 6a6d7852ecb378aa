//! What has been read of an order so far.
use crate::topic_members::Member;
use crate::topic_order::OrderKey;
use bim_model::Items;

/// What may come next.
#[derive(Clone, Copy)]
pub enum OrderExpected {
    /// A member.
    Name,
    /// `asc`, `desc`, a comma or the end, behind this member.
    Direction(Member),
    /// A comma or the end.
    Next,
}

/// What has been read of an order so far.
#[derive(Drop)]
pub struct OrderReading {
    pub expected: OrderExpected,
    pub keys: Items<OrderKey>,
}
