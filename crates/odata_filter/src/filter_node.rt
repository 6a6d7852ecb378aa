//! The nodes of a filter.
ghost use Rattle.std.specs.Prelude.{◌≡◌};
ghost use Rattle.odata_filter.specs.Conditions.{keeps};
ghost use Rattle.odata_filter.specs.FilterTrees.{condition_of};

use crate::topic_test::TopicTest;
use bcf_topics::Topic;

/// A filter, as a tree.
#[derive(Drop)]
pub enum FilterNode {
    Test(TopicTest),
    Not(Box<FilterNode>),
    And(Box<FilterNode>, Box<FilterNode>),
    Or(Box<FilterNode>, Box<FilterNode>),
}

impl FilterNode {
    /// Whether it keeps a topic. What decides first is tried first: the right side of `and` and `or` is looked at only
    /// if the left one leaves it open.
    pub fn keeps(&self, topic: &Topic) -> bool
        ensures { result ≡ keeps (condition_of self.now) topic.now }
    {
        match self {
            FilterNode::Test(test) => test.passes(topic),
            FilterNode::Not(inner) => !inner.keeps(topic),
            FilterNode::And(left, right) => left.keeps(topic) && right.keeps(topic),
            FilterNode::Or(left, right) => left.keeps(topic) || right.keeps(topic),
        }
    }
}
