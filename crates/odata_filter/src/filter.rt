//! Filters of topics.
ghost use Rattle.std.specs.Prelude.{◌≡◌, IfOk};
ghost use Rattle.odata_filter.specs.Conditions.{Condition, Tested, Negated, Both, Either, keeps};
ghost use Rattle.odata_filter.specs.FilterTrees.{condition_of};

use crate::filter_node::FilterNode;
use crate::topic_test::TopicTest;
use bcf_topics::Topic;
use std::alloc::{AllocError, Global};
use std::marker::Model;

/// A filter of topics: tests of single members, joined by `not`, `and` and `or`.
#[derive(Drop)]
pub struct Filter {
    root: FilterNode,
}

impl Model for Filter {
    ghost use Rattle.odata_filter.specs.contracts.topic_test.TopicTest as test;
    ghost use Rattle.odata_filter.specs.Conditions.{Condition};
    ghost use Rattle.odata_filter.specs.ConditionCodes.{condition_code};
    ghost use Rattle.odata_filter.specs.FilterTrees.{condition_of};

    ghost Value = { Condition };

    ghost coded = { condition_code test.the_row.coded };

    ghost view = { λ f. condition_of f.root };
}

impl Filter {
    /// The filter that keeps what passes a test.
    pub fn tested(test: TopicTest) -> Filter
        ensures { result ≡ Tested test }
    {
        Filter {
            root: FilterNode::Test(test),
        }
    }

    /// The filter that keeps what the other doesn't.
    pub fn negated(alloc: Global, filter: Filter) -> Result<Filter, AllocError>
        ensures { IfOk result (λ made. made ≡ Negated filter) }
    {
        let inner = Box::new(alloc, filter.root)?;
        Ok(Filter {
            root: FilterNode::Not(inner),
        })
    }

    /// The filter that keeps what both keep.
    pub fn both(alloc: Global, left: Filter, right: Filter) -> Result<Filter, AllocError>
        ensures { IfOk result (λ made. made ≡ Both left right) }
    {
        let left = Box::new(alloc, left.root)?;
        let right = Box::new(alloc, right.root)?;
        Ok(Filter {
            root: FilterNode::And(left, right),
        })
    }

    /// The filter that keeps what one of them keeps.
    pub fn either(alloc: Global, left: Filter, right: Filter) -> Result<Filter, AllocError>
        ensures { IfOk result (λ made. made ≡ Either left right) }
    {
        let left = Box::new(alloc, left.root)?;
        let right = Box::new(alloc, right.root)?;
        Ok(Filter {
            root: FilterNode::Or(left, right),
        })
    }

    /// Whether it keeps a topic. Takes no memory.
    pub fn keeps(&self, topic: &Topic) -> bool
        ensures { result ≡ keeps self.now topic.now }
    {
        self.root.keeps(topic)
    }
}
