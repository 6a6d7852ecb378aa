//! Topics that are made of clashes.
ghost use Rattle.std.specs.Prelude.{◌≡◌, ◌<◌, ◌+◌, ◌^◌, ◌++◌, ◌∷◌, [], All, IfOk, OnOk, OnErr};
ghost use Rattle.bim_model.specs.Guids.{IsGuid};
ghost use Rattle.bcf_topics.specs.Topics.{new_topic};
ghost use Rattle.bcf_topics.specs.Discussions.{with_topics};
ghost use Rattle.book_topics.specs.OfClashes.{clash_title, clash_body, component_of, clash_view, clash_topic, clash_added};

use crate::board::Board;
use crate::board_topics::add_topic;
use bcf_topics::{Author, Topic, TopicBody, Topics};
use bcf_viewpoints::{Component, ViewBody};
use bim_model::{Duplicate, Guid, Items, Text};
use std::alloc::{AllocError, Global};

// The title names both elements.
fn clash_title(alloc: Global, a: &Guid, b: &Guid) -> Result<Text, AllocError>
    requires first { IsGuid a.now.chars }
    requires second { IsGuid b.now.chars }
    ensures { IfOk result (λ title. title ≡ clash_title a.now b.now) }
{
    let (first, second) = (a.as_str(), b.as_str());
    let title = format!(in alloc; "Clash of {first} and {second}")?;
    Text::of(alloc, title.as_str())
}

// What is said of the topic.
#[tactic(auto, unfolding(crate::specs::OfClashes::clash_body))]
fn clash_body(alloc: Global, a: &Guid, b: &Guid) -> Result<TopicBody, AllocError>
    requires first { IsGuid a.now.chars }
    requires second { IsGuid b.now.chars }
    ensures { IfOk result (λ body. body ≡ clash_body a.now b.now) }
{
    Ok(TopicBody {
        title: clash_title(alloc, a, b)?,
        topic_type: Some(Text::of(alloc, "Clash")?),
        topic_status: Some(Text::of(alloc, "Open")?),
        priority: None,
        index: None,
        labels: Items::new(alloc),
        assigned_to: None,
        stage: None,
        description: None,
        due: None,
    })
}

// An element of a model as a component.
fn component_of(guid: &Guid) -> Component
    ensures { result ≡ component_of guid.now }
{
    Component {
        ifc_guid: Some(*guid),
        originating_system: None,
        authoring_tool_id: None,
    }
}

// The two elements.
fn selection_of(alloc: Global, a: &Guid, b: &Guid) -> Result<Items<Component>, AllocError>
    ensures { IfOk result (λ list. list ≡ component_of a.now ∷ component_of b.now ∷ []) }
{
    let mut list = Items::new(alloc);
    list.push(component_of(a))?;
    list.push(component_of(b))?;
    Ok(list)
}

// The viewpoint that selects them.
#[tactic(auto, unfolding(crate::specs::OfClashes::clash_view))]
fn clash_view(alloc: Global, a: &Guid, b: &Guid) -> Result<ViewBody, AllocError>
    ensures { IfOk result (λ body. body ≡ clash_view a.now b.now) }
{
    Ok(ViewBody {
        index: None,
        selection: selection_of(alloc, a, b)?,
        coloring: Items::new(alloc),
        default_visibility: false,
        exceptions: Items::new(alloc),
    })
}

// Makes the topic under this number, and tells it. An `Err` leaves the topics as they were.
fn add_clash(
    topics: &mut Topics,
    alloc: Global,
    serial: u64,
    a: &Guid,
    b: &Guid,
    author: &Author,
) -> Result<Topic, AllocError>
    requires first { IsGuid a.now.chars }
    requires second { IsGuid b.now.chars }
    requires last { All (λ t. t.serial < serial) topics.old.topics }
    ensures told { IfOk result (λ topic. topic ≡ new_topic serial (clash_body a.now b.now) author.now) }
    ensures ok { OnOk result (topics.new
        ≡ with_topics (topics.old.topics ++ new_topic serial (clash_body a.now b.now) author.now ∷ [])
        topics.old) }
    ensures err { OnErr result (topics.new ≡ topics.old) }
{
    let body = clash_body(alloc, a, b)?;
    add_topic(topics, alloc, serial, &body, author)
}

impl Board {
    /// Makes a topic of a clash of two elements and then a viewpoint of it that selects both, and tells the topic.
    /// An `Err` leaves all as it was.
    pub fn post_clash(
        &mut self,
        alloc: Global,
        a: &Guid,
        b: &Guid,
        author: &Author,
    ) -> Result<Topic, AllocError>
        requires first { IsGuid a.now.chars }
        requires second { IsGuid b.now.chars }
        requires room { self.old.made + 2 < 2 ^ 48 }
        ensures told { IfOk result (λ topic. topic ≡ clash_topic self.old a.now b.now author.now) }
        ensures ok { OnOk result (self.new ≡ clash_added self.old a.now b.now author.now) }
        ensures err { OnErr result (self.new ≡ self.old) }
    {
        let serial = self.made + 1;
        let next = serial + 1;
        let view = clash_view(alloc, a, b)?;
        self.views.post(next, serial, view)?;
        match add_clash(&mut self.topics, alloc, serial, a, b, author) {
            Ok(told) => {
                self.made = next;
                Ok(told)
            }
            Err(error) => {
                self.views.drop_topic(serial);
                Err(error)
            }
        }
    }
}
