//! The members of a topic that filters and orders name.
ghost use Rattle.std.specs.Prelude.{◌≡◌, Some, MatchOption};
ghost use Rattle.odata_filter.specs.TopicMembers.{text_member, date_member, member_named, text_of, date_of, index_of};
ghost use Rattle.odata_filter.specs.Conditions.{is_there};

use bcf_topics::Topic;
use bim_model::{Moment, Text};

/// A member whose value is a text.
#[derive(Clone, Copy, Debug, PartialEq, Eq)]
pub enum TextMember {
    Title,
    TopicType,
    TopicStatus,
    Priority,
    AssignedTo,
    Stage,
    Description,
    CreationAuthor,
    /// Absent until someone replaces the topic's body.
    ModifiedAuthor,
}

/// A member whose value is a date.
#[derive(Clone, Copy, Debug, PartialEq, Eq)]
pub enum DateMember {
    CreationDate,
    /// Absent until someone replaces the topic's body.
    ModifiedDate,
    DueDate,
}

/// A member that a comparison or an order may name.
#[derive(Clone, Copy, Debug, PartialEq, Eq)]
pub enum Member {
    OfText(TextMember),
    /// `index`, the only one that is a number.
    Index,
    OfDate(DateMember),
}

// The bytes of a text that may be absent.
fn bytes_of(text: &Option<Text>) -> Option<&[u8]>
    ensures { MatchOption result (text.now ≡ None) (λ bytes. text.now ≡ Some bytes.now) }
{
    match text {
        Some(text) => Some(text.as_str().as_bytes()),
        None => None,
    }
}

impl TextMember {
    /// The member of that name.
    #[tactic(auto, unfolding(crate::specs::TopicMembers::text_member))]
    pub fn named(name: &[u8]) -> Option<TextMember>
        ensures { result ≡ text_member name.now }
    {
        if name == "title".as_bytes() {
            return Some(TextMember::Title);
        }
        if name == "topic_type".as_bytes() {
            return Some(TextMember::TopicType);
        }
        if name == "topic_status".as_bytes() {
            return Some(TextMember::TopicStatus);
        }
        if name == "priority".as_bytes() {
            return Some(TextMember::Priority);
        }
        if name == "assigned_to".as_bytes() {
            return Some(TextMember::AssignedTo);
        }
        if name == "stage".as_bytes() {
            return Some(TextMember::Stage);
        }
        if name == "description".as_bytes() {
            return Some(TextMember::Description);
        }
        if name == "creation_author".as_bytes() {
            return Some(TextMember::CreationAuthor);
        }
        if name == "modified_author".as_bytes() {
            return Some(TextMember::ModifiedAuthor);
        }
        None
    }

    /// Its bytes in a topic, where it is there.
    pub fn of(self, topic: &Topic) -> Option<&[u8]>
        ensures { MatchOption result (text_of self topic.now ≡ None)
            (λ bytes. text_of self topic.now ≡ Some bytes.now) }
    {
        match self {
            TextMember::Title => Some(topic.body.title.as_str().as_bytes()),
            TextMember::TopicType => bytes_of(&topic.body.topic_type),
            TextMember::TopicStatus => bytes_of(&topic.body.topic_status),
            TextMember::Priority => bytes_of(&topic.body.priority),
            TextMember::AssignedTo => bytes_of(&topic.body.assigned_to),
            TextMember::Stage => bytes_of(&topic.body.stage),
            TextMember::Description => bytes_of(&topic.body.description),
            TextMember::CreationAuthor => Some(topic.created.user.as_str().as_bytes()),
            TextMember::ModifiedAuthor => match &topic.modified {
                Some(author) => Some(author.user.as_str().as_bytes()),
                None => None,
            },
        }
    }
}

impl DateMember {
    /// The member of that name.
    #[tactic(auto, unfolding(crate::specs::TopicMembers::date_member))]
    pub fn named(name: &[u8]) -> Option<DateMember>
        ensures { result ≡ date_member name.now }
    {
        if name == "creation_date".as_bytes() {
            return Some(DateMember::CreationDate);
        }
        if name == "modified_date".as_bytes() {
            return Some(DateMember::ModifiedDate);
        }
        if name == "due_date".as_bytes() {
            return Some(DateMember::DueDate);
        }
        None
    }

    /// Its moment in a topic, where it is there.
    pub fn of(self, topic: &Topic) -> Option<Moment>
        ensures { result ≡ date_of self topic.now }
    {
        match self {
            DateMember::CreationDate => Some(topic.created.moment),
            DateMember::ModifiedDate => match &topic.modified {
                Some(author) => Some(author.moment),
                None => None,
            },
            DateMember::DueDate => topic.body.due,
        }
    }
}

impl Member {
    /// The member of that name.
    pub fn named(name: &[u8]) -> Option<Member>
        ensures { result ≡ member_named name.now }
    {
        match TextMember::named(name) {
            Some(member) => Some(Member::OfText(member)),
            None => {
                if name == "index".as_bytes() {
                    return Some(Member::Index);
                }
                match DateMember::named(name) {
                    Some(member) => Some(Member::OfDate(member)),
                    None => None,
                }
            }
        }
    }

    /// Whether a topic has it.
    pub fn is_there(self, topic: &Topic) -> bool
        ensures { result ≡ is_there self topic.now }
    {
        match self {
            Member::OfText(member) => member.of(topic).is_some(),
            Member::Index => topic.body.index.is_some(),
            Member::OfDate(member) => member.of(topic).is_some(),
        }
    }
}
