//! Tests of one member of a topic.
ghost use Rattle.std.specs.Prelude.{◌≡◌, bytes_eq, Some};
ghost use Rattle.std.specs.List.{list_any};
ghost use Rattle.std.specs.Ordering.{nat_cmp, int_cmp};
ghost use Rattle.std.specs.Cmp.Lexicographic.{slice_cmp};
ghost use Rattle.odata_filter.specs.TopicMembers.{text_of, date_of, index_of};
ghost use Rattle.odata_filter.specs.Conditions.{compares, occurs, occurs_in, passes};

use crate::comparison::Comparison;
use crate::topic_members::{DateMember, Member, TextMember};
use bcf_topics::Topic;
use bim_model::{Bytes, Moment, Text};
use memchr::memmem;

/// A test of one member of a topic.
#[derive(Drop)]
pub enum TopicTest {
    /// `eq null`
    Absent(Member),
    /// `ne null`
    Present(Member),
    /// Texts compare by their bytes.
    Text(TextMember, Comparison, Bytes),
    Number(Comparison, i32),
    /// Dates compare by their whole seconds.
    Date(DateMember, Comparison, Moment),
    /// The literal's bytes stand in a row in the member.
    Contains(TextMember, Bytes),
    /// A label is the literal.
    Labelled(Bytes),
}

fn compares_text(member: TextMember, comparison: Comparison, literal: &[u8], topic: &Topic) -> bool
    ensures { result ≡ compares (slice_cmp nat_cmp) comparison (text_of member topic.now) literal.now }
{
    match member.of(topic) {
        Some(value) => comparison.holds(value.cmp(literal)),
        None => comparison.holds_of_none(),
    }
}

fn compares_number(comparison: Comparison, literal: i32, topic: &Topic) -> bool
    ensures { result ≡ compares int_cmp comparison (index_of topic.now) literal }
{
    match topic.body.index {
        Some(value) => comparison.holds(value.cmp(&literal)),
        None => comparison.holds_of_none(),
    }
}

fn compares_date(member: DateMember, comparison: Comparison, literal: Moment, topic: &Topic) -> bool
    ensures { result ≡ compares nat_cmp comparison (date_of member topic.now) literal }
{
    match member.of(topic) {
        Some(value) => comparison.holds(value.seconds().cmp(&literal.seconds())),
        None => comparison.holds_of_none(),
    }
}

// Whether a literal's bytes stand in a row in a text.
fn occurs(literal: &[u8], text: &[u8]) -> bool
    ensures { result ≡ occurs literal.now text.now }
{
    memmem::find(text, literal).is_some()
}

fn occurs_in(member: TextMember, literal: &[u8], topic: &Topic) -> bool
    ensures { result ≡ occurs_in literal.now (text_of member topic.now) }
{
    match member.of(topic) {
        Some(text) => occurs(literal, text),
        None => false,
    }
}

// Whether one of the labels is the literal.
fn is_labelled(labels: &[Text], literal: &[u8]) -> bool
    ensures { result ≡ list_any (λ label. bytes_eq label literal.now) labels.now }
{
    for label in labels {
        if label.as_str().as_bytes() == literal {
            return true;
        }
    }
    false
}

impl TopicTest {
    /// Whether a topic passes it. Takes no memory.
    pub fn passes(&self, topic: &Topic) -> bool
        ensures { result ≡ passes self.now topic.now }
    {
        match self {
            TopicTest::Absent(member) => !member.is_there(topic),
            TopicTest::Present(member) => member.is_there(topic),
            TopicTest::Text(member, comparison, literal) => {
                compares_text(*member, *comparison, literal.as_slice(), topic)
            }
            TopicTest::Number(comparison, literal) => compares_number(*comparison, *literal, topic),
            TopicTest::Date(member, comparison, literal) => {
                compares_date(*member, *comparison, *literal, topic)
            }
            TopicTest::Contains(member, literal) => occurs_in(*member, literal.as_slice(), topic),
            TopicTest::Labelled(literal) => {
                is_labelled(topic.body.labels.as_slice(), literal.as_slice())
            }
        }
    }
}
