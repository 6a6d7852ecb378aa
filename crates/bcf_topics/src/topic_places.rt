//! The topics in their list, found by halving.
ghost use Rattle.std.specs.Prelude.{◌≡◌, ◌<◌, ◌++◌, ◌∷◌, [], None, is_some, true, option_copied, if◌then◌else◌, MatchOption, All, IfOk, OnOk, OnErr};
ghost use Rattle.bcf_topics.specs.Topics.{topic_of, topic_put, topics_put, topics_but, Rises};
ghost use Rattle.bcf_topics.specs.Discussions.{IsPlaceOf};

use crate::topic::Topic;
use crate::topic_body::TopicBody;
use bim_model::{Author, Duplicate, Shared};
use std::alloc::{AllocError, Global};

/// Where the topic of that serial number stands.
pub fn place_of(topics: &[Shared<Topic>], serial: u64) -> Option<usize>
    requires { Rises topics.now }
    ensures { MatchOption result (topic_of serial topics.now ≡ None) (IsPlaceOf topics.now serial) }
{
    match topics.binary_search_by_key(&serial, |topic| topic.get().serial) {
        Ok(at) => Some(at),
        Err(_) => None,
    }
}

/// Whether there is a topic of that serial number.
pub fn is_topic(topics: &[Shared<Topic>], serial: u64) -> bool
    requires { Rises topics.now }
    ensures { result ≡ is_some (topic_of serial topics.now) }
{
    match place_of(topics, serial) {
        Some(_) => true,
        None => false,
    }
}

/// The topic of that serial number.
pub fn find(topics: &[Shared<Topic>], serial: u64) -> Option<&Topic>
    requires { Rises topics.now }
    ensures { option_copied result ≡ topic_of serial topics.now }
{
    match place_of(topics, serial) {
        Some(at) => Some(topics[at].get()),
        None => None,
    }
}

/// Adds a topic after the others. An `Err` leaves them as they were.
pub fn push(topics: &mut Vec<Shared<Topic>>, topic: Shared<Topic>) -> Result<(), AllocError>
    requires rises { Rises topics.old.items }
    requires last { All (λ t. t.serial < topic.serial) topics.old.items }
    ensures ok { OnOk result (topics.new.items ≡ topics.old.items ++ topic ∷ []) }
    ensures err { OnErr result (topics.new.items ≡ topics.old.items) }
    ensures rises { Rises topics.new.items }
{
    topics.push(topic)?;
    Ok(())
}

// A topic with another body in the place of its own.
fn with_body(
    alloc: Global,
    topic: &Topic,
    body: TopicBody,
    author: Author,
) -> Result<Shared<Topic>, AllocError>
    ensures { IfOk result (λ made. made ≡ topic_put body author topic.now) }
{
    let created = topic.created.copy(alloc)?;
    let made = Topic {
        serial: topic.serial,
        body,
        created,
        modified: Some(author),
    };
    Shared::new(alloc, made)
}

/// Puts another body in a topic, and says whether it is there. An `Err` comes only if it is, and leaves them as they were.
pub fn replace(
    topics: &mut Vec<Shared<Topic>>,
    serial: u64,
    body: TopicBody,
    author: Author,
) -> Result<bool, AllocError>
    requires { Rises topics.old.items }
    ensures found { IfOk result (λ found. found ≡ is_some (topic_of serial topics.old.items)) }
    ensures after { OnOk result (topics.new.items
        ≡ (if is_some (topic_of serial topics.old.items) then topics_put serial body author topics.old.items
        else topics.old.items)) }
    ensures there { OnErr result (is_some (topic_of serial topics.old.items) ≡ true) }
    ensures err { OnErr result (topics.new.items ≡ topics.old.items) }
    ensures rises { Rises topics.new.items }
{
    match place_of(topics, serial) {
        Some(at) => {
            let alloc = *topics.allocator();
            let made = with_body(alloc, topics[at].get(), body, author)?;
            let topic = &mut topics[at];
            *topic = made;
            Ok(true)
        }
        None => Ok(false),
    }
}

/// Takes a topic away, and says whether it was there.
pub fn remove(topics: &mut Vec<Shared<Topic>>, serial: u64) -> bool
    requires { Rises topics.old.items }
    ensures found { result ≡ is_some (topic_of serial topics.old.items) }
    ensures after { topics.new.items
        ≡ (if result then topics_but serial topics.old.items else topics.old.items) }
    ensures rises { Rises topics.new.items }
{
    match place_of(topics, serial) {
        Some(at) => {
            topics.remove(at);
            true
        }
        None => false,
    }
}
