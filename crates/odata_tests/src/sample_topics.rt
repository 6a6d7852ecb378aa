//! The sample topics, made.
ghost use Rattle.std.specs.Prelude.{◌≤◌};

use crate::sample_rows::{SAMPLES, Sample};
use bcf_topics::{Topic, TopicBody};
use bim_model::{Author, Items, Moment, Shared, Text};
use std::alloc::{AllocError, Global};

fn text(alloc: Global, text: Option<&str>) -> Result<Option<Text>, AllocError> {
    match text {
        Some(text) => Ok(Some(Text::of(alloc, text)?)),
        None => Ok(None),
    }
}

fn moment(seconds: u64) -> Moment {
    Moment::new(seconds.min(Moment::LAST))
}

fn due(seconds: Option<u64>) -> Option<Moment> {
    match seconds {
        Some(seconds) => Some(moment(seconds)),
        None => None,
    }
}

fn author(alloc: Global, user: &str, seconds: u64) -> Result<Author, AllocError> {
    Ok(Author {
        user: Text::of(alloc, user)?,
        moment: moment(seconds),
    })
}

fn modified(alloc: Global, sample: &Sample) -> Result<Option<Author>, AllocError> {
    match sample.modified {
        Some(by) => Ok(Some(author(alloc, by.0, by.1)?)),
        None => Ok(None),
    }
}

fn labels(alloc: Global, sample: &Sample) -> Result<Items<Text>, AllocError> {
    let mut made = Items::new(alloc);
    for label in sample.labels {
        made.push(Text::of(alloc, label)?)?;
    }
    Ok(made)
}

fn body(alloc: Global, sample: &Sample) -> Result<TopicBody, AllocError> {
    Ok(TopicBody {
        title: Text::of(alloc, sample.title)?,
        topic_type: text(alloc, sample.topic_type)?,
        topic_status: text(alloc, sample.topic_status)?,
        priority: text(alloc, sample.priority)?,
        index: sample.index,
        labels: labels(alloc, sample)?,
        assigned_to: text(alloc, sample.assigned_to)?,
        stage: text(alloc, sample.stage)?,
        description: text(alloc, sample.description)?,
        due: due(sample.due),
    })
}

fn topic(alloc: Global, sample: &Sample) -> Result<Topic, AllocError> {
    let created = author(alloc, sample.created.0, sample.created.1)?;
    let modified = modified(alloc, sample)?;
    let body = body(alloc, sample)?;
    Ok(Topic {
        serial: sample.serial,
        body,
        created,
        modified,
    })
}

/// The sample topics, by rising serial number.
pub fn sample_topics(alloc: Global) -> Result<Vec<Shared<Topic>>, AllocError> {
    let mut topics = Vec::new(alloc);
    for sample in SAMPLES.iter() {
        topics.push(Shared::new(alloc, topic(alloc, sample)?)?)?;
    }
    Ok(topics)
}
