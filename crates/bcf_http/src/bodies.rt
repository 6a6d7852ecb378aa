//! What bodies ask for.
ghost use Rattle.std.specs.Prelude.{option_and_then};
ghost use Rattle.serde_json.specs.View.{view};
ghost use Rattle.serde_json.specs.Read.{read};
ghost use Rattle.bcf_bodies.specs.TopicBodies.{topic_body};
ghost use Rattle.bcf_bodies.specs.CommentBodies.{comment_body};
ghost use Rattle.bcf_bodies.specs.ViewBodies.{view_body};
ghost use Rattle.bcf_http.specs.Asked.{object_of, if_object, with_fault, asked_as, IsTreeOf, IsMeantAs};

use crate::asked::{Refusal, RequestFault};
use bcf_bodies::{BodyError, comment_in, topic_in, view_in};
use bcf_topics::{CommentIn, TopicBody};
use bcf_viewpoints::CheckedBody;
use serde_json::Value;
use std::alloc::Global;

// The value that a text spells as JSON.
fn value_of(alloc: Global, text: &str) -> Result<Value, Refusal>
    ensures { IsTreeOf result (read text.now) }
{
    match Value::from_str(alloc, text) {
        Ok(tree) => Ok(tree),
        Err(error) => {
            if error.is_memory() {
                Err(Refusal::Memory)
            } else {
                Err(Refusal::Fault(RequestFault::BadJson))
            }
        }
    }
}

fn object_in(alloc: Global, text: &str) -> Result<Value, Refusal>
    ensures { IsTreeOf result (option_and_then if_object (read text.now)) }
{
    let tree = value_of(alloc, text)?;
    if tree.is_object() {
        Ok(tree)
    } else {
        Err(Refusal::Fault(RequestFault::BadJson))
    }
}

/// The object that a body spells as JSON.
#[tactic(auto, using(crate::proofs::Reading::of_text, crate::proofs::Reading::not_text))]
pub fn object_of(alloc: Global, body: &[u8]) -> Result<Value, Refusal>
    ensures { IsTreeOf result (object_of body.now) }
{
    match str::from_utf8(body) {
        Ok(text) => object_in(alloc, text),
        Err(_) => Err(Refusal::Fault(RequestFault::BadJson)),
    }
}

// The topic that an object asks for.
fn topic_of(alloc: Global, tree: &Value) -> Result<TopicBody, Refusal>
    ensures { IsMeantAs result (with_fault (topic_body (view tree.now))) }
{
    match topic_in(alloc, tree) {
        Ok(body) => Ok(body),
        Err(BodyError::Fault(fault)) => Err(Refusal::Fault(RequestFault::Body(fault))),
        Err(BodyError::Memory) => Err(Refusal::Memory),
    }
}

/// The topic that a body asks for.
pub fn topic_asked(alloc: Global, body: &[u8]) -> Result<TopicBody, Refusal>
    ensures { IsMeantAs result (asked_as topic_body (object_of body.now)) }
{
    match object_of(alloc, body) {
        Ok(tree) => topic_of(alloc, &tree),
        Err(refusal) => Err(refusal),
    }
}

// The comment that an object asks for.
fn comment_of(alloc: Global, tree: &Value) -> Result<CommentIn, Refusal>
    ensures { IsMeantAs result (with_fault (comment_body (view tree.now))) }
{
    match comment_in(alloc, tree) {
        Ok(body) => Ok(body),
        Err(BodyError::Fault(fault)) => Err(Refusal::Fault(RequestFault::Body(fault))),
        Err(BodyError::Memory) => Err(Refusal::Memory),
    }
}

/// The comment that a body asks for.
pub fn comment_asked(alloc: Global, body: &[u8]) -> Result<CommentIn, Refusal>
    ensures { IsMeantAs result (asked_as comment_body (object_of body.now)) }
{
    match object_of(alloc, body) {
        Ok(tree) => comment_of(alloc, &tree),
        Err(refusal) => Err(refusal),
    }
}

// The viewpoint that an object asks for.
fn view_of(alloc: Global, tree: &Value) -> Result<CheckedBody, Refusal>
    ensures { IsMeantAs result (with_fault (view_body (view tree.now))) }
{
    match view_in(alloc, tree) {
        Ok(body) => Ok(CheckedBody::of(body)),
        Err(BodyError::Fault(fault)) => Err(Refusal::Fault(RequestFault::Body(fault))),
        Err(BodyError::Memory) => Err(Refusal::Memory),
    }
}

/// The viewpoint that a body asks for.
pub fn view_asked(alloc: Global, body: &[u8]) -> Result<CheckedBody, Refusal>
    ensures { IsMeantAs result (asked_as view_body (object_of body.now)) }
{
    match object_of(alloc, body) {
        Ok(tree) => view_of(alloc, &tree),
        Err(refusal) => Err(refusal),
    }
}
