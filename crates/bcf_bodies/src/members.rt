//! The members of bodies. Each is none where it is bad.
ghost use Rattle.std.specs.Prelude.{◌≡◌, ℤ, IfOk, IfSome, option_map, option_and_then};
ghost use Rattle.serde_json.specs.Find.{as_number, as_integer, as_str};
ghost use Rattle.serde_json.specs.View.{view, items_view};
ghost use Rattle.bcf_bodies.specs.Members.{if_short, text_in, filled_in, if_index, index_value, index_in, moment_of, if_date, due_in, if_identifier, viewpoint_in, items_under};

use bim_model::{Moment, Text};
use jiff::Timestamp;
use serde_json::Value;
use std::alloc::{AllocError, Global};
use uuid::Uuid;

fn short(alloc: Global, most: usize, text: &str) -> Result<Option<Text>, AllocError>
    ensures { IfOk result (λ found. found ≡ if_short most text.now) }
{
    if text.len() <= most {
        return Ok(Some(Text::of(alloc, text)?));
    }
    Ok(None)
}

/// The text under that name, if there is one, of at most so many bytes.
#[tactic(auto, unfolding(crate::specs::Members::text_in))]
pub fn text_in(
    alloc: Global,
    most: usize,
    name: &str,
    tree: &Value,
) -> Result<Option<Option<Text>>, AllocError>
    ensures { IfOk result (λ found. found ≡ text_in most name.now (view tree.now)) }
{
    match tree.get(name) {
        Some(value) => {
            if value.is_null() {
                return Ok(Some(None));
            }
            match value.as_str() {
                Some(text) => match short(alloc, most, text)? {
                    Some(text) => Ok(Some(Some(text))),
                    None => Ok(None),
                },
                None => Ok(None),
            }
        }
        None => Ok(Some(None)),
    }
}

/// The text of 1 to so many bytes that must stand under that name.
#[tactic(auto, unfolding(crate::specs::Members::filled_in))]
pub fn filled_in(
    alloc: Global,
    most: usize,
    name: &str,
    tree: &Value,
) -> Result<Option<Text>, AllocError>
    ensures { IfOk result (λ found. found ≡ filled_in most name.now (view tree.now)) }
{
    match tree.get(name) {
        Some(value) => match value.as_str() {
            Some(text) => {
                if 0 < text.len() && text.len() <= most {
                    Ok(Some(Text::of(alloc, text)?))
                } else {
                    Ok(None)
                }
            }
            None => Ok(None),
        },
        None => Ok(None),
    }
}

fn index_of(value: &Value) -> Option<i32>
    ensures { result ≡ index_value (view value.now) }
{
    match value.as_number() {
        Some(number) => match number.as_i128() {
            Some(whole) => {
                if i32::MIN as i128 <= whole && whole <= i32::MAX as i128 {
                    Some(whole as i32)
                } else {
                    None
                }
            }
            None => None,
        },
        None => None,
    }
}

/// The index, if there is one.
#[tactic(auto, unfolding(crate::specs::Members::index_in))]
pub fn index_in(tree: &Value) -> Option<Option<i32>>
    ensures { result ≡ index_in (view tree.now) }
{
    match tree.get("index") {
        Some(value) => {
            if value.is_null() {
                return Some(None);
            }
            match index_of(value) {
                Some(index) => Some(Some(index)),
                None => None,
            }
        }
        None => Some(None),
    }
}

// The second of an instant of 1970 or later.
fn moment_of(instant: Timestamp) -> Option<Moment>
    ensures { result ≡ moment_of instant.nanosecond }
{
    if instant.as_nanosecond() < 0 {
        return None;
    }
    let second = instant.as_second();
    if 0 <= second && second <= Moment::LAST as i64 {
        Some(Moment::new(second as u64))
    } else {
        None
    }
}

#[tactic(auto, unfolding(crate::specs::Members::if_date))]
fn date_of(text: &str) -> Option<Moment>
    ensures { result ≡ if_date text.now }
{
    match text.parse::<Timestamp>() {
        Ok(instant) => moment_of(instant),
        Err(_) => None,
    }
}

/// When a topic is due, if it is told.
#[tactic(auto, unfolding(crate::specs::Members::due_in))]
pub fn due_in(tree: &Value) -> Option<Option<Moment>>
    ensures { result ≡ due_in (view tree.now) }
{
    match tree.get("due_date") {
        Some(value) => {
            if value.is_null() {
                return Some(None);
            }
            match value.as_str() {
                Some(text) => match date_of(text) {
                    Some(moment) => Some(Some(moment)),
                    None => None,
                },
                None => None,
            }
        }
        None => Some(None),
    }
}

#[tactic(auto, unfolding(crate::specs::Members::if_identifier), using(crate::proofs::Identifiers::none_in))]
fn identifier_of(text: &str) -> Option<u128>
    ensures { result ≡ if_identifier text.now }
{
    match Uuid::parse_str(text) {
        Ok(id) => Some(id.as_u128()),
        Err(_) => None,
    }
}

/// The identifier of a viewpoint, if there is one.
#[tactic(auto, unfolding(crate::specs::Members::viewpoint_in))]
pub fn viewpoint_in(tree: &Value) -> Option<Option<u128>>
    ensures { result ≡ viewpoint_in (view tree.now) }
{
    match tree.get("viewpoint_guid") {
        Some(value) => {
            if value.is_null() {
                return Some(None);
            }
            match value.as_str() {
                Some(text) => match identifier_of(text) {
                    Some(id) => Some(Some(id)),
                    None => None,
                },
                None => None,
            }
        }
        None => Some(None),
    }
}

/// The items under that name, none where it is no array.
#[tactic(auto, unfolding(crate::specs::Members::items_under))]
pub fn items_under<'a>(name: &str, tree: &'a Value) -> &'a [Value]
    ensures { items_view result.now ≡ items_under name.now (view tree.now) }
{
    match tree.get(name) {
        Some(value) => match value.as_array() {
            Some(items) => items.as_slice(),
            None => &[],
        },
        None => &[],
    }
}
