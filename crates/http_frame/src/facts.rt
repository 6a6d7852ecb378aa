//! What the fields of a head say.
ghost use Rattle.std.specs.Prelude.{◌≡◌, ◌≤◌, ◌==◌, ◌&&◌, not, [], length, map, All, IfNone, IfSome, IfOk, codes};
ghost use Rattle.std.specs.List.{list_any};
ghost use Rattle.httparse.specs.Spans.{IsHeaderWithin, header_bytes};
ghost use Rattle.http1.specs.Text.{eq_ignore_case};
ghost use Rattle.http1.specs.Fields.{values_named, elements_named, has_option};
ghost use Rattle.http_frame.specs.Heads.{user_by};
ghost use Rattle.http_frame.specs.inner.Facts.{has_name, has_value, has_other_value, values_at, IsFirst, IsOnly, user_in};

use crate::limits::MOST_USER;
use bim_model::Text;
use http1::fields::KnownFields;
use httparse::spans::{HeaderSpan, Span};
use std::alloc::{AllocError, Global};

/// How often a field stands, and where its value is where it stands once.
#[derive(Clone, Copy, Debug, PartialEq, Eq)]
pub enum Only {
    Absent,
    Once(Span),
    Repeated,
}

#[tactic(auto, unfolding(http1::specs::Text::eq_ignore_case))]
fn has_name(wanted: &[u8], block: &[u8], header: &HeaderSpan) -> bool
    requires { IsHeaderWithin (length block.now) header.now }
    ensures { result ≡ has_name wanted.now (header_bytes block.now header.now) }
{
    header.name.of(block).eq_ignore_ascii_case(wanted)
}

#[tactic(auto, unfolding(http1::specs::Text::eq_ignore_case))]
fn is_value(option: &[u8], block: &[u8], header: &HeaderSpan) -> bool
    requires { IsHeaderWithin (length block.now) header.now }
    ensures { result ≡ eq_ignore_case (header_bytes block.now header.now).1 option.now }
{
    header.value.of(block).eq_ignore_ascii_case(option)
}

/// How many fields have this name.
pub fn count_named(wanted: &[u8], block: &[u8], headers: &[HeaderSpan]) -> usize
    requires { All (IsHeaderWithin (length block.now)) headers.now }
    ensures { result ≡ length (values_named wanted.now (map (header_bytes block.now) headers.now)) }
{
    let mut count = 0;
    for header in headers {
        if has_name(wanted, block, header) {
            count += 1;
        }
    }
    count
}

// Where the value of the first field with this name is.
fn first_named(wanted: &[u8], block: &[u8], headers: &[HeaderSpan]) -> Option<Span>
    requires { All (IsHeaderWithin (length block.now)) headers.now }
    ensures none { IfNone result (values_at wanted.now block.now headers.now ≡ []) }
    ensures some { IfSome result (IsFirst block.now (values_at wanted.now block.now headers.now)) }
{
    for header in headers {
        if has_name(wanted, block, header) {
            return Some(header.value);
        }
    }
    None
}

/// How often a field with this name stands.
pub fn only_named(wanted: &[u8], block: &[u8], headers: &[HeaderSpan]) -> Only
    requires { All (IsHeaderWithin (length block.now)) headers.now }
    ensures { IsOnly block.now (values_at wanted.now block.now headers.now) result }
{
    match first_named(wanted, block, headers) {
        None => Only::Absent,
        Some(span) => {
            if count_named(wanted, block, headers) == 1 {
                Only::Once(span)
            } else {
                Only::Repeated
            }
        }
    }
}

fn has_value(wanted: &[u8], option: &[u8], block: &[u8], header: &HeaderSpan) -> bool
    requires { IsHeaderWithin (length block.now) header.now }
    ensures { result ≡ has_value wanted.now option.now (header_bytes block.now header.now) }
{
    has_name(wanted, block, header) && is_value(option, block, header)
}

/// Whether a field with this name has the value, in letters of either case.
pub fn any_value(wanted: &[u8], option: &[u8], block: &[u8], headers: &[HeaderSpan]) -> bool
    requires { All (IsHeaderWithin (length block.now)) headers.now }
    ensures { result ≡ list_any (has_value wanted.now option.now) (map (header_bytes block.now) headers.now) }
{
    for header in headers {
        if has_value(wanted, option, block, header) {
            return true;
        }
    }
    false
}

fn has_other_value(wanted: &[u8], option: &[u8], block: &[u8], header: &HeaderSpan) -> bool
    requires { IsHeaderWithin (length block.now) header.now }
    ensures { result ≡ has_other_value wanted.now option.now (header_bytes block.now header.now) }
{
    has_name(wanted, block, header) && !is_value(option, block, header)
}

/// Whether a field with this name has another value.
pub fn any_other_value(wanted: &[u8], option: &[u8], block: &[u8], headers: &[HeaderSpan]) -> bool
    requires { All (IsHeaderWithin (length block.now)) headers.now }
    ensures { result ≡ list_any (has_other_value wanted.now option.now)
        (map (header_bytes block.now) headers.now) }
{
    for header in headers {
        if has_other_value(wanted, option, block, header) {
            return true;
        }
    }
    false
}

/// Whether the fields `Connection` list `close`.
#[tactic(auto, unfolding(http1::specs::Fields::known_fields))]
pub fn lists_close(block: &[u8], headers: &[HeaderSpan]) -> bool
    requires { All (IsHeaderWithin (length block.now)) headers.now }
    ensures { result ≡ has_option (codes "close")
        (elements_named (codes "connection") (map (header_bytes block.now) headers.now)) }
{
    KnownFields::from_spans(block, headers).close
}

// The user that a value names.
fn user_in(alloc: Global, value: &[u8]) -> Result<Text, AllocError>
    ensures { IfOk result (λ user. user ≡ user_in value.now) }
{
    if value.is_empty() || value.len() > MOST_USER {
        return Text::of(alloc, "anonymous");
    }
    match str::from_utf8(value) {
        Ok(user) => Text::of(alloc, user),
        Err(_) => Text::of(alloc, "anonymous"),
    }
}

/// The user that the field `X-User` names where it stands once, else `anonymous`.
pub fn user_of(alloc: Global, block: &[u8], headers: &[HeaderSpan]) -> Result<Text, AllocError>
    requires { All (IsHeaderWithin (length block.now)) headers.now }
    ensures { IfOk result (λ user. user ≡ user_by (values_at (codes "x-user") block.now headers.now)) }
{
    match only_named(b"x-user", block, headers) {
        Only::Absent => Text::of(alloc, "anonymous"),
        Only::Once(span) => user_in(alloc, span.of(block)),
        Only::Repeated => Text::of(alloc, "anonymous"),
    }
}
