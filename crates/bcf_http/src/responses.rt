//! Responses, byte for byte (RFC 9112, 4 and 6).
ghost use Rattle.std.specs.Prelude.{◌≡◌, ◌++◌, IfOk, string_bytes};
ghost use Rattle.bcf_http.specs.Responses.{status_line, type_line, allow_line, turn_line, close_line, length_line, head_text, body_part, response_text};

use bim_model::Bytes;
use http::StatusCode;
use http_routes::{RoutePath, methods_text};
use std::alloc::{AllocError, Global};

#[tactic(auto, unfolding(crate::specs::Responses::status_line))]
fn status_line(alloc: Global, status: StatusCode) -> Result<String, AllocError>
    ensures { IfOk result (λ s. string_bytes s ≡ status_line status) }
{
    let mut text = String::with_capacity(alloc, 256)?;
    text.push_str("HTTP/1.1 ")?;
    text.push_str(status.as_str())?;
    text.push_str(" ")?;
    text.push_str(status.canonical_reason().unwrap_or(""))?;
    text.push_str("\r\n")?;
    Ok(text)
}

// The line of the methods of a row, if one is to be told.
#[tactic(auto, unfolding(crate::specs::Responses::allow_line))]
fn allow_line(alloc: Global, allow: Option<RoutePath>) -> Result<String, AllocError>
    ensures { IfOk result (λ s. string_bytes s ≡ allow_line allow) }
{
    match allow {
        Some(row) => {
            let methods = methods_text(row);
            format!(in alloc; "Allow: {methods}\r\n")
        }
        None => Ok(String::new(alloc)),
    }
}

#[tactic(auto, unfolding(crate::specs::Responses::turn_line))]
fn turn_line(alloc: Global, turn: Option<u64>) -> Result<String, AllocError>
    ensures { IfOk result (λ s. string_bytes s ≡ turn_line turn) }
{
    match turn {
        Some(turn) => format!(in alloc; "X-Book-Turn: {turn}\r\n"),
        None => Ok(String::new(alloc)),
    }
}

#[tactic(auto, unfolding(crate::specs::Responses::close_line))]
fn close_line(close: bool) -> &'static str
    ensures { result.now ≡ close_line close }
{
    if close { "Connection: close\r\n" } else { "" }
}

#[tactic(auto, unfolding(crate::specs::Responses::length_line))]
fn length_line(alloc: Global, length: usize) -> Result<String, AllocError>
    ensures { IfOk result (λ s. string_bytes s ≡ length_line length) }
{
    format!(in alloc; "Content-Length: {length}\r\n\r\n")
}

fn body_part(head: bool, text: &str) -> &str
    ensures { result.now ≡ body_part head text.now }
{
    if head { "" } else { text }
}

// The lines that the status settles.
fn first_lines(
    alloc: Global,
    status: StatusCode,
    allow: Option<RoutePath>,
) -> Result<String, AllocError>
    ensures { IfOk result (λ s. string_bytes s ≡ status_line status ++ type_line ++ allow_line allow) }
{
    let mut text = status_line(alloc, status)?;
    text.push_str("Content-Type: application/json\r\n")?;
    text.push_str(allow_line(alloc, allow)?.as_str())?;
    Ok(text)
}

// The lines before the body.
#[tactic(auto, unfolding(crate::specs::Responses::head_text))]
fn head_text(
    alloc: Global,
    turn: Option<u64>,
    close: bool,
    status: StatusCode,
    allow: Option<RoutePath>,
    length: usize,
) -> Result<String, AllocError>
    ensures { IfOk result (λ s. string_bytes s ≡ head_text turn close status allow length) }
{
    let mut text = first_lines(alloc, status, allow)?;
    text.push_str(turn_line(alloc, turn)?.as_str())?;
    text.push_str(close_line(close))?;
    text.push_str(length_line(alloc, length)?.as_str())?;
    Ok(text)
}

/// The bytes of a response with this text as its body; without it where it replies to HEAD.
#[tactic(auto, unfolding(crate::specs::Responses::response_text))]
pub fn response(
    alloc: Global,
    turn: Option<u64>,
    close: bool,
    head: bool,
    status: StatusCode,
    allow: Option<RoutePath>,
    body: &str,
) -> Result<Bytes, AllocError>
    ensures { IfOk result (λ bytes. bytes ≡ response_text turn close head status allow body.now) }
{
    let mut text = head_text(alloc, turn, close, status, allow, body.len())?;
    text.push_str(body_part(head, body))?;
    Bytes::from_vec(alloc, text.into_bytes())
}
