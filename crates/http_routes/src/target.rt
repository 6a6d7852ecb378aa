//! The target of a request: its path and its query.
ghost use Rattle.std.specs.Prelude.{◌≡◌, ◌≤◌, length, take, drop, option_map};
ghost use Rattle.std.specs.List.{position};
ghost use Rattle.http_routes.specs.Targets.{is_question, is_slash, split_target, from_slash, path_in};

fn question_at(target: &[u8]) -> Option<usize>
    ensures { result ≡ position is_question target.now }
{
    target.iter().position(|byte| *byte == b'?')
}

fn slash_at(text: &[u8]) -> Option<usize>
    ensures { result ≡ position is_slash text.now }
{
    text.iter().position(|byte| *byte == b'/')
}

fn front(bytes: &[u8], count: usize) -> &[u8]
    requires { count ≤ length bytes.now }
    ensures { result.now ≡ take count bytes.now }
{
    &bytes[..count]
}

fn tail(bytes: &[u8], at: usize) -> &[u8]
    requires { at ≤ length bytes.now }
    ensures { result.now ≡ drop at bytes.now }
{
    &bytes[at..]
}

/// What stands before the first question mark of a target, and its query, which stands behind it.
#[tactic(auto, unfolding(crate::specs::Targets::split_target))]
pub fn split_target(target: &[u8]) -> (&[u8], &[u8])
    ensures before { result.0.now ≡ (split_target target.now).0 }
    ensures query { result.1.now ≡ (split_target target.now).1 }
{
    match question_at(target) {
        Some(place) => (front(target, place), tail(target, place + 1)),
        None => (target, &[]),
    }
}

#[tactic(auto, unfolding(crate::specs::Targets::from_slash))]
fn from_slash(text: &[u8]) -> Option<&[u8]>
    ensures { option_map (λ rest. rest.now) result ≡ from_slash text.now }
{
    match slash_at(text) {
        Some(place) => Some(tail(text, place)),
        None => None,
    }
}

/// The path of what stands before the query (RFC 9112, 3.2): in absolute form what follows the host.
pub fn path_in(text: &[u8]) -> Option<&[u8]>
    ensures { option_map (λ path. path.now) result ≡ path_in text.now }
{
    match text.strip_prefix(b"http://") {
        Some(rest) => from_slash(rest),
        None => Some(text),
    }
}
