//! Gaps between tokens: blanks and comments.
ghost use Rattle.std.specs.Prelude.{◌≡◌, ◌+◌, ◌≤◌, length, drop, option_map, IfSome};
ghost use Rattle.p21_lexer.specs.TokenSeparators.{is_blank, Skips};
ghost use Rattle.p21_lexer.specs.inner.TokenSpans.{comment_span, opens};
ghost use Rattle.p21_lexer.specs.Spelling.{run};

use crate::class::is_blank;

/// The end of the blanks that begin at `from`.
#[tactic(auto, using(crate::proofs::RunLemmas::heads))]
fn blanks_end(bytes: &[u8], from: usize) -> usize
    requires { from ≤ length bytes.now }
    ensures run { result ≡ from + run is_blank (drop from bytes.now) }
    ensures within { result ≤ length bytes.now }
{
    let mut at = from;
    while at < bytes.len() && is_blank(bytes[at]) {
        at += 1;
    }
    at
}

/// Whether a comment is opened at `from`.
#[tactic(auto, using(crate::proofs::RunLemmas::opens))]
fn opens_comment(bytes: &[u8], from: usize) -> bool
    requires { from ≤ length bytes.now }
    ensures { result ≡ opens (drop from bytes.now) }
{
    if from + 1 < bytes.len() && bytes[from] == b'/' && bytes[from + 1] == b'*' {
        return true;
    }
    false
}

/// The end of the comment whose inside begins at `from`; none where nothing closes it.
#[tactic(auto, using(crate::proofs::RunLemmas::comments))]
fn comment_end(bytes: &[u8], from: usize) -> Option<usize>
    requires { from ≤ length bytes.now }
    ensures span { result ≡ option_map (λ n. from + n) (comment_span (drop from bytes.now)) }
    ensures within { IfSome result (λ end. end ≤ length bytes.now) }
{
    let mut at = from;
    while at + 1 < bytes.len() {
        if bytes[at] == b'*' && bytes[at + 1] == b'/' {
            return Some(at + 2);
        }
        at += 1;
    }
    None
}

/// Past all blanks and whole comments from `from` on. A comment that nothing closes is none. Most tokens stand right after one another.
#[inline(always)]
pub fn skip(bytes: &[u8], from: usize) -> usize
    requires { from ≤ length bytes.now }
    ensures skips { Skips (drop from bytes.now) (drop result bytes.now) }
    ensures within { result ≤ length bytes.now }
    ensures on { from ≤ result }
{
    if from < bytes.len() && bytes[from] > b' ' && bytes[from] != b'/' {
        return from;
    }
    skip_any(bytes, from)
}

/// The same where blanks or a comment may stand there.
fn skip_any(bytes: &[u8], from: usize) -> usize
    requires { from ≤ length bytes.now }
    ensures skips { Skips (drop from bytes.now) (drop result bytes.now) }
    ensures within { result ≤ length bytes.now }
    ensures on { from ≤ result }
{
    let mut at = blanks_end(bytes, from);
    while opens_comment(bytes, at) {
        match comment_end(bytes, at + 2) {
            None => return at,
            Some(end) => at = blanks_end(bytes, end),
        }
    }
    at
}
