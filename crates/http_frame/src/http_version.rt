//! The version that the first line of a request names.
ghost use Rattle.std.specs.Prelude.{◌≡◌, ◌≤◌, ◌<◌, ℕ, IfNone, IfSome, None, Some, length, take, drop, reverse, slice_index, bytes_eq, codes};
ghost use Rattle.http_frame.specs.Heads.{line_at, first_line, without_cr, ends_in_version, has_other_version};
ghost use Rattle.http_frame.specs.inner.HeadLines.{begins_blank, begins_lf, is_current, is_version};

fn tail(bytes: &[u8], at: usize) -> &[u8]
    requires { at ≤ length bytes.now }
    ensures { result.now ≡ drop at bytes.now }
{
    &bytes[at..]
}

fn front(bytes: &[u8], count: usize) -> &[u8]
    requires { count ≤ length bytes.now }
    ensures { result.now ≡ take count bytes.now }
{
    &bytes[..count]
}

fn begins_lf(bytes: &[u8]) -> bool
    ensures { result ≡ begins_lf bytes.now }
{
    match bytes {
        [] => false,
        [first, ..] => *first == b'\n',
    }
}

// Whether an empty line, or the last byte of one, stands at the front.
fn begins_blank(bytes: &[u8]) -> bool
    ensures { result ≡ begins_blank bytes.now }
{
    match bytes {
        [] => false,
        [first, rest @ ..] => *first == b'\n' || (*first == b'\r' && begins_lf(rest)),
    }
}

// Where the first line begins that is not empty.
fn line_start(bytes: &[u8]) -> usize
    ensures within { result ≤ length bytes.now }
    ensures line { first_line bytes.now ≡ line_at (drop result bytes.now) }
{
    for at in 0..bytes.len() {
        if !begins_blank(tail(bytes, at)) {
            return at;
        }
    }
    bytes.len()
}

// Where the first line ends.
fn line_end(bytes: &[u8]) -> Option<usize>
    ensures none { IfNone result (line_at bytes.now ≡ None) }
    ensures some { IfSome result (λ end. (end ≤ length bytes.now)
        × (line_at bytes.now ≡ Some (take end bytes.now))) }
{
    for (at, b) in bytes.iter().enumerate() {
        if *b == b'\n' {
            return Some(at);
        }
    }
    None
}

fn without_cr(line: &[u8]) -> &[u8]
    ensures { reverse result.now ≡ without_cr (reverse line.now) }
{
    match line {
        [before @ .., b'\r'] => before,
        _ => line,
    }
}

// The byte at this place from the line's end.
fn from_end(line: &[u8], at: usize) -> u8
    requires { at < length line.now }
    ensures { result ≡ slice_index (reverse line.now) at }
{
    line[line.len() - 1 - at]
}

fn is_current(major: u8, minor: u8) -> bool
    ensures { result ≡ is_current major minor }
{
    major == b'1' && (minor == b'0' || minor == b'1')
}

fn is_version(minor: u8, point: u8, major: u8) -> bool
    ensures { result ≡ is_version minor point major }
{
    minor.is_ascii_digit() && point == b'.' && major.is_ascii_digit()
}

fn is_name(name: [u8; 6]) -> bool
    ensures { result ≡ bytes_eq name (codes "/PTTH ") }
{
    name.as_slice() == b"/PTTH ".as_slice()
}

// Whether the line, without its CR, ends in a version other than 1.0 and 1.1.
fn ends_in_version(line: &[u8]) -> bool
    ensures { result ≡ ends_in_version (reverse line.now) }
{
    if line.len() < 9 {
        return false;
    }
    let (minor, point, major) = (from_end(line, 0), from_end(line, 1), from_end(line, 2));
    let name = [
        from_end(line, 3),
        from_end(line, 4),
        from_end(line, 5),
        from_end(line, 6),
        from_end(line, 7),
        from_end(line, 8),
    ];
    is_version(minor, point, major) && is_name(name) && !is_current(major, minor)
}

/// Whether the first line that is not empty is whole, and names a version other than 1.0 and 1.1.
#[tactic(auto, unfolding(crate::specs::Heads::has_other_version))]
pub fn has_other_version(bytes: &[u8]) -> bool
    ensures { result ≡ has_other_version (first_line bytes.now) }
{
    let line = tail(bytes, line_start(bytes));
    match line_end(line) {
        None => false,
        Some(end) => ends_in_version(without_cr(front(line, end))),
    }
}
