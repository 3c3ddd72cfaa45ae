//! Request URIs of the plain form. The parser of URLs would leave them as they are: it is spared.

ghost use Rattle.std.specs.Prelude.{◌≡◌, ◌==◌, ℕ, slice_index, ◌≤◌, ◌<◌, ◌^◌, true, length, take, decimal, IfSome, IsTrue};
ghost use Rattle.std.specs.List.{list_all};
ghost use Rattle.rtsp_state.specs.PlainUri.{is_host_byte, is_path_byte, may_follow, is_plain_path, FollowsPort, FollowsScheme, IsPlainUri};

use rtsp_text::number_of;

// What follows the scheme: rtsp, or rtsps of a connection whose TLS ends in front of the server.
fn after_scheme(text: &[u8]) -> Option<&[u8]>
    ensures { IfSome result (λ rest. FollowsScheme text.now rest.now) }
{
    match text {
        [b'r', b't', b's', b'p', b':', b'/', b'/', rest @ ..] => Some(rest),
        [b'r', b't', b's', b'p', b's', b':', b'/', b'/', rest @ ..] => Some(rest),
        _ => None,
    }
}

// A byte of a plain host: it is in lower case.
fn is_host_byte(byte: u8) -> bool
    ensures { result ≡ is_host_byte byte }
{
    matches!(byte, b'a'..=b'z' | b'0'..=b'9' | b'-' | b'.')
}

// A byte of a plain path, which is never escaped.
fn is_path_byte(byte: u8) -> bool
    ensures { result ≡ is_path_byte byte }
{
    matches!(byte, b'a'..=b'z' | b'0'..=b'9' | b'-' | b'.' | b'A'..=b'Z' | b'_' | b'/')
}

// Whether a path may have this byte right behind the other: a segment begins with no dot.
fn may_follow(before: u8, byte: u8) -> bool
    ensures { result ≡ may_follow before byte }
{
    is_path_byte(byte) && !(before == b'/' && byte == b'.')
}

// Whether the text is a plain path: a slash, and bytes that may follow each other.
fn is_plain_path(path: &[u8]) -> bool
    ensures { result ≡ is_plain_path path.now }
{
    let [b'/', rest @ ..] = path else {
        return false;
    };
    let mut before = b'/';
    for byte in rest {
        if !may_follow(before, *byte) {
            return false;
        }
        before = *byte;
    }
    true
}

// How many bytes at the front can be a host.
fn host_length(text: &[u8]) -> usize
    ensures within { result ≤ length text.now }
    ensures named { list_all is_host_byte (take result text.now) ≡ true }
{
    for (i, byte) in text.iter().enumerate() {
        if !is_host_byte(*byte) {
            return i;
        }
    }
    text.len()
}

// Whether the first digit is a zero.
fn begins_with_zero(digits: &[u8]) -> bool
    ensures { result ≡ (slice_index digits.now 0 == 48) }
{
    matches!(digits, [b'0', ..])
}

// Whether the digits write a port, without a leading zero.
fn is_port(digits: &[u8]) -> bool
    ensures { IsTrue result → (n : ℕ) × (n < 2 ^ 16) × (digits.now ≡ decimal n) }
{
    match number_of(digits, 5) {
        Some(number) => number < 65536 && !begins_with_zero(digits),
        None => false,
    }
}

// What follows a port, or the whole text where it begins with no colon.
fn after_port(text: &[u8]) -> Option<&[u8]>
    ensures { IfSome result (λ rest. FollowsPort text.now rest.now) }
{
    let [b':', rest @ ..] = text else {
        return Some(text);
    };
    let slash = rest.iter().position(|byte| *byte == b'/')?;
    let (digits, path) = rest.split_at(slash);
    if is_port(digits) { Some(path) } else { None }
}

/// The path of a plain URI. `None` says nothing of the text, which may be a URI of another form. It
/// takes no memory.
pub fn plain_path(text: &[u8]) -> Option<&[u8]>
    ensures { IfSome result (λ path. IsPlainUri text.now path.now) }
{
    let rest = after_scheme(text)?;
    let (host, behind) = rest.split_at(host_length(rest));
    let path = after_port(behind)?;
    if !host.is_empty() && is_plain_path(path) {
        Some(path)
    } else {
        None
    }
}
