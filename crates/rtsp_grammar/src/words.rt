//! Classes of bytes that only messages have, and the words that are made of them.

ghost use Rattle.std.specs.Prelude.{◌≡◌, ◌≤◌, bytes_eq, length, take, drop, true, Some, None, IfSome, IfNone};
ghost use Rattle.std.specs.List.{list_all};
ghost use Rattle.rtsp_text.specs.Bytes.{is_token_byte};
ghost use Rattle.rtsp_text.specs.Slices.{halves};
ghost use Rattle.rtsp_text.specs.SplitOnce.{split_once};
ghost use Rattle.rtsp_grammar.specs.Bytes.{is_uri_byte, is_value_byte};
ghost use Rattle.rtsp_text.specs.Span.{IsSpan};
ghost use Rattle.rtsp_grammar.specs.Splitting.{at_byte, where_all};
ghost use Rattle.rtsp_grammar.specs.Words.{is_method, is_uri};

use httparse::is_header_value;
use rtsp_text::is_token_byte;

fn is_uri_byte(b: u8) -> bool
    ensures { result ≡ is_uri_byte b }
{
    (b >= b'!') & (b <= b'~')
}

/// How many bytes of a token are at the front.
pub fn token_len(text: &[u8]) -> usize
    ensures { IsSpan is_token_byte text.now result }
{
    for (i, byte) in text.iter().enumerate() {
        if !is_token_byte(*byte) {
            return i;
        }
    }
    text.len()
}

fn uri_len(text: &[u8]) -> usize
    ensures { IsSpan is_uri_byte text.now result }
{
    for (i, byte) in text.iter().enumerate() {
        if !is_uri_byte(*byte) {
            return i;
        }
    }
    text.len()
}

// The first bytes, and what follows the space after them. None where no space is there.
fn split_space(text: &[u8], len: usize) -> Option<(&[u8], &[u8])>
    requires { len ≤ length text.now }
    ensures { halves result ≡ at_byte 32 (take len text.now) (drop len text.now) }
{
    match &text[len..] {
        [b' ', rest @ ..] => Some((&text[..len], rest)),
        _ => None,
    }
}

/// The texts before and after the first space. None where there is no space, or where the text
/// before it has a byte that no token has.
pub fn split_token(text: &[u8]) -> Option<(&[u8], &[u8])>
    ensures some { IfSome result (λ p. Some (p.0.now, p.1.now) ≡ split_once 32 text.now) }
    ensures token { IfSome result (λ p. list_all is_token_byte p.0.now ≡ true) }
    ensures none { IfNone result (None ≡ where_all is_token_byte (split_once 32 text.now)) }
{
    split_space(text, token_len(text))
}

/// The same, where the text before the space has bytes of a URI alone.
pub fn split_uri(text: &[u8]) -> Option<(&[u8], &[u8])>
    ensures some { IfSome result (λ p. Some (p.0.now, p.1.now) ≡ split_once 32 text.now) }
    ensures uri { IfSome result (λ p. list_all is_uri_byte p.0.now ≡ true) }
    ensures none { IfNone result (None ≡ where_all is_uri_byte (split_once 32 text.now)) }
{
    split_space(text, uri_len(text))
}

/// Whether each byte may be in a header's value, as in HTTP.
pub fn are_value_bytes(bytes: &[u8]) -> bool
    ensures { result ≡ list_all is_value_byte bytes.now }
{
    is_header_value(bytes)
}

/// Whether a text is this word. One of another length costs no look at its bytes.
pub fn is_word(text: &[u8], word: &[u8]) -> bool
    ensures { result ≡ bytes_eq text.now word.now }
{
    text.len() == word.len() && text == word
}

/// Whether bytes of a token name a method: there is at least one, and the first isn't `$`, with
/// which a frame begins.
pub fn is_method(token: &[u8]) -> bool
    requires { list_all is_token_byte token.now ≡ true }
    ensures { result ≡ is_method token.now }
{
    match token {
        [first, ..] => *first != b'$',
        [] => false,
    }
}

/// Whether bytes of a URI are a URI: there is at least one.
pub fn is_uri(bytes: &[u8]) -> bool
    requires { list_all is_uri_byte bytes.now ≡ true }
    ensures { result ≡ is_uri bytes.now }
{
    !bytes.is_empty()
}
