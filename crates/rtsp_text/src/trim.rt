//! A text without the spaces and tabs at its ends.

ghost use Rattle.std.specs.Prelude.{◌≡◌};
ghost use Rattle.rtsp_text.specs.Trim.{trim_start, trim_end, trimmed};

use crate::bytes::is_blank;

/// The text without the spaces and tabs at its front.
pub fn trim_start(text: &[u8]) -> &[u8]
    ensures { result.now ≡ trim_start text.now }
{
    for (i, byte) in text.iter().enumerate() {
        if !is_blank(*byte) {
            return &text[i..];
        }
    }
    &[]
}

/// The text without the spaces and tabs at its end.
pub fn trim_end(text: &[u8]) -> &[u8]
    ensures { result.now ≡ trim_end text.now }
{
    let mut end = text.len();
    'back: while end > 0 && is_blank(text[end - 1]) {
        end -= 1;
    }
    &text[..end]
}

/// The text without the spaces and tabs at its ends.
#[tactic(auto, unfolding(crate::specs::Trim::trimmed))]
pub fn trimmed(text: &[u8]) -> &[u8]
    ensures { result.now ≡ trimmed text.now }
{
    trim_end(trim_start(text))
}
