//! A text split at a byte.

ghost use Rattle.memchr.specs.Find.{IsFirstByte, is_byte};
ghost use Rattle.std.specs.Prelude.{◌≡◌};
ghost use Rattle.rtsp_text.specs.SplitOnce.{split_once};
ghost use Rattle.rtsp_text.specs.Slices.{halves};

use memchr::memchr;

// Where the first such byte is. Never inlined, so that it hands back one number, and not two texts.
#[inline(never)]
fn place_of(text: &[u8], byte: u8) -> Option<usize>
    ensures { IsFirstByte (is_byte byte) text.now result }
{
    memchr(byte, text)
}

/// The text before the first `byte`, and the text after it. None where there is no such byte.
#[inline]
pub fn split_once(text: &[u8], byte: u8) -> Option<(&[u8], &[u8])>
    ensures { halves result ≡ split_once byte text.now }
{
    let at = place_of(text, byte)?;
    Some((&text[..at], &text[at + 1..]))
}
