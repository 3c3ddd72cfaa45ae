//! A line that CR LF ends, at the front of a text.

ghost use Rattle.rtsp_text.specs.Bytes.{is_line_byte};
ghost use Rattle.rtsp_text.specs.Span.{IsSpan};
ghost use Rattle.rtsp_text.specs.LineAt.{IsLineAt};

use memchr::memchr2;

const CR: u8 = 13;

const LF: u8 = 10;

/// What is at the front of a text.
pub enum Line<'a> {
    /// A line without its CR LF, and what follows.
    Ended { line: &'a [u8], rest: &'a [u8] },
    /// The line has a CR without LF, or an LF without CR.
    Broken,
    /// The line isn't ended yet; these are its bytes so far, without a CR at the end.
    Open { line: &'a [u8] },
}

// How many bytes there are before the first CR or LF. Never inlined, so that it hands back one number.
#[inline(never)]
fn plain_len(bytes: &[u8]) -> usize
    ensures { IsSpan is_line_byte bytes.now result }
{
    memchr2(CR, LF, bytes).unwrap_or(bytes.len())
}

/// The line at the front.
#[inline]
pub fn line_at(bytes: &[u8]) -> Line<'_>
    ensures { IsLineAt bytes.now result }
{
    let end = plain_len(bytes);
    if end == bytes.len() {
        return Line::Open { line: bytes };
    }
    if bytes[end] == LF {
        return Line::Broken;
    }
    if end + 1 == bytes.len() {
        return Line::Open {
            line: &bytes[..end],
        };
    }
    if bytes[end + 1] != LF {
        return Line::Broken;
    }
    Line::Ended {
        line: &bytes[..end],
        rest: &bytes[end + 2..],
    }
}
