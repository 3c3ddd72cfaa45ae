//! Finding a head: its first line, its header lines, and the empty line that ends them.

ghost use Rattle.std.specs.Prelude.{◌≡◌, ◌∷◌, IfSome, IfNone};
ghost use Rattle.rtsp_grammar.specs.HeadAt.{IsHeaderLinesAt, IsHeadAt};
ghost use Rattle.rtsp_grammar.specs.Item.{BeginsBlank};

use crate::folds::begins_blank;
use rtsp_text::{Line, line_at};

/// The lines of a head, as they are in the text.
#[derive(Clone, Copy)]
pub struct HeadText<'a> {
    /// The first line without its CR LF.
    pub first: &'a [u8],
    /// The header lines, each with its CR LF.
    pub headers: &'a [u8],
    /// How many header lines there are, where a line that continues another isn't counted.
    pub count: usize,
}

/// What is at the front of a text.
pub enum HeadAt<'a> {
    /// A head, in this many bytes.
    Ended { head: HeadText<'a>, len: usize },
    /// A CR or an LF alone ends a line.
    Broken,
    /// The head's end hasn't come.
    Open,
}

// What is at the front of a text after a first line.
enum HeaderLinesAt<'a> {
    // Header lines, how many of them continue no other, and what follows the empty line.
    Ended {
        headers: &'a [u8],
        count: usize,
        rest: &'a [u8],
    },
    Broken,
    Open,
}

// What follows the empty line at the front.
fn after_empty_line(bytes: &[u8]) -> Option<&[u8]>
    ensures some { IfSome result (λ rest. bytes.now ≡ 13 ∷ 10 ∷ rest.now) }
    ensures none { IfNone result (¬ BeginsBlank bytes.now) }
{
    match bytes {
        [b'\r', b'\n', rest @ ..] => Some(rest),
        _ => None,
    }
}

// The header lines at the front, up to the first empty line.
fn header_lines_at(bytes: &[u8]) -> HeaderLinesAt<'_>
    ensures { IsHeaderLinesAt bytes.now result }
{
    let mut count = 0;
    let mut left = bytes;
    'lines: loop {
        if let Some(rest) = after_empty_line(left) {
            let headers = &bytes[..bytes.len() - left.len()];
            return HeaderLinesAt::Ended {
                headers,
                count,
                rest,
            };
        }
        match line_at(left) {
            Line::Ended { line, rest } => {
                if !begins_blank(line) {
                    count += 1;
                }
                left = rest;
            }
            Line::Broken => return HeaderLinesAt::Broken,
            Line::Open { line: _ } => return HeaderLinesAt::Open,
        }
    }
}

/// The head at the front, which takes no memory.
pub fn head_at(bytes: &[u8]) -> HeadAt<'_>
    requires { ¬ BeginsBlank bytes.now }
    ensures { IsHeadAt bytes.now result }
{
    match line_at(bytes) {
        Line::Broken => HeadAt::Broken,
        Line::Open { line: _ } => HeadAt::Open,
        Line::Ended { line: first, rest } => match header_lines_at(rest) {
            HeaderLinesAt::Broken => HeadAt::Broken,
            HeaderLinesAt::Open => HeadAt::Open,
            HeaderLinesAt::Ended {
                headers,
                count,
                rest,
            } => HeadAt::Ended {
                head: HeadText {
                    first,
                    headers,
                    count,
                },
                len: bytes.len() - rest.len(),
            },
        },
    }
}
