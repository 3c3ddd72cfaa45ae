//! Scanning for the end of a head that comes in pieces, each byte once.

ghost use Rattle.std.specs.Prelude.{◌≡◌, ◌<◌, length, IfSome};
ghost use Rattle.std.specs.Bool.{OnFalse};
ghost use Rattle.rtsp_grammar.specs.Answer.{IsUndecided};
ghost use Rattle.rtsp_grammar.specs.Scan.{IsPlace, reached_after, reached_within, BeginsNoFrame};

use rtsp_text::{Line, line_at};

/// What stands right before a place in a head.
#[derive(Clone, Copy)]
pub enum Reached {
    /// Empty lines, or nothing: no line has begun.
    Start,
    /// The end of a line that isn't empty.
    LineEnd,
    /// Bytes of a line that isn't ended.
    Line,
}

/// Where the scan of a head stopped: no head ends before it.
#[derive(Clone, Copy)]
pub struct ScanPlace {
    pub at: usize,
    pub reached: Reached,
}

impl ScanPlace {
    /// The front of the input.
    pub const FRONT: ScanPlace = ScanPlace {
        at: 0,
        reached: Reached::Start,
    };
}

impl Reached {
    // Whether a frame stands here, in place of a message.
    fn is_frame(self, left: &[u8]) -> bool
        ensures { OnFalse result (BeginsNoFrame self left.now) }
    {
        match self {
            Reached::Start => left.starts_with(b"$"),
            _ => false,
        }
    }

    // What a line that ends here leads to. None: an empty line ends the head.
    fn after_line(self, is_empty: bool) -> Option<Reached>
        ensures { result ≡ reached_after self is_empty }
    {
        match (self, is_empty) {
            (Reached::Start, true) => Some(Reached::Start),
            (Reached::LineEnd, true) => None,
            _ => Some(Reached::LineEnd),
        }
    }

    // What bytes of a line that isn't ended lead to, if there are any.
    fn after_part(self, is_empty: bool) -> Reached
        ensures { result ≡ reached_within self is_empty }
    {
        if is_empty { self } else { Reached::Line }
    }
}

/// Scans on from a place, to where the head is open still. None: the head has ended, a line of it is
/// broken, or a frame stands there.
pub fn scan(bytes: &[u8], place: ScanPlace) -> Option<ScanPlace>
    requires { IsPlace bytes.now place }
    ensures place { IfSome result (λ p. IsPlace bytes.now p) }
    ensures open { IfSome result (λ p. length bytes.now < 8192 → IsUndecided bytes.now) }
{
    let (_, mut left) = bytes.split_at(place.at);
    let mut reached = place.reached;
    'lines: loop {
        if reached.is_frame(left) {
            return None;
        }
        match line_at(left) {
            Line::Broken => return None,
            Line::Open { line } => {
                return Some(ScanPlace {
                    at: bytes.len() - left.len() + line.len(),
                    reached: reached.after_part(line.is_empty()),
                });
            }
            Line::Ended { line, rest } => {
                let Some(next) = reached.after_line(line.is_empty()) else {
                    return None;
                };
                reached = next;
                left = rest;
            }
        }
    }
}
