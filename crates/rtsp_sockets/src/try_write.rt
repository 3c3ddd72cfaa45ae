//! Writing that doesn't wait.

ghost use Rattle.std.specs.Prelude.{◌≤◌, ℕ, List, Option, IfSome, length};
ghost use Rattle.rtsp_sockets.specs.Passing.{Tries};
ghost use Rattle.rtsp_sockets.specs.Asking.{AsksOnce};

use std::io::{ErrorKind, Write};

// The most signals that may interrupt a write before it counts as one that took nothing.
const INTERRUPTIONS: u32 = 16;

// A stream that takes what it can at once.
pub(crate) trait TryWrite {
    // The stream before and after it was asked to take some bytes: it took so many from the front,
    // or it is broken.
    ghost tries: { Self → List ℕ → Option ℕ → Self → Type 0 };

    // Takes some of the bytes, which may be none. `None` where the stream is broken.
    fn try_write(&mut self, bytes: &[u8]) -> Option<usize>
        ensures within { IfSome result (λ n. n ≤ length bytes.now) }
        ensures tries { tries self.old bytes.now result self.new };
}

// What came of asking a stream of the system once.
#[derive(Drop)]
enum Asked {
    // It took so many bytes, or is broken.
    Answered(Option<usize>),
    // A signal came first, and nothing was taken.
    Interrupted,
}

#[tactic(auto, using(crate::proofs::Known::appends_kept_none))]
fn ask_once<W: Write>(to: &mut W, bytes: &[u8]) -> Asked
    ensures { AsksOnce (W.contents to.old) (W.contents to.new) bytes.now result }
{
    match to.write(bytes) {
        Ok(n) => Asked::Answered(Some(n)),
        Err(e) => match e.kind() {
            ErrorKind::WouldBlock => Asked::Answered(Some(0)),
            ErrorKind::Interrupted => Asked::Interrupted,
            _ => Asked::Answered(None),
        },
    }
}

// Of a stream of the system no bytes are known.
impl<W: Write> TryWrite for W {
    ghost tries = { λ s bytes taken t. Tries (W.contents s) (W.contents t) bytes taken };

    fn try_write(&mut self, bytes: &[u8]) -> Option<usize> {
        for _ in 0..INTERRUPTIONS {
            if let Asked::Answered(taken) = ask_once(self, bytes) {
                return taken;
            }
        }
        Some(0)
    }
}
