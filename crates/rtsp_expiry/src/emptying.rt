//! The end of all sessions, for whoever has the book alone.

ghost use Rattle.std.specs.Prelude.{◌≡◌};
ghost use Rattle.std.specs.FinMap.{empty};
ghost use Rattle.rtsp_record.specs.Books.{book_of};
ghost use Rattle.rtsp_expiry.specs.Emptying.{EndsAll};

use rtsp_book::{Kept, Receipt, Step};
use rtsp_sessions::BookRep;
use std::sync::Wait;

/// Ends all sessions, the least number first, under this actor: then nothing is held, and the book
/// is empty, as it was when it was opened. It takes no memory. No port is unbound, so it is for a
/// server that is at its end.
pub fn end_all<R: Wait, B: BookRep>(rt: &R, kept: &mut Kept<B>, actor: u64)
    ensures nobody { book_of kept.new.journal ≡ empty }
    ensures ends { EndsAll actor kept.old kept.new }
{
    let mut made = Receipt::new();
    for _ in rt.forever() {
        match kept.book().next_session(0) {
            Some(session) => {
                let _ = kept.act_into(actor, &Step::End { session }, &mut made);
            }
            None => break,
        }
    }
}
