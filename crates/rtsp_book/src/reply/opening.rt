//! The reply to Open.

ghost use Rattle.std.specs.Prelude.{◌≡◌, ◌||◌, [], is_some, nat_lt};
ghost use Rattle.std.specs.FinMap.{get};
ghost use Rattle.rtsp_record.specs.Sums.{amount, with_id};
ghost use Rattle.rtsp_book.specs.Receipts.{filled};
ghost use Rattle.rtsp_book.specs.Replies.{answer};

use crate::receipts::Receipt;
use crate::refusals::Refusal;
use crate::reply::case::Case;
use crate::steps::Step;
use rtsp_record::{Life, Record};
use rtsp_sessions::BookRep;

impl<'a, B: BookRep> Case<'a, B> {
    // Whether a session lives that has the number or the id.
    fn is_id_taken(&self, life: &Life) -> bool
        ensures { result ≡ (is_some (get self.now.book life.now.session) || nat_lt 0 (amount (with_id life.now.id) self.now.book)) }
    {
        self.lives(life.session) || self.by_id(life.id.number()).is_some()
    }

    pub(super) fn open(&self, life: Life, made: &mut Receipt) -> Result<(), Refusal>
        requires { made.old ≡ [] }
        ensures { filled result made.new ≡ answer self.now.whole self.now.entries self.now.book (Step.Open life) }
    {
        if self.has_all_sessions() {
            return Err(Refusal::TooManySessions);
        }
        if self.is_id_taken(&life) {
            return Err(Refusal::IdTaken);
        }
        made.push(Record::Open(life));
        self.unless_full(made)
    }
}
