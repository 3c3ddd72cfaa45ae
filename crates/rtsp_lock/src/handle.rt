//! A thread's way to the book.

ghost use Rattle.std.specs.Prelude.{◌≡◌, ◌⊎◌, IfSome, IfNone};
ghost use Rattle.std.specs.Arc.{arc_value};
ghost use Rattle.rtsp_lock.specs.Calls.{IsSeatOf, SameSeat, KnowsSame, KeepsEntries, IsSharedAs};
ghost use Rattle.rtsp_lock.specs.Calls.{Looked, LookedAndMade, Drew, Forgot, Checked, Relieved, Made, seat_view};
ghost use Rattle.rtsp_lock.specs.Tallies.{IsTallyOf};

use crate::lock::BookLock;
use crate::numbering::{DrawnNumbers, Numbers};
use crate::seat::BookSeat;
use crate::tally::Tally;
use std::sync::{Arc, Wait};

/// A seat together with the lock that it is of. It may go to another thread.
#[derive(Drop)]
pub struct BookHandle<N: Numbers = DrawnNumbers> {
    pub lock: Arc<BookLock<N>>,
    pub seat: BookSeat,
    ghost ours: { IsSeatOf seat (arc_value lock) },
}

impl<N: Numbers> BookHandle<N> {
    /// The handle of a seat of this lock.
    pub fn new(lock: Arc<BookLock<N>>, seat: BookSeat) -> BookHandle<N>
        requires { IsSeatOf seat (arc_value lock) }
        ensures lock { result.lock ≡ lock }
        ensures seat { result.seat ≡ seat }
    {
        BookHandle { lock, seat }
    }

    /// A handle with a seat of its own, whose actor is a number that no seat has drawn. There is
    /// none where the numbers are used up, or where the lock is shared as often as its `Arc` can
    /// count.
    pub fn split<R: Wait>(&mut self, rt: &R) -> Option<BookHandle<N>>
        ensures same { SameSeat self.old.seat self.new.seat }
        ensures lock { arc_value self.new.lock ≡ arc_value self.old.lock }
        ensures other { IfSome result (λ h. arc_value h.lock ≡ arc_value self.old.lock) }
        ensures shared { IfSome result (λ h. IsSharedAs self.old.seat self.new.seat × IsSharedAs self.old.seat h.seat) }
        ensures knows { IfNone result (KnowsSame self.old.seat self.new.seat) }
        ensures looked { IfSome result (λ h. LookedAndMade (seat_view self.old.seat) (seat_view self.new.seat)) }
        ensures made { IfSome result (λ h. Made (seat_view self.old.seat) (seat_view self.new.seat) (seat_view h.seat)) }
        ensures uncut { IfNone result ((seat_view self.new.seat).cut ≡ (seat_view self.old.seat).cut) }
        ensures none { IfNone result ((seat_view self.new.seat ≡ seat_view self.old.seat) ⊎ LookedAndMade (seat_view self.old.seat) (seat_view self.new.seat)) }
    {
        let lock = Arc::try_clone(&self.lock).ok()?;
        let seat = self.seat.split(rt, &self.lock).ok()?;
        Some(BookHandle { lock, seat })
    }

    /// A number that no seat has drawn, if one is left.
    pub fn draw<R: Wait>(&mut self, rt: &R) -> Option<u64>
        ensures same { SameSeat self.old.seat self.new.seat }
        ensures knows { KnowsSame self.old.seat self.new.seat }
        ensures lock { arc_value self.new.lock ≡ arc_value self.old.lock }
        ensures looked { Looked (seat_view self.old.seat) (seat_view self.new.seat) }
        ensures drawn { IfSome result (λ n. Drew (seat_view self.old.seat) (seat_view self.new.seat) n) }
        ensures spent { IfNone result (((seat_view self.new.seat).next ≡ u64.MAX) × ((seat_view self.new.seat).drawn ≡ (seat_view self.old.seat).drawn)) }
    {
        self.seat.draw(rt, &self.lock).ok()
    }

    /// Forgets all sessions that have ended: their entries leave the journal. It is one pass over
    /// the whole journal with the lock held, some 10 ms where that has a million entries, so every
    /// other thread that wants the book waits as long: lanes with their answers, and pacers before
    /// their next packet.
    pub fn forget<R: Wait>(&mut self, rt: &R)
        ensures same { SameSeat self.old.seat self.new.seat }
        ensures knows { KnowsSame self.old.seat self.new.seat }
        ensures lock { arc_value self.new.lock ≡ arc_value self.old.lock }
        ensures forgot { Forgot (seat_view self.old.seat) (seat_view self.new.seat) }
    {
        self.seat.forget(rt, &self.lock);
    }

    /// Makes a checkpoint: each session of which no SETUP is under way then stands in the journal
    /// by what makes it as it is, in place of all that it did.
    pub fn checkpoint<R: Wait>(&mut self, rt: &R)
        ensures same { SameSeat self.old.seat self.new.seat }
        ensures knows { KnowsSame self.old.seat self.new.seat }
        ensures lock { arc_value self.new.lock ≡ arc_value self.old.lock }
        ensures checked { Checked (seat_view self.old.seat) (seat_view self.new.seat) }
    {
        self.seat.checkpoint(rt, &self.lock);
    }

    /// Makes a checkpoint where it pays, with more entries than `above`, and tells whether one was
    /// due. Where none is, the lock is held for a moment only.
    pub fn relieve<R: Wait>(&mut self, rt: &R, above: usize) -> bool
        ensures same { SameSeat self.old.seat self.new.seat }
        ensures knows { KnowsSame self.old.seat self.new.seat }
        ensures lock { arc_value self.new.lock ≡ arc_value self.old.lock }
        ensures relieved { Relieved above result (seat_view self.old.seat) (seat_view self.new.seat) }
    {
        self.seat.relieve(rt, &self.lock, above)
    }

    /// The book's figures, all of one moment. The lock is held for a moment only.
    pub fn tally<R: Wait>(&mut self, rt: &R) -> Tally
        ensures same { SameSeat self.old.seat self.new.seat }
        ensures knows { KnowsSame self.old.seat self.new.seat }
        ensures lock { arc_value self.new.lock ≡ arc_value self.old.lock }
        ensures looked { Looked (seat_view self.old.seat) (seat_view self.new.seat) }
        ensures shown { IsTallyOf (seat_view self.new.seat).whole (seat_view self.new.seat).seen result }
    {
        self.seat.tally(rt, &self.lock)
    }

    /// From here on this handle, and each that is split off it, shortens the journal only by the
    /// calls that are for that. See `BookSeat::keep_entries`.
    pub fn keep_entries(&mut self)
        ensures same { SameSeat self.old.seat self.new.seat }
        ensures kept { KeepsEntries self.old.seat self.new.seat }
        ensures lock { self.new.lock ≡ self.old.lock }
        ensures view { seat_view self.new.seat ≡ seat_view self.old.seat }
    {
        self.seat.keep_entries();
    }
}
