//! When a lane looks for room in the journal.

ghost use Rattle.std.specs.Prelude.{◌≡◌, ◌↔◌, ◌≤◌, ◌<◌, ◌+◌, None, IsSome, IsTrue, IfSome};
ghost use Rattle.rtsp_threads.specs.Waits.{IsDue, left_until};
ghost use Rattle.rtsp_threads.specs.declared.limits.TheConstants.{LOOK_PAUSE};

use crate::limits::LOOK_PAUSE;

/// When a lane looks again for room in the journal, where it found none. Moments and times are
/// milliseconds.
#[derive(Clone, Copy, PartialEq, Eq)]
pub struct RoomLooks {
    /// The moment of the next look, where the last one found none.
    pub next: Option<u64>,
    /// The time before it.
    pub pause: u64,
}

impl RoomLooks {
    /// Those of a lane that hasn't looked.
    pub fn new() -> RoomLooks
        ensures { result.next ≡ None }
    {
        RoomLooks {
            next: None,
            pause: 0,
        }
    }

    /// A look found room.
    pub fn find(&mut self)
        ensures { self.new.next ≡ None }
    {
        *self = RoomLooks::new();
    }

    /// A look at this moment found no room.
    pub fn miss(&mut self, now: u64)
        ensures again { IsSome self.new.next }
        ensures later { IfSome self.new.next (λ at. now < u64.MAX → now < at) }
        ensures soon { IfSome self.new.next (λ at. at ≤ now + LOOK_PAUSE) }
    {
        self.pause = self.pause.saturating_mul(2).max(1).min(LOOK_PAUSE);
        self.next = Some(now.saturating_add(self.pause));
    }

    /// Whether it may be looked at this moment.
    pub fn is_due(&self, now: u64) -> bool
        ensures { IsTrue result ↔ IsDue self.now.next now }
    {
        match self.next {
            Some(at) => at <= now,
            None => true,
        }
    }

    /// For how long from this moment on there is nothing to be looked for.
    pub fn patience(&self, now: u64) -> u64
        ensures { result ≡ left_until self.now.next now }
    {
        match self.next {
            Some(at) => at.saturating_sub(now),
            None => 0,
        }
    }
}
