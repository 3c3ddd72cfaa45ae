//! For how long those whom a lane has put aside wait for room in the journal.

ghost use Rattle.std.specs.Prelude.{◌≡◌, ◌↔◌, None, Some, IsNone, IsSome, IsTrue};
ghost use Rattle.rtsp_threads.specs.Waits.{HasWaited};

use crate::limits::ROOM_LIMIT;

/// Since which moment room in the journal is waited for, if it is. Moments are milliseconds.
#[derive(Clone, Copy, PartialEq, Eq)]
pub struct RoomWait {
    pub since: Option<u64>,
}

impl RoomWait {
    /// Nobody waits.
    pub fn new() -> RoomWait
        ensures { result.since ≡ None }
    {
        RoomWait { since: None }
    }

    /// There is a wait from this moment on, unless there is one already.
    pub fn begin(&mut self, now: u64)
        ensures begins { IsNone self.old.since → self.new.since ≡ Some now }
        ensures goes_on { IsSome self.old.since → self.new ≡ self.old }
    {
        if self.since.is_none() {
            self.since = Some(now);
        }
    }

    /// The wait has ended.
    pub fn end(&mut self)
        ensures { self.new.since ≡ None }
    {
        self.since = None;
    }

    /// Whether there is a wait.
    pub fn is_begun(&self) -> bool
        ensures { IsTrue result ↔ IsSome self.now.since }
    {
        self.since.is_some()
    }

    /// Whether it has lasted for `ROOM_LIMIT`, and is to last no longer.
    pub fn is_over(&self, now: u64) -> bool
        ensures { IsTrue result ↔ HasWaited self.now.since now }
    {
        match self.since {
            Some(since) => now.saturating_sub(since) >= ROOM_LIMIT,
            None => false,
        }
    }
}
