//! How many plays that were left before they were taken over are sent.

ghost use Rattle.std.specs.Prelude.{◌≡◌, ◌≤◌, ◌<◌, ◌↔◌, ◌+◌, ◌/◌, ◌≢◌, ◌⊎◌, min, IsTrue};
ghost use Rattle.rtsp_rtp.specs.Pacing.{begun_at};
ghost use Rattle.rtsp_pacing.specs.declared.left_early.TheConstants.{MOST};

use rtsp_record::Phase;

// In each window of so many milliseconds at most `MOST` of them are sent. Players who seek stay far
// below that. A player who asks for play after play, each of which counts a unit, is not to keep a
// pacer from the other plays.
const WINDOW: u64 = 20;

const MOST: u32 = 64;

// The moment at which a play in this phase began.
pub(crate) fn begun_at(phase: Phase) -> u64
    ensures { result ≡ begun_at phase }
{
    match phase {
        Phase::Playing { since, .. } => since,
        Phase::Ready { .. } | Phase::Ended { .. } => 0,
    }
}

// Which window it is, and how many were taken in it.
#[derive(Clone, Copy, PartialEq, Eq)]
pub(crate) struct LeftEarly {
    window: u64,
    count: u32,
    ghost few: { count ≤ MOST },
}

impl LeftEarly {
    pub(crate) fn new() -> LeftEarly {
        LeftEarly {
            window: 0,
            count: 0,
        }
    }

    // Whether a play that began at this moment is sent, too.
    pub(crate) fn take(&mut self, moment: u64) -> bool
        ensures window { self.new.window ≡ moment / WINDOW }
        ensures counted { self.old.window ≡ moment / WINDOW → self.new.count ≡ min (self.old.count + 1) MOST }
        ensures first { self.old.window ≢ moment / WINDOW → self.new.count ≡ 1 }
        ensures room { IsTrue result ↔ ((self.old.window ≢ moment / WINDOW) ⊎ (self.old.count < MOST)) }
    {
        let window = moment / WINDOW;
        if window != self.window {
            *self = LeftEarly { window, count: 0 };
        }
        if self.count >= MOST {
            return false;
        }
        self.count += 1;
        true
    }
}
