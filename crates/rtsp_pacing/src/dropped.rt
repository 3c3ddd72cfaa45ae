//! Frames that were dropped, until it is told of them.

ghost use Rattle.std.specs.Prelude.{◌≡◌, ◌≤◌, ◌+◌, ◌↔◌, Some, min, IsTrue};
ghost use Rattle.rtsp_pacing.specs.Drops.{counted};

use rtsp_log::DropCause;

// For how many milliseconds frames that are dropped are counted before it is told of them, unless the
// play ends sooner.
const COUNTED_FOR: u64 = 10_000;

// The frames of a play that were dropped: how many, why the first was, and when.
#[derive(Clone, Copy, PartialEq, Eq)]
pub(crate) struct Dropped {
    pub(crate) frames: u64,
    pub(crate) cause: DropCause,
    pub(crate) since: u64,
}

impl Dropped {
    // One frame, at a moment.
    pub(crate) fn one(cause: DropCause, since: u64) -> Dropped
        ensures { result ≡ record { frames = 1; cause = cause; since = since } }
    {
        Dropped {
            frames: 1,
            cause,
            since,
        }
    }

    // These and others that were dropped later, if there are any: cause and moment are those of the first.
    pub(crate) fn count(before: Option<Dropped>, more: Option<Dropped>) -> Option<Dropped>
        ensures { result ≡ counted before more }
    {
        match (before, more) {
            (Some(before), Some(more)) => Some(Dropped {
                frames: before.frames.saturating_add(more.frames),
                ..before
            }),
            (Some(dropped), None) | (None, Some(dropped)) => Some(dropped),
            (None, None) => None,
        }
    }

    // Whether they have been counted for long enough at a moment.
    pub(crate) fn is_counted(&self, moment: u64) -> bool
        ensures { IsTrue result ↔ (self.now.since + COUNTED_FOR ≤ moment) }
    {
        moment.saturating_sub(self.since) >= COUNTED_FOR
    }
}
