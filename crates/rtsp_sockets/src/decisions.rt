//! Which lanes are deciding on a PLAY or a PAUSE.

ghost use Rattle.std.specs.Prelude.{◌≤◌, min};

use rtsp_traits::Clock;
use std::alloc::{AllocError, Global};
use std::sync::atomic::{AtomicU64, Ordering};

// Of a lane that is deciding on none.
const NONE: u64 = u64::MAX;

/// Since when each lane of a server is deciding on a PLAY or a PAUSE. Such a request counts units up to
/// the moment that its lane reads, and is acted later, once the lane has the book. A unit that is due in
/// between isn't sent: it would be sent beyond the point, and once more by the next play.
#[derive(Drop)]
pub struct Decisions {
    since: Vec<AtomicU64>,
}

/// The decisions of one lane.
#[derive(Clone, Copy)]
pub struct LaneDecisions<'a> {
    all: &'a Decisions,
    lane: usize,
}

impl Decisions {
    /// Those of so many lanes, of which none is deciding.
    pub fn open(alloc: Global, lanes: usize) -> Result<Decisions, AllocError> {
        let mut since = Vec::with_capacity(alloc, lanes)?;
        for _ in 0..lanes {
            since.push(AtomicU64::new(NONE))?;
        }
        Ok(Decisions { since })
    }

    /// Those of the lane of this number, from 0 on.
    pub fn of(&self, lane: usize) -> LaneDecisions<'_> {
        LaneDecisions { all: self, lane }
    }

    /// The latest moment, up to `now`, of which units may be sent to who plays: no lane decides by an
    /// earlier one. The book has to be looked at after this.
    pub fn latest(&self, now: u64) -> u64
        ensures { result ≤ now }
    {
        let mut latest = now;
        for since in self.since.iter() {
            latest = latest.min(since.load(Ordering::SeqCst));
        }
        latest
    }
}

impl LaneDecisions<'_> {
    fn note(&self, since: u64) {
        if let Some(place) = self.all.since.get(self.lane) {
            place.store(since, Ordering::SeqCst);
        }
    }

    /// The lane begins to decide: by a moment that it reads after this.
    pub fn begin<C: Clock>(&self, clock: &mut C) {
        // Nothing more is sent from here on, so that what has been sent was due before this reading.
        self.note(0);
        self.note(clock.now());
    }

    /// It has decided, and acted.
    pub fn end(&self) {
        self.note(NONE);
    }

    /// Whether it is deciding by a later moment than this.
    pub fn is_after(&self, moment: u64) -> bool {
        match self.all.since.get(self.lane) {
            Some(place) => {
                let since = place.load(Ordering::SeqCst);
                since != NONE && moment < since
            }
            None => false,
        }
    }
}
