//! Tracks whose files can't be read, as pacers tell of them.

use crate::counter::Counter;
use std::sync::atomic::{AtomicU64, Ordering};

// No track. Each has a number of its own, by presentation and track, from 1 on.
const NONE: u64 = 0;

/// Counts how often the file of a track couldn't be read, and keeps which one it was last until
/// somebody asks. Nobody waits.
#[derive(Drop)]
pub(crate) struct MediaFailures {
    count: Counter,
    last: AtomicU64,
}

impl MediaFailures {
    pub(crate) const fn new() -> MediaFailures {
        MediaFailures {
            count: Counter::new(),
            last: AtomicU64::new(NONE),
        }
    }

    pub(crate) fn note(&self, presentation: u16, track: u16) {
        self.count.add(1);
        let place = u64::from(presentation) * 65_536 + u64::from(track);
        self.last.store(place + 1, Ordering::Relaxed);
    }

    pub(crate) fn count(&self) -> u64 {
        self.count.read()
    }

    // The presentation and the track of the last one, if there was one since this was asked.
    pub(crate) fn take(&self) -> Option<(u16, u16)> {
        let place = self.last.swap(NONE, Ordering::Relaxed).checked_sub(1)?;
        let presentation = u16::try_from(place / 65_536).ok()?;
        let track = u16::try_from(place % 65_536).ok()?;
        Some((presentation, track))
    }
}
