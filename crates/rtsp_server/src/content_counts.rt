//! What is told of the content that is served.

use rtsp_metrics::ContentFigures;
use std::sync::atomic::{AtomicU64, Ordering};

/// How often the configuration was taken up, and how often it was refused.
#[derive(Drop)]
pub(crate) struct ContentCounts {
    number: AtomicU64,
    taken: AtomicU64,
    presentations: AtomicU64,
    places: AtomicU64,
    refusals: AtomicU64,
}

impl ContentCounts {
    /// That of the start is served, with so many presentations.
    pub(crate) fn new(presentations: u64) -> ContentCounts {
        ContentCounts {
            number: AtomicU64::new(0),
            taken: AtomicU64::new(0),
            presentations: AtomicU64::new(presentations),
            places: AtomicU64::new(presentations),
            refusals: AtomicU64::new(0),
        }
    }

    /// The configuration was taken up so many seconds after the start, and so many presentations are
    /// offered. How often it was, with this time.
    pub(crate) fn take(&self, seconds: u64, presentations: u64) -> u64 {
        self.taken.store(seconds, Ordering::Relaxed);
        self.presentations.store(presentations, Ordering::Relaxed);
        self.number.fetch_add(1, Ordering::Relaxed).wrapping_add(1)
    }

    /// So many places are in use.
    pub(crate) fn use_places(&self, places: u64) {
        self.places.store(places, Ordering::Relaxed);
    }

    /// A changed configuration was refused.
    pub(crate) fn refuse(&self) {
        self.refusals.fetch_add(1, Ordering::Relaxed);
    }

    pub(crate) fn read(&self) -> ContentFigures {
        ContentFigures {
            number: self.number.load(Ordering::Relaxed),
            taken: self.taken.load(Ordering::Relaxed),
            presentations: self.presentations.load(Ordering::Relaxed),
            places: self.places.load(Ordering::Relaxed),
            refusals: self.refusals.load(Ordering::Relaxed),
        }
    }
}
