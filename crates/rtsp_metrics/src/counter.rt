//! One count, that many threads add to or one.

use std::sync::atomic::{AtomicU64, Ordering};

/// One count, which wraps at 2^64. It orders nothing beside it.
#[derive(Drop)]
pub(crate) struct Counter {
    count: AtomicU64,
}

impl Counter {
    pub(crate) const fn new() -> Counter {
        Counter {
            count: AtomicU64::new(0),
        }
    }

    // Where there is nothing to add, no other core waits for it.
    pub(crate) fn add(&self, more: u64) {
        if more > 0 {
            self.count.fetch_add(more, Ordering::Relaxed);
        }
    }

    pub(crate) fn read(&self) -> u64 {
        self.count.load(Ordering::Relaxed)
    }
}

/// One count that a single thread adds to, and any may read; of two that add at once one is lost. It
/// wraps at 2^64, and orders nothing beside it. Adding takes no atomic addition, so next to no time.
#[derive(Drop)]
pub(crate) struct SoleCounter {
    count: AtomicU64,
}

impl SoleCounter {
    pub(crate) const fn new() -> SoleCounter {
        SoleCounter {
            count: AtomicU64::new(0),
        }
    }

    pub(crate) fn add_one(&self) {
        self.add(1);
    }

    pub(crate) fn add(&self, more: u64) {
        self.count
            .store(self.read().wrapping_add(more), Ordering::Relaxed);
    }

    pub(crate) fn read(&self) -> u64 {
        self.count.load(Ordering::Relaxed)
    }
}
