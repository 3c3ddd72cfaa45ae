//! Whether sessions have ended.

use std::sync::atomic::{AtomicBool, Ordering};

/// Whether a session may have ended since the sweeper asked last.
#[derive(Drop)]
pub(crate) struct EndNote {
    has_ended: AtomicBool,
}

impl EndNote {
    pub(crate) fn new() -> EndNote {
        EndNote {
            has_ended: AtomicBool::new(false),
        }
    }

    /// A session may have ended. Where that is noted already nothing is written: many lanes read the flag,
    /// and a write would take its memory from their caches.
    pub(crate) fn note(&self) {
        if !self.has_ended.load(Ordering::SeqCst) {
            self.has_ended.store(true, Ordering::SeqCst);
        }
    }

    /// Whether one may have ended since this was asked last.
    pub(crate) fn take(&self) -> bool {
        self.has_ended.swap(false, Ordering::SeqCst)
    }
}
