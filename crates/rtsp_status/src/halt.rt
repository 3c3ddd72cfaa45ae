//! Tells the thread of the status server to end.

use std::sync::atomic::{AtomicBool, Ordering};

/// Whether the status server is to end, which it does within a quarter of a second.
#[derive(Drop)]
pub struct Halt {
    is_halted: AtomicBool,
}

impl Halt {
    /// It is to go on.
    pub fn new() -> Halt {
        Halt {
            is_halted: AtomicBool::new(false),
        }
    }

    /// It is to end.
    pub fn halt(&self) {
        self.is_halted.store(true, Ordering::SeqCst);
    }

    pub(crate) fn is_halted(&self) -> bool {
        self.is_halted.load(Ordering::SeqCst)
    }
}
