//! Whether a lane may have recorded something.

use std::cell::Cell;

/// Whether a lane may have made entries since it looked at the journal's room last. The lane alone has
/// it: a cell, since whoever is told of an answer has a shared reference.
#[derive(Drop)]
pub(crate) struct Recorded {
    may_have: Cell<bool>,
}

impl Recorded {
    /// That of a lane which hasn't looked yet.
    pub(crate) fn new() -> Recorded {
        Recorded {
            may_have: Cell::new(true),
        }
    }

    /// The lane may have made entries.
    pub(crate) fn note(&self) {
        self.may_have.set(true);
    }

    /// Whether it may have made some since this was asked last.
    pub(crate) fn take(&self) -> bool {
        self.may_have.replace(false)
    }
}
