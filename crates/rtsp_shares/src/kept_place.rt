//! A place that is kept for something with a number, and what is asked about it.

ghost use Rattle.std.specs.Prelude.{◌≡◌, IfSome, IfNone, true, false};
ghost use Rattle.rtsp_shares.specs.Living.{Asked, WasTold};

use crate::living::Living;

/// A place that is kept, as it stood in a table.
#[derive(Clone, Copy, PartialEq, Eq)]
pub struct KeptPlace {
    // The index.
    pub(crate) at: usize,
    pub(crate) address: u32,
    // The number of that for which the place is kept.
    pub(crate) number: u64,
}

/// A place that is kept for what was told not to live any more. Asking makes it, and nothing else.
#[derive(Drop)]
pub struct EndedPlace {
    pub(crate) kept: KeptPlace,
}

impl KeptPlace {
    /// The index at which it stood.
    pub fn at(&self) -> usize
        ensures { result ≡ self.now.at }
    {
        self.at
    }

    /// Asks whether that lives for which the place is kept. `None` where it does.
    pub fn ask<L: Living>(self, living: &mut L) -> Option<EndedPlace>
        ensures asked { Asked L.tells living.old living.new }
        ensures this { IfSome result (λ ended. ended.kept ≡ self) }
        ensures ended { IfSome result (λ ended. WasTold L.tells living.old living.new self.number false) }
        ensures lives { IfNone result (WasTold L.tells living.old living.new self.number true) }
    {
        if living.lives(self.number) {
            None
        } else {
            Some(EndedPlace { kept: self })
        }
    }
}
