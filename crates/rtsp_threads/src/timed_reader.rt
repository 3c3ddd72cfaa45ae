//! Ends a visit whose time is over.

use rtsp_engine::{Clock, PieceIn, Reading};

/// A reader that gives no more once a moment has come. It looks at the clock before each piece but the
/// first, so a connection of which a piece is there is always read some.
#[derive(Drop)]
pub struct TimedReader<C, I> {
    clock: C,
    inner: I,
    // The moment, in milliseconds.
    until: u64,
    has_read: bool,
    is_late: bool,
}

impl<C, I> TimedReader<C, I> {
    /// Gives what `inner` reads, until this moment of the clock, in milliseconds.
    pub fn new(clock: C, inner: I, until: u64) -> TimedReader<C, I> {
        TimedReader {
            clock,
            inner,
            until,
            has_read: false,
            is_late: false,
        }
    }

    /// What it gives until then.
    pub fn inner(&self) -> &I {
        &self.inner
    }

    /// Whether it gave nothing since the moment had come: there may be more to read.
    pub fn is_late(&self) -> bool {
        self.is_late
    }
}

impl<C: Clock, I: PieceIn> PieceIn for TimedReader<C, I> {
    ghost remaining = { λ s. I.remaining s.inner };

    ghost failures = { λ s. I.failures s.inner };

    #[tactic(auto, using(crate::proofs::Timing::keeps_same))]
    fn read_piece(&mut self, buffer: &mut [u8]) -> Reading {
        if self.has_read && self.clock.now() >= self.until {
            self.is_late = true;
            return Reading::Nothing;
        }
        self.has_read = true;
        self.inner.read_piece(buffer)
    }
}
