//! Reads a connection that doesn't block.

ghost use Rattle.std.specs.Prelude.{◌≡◌, IfSome, IfNone};
ghost use Rattle.std.specs.Io.KnownBytes.{Keeps};
ghost use Rattle.rtsp_engine.specs.Visiting.{Reads, ReadsCounted};

use crate::visiting::{PieceIn, Reading};
use std::io::{ErrorKind, Read};

/// A reader of std that doesn't block, as a reader of pieces. A read into which a signal comes is
/// made again.
#[derive(Drop)]
pub struct PieceReader<R> {
    inner: R,
    failed: u64,
}

impl<R> PieceReader<R> {
    /// Failures of the reader are counted from here on.
    pub fn new(inner: R) -> PieceReader<R>
        ensures { result ≡ record { inner = inner; failed = 0 } }
    {
        PieceReader { inner, failed: 0 }
    }
}

impl<R: Read> PieceReader<R> {
    // Reads once. `None` where a signal came.
    #[tactic(auto, using(crate::proofs::Known::keeps_none))]
    fn read_once(&mut self, buffer: &mut [u8]) -> Option<Reading>
        ensures bytes { IfSome result (λ reading. Reads (R.remaining self.old.inner) (R.remaining self.new.inner) reading buffer.new) }
        ensures cause { IfSome result (λ reading. ReadsCounted self.old.failed self.new.failed reading) }
        ensures kept { IfNone result (Keeps (R.remaining self.old.inner) (R.remaining self.new.inner)) }
        ensures count { IfNone result (self.new.failed ≡ self.old.failed) }
    {
        match self.inner.read(buffer) {
            Ok(0) => Some(Reading::End),
            Ok(n) => Some(Reading::Bytes(n)),
            Err(fault) => match fault.kind() {
                ErrorKind::WouldBlock => Some(Reading::Nothing),
                ErrorKind::Interrupted => None,
                _ => {
                    self.failed = self.failed.saturating_add(1);
                    Some(Reading::Broken)
                }
            },
        }
    }
}

impl<R: Read> PieceIn for PieceReader<R> {
    ghost remaining = { λ s. R.remaining s.inner };

    ghost failures = { λ s. s.failed };

    fn read_piece(&mut self, buffer: &mut [u8]) -> Reading {
        for _ in 0..u64::MAX {
            if let Some(reading) = self.read_once(buffer) {
                return reading;
            }
        }
        self.failed = self.failed.saturating_add(1);
        Reading::Broken
    }
}
