//! Puts the answers of a connection into its outlet.

ghost use Rattle.std.specs.Prelude.{None};

use rtsp_engine::{ByteOut, StreamFault};
use rtsp_sockets::{Message, Outlet, Put};
use std::sync::{Arc, Wait};

/// The outlet of a connection, as its lane puts answers into it. What others put there, and what
/// leaves it, is the outlet's to say, so no bytes of it are known; that it is closed is counted.
#[derive(Drop)]
pub(crate) struct AnswerWriter<'a, R> {
    rt: &'a R,
    outlet: &'a Arc<Outlet>,
    now: u64,
    // Whether some of what was put last waits.
    is_kept: bool,
    failed: u64,
}

impl<'a, R> AnswerWriter<'a, R> {
    /// A writer into this outlet, at this moment.
    pub(crate) fn new(rt: &'a R, outlet: &'a Arc<Outlet>, now: u64) -> AnswerWriter<'a, R> {
        AnswerWriter {
            rt,
            outlet,
            now,
            is_kept: false,
            failed: 0,
        }
    }

    /// Whether some of what was put last waits.
    pub(crate) fn is_kept(&self) -> bool {
        self.is_kept
    }
}

impl<R: Wait> ByteOut for AnswerWriter<'_, R> {
    ghost contents = { λ s. None };

    ghost failures = { λ s. s.failed };

    fn write(&mut self, bytes: &[u8]) -> Result<(), StreamFault> {
        let put = self.outlet.put(self.rt, self.now, Message::Response, bytes);
        self.is_kept = put == Put::Kept;
        if put == Put::Closed {
            self.failed = self.failed.saturating_add(1);
            return Err(StreamFault);
        }
        Ok(())
    }
}
