//! What was sent to a session.

use crate::counter::SoleCounter;

/// A packet that is sent more milliseconds late than this counts as late.
pub const LATE_MS: u64 = 40;

/// What was sent to a session.
#[derive(Clone, Copy, PartialEq, Eq)]
pub struct SessionSums {
    pub sent: u64,
    pub lost: u64,
    /// Those of the sent ones that were sent more than `LATE_MS` late.
    pub late: u64,
}

/// Counts what is sent to a session. Its pacer alone adds, and any thread may read.
#[derive(Drop)]
pub struct SessionCounts {
    digits: u32,
    sent: SoleCounter,
    lost: SoleCounter,
    late: SoleCounter,
}

impl SessionCounts {
    /// Nothing was sent to the session whose id has these first eight digits.
    pub fn new(digits: u32) -> SessionCounts {
        SessionCounts {
            digits,
            sent: SoleCounter::new(),
            lost: SoleCounter::new(),
            late: SoleCounter::new(),
        }
    }

    /// The first eight digits of the session's id.
    pub fn digits(&self) -> u32 {
        self.digits
    }

    /// So many packets were sent, each so many milliseconds late, and so many lost.
    pub fn add(&self, sent: u64, lost: u64, late_ms: u64) {
        self.sent.add(sent);
        self.lost.add(lost);
        if late_ms > LATE_MS {
            self.late.add(sent);
        }
    }

    /// What was sent so far.
    pub fn read(&self) -> SessionSums {
        SessionSums {
            sent: self.sent.read(),
            lost: self.lost.read(),
            late: self.late.read(),
        }
    }
}
