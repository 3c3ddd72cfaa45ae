//! Counters that threads add to.

use crate::counter::Counter;
use crate::media_failures::MediaFailures;
use crate::snapshot::{ByMethod, Connections, Counts, Lateness, Packets, Refusals};

#[derive(Drop)]
struct LatenessCounters {
    within_1_ms: Counter,
    within_2_ms: Counter,
    within_5_ms: Counter,
    within_10_ms: Counter,
    within_20_ms: Counter,
    within_40_ms: Counter,
    within_100_ms: Counter,
    within_400_ms: Counter,
    within_1_s: Counter,
    within_4_s: Counter,
    within_10_s: Counter,
    later: Counter,
    sum_ms: Counter,
}

impl LatenessCounters {
    fn new() -> LatenessCounters {
        LatenessCounters {
            within_1_ms: Counter::new(),
            within_2_ms: Counter::new(),
            within_5_ms: Counter::new(),
            within_10_ms: Counter::new(),
            within_20_ms: Counter::new(),
            within_40_ms: Counter::new(),
            within_100_ms: Counter::new(),
            within_400_ms: Counter::new(),
            within_1_s: Counter::new(),
            within_4_s: Counter::new(),
            within_10_s: Counter::new(),
            later: Counter::new(),
            sum_ms: Counter::new(),
        }
    }

    fn of(&self, late_ms: u64) -> &Counter {
        match late_ms {
            0..=1 => &self.within_1_ms,
            2 => &self.within_2_ms,
            3..=5 => &self.within_5_ms,
            6..=10 => &self.within_10_ms,
            11..=20 => &self.within_20_ms,
            21..=40 => &self.within_40_ms,
            41..=100 => &self.within_100_ms,
            101..=400 => &self.within_400_ms,
            401..=1_000 => &self.within_1_s,
            1_001..=4_000 => &self.within_4_s,
            4_001..=10_000 => &self.within_10_s,
            _ => &self.later,
        }
    }

    fn read(&self) -> Lateness {
        Lateness {
            within_1_ms: self.within_1_ms.read(),
            within_2_ms: self.within_2_ms.read(),
            within_5_ms: self.within_5_ms.read(),
            within_10_ms: self.within_10_ms.read(),
            within_20_ms: self.within_20_ms.read(),
            within_40_ms: self.within_40_ms.read(),
            within_100_ms: self.within_100_ms.read(),
            within_400_ms: self.within_400_ms.read(),
            within_1_s: self.within_1_s.read(),
            within_4_s: self.within_4_s.read(),
            within_10_s: self.within_10_s.read(),
            later: self.later.read(),
            sum_ms: self.sum_ms.read(),
        }
    }
}

/// The counters of a server but for those of its answers, which each lane has to itself. Any number of threads add to them, without a lock and without waiting;
/// each wraps at 2^64. A copy of them is exact for each counter, and not for one moment of all.
#[derive(Drop)]
pub struct Counters {
    accepted: Counter,
    turned_away: Counter,
    headers_refused: Counter,
    sent: Counter,
    lost: Counter,
    lateness: LatenessCounters,
    media_failures: MediaFailures,
    log_lines_dropped: Counter,
    expired: Counter,
}

impl Counters {
    /// Nothing was counted.
    pub fn new() -> Counters {
        Counters {
            accepted: Counter::new(),
            turned_away: Counter::new(),
            headers_refused: Counter::new(),
            sent: Counter::new(),
            lost: Counter::new(),
            lateness: LatenessCounters::new(),
            media_failures: MediaFailures::new(),
            log_lines_dropped: Counter::new(),
            expired: Counter::new(),
        }
    }

    /// A connection was let in.
    pub fn accepted(&self) {
        self.accepted.add(1);
    }

    /// A connection was closed at once.
    pub fn turned_away(&self) {
        self.turned_away.add(1);
    }

    /// The header at the front of a balancer's connection was refused.
    pub fn header_refused(&self) {
        self.headers_refused.add(1);
    }

    /// So many packets were sent, each so many milliseconds late.
    pub fn sent(&self, packets: u64, late_ms: u64) {
        self.sent.add(packets);
        self.lateness.of(late_ms).add(packets);
        self.lateness.sum_ms.add(packets.wrapping_mul(late_ms));
    }

    /// So many packets were lost.
    pub fn lost(&self, packets: u64) {
        self.lost.add(packets);
    }

    /// The file of a track of a presentation couldn't be read, each by its place in the configuration.
    pub fn media_failed(&self, presentation: u16, track: u16) {
        self.media_failures.note(presentation, track);
    }

    /// The presentation and the track whose file couldn't be read last, if there was one since this
    /// was asked.
    pub fn take_media_failure(&self) -> Option<(u16, u16)> {
        self.media_failures.take()
    }

    /// So many lines of the log were dropped.
    pub fn log_lines_dropped(&self, lines: u64) {
        self.log_lines_dropped.add(lines);
    }

    /// So many sessions ended since nothing renewed them.
    pub fn expired(&self, sessions: u64) {
        self.expired.add(sessions);
    }

    /// What was counted so far, without answers. How often the journal was shortened is for the book to
    /// say.
    pub fn read(&self) -> Counts {
        Counts {
            connections: Connections {
                accepted: self.accepted.read(),
                refused: self.turned_away.read(),
                headers_refused: self.headers_refused.read(),
            },
            requests: ByMethod::NONE,
            refusals: Refusals::NONE,
            packets: Packets {
                sent: self.sent.read(),
                lost: self.lost.read(),
            },
            lateness: self.lateness.read(),
            log_lines_dropped: self.log_lines_dropped.read(),
            expired: self.expired.read(),
            shortenings: 0,
            media_failures: self.media_failures.count(),
        }
    }
}
