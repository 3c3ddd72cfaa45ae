//! How a server stood over the last quarter of an hour.

use crate::snapshot::{Lateness, Refusals, Snapshot};
use std::alloc::Global;
use std::collections::VecDeque;

/// How often a sample is taken, in milliseconds.
pub const SAMPLE_MS: u64 = 10_000;

/// How many samples are kept: those of a quarter of an hour.
pub const SAMPLES: usize = 90;

/// How a server stood at a moment, and what came since the sample before.
#[derive(Clone, Copy, PartialEq, Eq)]
pub struct Sample {
    /// Sessions that live.
    pub sessions: u64,
    /// What is held of the uplink, in bits per second.
    pub held: u64,
    /// What was sent, in bits per second of RTP packets.
    pub sent: u64,
    /// How late 99 of 100 packets were at most, in milliseconds.
    pub late_ms: u64,
    /// Requests that were refused.
    pub refused: u64,
}

// What was counted up to a moment, in milliseconds.
#[derive(Clone, Copy)]
struct Counted {
    moment: u64,
    bytes: u64,
    refused: u64,
    lateness: Lateness,
}

/// The samples of a server.
#[derive(Drop)]
pub struct History {
    samples: VecDeque<Sample>,
    last: Option<Counted>,
}

// How many requests were refused.
fn refused(of: &Refusals) -> u64 {
    let by_cause = [
        of.bandwidth,
        of.unavailable,
        of.session,
        of.path,
        of.state,
        of.transport,
        of.other,
    ];
    let mut all = 0u64;
    for count in by_cause {
        all = all.saturating_add(count);
    }
    all
}

// So many a second, of a count that came in so many milliseconds.
fn per_second(count: u64, ms: u64) -> u64 {
    count.saturating_mul(1_000).checked_div(ms).unwrap_or(0)
}

// How late 99 of 100 packets were at most that were counted between two moments.
fn late_99(before: &Lateness, now: &Lateness) -> u64 {
    let (before, now) = (before.by_bound(), now.by_bound());
    let mut all = 0u64;
    for ((_, earlier), (_, later)) in before.iter().zip(now.iter()) {
        all = all.saturating_add(later.saturating_sub(*earlier));
    }
    let mut within = 0u64;
    for ((_, earlier), (bound, later)) in before.iter().zip(now.iter()) {
        within = within.saturating_add(later.saturating_sub(*earlier));
        if all > 0 && within.saturating_mul(100) >= all.saturating_mul(99) {
            return *bound;
        }
    }
    0
}

impl Counted {
    fn of(snapshot: &Snapshot, bytes: u64, moment: u64) -> Counted {
        Counted {
            moment,
            bytes,
            refused: refused(&snapshot.counts.refusals),
            lateness: snapshot.counts.lateness,
        }
    }

    // What came since this was counted, up to a snapshot by which `now` was.
    fn sample(&self, snapshot: &Snapshot, now: &Counted) -> Sample {
        let bytes = now.bytes.saturating_sub(self.bytes);
        let passed = now.moment.saturating_sub(self.moment);
        Sample {
            sessions: snapshot.book.sessions,
            held: snapshot.book.rate.held,
            sent: per_second(bytes.saturating_mul(8), passed),
            late_ms: late_99(&self.lateness, &now.lateness),
            refused: now.refused.saturating_sub(self.refused),
        }
    }
}

impl History {
    /// No sample yet.
    pub fn new(alloc: Global) -> History {
        History {
            samples: VecDeque::new(alloc),
            last: None,
        }
    }

    /// Whether a sample is to be taken at this moment, in milliseconds since the server began.
    pub fn is_due(&self, moment: u64) -> bool {
        match &self.last {
            Some(last) => moment.saturating_sub(last.moment) >= SAMPLE_MS,
            None => true,
        }
    }

    /// Takes a sample: how the server stands at this moment, by when so many bytes of RTP packets were
    /// sent. The first one only tells from where those that follow are counted. One for which there is no
    /// memory is left out.
    pub fn note(&mut self, snapshot: &Snapshot, bytes: u64, moment: u64) {
        let now = Counted::of(snapshot, bytes, moment);
        if let Some(last) = &self.last {
            let sample = last.sample(snapshot, &now);
            if self.samples.len() >= SAMPLES {
                self.samples.pop_front();
            }
            let _ = self.samples.push_back(sample);
        }
        self.last = Some(now);
    }

    /// The samples, the oldest first.
    pub fn samples(&self) -> &VecDeque<Sample> {
        &self.samples
    }
}
