//! The drain of a server, for an upgrade that cuts nobody off.

use crate::end_lines::EndTeller;
use crate::stopping::{StopTimes, begin_stop};
use rtsp_lock::BookHandle;
use rtsp_log::{Event, Log};
use rtsp_metrics::Audience;
use rtsp_threads::Gate;
use std::rt;
use std::sync::Wait;
use std::sync::atomic::{AtomicU64, Ordering};

// The moment of a drain that nobody has asked for.
const NEVER: u64 = u64::MAX;

/// Whether the server is drained: then no connection is let in, and once no session lives any more, or
/// after so many seconds, it ends.
#[derive(Drop)]
pub(crate) struct Draining {
    // How many by the configuration.
    seconds: AtomicU64,
    // Up to when sessions are waited for, in milliseconds since the server began.
    until: AtomicU64,
}

impl Draining {
    /// Nobody has asked for it.
    pub(crate) fn new(seconds: u64) -> Draining {
        Draining {
            seconds: AtomicU64::new(seconds),
            until: AtomicU64::new(NEVER),
        }
    }

    /// It is for so many seconds, where it is asked for from now on.
    pub(crate) fn allow(&self, seconds: u64) {
        self.seconds.store(seconds, Ordering::SeqCst);
    }

    /// Whether it was asked for.
    pub(crate) fn is_begun(&self) -> bool {
        self.until().is_some()
    }

    fn until(&self) -> Option<u64> {
        match self.until.load(Ordering::SeqCst) {
            NEVER => None,
            until => Some(until),
        }
    }

    // It is asked for at this moment. For how many seconds it is, unless it was before.
    fn begin(&self, now: u64) -> Option<u64> {
        let seconds = self.seconds.load(Ordering::SeqCst);
        let until = now.saturating_add(seconds.saturating_mul(1_000));
        match self
            .until
            .compare_exchange(NEVER, until, Ordering::SeqCst, Ordering::SeqCst)
        {
            Ok(_) => Some(seconds),
            Err(_) => None,
        }
    }
}

// Whether no session lives, and the end of each is told.
fn is_empty<R: Wait>(rt: &R, audience: &Audience, handle: &mut BookHandle) -> bool {
    handle.tally(rt).sessions == 0 && audience.next(rt, 0).is_none()
}

/// No more connections are let in from this moment on. Asked for again, it goes on as it was.
pub(crate) fn begin_drain<R: Wait + rt::Clock>(rt: &R, draining: &Draining, log: &Log, now: u64) {
    if let Some(seconds) = draining.begin(now) {
        log.event(rt, Event::Draining { seconds });
    }
}

/// Has the lanes end, where the server is drained and no session lives any more, or it was waited for
/// them long enough.
pub(crate) fn follow_drain<R: Wait + rt::Clock>(
    rt: &R,
    draining: &Draining,
    gate: &Gate,
    teller: EndTeller<'_>,
    handle: &mut BookHandle,
    now: u64,
) {
    let EndTeller {
        audience,
        lanes,
        log,
        ..
    } = teller;
    let Some(until) = draining.until() else {
        return;
    };
    if lanes.stop_by().is_some() {
        return;
    }
    if until <= now || is_empty(rt, audience, handle) {
        log.event(rt, Event::Drained);
        begin_stop(rt, gate, lanes, StopTimes::after_first(now));
    }
}
