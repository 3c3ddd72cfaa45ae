//! The thread that looks for the signals that end the server, and until when that end waits.

use crate::all_lanes::AllLanes;
use crate::shared::Shared;
use crate::threads::Parts;
use rtsp_log::{Event, Log};
use rtsp_threads::{
    Gate, JOURNAL_LEFT_AFTER, JOURNAL_LEFT_AT_ONCE, OwnStatus, SIGNALS_EVERY, STOP_LIMIT, StopAsked,
};
use std::rt;
use std::sync::Wait;
use std::time::Duration;

/// Until when a stop waits, in milliseconds since the beginning.
#[derive(Clone, Copy)]
pub(crate) struct StopTimes {
    /// Until when for connections.
    pub(crate) hang_up: u64,
    /// Until when for disks.
    pub(crate) leave: u64,
}

impl StopTimes {
    /// Those of a stop that is asked for once.
    pub(crate) fn after_first(now: u64) -> StopTimes {
        let hang_up = now.saturating_add(STOP_LIMIT);
        StopTimes {
            hang_up,
            leave: hang_up.saturating_add(JOURNAL_LEFT_AFTER),
        }
    }

    /// Those of a stop that is asked for twice.
    fn after_second(now: u64) -> StopTimes {
        StopTimes {
            hang_up: now,
            leave: now.saturating_add(JOURNAL_LEFT_AT_ONCE),
        }
    }

    /// Those of a server that can't begin.
    pub(crate) fn at_the_beginning(now: u64) -> StopTimes {
        StopTimes {
            hang_up: 0,
            leave: now.saturating_add(JOURNAL_LEFT_AFTER),
        }
    }
}

/// Has the lanes end: no connection is let in any more, and those that are open are answered what they
/// have asked, and hung up, at the latest at the first of these moments.
pub(crate) fn begin_stop<R: Wait>(rt: &R, gate: &Gate, lanes: &AllLanes, times: StopTimes) {
    gate.shut();
    lanes.set_stop(rt, times);
}

// Has the lanes end, where the process is asked to end.
fn follow<R: Wait + rt::Clock>(
    rt: &R,
    asked: Option<StopAsked>,
    gate: &Gate,
    lanes: &AllLanes,
    log: &Log,
    now: u64,
) {
    match asked {
        Some(StopAsked::Stop) => {
            if lanes.stop_by().is_none() {
                log.event(rt, Event::Stopping);
            }
            begin_stop(rt, gate, lanes, StopTimes::after_first(now));
        }
        Some(StopAsked::StopNow) => begin_stop(rt, gate, lanes, StopTimes::after_second(now)),
        Some(StopAsked::Nothing) | None => {}
    }
}

/// Looks from time to time whether the process is asked to end, and then has the lanes hang up:
/// within `STOP_LIMIT`, or at once where it is asked twice. Where such signals aren't held back the
/// system ends the process by itself.
pub(crate) fn watch_signals<R: Wait + rt::Clock>(rt: &R, status: &OwnStatus, parts: &Parts) {
    let Shared {
        gate,
        lanes,
        log,
        ..
    } = &*parts.shared;
    for _ in rt.forever() {
        if parts.over.wait(rt, Duration::from_millis(SIGNALS_EVERY)) {
            break;
        }
        let now = parts.shared.now(rt);
        follow(rt, status.stop_asked(), gate, lanes, log, now);
    }
}
