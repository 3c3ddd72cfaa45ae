//! The thread that ends sessions whose time is over, and keeps the journal from growing beyond what
//! lives.

use crate::draining::follow_drain;
use crate::end_lines::EndTeller;
use crate::operating::note_writing;
use crate::shared::{Shared, give_place_back, unbinder};
use rtsp_lock::BookHandle;
use rtsp_log::{Event, Log};
use rtsp_metrics::Counters;
use rtsp_shares::{ShareTable, Watermark};
use rtsp_sockets::PortBinder;
use rtsp_threads::{HELD_TOLD_AFTER, SWEEP_EVERY, ScribeBell, end_next_expired, give_back_ended};
use std::net::Net;
use std::rt;
use std::sync::{Mutex, Wait};
use std::time::Duration;

// Ends the sessions that had expired at a moment, gives the place of each back, and tells of it. How many
// have ended.
fn end_expired<R: Wait + Net + rt::Clock>(
    rt: &R,
    handle: &mut BookHandle,
    binder: &mut PortBinder<'_, R>,
    places: &Option<Mutex<ShareTable>>,
    teller: EndTeller<'_>,
    moment: u64,
) -> u64 {
    let mut ended = 0u64;
    for _ in rt.forever() {
        let Some(session) = end_next_expired(rt, handle, binder, moment) else {
            break;
        };
        give_place_back(rt, places, session);
        teller.tell_expired(rt, session);
        ended = ended.saturating_add(1);
    }
    ended
}

// Tells which file of a track couldn't be read lately, if one couldn't.
fn tell_media_failure<R: Wait + rt::Clock>(rt: &R, counters: &Counters, log: &Log) {
    if let Some((presentation, track)) = counters.take_media_failure() {
        let event = Event::MediaUnreadable {
            presentation,
            track,
        };
        log.event(rt, event);
    }
}

// Whether it was told that the thread that writes the journal is held up.
#[derive(Drop)]
struct HeldJournal {
    is_told: bool,
}

impl HeldJournal {
    // Tells once that it is, and once that it isn't any more.
    fn tell<R: Wait + rt::Clock>(&mut self, rt: &R, scribe: &Option<ScribeBell>, log: &Log) {
        let Some(bell) = scribe else {
            return;
        };
        let is_held = bell.is_held_for(rt, HELD_TOLD_AFTER);
        if is_held == self.is_told {
            return;
        }
        self.is_told = is_held;
        let event = if is_held {
            Event::JournalHeld
        } else {
            Event::JournalFreed
        };
        log.event(rt, event);
    }
}

// Begins a sweep of sessions, which the watermark counts. The moment up to which all lanes have read what
// had come: see `Watermark`.
fn begin_sweep<R: Wait>(rt: &R, watermark: &Mutex<Watermark>, now: u64) -> u64 {
    let mut watermark = watermark.lock(rt);
    let moment = watermark.moment(now);
    watermark.note_sweep(now);
    moment
}

/// Ends from time to time the sessions that had expired when all lanes had read what had come, until
/// it is told to stop. After each sweep places are given back that are kept for sessions of whose end
/// nobody told. Then it forgets the sessions that have ended, and has those that live
/// restated where they have done much. A drain is followed, too. So the journal is as long as what lives and what was done since.
/// Where the journal is written to files, the thread that does that shortens it, and this one doesn't.
/// Ports that others were found to have are tried again from each sweep on.
pub(crate) fn run_sweeper<R: Wait + Net + rt::Clock>(
    rt: &R,
    mut handle: BookHandle,
    shared: &Shared,
) {
    let teller = shared.end_teller();
    let mut binder = unbinder(rt, &shared.ports);
    let mut held = HeldJournal { is_told: false };
    // Whether a session doesn't live any more of whose end nobody has told.
    let mut is_any_missing = false;
    for _ in rt.forever() {
        if shared
            .stop_bell
            .wait(rt, Duration::from_millis(SWEEP_EVERY))
        {
            break;
        }
        let now = shared.now(rt);
        let moment = begin_sweep(rt, &shared.watermark, now);
        tell_media_failure(rt, &shared.counters, &shared.log);
        held.tell(rt, &shared.scribe, &shared.log);
        note_writing(rt, &shared.scribe, &shared.written_at, now);
        shared.ports.forget_taken(rt);
        let places = &shared.session_shares;
        let ended = end_expired(rt, &mut handle, &mut binder, places, teller, moment);
        if ended > 0 {
            shared.ends.note();
            shared.counters.expired(ended);
        }
        let has_ended = shared.ends.take();
        if has_ended || is_any_missing {
            is_any_missing = teller.tell_untold(rt, &mut handle);
        }
        shared.end_lines.hand_over(rt, &shared.log);
        follow_drain(rt, &shared.draining, &shared.gate, teller, &mut handle, now);
        if has_ended && let Some(places) = places {
            give_back_ended(rt, places, &mut handle);
        }
        if shared.scribe.is_some() {
            continue;
        }
        if has_ended {
            handle.forget(rt);
        }
        handle.relieve(rt, 0);
    }
}
