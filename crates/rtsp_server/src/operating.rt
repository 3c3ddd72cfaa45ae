//! What whoever runs the server is told of sessions and of how the server stands, and how sessions are
//! ended by them.

use crate::end_lines::{EndTeller, film_name};
use crate::shared::{give_place_back, since, unbinder};
use crate::shown::Shown;
use rtsp_lock::BookHandle;
use rtsp_log::EndCause;
use rtsp_metrics::Held;
use rtsp_status::{Agent, SessionMeant, Standing};
use rtsp_threads::{HELD_TOLD_AFTER, ScribeBell, end_session};
use std::alloc::{AllocError, Global};
use std::net::Net;
use std::rt;
use std::sync::Wait;
use std::sync::atomic::{AtomicU64, Ordering};

/// Whether the journal is written, where it is to be.
pub(crate) fn is_journal_written<R: Wait + rt::Clock>(rt: &R, scribe: &Option<ScribeBell>) -> bool {
    match scribe {
        Some(bell) => !bell.is_stuck() && !bell.is_held_for(rt, HELD_TOLD_AFTER),
        None => true,
    }
}

/// A sweep looks whether the journal is written, at this moment.
pub(crate) fn note_writing<R: Wait + rt::Clock>(
    rt: &R,
    scribe: &Option<ScribeBell>,
    written_at: &AtomicU64,
    now: u64,
) {
    if is_journal_written(rt, scribe) {
        written_at.store(now, Ordering::Relaxed);
    }
}

// How much of the uplink is free, in percent.
fn free_percent(rate: Held) -> u8 {
    let whole = rate.held.saturating_add(rate.free);
    match rate.free.saturating_mul(100).checked_div(whole) {
        Some(percent) => percent.min(100) as u8,
        None => 0,
    }
}

/// How the server stands, of whose uplink so much is held.
pub(crate) fn standing<R: Wait + rt::Clock>(rt: &R, shown: Shown<'_>, rate: Held) -> Standing {
    let lanes = shown.teller.lanes;
    let is_ending = shown.draining.is_begun() || lanes.stop_by().is_some();
    let is_ready = !is_ending && lanes.standing() > 0 && is_journal_written(rt, shown.scribe);
    Standing {
        is_ready,
        agent: if is_ready {
            Agent::Free(free_percent(rate))
        } else {
            Agent::Drain
        },
    }
}

/// The sessions that live, as JSON: an array with an object for each on a line of its own, the least
/// number first.
pub(crate) fn sessions_text<R: Wait + rt::Clock>(
    rt: &R,
    alloc: Global,
    teller: EndTeller<'_>,
) -> Result<Vec<u8>, AllocError> {
    let now = since(rt, teller.begun);
    let mut text = Vec::new(alloc);
    let content = teller.contents.current(rt);
    let mut from = 0u64;
    text.extend_from_slice(b"[")?;
    for _ in rt.forever() {
        let Some(viewer) = teller.audience.next(rt, from) else {
            break;
        };
        if from > 0 {
            text.extend_from_slice(b",")?;
        }
        text.extend_from_slice(b"\n")?;
        let film = film_name(content.as_ref(), viewer.viewing.film);
        viewer.write_json(&mut text, film, now)?;
        let Some(next) = viewer.viewing.session.checked_add(1) else {
            break;
        };
        from = next;
    }
    text.extend_from_slice(b"\n]\n")?;
    Ok(text)
}

/// Ends a session, as its player's TEARDOWN would. Whether there was such a one.
pub(crate) fn end_by_operator<R: Wait + Net + rt::Clock>(
    rt: &R,
    shown: Shown<'_>,
    handle: &mut BookHandle,
    meant: SessionMeant,
) -> bool {
    let teller = shown.teller;
    let session = meant.number;
    let Some(viewing) = teller.audience.viewing(rt, session) else {
        return false;
    };
    let is_meant = match meant.digits {
        Some(digits) => digits == viewing.digits(),
        None => true,
    };
    let mut binder = unbinder(rt, shown.ports);
    if !is_meant || !end_session(rt, handle, &mut binder, session) {
        return false;
    }
    give_place_back(rt, shown.session_shares, session);
    shown.ends.note();
    teller.tell_ended(rt, session, EndCause::Operator);
    true
}
