//! Keeps the journal from filling: whether there is room for what a piece may record. Nobody waits here.

use crate::scribe_bell::ScribeBell;
use rtsp_book::CHECKPOINT_SLACK;
use rtsp_content::Table;
use rtsp_lock::{BookHandle, Tally};
use std::rt;
use std::sync::Wait;

/// Has a checkpoint made where the journal is more than half full, and more so than what is owed
/// asks for. Whether there is room then: there is none only by sessions that other lanes are setting
/// tracks up in. Where no lane begins a piece that may make entries, these come to an end, and the next
/// checkpoint restates every session.
pub fn make_room<R: Wait>(rt: &R, table: &Table, lane: &mut BookHandle) -> bool {
    let half = (table.server().journal / 2) as usize;
    !lane.relieve(rt, half) || !lane.relieve(rt, half)
}

// Whether the journal is more than half full, and a checkpoint would pay.
fn is_crowded(tally: Tally, half: usize) -> bool {
    let twice_owed = tally
        .owed
        .saturating_mul(2)
        .saturating_add(CHECKPOINT_SLACK);
    half < tally.entries && twice_owed < tally.entries
}

/// Whether less than a quarter of the journal's room is left.
pub(crate) fn is_nearly_full(tally: Tally) -> bool {
    tally.room < tally.entries.saturating_add(tally.owed) / 3
}

/// Does what `make_room` does where the journal is written to files, so that only the thread that
/// writes it shortens it: that thread is asked to. Where it can't write, or is held up by its disk,
/// there is nothing to wait for; where entries may be lost then, the journal is shortened here once it
/// is nearly full.
pub fn ask_for_room<R: Wait + rt::Clock>(
    rt: &R,
    table: &Table,
    lane: &mut BookHandle,
    scribe: &ScribeBell,
) -> bool {
    let half = (table.server().journal / 2) as usize;
    let tally = lane.tally(rt);
    if !is_crowded(tally, half) {
        return true;
    }
    if scribe.is_stuck() || scribe.is_held(rt) {
        if scribe.may_lose() && is_nearly_full(tally) {
            lane.relieve(rt, half);
        }
        return true;
    }
    scribe.ask(rt);
    false
}
