//! What the threads of a server go by.

use crate::history::SMALL;
use crate::tone::tone;
use rtsp_chronicle::JournalFolder;
use rtsp_content::{Operation, Table};
use rtsp_engine::{ShareSpent, Shares};
use rtsp_lock::{BookHandle, open_book};
use rtsp_log::Log;
use rtsp_shares::{NoPlace, ShareTable};
use rtsp_sockets::{PortBinder, PortTable};
use rtsp_threads::{
    FileRequests, Gate, LaneShares, OwnStatus, Refused, RoomLooks, RoomWait, Scribe, ScribeBell,
    StopAsked, StopBell, ask_for_room, close_book, descriptor_limit, end_expired, end_next_expired,
    end_place, give_back_ended, make_room, open_shares, set_share, take_leave,
};
use std::alloc::{AllocError, Global};
use std::fs::{self, File};
use std::net::{Ipv4Addr, Net};
use std::rt::{Clock, Files};
use std::sync::{Mutex, Wait};
use std::test::Fail;
use std::time::Duration;

// A configuration of journal files, and the first of them, where the tests run.
const FILES: &str = "[server]\njournal_files = \".\"\n";

const WRITTEN: &str = "journal-000001.txt";

fn name_of(entered: Result<(), Refused>) -> &'static str {
    match entered {
        Ok(()) => "enters",
        Err(Refused::Share) => "share",
        Err(Refused::Full) => "full",
        Err(Refused::Over) => "over",
    }
}

// Whether an address leaves the gate, or what comes of its entering it.
fn passes<R: Wait>(rt: &R, gate: &Gate, step: &str) -> bool {
    let (peer, wanted) = step.split_once(' ').unwrap_or((step, ""));
    let address = peer.parse().unwrap_or(0);
    let place = if peer == "?" { None } else { Some(address) };
    match wanted {
        "leaves" => {
            gate.leave(rt, place);
            true
        }
        "named" => gate.name(rt, address) == Ok(()),
        // So many are let in of each address from now on, or any number.
        "of each" => {
            let share = if peer == "?" {
                None
            } else {
                u16::try_from(address).ok()
            };
            gate.set_share(rt, share);
            true
        }
        "unplaced" => gate.name(rt, address) == Err(Refused::Share),
        _ => name_of(gate.enter(rt, place)) == wanted,
    }
}

// Whether all steps of a line come to what they say, and whether the gate is shut then.
fn ends_shut<R: Wait>(rt: &R, gate: &Gate, line: &str) -> Option<bool> {
    for step in line.split(", ") {
        if !passes(rt, gate, step) {
            return None;
        }
    }
    Some(gate.is_shut())
}

// Three have room, an address has two places, and the fifth is the last that is let in.
const FOUR: &str = "1 enters, 1 enters, 1 share, 2 enters, 3 full, 1 leaves, 1 enters";

const ONE_MORE: &str = "1 leaves, 1 enters";

const NO_MORE: &str = "1 leaves, 1 over";

fn lets_five_in<R: Wait>(rt: &R, gate: &Gate) -> bool {
    let was_shut = [
        ends_shut(rt, gate, FOUR),
        ends_shut(rt, gate, ONE_MORE),
        ends_shut(rt, gate, NO_MORE),
    ];
    gate.shut();
    was_shut == [Some(false), Some(true), Some(true)]
        && gate.is_shut()
        && [gate.open_now(), gate.most()] == [2, 3]
}

#[test]
fn a_gate_lets_so_many_in(rt: HostRuntime) -> Result<(), AllocError> {
    let gate = Gate::new(rt.alloc(), Some(5), Some(2), false)?;
    gate.allow(3);
    assert!(rt; lets_five_in(&rt, &gate));
    Ok(())
}

// Two of whom one is named, which takes the last place of its address; the other may only leave.
const NAMED: &str =
    "? enters, ? enters, 1 enters, 2 full, 1 named, 1 unplaced, ? leaves, 2 enters, 1 leaves, ? enters";

#[test]
fn a_gate_names_whom_it_let_in(rt: HostRuntime) -> Result<(), AllocError> {
    let gate = Gate::new(rt.alloc(), None, Some(2), false)?;
    gate.allow(3);
    assert!(rt; ends_shut(&rt, &gate, NAMED) == Some(false));
    assert!(rt; gate.open_now() == 3);
    Ok(())
}

// Who is inside stays where its address comes to have more than its share, and is counted where it had none.
const CHANGED: &str =
    "7 enters, 7 enters, 7 enters, 2 of each, 7 share, 8 enters, 8 enters, 8 share, 7 leaves, \
    7 share, 7 leaves, 7 enters, 7 share, 3 of each, 7 enters, 7 share, ? of each, 7 enters, 7 enters";

#[test]
fn a_gate_whose_share_changes(rt: HostRuntime) -> Result<(), AllocError> {
    let gate = Gate::new(rt.alloc(), None, None, true)?;
    assert!(rt; ends_shut(&rt, &gate, CHANGED) == Some(false));
    assert!(rt; gate.open_now() == 7);
    Ok(())
}

#[test]
fn what_the_system_tells(rt: HostRuntime) -> Result<(), Fail> {
    assert!(rt; descriptor_limit().is_some());
    assert!(rt; OwnStatus::open(&rt)?.stop_asked() == Some(StopAsked::Nothing));
    Ok(())
}

#[test]
fn a_bell_is_heard(rt: HostRuntime) {
    let bell = StopBell::new();
    let is_early = bell.wait(&rt, Duration::from_millis(1));
    bell.ring(&rt);
    assert!(rt; !is_early && bell.wait(&rt, Duration::from_secs(60)));
}

fn empty_book(alloc: Global) -> Option<BookHandle> {
    open_book(alloc, &SMALL).ok()
}

// Whether the only place of an address is had again once its session doesn't live, and not before; and
// once it was given back. No session of the number 1,000 lives.
fn is_left<S: Shares>(shares: &mut S) -> [bool; 4] {
    let first = shares.take(7).is_ok();
    shares.settle(Some(1_000));
    let second = shares.take(7).is_ok();
    let third = shares.take(7) == Err(ShareSpent);
    shares.settle(None);
    [first, second, third, shares.take(7).is_ok()]
}

fn leaves_its_place<R: Wait + AllocGlobal>(rt: &R) -> Option<bool> {
    let mut lane = empty_book(rt.alloc())?;
    let places = Mutex::new(ShareTable::new(rt.alloc(), 1, 8).ok()?);
    let mut shares = LaneShares::new(rt, Some(&places), &mut lane);
    Some(is_left(&mut shares) == [true; 4] && shares.refused() == 1)
}

#[test]
fn a_session_that_has_ended_leaves_its_place(rt: HostRuntime) {
    assert!(rt; leaves_its_place(&rt) == Some(true));
}

// Whether the only place of an address is had again once its session is told to have ended, and not once
// another one is.
fn is_had_again<R: Wait + AllocGlobal>(rt: &R) -> Option<bool> {
    let mut table = ShareTable::new(rt.alloc(), 1, 8).ok()?;
    let is_taken = table.take(7).is_ok();
    table.keep(7, 1_000);
    let places = Mutex::new(table);
    end_place(rt, &places, 1_001);
    let is_in_use = places.lock(rt).take(7) == Err(NoPlace::Share);
    end_place(rt, &places, 1_000);
    let is_free = places.lock(rt).take(7).is_ok();
    Some(is_taken && is_in_use && is_free)
}

#[test]
fn whoever_ends_a_session_gives_its_place_back(rt: HostRuntime) {
    assert!(rt; is_had_again(&rt) == Some(true));
}

// How many places are left of three, once those are given back whose sessions don't live: two are kept
// for such, and one is held.
fn left_of_three<R: Wait + AllocGlobal>(rt: &R) -> Option<usize> {
    let mut lane = empty_book(rt.alloc())?;
    let places = Mutex::new(ShareTable::new(rt.alloc(), 3, 8).ok()?);
    for session in [Some(1_000), None, Some(1_001)] {
        let mut places = places.lock(rt);
        let _ = places.take(7);
        if let Some(session) = session {
            places.keep(7, session);
        }
    }
    give_back_ended(rt, &places, &mut lane);
    let left = places.lock(rt).len();
    Some(left)
}

#[test]
fn what_has_ended_is_given_back(rt: HostRuntime) {
    assert!(rt; left_of_three(&rt) == Some(1));
}

// Whether an address has what it opened while there was no share, once there is one, and what ended then is
// given back only from then on.
fn is_counted_from_before<R: Wait + AllocGlobal>(rt: &R) -> Option<bool> {
    let mut lane = empty_book(rt.alloc())?;
    let none = open_shares(rt.alloc(), None, false, 8).ok()?;
    let places = open_shares(rt.alloc(), None, true, 8).ok()??;
    for session in [1_000, 1_001] {
        let mut places = places.lock(rt);
        let _ = places.take(7);
        places.keep(7, session);
    }
    give_back_ended(rt, &places, &mut lane);
    let kept = places.lock(rt).len();
    set_share(rt, &places, Some(1));
    let is_in_use = places.lock(rt).take(7) == Err(NoPlace::Share);
    give_back_ended(rt, &places, &mut lane);
    let left = places.lock(rt).len();
    Some(none.is_none() && is_in_use && [kept, left] == [2, 0])
}

#[test]
fn a_share_that_comes_counts_what_was_there(rt: HostRuntime) {
    assert!(rt; is_counted_from_before(&rt) == Some(true));
}

// Whether nobody ends in a book in which nobody lives, and it is given up.
fn ends_nobody<R: Net + Wait>(
    rt: &R,
    mut handle: BookHandle,
    binder: &mut PortBinder<'_, R>,
) -> bool {
    let Some(mut lane) = handle.split(rt) else {
        return false;
    };
    let mut shares = LaneShares::new(rt, None, &mut lane);
    let has_ended = take_leave(rt, &mut handle, binder, 1, &mut shares);
    drop(lane);
    let ended = end_expired(rt, &mut handle, binder, 9);
    let next = end_next_expired(rt, &mut handle, binder, 9);
    !has_ended && ended == 0 && next.is_none() && close_book(rt, handle, binder).is_some()
}

fn is_closed<R: Net + Wait + AllocGlobal>(rt: &R) -> Option<bool> {
    let ports = PortTable::open(rt.alloc(), 5_000, 1).ok()?;
    let mut binder = PortBinder::new(rt, &ports, Ipv4Addr::LOCALHOST);
    Some(ends_nobody(rt, empty_book(rt.alloc())?, &mut binder))
}

#[test]
fn an_empty_book_is_closed(rt: HostRuntime) {
    assert!(rt; is_closed(&rt) == Some(true));
}

// Whether a scribe that is asked is woken, and goes on.
fn is_asked<R: Wait + Clock>(rt: &R, bell: &ScribeBell) -> bool {
    bell.ask(rt);
    !bell.wait(rt, Duration::from_secs(60)) && !bell.is_stopped(rt)
}

fn is_stopped<R: Wait + Clock>(rt: &R, bell: &ScribeBell) -> bool {
    bell.stop(rt);
    bell.wait(rt, Duration::from_secs(60)) && bell.is_stopped(rt)
}

#[test]
fn a_scribe_is_asked_and_stopped(rt: HostRuntime) {
    let bell = ScribeBell::new(true);
    assert!(rt; is_asked(&rt, &bell));
    bell.note(false);
    let was_stuck = bell.is_stuck();
    bell.note(true);
    assert!(rt; was_stuck && !bell.is_stuck() && is_stopped(&rt, &bell));
}

#[test]
fn a_turn_is_timed(rt: HostRuntime) {
    let bell = ScribeBell::new(true);
    let rests = !bell.is_held_for(&rt, 0);
    bell.work(&rt);
    let works = bell.is_held_for(&rt, 0) && !bell.is_held_for(&rt, 3_600_000);
    bell.rest(&rt);
    assert!(rt; rests && works && !bell.is_held_for(&rt, 0));
}

#[test]
fn a_wait_for_room_ends(rt: HostRuntime) {
    let mut wait = RoomWait::new();
    let waits_not = !wait.is_begun() && !wait.is_over(u64::MAX);
    wait.begin(5);
    wait.begin(9);
    let waits = wait.is_begun() && !wait.is_over(5 + 126) && wait.is_over(5 + 127);
    wait.end();
    assert!(rt; waits_not && waits && !wait.is_begun());
}

#[test]
fn looks_for_room_are_spaced(rt: HostRuntime) {
    let mut looks = RoomLooks::new();
    let mut now = 100u64;
    let mut waited = looks.patience(now);
    for pause in [1, 2, 4, 8, 8] {
        looks.miss(now);
        assert!(rt; looks.patience(now) == pause && !looks.is_due(now));
        waited = waited.saturating_add(pause);
        now = now.saturating_add(pause);
        assert!(rt; looks.is_due(now));
    }
    looks.find();
    assert!(rt; waited == 23 && looks.is_due(0));
}

// Whether there is room, in a book that is empty, for a lane that asks by itself or a scribe.
fn has_room<R: Wait + Clock>(
    rt: &R,
    table: &Table,
    handle: &mut BookHandle,
    bell: &ScribeBell,
) -> bool {
    let is_made = make_room(rt, table, handle);
    handle.keep_entries();
    is_made && ask_for_room(rt, table, handle, bell)
}

fn scribe_of<R: Files<File = File> + AllocGlobal>(rt: &R) -> Option<Scribe> {
    let operation = Operation::read_at(rt.alloc(), FILES.as_bytes(), "").ok()?;
    let files = operation.journal()?;
    let folder = JournalFolder::new(rt.alloc(), files.folder()).ok()?;
    Scribe::open(rt, rt.alloc(), &folder, files).ok()
}

// How long the file is that a scribe leaves that was told to stop before it began.
fn length_at_end<R: Files<File = File> + Wait + Clock + AllocGlobal>(
    rt: &R,
    handle: &mut BookHandle,
    bell: &ScribeBell,
) -> Option<usize> {
    let scribe = scribe_of(rt)?;
    bell.stop(rt);
    let log = Log::new(rt.alloc(), 1, false).ok()?;
    scribe.run(rt, handle.split(rt)?, bell, &log);
    if !bell.is_over_within(rt, Duration::ZERO) {
        return None;
    }
    let text = fs::read(rt, WRITTEN).ok()?;
    fs::remove_file(rt, WRITTEN).ok()?;
    Some(text.len())
}

// How much there is in the file of an empty book, and in its journal.
fn written_at_end<R: Files<File = File> + Wait + Clock + AllocGlobal>(
    rt: &R,
) -> Option<[usize; 2]> {
    let table = tone(rt.alloc(), "")?;
    let mut handle = empty_book(rt.alloc())?;
    let bell = ScribeBell::new(true);
    if !has_room(rt, &table, &mut handle, &bell) {
        return None;
    }
    let length = length_at_end(rt, &mut handle, &bell)?;
    Some([length, handle.tally(rt).entries])
}

#[test]
fn a_scribe_writes_at_its_end(rt: HostRuntime) {
    assert!(rt; written_at_end(&rt) == Some([0, 0]));
}

// Whether no file is made that nobody asks for, and the wait for requests ends where it is left.
fn makes_nothing_unasked<R: Files<File = File> + Wait + Clock + AllocGlobal>(
    rt: &R,
) -> Option<bool> {
    let folder = JournalFolder::new(rt.alloc(), "no such folder").ok()?;
    let requests = FileRequests::new();
    requests.answer(rt, &folder);
    requests.leave(rt);
    let is_left = requests.attend(rt, &folder, Duration::from_secs(60));
    Some(is_left && folder.make(rt, 0).is_err())
}

#[test]
fn requests_for_files_are_left(rt: HostRuntime) {
    assert!(rt; makes_nothing_unasked(&rt) == Some(true));
}
