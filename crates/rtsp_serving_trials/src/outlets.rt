//! Outlets over connections of this host, by themselves and with room that all share.

use crate::sockets::{Connected, play};
use crate::steps;
use rtsp_sockets::{FRAME_ROOM, Loan, Outlets, SharedRoom};
use std::fs::File;
use std::io;
use std::net::{Net, TcpListener, TcpStream};
use std::process::Abort;
use std::rt::{Clock, Files};
use std::sync::{Arc, Wait};
use std::test::Fail;

#[test]
fn a_message_reaches_the_player(rt: HostRuntime) {
    play(
        &rt,
        "prepare, response = sent, hears, waiting = 0, flush = 0, \
        stalled-at 18446744073709551615, request-number = 1, request-number = 2, \
        close, closed, heard-at-end = 0",
    );
}

#[test]
fn a_player_that_does_not_read(rt: HostRuntime) {
    play(
        &rt,
        "prepare, fill, full-at 65536, keeps-response, stalled-at 7, stalled-at 10000, \
        stalled-at 10020 = closed, waiting = 0, frame = closed",
    );
}

#[test]
fn responses_without_room_close(rt: HostRuntime) {
    play(
        &rt,
        "prepare, fill, closes-by-responses, waiting = 0, held = 0",
    );
}

#[test]
fn a_connection_that_drains(rt: HostRuntime) {
    play(&rt, "drain = 0, frame = dropped, response = sent, hears");
}

#[test]
fn what_waited_is_flushed_in_order(rt: HostRuntime) {
    play(&rt, "prepare, fill, keeps-response, reads-all");
}

#[test]
fn what_is_written_is_given_back(rt: HostRuntime) {
    play(
        &rt,
        "rate 2600000 = 650000, prepare, fill, lends-what-is-beyond, keeps-response, \
        reads-all, lent = 0",
    );
}

#[test]
fn two_seconds_of_a_film_wait(rt: HostRuntime) {
    play(
        &rt,
        "rate 2600000 = 650000, prepare, fill, full-at 650000, lends-what-is-beyond, \
        waiting = 65536, frame = dropped, close, lent = 0, held = 0",
    );
}

// The least room and the most that a rate makes, which is four mebibytes with all that else waits.
#[test]
fn no_more_waits_than_four_mebibytes(rt: HostRuntime) {
    play(
        &rt,
        "rate 0 = 65536, rate 262147 = 65536, rate 262148 = 65537, \
        rate 18446744073709551615 = 3997696, rate 1000000000 = 3997696, \
        prepare, fill, full-at 3997696, closes-by-responses, held = 0",
    );
}

// Whether two connections that are filled have all that is lent beside their own room, and the one all
// that it wants once the other one is closed.
fn shares_room<
    R: Wait
        + Clock
        + Files<File = File>
        + Net<Listener = TcpListener, Stream = TcpStream>
        + AllocGlobal
        + Abort,
>(rt: &R, shared: &Arc<SharedRoom>) -> io::Result<bool> {
    let mut first = Connected::within(rt, rt.alloc(), shared)?;
    let mut second = Connected::within(rt, rt.alloc(), shared)?;
    steps::play(
        rt,
        &mut first,
        "rate 1000000 = 250000, prepare, fill, full-at 250000",
    );
    steps::play(rt, &mut second, "rate 1000000 = 250000, prepare, fill");
    let lent = shared.lent();
    let held = first.outlet.held(rt) + second.outlet.held(rt);
    steps::play(rt, &mut first, "close");
    steps::play(rt, &mut second, "fill, full-at 250000");
    let own = 2 * FRAME_ROOM as u64;
    Ok(held as u64 == lent.saturating_add(own) && lent <= 300_000 && lent > 298_000)
}

#[test]
fn what_all_have_is_bounded(rt: HostRuntime) -> Result<(), Fail> {
    let shared = SharedRoom::open(rt.alloc(), 300_000)?;
    assert!(rt; shares_room(&rt, &shared)?);
    Ok(())
}

// What is lent after each step of two loans, of which both are dropped in the end.
fn loans(shared: &Arc<SharedRoom>) -> Option<[u64; 4]> {
    let (mut one, mut other) = (Loan::of(shared)?, Loan::of(shared)?);
    if !one.cover(60) || other.cover(41) || !other.cover(40) || one.cover(61) {
        return None;
    }
    let all = shared.lent();
    one.settle(70);
    other.settle(10);
    let less = shared.lent();
    if !one.cover(90) || one.cover(101) {
        return None;
    }
    drop(one);
    let little = shared.lent();
    drop(other);
    Some([all, less, little, shared.lent()])
}

#[test]
fn a_loan_is_given_back_when_it_is_dropped(rt: HostRuntime) -> Result<(), Fail> {
    let shared = SharedRoom::open(rt.alloc(), 100)?;
    assert!(rt; loans(&shared) == Some([100, 70, 10, 0]));
    Ok(())
}

#[test]
fn outlets_by_connection(rt: HostRuntime) -> Result<(), Fail> {
    let (_, outlet) = Connected::open(&rt, rt.alloc())?.into_parts();
    let outlets = Outlets::new(rt.alloc());
    outlets.insert(&rt, 3, Arc::new(rt.alloc(), outlet)?)?;
    let found = [outlets.get(&rt, 3).is_some(), outlets.get(&rt, 4).is_some()];
    outlets.remove(&rt, 3);
    assert!(rt; found == [true, false] && outlets.get(&rt, 3).is_none());
    Ok(())
}
