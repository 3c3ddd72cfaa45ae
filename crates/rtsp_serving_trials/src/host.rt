//! Words and moments of this host.

use rtsp_engine::{Clock, Words};
use rtsp_sockets::{Decisions, PieceClock, RandomWords, RunningClock, SourceWords};
use std::test::Fail;
use std::thread;
use std::time::{Duration, Instant};

// Whether a source has words, and of three ids no two are the same.
fn has_words<W: Words>(words: &mut W) -> bool {
    let (first, second, third) = (words.id(), words.id(), words.id());
    let differ = first != second && second != third && first != third;
    let others = words.ssrc().is_ok() && words.seq().is_ok() && words.rtptime().is_ok();
    differ && others && first.is_ok() && second.is_ok() && third.is_ok()
}

#[test]
fn words_differ(rt: HostRuntime) -> Result<(), Fail> {
    assert!(rt; has_words(&mut RandomWords::open(&rt)?));
    Ok(())
}

// A first read takes 32 of these bytes, and a second one finds too few.
#[test]
fn words_are_the_bytes_of_their_source(rt: HostRuntime) {
    let bytes = b"abcdefghijklmnopqrstuvwxyz0123456789ABCD".as_slice();
    let mut words = SourceWords::new(bytes);
    assert!(rt; words.ssrc() == Ok(0x6463_6261) && words.seq() == Ok(0x6665));
    assert!(rt; words.id() == Ok(0x7675_7473_7271_706f_6e6d_6c6b_6a69_6867));
    assert!(rt; words.id().is_err() && words.seq().is_err());
}

#[test]
fn moments_go_on_and_a_piece_has_one(rt: HostRuntime) -> Result<(), Fail> {
    let mut clock = RunningClock::new(&rt, Instant::now(&rt)?);
    let early = clock.now();
    assert!(rt; clock.now() >= early && clock.until(early) == Some(Duration::ZERO));
    assert!(rt; clock.until(60_000) > Some(Duration::from_secs(50)));
    let decisions = Decisions::open(rt.alloc(), 1)?;
    let mut once = PieceClock::new(&rt, Instant::now(&rt)?, decisions.of(0));
    let moment = once.now();
    thread::sleep(&rt, Duration::from_millis(2));
    assert!(rt; moment < 1_000 && once.now() == moment);
    Ok(())
}

// While a lane decides, units are sent up to its moment alone, and its requests have no earlier one.
#[test]
fn a_decision_holds_pacers_to_its_moment(rt: HostRuntime) -> Result<(), Fail> {
    let begun = Instant::now(&rt)?;
    let decisions = Decisions::open(rt.alloc(), 2)?;
    let lane = decisions.of(1);
    let mut once = PieceClock::new(&rt, begun, lane);
    let early = once.now();
    assert!(rt; decisions.latest(90_000) == 90_000 && !lane.is_after(early));
    thread::sleep(&rt, Duration::from_millis(2));
    lane.begin(&mut RunningClock::new(&rt, begun));
    let latest = decisions.latest(90_000);
    assert!(rt; early < latest && latest < 90_000 && lane.is_after(early));
    assert!(rt; latest <= once.now() && decisions.latest(1) == 1 && !decisions.of(0).is_after(0));
    lane.end();
    assert!(rt; decisions.latest(90_000) == 90_000 && !lane.is_after(0));
    decisions.of(2).begin(&mut once);
    assert!(rt; decisions.latest(90_000) == 90_000 && !decisions.of(2).is_after(0));
    Ok(())
}
