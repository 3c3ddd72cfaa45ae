//! Plays that wait for a pacer: from so many on as there may be sessions they are a crowd, and where no
//! more may wait, whoever has one waits until the pacer has heard of another, or has ended.

use rtsp_engine::Plays;
use rtsp_pacing::{Bells, NotedPlays};
use rtsp_record::Phase;
use std::alloc::AllocError;
use std::rt::Clock;
use std::sync::Wait;
use std::thread;
use std::thread::Threads;
use std::time::Duration;

const SESSIONS: u16 = 4;

// More plays than may wait.
const MANY: u32 = 1_500;

const PLAYING: Phase = Phase::Playing {
    from: 0,
    stop: 8,
    sent: 0,
    since: 0,
};

// Hands a play over. Whether no crowd waits then.
fn hand_over<R: Wait + AllocGlobal>(rt: &R, bells: &Bells) -> Result<bool, AllocError> {
    let mut plays = NotedPlays::new(rt.alloc());
    plays.note(rt.alloc(), 2, 5, b"rtsp://h/tone")?;
    plays.settle(Some(PLAYING));
    Ok(plays.hand_over(rt, bells, 1))
}

// Whether a crowd waits, by the bell and by the hand-over.
fn is_crowd<R: Wait + AllocGlobal>(rt: &R, bells: &Bells) -> Option<bool> {
    let is_heard = hand_over(rt, bells).ok()?;
    let is_crowded = bells.of(2)?.is_crowded();
    (is_crowded != is_heard).then_some(is_crowded)
}

// Whether the last of as many plays as sessions makes a crowd, and none before it.
fn last_is_crowd<R: Wait + AllocGlobal>(rt: &R, bells: &Bells) -> bool {
    for number in 1..=SESSIONS {
        if is_crowd(rt, bells) != Some(number == SESSIONS) {
            return false;
        }
    }
    true
}

#[test]
fn as_many_plays_as_sessions_are_a_crowd(rt: HostRuntime) -> Result<(), AllocError> {
    let bells = Bells::new(rt.alloc(), 1, SESSIONS)?;
    assert!(rt; last_is_crowd(&rt, &bells));
    Ok(())
}

// Whether all these plays are handed over.
fn hand_many_over<R: Wait + AllocGlobal>(rt: &R, bells: &Bells) -> bool {
    for _ in 0..MANY {
        if hand_over(rt, bells).is_err() {
            return false;
        }
    }
    true
}

// Hands over more plays than may wait, while the pacer ends. Whether that comes to an end.
fn goes_on<R: Threads + Wait + Clock + AllocGlobal + Sync>(rt: &R, bells: &Bells) -> bool {
    let (is_over, _) = thread::join(
        rt,
        || hand_many_over(rt, bells),
        || {
            thread::sleep(rt, Duration::from_millis(200));
            bells.stop(rt);
        },
    );
    is_over
}

#[test]
fn nobody_waits_for_a_pacer_that_has_ended(rt: HostRuntime) -> Result<(), AllocError> {
    let bells = Bells::new(rt.alloc(), 1, SESSIONS)?;
    assert!(rt; goes_on(&rt, &bells));
    Ok(())
}
