//! The thread that sends packets.

ghost use Rattle.std.specs.Prelude.{◌≡◌, ◌<◌, ◌^◌, ℕ, List, Some, length};
ghost use Rattle.rtsp_lock.specs.Calls.{IsSeatOf};
ghost use Rattle.rtsp_pacing.specs.Linking.{LinksBehind};
ghost use Rattle.rtsp_pacing.specs.Plays.{KeepsOthers, KeepsPlay, IsChain};
ghost use Rattle.rtsp_pacing.specs.Beginning.{TakesOver};

use crate::desk::{Paced, PacerDesk, PacerParts};
use crate::inbox::Heard;
use crate::left_early::{LeftEarly, begun_at};
use crate::noted::NewPlay;
use crate::pacer_room::PacerRoom;
use crate::play::{Next, PacedPlay};
use crate::plays::PacerPlays;
use crate::wheel::Wheel;
use rtsp_lock::{BookSeat, Numbers};
use rtsp_sockets::{Content, RunningClock, Seen};
use std::alloc::Global;
use std::rt::Clock;
use std::sync::Wait;
use std::time::Duration;

/// The most slots of the wheel that are done before a pacer looks for new plays and its end, also
/// where it is late.
pub const SLOTS_AT_ONCE: u32 = 8;

/// The most plays that are taken over one after another before turns are taken. A play that waits
/// may be the one for which an earlier was left.
pub const PLAYS_AT_ONCE: u32 = 64;

// For how long a pacer without plays sleeps, in milliseconds.
const IDLE: u64 = 1_000;

// What a pacer does its turns with.
#[derive(Drop)]
struct Pacing<'a, R, N: Numbers> {
    alloc: Global,
    desk: PacerDesk<'a, R, N>,
    wheel: Wheel,
    plays: PacerPlays,
    left_early: LeftEarly,
}

impl<R: Wait + Clock, N: Numbers> Pacing<'_, R, N> {
    // How long the pacer sleeps if it hears nothing. `None` where the system can't tell the time.
    fn sleep(&mut self) -> Option<Duration> {
        let moment = match self.wheel.next_full() {
            Some(moment) => moment,
            None => self.desk.now().saturating_add(IDLE),
        };
        self.desk.until(moment)
    }

    // Takes a play over, as its PLAY began it: where the session has left it, what was counted of
    // it is still to be sent. It is dropped where the session is no more, where there is no memory,
    // where the play before it sends what was counted of it, too, or where too many were left so early.
    fn take_over(&mut self, asked: NewPlay, content: &Content)
        ensures { TakesOver asked self.old.plays self.new.plays }
    {
        let NewPlay { begun, .. } = &asked;
        let (session, phase) = (begun.noted.session, begun.phase);
        let Some(view) = self.desk.look(session) else {
            return;
        };
        let is_apart = self.plays.leave(session, phase);
        let is_left = view.phase() != phase;
        if is_left && !(is_apart && self.left_early.take(begun_at(phase))) {
            return;
        }
        let Some((play, due)) = PacedPlay::begin(&mut self.desk, asked, &view, content) else {
            return;
        };
        let Some(key) = self.plays.take(play) else {
            return;
        };
        self.desk.paced.plays = self.desk.paced.plays.saturating_add(1);
        self.link(key, due);
    }

    // Links a play to the slot of a moment, behind those that are linked there.
    fn link(&mut self, key: usize, due: u64)
        ensures kept { KeepsPlay self.old.plays key self.new.plays }
        ensures others { KeepsOthers self.old.plays key self.new.plays }
        ensures behind { LinksBehind self.old.wheel self.old.plays key due self.new.wheel self.new.plays }
    {
        if self.plays.has(key) {
            let before = self.wheel.link(key, due);
            self.plays.link(key, before);
        }
    }

    // Takes the turns of the plays of one slot, from the one that was linked last. How many.
    fn turn_slot(&mut self, last: usize, content: &Content) -> u64
        ensures { (keys : List ℕ) → IsChain self.old.plays (Some last) keys → length keys < 2 ^ 64 → result ≡ length keys }
    {
        let mut next = Some(last);
        for turns in 0..u64::MAX {
            let Some(key) = next else {
                return turns;
            };
            let turned = self.plays.turn(self.alloc, &mut self.desk, content, key);
            let Some((before, then)) = turned else {
                return turns;
            };
            next = before;
            match then {
                Next::At(due) => self.link(key, due),
                Next::Never => self.plays.remove(key),
            }
        }
        u64::MAX
    }

    // Takes the turns that are due, of some slots at most, and has them counted.
    fn turn_due(&mut self, content: &Content) {
        self.turn_slots(content);
        self.desk.put_down();
    }

    // Takes the turns of some slots that are due.
    fn turn_slots(&mut self, content: &Content) {
        for _ in 0..SLOTS_AT_ONCE {
            let now = self.desk.now();
            let Some(last) = self.wheel.take(now) else {
                return;
            };
            self.turn_slot(last, content);
        }
    }
}

/// Sends the packets of the plays that its bell hands over, until the bell ends it. The moment of each
/// unit is counted from the beginning of its play, so that being late at one makes no other late. Units
/// are sent only while the session is in their play, but for those that the book counted as sent when
/// the session left it: what of these hadn't gone out goes out then. At the end of a play the session is
/// told so, and then the connection that asked for it, by a PLAY_NOTIFY (RFC 7826 section 13.5.1);
/// where the players of the configuration are GStreamer, each of its streams says goodbye, too.
/// Where there is room among the plays, a play needs no memory; where there is neither, it isn't
/// sent.
pub fn pace<'a, R: Wait + Clock, N: Numbers>(
    rt: &'a R,
    alloc: Global,
    parts: PacerParts<'a, N>,
    seat: BookSeat,
    plays: PacerPlays,
    room: PacerRoom,
) -> Paced
    requires { IsSeatOf seat parts.lock.now }
{
    let clock = RunningClock::new(rt, parts.begun);
    let bell = parts.bell;
    let contents = parts.contents;
    let opening = Seen::open(rt, contents);
    let mut desk = PacerDesk::new(rt, alloc, parts, clock, seat, room);
    let wheel = Wheel::new(desk.now());
    let mut pacing = Pacing {
        alloc,
        desk,
        wheel,
        plays,
        left_early: LeftEarly::new(),
    };
    let Some(mut seen) = opening else {
        return pacing.desk.paced;
    };
    let mut more = PLAYS_AT_ONCE;
    for _ in rt.forever() {
        let sleep = pacing.sleep();
        let heard = bell.hear(rt, sleep);
        seen.refresh(rt, contents);
        match heard {
            Heard::Play(asked) => {
                pacing.take_over(asked, seen.content());
                if more > 1 {
                    more -= 1;
                    continue;
                }
            }
            Heard::Nothing => {}
            Heard::Stop => break,
        }
        more = PLAYS_AT_ONCE;
        pacing.turn_due(seen.content());
    }
    let Pacing {
        mut desk,
        plays,
        ..
    } = pacing;
    plays.tell_rest(&mut desk);
    desk.paced
}
