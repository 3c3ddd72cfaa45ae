//! The session 2, which plays eight units of 200 ms.

ghost use Rattle.rtsp_book.specs.Replies.{IsAskable};
ghost use Rattle.rtsp_lock.specs.Calls.{IsSeatOf, SameSeat};

use rtsp_book::{Commit, Life, Play, Step};
use rtsp_lock::{BookLock, BookSeat};
use rtsp_record::{Id, Stream};
use std::sync::Wait;

/// A pause, by which three units are counted of a play that began at moment 0.
pub const PAUSE: Step = Step::Pause {
    session: 2,
    unit_ms: 200,
    now: 500,
};

/// Another play, from the unit 5 on: two units are counted of the one before it, and then two of this
/// one up to the pause.
pub fn seek() -> Step
    ensures { IsAskable result }
{
    playing(Some(5), 250)
}

/// The same play again from where it is, so that its numbers and units go on.
pub fn resume() -> Step
    ensures { IsAskable result }
{
    playing(None, 250)
}

fn playing(from: Option<u32>, now: u64) -> Step
    ensures { IsAskable result }
{
    Step::Play(Play {
        session: 2,
        from,
        stop: 8,
        unit_ms: 200,
        now,
    })
}

/// Does a step.
pub fn act<R: Wait>(rt: &R, lock: &BookLock, seat: &mut BookSeat, step: &Step) -> bool
    requires own { IsSeatOf seat.old lock.now }
    requires step { IsAskable step.now }
    ensures { SameSeat seat.old seat.new }
{
    seat.act(rt, lock, step).is_ok()
}

// Sets the track up, whose packets go to this port of the player.
fn commit(player: u16) -> Step
    ensures { IsAskable result }
{
    Step::Commit(Commit {
        session: 2,
        admission: 3,
        stream: Stream {
            presentation: 0,
            track: 0,
            ssrc: 7,
            seq: 250,
            rtptime: 0,
            peer: 0x7f00_0001,
            rtp_port: player,
            rtcp_port: player.saturating_add(1),
        },
        startup: None,
    })
}

/// Opens the session, sets a track up over a pair of ports, and begins its play at moment 0.
pub fn begin<R: Wait>(rt: &R, lock: &BookLock, seat: &mut BookSeat, pair: u16, player: u16) -> bool
    requires { IsSeatOf seat.old lock.now }
    ensures { SameSeat seat.old seat.new }
{
    let opening = Step::Open(Life {
        session: 2,
        id: Id::new(2),
        conn: 1,
        expires: 60_000,
    });
    let rate = Step::HoldRate {
        session: 2,
        admission: 3,
        bits: 16_800,
    };
    let from = u32::from(pair);
    let pair = Step::HoldPair {
        session: 2,
        admission: 3,
        from,
    };
    act(rt, lock, seat, &opening)
        && act(rt, lock, seat, &rate)
        && act(rt, lock, seat, &pair)
        && act(rt, lock, seat, &commit(player))
        && act(rt, lock, seat, &playing(Some(0), 0))
}
