//! What is still sent of a play that its session has left, at moments that are chosen.

use crate::packets::{Keeps, ONE, failing_at, start};
use crate::rows::{Row, hold_rows};
use rtsp_record::Phase;
use rtsp_rtp::*;
use std::alloc::Global;

// Eight units of 20 ms, numbered across 2^32.
const PLAYED: Phase = Phase::Playing {
    since: 1_000,
    from: 7,
    stop: 15,
    sent: 4_294_967_295,
};

// It is paused when three units are due, of which one is sent.
const PAUSED: Phase = Phase::Ready { at: 10, sent: 2 };

const SOUGHT: Phase = Phase::Playing {
    since: 1_045,
    from: 100,
    stop: 500,
    sent: 2,
};

// It is paused, and played again later.
const PLAYED_AGAIN: Phase = Phase::Playing {
    since: 9_000,
    from: 10,
    stop: 500,
    sent: 2,
};

// More units are counted than were due when this play began.
const SOUGHT_LATER: Phase = Phase::Playing {
    since: 1_059,
    from: 100,
    stop: 500,
    sent: 3,
};

const NEVER: usize = usize::MAX;

// A moment, what a last turn comes to then, and how many packets are sent by then.
type Turned = (u64, LastTurn, usize);

const NOT_LEFT: [Turned; 2] = [(5_000, LastTurn::NotLeft, 1), (5_000, LastTurn::NotLeft, 1)];

// The session and the phase in which it is seen after its play, the packet that can't be sent at
// first, and the turns from then on.
type Left = (u64, Phase, usize, [Turned; 2]);

const LEFT: [Left; 14] = [
    (
        2,
        PAUSED,
        NEVER,
        [(1_045, LastTurn::Done, 3), (5_000, LastTurn::Done, 3)],
    ),
    (
        2,
        PAUSED,
        NEVER,
        [(1_039, LastTurn::More, 2), (1_040, LastTurn::Done, 3)],
    ),
    (
        2,
        SOUGHT,
        NEVER,
        [(1_020, LastTurn::More, 2), (1_046, LastTurn::Done, 3)],
    ),
    (
        2,
        PLAYED_AGAIN,
        NEVER,
        [(9_001, LastTurn::Done, 3), (9_002, LastTurn::Done, 3)],
    ),
    // It is paused behind its last unit.
    (
        2,
        Phase::Ready { at: 15, sent: 7 },
        NEVER,
        [(1_139, LastTurn::More, 7), (1_140, LastTurn::Done, 8)],
    ),
    // It goes on where it failed.
    (
        2,
        PAUSED,
        2,
        [(1_045, LastTurn::SinkFailed, 2), (1_045, LastTurn::Done, 3)],
    ),
    (3, PAUSED, NEVER, NOT_LEFT),
    // A pause that counts nothing.
    (
        2,
        Phase::Ready {
            at: 7,
            sent: 4_294_967_295,
        },
        NEVER,
        NOT_LEFT,
    ),
    // Two plays, of which the pacer saw one.
    (2, Phase::Ready { at: 101, sent: 3 }, NEVER, NOT_LEFT),
    // More than the play has.
    (2, Phase::Ready { at: 16, sent: 8 }, NEVER, NOT_LEFT),
    (2, SOUGHT_LATER, NEVER, NOT_LEFT),
    (2, PLAYED, NEVER, NOT_LEFT),
    (2, Phase::Ended { at: 15, sent: 7 }, NEVER, NOT_LEFT),
    (2, Phase::Ended { at: 10, sent: 2 }, NEVER, NOT_LEFT),
];

// Whether a play whose first packet is sent comes to its end so.
fn is_left(pacer: &mut Pacer, room: &mut SendRoom, sink: &mut Keeps, left: &Left) -> bool {
    let (session, phase, _, turns) = *left;
    if pacer.turn(2, PLAYED, 1_000, room, sink) != Turn::More {
        return false;
    }
    for (moment, turn, sent) in turns {
        let comes_to = pacer.last_turn(session, phase, moment, room, sink);
        if comes_to != turn || sink.sent != sent {
            return false;
        }
    }
    // The units from the seventh on are sent one by one.
    sink.last_unit as usize == sink.sent.saturating_add(6)
}

impl Row for Left {
    fn holds(&self, alloc: Global) -> bool {
        match (start(alloc, ONE, PLAYED), SendRoom::open(alloc)) {
            (Some(mut pacer), Ok(mut room)) => {
                is_left(&mut pacer, &mut room, &mut failing_at(self.2), self)
            }
            _ => false,
        }
    }
}

#[test]
fn a_last_turn_sends_what_was_counted(rt: HostRuntime) {
    hold_rows(&rt, rt.alloc(), &LEFT);
}
