//! The steps of a session that lines ask for.

ghost use Rattle.std.specs.Prelude.{IfSome};
ghost use Rattle.rtsp_book.specs.Replies.{IsAskable};

use crate::lines::Line;
use rtsp_book::{Chain, ChannelHold, Commit, Life, Play, Startup, Step};
use rtsp_record::{Id, Stream, Thing};

/// The bits per second that each admission holds.
pub const RATE: u64 = 80_000;

/// The step that a line asks for:
///
/// - `open SESSION ID CONNECTION EXPIRES`, `touch SESSION UNTIL`, `end SESSION`;
/// - `rate SESSION ADMISSION`, `pair` and `port SESSION ADMISSION FROM`, `channels SESSION ADMISSION
///   CONNECTION`, and `first-channels` for the same with the wish for channel 0;
/// - `commit SESSION ADMISSION TRACK RTP-PORT RTCP-PORT`, `startup SESSION ADMISSION TRACK
///   CONNECTION NUMBER` for a stream over channels with a startup number of the connection;
/// - `return-rate`, `return-pair` and `return-port SESSION ADMISSION PORT`, and `unwind-rate` ..
///   for an admission that held this alone, `unwind-session` for one that opened its session;
/// - `play`, `pause` and `finish SESSION NOW`, `drop-track SESSION TRACK`;
/// - `expire NOW`, `hangup CONNECTION`.
pub fn step_of(line: &Line) -> Option<Step>
    ensures { IfSome result (λ s. IsAskable s) }
{
    let [first, second, third, ..] = line.numbers;
    match line.word {
        "open" => Some(opening(line.numbers)),
        "touch" => Some(Step::Touch {
            session: first,
            until: second,
        }),
        "end" => Some(Step::End { session: first }),
        "expire" => Some(Step::Expire { now: first }),
        "hangup" => Some(Step::Hangup { conn: first }),
        "drop-track" => Some(Step::DropTrack {
            session: first,
            track: port_of(second),
        }),
        "return-rate" | "return-pair" | "return-port" => Some(Step::Return {
            session: first,
            admission: second,
            thing: thing_of(line.word, third),
        }),
        "unwind-rate" | "unwind-pair" | "unwind-port" | "unwind-session" => Some(unwinding(line)),
        "play" | "pause" | "finish" => Some(playing(line.word, first, second)),
        "commit" | "startup" => Some(committing(line)),
        _ => holding(line),
    }
}

fn port_of(number: u64) -> u16 {
    number.min(65_535) as u16
}

fn thing_of(word: &str, port: u64) -> Thing {
    match word {
        "return-pair" | "unwind-pair" => Thing::Pair(port_of(port)),
        "return-port" | "unwind-port" => Thing::Port(port_of(port)),
        _ => Thing::Rate(RATE),
    }
}

fn opening(numbers: [u64; 5]) -> Step
    ensures { IsAskable result }
{
    let [session, id, conn, expires, ..] = numbers;
    Step::Open(Life {
        session,
        id: Id::new(u128::from(id)),
        conn,
        expires,
    })
}

// A thing to be held.
fn holding(line: &Line) -> Option<Step>
    ensures { IfSome result (λ s. IsAskable s) }
{
    let [session, admission, third, ..] = line.numbers;
    let from = u32::from(port_of(third));
    match line.word {
        "rate" => Some(Step::HoldRate {
            session,
            admission,
            bits: RATE,
        }),
        "pair" => Some(Step::HoldPair {
            session,
            admission,
            from,
        }),
        "port" => Some(Step::HoldPort {
            session,
            admission,
            from,
        }),
        "channels" => Some(Step::HoldChan(ChannelHold {
            session,
            admission,
            conn: third,
            wish: None,
        })),
        "first-channels" => Some(Step::HoldChan(ChannelHold {
            session,
            admission,
            conn: third,
            wish: Some(0),
        })),
        _ => None,
    }
}

/// A stream of a track to ports of the player; its ssrc is its admission's number.
pub fn stream(admission: u64, track: u64, rtp_port: u64, rtcp_port: u64) -> Stream {
    Stream {
        presentation: 0,
        track: port_of(track),
        ssrc: admission.min(0xffff_ffff) as u32,
        seq: 0,
        rtptime: 0,
        peer: 0x7f00_0001,
        rtp_port: port_of(rtp_port),
        rtcp_port: port_of(rtcp_port),
    }
}

fn committing(line: &Line) -> Step
    ensures { IsAskable result }
{
    let [session, admission, track, fourth, fifth] = line.numbers;
    match line.word {
        "startup" => Step::Commit(Commit {
            session,
            admission,
            stream: stream(admission, track, 0, 0),
            startup: Some(Startup {
                conn: fourth,
                number: u32::from(port_of(fifth)),
            }),
        }),
        _ => Step::Commit(Commit {
            session,
            admission,
            stream: stream(admission, track, fourth, fifth),
            startup: None,
        }),
    }
}

fn unwinding(line: &Line) -> Step
    ensures { IsAskable result }
{
    let [session, admission, third, ..] = line.numbers;
    let chain = Chain {
        session,
        admission,
        opened: line.word == "unwind-session",
        first: Some(thing_of(line.word, third)),
        second: None,
    };
    Step::Unwind { chain }
}

// Media of 500 units of 20 ms.
fn playing(word: &str, session: u64, now: u64) -> Step
    ensures { IsAskable result }
{
    match word {
        "play" => Step::Play(Play {
            session,
            from: None,
            stop: 500,
            unit_ms: 20,
            now,
        }),
        "pause" => Step::Pause {
            session,
            unit_ms: 20,
            now,
        },
        _ => Step::Finish {
            session,
            unit_ms: 20,
            now,
        },
    }
}
