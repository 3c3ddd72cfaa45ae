//! The packets of a play, one turn after another, to sinks that keep what they are sent.

use rtsp_content::{EXAMPLE, Table};
use rtsp_journal_text::read_journal;
use rtsp_record::{Entry, Phase, Stream, Whole};
use rtsp_rtp::*;
use rtsp_sessions::{BookRep, PlainBook};
use std::alloc::{AllocError, Global};

// A server with two pairs of ports, and bandwidth for two streams of the example.
const SMALL: Whole = Whole {
    first_port: 5000,
    pairs: 2,
    uplink: 160_000,
    sessions: 4,
    journal: 1_000,
};

/// A session with a stream of the first track.
pub(crate) const ONE: &str = "\
0 open 2 00000000000000000000000000000001 1 60000
0 hold 2 20 rate 80000
0 hold 2 20 pair 5000
0 add 2 20 0 0 00000001 65535 4294967200 7f000001 8000 8001
";

// One with streams of both tracks, the second before the first.
const BOTH: &str = "\
0 open 2 00000000000000000000000000000001 1 60000
0 hold 2 19 rate 80000
0 hold 2 19 pair 5002
0 add 2 19 0 1 00000002 65535 4294967200 7f000001 8000 8001
0 hold 2 20 rate 80000
0 hold 2 20 pair 5000
0 add 2 20 0 0 00000001 65535 4294967200 7f000001 8000 8001
";

// Applies what is allowed of a journal's entries.
fn apply_all(book: &mut PlainBook, entries: &[Entry]) -> Result<(), AllocError> {
    for entry in entries {
        let change = [entry.change];
        if book.allowed(&change[0]) {
            book.apply(&change)?;
        }
    }
    Ok(())
}

// The book of a journal.
pub(crate) fn book_of(alloc: Global, journal: &str) -> Option<PlainBook> {
    let mut book = PlainBook::open(alloc, &SMALL).ok()?;
    let entries = read_journal(alloc, journal.as_bytes()).ok()?;
    apply_all(&mut book, &entries).ok()?;
    Some(book)
}

/// A pacer of the session that a journal tells of, where this phase is a play.
pub(crate) fn start(alloc: Global, journal: &str, phase: Phase) -> Option<Pacer> {
    let table = Table::read(alloc, EXAMPLE.as_bytes()).ok()?;
    let view = book_of(alloc, journal)?.session(2)?;
    Pacer::start(&view, phase, table.presentation(0)?)
}

// Keeps the first bytes of what it is sent, and can't read one unit.
#[derive(Drop)]
pub(crate) struct Keeps {
    pub(crate) sent: usize,
    fails_at: usize,
    failures: u64,
    pub(crate) last_unit: u32,
    heads: [[u8; 12]; 3],
}

impl Sink for Keeps {
    ghost use Rattle.std.specs.Prelude.{⊤};

    ghost calls = { record { octets = λ s track unit bytes u. ⊤; sends = λ s track packet u. ⊤; refuses = λ s track unit fault u. ⊤; reports = λ s track packet u. ⊤; fails = λ s u. ⊤; failures = λ s. s.failures } };

    fn octets(&mut self, _track: u16, unit: u32, out: &mut [u8]) -> Result<(), SinkFault> {
        if self.sent == self.fails_at {
            self.fails_at = usize::MAX;
            self.failures = self.failures.saturating_add(1);
            return Err(SinkFault);
        }
        self.last_unit = unit;
        out.fill(7);
        Ok(())
    }

    fn send(&mut self, _track: u16, packet: &mut Packet) {
        if let (Some(head), Some(bytes)) = (
            self.heads.get_mut(self.sent),
            packet.datagram().first_chunk::<12>(),
        ) {
            *head = *bytes;
        }
        self.sent = self.sent.saturating_add(1);
    }

    fn refuse(&mut self, _track: u16, _unit: u32, _fault: SlotFault) {}

    fn report(&mut self, _track: u16, _packet: &mut Packet) {}
}

pub(crate) fn failing_at(fails_at: usize) -> Keeps {
    Keeps {
        sent: 0,
        fails_at,
        failures: 0,
        last_unit: 0,
        heads: [[0; 12]; 3],
    }
}

const STREAM: Stream = Stream {
    presentation: 0,
    track: 0,
    ssrc: 1,
    seq: 65_535,
    rtptime: 4_294_967_200,
    peer: 0x7f00_0001,
    rtp_port: 8000,
    rtcp_port: 8001,
};

const PLAYING: Phase = Phase::Playing {
    since: 0,
    from: 0,
    stop: 500,
    sent: 0,
};

// The header of the second packet of that stream.
const SECOND: [u8; 12] = [0x80, 0, 0, 0, 0, 0, 0, 0x40, 0, 0, 0, 1];

// Whether this is the second packet of that stream, as a datagram and as a frame.
fn is_second(packet: &mut Packet) -> bool {
    let datagram = packet.datagram();
    datagram.starts_with(&SECOND)
        && datagram.ends_with(&[7; 160])
        && datagram.len() == 172
        && packet.frame(0).starts_with(&[0x24, 0, 0, 0xac, 0x80, 0])
        && packet.frame(3).starts_with(&[0x24, 3])
        && packet.frame(3).len() == 176
}

fn second_of(table: &Table) -> Option<Packet> {
    let track = table.presentation(0)?.track(0)?;
    Some(packet(track, &STREAM, &PLAYING, 1, &[7; 160]))
}

fn has_its_second(alloc: Global) -> Option<bool> {
    let table = Table::read(alloc, EXAMPLE.as_bytes()).ok()?;
    Some(is_second(&mut second_of(&table)?))
}

#[test]
fn a_packet_and_its_frame(rt: HostRuntime) {
    assert!(rt; has_its_second(rt.alloc()) == Some(true));
    assert!(rt; Packet::new().datagram().is_empty());
}

// A phase, a moment, what a turn comes to then, how many packets are sent by then, and when the next
// one is due.
type Turned = (Phase, u64, Turn, usize, Option<u64>);

// Of one track, whose third unit can't be read the first time.
const TURNS: [Turned; 6] = [
    (PLAYING, 0, Turn::More, 1, Some(20)),
    (PLAYING, 19, Turn::More, 1, Some(20)),
    (PLAYING, 40, Turn::SinkFailed, 2, Some(40)),
    (PLAYING, 40, Turn::More, 3, Some(60)),
    (PLAYING, 9_979, Turn::More, 499, Some(9_980)),
    (PLAYING, 9_980, Turn::AtEnd, 500, None),
];

const HEADS: [[u8; 12]; 3] = [
    [0x80, 0, 0xff, 0xff, 0xff, 0xff, 0xff, 0xa0, 0, 0, 0, 1],
    SECOND,
    [0x80, 0, 0, 1, 0, 0, 0, 0xe0, 0, 0, 0, 1],
];

const OF_TWO_UNITS: Phase = Phase::Playing {
    since: 1_000,
    from: 7,
    stop: 9,
    sent: 1,
};

// Of two tracks with two units each. Another play of the session isn't the pacer's.
const TURNS_OF_TWO: [Turned; 4] = [
    (PLAYING, 1_000, Turn::OtherPlay, 0, Some(1_000)),
    (OF_TWO_UNITS, 1_019, Turn::More, 2, Some(1_020)),
    (OF_TWO_UNITS, 5_000, Turn::AtEnd, 4, None),
    (OF_TWO_UNITS, 5_000, Turn::AtEnd, 4, None),
];

const HEADS_OF_TWO: [[u8; 12]; 3] = [
    [0x80, 0, 0, 0, 0, 0, 0, 0x40, 0, 0, 0, 1],
    [0x80, 8, 0, 0, 0, 0, 0, 0x40, 0, 0, 0, 2],
    [0x80, 0, 0, 1, 0, 0, 0, 0xe0, 0, 0, 0, 1],
];

fn is_turned(pacer: &mut Pacer, room: &mut SendRoom, sink: &mut Keeps, wanted: &Turned) -> bool {
    let (phase, moment, turn, sent, next) = *wanted;
    pacer.is_of(2, phase) == (turn != Turn::OtherPlay)
        && pacer.turn(2, phase, moment, room, sink) == turn
        && sink.sent == sent
        && pacer.next_due() == next
}

// The first turn that comes to something else.
fn first_other(
    pacer: &mut Pacer,
    room: &mut SendRoom,
    sink: &mut Keeps,
    turns: &[Turned],
) -> Option<usize> {
    for (number, wanted) in turns.iter().enumerate() {
        if !is_turned(pacer, room, sink, wanted) {
            return Some(number);
        }
    }
    None
}

// What a sink has once a pacer has taken these turns, if each comes to what it says.
fn sent(
    mut pacer: Pacer,
    room: &mut SendRoom,
    fails_at: usize,
    turns: &[Turned],
) -> Result<Keeps, usize> {
    let mut sink = failing_at(fails_at);
    match first_other(&mut pacer, room, &mut sink, turns) {
        None => Ok(sink),
        Some(number) => Err(number),
    }
}

// Whether a sink has these headers, this unit last, and so many failures.
fn has(sink: Result<Keeps, usize>, heads: &[[u8; 12]; 3], last_unit: u32, failures: u64) -> bool {
    match sink {
        Ok(sink) => sink.heads == *heads
            && sink.last_unit == last_unit
            && sink.failures == failures,
        Err(_) => false,
    }
}

fn sends_one(alloc: Global) -> Option<bool> {
    let pacer = start(alloc, ONE, PLAYING)?;
    let is_new = pacer.session() == 2 && pacer.next_due() == Some(0);
    let mut room = SendRoom::open(alloc).ok()?;
    Some(is_new && has(sent(pacer, &mut room, 2, &TURNS), &HEADS, 499, 1))
}

#[test]
fn a_turn_sends_what_is_due(rt: HostRuntime) {
    assert!(rt; sends_one(rt.alloc()) == Some(true));
}

fn sends_two(alloc: Global) -> Option<bool> {
    let pacer = start(alloc, BOTH, OF_TWO_UNITS)?;
    let mut room = SendRoom::open(alloc).ok()?;
    let sent = sent(pacer, &mut room, usize::MAX, &TURNS_OF_TWO);
    Some(has(sent, &HEADS_OF_TWO, 8, 0))
}

#[test]
fn a_turn_of_two_tracks_and_of_another_play(rt: HostRuntime) {
    assert!(rt; sends_two(rt.alloc()) == Some(true));
}

fn has_pacer(alloc: Global, phase: Phase) -> bool {
    start(alloc, ONE, phase).is_some()
}

#[test]
fn a_session_that_is_ready_has_no_pacer(rt: HostRuntime) {
    let ready = Phase::Ready { at: 0, sent: 0 };
    let found = [has_pacer(rt.alloc(), PLAYING), has_pacer(rt.alloc(), ready)];
    assert!(rt; found == [true, false]);
}
