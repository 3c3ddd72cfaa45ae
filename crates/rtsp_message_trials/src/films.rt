//! The packets of units of several: of slots, and of packets of one length; and what is told of them.

use crate::packets::book_of;
use rtsp_content::Table;
use rtsp_record::Phase;
use rtsp_rtp::*;
use rtsp_sessions::BookRep;
use std::alloc::Global;

// A picture in slots of up to three packets, and sound of two packets a unit; both may begin at every
// second's first unit.
const FILM: &str = "\
[server]
first_port = 5000
pairs = 2
uplink = 160000
sessions = 4
[[presentation]]
name = \"film\"
units = 100
unit_ms = 40
starts = [0, 25, 50]
[[presentation.track]]
name = \"v\"
media = \"video\"
pt = 96
encoding = \"H264\"
clock = 90000
packets = 3
octets = 30
ticks = 3600
file = \"film.v\"
[[presentation.track]]
name = \"a\"
media = \"audio\"
pt = 0
encoding = \"PCMU\"
clock = 8000
packets = 2
packing = \"equal\"
octets = 320
ticks = 320
file = \"film.a\"
";

// A session with streams of both tracks.
const BOTH: &str = "\
0 open 2 00000000000000000000000000000001 1 60000
0 hold 2 20 rate 80000
0 hold 2 20 pair 5000
0 add 2 20 0 0 00000001 65535 4294967200 7f000001 8000 8001
0 hold 2 22 rate 80000
0 hold 2 22 pair 5002
0 add 2 22 0 1 00000002 65535 4294967200 7f000001 8000 8001
";

const PLAYING: Phase = Phase::Playing {
    since: 0,
    from: 0,
    stop: 100,
    sent: 0,
};

// Three bytes with the marker bit, 120 ticks before the unit; two bytes, five ticks behind it; no more.
const SLOT: [u8; 22] = [
    0, 3, 0, 1, 0xff, 0xff, 0xff, 0x88, 1, 2, 3, 0, 2, 0, 0, 0, 0, 0, 5, 4, 5, 0,
];

// Keeps the headers of the first packets, the last report, and what it heard of units.
#[derive(Drop)]
struct Keeps {
    slot: [u8; 22],
    sent: usize,
    heads: [[u8; 12]; 4],
    lens: [usize; 4],
    reported: usize,
    report: [u8; 28],
    refused: Option<SlotFault>,
}

impl Keeps {
    fn of(slot: [u8; 22]) -> Keeps {
        Keeps {
            slot,
            sent: 0,
            heads: [[0; 12]; 4],
            lens: [0; 4],
            reported: 0,
            report: [0; 28],
            refused: None,
        }
    }
}

impl Sink for Keeps {
    ghost use Rattle.std.specs.Prelude.{⊤};

    ghost calls = { record { octets = λ s track unit bytes u. ⊤; sends = λ s track packet u. ⊤; refuses = λ s track unit fault u. ⊤; reports = λ s track packet u. ⊤; fails = λ s u. ⊤; failures = λ s. 0 } };

    fn octets(&mut self, track: u16, _unit: u32, out: &mut [u8]) -> Result<(), SinkFault> {
        out.fill(0);
        if track == 0
            && let Some(front) = out.first_chunk_mut::<22>()
        {
            *front = self.slot;
        }
        Ok(())
    }

    fn send(&mut self, _track: u16, packet: &mut Packet) {
        let datagram = packet.datagram();
        if let (Some(head), Some(len), Some(bytes)) = (
            self.heads.get_mut(self.sent),
            self.lens.get_mut(self.sent),
            datagram.first_chunk::<12>(),
        ) {
            *head = *bytes;
            *len = datagram.len();
        }
        self.sent = self.sent.saturating_add(1);
    }

    fn refuse(&mut self, _track: u16, _unit: u32, fault: SlotFault) {
        self.refused = Some(fault);
    }

    fn report(&mut self, _track: u16, packet: &mut Packet) {
        if let Some(bytes) = packet.datagram().first_chunk::<28>() {
            self.report = *bytes;
        }
        self.reported = self.reported.saturating_add(1);
    }
}

// The headers of the first unit's packets: two of the picture, two of the sound.
const HEADS: [[u8; 12]; 4] = [
    [0x80, 0xe0, 0xff, 0xff, 0xff, 0xff, 0xff, 0x28, 0, 0, 0, 1],
    [0x80, 0x60, 0, 0, 0xff, 0xff, 0xff, 0xa5, 0, 0, 0, 1],
    [0x80, 0, 0xff, 0xff, 0xff, 0xff, 0xff, 0xa0, 0, 0, 0, 2],
    [0x80, 0, 0, 0, 0, 0, 0, 0x40, 0, 0, 0, 2],
];

// The sound's report behind its unit at one second: what its timestamp is then, and 52 packets of 160
// octets.
const REPORT: [u8; 28] = [
    0x80, 200, 0, 6, 0, 0, 0, 2, 0, 0, 0, 1, 0, 0, 0, 0, 0, 0, 0x1e, 0xe0, 0, 0, 0, 52, 0, 0, 0x20,
    0x80,
];

// What a pacer of the film sends by these moments, one turn after another.
fn sent_by(alloc: Global, slot: [u8; 22], moments: &[u64]) -> Option<Keeps> {
    let table = Table::read(alloc, FILM.as_bytes()).ok()?;
    let view = book_of(alloc, BOTH)?.session(2)?;
    let mut pacer = Pacer::start(&view, PLAYING, table.presentation(0)?)?;
    let mut room = SendRoom::open(alloc).ok()?;
    let mut sink = Keeps::of(slot);
    for moment in moments {
        if pacer.turn(2, PLAYING, *moment, &mut room, &mut sink) != Turn::More {
            return None;
        }
    }
    Some(sink)
}

fn sends_the_first(alloc: Global) -> Option<bool> {
    let kept = sent_by(alloc, SLOT, &[0])?;
    Some(
        kept.heads == HEADS
            && kept.lens == [15, 14, 172, 172]
            && kept.sent == 4
            && kept.reported == 2
            && kept.refused.is_none(),
    )
}

#[test]
fn a_unit_of_several_packets(rt: HostRuntime) {
    assert!(rt; sends_the_first(rt.alloc()) == Some(true));
}

fn reports_each_second(alloc: Global) -> Option<bool> {
    let early = sent_by(alloc, SLOT, &[0, 999])?;
    let later = sent_by(alloc, SLOT, &[0, 500, 1_000])?;
    Some(early.reported == 2 && later.reported == 4 && later.report == REPORT)
}

#[test]
fn a_stream_reports_once_a_second(rt: HostRuntime) {
    assert!(rt; reports_each_second(rt.alloc()) == Some(true));
}

// The slot with another length, other flags, of its second packet.
fn with(at: usize, value: u8) -> [u8; 22] {
    let mut slot = SLOT;
    if let Some(byte) = slot.get_mut(at) {
        *byte = value;
    }
    slot
}

// How many packets of the first picture are sent, and what is wrong with it.
fn comes_to(alloc: Global, slot: [u8; 22]) -> Option<(usize, Option<SlotFault>)> {
    let kept = sent_by(alloc, slot, &[0])?;
    Some((kept.sent.saturating_sub(2), kept.refused))
}

#[test]
fn what_is_malformed_is_named_and_not_sent(rt: HostRuntime) {
    let too_long = comes_to(rt.alloc(), with(11, 8));
    assert!(rt; too_long == Some((1, Some(SlotFault::TooLong))));
    let cut = comes_to(rt.alloc(), with(12, 250));
    assert!(rt; cut == Some((1, Some(SlotFault::Cut))));
    let flags = comes_to(rt.alloc(), with(14, 2));
    assert!(rt; flags == Some((1, Some(SlotFault::BadFlags))));
    let none = comes_to(rt.alloc(), with(1, 0));
    assert!(rt; none == Some((0, None)));
}

fn begins_at(alloc: Global) -> Option<[u32; 5]> {
    let table = Table::read(alloc, FILM.as_bytes()).ok()?;
    let film = table.presentation(0)?;
    let rate = u32::try_from(film.rate(film.track(0)?)).ok()?;
    Some([
        film.start_at(0),
        film.start_at(24),
        film.start_at(99),
        film.longest_gap(),
        rate,
    ])
}

#[test]
fn where_a_film_begins_and_what_it_takes(rt: HostRuntime) {
    // (30 + 3 * 40) bytes each 40 ms, and 72 of a report each second.
    assert!(rt; begins_at(rt.alloc()) == Some([0, 0, 50, 50, 30_576]));
}
