//! Connections over devices of which one fails at one of its calls.

use crate::devices::{Failing, NEVER};
use crate::world::{Conversation, converse, count_of};
use rtsp_engine::{ServeEnd, TURNS};
use std::alloc::{AllocError, Global};
use std::sync::Wait;

const PIPELINED: &str = "\
    SETUP rtsp://h/tone/a RTSP/2.0\r\nCSeq: 1\r\nPipelined-Requests: 7\r\n\
    Transport: RTP/AVP/TCP;unicast;interleaved=0-1\r\n\r\n\
    SETUP rtsp://h/tone/b RTSP/2.0\r\nCSeq: 2\r\nPipelined-Requests: 7\r\n\
    Transport: RTP/AVP/TCP;unicast;interleaved=0-1\r\n\r\n\
    PLAY rtsp://h/tone RTSP/2.0\r\nCSeq: 3\r\nPipelined-Requests: 7\r\n\r\n";

const PIPELINED_ANSWERS: &str = "\
    RTSP/2.0 200 OK\r\nCSeq: 1\r\nSession: 00000000000000000000000000000001;timeout=60\r\n\
    Transport: RTP/AVP/TCP;unicast;interleaved=0-1;ssrc=00000001\r\nAccept-Ranges: npt\r\n\
    Media-Properties: Random-Access=0.020, Immutable, Unlimited\r\n\
    Media-Range: npt=0.000-10.000\r\n\r\n\
    RTSP/2.0 200 OK\r\nCSeq: 2\r\nSession: 00000000000000000000000000000001;timeout=60\r\n\
    Transport: RTP/AVP/TCP;unicast;interleaved=2-3;ssrc=00000002\r\nAccept-Ranges: npt\r\n\
    Media-Properties: Random-Access=0.020, Immutable, Unlimited\r\n\
    Media-Range: npt=0.000-10.000\r\n\r\n\
    RTSP/2.0 200 OK\r\nCSeq: 3\r\nSession: 00000000000000000000000000000001\r\n\
    Range: npt=0.000-10.000\r\nSeek-Style: RAP\r\n\
    RTP-Info: url=\"rtsp://h/tone/a\" ssrc=00000001:seq=0;rtptime=0,\
    url=\"rtsp://h/tone/b\" ssrc=00000002:seq=0;rtptime=0\r\n\r\n";

// Which call fails, and what comes of it.
const OF_STREAMS: &str = "\
read 1: 0 granted, 0 refused, read fault
read 2: 1 granted, 0 refused, read fault
read 3: 2 granted, 0 refused, read fault
read 4: 3 granted, 0 refused, read fault
read 5: 3 granted, 0 refused, closed
write 1: 0 granted, 0 refused, write fault
write 2: 1 granted, 0 refused, write fault
write 3: 2 granted, 0 refused, write fault
";

const OVER_PORTS: &str = "\
    SETUP rtsp://h/tone/a RTSP/2.0\r\nCSeq: 1\r\n\
    Transport: RTP/AVP;unicast;dest_addr=\":8000\"/\":8001\"\r\n\r\n\
    SETUP rtsp://h/tone/a RTSP/2.0\r\nCSeq: 2\r\n\
    Transport: RTP/AVP;unicast;dest_addr=\":8000\"/\":8001\"\r\n\r\n\
    OPTIONS * RTSP/2.0\r\nCSeq: 3\r\n\r\n";

// A pair that can't be bound is given back, and the next one is tried; there are two. Each SETUP draws
// four words.
const OF_PORTS_AND_WORDS: &str = "\
bind 1: 3 granted, 0 refused, closed
bind 2: 2 granted, 1 refused, closed
bind 3: 3 granted, 0 refused, closed
word 1: 2 granted, 1 refused, closed
word 2: 2 granted, 1 refused, closed
word 3: 2 granted, 1 refused, closed
word 4: 2 granted, 1 refused, closed
word 5: 2 granted, 1 refused, closed
word 6: 2 granted, 1 refused, closed
word 7: 2 granted, 1 refused, closed
word 8: 2 granted, 1 refused, closed
";

// The devices of which this call fails.
fn failing_at(call: &str) -> Failing {
    let (device, place) = call.split_once(' ').unwrap_or((call, ""));
    let place = place.parse().unwrap_or(0);
    let mut failing = NEVER;
    match device {
        "read" => failing.read = place,
        "write" => failing.write = place,
        "bind" => failing.bind = place,
        _ => failing.word = place,
    }
    failing
}

fn name_of(end: ServeEnd) -> &'static str {
    match end {
        ServeEnd::Closed => "closed",
        ServeEnd::ReadFault => "read fault",
        ServeEnd::WriteFault => "write fault",
        ServeEnd::Fault(_) | ServeEnd::TurnsSpent => "another end",
    }
}

// How many answers are 200, how many 500 or 503, and how it ends.
fn outcome(alloc: Global, talk: &Conversation) -> Result<String, AllocError> {
    let granted = count_of(&talk.said, b"RTSP/2.0 200 OK\r\n");
    let refused = count_of(&talk.said, b"RTSP/2.0 5");
    let end = name_of(talk.end);
    format!(in alloc; "{granted} granted, {refused} refused, {end}")
}

// Whether what is said is the first of these answers, each whole.
fn is_front(said: &[u8], answers: &str) -> bool {
    let is_whole = said.is_empty() || said.ends_with(b"\r\n\r\n");
    is_whole && answers.as_bytes().starts_with(said)
}

// Whether a row says what comes of these requests, and of these answers if any are given.
fn holds<R: Wait + AllocGlobal>(rt: &R, row: &str, requests: &str, answers: &str) -> Option<bool> {
    let (call, wanted) = row.split_once(": ")?;
    let talk = converse(rt, rt.alloc(), requests, failing_at(call), TURNS)?;
    let found = outcome(rt.alloc(), &talk).ok()?;
    let is_said = answers.is_empty() || is_front(&talk.said, answers);
    Some(is_said && found.as_str() == wanted)
}

#[test]
fn streams_that_fail(rt: HostRuntime) {
    for row in OF_STREAMS.lines() {
        assert!(rt;
            holds(&rt, row, PIPELINED, PIPELINED_ANSWERS) == Some(true),
            "{row}"
        );
    }
}

#[test]
fn binders_and_words_that_fail(rt: HostRuntime) {
    for row in OF_PORTS_AND_WORDS.lines() {
        assert!(rt; holds(&rt, row, OVER_PORTS, "") == Some(true), "{row}");
    }
}
