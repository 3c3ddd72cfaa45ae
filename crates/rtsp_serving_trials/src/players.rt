//! What requests as GStreamer writes them are answered, and those that aren't repaired; and what is
//! told of requests to whoever watches.

use crate::server::{SERVER, Seen, Server, as_sent, converse};
use std::sync::Wait;

const STRICT: &str = "players = \"strict\"";

const GSTREAMER: &str = "players = \"gstreamer\"";

// Two tracks of one session and a PLAY, as GStreamer sends them over UDP before the first answer.
// Its number is the same in all of them; here the second is another, and the same modulo 10^8.
const SPOKEN: &str = "\
SETUP rtsp://h/tone/a RTSP/2.0
CSeq: 1
Pipelined-Requests: 1266004631
Transport: RTP/AVP;unicast;client_port=40352-40353

SETUP rtsp://h/tone/b RTSP/2.0
CSeq: 2
Pipelined-Requests: 2166004631
Transport: RTP/AVP;unicast;client_port=40354-40355

PLAY rtsp://h/tone/ RTSP/2.0
CSeq: 3
Pipelined-Requests: 1266004631

";

// The same in the terms of the RFC.
const WITHIN: &str = "\
SETUP rtsp://h/tone/a RTSP/2.0
CSeq: 1
Pipelined-Requests: 66004631
Transport: RTP/AVP;unicast;dest_addr=\":40352\"/\":40353\"

SETUP rtsp://h/tone/b RTSP/2.0
CSeq: 2
Pipelined-Requests: 66004631
Transport: RTP/AVP;unicast;dest_addr=\":40354\"/\":40355\"

PLAY rtsp://h/tone/ RTSP/2.0
CSeq: 3
Pipelined-Requests: 66004631

";

const ANSWERED: &str = "\
RTSP/2.0 200 OK
CSeq: 1
Session: 00000000000000000000000000000001;timeout=60
Transport: RTP/AVP;unicast;dest_addr=\":40352\"/\":40353\";src_addr=\":5000\"/\":5001\";ssrc=00000001
Accept-Ranges: npt
Media-Properties: Random-Access=0.020, Immutable, Unlimited
Media-Range: npt=0.000-10.000

RTSP/2.0 200 OK
CSeq: 2
Session: 00000000000000000000000000000001;timeout=60
Transport: RTP/AVP;unicast;dest_addr=\":40354\"/\":40355\";src_addr=\":5002\"/\":5003\";ssrc=00000002
Accept-Ranges: npt
Media-Properties: Random-Access=0.020, Immutable, Unlimited
Media-Range: npt=0.000-10.000

RTSP/2.0 200 OK
CSeq: 3
Session: 00000000000000000000000000000001
Range: npt=0.000-10.000
Seek-Style: RAP
RTP-Info: url=\"rtsp://h/tone/a\" ssrc=00000001:seq=2;rtptime=3,url=\"rtsp://h/tone/b\" ssrc=00000002:seq=2;rtptime=3

";

const REFUSED: &str = "RTSP/2.0 400 Bad Request\nCSeq: 1\n\n";

// Whether the answers to requests by such players begin so.
fn begin<R: AllocGlobal + Wait>(
    rt: &R,
    lines: &'static str,
    requests: &str,
    answers: &str,
) -> Option<bool> {
    let talk = converse(rt, Server { lines, ..SERVER }, requests)?;
    let answers = as_sent(rt.alloc(), answers).ok()?;
    Some(talk.said.starts_with(answers.as_bytes()))
}

#[test]
fn spoken_requests_are_answered_as_repaired_ones(rt: HostRuntime) {
    let begun = [
        begin(&rt, STRICT, WITHIN, ANSWERED),
        begin(&rt, GSTREAMER, WITHIN, ANSWERED),
        begin(&rt, GSTREAMER, SPOKEN, ANSWERED),
        begin(&rt, STRICT, SPOKEN, REFUSED),
    ];
    assert!(rt; begun == [Some(true); 4]);
}

// Lines of a SETUP, and how its answer begins, repaired or not.
const UNREPAIRED: [(&str, &str); 5] = [
    (
        "Pipelined-Requests: 12345678901\nTransport: RTP/AVP/TCP;interleaved=0-1",
        REFUSED,
    ),
    (
        "Pipelined-Requests: 1266004631\nPipelined-Requests: 1266004631\n\
        Transport: RTP/AVP/TCP;interleaved=0-1",
        REFUSED,
    ),
    (
        "Transport: RTP/AVP;client_port=8000",
        "RTSP/2.0 461 Unsupported Transport\nCSeq: 1\n\n",
    ),
    (
        "Transport: RTP/AVP;client_port=8000-8001;client_port=8000-8001",
        "RTSP/2.0 461 Unsupported Transport\nCSeq: 1\n\n",
    ),
    (
        "Transport: RTP/AVP;client_port=8000-8001;dest_addr=\":9000\"/\":9001\"",
        "RTSP/2.0 200 OK\nCSeq: 1\nSession: 00000000000000000000000000000001;timeout=60\n\
        Transport: RTP/AVP;unicast;dest_addr=\":9000\"/\":9001\";",
    ),
];

// Whether the answer to a SETUP with these lines begins so for any players.
fn begins_alike<R: AllocGlobal + Wait>(rt: &R, lines: &str, answer: &str) -> Option<bool> {
    let requests = format!(in rt.alloc(); "SETUP rtsp://h/tone/a RTSP/2.0\nCSeq: 1\n{lines}\n\n");
    let requests = requests.ok()?;
    Some(
        begin(rt, STRICT, requests.as_str(), answer)?
            && begin(rt, GSTREAMER, requests.as_str(), answer)?,
    )
}

#[test]
fn what_isn_t_repaired_is_answered_alike(rt: HostRuntime) {
    for (lines, answer) in UNREPAIRED {
        assert!(rt; begins_alike(&rt, lines, answer) == Some(true), "{lines}");
    }
}

const WATCHED: &str = "\
OPTIONS * RTSP/2.0
CSeq: 1

DESCRIBE rtsp://h/tone RTSP/2.0
CSeq: 2

SETUP rtsp://h/tone/a RTSP/2.0
CSeq: 3
Pipelined-Requests: 1266004631
Transport: RTP/AVP;unicast;client_port=40352-40353

";

// What is seen of these requests, of players of a kind.
fn seen_of<R: AllocGlobal + Wait>(rt: &R, lines: &'static str) -> Option<Seen> {
    Some(converse(rt, Server { lines, ..SERVER }, WATCHED)?.seen)
}

const IN_SESSION: &str = "\
SETUP rtsp://h/tone/a RTSP/2.0
CSeq: 1
Transport: RTP/AVP;unicast;dest_addr=\":9000\"/\":9001\"

OPTIONS * RTSP/2.0
CSeq: 2
Session: 00000000000000000000000000000001

";

// An answer to what was asked in a session names it.
#[test]
fn a_session_is_told_of(rt: HostRuntime) {
    let seen = converse(&rt, SERVER, IN_SESSION).map(|talk| talk.seen);
    assert!(rt; seen == Some((2, 200, Some(0), 7 + 1, None)));
}

// A frame before the last request, which comes in two pieces.
#[test]
fn frames_are_told_of(rt: HostRuntime) {
    let asked = "OPTIONS * RTSP/2.0\nCSeq: 1\n\n$\x07\0\x04RTCPOPTIONS * RTSP/2.0\nCSeq: 2\n\n";
    let seen = converse(&rt, SERVER, asked).map(|talk| talk.seen);
    assert!(rt; seen == Some((2, 200, None, 7 + 1, Some(7))));
}

// The session's first eight digits are zeros.
#[test]
fn each_request_is_told_of(rt: HostRuntime) {
    let seen = [seen_of(&rt, STRICT), seen_of(&rt, GSTREAMER)];
    assert!(rt;
        seen == [
            Some((3, 400, None, 5 + 15, None)),
            Some((3, 200, Some(0), 5 + 15, None))
        ]
    );
}
