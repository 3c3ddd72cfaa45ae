//! Conversations: a response of each kind, and what devices that fail and a full journal change.

use crate::devices::{Drawing, Noting, Ticking};
use crate::server::{SERVER, Server, Talk, as_sent, converse};
use rtsp_engine::{law_served_grows, law_visited_drawn};
use rtsp_lock::AnyNumbers;
use rtsp_record::Phase;
use rtsp_traits::{NoShares, PortSet};
use std::alloc::Global;
use std::sync::Wait;

const REQUESTS: &str = "\
OPTIONS * RTSP/2.0

OPTIONS * RTSP/2.0
CSeq: 2

DESCRIBE rtsp://h/tone?x RTSP/2.0
CSeq: 3

SETUP rtsp://h/tone/a RTSP/2.0
CSeq: 4
Require: x.y, play.basic, z
Transport: RTP/AVP/TCP;interleaved=0-1

SETUP rtsp://h/tone/a RTSP/2.0
CSeq: 5
Transport: RTP/AVP/TCP;interleaved=0-1

SETUP rtsp://h/tone/b RTSP/2.0
CSeq: 6
Transport: RTP/SAVP;unicast

SETUP rtsp://h/tone/b RTSP/2.0
CSeq: 7
Transport: RTP/AVP;unicast;dest_addr=\":8000\"/\":8001\"

SETUP rtsp://h/tone/a RTSP/2.0
CSeq: 8
Transport: RTP/AVP/TCP;interleaved=4-5

PLAY rtsp://h/tone RTSP/2.0
CSeq: 9
Session: 00000000000000000000000000000001
Range: npt=2.505-

SETUP rtsp://h/tone/a RTSP/2.0
CSeq: 10
Session: 00000000000000000000000000000001
Transport: RTP/AVP/TCP;interleaved=0-1

GET_PARAMETER rtsp://h/tone RTSP/2.0
CSeq: 11
Session: 00000000000000000000000000000001
Content-Length: 10

position
PAUSE rtsp://h/tone RTSP/2.0
CSeq: 12
Session: 00000000000000000000000000000001

SET_PARAMETER rtsp://h/tone RTSP/2.0
CSeq: 13
Session: 00000000000000000000000000000001

PLAY rtsp://h/tone RTSP/2.0
CSeq: 999999999
Session: 00000000000000000000000000000001
Require: x.y

TEARDOWN rtsp://h/tone RTSP/2.0
CSeq: 15
Session: 00000000000000000000000000000001

PLAY rtsp://h/tone RTSP/2.0
CSeq: 16
Session: 00000000000000000000000000000001

";

const RESPONSES: &str = "\
RTSP/2.0 400 Bad Request

RTSP/2.0 200 OK
CSeq: 2
Public: OPTIONS, DESCRIBE, SETUP, PLAY, PAUSE, TEARDOWN, GET_PARAMETER, SET_PARAMETER

RTSP/2.0 200 OK
CSeq: 3
Content-Base: rtsp://h/tone/
Content-Type: application/sdp
Content-Length: 215

v=0
o=- 1 1 IN IP4 127.0.0.1
s=tone
c=IN IP4 0.0.0.0
t=0 0
a=control:*
a=range:npt=0.000-10.000
m=audio 0 RTP/AVP 0
a=rtpmap:0 PCMU/8000
a=control:a
m=audio 0 RTP/AVP 8
a=rtpmap:8 PCMA/8000
a=control:b
RTSP/2.0 551 Option Not Supported
CSeq: 4
Unsupported: x.y, z

RTSP/2.0 200 OK
CSeq: 5
Session: 00000000000000000000000000000001;timeout=60
Transport: RTP/AVP/TCP;unicast;interleaved=0-1;ssrc=00000001
Accept-Ranges: npt
Media-Properties: Random-Access=0.020, Immutable, Unlimited
Media-Range: npt=0.000-10.000

RTSP/2.0 461 Unsupported Transport
CSeq: 6

RTSP/2.0 200 OK
CSeq: 7
Session: 00000000000000000000000000000002;timeout=60
Transport: RTP/AVP;unicast;dest_addr=\":8000\"/\":8001\";src_addr=\":5000\"/\":5001\";ssrc=00000002
Accept-Ranges: npt
Media-Properties: Random-Access=0.020, Immutable, Unlimited
Media-Range: npt=0.000-10.000

RTSP/2.0 453 Not Enough Bandwidth
CSeq: 8

RTSP/2.0 200 OK
CSeq: 9
Session: 00000000000000000000000000000001
Range: npt=2.500-10.000
Seek-Style: RAP
RTP-Info: url=\"rtsp://h/tone/a\" ssrc=00000001:seq=2;rtptime=3

RTSP/2.0 455 Method Not Valid in This State
CSeq: 10
Session: 00000000000000000000000000000001
Allow: OPTIONS, DESCRIBE, GET_PARAMETER, SET_PARAMETER

RTSP/2.0 200 OK
CSeq: 11
Session: 00000000000000000000000000000001
Content-Type: text/parameters
Content-Length: 17

position: 4.520
RTSP/2.0 200 OK
CSeq: 12
Session: 00000000000000000000000000000001
Range: npt=5.520-10.000

RTSP/2.0 200 OK
CSeq: 13
Session: 00000000000000000000000000000001

RTSP/2.0 551 Option Not Supported
CSeq: 999999999
Unsupported: x.y

RTSP/2.0 200 OK
CSeq: 15

RTSP/2.0 454 Session Not Found
CSeq: 16

";

// Whether these are the responses of a conversation.
fn is_said(alloc: Global, talk: &Talk, responses: &str) -> bool {
    match as_sent(alloc, responses) {
        Ok(expected) => talk.said.as_slice() == expected.as_bytes(),
        Err(_) => false,
    }
}

#[test]
fn a_response_of_each_kind(rt: HostRuntime) {
    let is_answered = match converse(&rt, SERVER, REQUESTS) {
        Some(talk) => is_said(rt.alloc(), &talk, RESPONSES),
        None => false,
    };
    assert!(rt; is_answered);
}

const SETUP_AND_PLAY: &str = "\
SETUP rtsp://h/tone/a RTSP/2.0
CSeq: 1
Transport: RTP/AVP;unicast;dest_addr=\":8000\"/\":8001\"

PLAY rtsp://h/tone RTSP/2.0
CSeq: 2
Session: 00000000000000000000000000000001

";

// Whether the PLAY with the number 2 was noted, and began all of the media.
fn is_begun(plays: &Noting) -> bool {
    plays.noted == Some(2)
        && matches!(
            plays.settled,
            Some(Some(Phase::Playing {
                from: 0,
                stop: 500,
                sent: 0,
                ..
            }))
        )
}

#[test]
fn a_play_is_noted_and_settled(rt: HostRuntime) {
    let is_noted = match converse(&rt, SERVER, SETUP_AND_PLAY) {
        Some(talk) => is_begun(&talk.plays),
        None => false,
    };
    assert!(rt; is_noted);
}

// What a server has otherwise than `SERVER`, and what it answers then.
const FAILING: [(Server, &str); 4] = [
    (
        Server {
            words: false,
            ..SERVER
        },
        "\
RTSP/2.0 500 Internal Server Error
CSeq: 1

RTSP/2.0 454 Session Not Found
CSeq: 2

",
    ),
    (
        Server { pairs: 0, ..SERVER },
        "\
RTSP/2.0 503 Service Unavailable
CSeq: 1

RTSP/2.0 454 Session Not Found
CSeq: 2

",
    ),
    (
        Server {
            plays: false,
            ..SERVER
        },
        "\
RTSP/2.0 200 OK
CSeq: 1
Session: 00000000000000000000000000000001;timeout=60
Transport: RTP/AVP;unicast;dest_addr=\":8000\"/\":8001\";src_addr=\":5000\"/\":5001\";ssrc=00000001
Accept-Ranges: npt
Media-Properties: Random-Access=0.020, Immutable, Unlimited
Media-Range: npt=0.000-10.000

RTSP/2.0 500 Internal Server Error

",
    ),
    // There is room for the four entries of the SETUP and what takes them back.
    (
        Server {
            journal: 8,
            ..SERVER
        },
        "\
RTSP/2.0 200 OK
CSeq: 1
Session: 00000000000000000000000000000001;timeout=60
Transport: RTP/AVP;unicast;dest_addr=\":8000\"/\":8001\";src_addr=\":5000\"/\":5001\";ssrc=00000001
Accept-Ranges: npt
Media-Properties: Random-Access=0.020, Immutable, Unlimited
Media-Range: npt=0.000-10.000

RTSP/2.0 503 Service Unavailable
CSeq: 2
Session: 00000000000000000000000000000001

",
    ),
];

// Whether a server answers so, and begins no play.
fn begins_none<R: AllocGlobal + Wait>(rt: &R, server: Server, expected: &str) -> bool {
    match converse(rt, server, SETUP_AND_PLAY) {
        Some(talk) => talk.plays.settled.is_none() && is_said(rt.alloc(), &talk, expected),
        None => false,
    }
}

#[test]
fn a_play_is_not_begun_where_something_fails(rt: HostRuntime) {
    for (server, expected) in FAILING {
        assert!(rt; begins_none(&rt, server, expected), "{expected}");
    }
}

// SETUPs over two ports, over one, and over the connection, of a player who came through a balancer.
const BEHIND_A_BALANCER: &str = "\
SETUP rtsp://h/tone/a RTSP/2.0
CSeq: 1
Transport: RTP/AVP;unicast;dest_addr=\":8000\"/\":8001\"

SETUP rtsp://h/tone/b RTSP/2.0
CSeq: 2
Session: 00000000000000000000000000000001
Transport: RTP/AVP;unicast;RTCP-mux;dest_addr=\":8002\"

TEARDOWN rtsp://h/tone RTSP/2.0
CSeq: 3
Session: 00000000000000000000000000000001

SETUP rtsp://h/tone/a RTSP/2.0
CSeq: 4
Transport: RTP/AVP/TCP;interleaved=0-1

";

const TOLD_BEHIND_A_BALANCER: &str = "\
RTSP/2.0 200 OK
CSeq: 1
Session: 00000000000000000000000000000001;timeout=60
Transport: RTP/AVP;unicast;dest_addr=\":8000\"/\":8001\";src_addr=\"10.77.0.11:5000\"/\"10.77.0.11:5001\";ssrc=00000001
Accept-Ranges: npt
Media-Properties: Random-Access=0.020, Immutable, Unlimited
Media-Range: npt=0.000-10.000

RTSP/2.0 200 OK
CSeq: 2
Session: 00000000000000000000000000000001;timeout=60
Transport: RTP/AVP;unicast;dest_addr=\":8002\";src_addr=\"10.77.0.11:5002\";RTCP-mux;ssrc=00000002
Accept-Ranges: npt
Media-Properties: Random-Access=0.020, Immutable, Unlimited
Media-Range: npt=0.000-10.000

RTSP/2.0 200 OK
CSeq: 3

RTSP/2.0 200 OK
CSeq: 4
Session: 00000000000000000000000000000003;timeout=60
Transport: RTP/AVP/TCP;unicast;interleaved=0-1;ssrc=00000003
Accept-Ranges: npt
Media-Properties: Random-Access=0.020, Immutable, Unlimited
Media-Range: npt=0.000-10.000

";

#[test]
fn a_player_behind_a_balancer_is_told_the_host(rt: HostRuntime) {
    let server = Server {
        source: Some(0x0a4d_000b),
        ..SERVER
    };
    let is_told = match converse(&rt, server, BEHIND_A_BALANCER) {
        Some(talk) => is_said(rt.alloc(), &talk, TOLD_BEHIND_A_BALANCER),
        None => false,
    };
    assert!(rt; is_told);
}

// Requests of one session, a second apart.
const REQUESTS_BY_SECOND: &str = "\
SETUP rtsp://h/tone/a RTSP/2.0
CSeq: 1
Transport: RTP/AVP;unicast;dest_addr=\":8000\"/\":8001\"

GET_PARAMETER rtsp://h/tone RTSP/2.0
CSeq: 2
Session: 00000000000000000000000000000001

GET_PARAMETER rtsp://h/tone RTSP/2.0
CSeq: 3
Session: 00000000000000000000000000000001

GET_PARAMETER rtsp://h/tone RTSP/2.0
CSeq: 4
Session: 00000000000000000000000000000001

GET_PARAMETER rtsp://h/tone RTSP/2.0
CSeq: 5
Session: 00000000000000000000000000000001

GET_PARAMETER rtsp://h/tone RTSP/2.0
CSeq: 6
Session: 00000000000000000000000000000001

GET_PARAMETER rtsp://h/tone RTSP/2.0
CSeq: 7
Session: 00000000000000000000000000000001

TEARDOWN rtsp://h/tone RTSP/2.0
CSeq: 8
Session: 00000000000000000000000000000001

";

// A line of the configuration, and the moments to which the end of the session is moved, which would
// come at 60,000 ms. What gains less than the step is left out, and so is the end by TEARDOWN.
const ENDS: [(&str, &[u64]); 4] = [
    ("", &[61_000, 62_000, 63_000, 64_000, 65_000, 66_000]),
    (
        "renewal_step = 1000",
        &[61_000, 62_000, 63_000, 64_000, 65_000, 66_000],
    ),
    ("renewal_step = 1001", &[62_000, 64_000, 66_000]),
    ("renewal_step = 5000", &[65_000]),
];

// Whether the end of the session is moved to these moments.
fn moves_to<R: AllocGlobal + Wait>(rt: &R, lines: &'static str, moments: &[u64]) -> bool {
    match converse(rt, Server { lines, ..SERVER }, REQUESTS_BY_SECOND) {
        Some(talk) => talk.ends.as_slice() == moments,
        None => false,
    }
}

#[test]
fn a_renewal_that_gains_less_than_the_step_is_left_out(rt: HostRuntime) {
    for (lines, moments) in ENDS {
        assert!(rt; moves_to(&rt, lines, moments), "{lines}");
    }
}

#[test]
fn the_laws_are_called() {
    law_served_grows::<HostRuntime, PortSet, Drawing, Ticking, Noting, NoShares, AnyNumbers>();
    law_visited_drawn::<PortSet, Drawing, Ticking, Noting, NoShares>();
}
