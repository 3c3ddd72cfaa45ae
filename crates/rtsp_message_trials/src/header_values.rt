//! Values of headers: what is read of them, which transport is picked, and what is written.

use crate::rows::{Lines, cut, hold_lines};
use rtsp_transport::{
    Granted, Pick, TextFault, is_known, pick, read_cseq, read_session, read_startup,
    read_transports, session_id, write_session_id, write_ssrc, write_transport,
};
use std::alloc::{AllocError, Global};

const LOCALHOST: u32 = 0x7f00_0001;

// What is picked of the transports in a header.
fn picked(alloc: Global, text: &str) -> &'static str {
    let specs = match read_transports(alloc, text.as_bytes()) {
        Ok(specs) => specs,
        Err(TextFault::Malformed) => return "malformed",
        Err(TextFault::OutOfMemory) => return "out of memory",
    };
    match pick(&specs, LOCALHOST) {
        Pick::Udp {
            rtp_port: 8000,
            rtcp_port: 8001,
        } => "8000 and 8001",
        Pick::Mux { port: 8000 } => "8000 for both",
        Pick::Inter { wish: None } => "any channels",
        Pick::Inter { wish: Some(pair) } if pair.rtp() == 2 => "channels 2 and 3",
        Pick::Prohibited => "prohibited",
        Pick::Unsupported => "unsupported",
        _ => "something else",
    }
}

// The first transport of a header that can be served, or why none can: also where a quoted value has
// what else parts transports, for RTP and RTCP on one port, and where that isn't one port, or is for
// something else.
const PICKED: &str = "\
any channels     | RTP/AVP/TCP;interleaved=1-2
channels 2 and 3 | RTP/SAVP;unicast, RTP/AVP/TCP;interleaved=2-3
8000 and 8001    | RTP/AVP;unicast;dest_addr=\":8000\"/\":8001\"
8000 and 8001    | rtp/avp/udp ; mode=\"play\";dest_addr=\"127.0.0.1:8000\"/\":8001\"
prohibited       | RTP/AVP;dest_addr=\"192.0.2.9:8000\"/\"192.0.2.9:8001\"
unsupported      | RTP/AVP;dest_addr=\"[x]:8000\"/\":8001\"
unsupported      | RTP/AVP/TCP;interleaved=0-1;mode=RECORD
8000 and 8001    | RTP/AVP ; a=\";,\";b;dest_addr=\":8000\"/\":8001\",X
8000 for both    | RTP/AVP;unicast;dest_addr=\":8000\";RTCP-mux
8000 for both    | rtp/avp/udp;rtcp-MUX;dest_addr=\"127.0.0.1:8000\"
8000 for both    | RTP/AVP;RTCP-mux;dest_addr=\":8000\";RTCP-mux;interleaved=0-1
8000 for both    | RTP/AVP;dest_addr=\":8000\"/\":8001\";RTCP-mux, RTP/AVP;dest_addr=\":8000\";RTCP-mux
unsupported      | RTP/AVP;dest_addr=\":8000\"/\":8001\";RTCP-mux
unsupported      | RTP/AVP;dest_addr=\":8000\"/\":8000\";RTCP-mux
unsupported      | RTP/AVP;dest_addr=\":8000\"/;RTCP-mux
unsupported      | RTP/AVP;dest_addr=:8000;RTCP-mux
unsupported      | RTP/AVP;dest_addr=\":0\";RTCP-mux
unsupported      | RTP/AVP;dest_addr=\":65536\";RTCP-mux
unsupported      | RTP/AVP;dest_addr=\"[::1]:8000\";RTCP-mux
unsupported      | RTP/AVP;dest_addr=\":8000\";RTCP-mux=1
unsupported      | RTP/AVP;dest_addr=\":8000\";RTCP-mux;mode=RECORD
unsupported      | RTP/AVP;RTCP-mux
unsupported      | RTP/AVP;dest_addr=\":8000\"
unsupported      | RTP/AVP;dest_addr=\"192.0.2.9:8000\"
unsupported      | RTP/AVP/TCP;interleaved=0-1;RTCP-mux
prohibited       | RTP/AVP;dest_addr=\"192.0.2.9:8000\";RTCP-mux
8000 and 8001    | RTP/AVP/TCP;interleaved=0-1;RTCP-mux, RTP/AVP;dest_addr=\":8000\"/\":8001\"
8000 and 8001    | RTP/AVP;dest_addr=\"192.0.2.9:8000\";RTCP-mux, RTP/AVP;dest_addr=\":8000\"/\":8001\"
8000 and 8001    | RTP/AVP;dest_addr=\":8000\", RTP/AVP;dest_addr=\":8000\"/\":8001\"
malformed        |
malformed        | RTP/AVP,
malformed        | RTP/AVP;;a
malformed        | RTP/AVP;a=\"
malformed        | a,a,a,a,a,a,a,a,a,a,a,a,a,a,a,a,a
";

struct PickedLines;

impl Lines for PickedLines {
    fn holds(alloc: Global, line: &str) -> bool {
        let (expected, text) = cut(line);
        picked(alloc, text) == expected
    }
}

#[test]
fn transports_are_picked(rt: HostRuntime) {
    hold_lines::<PickedLines>(&rt, rt.alloc(), PICKED);
}

const GRANTED: [Granted; 6] = [
    Granted::Udp {
        client_rtp: 8000,
        client_rtcp: 8001,
        server_rtp: 5000,
        ssrc: 3,
    },
    Granted::Mux {
        client: 8000,
        server: 5000,
        ssrc: 1,
    },
    Granted::UdpFrom {
        client_rtp: 8000,
        client_rtcp: 8001,
        host: 0x0a4d_000b,
        server_rtp: 22_000,
        ssrc: 3,
    },
    Granted::UdpFrom {
        client_rtp: 65_534,
        client_rtcp: 65_535,
        host: 0xffff_ffff,
        server_rtp: 65_534,
        ssrc: 0xffff_ffff,
    },
    Granted::MuxFrom {
        client: 8000,
        host: 0xc000_0209,
        server: 22_001,
        ssrc: 1,
    },
    Granted::Inter {
        channel: 0,
        ssrc: 1,
    },
];

// What players are told that were granted these, each on a line, and then an SSRC and an id.
const TOLD: &str =
    "RTP/AVP;unicast;dest_addr=\":8000\"/\":8001\";src_addr=\":5000\"/\":5001\";ssrc=00000003
RTP/AVP;unicast;dest_addr=\":8000\";src_addr=\":5000\";RTCP-mux;ssrc=00000001
RTP/AVP;unicast;dest_addr=\":8000\"/\":8001\";src_addr=\"10.77.0.11:22000\"/\"10.77.0.11:22001\";ssrc=00000003
RTP/AVP;unicast;dest_addr=\":65534\"/\":65535\";src_addr=\"255.255.255.255:65534\"/\"255.255.255.255:65535\";ssrc=ffffffff
RTP/AVP;unicast;dest_addr=\":8000\";src_addr=\"192.0.2.9:22001\";RTCP-mux;ssrc=00000001
RTP/AVP/TCP;unicast;interleaved=0-1;ssrc=00000001
000000ab
0000000000000000000000000000001f";

fn tell(out: &mut Vec<u8>) -> Result<(), AllocError> {
    for granted in &GRANTED {
        write_transport(out, granted)?;
        out.push(b'\n')?;
    }
    write_ssrc(out, 0xab)?;
    out.push(b'\n')?;
    write_session_id(out, 31)
}

fn are_told(alloc: Global) -> bool {
    let mut out = Vec::new(alloc);
    tell(&mut out).is_ok() && out.as_slice() == TOLD.as_bytes()
}

#[test]
fn what_answers_say(rt: HostRuntime) {
    assert!(rt; are_told(rt.alloc()));
}

// Session headers, the name in each, if it has one, and the number of which that is the id.
const SESSIONS: &str = "\
0000000000000000000000000000001f;timeout=9 | 0000000000000000000000000000001f | 31
0000000000000000000000000000001F           | 0000000000000000000000000000001F | none
1f                                         | 1f                               | none
a b                                        |                                  | none
abc ;timeout=9                             |                                  | none
                                           |                                  | none
";

fn name_in(text: &str) -> &[u8] {
    match read_session(text.as_bytes()) {
        Ok(name) => name,
        Err(_) => b"",
    }
}

fn number_of(name: &str) -> &'static str {
    match session_id(name.as_bytes()) {
        Some(31) => "31",
        Some(_) => "another",
        None => "none",
    }
}

struct SessionLines;

impl Lines for SessionLines {
    fn holds(_alloc: Global, line: &str) -> bool {
        let (text, values) = cut(line);
        let (name, number) = cut(values);
        name_in(text) == name.as_bytes() && number_of(name) == number
    }
}

#[test]
fn sessions(rt: HostRuntime) {
    hold_lines::<SessionLines>(&rt, rt.alloc(), SESSIONS);
}

// Whether numbers of so many digits are read, and none that are longer.
fn are_read() -> bool {
    let startups = [read_startup(b"00000007"), read_startup(b"123456789")];
    let numbers = [read_cseq(b"123456789"), read_cseq(b"1234567890")];
    startups == [Ok(7), Err(TextFault::Malformed)]
        && numbers == [Ok(123_456_789), Err(TextFault::Malformed)]
}

#[test]
fn numbers(rt: HostRuntime) {
    assert!(rt; are_read());
}

// That they are read, and how many stand in a header, is shown by what a Require is answered.
#[test]
fn tags(rt: HostRuntime) {
    let known = [
        is_known(b"play.basic"),
        is_known(b"setup.rtp.rtcp.mux"),
        is_known(b"Play.basic"),
    ];
    assert!(rt; known == [true, true, false]);
}
