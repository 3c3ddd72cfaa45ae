//! What requests as players write them are repaired to, and which stay as they are.

use crate::rows::{Lines, cut, hold_lines};
use rtsp_dialect::repair;
use rtsp_grammar::{Item, MessageFault, read_item, write_request};
use std::alloc::{AllocError, Global};

// A SETUP with these header lines between others.
fn setup(alloc: Global, lines: &str) -> Result<String, AllocError> {
    format!(in alloc;
        "SETUP rtsp://h/tone/a RTSP/2.0\r\nCSeq: 1\r\n{lines}\r\n\
        User-Agent: client_port=1-2\r\nContent-Length: 4\r\n\r\nbody"
    )
}

// Writes what a request is repaired to; nothing where it stays.
fn write_repaired(out: &mut Vec<u8>, alloc: Global, item: &Item) -> Result<(), AllocError> {
    let Item::Request(request) = item else {
        return Ok(());
    };
    match repair(alloc, request)? {
        Some(request) => write_request(out, &request),
        None => Ok(()),
    }
}

// The same of a request that is read.
fn repaired(alloc: Global, text: &str) -> Result<Vec<u8>, MessageFault> {
    let mut out = Vec::new(alloc);
    match read_item(alloc, text.as_bytes())? {
        Some((item, _)) => write_repaired(&mut out, alloc, &item)?,
        None => {}
    }
    Ok(out)
}

// The same of a SETUP with these lines.
fn setup_repaired(alloc: Global, lines: &str) -> Result<Vec<u8>, MessageFault> {
    let text = setup(alloc, lines)?;
    repaired(alloc, text.as_str())
}

// Numbers and specifications within RFC 7826, and those that can't be repaired.
const STAY: &str = "\
Session: 1234567890
Pipelined-Requests: 7
Pipelined-Requests: 12345678
Pipelined-Requests: 00000007
Pipelined-Requests: 12345678901
Pipelined-Requests: 00000000007
Pipelined-Requests: 123456789a
Pipelined-Requests: +123456789
X-Pipelined-Requests: 1234567890
Transport: RTP/AVP;unicast;dest_addr=\":8000\"/\":8001\"
Transport: RTP/AVP/TCP;unicast;interleaved=0-1
Transport: RTP/AVP/TCP;unicast;interleaved=0-1;client_port=8000-8001
Transport: RTP/SAVP;unicast;client_port=8000-8001
Transport: RTP/AVP;unicast;client_port=8000-8001;dest_addr=\":8000\"/\":8001\"
Transport: RTP/AVP;DEST_ADDR=\":8000\"/\":8001\";client_port=8000-8001
Transport: RTP/AVP;unicast;destination=192.0.2.9;client_port=8000-8001
Transport: RTP/AVP;unicast;client_port=8000-8001;client_port=8000-8001
Transport: RTP/AVP;unicast;client_port=8000-8001;client_port=8000
Transport: RTP/AVP;unicast;client_port=8000
Transport: RTP/AVP;unicast;client_port
Transport: RTP/AVP;unicast;client_port=8000-65536
Transport: RTP/AVP;unicast;client_port=0-1
Transport: RTP/AVP;unicast;client_port=8000-8001-8002
Transport: RTP/AVP;unicast;x=\"client_port=8000-8001;client_port=8000-8001\"
";

struct StayLines;

impl Lines for StayLines {
    fn holds(alloc: Global, line: &str) -> bool {
        match setup_repaired(alloc, line) {
            Ok(out) => out.is_empty(),
            Err(_) => false,
        }
    }
}

#[test]
fn what_is_within_the_grammar_or_unclear_stays(rt: HostRuntime) {
    hold_lines::<StayLines>(&rt, rt.alloc(), STAY);
}

// Lines as players write them, and repaired. A sign `&` stands for the end of a line.
const CHANGE: &str = "\
Pipelined-Requests: 1266004631 | Pipelined-Requests: 66004631
PIPELINED-requests: 2147483647 | PIPELINED-requests: 47483647
Pipelined-Requests: 100000000 | Pipelined-Requests: 0
Pipelined-Requests: 1000000007 | Pipelined-Requests: 7
Pipelined-Requests: 0000000007 | Pipelined-Requests: 7
Pipelined-Requests: 100000001 & Pipelined-Requests: 2 | Pipelined-Requests: 1 & Pipelined-Requests: 2
Transport: RTP/AVP;unicast;client_port=40352-40353 | Transport: RTP/AVP;unicast;dest_addr=\":40352\"/\":40353\"
transport: rtp/avp/udp ; Client_Port=1-65535 ;mode=PLAY | transport: rtp/avp/udp ;dest_addr=\":1\"/\":65535\";mode=PLAY
Transport: RTP/AVP;client_port=40353-40354 | Transport: RTP/AVP;dest_addr=\":40353\"/\":40354\"
Transport: RTP/AVP;client_port=8001-8000 | Transport: RTP/AVP;dest_addr=\":8001\"/\":8000\"
Transport: RTP/AVP;client_port=08000-08001 | Transport: RTP/AVP;dest_addr=\":08000\"/\":08001\"
Transport: RTP/AVP/TCP;interleaved=0-1;client_port=1-2, RTP/AVP;client_port=8000-8001 | Transport: RTP/AVP/TCP;interleaved=0-1;client_port=1-2, RTP/AVP;dest_addr=\":8000\"/\":8001\"
Transport: RTP/AVP;client_port=1-2,RTP/AVP;client_port=3-4,RTP/AVP;client_port=5 | Transport: RTP/AVP;dest_addr=\":1\"/\":2\",RTP/AVP;dest_addr=\":3\"/\":4\",RTP/AVP;client_port=5
Transport: RTP/AVP;x=\"a,b;client_port=1-2\";client_port=8000-8001 | Transport: RTP/AVP;x=\"a,b;client_port=1-2\";dest_addr=\":8000\"/\":8001\"
Transport: RTP/AVP;client_port=1-2 & Pipelined-Requests: 123456789 & Transport: RTP/AVP | Transport: RTP/AVP;dest_addr=\":1\"/\":2\" & Pipelined-Requests: 23456789 & Transport: RTP/AVP
";

// Whether lines are repaired as a row says, and then stay.
fn are_repaired(alloc: Global, row: &str) -> Result<bool, MessageFault> {
    let row = row.replace(alloc, " & ", "\r\n")?;
    let (before, after) = cut(row.as_str());
    let expected = setup(alloc, after)?;
    Ok(
        setup_repaired(alloc, before)?.as_slice() == expected.as_bytes()
            && setup_repaired(alloc, after)?.is_empty(),
    )
}

struct ChangeLines;

impl Lines for ChangeLines {
    fn holds(alloc: Global, line: &str) -> bool {
        are_repaired(alloc, line) == Ok(true)
    }
}

#[test]
fn what_players_write_is_repaired(rt: HostRuntime) {
    hold_lines::<ChangeLines>(&rt, rt.alloc(), CHANGE);
}

// Requests of other methods and versions.
const REQUESTS: &str = "\
PLAY rtsp://h/ RTSP/1.0
play * RTSP/2.0
GET_PARAMETER rtsp://h/ RTSP/2.0
";

// Whether the long number in a request that begins so is repaired.
fn is_repaired_after(alloc: Global, line: &str) -> Result<bool, MessageFault> {
    let text = format!(in alloc; "{line}\r\nPipelined-Requests: 123456789\r\n\r\n")?;
    let expected = format!(in alloc; "{line}\r\nPipelined-Requests: 23456789\r\n\r\n")?;
    Ok(repaired(alloc, text.as_str())?.as_slice() == expected.as_bytes())
}

struct RequestLines;

impl Lines for RequestLines {
    fn holds(alloc: Global, line: &str) -> bool {
        is_repaired_after(alloc, line) == Ok(true)
    }
}

#[test]
fn each_method_and_version_stays(rt: HostRuntime) {
    hold_lines::<RequestLines>(&rt, rt.alloc(), REQUESTS);
}
