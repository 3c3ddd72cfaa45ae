//! Whole conversations with the example's server: what is said, and what the journal and the book
//! are afterwards.

use crate::devices::NEVER;
use crate::world::{contains, converse};
use rtsp_engine::{ServeEnd, TURNS};
use rtsp_journal_text::{book_text, write_journal};
use rtsp_undo::rewind;
use rtspd::{Exit, run_words};
use std::rt::Files;
use std::sync::Wait;

const OPTIONS: &str = "OPTIONS * RTSP/2.0\r\nCSeq: 1\r\n\r\n";

const SETUP: &str = "SETUP rtsp://h/tone/a RTSP/2.0\r\nCSeq: 1\r\n\
    Transport: RTP/AVP/TCP;unicast;interleaved=0-1\r\n\r\n";

// Three requests, and what is said to them.
const SESSION: &str = "OPTIONS * RTSP/2.0\r\nCSeq: 1\r\n\r\n\
    SETUP rtsp://h/tone/a RTSP/2.0\r\nCSeq: 1\r\n\
    Transport: RTP/AVP/TCP;unicast;interleaved=0-1\r\n\r\n\
    TEARDOWN rtsp://h/tone RTSP/2.0\r\nCSeq: 3\r\n\
    Session: 00000000000000000000000000000001\r\n\r\n";

const SESSION_ANSWERS: &str = "RTSP/2.0 200 OK\r\nCSeq: 1\r\n\
    Public: OPTIONS, DESCRIBE, SETUP, PLAY, PAUSE, TEARDOWN, GET_PARAMETER, SET_PARAMETER\r\n\r\n\
    RTSP/2.0 200 OK\r\nCSeq: 1\r\n\
    Session: 00000000000000000000000000000001;timeout=60\r\n\
    Transport: RTP/AVP/TCP;unicast;interleaved=0-1;ssrc=00000001\r\n\
    Accept-Ranges: npt\r\n\
    Media-Properties: Random-Access=0.020, Immutable, Unlimited\r\n\
    Media-Range: npt=0.000-10.000\r\n\r\n\
    RTSP/2.0 200 OK\r\nCSeq: 3\r\n\r\n";

// Three SETUPs, of which the uplink has no room for the last one.
const THREE_SETUPS: &str = "SETUP rtsp://h/tone/a RTSP/2.0\r\nCSeq: 1\r\n\
    Transport: RTP/AVP/TCP;unicast;interleaved=0-1\r\n\r\n\
    SETUP rtsp://h/tone/b RTSP/2.0\r\nCSeq: 2\r\n\
    Transport: RTP/AVP/TCP;unicast;interleaved=0-1\r\n\r\n\
    SETUP rtsp://h/tone/a RTSP/2.0\r\nCSeq: 3\r\n\
    Transport: RTP/AVP/TCP;unicast;interleaved=0-1\r\n\r\n";

// What is said, how many entries the journal has and what they are, the book, and the book once all is
// undone.
fn account<R: Wait + AllocGlobal>(rt: &R, requests: &str) -> Option<Vec<u8>> {
    let mut talk = converse(rt, rt.alloc(), requests, NEVER, TURNS)?;
    let entries = talk.kept.journal().len();
    let mut text = Vec::new(rt.alloc());
    text.extend_from_slice(&talk.said).ok()?;
    let count = format!(in rt.alloc(); "{entries} entries\n").ok()?;
    text.extend_from_slice(count.as_bytes()).ok()?;
    write_journal(&mut text, talk.kept.journal()).ok()?;
    book_text(&mut text, &talk.kept).ok()?;
    rewind(&mut talk.kept, entries).ok()?;
    book_text(&mut text, &talk.kept).ok()?;
    Some(text)
}

// Whether an account has these parts, between which `..` stands.
fn tells<R: Wait + AllocGlobal>(rt: &R, requests: &str, parts: &str) -> bool {
    match account(rt, requests) {
        Some(text) => parts.split("..").all(|part| contains(&text, part)),
        None => false,
    }
}

#[test]
fn three_messages_leave_eight_entries(rt: HostRuntime) {
    let parts =
        "RTSP/2.0 200 OK\r\nCSeq: 3\r\n\r\n8 entries\n0 open 2..\nrate 0 160000\npairs 0 2\n";
    assert!(rt; tells(&rt, SESSION, parts));
}

#[test]
fn a_first_setup_is_four_entries(rt: HostRuntime) {
    let parts = "Media-Range: npt=0.000-10.000\r\n\r\n\
        4 entries\n\
        0 open 2 00000000000000000000000000000001 1 60000\n\
        0 hold 2 3 rate 80000\n\
        0 hold 2 3 chan 1 0\n\
        0 add 2 3 0 0 00000001 0 0 7f000001 0 0\n\
        session 2 00000000000000000000000000000001 1 60000 ready:0:0\n\
        hold 2 3 rate 80000\n\
        hold 2 3 chan 1 0\n\
        stream 2 3 0 0 00000001 0 0 7f000001 0 0\n\
        rate 80000 80000\n\
        pairs 0 2\n\
        rate 0 160000\n\
        pairs 0 2\n";
    assert!(rt; tells(&rt, SETUP, parts));
}

#[test]
fn a_refused_setup_leaves_nothing_held(rt: HostRuntime) {
    let parts = "RTSP/2.0 453 Not Enough Bandwidth\r\nCSeq: 3\r\n\r\n10 entries\n..\
        \nrate 160000 0\npairs 0 2\nrate 0 160000\npairs 0 2\n";
    assert!(rt; tells(&rt, THREE_SETUPS, parts));
}

// Whether a connection that asks for OPTIONS ends so after so many reads, with so many bytes said.
fn ends<R: Wait + AllocGlobal>(rt: &R, turns: u64, len: usize, end: ServeEnd) -> bool {
    match converse(rt, rt.alloc(), OPTIONS, NEVER, turns) {
        Some(talk) => talk.said.len() == len && talk.end == end,
        None => false,
    }
}

#[test]
fn a_connection_is_served_for_so_many_reads(rt: HostRuntime) {
    // The answer that lists the methods.
    let whole = 115;
    assert!(rt; ends(&rt, 0, 0, ServeEnd::TurnsSpent));
    assert!(rt; ends(&rt, 1, whole, ServeEnd::TurnsSpent));
    assert!(rt; ends(&rt, 2, whole, ServeEnd::Closed));
}

// Whether this is said over standard output to what comes over standard input.
fn says<R: Wait + Files + AllocGlobal>(rt: &R, input: &str, answers: &str) -> bool {
    let mut said: Vec<u8> = Vec::new(rt.alloc());
    let exit = run_words(rt, &["stdio"], input.as_bytes(), &mut said);
    exit == Exit::Done && said.as_slice() == answers.as_bytes()
}

#[test]
fn standard_input_is_answered(rt: HostRuntime) {
    assert!(rt; says(&rt, "", "") && says(&rt, SESSION, SESSION_ANSWERS));
}
