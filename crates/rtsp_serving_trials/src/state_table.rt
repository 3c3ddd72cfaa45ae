//! A walk through every cell of the state table.

use crate::rows::{Lines, cut, hold_lines};
use crate::sessions::{example, sessions};
use rtsp_book::{BookRep, PlainBook, SessionView};
use rtsp_content::Table;
use rtsp_grammar::{Item, MessageFault, read_item};
use rtsp_state::{Plan, Screen, decide, screen};
use std::alloc::{AllocError, Global};

// The beginning of a request, its body, and what it comes to: a status, a step of the session, or the
// admission of a track. First where there is no session, and then in the seven sessions: one without
// streams; one that is Ready, Playing and Ended; one that plays both tracks; and one that is Ready and
// Playing elsewhere.
const TABLE: &str = "\
OPTIONS *                     |          | 200   200   200   200   200   200   200   200
OPTIONS rtsp://h/tone         |          | 200   200   200   200   200   200   200   200
OPTIONS rtsp://h/tone/a       |          | 200   200   200   200   200   200   200   200
DESCRIBE rtsp://h/tone        |          | 200   200   200   200   200   200   200   200
DESCRIBE rtsp://h/tone/a      |          | 404   404   404   404   404   404   404   404
SETUP rtsp://h/tone           |          | 459   459   459   459   459   459   459   459
SETUP rtsp://h/tone/a         |          | admit admit admit 455   455   455   459   455
SETUP rtsp://h/tone/b         |          | admit admit admit 455   455   455   459   455
PLAY rtsp://h/tone            |          | 454   455   step  step  step  step  454   454
PLAY rtsp://h/tone/a          |          | 454   460   460   460   460   460   460   460
PAUSE rtsp://h/tone           |          | 454   455   step  step  step  step  454   454
PAUSE rtsp://h/tone/a         |          | 454   460   460   460   460   460   460   460
TEARDOWN rtsp://h/tone        |          | 454   step  step  step  step  step  454   454
TEARDOWN rtsp://h/tone/a      |          | 454   455   step  step  step  455   454   454
TEARDOWN rtsp://h/tone/b      |          | 454   455   455   455   455   455   454   454
GET_PARAMETER *               |          | 200   200   200   200   200   200   200   200
GET_PARAMETER rtsp://h/tone   |          | 200   200   200   200   200   200   200   200
GET_PARAMETER rtsp://h/tone/a |          | 200   200   200   200   200   200   200   200
GET_PARAMETER *               | duration | 400   400   400   400   400   400   400   400
GET_PARAMETER rtsp://h/tone   | duration | 200   200   200   200   200   200   200   200
GET_PARAMETER rtsp://h/tone/a | position | 454   200   200   200   200   200   200   200
GET_PARAMETER rtsp://h/tone   | volume   | 451   451   451   451   451   451   451   451
SET_PARAMETER *               |          | 200   200   200   200   200   200   200   200
SET_PARAMETER rtsp://h/tone   |          | 200   200   200   200   200   200   200   200
SET_PARAMETER rtsp://h/tone/a |          | 200   200   200   200   200   200   200   200
SET_PARAMETER *               | volume   | 451   451   451   451   451   451   451   451
SET_PARAMETER rtsp://h/tone   | volume   | 451   451   451   451   451   451   451   451
SET_PARAMETER rtsp://h/tone/a | volume   | 451   451   451   451   451   451   451   451
";

const LOCALHOST: u32 = 0x7f00_0001;

// A request with a transport and a range, in a session. No session has the number 0.
fn request_text(alloc: Global, line: &str, session: u64, body: &str) -> Result<String, AllocError> {
    let name = if session == 0 { "X" } else { "Session" };
    let length = body.len();
    format!(in alloc;
        "{line} RTSP/2.0\r\nCSeq: 1\r\n{name}: {session:032}\r\n\
        Transport: RTP/AVP/TCP;unicast;interleaved=0-1\r\nRange: npt=2-\r\n\
        Content-Length: {length}\r\n\r\n{body}"
    )
}

fn is_status(cell: &str, status: u16) -> bool {
    matches!(cell.parse::<u16>(), Ok(number) if number == status)
}

// Whether a request comes to what a cell says.
fn is_cell(
    alloc: Global,
    table: &Table,
    item: &Item,
    view: Option<&SessionView>,
    cell: &str,
) -> Result<bool, AllocError> {
    let Item::Request(request) = item else {
        return Ok(false);
    };
    match screen(alloc, request, table)? {
        Screen::Answered(reply) => Ok(is_status(cell, reply.status())),
        Screen::Asks(parsed) => match decide(alloc, parsed, view, table, LOCALHOST, 0)? {
            Plan::Answer(reply) => Ok(is_status(cell, reply.status())),
            Plan::Step(_) => Ok(cell == "step"),
            Plan::Admit(_) => Ok(cell == "admit"),
        },
    }
}

// The same of the text of a request in a session.
fn comes_to(
    alloc: Global,
    table: &Table,
    text: &str,
    view: Option<&SessionView>,
    cell: &str,
) -> Result<bool, MessageFault> {
    match read_item(alloc, text.as_bytes())? {
        Some((item, _)) => Ok(is_cell(alloc, table, &item, view, cell)?),
        None => Ok(false),
    }
}

// Whether a request, of which this is the beginning and the body, comes to that in a session.
fn holds_in(
    alloc: Global,
    table: &Table,
    book: &PlainBook,
    request: (&str, &str),
    session: u64,
    cell: &str,
) -> Option<bool> {
    let (line, body) = request;
    let text = request_text(alloc, line, session, body).ok()?;
    let view = book.session(session);
    comes_to(alloc, table, text.as_str(), view.as_ref(), cell).ok()
}

// In how many sessions a request comes to what the cells say, up to the first in which it doesn't.
fn walk(alloc: Global, table: &Table, book: &PlainBook, request: (&str, &str), cells: &str) -> u64 {
    let mut session: u64 = 0;
    for cell in cells.split_whitespace() {
        if holds_in(alloc, table, book, request, session, cell) != Some(true) {
            break;
        }
        session = session.wrapping_add(1);
    }
    session
}

struct Cells;

impl Lines for Cells {
    fn holds(alloc: Global, line: &str) -> bool {
        let (begin, values) = cut(line);
        let (body, cells) = cut(values);
        match (example(alloc), sessions(alloc)) {
            (Some(table), Some(book)) => walk(alloc, &table, &book, (begin, body), cells) == 8,
            _ => false,
        }
    }
}

#[test]
fn each_cell_of_the_state_table(rt: HostRuntime) {
    hold_lines::<Cells>(&rt, rt.alloc(), TABLE);
}
