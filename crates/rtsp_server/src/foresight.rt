//! Tells, before it is answered, whether a request may make entries of the journal.

ghost use Rattle.std.specs.Prelude.{◌≤◌, length};

use crate::desk::Desk;
use crate::shared::since;
use rtsp_book::SessionView;
use rtsp_grammar::{Feed, Item, Method, Request};
use rtsp_lock::{BookHandle, Name as LockName};
use rtsp_state::{Name, ParsedRequest, Screen, renewal, screen};
use std::rt;
use std::sync::Wait;

// A header by which a request names a session that its connection sets up. It isn't read here, since some
// players write it otherwise than RFC 7826.
const PIPELINED: &[u8] = b"Pipelined-Requests";

/// Tells whether requests of a connection may make entries, as the book stands now.
#[derive(Drop)]
pub(crate) struct Foresight<'a, R> {
    desk: &'a Desk<'a, R>,
    handle: &'a mut BookHandle,
}

impl<'a, R: Wait + rt::Clock> Foresight<'a, R> {
    /// That of a connection, by its handle of the book.
    pub(crate) fn new(desk: &'a Desk<'a, R>, handle: &'a mut BookHandle) -> Foresight<'a, R> {
        Foresight { desk, handle }
    }

    /// How many bytes at the front are whole items that make no entries. They are read by a Feed of
    /// their own: one more caller of what reads an item would have it copied on its way to an answer.
    pub(crate) fn harmless_len(&mut self, bytes: &[u8]) -> usize
        ensures { result ≤ length bytes.now }
    {
        let mut feed = Feed::open(self.desk.alloc);
        if feed.push(bytes).is_err() {
            return 0;
        }
        let mut left = bytes.len();
        for _ in 0..bytes.len() {
            match feed.next() {
                Ok(Some(item)) if !self.may_record(&item) => left = feed.len(),
                Ok(_) | Err(_) => break,
            }
        }
        bytes.len().saturating_sub(left)
    }

    // Whether an item may make entries. RTCP may renew a session, which is an entry once in a while.
    fn may_record(&mut self, item: &Item) -> bool {
        match item {
            Item::Request(request) => self.may_ask(request),
            Item::Response(_) | Item::Frame(_) => false,
        }
    }

    // Whether a request may make entries. One that is answered by its form alone makes none.
    fn may_ask(&mut self, request: &Request) -> bool {
        if request.headers.count_of(PIPELINED) > 0 {
            return true;
        }
        match screen(self.desk.alloc, request, self.desk.table) {
            Ok(Screen::Answered(_)) => false,
            Ok(Screen::Asks(parsed)) => match request.method {
                Method::Setup | Method::Play | Method::Pause | Method::Teardown => true,
                _ => self.may_renew(&parsed),
            },
            Err(_) => true,
        }
    }

    // Whether a request moves the end of the session that it names.
    fn may_renew(&mut self, request: &ParsedRequest<'_>) -> bool {
        match request.session_name() {
            Some(Name::Id(id)) => self.is_renewed(request, id),
            Some(Name::Startup(_)) => true,
            None => false,
        }
    }

    // It stands apart, so that a request that names no session doesn't pay for a session's room on the
    // stack.
    #[inline(never)]
    fn is_renewed(&mut self, request: &ParsedRequest<'_>, id: u128) -> bool {
        let Desk {
            rt,
            table,
            teller,
            ..
        } = *self.desk;
        let mut found: Option<SessionView> = None;
        let BookHandle { lock, seat } = &mut *self.handle;
        seat.look_into(rt, lock, LockName::Id(id), &mut found);
        match &found {
            Some(view) => renewal(request, table, view, since(rt, teller.begun)).is_some(),
            None => false,
        }
    }
}
