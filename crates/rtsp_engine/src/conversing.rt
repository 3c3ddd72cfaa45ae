//! How one request is answered.

ghost use Rattle.std.specs.Prelude.{◌≡◌, OnOk, OnErr, option_map};
ghost use Rattle.rtsp_engine.specs.DeskAnswers.{AnswersAt, GivesUpAt};
ghost use Rattle.rtsp_engine.specs.Desk.{SameParts};
ghost use Rattle.rtsp_traits.specs.Devices.{devices};
ghost use Rattle.rtsp_engine.specs.Writing.{WritesRenewed, WritesFound, WritesParsed, WritesResponse, WantsOutcome, WantsFound, WantsParsed, WantsResponse};

use crate::conducting::{conduct, reply_with};
use crate::connection::Answerer;
use crate::desk::Desk;
use crate::renewing::{look, renew};
use rtsp_admit::Binder;
use rtsp_book::SessionView;
use rtsp_grammar::{Item, Request};
use rtsp_lock::Numbers;
use rtsp_state::{ParsedRequest, Room, Screen, decide, screen};
use rtsp_traits::{Clock, Plays, Shares, Words};
use std::alloc::{AllocError, Global};
use std::sync::Wait;

// Conducts a request with its session as it is after its renewal.
fn respond_renewed<R: Wait, B: Binder, W: Words, C: Clock, P: Plays, S: Shares, N: Numbers>(
    alloc: Global,
    desk: &mut Desk<'_, R, B, W, C, P, S, N>,
    uri: &[u8],
    request: ParsedRequest<'_>,
    moment: u64,
    view: Option<&SessionView>,
    room: &mut Room,
) -> Result<(), AllocError>
    ensures same { SameParts desk.old desk.new }
    ensures ok { OnOk result (WritesRenewed (devices B.calls W.calls C.tells P.calls S.calls)
        uri.now request.entry (option_map (λ v. v.now) view.entry) moment desk.old room.old desk.new room.new) }
    ensures err { OnErr result (WantsOutcome (devices B.calls W.calls C.tells P.calls S.calls) desk.old desk.new) }
    ensures mute { OnErr result (room.new.text ≡ room.old.text) }
{
    match decide(alloc, request, view, desk.table, desk.asker.peer, moment) {
        Ok(plan) => conduct(alloc, desk, uri, &plan, room),
        Err(AllocError) => Err(AllocError),
    }
}

// Answers a request with the session that was found at this moment.
fn respond_found<R: Wait, B: Binder, W: Words, C: Clock, P: Plays, S: Shares, N: Numbers>(
    alloc: Global,
    desk: &mut Desk<'_, R, B, W, C, P, S, N>,
    uri: &[u8],
    request: ParsedRequest<'_>,
    moment: u64,
    found: &mut Option<SessionView>,
    room: &mut Room,
) -> Result<(), AllocError>
    ensures same { SameParts desk.old desk.new }
    ensures ok { OnOk result (WritesFound (devices B.calls W.calls C.tells P.calls S.calls)
        uri.now request.entry found.old moment desk.old room.old desk.new room.new) }
    ensures err { OnErr result (WantsFound (devices B.calls W.calls C.tells P.calls S.calls) request.entry found.old moment desk.old desk.new) }
    ensures mute { OnErr result (room.new.text ≡ room.old.text) }
{
    let asker = desk.asker;
    match renew(
        desk.rt, desk.seat, desk.lock, desk.table, asker, &request, moment, found, desk.made,
    ) {
        Ok(()) => respond_renewed(alloc, desk, uri, request, moment, found.as_ref(), room),
        Err(reply) => reply_with(&reply, room),
    }
}

// Answers a request that names a session, which may be none that lives. It stands apart, so that a
// request that names none doesn't pay for a session's room on the stack.
#[inline(never)]
fn respond_named<R: Wait, B: Binder, W: Words, C: Clock, P: Plays, S: Shares, N: Numbers>(
    alloc: Global,
    desk: &mut Desk<'_, R, B, W, C, P, S, N>,
    uri: &[u8],
    request: ParsedRequest<'_>,
    room: &mut Room,
) -> Result<(), AllocError>
    ensures same { SameParts desk.old desk.new }
    ensures ok { OnOk result (WritesParsed (devices B.calls W.calls C.tells P.calls S.calls) uri.now request.entry desk.old room.old desk.new room.new) }
    ensures err { OnErr result (WantsParsed (devices B.calls W.calls C.tells P.calls S.calls) request.entry desk.old desk.new) }
    ensures mute { OnErr result (room.new.text ≡ room.old.text) }
{
    let mut found = None;
    let conn = desk.asker.conn;
    let name = request.session_name();
    look(desk.rt, desk.seat, desk.lock, conn, name, &mut found);
    let moment = desk.clock.now();
    respond_found(alloc, desk, uri, request, moment, &mut found, room)
}

// Answers a request that nothing refuses before its session is looked up.
fn respond_parsed<R: Wait, B: Binder, W: Words, C: Clock, P: Plays, S: Shares, N: Numbers>(
    alloc: Global,
    desk: &mut Desk<'_, R, B, W, C, P, S, N>,
    uri: &[u8],
    request: ParsedRequest<'_>,
    room: &mut Room,
) -> Result<(), AllocError>
    ensures same { SameParts desk.old desk.new }
    ensures ok { OnOk result (WritesParsed (devices B.calls W.calls C.tells P.calls S.calls) uri.now request.entry desk.old room.old desk.new room.new) }
    ensures err { OnErr result (WantsParsed (devices B.calls W.calls C.tells P.calls S.calls) request.entry desk.old desk.new) }
    ensures mute { OnErr result (room.new.text ≡ room.old.text) }
{
    match request.session_name() {
        Some(_) => respond_named(alloc, desk, uri, request, room),
        None => {
            let moment = desk.clock.now();
            respond_renewed(alloc, desk, uri, request, moment, None, room)
        }
    }
}

/// Answers a request: its response is written behind what is in the room. Where memory runs out,
/// nothing has happened, or the session that the request names was renewed and nothing else was
/// done.
pub fn respond<R: Wait, B: Binder, W: Words, C: Clock, P: Plays, S: Shares, N: Numbers>(
    alloc: Global,
    desk: &mut Desk<'_, R, B, W, C, P, S, N>,
    request: &Request,
    room: &mut Room,
) -> Result<(), AllocError>
    ensures same { SameParts desk.old desk.new }
    ensures ok { OnOk result (WritesResponse (devices B.calls W.calls C.tells P.calls S.calls) request.now desk.old room.old desk.new room.new) }
    ensures err { OnErr result (WantsResponse (devices B.calls W.calls C.tells P.calls S.calls) request.now desk.old desk.new) }
    ensures mute { OnErr result (room.new.text ≡ room.old.text) }
{
    match screen(alloc, request, desk.table)? {
        Screen::Answered(reply) => reply_with(&reply, room),
        Screen::Asks(parsed) => {
            respond_parsed(alloc, desk, request.uri.as_bytes(), parsed, room)
        }
    }
}

impl<R: Wait, B: Binder, W: Words, C: Clock, P: Plays, S: Shares, N: Numbers> Answerer
    for Desk<'_, R, B, W, C, P, S, N> {
    ghost answers = { AnswersAt (devices B.calls W.calls C.tells P.calls S.calls) };

    ghost gives_up = { GivesUpAt (devices B.calls W.calls C.tells P.calls S.calls) };

    fn answer(&mut self, alloc: Global, item: &Item, room: &mut Room) -> Result<(), AllocError> {
        match item {
            Item::Request(request) => respond(alloc, self, request, room),
            Item::Response(_) | Item::Frame(_) => Ok(()),
        }
    }
}
