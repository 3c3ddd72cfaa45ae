//! Has the input of a connection answered at its gate, where only users are let through.

ghost use Rattle.std.specs.Prelude.{◌++◌, IfErr, OnOk};
ghost use Rattle.rtsp_grammar.specs.Answer.{IsUndecided};
ghost use Rattle.rtsp_traits.specs.Devices.{devices};
ghost use Rattle.rtsp_engine.specs.Serving.{Serving, serving_of};
ghost use Rattle.rtsp_guard.specs.Guarding.{Kept, keeps};
ghost use Rattle.rtsp_guard.specs.Understanding.{AnswersUnderstood, GivesUpUnderstood, TakesPiece, FaultsPiece, gathered};
ghost use Rattle.rtsp_guard.specs.Understanding.{LeavesTaken, LeavesFaulted};

use crate::answering::{Came, has_handed_over, is_due, settle};
use crate::channels::Channels;
use crate::desk::Desk;
use crate::figures::AnswerCounter;
use crate::hiding::is_there;
use crate::owners::{Claim, Naming};
use crate::service::Service;
use crate::visiting::{Part, Read, visit_by};
use rtsp_book::Receipt;
use rtsp_content::Players;
use rtsp_credentials::{Credentials, Gate, Protection, Refusal, Users};
use rtsp_engine::{
    Asker, Binder, Clock, Connection, PieceAnswerer, Plays, Shares, Words, WordsFault,
};
use rtsp_grammar::{MessageFault, Method, Request};
use rtsp_guard::{Foreign, Porter, push_lent};
use rtsp_lock::BookHandle;
use rtsp_log::{CredentialsCause, Event, RefusedCredentials, UserName};
use rtsp_pacing::NotedPlays;
use rtsp_sockets::{Outlet, PieceClock, PortBinder, RandomWords};
use rtsp_state::Room;
use rtsp_threads::{Activity, LaneShares, PIECE};
use std::alloc::{AllocError, Global};
use std::cell::Cell;
use std::net::{Ipv4Addr, Net};
use std::rt;
use std::sync::{Arc, Wait};

// GStreamer's players know no qop.
fn protection_for(players: Players) -> Protection {
    match players {
        Players::Strict => Protection::Auth,
        Players::Gstreamer => Protection::AuthOrNone,
    }
}

/// The gate of a connection that was accepted, where only users are let through.
pub(crate) fn open_gate<R>(
    desk: &Desk<'_, R>,
    words: &mut RandomWords,
) -> Result<Option<Gate>, WordsFault> {
    if !desk.teller.has_users {
        return Ok(None);
    }
    let number = words.id()?;
    let players = desk.table.server().players;
    Ok(Some(Gate::open(number, protection_for(players))))
}

// Why, as the log tells it. Nothing where it tells nothing: each player begins with no credentials, or
// with those of an earlier connection.
fn cause_of(refusal: Refusal) -> Option<CredentialsCause> {
    match refusal {
        Refusal::Missing | Refusal::Stale => None,
        Refusal::Repeated => Some(CredentialsCause::Repeated),
        Refusal::OtherScheme => Some(CredentialsCause::OtherScheme),
        Refusal::Malformed => Some(CredentialsCause::Malformed),
        Refusal::OtherAlgorithm => Some(CredentialsCause::OtherAlgorithm),
        Refusal::OtherProtection => Some(CredentialsCause::OtherProtection),
        Refusal::OtherUri => Some(CredentialsCause::OtherUri),
        Refusal::OtherRealm => Some(CredentialsCause::OtherRealm),
        Refusal::Replayed => Some(CredentialsCause::Replayed),
        Refusal::Wrong => Some(CredentialsCause::Wrong),
        Refusal::TooManyWrong => Some(CredentialsCause::TooManyWrong),
    }
}

// The user that a request says it is from.
fn name_in(request: &Request) -> UserName {
    match Credentials::among(&request.headers) {
        Ok(credentials) => UserName::of(credentials.username),
        Err(_) => UserName::of(b""),
    }
}

impl<R: Wait + rt::Clock> Porter for AnswerCounter<'_, R> {
    fn refused(&self, refusal: Refusal, request: &Request) {
        if let Some(cause) = cause_of(refusal) {
            let Desk { rt, teller, .. } = *self.desk;
            let refused = RefusedCredentials {
                peer: self.asker.peer,
                cause,
                user: name_in(request),
            };
            let event = Event::CredentialsRefused(refused);
            teller.log.event(rt, event);
        }
    }

    fn of_another(&self, request: &Request, user: &[u8]) -> Result<Option<Foreign>, AllocError> {
        let Desk {
            rt,
            alloc,
            teller,
            ..
        } = *self.desk;
        let naming = Naming::of(self.asker.conn, &request.headers);
        let sets_up = matches!(request.method, Method::Setup);
        if let Some(allowed) = self.desk.allowed
            && !is_there(self.desk, allowed, request, user)?
        {
            return Ok(Some(Foreign::Presentation));
        }
        if let Some(naming) = naming
            && teller.owners.is_of_another(rt, naming, user)
        {
            return Ok(Some(Foreign::Session(naming.header())));
        }
        if sets_up {
            let claim = Claim::new(alloc, user, naming)?;
            teller.owners.ask(rt, self.asker.conn, claim)?;
        }
        Ok(None)
    }
}

/// What answers the pieces of a connection at its gate: the fields of `Front`, the gate, and who is let
/// through.
#[derive(Drop)]
pub(crate) struct GuardedFront<'a, R> {
    pub(crate) gate: Gate,
    pub(crate) users: &'a Users,
    pub(crate) service: Service<'a, R>,
    pub(crate) handle: &'a mut BookHandle,
    pub(crate) lane: &'a mut BookHandle,
    pub(crate) asker: Asker,
    pub(crate) host: Ipv4Addr,
    pub(crate) outlet: &'a Arc<Outlet>,
    pub(crate) made: &'a mut Receipt,
    pub(crate) words: &'a mut RandomWords,
    pub(crate) plays: &'a mut NotedPlays,
    pub(crate) heard: &'a Cell<Channels>,
    pub(crate) activity: &'a mut Activity,
    pub(crate) has_room: bool,
}

// Has a piece of a connection's input answered as `answer_piece` does, as far as it is let through.
fn answer_guarded<R: Wait + Net + rt::Clock, W: Words, P: Plays>(
    service: &Service<'_, R>,
    gate: &mut Gate,
    users: &Users,
    handle: &mut BookHandle,
    lane: &mut BookHandle,
    asker: Asker,
    host: Ipv4Addr,
    made: &mut Receipt,
    words: &mut W,
    plays: &mut P,
    witness: &AnswerCounter<'_, R>,
    input: &mut Connection,
    piece: &[u8],
    room: &mut Room,
) -> Result<(), MessageFault>
    ensures goes_on { OnOk result (TakesPiece (devices ⟦<PortBinder<'static, R> as Binder>⟧.calls W.calls
        ⟦<PieceClock<'static, R> as Clock>⟧.tells P.calls ⟦<LaneShares<'static, R> as Shares>⟧.calls)
        (input.old ++ piece.now) input.new
        (gathered gate.old users.now service.entry.now.table.now asker handle.old.seat room.old)
        (gathered gate.new users.now service.entry.now.table.now asker handle.new.seat room.new)) }
    ensures undecided { OnOk result (IsUndecided input.new) }
    ensures ends { IfErr result (λ f. FaultsPiece (devices ⟦<PortBinder<'static, R> as Binder>⟧.calls W.calls
        ⟦<PieceClock<'static, R> as Clock>⟧.tells P.calls ⟦<LaneShares<'static, R> as Shares>⟧.calls)
        (input.old ++ piece.now) f
        (gathered gate.old users.now service.entry.now.table.now asker handle.old.seat room.old)
        (gathered gate.new users.now service.entry.now.table.now asker handle.new.seat room.new)) }
    ensures clean { OnOk result (LeavesTaken (devices ⟦<PortBinder<'static, R> as Binder>⟧.calls W.calls
        ⟦<PieceClock<'static, R> as Clock>⟧.tells P.calls ⟦<LaneShares<'static, R> as Shares>⟧.calls)
        (input.old ++ piece.now) input.new
        (gathered gate.old users.now service.entry.now.table.now asker handle.old.seat room.old)
        (gathered gate.new users.now service.entry.now.table.now asker handle.new.seat room.new)) }
    ensures clean_end { IfErr result (λ f. LeavesFaulted (devices ⟦<PortBinder<'static, R> as Binder>⟧.calls W.calls
        ⟦<PieceClock<'static, R> as Clock>⟧.tells P.calls ⟦<LaneShares<'static, R> as Shares>⟧.calls)
        (input.old ++ piece.now) f
        (gathered gate.old users.now service.entry.now.table.now asker handle.old.seat room.old)
        (gathered gate.new users.now service.entry.now.table.now asker handle.new.seat room.new)) }
{
    let rt = service.rt;
    let shared = service.shared;
    let mut binder = PortBinder::new(rt, &shared.ports, host);
    let mut clock = PieceClock::new(rt, shared.begun, service.desk.decisions);
    let mut shares = LaneShares::new(rt, shared.session_shares.as_ref(), lane);
    let pushed = push_lent(
        rt,
        service.alloc,
        gate,
        users,
        &mut handle.seat,
        &handle.lock,
        made,
        &mut binder,
        words,
        &mut clock,
        plays,
        &mut shares,
        service.table,
        asker,
        witness,
        input,
        piece,
        room,
    );
    witness.note_unplaced(shares.refused());
    if shares.refused() > 0 {
        shared.log.event(rt, Event::ShareSpent { peer: asker.peer });
    }
    pushed
}

impl<R: Wait + Net + rt::Clock> PieceAnswerer for GuardedFront<'_, R> {
    ghost State = { Kept Serving };

    ghost serving = { λ f. keeps f.gate f.users.now (serving_of f.service.table.now f.asker f.handle.now.seat) };

    ghost answers = { AnswersUnderstood (devices ⟦<PortBinder<'static, R> as Binder>⟧.calls
        ⟦<RandomWords as Words>⟧.calls ⟦<PieceClock<'static, R> as Clock>⟧.tells
        ⟦<NotedPlays as Plays>⟧.calls ⟦<LaneShares<'static, R> as Shares>⟧.calls) };

    ghost gives_up = { GivesUpUnderstood (devices ⟦<PortBinder<'static, R> as Binder>⟧.calls
        ⟦<RandomWords as Words>⟧.calls ⟦<PieceClock<'static, R> as Clock>⟧.tells
        ⟦<NotedPlays as Plays>⟧.calls ⟦<LaneShares<'static, R> as Shares>⟧.calls) };

    fn push(
        &mut self,
        _alloc: Global,
        input: &mut Connection,
        piece: &[u8],
        room: &mut Room,
    ) -> Result<(), MessageFault> {
        let all = input.len().saturating_add(piece.len());
        let witness = AnswerCounter::new(self.service.desk, self.asker, self.heard);
        let pushed = answer_guarded(
            &self.service,
            &mut self.gate,
            self.users,
            self.handle,
            self.lane,
            self.asker,
            self.host,
            self.made,
            self.words,
            self.plays,
            &witness,
            input,
            piece,
            room,
        );
        let came = Came {
            all,
            is_full: piece.len() == PIECE,
            is_fault: pushed.is_err(),
        };
        settle(self.lane, self.activity, &witness, input, came);
        // A piece that was full may be followed by another one.
        self.has_room = !came.is_full || self.service.make_room(self.lane);
        pushed
    }

    fn is_due(&self, gathered: usize) -> bool {
        is_due(self.has_room, self.plays, gathered)
    }

    fn has_written(&mut self) -> bool {
        let Service { rt, shared, .. } = self.service;
        let (conn, outlet) = (self.asker.conn, self.outlet);
        let goes_on = has_handed_over(rt, &shared.bells, self.plays, conn, outlet);
        self.has_room && goes_on
    }
}

impl<R: Wait + Net + rt::Clock> GuardedFront<'_, R> {
    /// Reads as `Front::visit` does, and has what is let through at the gate answered.
    pub(crate) fn visit(
        &mut self,
        input: &mut Connection,
        room: &mut Room,
        piece: &mut [u8],
        part: Part,
        reads_all: bool,
        until: u64,
    ) -> Read {
        let (desk, outlet) = (self.service.desk, self.outlet);
        visit_by(
            desk, outlet, self, input, room, piece, part, reads_all, until,
        )
    }
}
