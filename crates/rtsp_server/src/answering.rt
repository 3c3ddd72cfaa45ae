//! Has the input of a connection answered by the engine, a piece at a time.

ghost use Rattle.std.specs.Prelude.{◌++◌, IfErr, OnOk};
ghost use Rattle.rtsp_grammar.specs.Answer.{IsUndecided};
ghost use Rattle.rtsp_traits.specs.Devices.{devices};
ghost use Rattle.rtsp_engine.specs.Serving.{Serving, serving_of};
ghost use Rattle.rtsp_watch.specs.Understanding.{AnswersUnderstood, GivesUpUnderstood, TakesPiece, FaultsPiece, gathered};
ghost use Rattle.rtsp_watch.specs.Understanding.{LeavesTaken, LeavesFaulted};

use crate::channels::Channels;
use crate::figures::AnswerCounter;
use crate::service::Service;
use rtsp_book::Receipt;
use rtsp_engine::{Asker, Binder, Clock, Connection, PieceAnswerer, Plays, Shares, Words};
use rtsp_grammar::MessageFault;
use rtsp_lock::BookHandle;
use rtsp_log::{Event, Log};
use rtsp_pacing::{Bells, NotedPlays};
use rtsp_sockets::{Outlet, PieceClock, PortBinder, RandomWords};
use rtsp_state::Room;
use rtsp_threads::{ANSWERS, Activity, LAST_ROOM, LaneShares, PAUSE, PIECE};
use rtsp_watch::push_lent;
use std::alloc::Global;
use std::cell::Cell;
use std::net::{Ipv4Addr, Net};
use std::rt;
use std::sync::{Arc, Wait};

/// What answers the pieces of a connection: its handle of the book, and what its lane lends it.
#[derive(Drop)]
pub(crate) struct Front<'a, R> {
    pub(crate) service: Service<'a, R>,
    pub(crate) handle: &'a mut BookHandle,
    /// The lane's own handle, for the room of the journal and for what an address has.
    pub(crate) lane: &'a mut BookHandle,
    pub(crate) asker: Asker,
    /// The address of the host that the player connected to.
    pub(crate) host: Ipv4Addr,
    pub(crate) outlet: &'a Arc<Outlet>,
    pub(crate) made: &'a mut Receipt,
    pub(crate) words: &'a mut RandomWords,
    pub(crate) plays: &'a mut NotedPlays,
    pub(crate) heard: &'a Cell<Channels>,
    pub(crate) activity: &'a mut Activity,
    /// Whether the journal has room for what the next piece may record.
    pub(crate) has_room: bool,
}

// Has a piece of a connection's input answered at a desk over the connection's handle of the book,
// with the server's sockets, its clock, which is read once at most, and what addresses have of the
// sessions, by the lane's handle. Each item is answered as the configuration's players mean it.
fn answer_piece<R: Wait + Net + rt::Clock, W: Words, P: Plays>(
    service: &Service<'_, R>,
    handle: &mut BookHandle,
    lane: &mut BookHandle,
    asker: Asker,
    host: Ipv4Addr,
    made: &mut Receipt,
    words: &mut W,
    plays: &mut P,
    witness: &AnswerCounter<'_, R>,
    input: &mut Connection,
    piece: &[u8],
    room: &mut Room,
) -> Result<(), MessageFault>
    ensures goes_on { OnOk result (TakesPiece (devices ⟦<PortBinder<'static, R> as Binder>⟧.calls W.calls
        ⟦<PieceClock<'static, R> as Clock>⟧.tells P.calls ⟦<LaneShares<'static, R> as Shares>⟧.calls)
        (input.old ++ piece.now) input.new
        (gathered service.entry.now.table.now asker handle.old.seat room.old)
        (gathered service.entry.now.table.now asker handle.new.seat room.new)) }
    ensures undecided { OnOk result (IsUndecided input.new) }
    ensures ends { IfErr result (λ f. FaultsPiece (devices ⟦<PortBinder<'static, R> as Binder>⟧.calls W.calls
        ⟦<PieceClock<'static, R> as Clock>⟧.tells P.calls ⟦<LaneShares<'static, R> as Shares>⟧.calls)
        (input.old ++ piece.now) f
        (gathered service.entry.now.table.now asker handle.old.seat room.old)
        (gathered service.entry.now.table.now asker handle.new.seat room.new)) }
    ensures clean { OnOk result (LeavesTaken (devices ⟦<PortBinder<'static, R> as Binder>⟧.calls W.calls
        ⟦<PieceClock<'static, R> as Clock>⟧.tells P.calls ⟦<LaneShares<'static, R> as Shares>⟧.calls)
        (input.old ++ piece.now) input.new
        (gathered service.entry.now.table.now asker handle.old.seat room.old)
        (gathered service.entry.now.table.now asker handle.new.seat room.new)) }
    ensures clean_end { IfErr result (λ f. LeavesFaulted (devices ⟦<PortBinder<'static, R> as Binder>⟧.calls W.calls
        ⟦<PieceClock<'static, R> as Clock>⟧.tells P.calls ⟦<LaneShares<'static, R> as Shares>⟧.calls)
        (input.old ++ piece.now) f
        (gathered service.entry.now.table.now asker handle.old.seat room.old)
        (gathered service.entry.now.table.now asker handle.new.seat room.new)) }
{
    let rt = service.rt;
    let shared = service.shared;
    let mut binder = PortBinder::new(rt, &shared.ports, host);
    let mut clock = PieceClock::new(rt, shared.begun, service.desk.decisions);
    let mut shares = LaneShares::new(rt, shared.session_shares.as_ref(), lane);
    let pushed = push_lent(
        rt,
        service.alloc,
        &mut handle.seat,
        &handle.lock,
        made,
        &mut binder,
        words,
        &mut clock,
        plays,
        &mut shares,
        service.table,
        asker,
        witness,
        input,
        piece,
        room,
    );
    witness.note_unplaced(shares.refused());
    if shares.refused() > 0 {
        shared.log.event(rt, Event::ShareSpent { peer: asker.peer });
    }
    pushed
}

// What came of a piece.
#[derive(Clone, Copy)]
pub(crate) struct Came {
    // How many bytes there were with those that were held before.
    pub(crate) all: usize,
    pub(crate) is_full: bool,
    pub(crate) is_fault: bool,
}

// Requests were refused since there was no more of something. Where that may be the journal's room, the
// log tells of it.
fn note_unavailable<R: Wait + rt::Clock>(rt: &R, log: &Log, lane: &mut BookHandle) {
    if lane.tally(rt).room < LAST_ROOM {
        log.event(rt, Event::JournalFull);
    }
}

// Does what follows from the answers to a piece.
pub(crate) fn settle<R: Wait + rt::Clock>(
    lane: &mut BookHandle,
    activity: &mut Activity,
    witness: &AnswerCounter<'_, R>,
    input: &Connection,
    came: Came,
) {
    let desk = witness.desk;
    let has_setup = witness.has_setup();
    activity.note(desk.now, came.all, input, has_setup);
    // A request for whose answer there was no memory may have done something all the same.
    if came.is_fault {
        desk.recorded.note();
        witness.end_decision();
    }
    // A session that was opened for a track that was then refused has ended.
    if has_setup {
        desk.ends.note();
    }
    if witness.is_unavailable() {
        note_unavailable(desk.rt, desk.teller.log, lane);
    }
}

// Whether answers are written before more is read. Where a play is among them, it is handed over once they
// are written; where there is no room for what the next piece may record, none is read.
pub(crate) fn is_due(has_room: bool, plays: &NotedPlays, gathered: usize) -> bool {
    !has_room || !plays.is_empty() || gathered >= ANSWERS
}

// Hands the plays over whose answers are written, so that no packet comes before these. Whether more may
// be read: not while too many plays wait for their pacer, or too much waits to be written.
pub(crate) fn has_handed_over<R: Wait>(
    rt: &R,
    bells: &Bells,
    plays: &mut NotedPlays,
    conn: u64,
    outlet: &Outlet,
) -> bool {
    let is_heard = plays.hand_over(rt, bells, conn);
    is_heard && outlet.waiting(rt) <= PAUSE
}

impl<R: Wait + Net + rt::Clock> PieceAnswerer for Front<'_, R> {
    ghost State = { Serving };

    ghost serving = { λ f. serving_of f.service.table.now f.asker f.handle.now.seat };

    ghost answers = { AnswersUnderstood (devices ⟦<PortBinder<'static, R> as Binder>⟧.calls
        ⟦<RandomWords as Words>⟧.calls ⟦<PieceClock<'static, R> as Clock>⟧.tells
        ⟦<NotedPlays as Plays>⟧.calls ⟦<LaneShares<'static, R> as Shares>⟧.calls) };

    ghost gives_up = { GivesUpUnderstood (devices ⟦<PortBinder<'static, R> as Binder>⟧.calls
        ⟦<RandomWords as Words>⟧.calls ⟦<PieceClock<'static, R> as Clock>⟧.tells
        ⟦<NotedPlays as Plays>⟧.calls ⟦<LaneShares<'static, R> as Shares>⟧.calls) };

    fn push(
        &mut self,
        _alloc: Global,
        input: &mut Connection,
        piece: &[u8],
        room: &mut Room,
    ) -> Result<(), MessageFault> {
        let all = input.len().saturating_add(piece.len());
        let witness = AnswerCounter::new(self.service.desk, self.asker, self.heard);
        let pushed = answer_piece(
            &self.service,
            self.handle,
            self.lane,
            self.asker,
            self.host,
            self.made,
            self.words,
            self.plays,
            &witness,
            input,
            piece,
            room,
        );
        let came = Came {
            all,
            is_full: piece.len() == PIECE,
            is_fault: pushed.is_err(),
        };
        settle(self.lane, self.activity, &witness, input, came);
        // A piece that was full may be followed by another one.
        self.has_room = !came.is_full || self.service.make_room(self.lane);
        pushed
    }

    fn is_due(&self, gathered: usize) -> bool {
        is_due(self.has_room, self.plays, gathered)
    }

    fn has_written(&mut self) -> bool {
        let Service { rt, shared, .. } = self.service;
        let (conn, outlet) = (self.asker.conn, self.outlet);
        let goes_on = has_handed_over(rt, &shared.bells, self.plays, conn, outlet);
        self.has_room && goes_on
    }
}
