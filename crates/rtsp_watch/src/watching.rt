//! Has the items of a connection answered, and tells of each request.

ghost use Rattle.std.specs.Prelude.{◌≡◌, ◌++◌, IfErr, OnOk};
ghost use Rattle.rtsp_grammar.specs.Answer.{IsUndecided};
ghost use Rattle.rtsp_engine.specs.Served.{Answered, FaultedAfter, at};
ghost use Rattle.rtsp_dialect.specs.Repairing.{TakesRepaired, FaultsRepaired};
ghost use Rattle.rtsp_watch.specs.Watching.{AnswersWatched, GivesUpWatched};

use crate::ending::{Recorder, ended_by, set_up_by};
use crate::reading::status_of;
use crate::witness::{Told, Witness};
use rtsp_dialect::push_repaired;
use rtsp_engine::{Answerer, Connection};
use rtsp_grammar::{Item, MessageFault, Request};
use rtsp_state::Room;
use std::alloc::{AllocError, Global};

/// One who answers, and who is told of it.
#[derive(Drop)]
pub(crate) struct Watched<'a, 'w, A, T> {
    pub(crate) answerer: &'a mut A,
    pub(crate) witness: &'w T,
}

// Tells of a request that was answered, and of its response.
fn tell<A: Recorder, T: Witness>(answerer: &A, witness: &T, request: &Request, response: &[u8]) {
    let status = status_of(response);
    witness.answered(&Told {
        method: &request.method,
        uri: request.uri.as_bytes(),
        status,
        response,
        ended: ended_by(answerer, &request.method, status),
        set_up: set_up_by(answerer, &request.method, status),
    });
}

impl<A: Answerer + Recorder, T: Witness> Answerer for Watched<'_, '_, A, T> {
    ghost answers = { AnswersWatched A.answers A.gives_up };

    ghost gives_up = { GivesUpWatched A.answers A.gives_up };

    fn answer(&mut self, alloc: Global, item: &Item, room: &mut Room) -> Result<(), AllocError> {
        match item {
            Item::Request(request) => self.witness.asked(&request.method),
            Item::Frame(frame) => self.witness.heard(frame.channel),
            Item::Response(_) => {}
        }
        let before = room.as_bytes().len();
        let answered = self.answerer.answer(alloc, item, room);
        if let Item::Request(request) = item
            && answered.is_ok()
            && let Some(response) = room.as_bytes().get(before..)
        {
            tell(&*self.answerer, self.witness, request, response);
        }
        answered
    }
}

impl<A: Answerer + Recorder, T: Witness> Watched<'_, '_, A, T> {
    // Takes a piece of a connection's input. Who answers stays the same one.
    fn push(
        &mut self,
        alloc: Global,
        connection: &mut Connection,
        piece: &[u8],
        room: &mut Room,
    ) -> Result<(), MessageFault>
        ensures kept { self.new.answerer.ghost_name ≡ self.old.answerer.ghost_name }
        ensures goes_on { OnOk result (Answered (AnswersWatched A.answers A.gives_up) (GivesUpWatched A.answers A.gives_up)
            (connection.old ++ piece.now) connection.new (at room.old self.old) (at room.new self.new)) }
        ensures undecided { OnOk result (IsUndecided connection.new) }
        ensures ends { IfErr result (λ f. FaultedAfter (AnswersWatched A.answers A.gives_up) (GivesUpWatched A.answers A.gives_up)
            (connection.old ++ piece.now) f (at room.old self.old) (at room.new self.new)) }
    {
        connection.push(alloc, self, piece, room)
    }

    // The same, where each request is repaired first.
    fn push_repaired(
        &mut self,
        alloc: Global,
        connection: &mut Connection,
        piece: &[u8],
        room: &mut Room,
    ) -> Result<(), MessageFault>
        ensures kept { self.new.answerer.ghost_name ≡ self.old.answerer.ghost_name }
        ensures goes_on { OnOk result (TakesRepaired (AnswersWatched A.answers A.gives_up) (GivesUpWatched A.answers A.gives_up)
            (connection.old ++ piece.now) connection.new (at room.old self.old) (at room.new self.new)) }
        ensures undecided { OnOk result (IsUndecided connection.new) }
        ensures ends { IfErr result (λ f. FaultsRepaired (AnswersWatched A.answers A.gives_up) (GivesUpWatched A.answers A.gives_up)
            (connection.old ++ piece.now) f (at room.old self.old) (at room.new self.new)) }
    {
        push_repaired(alloc, self, connection, piece, room)
    }
}

/// Takes a piece of a connection's input as `Connection::push` does, byte for byte, and tells the
/// witness of each request that was answered.
pub fn push_watched<A: Answerer + Recorder, T: Witness>(
    alloc: Global,
    answerer: &mut A,
    witness: &T,
    connection: &mut Connection,
    piece: &[u8],
    room: &mut Room,
) -> Result<(), MessageFault>
    ensures goes_on { OnOk result (Answered A.answers A.gives_up
        (connection.old ++ piece.now) connection.new (at room.old answerer.old) (at room.new answerer.new)) }
    ensures undecided { OnOk result (IsUndecided connection.new) }
    ensures ends { IfErr result (λ f. FaultedAfter A.answers A.gives_up
        (connection.old ++ piece.now) f (at room.old answerer.old) (at room.new answerer.new)) }
{
    let mut watched = Watched { answerer, witness };
    watched.push(alloc, connection, piece, room)
}

/// Takes a piece of a connection's input as rtsp_dialect's `push_repaired` does, byte for byte, and
/// tells the witness of each request, repaired, that was answered.
pub fn push_repaired_watched<A: Answerer + Recorder, T: Witness>(
    alloc: Global,
    answerer: &mut A,
    witness: &T,
    connection: &mut Connection,
    piece: &[u8],
    room: &mut Room,
) -> Result<(), MessageFault>
    ensures goes_on { OnOk result (TakesRepaired A.answers A.gives_up
        (connection.old ++ piece.now) connection.new (at room.old answerer.old) (at room.new answerer.new)) }
    ensures undecided { OnOk result (IsUndecided connection.new) }
    ensures ends { IfErr result (λ f. FaultsRepaired A.answers A.gives_up
        (connection.old ++ piece.now) f (at room.old answerer.old) (at room.new answerer.new)) }
{
    let mut watched = Watched { answerer, witness };
    watched.push_repaired(alloc, connection, piece, room)
}
