//! Has the repaired requests of a connection answered.

ghost use Rattle.std.specs.Prelude.{◌≡◌, ◌++◌, IfErr, OnOk, OnErr};
ghost use Rattle.rtsp_grammar.specs.Answer.{IsUndecided};
ghost use Rattle.rtsp_grammar.specs.declared.message.Item.{Item};
ghost use Rattle.rtsp_engine.specs.Served.{Puts, at};
ghost use Rattle.rtsp_dialect.specs.Repairing.{AnswersBehind, GivesUpBehind, TakesBehind, FaultsBehind, TakesRepaired, FaultsRepaired};

use crate::request::repair;
use rtsp_engine::{Answerer, Connection};
use rtsp_grammar::{Item, MessageFault, Request};
use rtsp_state::Room;
use std::alloc::{AllocError, Global};

/// An answerer that repairs each request of a connection, and has `answerer` answer what that makes.
#[derive(Drop)]
pub(crate) struct Repairing<'a, A> {
    pub(crate) answerer: &'a mut A,
}

// Has a request answered, and lets it go.
fn answer_request<A: Answerer>(
    alloc: Global,
    answerer: &mut A,
    request: Request,
    room: &mut Room,
) -> Result<(), AllocError>
    ensures ok { OnOk result (Puts (λ bytes. A.answers answerer.old (Item.Request request) bytes answerer.new) room.old.text room.new.text) }
    ensures err { OnErr result (A.gives_up answerer.old (Item.Request request) answerer.new) }
    ensures mute { OnErr result (room.new.text ≡ room.old.text) }
{
    answerer.answer(alloc, &Item::Request(request), room)
}

impl<A: Answerer> Answerer for Repairing<'_, A> {
    ghost answers = { AnswersBehind A.answers A.gives_up };

    ghost gives_up = { GivesUpBehind A.answers A.gives_up };

    fn answer(&mut self, alloc: Global, item: &Item, room: &mut Room) -> Result<(), AllocError> {
        match item {
            Item::Request(request) => match repair(alloc, request) {
                Ok(Some(repaired)) => answer_request(alloc, self.answerer, repaired, room),
                Ok(None) => self.answerer.answer(alloc, item, room),
                Err(AllocError) => Err(AllocError),
            },
            Item::Response(_) | Item::Frame(_) => self.answerer.answer(alloc, item, room),
        }
    }
}

impl<A: Answerer> Repairing<'_, A> {
    // Takes a piece of a connection's input. `answerer` stays the same one.
    fn push(
        &mut self,
        alloc: Global,
        connection: &mut Connection,
        piece: &[u8],
        room: &mut Room,
    ) -> Result<(), MessageFault>
        ensures kept { self.new.answerer.ghost_name ≡ self.old.answerer.ghost_name }
        ensures goes_on { OnOk result (TakesBehind A.answers A.gives_up (connection.old ++ piece.now) connection.new (at room.old self.old) (at room.new self.new)) }
        ensures undecided { OnOk result (IsUndecided connection.new) }
        ensures ends { IfErr result (λ f. FaultsBehind A.answers A.gives_up (connection.old ++ piece.now) f (at room.old self.old) (at room.new self.new)) }
    {
        connection.push(alloc, self, piece, room)
    }
}

/// Takes a piece of a connection's input as `Connection::push` does, and has the repaired items
/// answered.
pub fn push_repaired<A: Answerer>(
    alloc: Global,
    answerer: &mut A,
    connection: &mut Connection,
    piece: &[u8],
    room: &mut Room,
) -> Result<(), MessageFault>
    ensures goes_on { OnOk result (TakesRepaired A.answers A.gives_up
        (connection.old ++ piece.now) connection.new (at room.old answerer.old) (at room.new answerer.new)) }
    ensures undecided { OnOk result (IsUndecided connection.new) }
    ensures ends { IfErr result (λ f. FaultsRepaired A.answers A.gives_up
        (connection.old ++ piece.now) f (at room.old answerer.old) (at room.new answerer.new)) }
{
    let mut repairing = Repairing { answerer };
    repairing.push(alloc, connection, piece, room)
}
