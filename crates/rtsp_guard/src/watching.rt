//! A gate between a witness, who is told of each request that was answered or refused, and who answers.

ghost use Rattle.std.specs.Prelude.{◌≡◌, ◌++◌, IfErr, OnOk};
ghost use Rattle.rtsp_grammar.specs.Answer.{IsUndecided};
ghost use Rattle.rtsp_engine.specs.Served.{Answered, FaultedAfter, at};
ghost use Rattle.rtsp_dialect.specs.Repairing.{TakesRepaired, FaultsRepaired};
ghost use Rattle.rtsp_guard.specs.Guarding.{AnswersGuarded, GivesUpGuarded, AnswersBehind, GivesUpBehind, TakesGuarded, FaultsGuarded, keeps};

use crate::guarding::Guarded;
use crate::porter::Porter;
use rtsp_credentials::{Gate, Users};
use rtsp_engine::{Answerer, Connection};
use rtsp_grammar::MessageFault;
use rtsp_state::Room;
use rtsp_watch::{Recorder, Witness, push_repaired_watched, push_watched};
use std::alloc::Global;

impl<A: Answerer + Recorder, T: Porter + Witness> Guarded<'_, '_, '_, A, T> {
    // Takes a piece of a connection's input. Who answers stays the same one, and so do the users.
    fn push(
        &mut self,
        alloc: Global,
        connection: &mut Connection,
        piece: &[u8],
        room: &mut Room,
    ) -> Result<(), MessageFault>
        ensures kept { self.new.answerer.ghost_name ≡ self.old.answerer.ghost_name }
        ensures users { self.new.users.now ≡ self.old.users.now }
        ensures goes_on { OnOk result (Answered (AnswersBehind A.answers A.gives_up) (GivesUpBehind A.answers A.gives_up)
            (connection.old ++ piece.now) connection.new (at room.old self.old) (at room.new self.new)) }
        ensures undecided { OnOk result (IsUndecided connection.new) }
        ensures ends { IfErr result (λ f. FaultedAfter (AnswersBehind A.answers A.gives_up) (GivesUpBehind A.answers A.gives_up)
            (connection.old ++ piece.now) f (at room.old self.old) (at room.new self.new)) }
    {
        let witness = self.porter;
        push_watched(alloc, self, witness, connection, piece, room)
    }

    // The same, where each request is repaired first.
    fn push_repaired(
        &mut self,
        alloc: Global,
        connection: &mut Connection,
        piece: &[u8],
        room: &mut Room,
    ) -> Result<(), MessageFault>
        ensures kept { self.new.answerer.ghost_name ≡ self.old.answerer.ghost_name }
        ensures users { self.new.users.now ≡ self.old.users.now }
        ensures goes_on { OnOk result (TakesRepaired (AnswersBehind A.answers A.gives_up) (GivesUpBehind A.answers A.gives_up)
            (connection.old ++ piece.now) connection.new (at room.old self.old) (at room.new self.new)) }
        ensures undecided { OnOk result (IsUndecided connection.new) }
        ensures ends { IfErr result (λ f. FaultsRepaired (AnswersBehind A.answers A.gives_up) (GivesUpBehind A.answers A.gives_up)
            (connection.old ++ piece.now) f (at room.old self.old) (at room.new self.new)) }
    {
        let witness = self.porter;
        push_repaired_watched(alloc, self, witness, connection, piece, room)
    }
}

/// Takes a piece of a connection's input as rtsp_watch's `push_watched` does. A request that is let
/// through at the gate is answered; one that isn't is refused, and who answers never learns of it.
pub fn push_guarded<A: Answerer + Recorder, T: Porter + Witness>(
    alloc: Global,
    gate: &mut Gate,
    users: &Users,
    answerer: &mut A,
    witness: &T,
    connection: &mut Connection,
    piece: &[u8],
    room: &mut Room,
) -> Result<(), MessageFault>
    ensures goes_on { OnOk result (TakesGuarded A.answers A.gives_up (connection.old ++ piece.now) connection.new
        (at room.old (keeps gate.old users.now answerer.old)) (at room.new (keeps gate.new users.now answerer.new))) }
    ensures undecided { OnOk result (IsUndecided connection.new) }
    ensures ends { IfErr result (λ f. FaultsGuarded A.answers A.gives_up (connection.old ++ piece.now) f
        (at room.old (keeps gate.old users.now answerer.old)) (at room.new (keeps gate.new users.now answerer.new))) }
{
    let mut guarded = Guarded {
        gate: *gate,
        users,
        porter: witness,
        answerer,
    };
    let pushed = guarded.push(alloc, connection, piece, room);
    *gate = guarded.gate;
    pushed
}

/// The same as rtsp_watch's `push_repaired_watched` does it: each request is repaired, and then judged.
pub fn push_repaired_guarded<A: Answerer + Recorder, T: Porter + Witness>(
    alloc: Global,
    gate: &mut Gate,
    users: &Users,
    answerer: &mut A,
    witness: &T,
    connection: &mut Connection,
    piece: &[u8],
    room: &mut Room,
) -> Result<(), MessageFault>
    ensures goes_on { OnOk result (TakesRepaired (AnswersGuarded A.answers A.gives_up) (GivesUpGuarded A.answers A.gives_up)
        (connection.old ++ piece.now) connection.new
        (at room.old (keeps gate.old users.now answerer.old)) (at room.new (keeps gate.new users.now answerer.new))) }
    ensures undecided { OnOk result (IsUndecided connection.new) }
    ensures ends { IfErr result (λ f. FaultsRepaired (AnswersGuarded A.answers A.gives_up) (GivesUpGuarded A.answers A.gives_up)
        (connection.old ++ piece.now) f
        (at room.old (keeps gate.old users.now answerer.old)) (at room.new (keeps gate.new users.now answerer.new))) }
{
    let mut guarded = Guarded {
        gate: *gate,
        users,
        porter: witness,
        answerer,
    };
    let pushed = guarded.push_repaired(alloc, connection, piece, room);
    *gate = guarded.gate;
    pushed
}
