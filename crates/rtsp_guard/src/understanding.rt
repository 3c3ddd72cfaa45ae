//! Takes the input of a player at a desk behind a gate, and has each item answered as the players of the
//! configuration mean it.

ghost use Rattle.std.specs.Prelude.{◌++◌, IfErr, OnOk};
ghost use Rattle.rtsp_grammar.specs.Answer.{IsUndecided};
ghost use Rattle.rtsp_engine.specs.Desk.{SameParts};
ghost use Rattle.rtsp_engine.specs.Served.{at};
ghost use Rattle.rtsp_traits.specs.Devices.{devices};
ghost use Rattle.rtsp_guard.specs.Guarding.{keeps};
ghost use Rattle.rtsp_guard.specs.AtDesk.{TakesAtDesk, FaultsAtDesk, TakesRepairedAtDesk, FaultsRepairedAtDesk};
ghost use Rattle.rtsp_guard.specs.Understanding.{TakesPiece, FaultsPiece, serves};

use crate::porter::Porter;
use crate::watching::{push_guarded, push_repaired_guarded};
use rtsp_content::Players;
use rtsp_credentials::{Gate, Users};
use rtsp_engine::{Binder, Clock, Connection, Desk, Plays, Shares, Words};
use rtsp_grammar::MessageFault;
use rtsp_lock::Numbers;
use rtsp_state::Room;
use rtsp_watch::Witness;
use std::alloc::Global;
use std::sync::Wait;

// Takes a piece, and has its items answered at the desk, as far as they are let through.
fn push_strict<
    R: Wait,
    B: Binder,
    W: Words,
    C: Clock,
    P: Plays,
    S: Shares,
    N: Numbers,
    T: Porter + Witness,
>(
    alloc: Global,
    gate: &mut Gate,
    users: &Users,
    desk: &mut Desk<'_, R, B, W, C, P, S, N>,
    witness: &T,
    connection: &mut Connection,
    piece: &[u8],
    room: &mut Room,
) -> Result<(), MessageFault>
    ensures same { SameParts desk.old desk.new }
    ensures goes_on { OnOk result (TakesAtDesk (devices B.calls W.calls C.tells P.calls S.calls) (connection.old ++ piece.now) connection.new
        (at room.old (keeps gate.old users.now desk.old)) (at room.new (keeps gate.new users.now desk.new))) }
    ensures undecided { OnOk result (IsUndecided connection.new) }
    ensures ends { IfErr result (λ f. FaultsAtDesk (devices B.calls W.calls C.tells P.calls S.calls) (connection.old ++ piece.now) f
        (at room.old (keeps gate.old users.now desk.old)) (at room.new (keeps gate.new users.now desk.new))) }
{
    push_guarded(alloc, gate, users, desk, witness, connection, piece, room)
}

// The same of the repaired items.
fn push_repaired<
    R: Wait,
    B: Binder,
    W: Words,
    C: Clock,
    P: Plays,
    S: Shares,
    N: Numbers,
    T: Porter + Witness,
>(
    alloc: Global,
    gate: &mut Gate,
    users: &Users,
    desk: &mut Desk<'_, R, B, W, C, P, S, N>,
    witness: &T,
    connection: &mut Connection,
    piece: &[u8],
    room: &mut Room,
) -> Result<(), MessageFault>
    ensures same { SameParts desk.old desk.new }
    ensures goes_on { OnOk result (TakesRepairedAtDesk (devices B.calls W.calls C.tells P.calls S.calls) (connection.old ++ piece.now) connection.new
        (at room.old (keeps gate.old users.now desk.old)) (at room.new (keeps gate.new users.now desk.new))) }
    ensures undecided { OnOk result (IsUndecided connection.new) }
    ensures ends { IfErr result (λ f. FaultsRepairedAtDesk (devices B.calls W.calls C.tells P.calls S.calls) (connection.old ++ piece.now) f
        (at room.old (keeps gate.old users.now desk.old)) (at room.new (keeps gate.new users.now desk.new))) }
{
    push_repaired_guarded(alloc, gate, users, desk, witness, connection, piece, room)
}

/// Takes a piece of a connection's input as rtsp_watch's `push_understood` does. What an item means is
/// judged at the gate, and answered at the desk or refused. Of the desk only what its seat has seen of
/// the book matters for the next piece.
pub fn push_understood<
    R: Wait,
    B: Binder,
    W: Words,
    C: Clock,
    P: Plays,
    S: Shares,
    N: Numbers,
    T: Porter + Witness,
>(
    alloc: Global,
    gate: &mut Gate,
    users: &Users,
    desk: &mut Desk<'_, R, B, W, C, P, S, N>,
    witness: &T,
    input: &mut Connection,
    piece: &[u8],
    room: &mut Room,
) -> Result<(), MessageFault>
    ensures same { SameParts desk.old desk.new }
    ensures goes_on { OnOk result (TakesPiece (devices B.calls W.calls C.tells P.calls S.calls) (input.old ++ piece.now) input.new
        (serves gate.old users.now desk.old room.old) (serves gate.new users.now desk.new room.new)) }
    ensures undecided { OnOk result (IsUndecided input.new) }
    ensures ends { IfErr result (λ f. FaultsPiece (devices B.calls W.calls C.tells P.calls S.calls) (input.old ++ piece.now) f
        (serves gate.old users.now desk.old room.old) (serves gate.new users.now desk.new room.new)) }
{
    match desk.table.server().players {
        Players::Strict => push_strict(alloc, gate, users, desk, witness, input, piece, room),
        Players::Gstreamer => push_repaired(alloc, gate, users, desk, witness, input, piece, room),
    }
}
