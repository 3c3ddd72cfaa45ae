//! Takes the input of a player at a desk, has each item answered as the players of the configuration
//! mean it, and tells of each request.

ghost use Rattle.std.specs.Prelude.{◌++◌, IfErr, OnOk};
ghost use Rattle.rtsp_grammar.specs.Answer.{IsUndecided};
ghost use Rattle.rtsp_engine.specs.Desk.{SameParts};
ghost use Rattle.rtsp_engine.specs.DeskAnswers.{Takes, Faults};
ghost use Rattle.rtsp_traits.specs.Devices.{devices};
ghost use Rattle.rtsp_engine.specs.Served.{at};
ghost use Rattle.rtsp_watch.specs.Understanding.{TakesAt, FaultsAt, TakesPiece, FaultsPiece, serves};

use crate::watching::{push_repaired_watched, push_watched};
use crate::witness::Witness;
use rtsp_content::Players;
use rtsp_engine::{Binder, Clock, Connection, Desk, Plays, Shares, Words};
use rtsp_grammar::MessageFault;
use rtsp_lock::Numbers;
use rtsp_state::Room;
use std::alloc::Global;
use std::sync::Wait;

// Takes a piece, and has its items answered by the desk.
fn push_strict<R: Wait, B: Binder, W: Words, C: Clock, P: Plays, S: Shares, N: Numbers, T: Witness>(
    alloc: Global,
    desk: &mut Desk<'_, R, B, W, C, P, S, N>,
    witness: &T,
    connection: &mut Connection,
    piece: &[u8],
    room: &mut Room,
) -> Result<(), MessageFault>
    ensures same { SameParts desk.old desk.new }
    ensures goes_on { OnOk result (Takes (devices B.calls W.calls C.tells P.calls S.calls)
        (connection.old ++ piece.now) connection.new (at room.old desk.old) (at room.new desk.new)) }
    ensures undecided { OnOk result (IsUndecided connection.new) }
    ensures ends { IfErr result (λ f. Faults (devices B.calls W.calls C.tells P.calls S.calls)
        (connection.old ++ piece.now) f (at room.old desk.old) (at room.new desk.new)) }
{
    push_watched(alloc, desk, witness, connection, piece, room)
}

// Takes a piece, and has the repaired items answered.
fn push_repaired<
    R: Wait,
    B: Binder,
    W: Words,
    C: Clock,
    P: Plays,
    S: Shares,
    N: Numbers,
    T: Witness,
>(
    alloc: Global,
    desk: &mut Desk<'_, R, B, W, C, P, S, N>,
    witness: &T,
    connection: &mut Connection,
    piece: &[u8],
    room: &mut Room,
) -> Result<(), MessageFault>
    ensures same { SameParts desk.old desk.new }
    ensures goes_on { OnOk result (TakesAt (devices B.calls W.calls C.tells P.calls S.calls)
        (connection.old ++ piece.now) connection.new (at room.old desk.old) (at room.new desk.new)) }
    ensures undecided { OnOk result (IsUndecided connection.new) }
    ensures ends { IfErr result (λ f. FaultsAt (devices B.calls W.calls C.tells P.calls S.calls)
        (connection.old ++ piece.now) f (at room.old desk.old) (at room.new desk.new)) }
{
    push_repaired_watched(alloc, desk, witness, connection, piece, room)
}

/// Takes a piece of a connection's input as `Connection::push` does, has each item answered as the
/// players of the configuration mean it, and tells the witness of each request that was answered. Of
/// the desk only what its seat has seen of the book matters for the next piece, so each piece may have
/// devices that are lent for it alone.
pub fn push_understood<
    R: Wait,
    B: Binder,
    W: Words,
    C: Clock,
    P: Plays,
    S: Shares,
    N: Numbers,
    T: Witness,
>(
    alloc: Global,
    desk: &mut Desk<'_, R, B, W, C, P, S, N>,
    witness: &T,
    input: &mut Connection,
    piece: &[u8],
    room: &mut Room,
) -> Result<(), MessageFault>
    ensures same { SameParts desk.old desk.new }
    ensures goes_on { OnOk result (TakesPiece (devices B.calls W.calls C.tells P.calls S.calls)
        (input.old ++ piece.now) input.new (serves desk.old room.old) (serves desk.new room.new)) }
    ensures undecided { OnOk result (IsUndecided input.new) }
    ensures ends { IfErr result (λ f. FaultsPiece (devices B.calls W.calls C.tells P.calls S.calls)
        (input.old ++ piece.now) f (serves desk.old room.old) (serves desk.new room.new)) }
{
    match desk.table.server().players {
        Players::Strict => push_strict(alloc, desk, witness, input, piece, room),
        Players::Gstreamer => push_repaired(alloc, desk, witness, input, piece, room),
    }
}
