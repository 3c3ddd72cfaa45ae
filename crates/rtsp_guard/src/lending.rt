//! Takes the input of a player at a desk of parts that are lent for one piece, behind a gate.

ghost use Rattle.std.specs.Prelude.{◌++◌, IfErr, OnOk};
ghost use Rattle.rtsp_grammar.specs.Answer.{IsUndecided};
ghost use Rattle.rtsp_lock.specs.Calls.{IsSeatOf, SameSeat};
ghost use Rattle.rtsp_traits.specs.Devices.{devices};
ghost use Rattle.rtsp_guard.specs.Understanding.{TakesPiece, FaultsPiece, LeavesTaken, LeavesFaulted, gathered};

use crate::porter::Porter;
use crate::understanding::push_understood;
use rtsp_book::Receipt;
use rtsp_content::Table;
use rtsp_credentials::{Gate, Users};
use rtsp_engine::{Asker, Binder, Clock, Connection, Desk, Plays, Shares, Words};
use rtsp_grammar::MessageFault;
use rtsp_lock::{BookLock, BookSeat, Numbers};
use rtsp_state::Room;
use rtsp_watch::Witness;
use std::alloc::Global;
use std::sync::Wait;

/// Takes a piece as `push_understood` does, at a desk of parts that are lent for it alone. Of a SETUP
/// that is let through and refused nothing is left where all seats of the lock use numbers that they
/// drew.
pub fn push_lent<
    'a,
    R: Wait,
    B: Binder,
    W: Words,
    C: Clock,
    P: Plays,
    S: Shares,
    N: Numbers,
    T: Porter + Witness,
>(
    rt: &'a R,
    alloc: Global,
    gate: &mut Gate,
    users: &Users,
    seat: &'a mut BookSeat,
    lock: &'a BookLock<N>,
    made: &'a mut Receipt,
    binder: &'a mut B,
    words: &'a mut W,
    clock: &'a mut C,
    plays: &'a mut P,
    shares: &'a mut S,
    table: &'a Table,
    asker: Asker,
    witness: &T,
    input: &mut Connection,
    piece: &[u8],
    room: &mut Room,
) -> Result<(), MessageFault>
    requires { IsSeatOf seat.old lock.now }
    ensures same { SameSeat seat.old seat.new }
    ensures goes_on { OnOk result (TakesPiece (devices B.calls W.calls C.tells P.calls S.calls)
        (input.old ++ piece.now) input.new
        (gathered gate.old users.now table.now asker seat.old room.old)
        (gathered gate.new users.now table.now asker seat.new room.new)) }
    ensures undecided { OnOk result (IsUndecided input.new) }
    ensures ends { IfErr result (λ f. FaultsPiece (devices B.calls W.calls C.tells P.calls S.calls)
        (input.old ++ piece.now) f
        (gathered gate.old users.now table.now asker seat.old room.old)
        (gathered gate.new users.now table.now asker seat.new room.new)) }
    ensures clean { OnOk result (LeavesTaken (devices B.calls W.calls C.tells P.calls S.calls)
        (input.old ++ piece.now) input.new
        (gathered gate.old users.now table.now asker seat.old room.old)
        (gathered gate.new users.now table.now asker seat.new room.new)) }
    ensures clean_end { IfErr result (λ f. LeavesFaulted (devices B.calls W.calls C.tells P.calls S.calls)
        (input.old ++ piece.now) f
        (gathered gate.old users.now table.now asker seat.old room.old)
        (gathered gate.new users.now table.now asker seat.new room.new)) }
{
    let mut desk = Desk {
        rt,
        seat,
        lock,
        made,
        binder,
        words,
        clock,
        plays,
        shares,
        table,
        asker,
    };
    push_understood(alloc, gate, users, &mut desk, witness, input, piece, room)
}
