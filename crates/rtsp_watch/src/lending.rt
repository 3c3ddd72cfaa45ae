//! Takes the input of a player at a desk of parts that are lent for one piece.

ghost use Rattle.std.specs.Prelude.{◌++◌, IfErr, OnOk};
ghost use Rattle.rtsp_grammar.specs.Answer.{IsUndecided};
ghost use Rattle.rtsp_lock.specs.Calls.{IsSeatOf, SameSeat};
ghost use Rattle.rtsp_traits.specs.Devices.{devices};
ghost use Rattle.rtsp_watch.specs.Understanding.{TakesPiece, FaultsPiece, LeavesTaken, LeavesFaulted, gathered};

use crate::understanding::push_understood;
use crate::witness::Witness;
use rtsp_book::Receipt;
use rtsp_content::Table;
use rtsp_engine::{
    Asker, Binder, Clock, Connection, Desk, Plays, Shares, Words, law_visited_drawn,
};
use rtsp_grammar::MessageFault;
use rtsp_lock::{BookLock, BookSeat, Numbers};
use rtsp_state::Room;
use std::alloc::Global;
use std::sync::Wait;

/// Takes a piece as `push_understood` does, at a desk of parts that are lent for it alone. Of a SETUP
/// that is refused nothing is left where all seats of the lock use numbers that they drew.
pub fn push_lent<
    'a,
    R: Wait,
    B: Binder,
    W: Words,
    C: Clock,
    P: Plays,
    S: Shares,
    N: Numbers,
    T: Witness,
>(
    rt: &'a R,
    alloc: Global,
    seat: &'a mut BookSeat,
    lock: &'a BookLock<N>,
    made: &'a mut Receipt,
    binder: &'a mut B,
    words: &'a mut W,
    clock: &'a mut C,
    plays: &'a mut P,
    shares: &'a mut S,
    table: &'a Table,
    asker: Asker,
    witness: &T,
    input: &mut Connection,
    piece: &[u8],
    room: &mut Room,
) -> Result<(), MessageFault>
    requires { IsSeatOf seat.old lock.now }
    ensures same { SameSeat seat.old seat.new }
    ensures goes_on { OnOk result (TakesPiece (devices B.calls W.calls C.tells P.calls S.calls)
        (input.old ++ piece.now) input.new
        (gathered table.now asker seat.old room.old) (gathered table.now asker seat.new room.new)) }
    ensures undecided { OnOk result (IsUndecided input.new) }
    ensures ends { IfErr result (λ f. FaultsPiece (devices B.calls W.calls C.tells P.calls S.calls)
        (input.old ++ piece.now) f
        (gathered table.now asker seat.old room.old) (gathered table.now asker seat.new room.new)) }
    ensures clean { OnOk result (LeavesTaken (devices B.calls W.calls C.tells P.calls S.calls)
        (input.old ++ piece.now) input.new
        (gathered table.now asker seat.old room.old) (gathered table.now asker seat.new room.new)) }
    ensures clean_end { IfErr result (λ f. LeavesFaulted (devices B.calls W.calls C.tells P.calls S.calls)
        (input.old ++ piece.now) f
        (gathered table.now asker seat.old room.old) (gathered table.now asker seat.new room.new)) }
{
    law_visited_drawn::<B, W, C, P, S>();
    let mut desk = Desk {
        rt,
        seat,
        lock,
        made,
        binder,
        words,
        clock,
        plays,
        shares,
        table,
        asker,
    };
    push_understood(alloc, &mut desk, witness, input, piece, room)
}
