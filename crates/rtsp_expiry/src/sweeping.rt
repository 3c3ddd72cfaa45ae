//! Sweeps over the lock.

ghost use Rattle.std.specs.Prelude.{◌≡◌, true, false};
ghost use Rattle.rtsp_book.specs.declared.steps.Step.TheVariants.{Expire, Hangup};
ghost use Rattle.rtsp_lock.specs.Calls.{seat_view, IsSeatOf, SameSeat};
ghost use Rattle.rtsp_admit.specs.Runs.{state_of};
ghost use Rattle.rtsp_expiry.specs.Sweeps.{IsSweeping, Sweeps, session_in};
ghost use Rattle.rtsp_expiry.specs.Endings.{EndsExpired, NoneExpired, EndsOn, NoneOn};

use crate::swept::Swept;
use rtsp_admit::{Binder, unbind_freed};
use rtsp_book::{Receipt, Step};
use rtsp_lock::{BookLock, BookSeat, Numbers};
use rtsp_record::Record;
use std::sync::Wait;

// The session that the records of a step are about.
fn session_in(made: &[Record]) -> Option<u64>
    ensures { result ≡ session_in made.now }
{
    match made.first() {
        Some(first) => Some(first.session()),
        None => None,
    }
}

// Acts the step until nothing is due, or until it was accepted `limit` times, and unbinds the ports
// that each step freed.
#[tactic(auto, using(crate::proofs::Finding::askable))]
fn act_all<R: Wait, N: Numbers, B: Binder>(
    rt: &R,
    seat: &mut BookSeat,
    lock: &BookLock<N>,
    binder: &mut B,
    step: &Step,
    limit: u32,
) -> Swept
    requires own { IsSeatOf seat.old lock.now }
    requires step { IsSweeping step.now }
    ensures same { SameSeat seat.old seat.new }
    ensures run { Sweeps B.calls step.now limit result (state_of seat.old binder.old) (state_of seat.new binder.new) }
{
    let mut made = Receipt::new();
    let mut last = None;
    for ended in 0..limit {
        match seat.act_into(rt, lock, step, &mut made) {
            Ok(()) => {
                unbind_freed(binder, &made);
                last = session_in(made.records());
            }
            Err(_) => {
                return Swept {
                    ended,
                    more: false,
                    last,
                };
            }
        }
    }
    Swept {
        ended: limit,
        more: true,
        last,
    }
}

/// Ends sessions whose expiry is at most `now`, in milliseconds, the least number first, and
/// unbinds the ports that each frees. It ends at most `limit` sessions; then there may be more.
/// Otherwise none that has expired is left in the journal last seen.
pub fn sweep<R: Wait, N: Numbers, B: Binder>(
    rt: &R,
    seat: &mut BookSeat,
    lock: &BookLock<N>,
    binder: &mut B,
    now: u64,
    limit: u32,
) -> Swept
    requires { IsSeatOf seat.old lock.now }
    ensures same { SameSeat seat.old seat.new }
    ensures run { Sweeps B.calls (Expire now) limit result (state_of seat.old binder.old) (state_of seat.new binder.new) }
    ensures ended { EndsExpired now result.ended (seat_view seat.old) (seat_view seat.new) }
    ensures none { result.more ≡ false → NoneExpired now (seat_view seat.new) }
{
    act_all(rt, seat, lock, binder, &Step::Expire { now }, limit)
}

/// Takes leave of a connection that has ended: ends the sessions that hold channels of it, takes
/// its startup numbers away from the others, the least session first, and unbinds the ports that
/// each frees. It takes at most `limit` steps; then there may be more. Otherwise no session is on
/// the connection in the journal last seen.
pub fn hang_up<R: Wait, N: Numbers, B: Binder>(
    rt: &R,
    seat: &mut BookSeat,
    lock: &BookLock<N>,
    binder: &mut B,
    conn: u64,
    limit: u32,
) -> Swept
    requires { IsSeatOf seat.old lock.now }
    ensures same { SameSeat seat.old seat.new }
    ensures run { Sweeps B.calls (Hangup conn) limit result (state_of seat.old binder.old) (state_of seat.new binder.new) }
    ensures ended { EndsOn conn result.ended (seat_view seat.old) (seat_view seat.new) }
    ensures none { result.more ≡ false → NoneOn conn (seat_view seat.new) }
{
    act_all(rt, seat, lock, binder, &Step::Hangup { conn }, limit)
}
