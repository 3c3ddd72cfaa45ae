//! Ends sessions whose connection has ended, or whose time is over, or that are left at the end.

ghost use Rattle.std.specs.Prelude.{◌≡◌, ℕ, false, IfSome};
ghost use Rattle.std.specs.FinMap.{empty};
ghost use Rattle.std.specs.Arc.{arc_value};
ghost use Rattle.rtsp_record.specs.Books.{book_of};
ghost use Rattle.rtsp_book.specs.declared.steps.Step.TheVariants.{Expire, Hangup};
ghost use Rattle.rtsp_lock.specs.Calls.{seat_view, SameSeat};
ghost use Rattle.rtsp_admit.specs.Runs.{state_of};
ghost use Rattle.rtsp_expiry.specs.Sweeps.{Sweeps};
ghost use Rattle.rtsp_expiry.specs.Endings.{NoneExpired, NoneOn};
ghost use Rattle.rtsp_threads.specs.Leaving.{EndsNext, SweepsAll};

use crate::lane_shares::LaneShares;
use crate::limits::SWEEP_SESSIONS;
use rtsp_book::Kept;
use rtsp_engine::Binder;
use rtsp_expiry::{Swept, end_all, hang_up, sweep};
use rtsp_lock::{BookHandle, LockBook};
use std::sync::{Arc, Wait};

// Takes leave of a connection in one step, by which one of its sessions is ended, or left without a
// startup number.
fn hang_up_once<R: Wait, B: Binder>(
    rt: &R,
    handle: &mut BookHandle,
    binder: &mut B,
    conn: u64,
) -> Swept
    ensures same { SameSeat handle.old.seat handle.new.seat }
    ensures lock { arc_value handle.new.lock ≡ arc_value handle.old.lock }
    ensures run { (limit : ℕ) × Sweeps B.calls (Hangup conn) limit result (state_of handle.old.seat binder.old) (state_of handle.new.seat binder.new) }
    ensures none { result.more ≡ false → NoneOn conn (seat_view handle.new.seat) }
{
    hang_up(rt, &mut handle.seat, &handle.lock, binder, conn, 1)
}

// Ends sessions that have expired, a few of them.
fn sweep_some<R: Wait, B: Binder>(
    rt: &R,
    handle: &mut BookHandle,
    binder: &mut B,
    now: u64,
) -> Swept
    ensures same { SameSeat handle.old.seat handle.new.seat }
    ensures lock { arc_value handle.new.lock ≡ arc_value handle.old.lock }
    ensures run { (limit : ℕ) × Sweeps B.calls (Expire now) limit result (state_of handle.old.seat binder.old) (state_of handle.new.seat binder.new) }
    ensures none { result.more ≡ false → NoneExpired now (seat_view handle.new.seat) }
{
    sweep(
        rt,
        &mut handle.seat,
        &handle.lock,
        binder,
        now,
        SWEEP_SESSIONS,
    )
}

/// Takes leave of a connection that has ended: the sessions that hold channels of it are ended. The
/// binder unbinds what they had, and each one's place is given back as it ends. Whether a session may
/// have ended.
pub fn take_leave<R: Wait, B: Binder>(
    rt: &R,
    handle: &mut BookHandle,
    binder: &mut B,
    conn: u64,
    shares: &mut LaneShares<'_, R>,
) -> bool
    ensures same { SameSeat handle.old.seat handle.new.seat }
    ensures lock { arc_value handle.new.lock ≡ arc_value handle.old.lock }
    ensures run { SweepsAll B.calls (Hangup conn) (state_of handle.old.seat binder.old) (state_of handle.new.seat binder.new) }
    ensures none { NoneOn conn (seat_view handle.new.seat) }
{
    let mut has_ended = false;
    for _ in rt.forever() {
        let swept = hang_up_once(rt, handle, binder, conn);
        shares.end_unless_living(swept.last);
        has_ended = has_ended || swept.ended > 0;
        if !swept.more {
            return has_ended;
        }
    }
    unreachable!()
}

/// Ends the session of the least number of those that have expired at this moment, in milliseconds, and
/// gives its number. The binder unbinds what it had. `None` where none has expired.
pub fn end_next_expired<R: Wait, B: Binder>(
    rt: &R,
    handle: &mut BookHandle,
    binder: &mut B,
    now: u64,
) -> Option<u64>
    ensures same { SameSeat handle.old.seat handle.new.seat }
    ensures lock { arc_value handle.new.lock ≡ arc_value handle.old.lock }
    ensures ends { EndsNext B.calls now result (state_of handle.old.seat binder.old) (state_of handle.new.seat binder.new) }
{
    sweep(rt, &mut handle.seat, &handle.lock, binder, now, 1).last
}

/// Ends all sessions that have expired at this moment, in milliseconds. The binder unbinds what they
/// had. How many have ended.
pub fn end_expired<R: Wait, B: Binder>(
    rt: &R,
    handle: &mut BookHandle,
    binder: &mut B,
    now: u64,
) -> u64
    ensures same { SameSeat handle.old.seat handle.new.seat }
    ensures lock { arc_value handle.new.lock ≡ arc_value handle.old.lock }
    ensures run { SweepsAll B.calls (Expire now) (state_of handle.old.seat binder.old) (state_of handle.new.seat binder.new) }
    ensures none { NoneExpired now (seat_view handle.new.seat) }
{
    let mut ended = 0u64;
    for _ in rt.forever() {
        let swept = sweep_some(rt, handle, binder, now);
        ended = ended.saturating_add(u64::from(swept.ended));
        if !swept.more {
            return ended;
        }
    }
    unreachable!()
}

/// Ends the sessions that are left, once no thread serves them any more, and gives the book up. `None`
/// where another thread has a handle still, or the numbers are used up.
pub fn close_book<R: Wait, B: Binder>(
    rt: &R,
    mut handle: BookHandle,
    binder: &mut B,
) -> Option<Kept<LockBook>>
    ensures { IfSome result (λ k. book_of k.journal ≡ empty) }
{
    end_expired(rt, &mut handle, binder, u64::MAX);
    let actor = handle.draw(rt)?;
    let BookHandle { lock, mut seat } = handle;
    let lock = Arc::into_inner(lock)?;
    let mut kept = seat.finish(rt, lock);
    end_all(rt, &mut kept, actor);
    Some(kept)
}
