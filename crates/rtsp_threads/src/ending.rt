//! Ends a session because whoever runs the server asks for it.

ghost use Rattle.std.specs.Prelude.{◌≡◌};
ghost use Rattle.std.specs.Arc.{arc_value};
ghost use Rattle.rtsp_lock.specs.Calls.{SameSeat};
ghost use Rattle.rtsp_admit.specs.Runs.{state_of};
ghost use Rattle.rtsp_threads.specs.Ending.{EndsSession};

use rtsp_admit::unbind_freed;
use rtsp_book::{Receipt, Step};
use rtsp_engine::Binder;
use rtsp_lock::BookHandle;
use std::sync::Wait;

/// Ends a session by the step of a TEARDOWN. The binder unbinds what it had. Whether there was such a
/// session.
pub fn end_session<R: Wait, B: Binder>(
    rt: &R,
    handle: &mut BookHandle,
    binder: &mut B,
    session: u64,
) -> bool
    ensures same { SameSeat handle.old.seat handle.new.seat }
    ensures lock { arc_value handle.new.lock ≡ arc_value handle.old.lock }
    ensures ended { EndsSession B.calls session (state_of handle.old.seat binder.old) (state_of handle.new.seat binder.new) result }
{
    let mut made = Receipt::new();
    let step = Step::End { session };
    let ended = handle.seat.act_into(rt, &handle.lock, &step, &mut made);
    if ended.is_err() {
        return false;
    }
    unbind_freed(binder, &made);
    true
}
