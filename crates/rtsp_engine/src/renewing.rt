//! Looks the session of a request up, and renews it.

ghost use Rattle.std.specs.Prelude.{◌≡◌, IsSome, IfSome, OnOk, IfErr};
ghost use Rattle.rtsp_lock.specs.Calls.{seat_view, IsSeatOf, SameSeat};
ghost use Rattle.rtsp_engine.specs.Desk.{served};
ghost use Rattle.rtsp_engine.specs.Renewing.{lock_name, Looks, RenewsTo, Renews, RefusedRenewal, RefusesRenewal};

use crate::desk::Asker;
use rtsp_book::{Receipt, SessionView, Startup, Step};
use rtsp_content::Table;
use rtsp_lock::{BookLock, BookSeat, Name as LockName, Numbers};
use rtsp_state::{Name, ParsedRequest, Reply, renewal, renewal_refused};
use std::sync::Wait;

// A startup number is one of the connection.
fn lock_name(conn: u64, name: Name) -> LockName
    ensures { result ≡ lock_name conn name }
{
    match name {
        Name::Id(id) => LockName::Id(id),
        Name::Startup(number) => LockName::Startup(Startup { conn, number }),
    }
}

// Puts the living session of a name into the place.
pub(crate) fn look<R: Wait, N: Numbers>(
    rt: &R,
    seat: &mut BookSeat,
    lock: &BookLock<N>,
    conn: u64,
    name: Option<Name>,
    found: &mut Option<SessionView>,
)
    requires { IsSeatOf seat.old lock.now }
    ensures same { SameSeat seat.old seat.new }
    ensures looks { Looks conn name found.new (seat_view seat.old) (seat_view seat.new) }
{
    match name {
        Some(name) => seat.look_into(rt, lock, lock_name(conn, name), found),
        None => *found = None,
    }
}

// Renews the session that was found to this moment, and looks it up again where that was recorded.
fn renew_until<R: Wait, N: Numbers>(
    rt: &R,
    seat: &mut BookSeat,
    lock: &BookLock<N>,
    conn: u64,
    request: &ParsedRequest<'_>,
    until: u64,
    found: &mut Option<SessionView>,
    made: &mut Receipt,
) -> Result<(), Reply>
    requires own { IsSeatOf seat.old lock.now }
    requires lives { IsSome found.old }
    ensures same { SameSeat seat.old seat.new }
    ensures ok { IfSome found.old (λ view. OnOk result (
        RenewsTo conn request.now.name view until found.old found.new (seat_view seat.old) (seat_view seat.new))) }
    ensures err { IfSome found.old (λ view. IfErr result (λ r. RefusedRenewal request.now view until r (seat_view seat.old) (seat_view seat.new))) }
{
    let Some(view) = found.as_ref() else {
        unreachable!()
    };
    let touch = Step::Touch {
        session: view.session(),
        until,
    };
    match seat.act_into(rt, lock, &touch, made) {
        Ok(()) => {
            if made.records().is_empty() {
                return Ok(());
            }
            look(rt, seat, lock, conn, request.session_name(), found);
            Ok(())
        }
        Err(refusal) => Err(renewal_refused(request, view, refusal)),
    }
}

// Renews the session that was found, where it is to be renewed. Afterwards `found` is as the session
// then is. A refused renewal is answered at once.
pub(crate) fn renew<R: Wait, N: Numbers>(
    rt: &R,
    seat: &mut BookSeat,
    lock: &BookLock<N>,
    table: &Table,
    asker: Asker,
    request: &ParsedRequest<'_>,
    moment: u64,
    found: &mut Option<SessionView>,
    made: &mut Receipt,
) -> Result<(), Reply>
    requires { IsSeatOf seat.old lock.now }
    ensures same { SameSeat seat.old seat.new }
    ensures ok { OnOk result (Renews (served table.now asker) request.now moment found.old found.new (seat_view seat.old) (seat_view seat.new)) }
    ensures err { IfErr result (λ r. RefusesRenewal (served table.now asker) request.now moment found.old r (seat_view seat.old) (seat_view seat.new)) }
{
    let Some(view) = found.as_ref() else {
        return Ok(());
    };
    match renewal(request, table, view, moment) {
        Some(until) => renew_until(rt, seat, lock, asker.conn, request, until, found, made),
        None => Ok(()),
    }
}
