//! RTCP that comes over a connection, which is a sign of life of the session that plays over it.

ghost use Rattle.std.specs.Prelude.{◌≡◌, ◌≤◌};
ghost use Rattle.rtsp_lock.specs.Calls.{seat_view, IsSeatOf, SameSeat};
ghost use Rattle.rtsp_state.specs.Context.{expiry};
ghost use Rattle.rtsp_state.specs.Renewal.{later_by};
ghost use Rattle.rtsp_pacing.specs.Reports.{report_step, is_rtcp_of, has_rtcp, report_end, Hears};

use rtsp_book::{SessionView, Step};
use rtsp_content::{Server, Table};
use rtsp_lock::{BookLock, BookSeat, Name, Numbers};
use rtsp_record::Thing;
use std::sync::Wait;

/// A frame that came on a channel of a connection, at a moment in milliseconds.
#[derive(Clone, Copy, PartialEq, Eq)]
pub struct Report {
    pub conn: u64,
    pub channel: u8,
    pub moment: u64,
}

/// The least number of milliseconds by which a report moves the end of its session. So of the reports
/// that come within that time one alone need be heard.
pub fn report_step(server: &Server) -> u64
    ensures { result ≡ report_step server.now }
{
    u64::from(server.renewal_step).max(200 * u64::from(server.timeout))
}

// Whether the address is a pair of channels of the report's connection, the second of which is the
// report's channel.
fn is_rtcp_of(report: Report, address: Option<Thing>) -> bool
    ensures { result ≡ is_rtcp_of report address }
{
    match address {
        Some(Thing::Chan(conn, first)) => {
            conn == report.conn && u16::from(first) + 1 == u16::from(report.channel)
        }
        _ => false,
    }
}

// Whether the report's channel is RTCP's of what the session holds.
fn has_rtcp(report: Report, view: &SessionView) -> bool
    ensures { result ≡ has_rtcp report view.now.1 }
{
    let admissions = view.admissions();
    for place in 0..admissions.len() {
        let (_, admission) = admissions.at(place);
        if is_rtcp_of(report, admission.address) {
            return true;
        }
    }
    false
}

// The end of a session that is renewed at a moment, with a timeout in seconds.
#[tactic(auto, unfolding(rtsp_state::specs::Context::expiry))]
fn expiry(moment: u64, timeout: u32) -> u64
    ensures { result ≡ expiry moment timeout }
{
    moment.saturating_add(u64::from(timeout) * 1000)
}

// A new end of a session, where it is later than the old one by the step at least.
fn later_by(step: u64, expires: u64, until: u64) -> Option<u64>
    requires { 1 ≤ step }
    ensures { result ≡ later_by step expires until }
{
    if until.saturating_sub(expires) >= step {
        Some(until)
    } else {
        None
    }
}

// The end that a report gives a session.
fn report_end(server: &Server, report: Report, view: &SessionView) -> Option<u64>
    requires { 1 ≤ server.now.timeout }
    ensures { result ≡ report_end server.now report view.now.1 }
{
    if !has_rtcp(report, view) {
        return None;
    }
    let until = expiry(report.moment, server.timeout);
    later_by(report_step(server), view.expires(), until)
}

/// Hears a report about the session of this number: where the channel is RTCP's of one of its
/// streams, the session lives for the timeout from then on. Where the book refuses the renewal, the
/// session's end stays.
pub fn hear<R: Wait, N: Numbers>(
    rt: &R,
    seat: &mut BookSeat,
    lock: &BookLock<N>,
    table: &Table,
    session: u64,
    report: Report,
)
    requires { IsSeatOf seat.old lock.now }
    ensures same { SameSeat seat.old seat.new }
    ensures hears { Hears table.now.server session report (seat_view seat.old) (seat_view seat.new) }
{
    let Some(view) = seat.look(rt, lock, Name::Number(session)) else {
        return;
    };
    if let Some(until) = report_end(&table.server(), report, &view) {
        let session = view.session();
        let _ = seat.act(rt, lock, &Step::Touch { session, until });
    }
}
