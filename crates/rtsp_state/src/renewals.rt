//! The renewal of the session that a request names.

ghost use Rattle.std.specs.Prelude.{◌≡◌, ◌≤◌};
ghost use Rattle.rtsp_state.specs.Renewal.{later_by, renewal, renewal_refused};

use crate::context::expiry;
use crate::method::Method;
use crate::reply::Reply;
use crate::request::ParsedRequest;
use crate::response_start::ResponseStart;
use rtsp_book::{Refusal, SessionView};
use rtsp_content::Table;

// A new end of a session, where it is later than the old one by the step at least. All in
// milliseconds.
fn later_by(step: u32, expires: u64, until: u64) -> Option<u64>
    requires { 1 ≤ step }
    ensures { result ≡ later_by step expires until }
{
    if until.saturating_sub(expires) >= u64::from(step) {
        Some(until)
    } else {
        None
    }
}

/// The moment, in milliseconds, to which a request renews the living session that it names, before
/// the request is decided: the one at which the configuration's timeout ends, counted from now.
/// There is none for TEARDOWN, nor where the session's end would move by less than the
/// configuration's `renewal_step`. Where the book refuses the renewal (`Step::Touch`), the request
/// ends with `renewal_refused`.
#[tactic(auto, unfolding(crate::specs::Renewal::renewal))]
pub fn renewal(
    request: &ParsedRequest<'_>,
    table: &Table,
    view: &SessionView,
    moment: u64,
) -> Option<u64>
    ensures { result ≡ renewal table.now request.now view.now moment }
{
    let server = table.server();
    match request.method {
        Method::Teardown => None,
        _ => later_by(
            server.renewal_step,
            view.expires(),
            expiry(moment, server.timeout),
        ),
    }
}

/// The response to a request whose renewal was refused.
#[tactic(auto, unfolding(crate::specs::Renewal::renewal_refused))]
pub fn renewal_refused(request: &ParsedRequest<'_>, view: &SessionView, refusal: Refusal) -> Reply
    ensures { result ≡ renewal_refused request.now view.now refusal }
{
    let start = ResponseStart {
        cseq: request.cseq,
        session: Some(view.id()),
    };
    Reply::refused_step(start, refusal)
}
