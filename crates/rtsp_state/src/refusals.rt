//! Responses that refuse, written into room.

ghost use Rattle.std.specs.Prelude.{◌≡◌, ◌≤◌, ◌+◌, ◌++◌, [], length};
ghost use Rattle.rtsp_grammar.specs.Writing.{headers_text, response_text};
ghost use Rattle.rtsp_state.specs.Room.{Takes};
ghost use Rattle.rtsp_state.specs.Lines.{start_lines};
ghost use Rattle.rtsp_state.specs.Response.{response, status_lines, refused, refusal_response};
ghost use Rattle.rtsp_state.specs.declared.fault.Fault.TheVariants as faults;

use crate::headers::{put_accept_ranges, put_allow, put_end, put_response_start, put_unsupported};
use crate::response_start::ResponseStart;
use crate::room::Room;
use crate::status::{Status, status_of};
use crate::status_line::put_status_line;
use rtsp_book::Refusal;

// The header that a status brings along.
#[tactic(auto, using(crate::proofs::MessageLemmas::headers_nothing))]
fn put_status_headers(room: &mut Room, status: Status)
    requires { 67 ≤ room.old.spare }
    ensures text { room.new.text ≡ room.old.text ++ headers_text (status_lines status) }
    ensures room { Takes room.old room.new 67 }
{
    match status {
        Status::MethodNotValid => put_allow(room),
        Status::HeaderNotValid => put_accept_ranges(room),
        _ => {}
    }
}

/// A response that has its first headers alone.
pub fn write_plain(room: &mut Room, start: ResponseStart, status: Status)
    requires { 144 ≤ room.old.spare }
    ensures text { room.new.text ≡ room.old.text ++ response_text (response status (start_lines start) []) }
    ensures room { Takes room.old room.new 144 }
{
    put_status_line(room, status);
    put_response_start(room, start);
    put_end(room);
}

/// The response that refuses by a status.
pub fn write_refused(room: &mut Room, start: ResponseStart, status: Status)
    requires { 211 ≤ room.old.spare }
    ensures text { room.new.text ≡ room.old.text ++ response_text (refused start (faults.Refused status)) }
    ensures room { Takes room.old room.new 211 }
{
    put_status_line(room, status);
    put_response_start(room, start);
    put_status_headers(room, status);
    put_end(room);
}

/// The response that refuses option tags.
pub fn write_unsupported(room: &mut Room, start: ResponseStart, tags: &[u8])
    requires { length tags.now + 164 ≤ room.old.spare }
    ensures text { room.new.text ≡ room.old.text ++ response_text (refused start (faults.Unsupported tags.now)) }
    ensures room { Takes room.old room.new (length tags.now + 164) }
{
    put_status_line(room, Status::OptionNotSupported);
    put_response_start(room, start);
    put_unsupported(room, tags);
    put_end(room);
}

/// What a refused step is answered by: a session that is gone isn't shown.
pub fn refusal_of(start: ResponseStart, refusal: Refusal) -> (ResponseStart, Status)
    ensures { refused result.0 (faults.Refused result.1) ≡ refusal_response start refusal }
{
    match refusal {
        Refusal::NoSession => (start.without_session(), Status::SessionNotFound),
        other => (start, status_of(other)),
    }
}

/// The response to a refused step.
pub fn write_refused_step(room: &mut Room, start: ResponseStart, refusal: Refusal)
    requires { 211 ≤ room.old.spare }
    ensures text { room.new.text ≡ room.old.text ++ response_text (refusal_response start refusal) }
    ensures room { Takes room.old room.new 211 }
{
    let (start, status) = refusal_of(start, refusal);
    write_refused(room, start, status);
}
