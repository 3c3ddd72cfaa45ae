//! The first line of a response (RFC 7826 section 8.1).

ghost use Rattle.std.specs.Prelude.{◌≡◌, ◌≤◌, ◌++◌, length};
ghost use Rattle.rtsp_state.specs.Room.{Takes};
ghost use Rattle.rtsp_state.specs.FixedText.{status_line};

use crate::room::Room;
use crate::status::Status;

#[tactic(auto, unfolding(crate::specs::FixedText::status_line))]
fn status_line(status: Status) -> &'static [u8]
    ensures text { result.now ≡ status_line status }
    ensures short { length result.now ≤ 60 }
{
    match status {
        Status::Success => b"RTSP/2.0 200 OK\r\n",
        Status::BadRequest => b"RTSP/2.0 400 Bad Request\r\n",
        Status::NotFound => b"RTSP/2.0 404 Not Found\r\n",
        Status::ParameterNotUnderstood => b"RTSP/2.0 451 Parameter Not Understood\r\n",
        Status::NotEnoughBandwidth => b"RTSP/2.0 453 Not Enough Bandwidth\r\n",
        Status::SessionNotFound => b"RTSP/2.0 454 Session Not Found\r\n",
        Status::MethodNotValid => b"RTSP/2.0 455 Method Not Valid in This State\r\n",
        Status::HeaderNotValid => b"RTSP/2.0 456 Header Field Not Valid for Resource\r\n",
        Status::InvalidRange => b"RTSP/2.0 457 Invalid Range\r\n",
        Status::AggregateNotAllowed => b"RTSP/2.0 459 Aggregate Operation Not Allowed\r\n",
        Status::OnlyAggregateAllowed => b"RTSP/2.0 460 Only Aggregate Operation Allowed\r\n",
        Status::UnsupportedTransport => b"RTSP/2.0 461 Unsupported Transport\r\n",
        Status::DestinationProhibited => b"RTSP/2.0 463 Destination Prohibited\r\n",
        Status::ServerError => b"RTSP/2.0 500 Internal Server Error\r\n",
        Status::NotImplemented => b"RTSP/2.0 501 Not Implemented\r\n",
        Status::Unavailable => b"RTSP/2.0 503 Service Unavailable\r\n",
        Status::VersionNotSupported => b"RTSP/2.0 505 RTSP Version Not Supported\r\n",
        Status::OptionNotSupported => b"RTSP/2.0 551 Option Not Supported\r\n",
    }
}

/// Writes the first line.
pub fn put_status_line(room: &mut Room, status: Status)
    requires { 60 ≤ room.old.spare }
    ensures text { room.new.text ≡ room.old.text ++ status_line status }
    ensures room { Takes room.old room.new 60 }
{
    room.put(status_line(status));
}
