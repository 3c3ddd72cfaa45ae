//! The packet of one unit.

ghost use Rattle.std.specs.Prelude.{◌≡◌, ◌≤◌, ◌+◌, length};
ghost use Rattle.rtsp_record.specs.Moments.{sent_before};
ghost use Rattle.rtsp_content.specs.declared.limits.TheConstants.{MAX_OCTETS};
ghost use Rattle.rtsp_rtp.specs.Packets.{source_of, packet_of};

use crate::buffer::Packet;
use crate::play::sent_before;
use crate::source::Source;
use rtsp_content::Track;
use rtsp_record::{Phase, Stream};

/// The packet of the unit `i`, from 0, of a play in this phase, with a payload of at most 1,400
/// bytes. Sequence numbers and timestamps go on from earlier plays of the session.
pub fn packet(track: &Track, stream: &Stream, phase: &Phase, i: u32, payload: &[u8]) -> Packet
    requires { length payload.now ≤ MAX_OCTETS }
    ensures { result ≡ packet_of (source_of track.now stream.now) (sent_before phase.now + i) payload.now }
{
    let source = Source::of(track, stream);
    let mut packet = Packet::new();
    packet.put(&source, sent_before(phase).wrapping_add(i), payload);
    packet
}
