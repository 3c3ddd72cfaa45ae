//! RTCP by which the streams of a play end.

ghost use Rattle.std.specs.Prelude.{◌≡◌, ℕ, List};
ghost use Rattle.rtsp_rtp.specs.Goodbyes.{goodbye_of, SaysGoodbye};

use crate::buffer::Packet;
use crate::source::Source;

/// Where the RTCP of a play goes. Tracks are named by their place in the presentation, from 0.
pub trait ControlSink {
    /// A sink before and after it sent an RTCP packet of a track.
    ghost sends: { Self → ℕ → List ℕ → Self → Type 0 };

    /// Sends an RTCP packet of a track: as a datagram, or as a frame of a channel.
    fn send_control(&mut self, track: u16, packet: &mut Packet)
        ensures { sends self.old track packet.old self.new };
}

// The compound packet by which a source leaves.
fn goodbye(ssrc: u32) -> [u8; 32]
    ensures { result ≡ goodbye_of ssrc }
{
    let [a, b, c, d] = ssrc.to_be_bytes();
    [
        0x80, 201, 0, 1, a, b, c, d, // A receiver report without blocks,
        0x81, 202, 0, 3, a, b, c, d, 1, 5, b'r', b't', b's', b'p', b'd', 0, // the name,
        0x81, 203, 0, 1, a, b, c, d, // and the end.
    ]
}

// Says goodbye for each of the sources, one after another.
pub(crate) fn say_goodbye<S: ControlSink>(sources: &[Source], packet: &mut Packet, sink: &mut S)
    ensures { SaysGoodbye S.sends sources.now sink.old sink.new }
{
    for source in sources {
        packet.put_whole(&goodbye(source.ssrc));
        sink.send_control(source.track, packet);
    }
}
