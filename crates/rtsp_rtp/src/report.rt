//! The report of a stream.

ghost use Rattle.std.specs.Prelude.{◌≡◌};
ghost use Rattle.rtsp_rtp.specs.Reports.{report_of};

use crate::sender_state::SenderState;
use crate::source::Source;

// The compound packet by which a source reports, at a moment in milliseconds since the server's
// beginning, what the timestamp is then, and what it has sent.
pub(crate) fn report(source: &Source, wall: u64, timestamp: u32, state: SenderState) -> [u8; 44]
    ensures { result ≡ report_of source.now wall timestamp state }
{
    let [a, b, c, d] = source.ssrc.to_be_bytes();
    let [n0, n1, n2, n3] = ((wall / 1000 % (1 << 31)) as u32).to_be_bytes();
    let [m0, m1, m2, m3] = ((wall % 1000 * 4_294_967) as u32).to_be_bytes();
    let [t0, t1, t2, t3] = timestamp.to_be_bytes();
    let [p0, p1, p2, p3] = state.packets.to_be_bytes();
    let [o0, o1, o2, o3] = state.octets.to_be_bytes();
    [
        0x80, 200, 0, 6, a, b, c, d, // A sender report without blocks:
        n0, n1, n2, n3, m0, m1, m2, m3, t0, t1, t2, t3, // the moment and the timestamp,
        p0, p1, p2, p3, o0, o1, o2, o3, // the packets and octets so far,
        0x81, 202, 0, 3, a, b, c, d, 1, 5, b'r', b't', b's', b'p', b'd', 0, // and the name.
    ]
}
