//! Where the packets of a play get their media, and where they go.

ghost use Rattle.std.specs.Prelude.{OnOk, OnErr};
ghost use Rattle.rtsp_rtp.specs.Sinks.{Calls, Took, Sent, Refused, Reported, Failed};

use crate::buffer::Packet;
use crate::part::SlotFault;
use thiserror::Error;

/// Media that can't be had.
#[derive(Clone, Copy, Debug, PartialEq, Eq, Error)]
#[error("the packet can't be sent")]
pub struct SinkFault;

/// Where the packets of a play get their media, and where they go. Tracks are named by their place
/// in the presentation, from 0.
pub trait Sink {
    /// What each call does to a sink, and how many calls have failed, up to the greatest `u64`.
    ghost calls: { Calls Self };

    /// Fills `out` with the octets of a unit of a track's media.
    fn octets(&mut self, track: u16, unit: u32, out: &mut [u8]) -> Result<(), SinkFault>
        ensures ok { OnOk result (Took calls track unit out.new self.old self.new) }
        ensures err { OnErr result (Failed calls self.old self.new) };

    /// Sends a packet of a track: as a datagram, or as a frame of a channel.
    fn send(&mut self, track: u16, packet: &mut Packet)
        ensures { Sent calls track packet.old self.old self.new };

    /// Hears that what is left of a unit of a track is malformed, and isn't sent.
    fn refuse(&mut self, track: u16, unit: u32, fault: SlotFault)
        ensures { Refused calls track unit fault self.old self.new };

    /// Sends a sender report of a track, which is RTCP: as a datagram, or as a frame of a channel.
    fn report(&mut self, track: u16, packet: &mut Packet)
        ensures { Reported calls track packet.old self.old self.new };
}
