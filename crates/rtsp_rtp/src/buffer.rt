//! A packet in a buffer of fixed size.

ghost use Rattle.std.specs.Prelude.{◌≡◌, ◌≤◌, ◌++◌, [], length, OnOk, OnErr};
ghost use Rattle.rtsp_grammar.specs.Frame.{frame_text};
ghost use Rattle.rtsp_content.specs.declared.limits.TheConstants.{MAX_OCTETS};
ghost use Rattle.rtsp_rtp.specs.Buffers.{framed, Filled};
ghost use Rattle.rtsp_rtp.specs.Sinks.{Failed};
ghost use Rattle.rtsp_rtp.specs.Packets.{packet_of, marked_header};

use crate::sink::{Sink, SinkFault};
use crate::source::{PacketHeader, Source};
use std::marker::Model;

const DOLLAR: u8 = 0x24;

/// The most bytes of a packet: those of its header and of a unit.
pub const MAX_DATAGRAM: usize = 1412;

// A packet's bytes, and room for the head of a frame in front of them.
pub(crate) const BUFFER: usize = 4 + MAX_DATAGRAM;

/// An RTP packet (RFC 3550 section 5.1) with a payload of at most 1,400 bytes, or an RTCP packet,
/// in a buffer of fixed size. In front of it is room for the head of an interleaved frame, so it is
/// sent either way from where it stands. Its value is the bytes of the datagram.
#[derive(Drop)]
pub struct Packet {
    buffer: [u8; BUFFER],
    len: usize,
}

impl Model for Packet {
    ghost use Rattle.std.specs.Prelude.{ℕ, List, ◌≤◌};
    ghost use Rattle.rtsp_rtp.specs.Buffers.{datagram_in};
    ghost use Rattle.rtsp_rtp.specs.declared.buffer.TheConstants.{MAX_DATAGRAM};

    ghost Value = { List ℕ };

    ghost view = { λ p. datagram_in p.buffer p.len };

    ghost invariant = { λ p. p.len ≤ MAX_DATAGRAM };
}

impl Packet {
    /// A buffer without a packet yet.
    pub fn new() -> Self
        ensures { result ≡ [] }
    {
        Packet {
            buffer: [0; BUFFER],
            len: 0,
        }
    }

    /// The packet as it is sent over UDP.
    pub fn datagram(&self) -> &[u8]
        ensures value { result.now ≡ self.now }
        ensures short { length result.now ≤ 1412 }
    {
        &self.buffer[4..4 + self.len]
    }

    /// The packet as a frame of a channel (RFC 7826 section 14). It stands where the datagram does.
    pub fn frame(&mut self, channel: u8) -> &[u8]
        ensures { result.now ≡ frame_text (framed channel self.old) }
    {
        let [high, low] = (self.len as u16).to_be_bytes();
        self.buffer[0] = DOLLAR;
        self.buffer[1] = channel;
        self.buffer[2] = high;
        self.buffer[3] = low;
        &self.buffer[..4 + self.len]
    }

    // Puts the packet that follows `sent` others of a source, with this payload, in place of what
    // is there.
    pub(crate) fn put(&mut self, source: &Source, sent: u32, payload: &[u8])
        requires { length payload.now ≤ MAX_OCTETS }
        ensures { self.new ≡ packet_of source.now sent payload.now }
    {
        source.put_header(sent, &mut self.buffer);
        self.buffer[16..16 + payload.len()].copy_from_slice(payload);
        self.len = 12 + payload.len();
    }

    // Puts a packet of a unit of several in place of what is there.
    pub(crate) fn put_marked(&mut self, source: &Source, header: PacketHeader, payload: &[u8])
        requires { length payload.now ≤ MAX_OCTETS }
        ensures { self.new ≡ marked_header source.now header.marker header.number header.timestamp ++ payload.now }
    {
        source.put_marked_header(header, &mut self.buffer);
        self.buffer[16..16 + payload.len()].copy_from_slice(payload);
        self.len = 12 + payload.len();
    }

    // Puts a whole packet in place of what is there.
    pub(crate) fn put_whole(&mut self, packet: &[u8])
        requires { length packet.now ≤ MAX_OCTETS }
        ensures { self.new ≡ packet.now }
    {
        self.buffer[4..4 + packet.len()].copy_from_slice(packet);
        self.len = packet.len();
    }

    // Puts the packet that follows `sent` others of a source in place of what is there, with the
    // octets of a unit that the sink gives.
    pub(crate) fn fill<S: Sink>(
        &mut self,
        source: &Source,
        sent: u32,
        unit: u32,
        sink: &mut S,
    ) -> Result<(), SinkFault>
        requires { source.now.octets ≤ MAX_OCTETS }
        ensures ok { OnOk result (Filled S.calls source.now sent unit self.new sink.old sink.new) }
        ensures err { OnErr result (Failed S.calls sink.old sink.new) }
    {
        let octets = source.octets as usize;
        self.len = 12 + octets;
        source.put_header(sent, &mut self.buffer);
        sink.octets(source.track, unit, &mut self.buffer[16..16 + octets])
    }
}
