//! Where the packets of a stream come from.

ghost use Rattle.std.specs.Prelude.{◌≡◌, ◌<◌, ◌≤◌, ◌++◌, take, drop};
ghost use Rattle.rtsp_content.specs.declared.limits.TheConstants.{MAX_TRACKS};
ghost use Rattle.rtsp_content.specs.PackingLimits.{unit_len};
ghost use Rattle.rtsp_rtp.specs.Parts.{MAX_UNIT_LEN};
ghost use Rattle.rtsp_rtp.specs.Pacing.{IsSourceWithin};
ghost use Rattle.rtsp_rtp.specs.Packets.{source_of, header_of, marked_header, kind_of, first_number, timestamp_after};

use crate::buffer::BUFFER;
use rtsp_content::{Packing, Track};
use rtsp_record::Stream;

// What is a packet's own in its header.
#[derive(Clone, Copy)]
pub(crate) struct PacketHeader {
    pub(crate) marker: bool,
    pub(crate) number: u16,
    pub(crate) timestamp: u32,
}

/// What is the same in all packets of a stream (RFC 3550 section 5.1), and what counts them.
#[derive(Clone, Copy, PartialEq, Eq)]
pub struct Source {
    /// The track's place in its presentation, from 0.
    pub track: u16,
    pub payload_type: u8,
    /// How the packets of a unit stand in the file.
    pub packing: Packing,
    /// How many bytes of media a unit has; at most so many where it is a slot.
    pub octets: u32,
    /// How many clock ticks the timestamp goes up by from unit to unit.
    pub ticks: u32,
    pub ssrc: u32,
    /// The sequence number of the first packet of the session.
    pub seq: u16,
    /// The timestamp of the first packet of the session.
    pub rtptime: u32,
}

impl Source {
    /// The source of a stream of a track.
    pub(crate) fn of(track: &Track, stream: &Stream) -> Self
        ensures value { result ≡ source_of track.now stream.now }
        ensures within { stream.now.track < MAX_TRACKS → IsSourceWithin result }
    {
        Source {
            track: stream.track,
            payload_type: track.payload_type(),
            packing: track.packing(),
            octets: track.octets(),
            ticks: track.ticks(),
            ssrc: stream.ssrc,
            seq: stream.seq,
            rtptime: stream.rtptime,
        }
    }

    // The number of the first packet of a play, where so many units were sent before.
    pub(crate) fn first_number(&self, sent: u32) -> u16
        ensures { result ≡ first_number self.now sent }
    {
        let numbers = ((sent % 65_536) as u16).wrapping_mul(self.packing.packet_count());
        self.seq.wrapping_add(numbers)
    }

    // How many bytes a unit takes in its file.
    pub(crate) fn unit_len(&self) -> usize
        requires { IsSourceWithin self.now }
        ensures value { result ≡ unit_len self.now.packing self.now.octets }
        ensures most { result ≤ MAX_UNIT_LEN }
    {
        self.packing.unit_len(self.octets) as usize
    }

    // The timestamp of a unit that follows `sent` others of the session.
    pub(crate) fn timestamp(&self, sent: u32) -> u32
        ensures { result ≡ timestamp_after self.now sent }
    {
        self.rtptime.wrapping_add(sent.wrapping_mul(self.ticks))
    }

    // The payload type with a marker bit in front.
    fn kind_of(&self, marker: bool) -> u8
        ensures { result ≡ kind_of self.now marker }
    {
        if marker {
            self.payload_type.wrapping_add(0x80)
        } else {
            self.payload_type
        }
    }

    // Puts the header of a packet of a unit of several at its place in a packet's buffer.
    pub(crate) fn put_marked_header(&self, header: PacketHeader, buffer: &mut [u8; BUFFER])
        ensures { buffer.new ≡ take 4 buffer.old ++ (marked_header self.now header.marker header.number header.timestamp ++ drop 16 buffer.old) }
    {
        buffer[4] = 0x80;
        buffer[5] = self.kind_of(header.marker);
        let [q0, q1] = header.number.to_be_bytes();
        buffer[6] = q0;
        buffer[7] = q1;
        let [t0, t1, t2, t3] = header.timestamp.to_be_bytes();
        buffer[8] = t0;
        buffer[9] = t1;
        buffer[10] = t2;
        buffer[11] = t3;
        let [s0, s1, s2, s3] = self.ssrc.to_be_bytes();
        buffer[12] = s0;
        buffer[13] = s1;
        buffer[14] = s2;
        buffer[15] = s3;
    }

    // Puts the header of the packet that follows `sent` others of the session, modulo 2^32, at its
    // place in a packet's buffer. It is put byte by byte: the compiler makes whole words of these
    // stores, which it can't of an array that is copied.
    pub(crate) fn put_header(&self, sent: u32, buffer: &mut [u8; BUFFER])
        ensures { buffer.new ≡ take 4 buffer.old ++ (header_of self.now sent ++ drop 16 buffer.old) }
    {
        buffer[4] = 0x80;
        buffer[5] = self.payload_type;
        let seq = self.seq.wrapping_add((sent % 65_536) as u16);
        let [q0, q1] = seq.to_be_bytes();
        buffer[6] = q0;
        buffer[7] = q1;
        let timestamp = self.rtptime.wrapping_add(sent.wrapping_mul(self.ticks));
        let [t0, t1, t2, t3] = timestamp.to_be_bytes();
        buffer[8] = t0;
        buffer[9] = t1;
        buffer[10] = t2;
        buffer[11] = t3;
        let [s0, s1, s2, s3] = self.ssrc.to_be_bytes();
        buffer[12] = s0;
        buffer[13] = s1;
        buffer[14] = s2;
        buffer[15] = s3;
    }
}
