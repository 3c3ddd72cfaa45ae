//! The buffer that a connection's responses are written into.

ghost use Rattle.std.specs.Prelude.{◌<◌, ◌^◌, ◌-◌, ◌≡◌, ◌≤◌, ◌++◌, [], length, decimal, OnOk, OnErr};
ghost use Rattle.rtsp_grammar.specs.Writing.{response_text};
ghost use Rattle.rtsp_text.specs.Hexadecimal.{hex_text};
ghost use Rattle.rtsp_transport.specs.Granted.{transport_text};
ghost use Rattle.rtsp_transport.specs.declared.write.Granted.TheVariants.{Udp, Mux, UdpFrom, MuxFrom, Inter};
ghost use Rattle.rtsp_npt.specs.Printed.{time_text, range_text, stop_text};
ghost use Rattle.rtsp_state.specs.Room.{Takes};

use itoa::Buffer;
use rtsp_grammar::{Response, write_response};
use rtsp_npt::{UnitLength, write_range, write_stop, write_time};
use rtsp_transport::{Granted, write_session_id, write_ssrc, write_transport};
use std::alloc::{AllocError, Global};
use std::marker::Model;

/// The buffer that a connection's responses are written into. Room is reserved in it before a step
/// is made, so that the response can be written after the step without more memory. A contract
/// sees what is written, and how many bytes more fit.
#[derive(Drop)]
pub struct Room {
    bytes: Vec<u8>,
}

impl Model for Room {
    ghost use Rattle.std.specs.Prelude.{◌-◌, length, vec_capacity};
    ghost use Rattle.rtsp_state.specs.Room.{RoomText};

    ghost Value = { RoomText };

    ghost view = { λ r. record { text = r.bytes.items; spare = vec_capacity r.bytes - length r.bytes.items } };
}

impl Room {
    /// An empty buffer, which has no memory yet.
    pub fn new(alloc: Global) -> Room
        ensures { result.text ≡ [] }
    {
        Room {
            bytes: Vec::new(alloc),
        }
    }

    /// What is written.
    pub fn as_bytes(&self) -> &[u8]
        ensures { result.now ≡ self.now.text }
    {
        self.bytes.as_slice()
    }

    /// Drops what is written and keeps the memory.
    pub fn clear(&mut self)
        ensures text { self.new.text ≡ [] }
        ensures spare { self.old.spare ≤ self.new.spare }
    {
        self.bytes.clear();
    }

    /// Makes room for `more` bytes after those that are written.
    pub(crate) fn reserve(&mut self, more: usize) -> Result<(), AllocError>
        ensures text { self.new.text ≡ self.old.text }
        ensures ok { OnOk result (more ≤ self.new.spare) }
        // No buffer has room for so many, so a saturated sum is refused.
        ensures top { self.new.spare < 2 ^ 64 - 1 }
    {
        self.bytes.reserve(more)
    }

    /// Writes a text as it is.
    pub(crate) fn put(&mut self, text: &[u8])
        requires { length text.now ≤ self.old.spare }
        ensures text { self.new.text ≡ self.old.text ++ text.now }
        ensures room { Takes self.old self.new (length text.now) }
    {
        self.bytes.extend_from_slice(text).unwrap();
    }

    /// Writes a response for which no room was made, or nothing.
    pub fn append(&mut self, response: &Response) -> Result<(), AllocError>
        ensures ok { OnOk result (self.new.text ≡ self.old.text ++ response_text response.now) }
        ensures mute { OnErr result (self.new.text ≡ self.old.text) }
    {
        write_response(&mut self.bytes, response)
    }

    /// Writes a number in decimal.
    #[tactic(auto, using(crate::proofs::RoomLemmas::decimal_of_32))]
    pub(crate) fn put_decimal(&mut self, number: u32)
        requires { 10 ≤ self.old.spare }
        ensures text { self.new.text ≡ self.old.text ++ decimal number }
        ensures room { Takes self.old self.new 10 }
    {
        let mut buffer = Buffer::new();
        self.put(buffer.format(number).as_bytes());
    }

    /// Writes a number of bytes in decimal.
    #[tactic(auto, using(crate::proofs::RoomLemmas::decimal_of_64))]
    pub(crate) fn put_size(&mut self, size: usize)
        requires { 20 ≤ self.old.spare }
        ensures text { self.new.text ≡ self.old.text ++ decimal size }
        ensures room { Takes self.old self.new 20 }
    {
        let mut buffer = Buffer::new();
        self.put(buffer.format(size as u64).as_bytes());
    }

    /// Writes the id of a session, in 32 hexadecimal digits.
    #[tactic(auto, using(crate::proofs::RoomLemmas::appended, crate::proofs::RoomLemmas::id_most))]
    pub(crate) fn put_id(&mut self, id: u128)
        requires { 32 ≤ self.old.spare }
        ensures text { self.new.text ≡ self.old.text ++ hex_text 32 id }
        ensures room { Takes self.old self.new 32 }
    {
        write_session_id(&mut self.bytes, id).unwrap();
    }

    /// Writes an SSRC, in 8 hexadecimal digits.
    #[tactic(auto, using(crate::proofs::RoomLemmas::appended, crate::proofs::RoomLemmas::ssrc_most))]
    pub(crate) fn put_ssrc(&mut self, ssrc: u32)
        requires { 8 ≤ self.old.spare }
        ensures text { self.new.text ≡ self.old.text ++ hex_text 8 ssrc }
        ensures room { Takes self.old self.new 8 }
    {
        write_ssrc(&mut self.bytes, ssrc).unwrap();
    }

    /// Writes a transport over UDP.
    #[tactic(auto, using(crate::proofs::RoomLemmas::appended, crate::proofs::RoomLemmas::udp_most))]
    pub(crate) fn put_udp(&mut self, client_rtp: u16, client_rtcp: u16, server_rtp: u16, ssrc: u32)
        requires { 88 ≤ self.old.spare }
        ensures text { self.new.text ≡ self.old.text ++ transport_text (Udp client_rtp client_rtcp server_rtp ssrc) }
        ensures room { Takes self.old self.new 88 }
    {
        let granted = Granted::Udp {
            client_rtp,
            client_rtcp,
            server_rtp,
            ssrc,
        };
        write_transport(&mut self.bytes, &granted).unwrap();
    }

    /// Writes a transport over UDP with RTP and RTCP on one port.
    #[tactic(auto, using(crate::proofs::RoomLemmas::appended, crate::proofs::RoomLemmas::mux_most))]
    pub(crate) fn put_mux(&mut self, client: u16, server: u16, ssrc: u32)
        requires { 88 ≤ self.old.spare }
        ensures text { self.new.text ≡ self.old.text ++ transport_text (Mux client server ssrc) }
        ensures room { Takes self.old self.new 88 }
    {
        let granted = Granted::Mux {
            client,
            server,
            ssrc,
        };
        write_transport(&mut self.bytes, &granted).unwrap();
    }

    /// Writes a transport over UDP from another host than the one that the client connected to.
    #[tactic(auto, using(crate::proofs::RoomLemmas::appended, crate::proofs::RoomLemmas::udp_from_most))]
    pub(crate) fn put_udp_from(
        &mut self,
        client_rtp: u16,
        client_rtcp: u16,
        host: u32,
        server_rtp: u16,
        ssrc: u32,
    )
        requires { 118 ≤ self.old.spare }
        ensures text { self.new.text ≡ self.old.text ++ transport_text (UdpFrom client_rtp client_rtcp host server_rtp ssrc) }
        ensures room { Takes self.old self.new 118 }
    {
        let granted = Granted::UdpFrom {
            client_rtp,
            client_rtcp,
            host,
            server_rtp,
            ssrc,
        };
        write_transport(&mut self.bytes, &granted).unwrap();
    }

    /// Writes a transport over UDP with RTP and RTCP on one port, from another host.
    #[tactic(auto, using(crate::proofs::RoomLemmas::appended, crate::proofs::RoomLemmas::mux_from_most))]
    pub(crate) fn put_mux_from(&mut self, client: u16, host: u32, server: u16, ssrc: u32)
        requires { 118 ≤ self.old.spare }
        ensures text { self.new.text ≡ self.old.text ++ transport_text (MuxFrom client host server ssrc) }
        ensures room { Takes self.old self.new 118 }
    {
        let granted = Granted::MuxFrom {
            client,
            host,
            server,
            ssrc,
        };
        write_transport(&mut self.bytes, &granted).unwrap();
    }

    /// Writes a transport over channels of the connection.
    #[tactic(auto, using(crate::proofs::RoomLemmas::appended, crate::proofs::RoomLemmas::inter_most))]
    pub(crate) fn put_interleaved(&mut self, channel: u8, ssrc: u32)
        requires { 88 ≤ self.old.spare }
        ensures text { self.new.text ≡ self.old.text ++ transport_text (Inter channel ssrc) }
        ensures room { Takes self.old self.new 88 }
    {
        let granted = Granted::Inter { channel, ssrc };
        write_transport(&mut self.bytes, &granted).unwrap();
    }

    /// Writes the time at which a unit begins, in seconds.
    #[tactic(auto, using(crate::proofs::RoomLemmas::appended, crate::proofs::RoomLemmas::time_most))]
    pub(crate) fn put_time(&mut self, unit: u32, unit_ms: UnitLength)
        requires { 21 ≤ self.old.spare }
        ensures text { self.new.text ≡ self.old.text ++ time_text unit unit_ms }
        ensures room { Takes self.old self.new 21 }
    {
        write_time(&mut self.bytes, unit, unit_ms).unwrap();
    }

    /// Writes the range of the units from `from` on and before `stop`.
    #[tactic(auto, using(crate::proofs::RoomLemmas::appended, crate::proofs::RoomLemmas::range_most))]
    pub(crate) fn put_range(&mut self, from: u32, stop: u32, unit_ms: UnitLength)
        requires { 47 ≤ self.old.spare }
        ensures text { self.new.text ≡ self.old.text ++ range_text from stop unit_ms }
        ensures room { Takes self.old self.new 47 }
    {
        write_range(&mut self.bytes, from, stop, unit_ms).unwrap();
    }

    /// Writes the range that has a stop alone.
    #[tactic(auto, using(crate::proofs::RoomLemmas::appended, crate::proofs::RoomLemmas::stop_most))]
    pub(crate) fn put_stop(&mut self, stop: u32, unit_ms: UnitLength)
        requires { 26 ≤ self.old.spare }
        ensures text { self.new.text ≡ self.old.text ++ stop_text stop unit_ms }
        ensures room { Takes self.old self.new 26 }
    {
        write_stop(&mut self.bytes, stop, unit_ms).unwrap();
    }
}
