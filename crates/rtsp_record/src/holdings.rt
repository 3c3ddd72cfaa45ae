//! What the server has, and what a session may hold of it.

ghost use Rattle.std.specs.Prelude.{◌↔◌, IsTrue};
ghost use Rattle.rtsp_record.specs.Rules.{InWhole};
ghost use Rattle.rtsp_record.specs.declared.holdings.Thing.TheVariants.{Pair, Port};

use crate::streams::Stream;

/// What a session may hold under an admission: bits of the uplink, or an address for its packets.
#[derive(Clone, Copy, PartialEq, Eq)]
pub enum Thing {
    /// The UDP port with this number and the next, for RTP and RTCP (RFC 3550 section 11).
    Pair(u16),
    /// The one UDP port with this number, for RTP and RTCP both (RFC 5761).
    Port(u16),
    /// The interleaved channel with this number and the next, of a connection (RFC 7826
    /// section 14).
    Chan(u64, u8),
    /// Bits per second of the uplink.
    Rate(u64),
}

/// What a session holds under one admission, and the stream that goes over it.
#[derive(Clone, Copy, PartialEq, Eq)]
pub struct Admission {
    /// Bits per second of the uplink.
    pub rate: Option<u64>,
    /// A pair of ports, one port, or channels.
    pub address: Option<Thing>,
    pub stream: Option<Stream>,
}

/// What the server has: ports, bandwidth, and how many sessions and entries there may be.
#[derive(Clone, Copy, PartialEq, Eq)]
pub struct Whole {
    /// The least port of the pairs; even, 1,024 at least.
    pub first_port: u16,
    /// How many pairs of ports there are from `first_port` on, 0 to 4,096; the last port is at most
    /// 65,535.
    pub pairs: u16,
    /// The uplink in bits per second, at most 10^12.
    pub uplink: u64,
    /// How many sessions may live at once, 1 to 4,096.
    pub sessions: u16,
    /// The limit on entries and owed returns together, 1 to 1,000,000.
    pub journal: u32,
}

impl Whole {
    /// Whether this port and the next are one of its pairs.
    pub fn has_pair(&self, first: u16) -> bool
        ensures { IsTrue result ↔ InWhole self.now (Pair first) }
    {
        if first < self.first_port {
            return false;
        }
        let past = first - self.first_port;
        if past % 2 == 1 {
            return false;
        }
        past / 2 < self.pairs
    }

    /// Whether the port is in one of its pairs.
    pub fn has_port(&self, port: u16) -> bool
        ensures { IsTrue result ↔ InWhole self.now (Port port) }
    {
        port >= self.first_port && u32::from(port - self.first_port) < 2 * u32::from(self.pairs)
    }
}
