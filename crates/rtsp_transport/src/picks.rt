//! The transport that a client gets by a specification.

use crate::channels::ChannelPair;

/// What a client's specifications come to.
#[derive(Clone, Copy, PartialEq, Eq)]
pub enum Pick {
    /// RTP and RTCP go to these ports of the client.
    Udp { rtp_port: u16, rtcp_port: u16 },
    /// Both go to this one port of the client (RFC 5761).
    Mux { port: u16 },
    /// They go over the connection, on these channels if the client named any that can be served.
    Inter { wish: Option<ChannelPair> },
    /// None of the specifications can be served (461).
    Unsupported,
    /// One could be served but for its hosts (463).
    Prohibited,
}
