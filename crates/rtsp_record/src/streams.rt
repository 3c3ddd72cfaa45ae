//! The stream of one track.

/// A track that is set up for a session, with what its RTP packets carry (RFC 3550 section 5.1).
#[derive(Clone, Copy, PartialEq, Eq)]
pub struct Stream {
    /// The presentation's place in the table of content, from 0.
    pub presentation: u16,
    /// The track's place in its presentation, from 0.
    pub track: u16,
    pub ssrc: u32,
    /// The sequence number of the first packet of the session.
    pub seq: u16,
    /// The timestamp of the first packet of the session.
    pub rtptime: u32,
    /// The player's IPv4 address.
    pub peer: u32,
    /// The player's port for RTP; 0 where the packets go over channels.
    pub rtp_port: u16,
    /// The player's port for RTCP; 0 where the packets go over channels.
    pub rtcp_port: u16,
}
