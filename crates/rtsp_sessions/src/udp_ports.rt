//! A pair of UDP ports, or a single one.

/// How many UDP ports are held as one thing, which is named by its first port.
#[derive(Clone, Copy)]
pub enum UdpPorts {
    /// A port for RTP and the next one for RTCP.
    Pair,
    /// One port for both (RFC 5761).
    Port,
}
