//! The names of protocols and parameters.

ghost use Rattle.std.specs.Prelude.{◌≡◌};
ghost use Rattle.rtsp_transport.specs.Names.{is_named, is_udp, is_tcp};

/// Whether the names are equal but for the case of their ASCII letters.
pub fn is_named(name: &[u8], other: &[u8]) -> bool
    ensures { result ≡ is_named name.now other.now }
{
    name.eq_ignore_ascii_case(other)
}

/// Whether the protocol is RTP over UDP.
#[tactic(auto, unfolding(crate::specs::Names::is_udp))]
pub fn is_udp(protocol: &[u8]) -> bool
    ensures { result ≡ is_udp protocol.now }
{
    is_named(protocol, b"RTP/AVP") || is_named(protocol, b"RTP/AVP/UDP")
}

// RTP over the connection itself.
#[tactic(auto, unfolding(crate::specs::Names::is_tcp))]
pub(crate) fn is_tcp(protocol: &[u8]) -> bool
    ensures { result ≡ is_tcp protocol.now }
{
    is_named(protocol, b"RTP/AVP/TCP")
}
