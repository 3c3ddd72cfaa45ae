//! What is known of a header.

/// Whose connection it is.
#[derive(Clone, Copy, PartialEq, Eq)]
pub enum Origin {
    /// That of who connected, as a balancer's own checks are.
    Own,
    /// A player's, with its IPv4 address and port.
    Player(u32, u16),
}

/// Why a header is refused.
#[derive(Clone, Copy, PartialEq, Eq)]
pub enum ProxyFault {
    /// The connection doesn't begin with a header.
    NoHeader,
    /// The header is malformed.
    Malformed,
    /// It is of a version or a command that isn't known.
    Unknown,
    /// It names no address of IPv4 and TCP.
    NotIpv4,
    /// It has no end within the bytes that it may have.
    TooLong,
}

/// What is known of a header by the bytes that have come.
#[derive(Clone, Copy, PartialEq, Eq)]
pub enum Seen {
    /// More bytes are needed to tell.
    Undecided,
    /// The header is refused.
    Refused(ProxyFault),
    /// The header is whole, in so many bytes.
    Header(Origin, usize),
}
