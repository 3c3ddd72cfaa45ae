//! What an admission asks for, and what it was given: plain data for the crates above.

use rtsp_record::{Stream, Thing};
use rtsp_sessions::Startup;

/// The session that an admission opens.
#[derive(Clone, Copy, PartialEq, Eq)]
pub struct Opening {
    pub id: u128,
    /// The connection that opens it.
    pub conn: u64,
    /// The moment from which it may be ended, in milliseconds.
    pub expires: u64,
}

/// The address that an admission asks for.
#[derive(Clone, Copy)]
pub enum Wanted {
    /// A pair of ports.
    Pair,
    /// One port, for RTP and RTCP both (RFC 5761).
    Port,
    /// Channels of a connection: the wish if it is free, else the least free ones.
    Channels { conn: u64, wish: Option<u8> },
}

/// What an admission asks for: perhaps a new session, bits per second of the uplink, an address, a
/// stream over them, and perhaps a startup number for the session. Its numbers were drawn before.
#[derive(Clone, Copy)]
pub struct Ask {
    pub session: u64,
    pub admission: u64,
    /// The session to be opened; `None` if it is alive already.
    pub opening: Option<Opening>,
    /// Bits per second.
    pub rate: u64,
    pub wanted: Wanted,
    pub stream: Stream,
    pub startup: Option<Startup>,
}

/// What an admission was given.
#[derive(Clone, Copy, PartialEq, Eq)]
pub struct Admitted {
    pub session: u64,
    pub admission: u64,
    /// A pair of ports, a port, or channels.
    pub address: Thing,
    pub stream: Stream,
}
