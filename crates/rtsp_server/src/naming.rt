//! Who a connection is of: whoever connected, or the player whom a balancer names in a header, which
//! stands in front of the first byte that the server reads.

use mio::net::TcpStream;
use rtsp_log::HeaderCause;
use rtsp_proxy::{Origin, ProxyFault, Seen, read_proxy};
use std::io::{ErrorKind, Read};

/// A header comes within so many milliseconds.
pub(crate) const HEADER_TIME: u64 = 5_000;

/// What is known of who a connection is of.
#[derive(Clone, Copy, PartialEq, Eq)]
pub(crate) enum Naming {
    /// It has a place of its player's address.
    Named,
    /// It is a balancer's own, and has a place of no address.
    Own,
    /// The header is awaited since this moment.
    Awaited(u64),
}

/// What came of looking for a header.
#[derive(Clone, Copy, PartialEq, Eq)]
pub(crate) enum Look {
    /// It is there, and read.
    Found(Origin),
    /// It isn't whole yet.
    Waits,
    /// It is refused.
    Refused(HeaderCause),
    /// The connection ended before anything came, or is broken.
    Gone,
}

impl Naming {
    /// How a connection begins at this moment.
    pub(crate) fn begin(is_listed: bool, now: u64) -> Naming {
        if is_listed {
            Naming::Awaited(now)
        } else {
            Naming::Named
        }
    }

    /// The address, of this peer, of which the connection has a place, if it has one.
    pub(crate) fn place(self, peer: u32) -> Option<u32> {
        match self {
            Naming::Named => Some(peer),
            Naming::Own | Naming::Awaited(_) => None,
        }
    }

    /// Whether a header should have come by a moment.
    pub(crate) fn is_overdue(self, moment: u64) -> bool {
        match self {
            Naming::Awaited(since) => since.saturating_add(HEADER_TIME) <= moment,
            Naming::Named | Naming::Own => false,
        }
    }
}

// What the log names it.
fn cause_of(fault: ProxyFault) -> HeaderCause {
    match fault {
        ProxyFault::NoHeader => HeaderCause::Missing,
        ProxyFault::Malformed => HeaderCause::Malformed,
        ProxyFault::Unknown => HeaderCause::Unknown,
        ProxyFault::NotIpv4 => HeaderCause::NotIpv4,
        ProxyFault::TooLong => HeaderCause::TooLong,
    }
}

// Takes these bytes, which have come, and nothing behind them. Whether all were taken.
fn take(stream: &TcpStream, mut header: &mut [u8]) -> bool {
    let mut reader = stream;
    for _ in 0..u64::MAX {
        if header.is_empty() {
            return true;
        }
        match reader.read(header) {
            Ok(0) => return false,
            Ok(count) => {
                let count = count.min(header.len());
                header = &mut header[count..];
            }
            Err(fault) if fault.kind() == ErrorKind::Interrupted => {}
            Err(_) => return false,
        }
    }
    false
}

// What has come of a connection, which stays there to be read. `None` where nothing has.
fn peek(stream: &TcpStream, piece: &mut [u8]) -> Result<Option<usize>, ErrorKind> {
    for _ in 0..u64::MAX {
        match stream.peek(piece) {
            Ok(count) => return Ok(Some(count)),
            Err(fault) => match fault.kind() {
                ErrorKind::Interrupted => {}
                ErrorKind::WouldBlock => return Ok(None),
                kind => return Err(kind),
            },
        }
    }
    Ok(None)
}

/// Looks for the header in front of what has come, by a piece that has room for the longest. Only a
/// header is taken, and only once it is whole. At the end of the input no more comes.
pub(crate) fn look_for_header(stream: &TcpStream, piece: &mut [u8], is_ending: bool) -> Look {
    let count = match peek(stream, piece) {
        Ok(Some(0)) | Err(_) => return Look::Gone,
        Ok(Some(count)) => count.min(piece.len()),
        Ok(None) => return Look::Waits,
    };
    match read_proxy(&piece[..count]) {
        Seen::Header(origin, size) => {
            if size <= piece.len() && take(stream, &mut piece[..size]) {
                Look::Found(origin)
            } else {
                Look::Gone
            }
        }
        Seen::Refused(fault) => Look::Refused(cause_of(fault)),
        Seen::Undecided if is_ending => Look::Refused(HeaderCause::Cut),
        Seen::Undecided => Look::Waits,
    }
}
