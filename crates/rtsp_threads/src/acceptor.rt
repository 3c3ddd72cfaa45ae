//! Accepts connections.

use crate::limits::ACCEPT_RETRY;
use mio::net::{TcpListener, TcpStream};
use std::io::ErrorKind;
use std::net::SocketAddr;
use std::{io, net};

// The process, or the system, has no descriptor left.
const EMFILE: i32 = 24;

const ENFILE: i32 = 23;

// The connection was broken before it was accepted.
const EPROTO: i32 = 71;

/// What comes of accepting.
#[derive(Drop)]
pub enum Accepted {
    /// A connection, with the player's IPv4 address.
    Stream(TcpStream, u32),
    /// One that had gone.
    Gone,
    /// One that was closed at once for want of a descriptor.
    TurnedAway,
    /// None waits, or none can be accepted now.
    Nothing,
}

/// Accepts connections of a listener that other lanes accept from too. A descriptor is kept in
/// reserve: where none is left, it is given up for as long as it takes to accept a connection and
/// to close it, so that the player isn't left waiting and the lane isn't woken again and again.
#[derive(Drop)]
pub struct Acceptor {
    listener: net::TcpListener,
    reserve: Option<net::TcpListener>,
    // Whether connections may wait.
    is_ready: bool,
    // When to try again after a fault.
    retry_at: Option<u64>,
}

// The IPv4 address of a peer.
fn ipv4_of(peer: SocketAddr) -> u32 {
    match peer {
        SocketAddr::V4(peer) => u32::from_be_bytes(peer.ip().octets()),
        SocketAddr::V6(_) => 0,
    }
}

fn has_gone(fault: &io::Error) -> bool {
    fault.kind() == ErrorKind::ConnectionAborted
        || fault.kind() == ErrorKind::Interrupted
        || fault.raw_os_error() == Some(EPROTO)
}

fn wants_descriptor(fault: &io::Error) -> bool {
    let code = fault.raw_os_error();
    code == Some(EMFILE) || code == Some(ENFILE)
}

impl Acceptor {
    /// An acceptor with a descriptor of the listener's for itself, of which the reserve is made.
    pub fn new(listener: net::TcpListener) -> io::Result<Acceptor> {
        let reserve = listener.try_clone()?;
        Ok(Acceptor {
            listener,
            reserve: Some(reserve),
            is_ready: true,
            retry_at: None,
        })
    }

    /// Connections wait.
    pub fn wake(&mut self) {
        self.is_ready = true;
    }

    /// No more connections are accepted until `wake`.
    pub fn rest(&mut self) {
        self.is_ready = false;
        self.retry_at = None;
    }

    /// Whether connections may wait, at this moment.
    pub fn is_ready(&mut self, now: u64) -> bool {
        if let Some(at) = self.retry_at
            && at <= now
        {
            self.retry_at = None;
            self.is_ready = true;
        }
        self.is_ready
    }

    /// Whether no connection waits, as far as the system has told.
    pub fn is_done(&self) -> bool {
        !self.is_ready && self.retry_at.is_none()
    }

    /// How long a lane may wait for other things before it has to accept.
    pub fn patience(&self, now: u64) -> u64 {
        if self.is_ready {
            return 0;
        }
        match self.retry_at {
            Some(at) => at.saturating_sub(now),
            None => u64::MAX,
        }
    }

    /// Makes the reserve anew where it was lost.
    pub fn restore(&mut self) {
        if self.reserve.is_none() {
            self.reserve = self.listener.try_clone().ok();
        }
    }

    // Accepts a connection by the descriptor in reserve, where there is one, and closes it.
    fn turn_away(&mut self, listener: &TcpListener) -> io::Result<()> {
        self.reserve = None;
        let turned_away = listener.accept().map(drop);
        self.restore();
        turned_away
    }

    // What comes of a fault. Where no connection waits, the system tells of the next one; after any
    // other fault a connection is accepted again after `ACCEPT_RETRY`.
    fn failed(&mut self, fault: &io::Error, now: u64) -> Accepted {
        if has_gone(fault) {
            return Accepted::Gone;
        }
        self.is_ready = false;
        if fault.kind() != ErrorKind::WouldBlock {
            self.retry_at = Some(now.saturating_add(ACCEPT_RETRY));
        }
        Accepted::Nothing
    }

    /// Accepts a connection. None is let in without a descriptor in reserve: where another lane has
    /// taken it, the descriptor of the next connection is what is kept in reserve.
    pub fn accept(&mut self, listener: &TcpListener, now: u64) -> Accepted {
        self.restore();
        if self.reserve.is_some() {
            match listener.accept() {
                Ok((stream, peer)) => return Accepted::Stream(stream, ipv4_of(peer)),
                Err(fault) if wants_descriptor(&fault) => {}
                Err(fault) => return self.failed(&fault, now),
            }
        }
        match self.turn_away(listener) {
            Ok(()) => Accepted::TurnedAway,
            Err(fault) => self.failed(&fault, now),
        }
    }
}
