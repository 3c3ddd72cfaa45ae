//! The thread that serves.

use crate::asked::SessionMeant;
use crate::halt::Halt;
use crate::limits::{ACCEPTED, HEAD, LIFE, PEERS};
use crate::peer::Peer;
use crate::service::StatusService;
use crate::shown::Further;
use crate::standing::Standing;
use crate::watch::{EVENTS, Watch};
use http_server::{Config, Connection};
use mio::net::{TcpListener, TcpStream};
use mio::{Interest, Token};
use rtsp_metrics::Snapshot;
use slab::Slab;
use std::alloc::{AllocError, Global};
use std::hash::RandomState;
use std::io;
use std::net::{IpAddr, Net, SocketAddr};
use std::os::fd::AsRawFd;
use std::random::RandomSource;
use std::rt::Clock;
use std::sync::Wait;
use std::time::{Duration, Instant};

const LISTENER: Token = Token(usize::MAX);

// How often the server looks whether it is to end, and whether a connection has lasted too long.
const LOOK: u64 = 250;

/// Whoever tells what there is to show, and does what is asked for.
pub trait Source: Drop {
    fn snapshot(&mut self) -> Snapshot;

    /// What is shown beside it.
    fn further(&mut self, alloc: Global) -> Result<Further, AllocError>;

    fn standing(&mut self) -> Standing;

    /// Who watches what, as JSON.
    fn sessions(&self, alloc: Global) -> Result<Vec<u8>, AllocError>;

    /// Whether players' addresses are shown to all by now, and not to this machine alone.
    fn is_open(&self) -> bool;

    /// No more connections are to be let in, and the server ends once nothing plays any more.
    fn drain(&mut self);

    /// Ends a session. Whether there was such a one.
    fn end(&mut self, session: SessionMeant) -> bool;

    /// A turn has come, some four a second: what is shown of how things went is noted.
    fn note(&mut self);
}

/// A server that listens.
pub struct StatusServer {
    alloc: Global,
    keys: RandomState,
    listener: TcpListener,
    watch: Watch,
    peers: Slab<Peer>,
    begun: Instant,
}

// Written out, so that whoever lets go of it makes one call, and not one for each of its parts.
impl Drop for StatusServer {
    fn drop(self) {
        let Self {
            alloc: _alloc,
            keys: _keys,
            listener: _listener,
            watch: _watch,
            peers: _peers,
            begun: _begun,
        } = self;
    }
}

// A listener at an address, and what tells of those who come.
fn listen<R: Net>(rt: &R, alloc: Global, address: SocketAddr) -> io::Result<(TcpListener, Watch)> {
    let watch = Watch::new(rt, alloc)?;
    let listener = TcpListener::bind(rt, address)?;
    watch.add(listener.as_raw_fd(), LISTENER, Interest::READABLE)?;
    Ok((listener, watch))
}

// How requests are read: a head of limited length, and no body.
fn config() -> Config {
    let mut config = Config::default();
    config.limits.max_head_len = HEAD;
    config.max_body_len = 0;
    config.read_size = 1_024;
    config
}

impl StatusServer {
    /// Listens at an address. An error where the address is taken, or where there is no descriptor.
    pub fn open<R: Net + Clock + RandomSource>(
        rt: &R,
        alloc: Global,
        address: SocketAddr,
    ) -> io::Result<StatusServer> {
        let keys = RandomState::new(rt)?;
        let begun = Instant::now(rt)?;
        let (listener, watch) = listen(rt, alloc, address)?;
        Ok(StatusServer {
            alloc,
            keys,
            listener,
            watch,
            peers: Slab::new(alloc),
            begun,
        })
    }

    /// Where it listens.
    pub fn address(&self) -> io::Result<SocketAddr> {
        self.listener.local_addr()
    }

    // Milliseconds since it was opened.
    fn now<R: Clock>(&self, rt: &R) -> u64 {
        match self.begun.elapsed(rt) {
            Ok(elapsed) => u64::try_from(elapsed.as_millis()).unwrap_or(u64::MAX),
            Err(_) => 0,
        }
    }

    // How many connections a host has.
    fn count_of(&self, host: IpAddr) -> usize {
        let mut count = 0usize;
        for key in 0..self.peers.capacity() {
            if let Some(peer) = self.peers.get(key)
                && peer.host() == host
            {
                count = count.saturating_add(1);
            }
        }
        count
    }

    // The connection that is closed for a newcomer: the oldest of the host that has the most, so that
    // whoever opens many closes its own.
    fn least_wanted(&self) -> Option<usize> {
        let (mut found, mut most, mut since) = (None, 0usize, u64::MAX);
        for key in 0..self.peers.capacity() {
            if let Some(peer) = self.peers.get(key) {
                let count = self.count_of(peer.host());
                if count > most || count == most && peer.since < since {
                    (found, most, since) = (Some(key), count, peer.since);
                }
            }
        }
        found
    }

    // Closes a connection. Of a closed one the system tells no more.
    fn end(&mut self, key: usize) {
        drop(self.peers.try_remove(key));
    }

    // Closes a connection where there are as many as there may be.
    fn make_place(&mut self) {
        if self.peers.len() >= PEERS
            && let Some(key) = self.least_wanted()
        {
            self.end(key);
        }
    }

    // Takes a connection in, or closes it where there is no memory.
    fn receive(&mut self, stream: TcpStream, address: SocketAddr, now: u64) {
        self.make_place();
        let http = Connection::new(self.alloc, self.keys, config());
        let peer = Peer::new(stream, http, address, now);
        let fd = peer.fd();
        let Ok(key) = self.peers.insert(peer) else {
            return;
        };
        let both = Interest::READABLE | Interest::WRITABLE;
        if self.watch.add(fd, Token(key), both).is_err() {
            self.end(key);
        }
    }

    fn accept_all(&mut self, now: u64) {
        for _ in 0..ACCEPTED {
            match self.listener.accept() {
                Ok((stream, address)) => self.receive(stream, address, now),
                Err(_) => return,
            }
        }
    }

    // Closes connections that have lasted too long.
    fn sweep(&mut self, now: u64) {
        for key in 0..self.peers.capacity() {
            if let Some(peer) = self.peers.get(key)
                && now.saturating_sub(peer.since) >= LIFE
            {
                self.end(key);
            }
        }
    }

    fn visit<S: Source>(&mut self, service: &mut StatusService<S>, key: usize) {
        let Some(peer) = self.peers.get_mut(key) else {
            return;
        };
        service.nearness = peer.nearness();
        if peer.visit(service) {
            self.end(key);
        }
    }

    // Visits those of which the system tells, and lets in those that wait.
    fn turn<S: Source>(&mut self, service: &mut StatusService<S>, now: u64) {
        for place in 0..EVENTS {
            let Some(token) = self.watch.token_at(place) else {
                break;
            };
            if token != LISTENER {
                self.visit(service, token.0);
            }
        }
        self.accept_all(now);
        self.sweep(now);
    }

    // One wait and what comes of it. The snapshot is taken before any request is answered from it;
    // where there is no memory for its texts, what was shown last is shown again.
    fn serve_once<S: Source>(&mut self, service: &mut StatusService<S>, now: u64) {
        if !self.watch.is_quiet() {
            service.look();
        }
        self.turn(service, now);
    }

    /// Serves until it is told to end. Each turn shows what `source` has then.
    pub fn run<R: Wait + Clock, S: Source>(&mut self, rt: &R, source: S, halt: &Halt) {
        let mut service = StatusService::new(self.alloc, source);
        for _ in rt.forever() {
            self.watch.wait(Duration::from_millis(LOOK));
            if halt.is_halted() {
                break;
            }
            service.note();
            let now = self.now(rt);
            self.serve_once(&mut service, now);
        }
    }
}
