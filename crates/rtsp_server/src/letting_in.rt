//! Lets connections in that wait for a lane.

use crate::client::Client;
use crate::clients::Clients;
use crate::desk::Desk;
use crate::guarding::open_gate;
use crate::naming::Naming;
use crate::service::Service;
use crate::shared::Lent;
use mio::net::TcpStream;
use mio::unix::SourceFd;
use mio::{Interest, Token};
use rtsp_lock::BookHandle;
use rtsp_log::Event;
use rtsp_sockets::Outlets;
use rtsp_threads::{ACCEPTS, Accepted};
use std::net::Net;
use std::rt;
use std::sync::Wait;

impl Clients {
    /// Accepts some of the connections that wait. Whether there were none. What has come on a new one is
    /// only told by the next wait, so where there was one, not all is read that had come.
    pub(crate) fn accept_some<R: Wait + Net + rt::Clock>(
        &mut self,
        service: &Service<'_, R>,
        handle: &mut BookHandle,
    ) -> bool {
        let before = self.roster.len();
        for _ in 0..ACCEPTS {
            if service.shared.gate.is_shut() {
                self.acceptor.rest();
            }
            if !self.acceptor.is_ready(service.now) {
                return self.acceptor.is_done() && self.roster.len() == before;
            }
            match self.acceptor.accept(&service.shared.listener, service.now) {
                Accepted::Stream(stream, peer) => self.receive(service, handle, stream, peer),
                Accepted::TurnedAway => service.shared.doorway().note_no_descriptor(service.rt),
                Accepted::Gone | Accepted::Nothing => {}
            }
        }
        false
    }

    // Takes a connection in, or closes it.
    fn receive<R: Wait + Net + rt::Clock>(
        &mut self,
        service: &Service<'_, R>,
        handle: &mut BookHandle,
        stream: TcpStream,
        peer: u32,
    ) {
        if service.shared.draining.is_begun() {
            service.shared.counters.turned_away();
            return;
        }
        let gate = &service.shared.gate;
        let is_listed = service.shared.balancers.is_listed(peer);
        let naming = Naming::begin(is_listed, service.now);
        let place = naming.place(peer);
        if let Err(why) = gate.enter(service.rt, place) {
            service.shared.doorway().note_refused(service.rt, peer, why);
            return;
        }
        service.shared.counters.accepted();
        if gate.is_shut() {
            service.shared.lanes.wake(service.rt);
        }
        let lent = &service.shared.lent;
        let opened = self.open_client(service.desk, lent, handle, stream, peer, naming);
        let is_taken_in = match opened {
            Some(client) => self.take_in(service.rt, &service.shared.outlets, client),
            None => false,
        };
        if !is_taken_in {
            service.shared.log.event(service.rt, Event::OutOfMemory);
            gate.leave(service.rt, place);
        }
    }

    // A connection that was accepted, with a gate of its own where only users are let through.
    fn open_client<R: Wait>(
        &mut self,
        desk: &Desk<'_, R>,
        lent: &Lent,
        handle: &mut BookHandle,
        stream: TcpStream,
        peer: u32,
        naming: Naming,
    ) -> Option<Client> {
        let gate = match open_gate(desk, &mut self.tools.words) {
            Ok(gate) => gate,
            Err(_) => return None,
        };
        Client::open(desk, lent, handle, stream, peer, naming, gate)
    }

    // Whether there was memory for the connection.
    fn take_in<R: Wait>(&mut self, rt: &R, outlets: &Outlets, client: Client) -> bool {
        let conn = client.conn();
        let fd = client.fd();
        let Some(outlet) = client.outlet() else {
            return false;
        };
        if outlets.insert(rt, conn, outlet).is_err() {
            return false;
        }
        let is_taken_in = match self.roster.place(client) {
            Some(key) => self.watch(fd, key),
            None => false,
        };
        if !is_taken_in {
            outlets.remove(rt, conn);
        }
        is_taken_in
    }

    // The system tells of the connection from now on, which may also be put aside. Whether it does, and
    // there was memory for that.
    fn watch(&mut self, fd: i32, key: usize) -> bool {
        let both = Interest::READABLE | Interest::WRITABLE;
        let registry = self.poll.registry();
        let is_watched = self.aside.make_room(key.saturating_add(1))
            && registry
                .register(&mut SourceFd(&fd), Token(key), both)
                .is_ok();
        if !is_watched {
            drop(self.roster.remove(key));
        }
        is_watched
    }
}
