//! The connections of a lane of sockets, and its turns.

use crate::all_lanes::AllLanes;
use crate::client::Client;
use crate::lane_lines::LaneLines;
use crate::service::Service;
use crate::shared::Shared;
use crate::tools::Tools;
use crate::visiting::Visit;
use mio::net::TcpListener;
use mio::unix::SourceFd;
use mio::{Events, Interest, Poll, Token, Waker};
use rtsp_lock::BookHandle;
use rtsp_roster::{Line, Roster};
use rtsp_shares::Watermark;
use rtsp_threads::{
    Acceptor, HELD_REST, LaneTurn, RoomLooks, RoomWait, SWEEP_EVERY, TURN_EVERY, TURN_TIME,
    VISIT_TIME,
};
use std::alloc::Global;
use std::fs::File;
use std::net::Net;
use std::os::fd::AsRawFd;
use std::rt::Files;
use std::sync::{Mutex, Wait};
use std::time::Duration;
use std::{io, net, rt, thread};

const LISTENER: Token = Token(usize::MAX);

const WAKER: Token = Token(usize::MAX - 1);

// The most events that are taken at once.
const EVENTS: usize = 256;

/// The connections of a lane.
pub(crate) struct Clients {
    // The number of the lane.
    pub(crate) number: usize,
    pub(crate) poll: Poll,
    events: Events<Global>,
    pub(crate) roster: Roster<Client>,
    // The keys of those that were put aside, since the journal has no room for what they ask.
    pub(crate) aside: Line,
    // For how long they have waited, or for how long none of them was let through.
    pub(crate) room_wait: RoomWait,
    pub(crate) acceptor: Acceptor,
    pub(crate) tools: Tools,
    // The moment of the last turn, of the last sweep, and that up to which all that had come was
    // read, as it was told.
    now: u64,
    swept: u64,
    read: u64,
    // The key of the connection that is hung up next where the server is at its end: those before it
    // had their turn.
    hung: usize,
    // How many have ended in this turn, and how many were held up in it, which are in the queue.
    ended: u64,
    held: usize,
}

// Written out, as that of `Shared` is.
impl Drop for Clients {
    fn drop(self) {
        let Self {
            number: _,
            poll: _poll,
            events: _events,
            roster: _roster,
            aside: _aside,
            room_wait: _,
            acceptor: _acceptor,
            tools: _tools,
            now: _,
            swept: _,
            read: _,
            hung: _,
            ended: _,
            held: _,
        } = self;
    }
}

// A poll that tells of the listener of all lanes, and that other threads wake.
fn open_poll<R: Wait + Net>(rt: &R, listener: &TcpListener, lanes: &AllLanes) -> io::Result<Poll> {
    let poll = Poll::new(rt)?;
    let fd = listener.as_raw_fd();
    let registry = poll.registry();
    registry.register(&mut SourceFd(&fd), LISTENER, Interest::READABLE)?;
    let waker = Waker::new(registry, WAKER)?;
    lanes.add_waker(rt, waker)?;
    Ok(poll)
}

impl Clients {
    /// No connection yet.
    pub(crate) fn open<R: Wait + Net + Files<File = File>>(
        rt: &R,
        alloc: Global,
        shared: &Shared,
        number: usize,
        listener: net::TcpListener,
    ) -> io::Result<Clients> {
        let acceptor = Acceptor::new(listener)?;
        let tools = Tools::open(rt, alloc, &shared.users)?;
        let events = Events::with_capacity(alloc, EVENTS)?;
        let poll = open_poll(rt, &shared.listener, &shared.lanes)?;
        Ok(Clients {
            number,
            poll,
            events,
            roster: Roster::new(alloc),
            aside: Line::new(alloc),
            room_wait: RoomWait::new(),
            acceptor,
            tools,
            now: 0,
            swept: 0,
            read: 0,
            hung: 0,
            ended: 0,
            held: 0,
        })
    }

    // How long it may wait for something to do, in milliseconds: not at all where connections are to be
    // visited or hung up, and not for long where all of these were held up.
    fn patience(&self, lanes: &AllLanes, lines: &LaneLines, looks: RoomLooks) -> u64 {
        if self.roster.ready() > self.held || self.hung > 0 {
            return 0;
        }
        let until_heard = if self.held > 0 { HELD_REST } else { TURN_EVERY };
        let until_stop = match lanes.stop_by() {
            Some(by) => by.saturating_sub(self.now),
            None => TURN_EVERY,
        };
        self.acceptor
            .patience(self.now)
            .min(lines.patience(self.now))
            .min(self.patience_aside(self.now, looks))
            .min(until_stop)
            .min(until_heard)
    }

    /// Waits for something to do, but no longer than the lines of the log may wait. Returns the moment up
    /// to which the system has told of all that had come, unless it has told as many events as it can at
    /// once: then there may be more.
    pub(crate) fn wait<R: rt::Clock>(
        &mut self,
        rt: &R,
        lanes: &AllLanes,
        lines: &LaneLines,
        looks: RoomLooks,
    ) -> Option<u64> {
        let time = Duration::from_millis(self.patience(lanes, lines, looks));
        if self.poll.poll(&mut self.events, Some(time)).is_err() {
            thread::sleep(rt, Duration::from_millis(1));
            return None;
        }
        // What had come by now is what this turn is told of, and what earlier ones have left.
        if self.events.iter().count() < EVENTS {
            Some(self.now)
        } else {
            None
        }
    }

    /// A turn begins at this moment, which is told, or the last one where the clock went back.
    pub(crate) fn begin_turn(&mut self, now: u64) -> u64 {
        self.now = self.now.max(now);
        self.ended = 0;
        self.held = 0;
        self.now
    }

    // Puts those of which the system tells into the queue.
    fn gather(&mut self) {
        let Clients {
            events,
            roster,
            acceptor,
            ..
        } = self;
        for event in &*events {
            let token = event.token();
            if token == LISTENER {
                acceptor.wake();
            } else if let Some(client) = roster.get_mut(token.0) {
                client.note(event);
                roster.note(token.0);
            }
        }
    }

    // Visits those that are in the queue, each once, as long as there is time: they have what has come
    // answered, and are hung up where the server is at its end.
    fn visit_ready<R: Wait + Net + rt::Clock>(
        &mut self,
        service: &Service<'_, R>,
        handle: &mut BookHandle,
    ) {
        let until = service.now.saturating_add(TURN_TIME);
        for count in 0..self.roster.ready() {
            let now = if count == 0 {
                service.now
            } else {
                service.shared.now(service.rt)
            };
            if now >= service.shared.lanes.time_until(until) {
                return;
            }
            let Some(key) = self.roster.next_ready() else {
                return;
            };
            self.visit(service, handle, key, now);
        }
    }

    // Has those answered and hung up, one after another, that were not since the last of them was, as
    // long as there is time: the server is at its end.
    fn hang_up_some<R: Wait + Net + rt::Clock>(
        &mut self,
        service: &Service<'_, R>,
        handle: &mut BookHandle,
    ) {
        let mut now = service.shared.now(service.rt);
        let until = now.saturating_add(TURN_TIME);
        for key in self.hung..self.roster.keys() {
            if now >= service.shared.lanes.time_until(until) {
                return;
            }
            self.visit(service, handle, key, now);
            self.hung = key.saturating_add(1);
            now = service.shared.now(service.rt);
        }
        self.hung = 0;
    }

    // Visits a connection, if it lives, at this moment, and does what follows.
    fn visit<R: Wait + Net + rt::Clock>(
        &mut self,
        service: &Service<'_, R>,
        handle: &mut BookHandle,
        key: usize,
        now: u64,
    ) {
        let Some(client) = self.roster.get_mut(key) else {
            return;
        };
        let until = now.saturating_add(VISIT_TIME);
        let is_stopping = service.shared.lanes.stop_by().is_some();
        let visit = if is_stopping {
            client.stop(service, &mut self.tools, handle, until)
        } else {
            client.visit(service, &mut self.tools, handle, until)
        };
        if visit == Visit::Aside {
            self.aside.put(key);
            self.room_wait.begin(service.now);
            return;
        }
        self.aside.remove(key);
        match visit {
            Visit::Done | Visit::Aside => {}
            Visit::More => self.roster.queue(key),
            Visit::Held => {
                self.held = self.held.saturating_add(1);
                self.roster.queue(key);
            }
            Visit::Ended => self.end(service.rt, service.shared, handle, key),
        }
    }

    // Takes leave of a connection.
    fn end<R: Wait + Net + rt::Clock>(
        &mut self,
        rt: &R,
        shared: &Shared,
        handle: &mut BookHandle,
        key: usize,
    ) {
        self.aside.remove(key);
        if let Some(client) = self.roster.remove(key) {
            let fd = client.fd();
            let _ = self.poll.registry().deregister(&mut SourceFd(&fd));
            client.end(rt, shared, handle);
            self.ended = self.ended.saturating_add(1);
        }
    }

    // Ends all connections, whatever waits for them: first those that are in the queue, since others
    // needn't be looked for there.
    fn end_all<R: Wait + Net + rt::Clock>(
        &mut self,
        service: &Service<'_, R>,
        handle: &mut BookHandle,
    ) {
        for _ in 0..self.roster.ready() {
            if let Some(key) = self.roster.next_ready() {
                self.end(service.rt, service.shared, handle, key);
            }
        }
        for key in 0..self.roster.keys() {
            self.end(service.rt, service.shared, handle, key);
        }
        self.hung = 0;
    }

    // Tells that all that had come up to a moment was read.
    fn tell_read<R: Wait>(&mut self, rt: &R, watermark: &Mutex<Watermark>, moment: u64) {
        if moment > self.read {
            self.read = moment;
            let mut watermark = watermark.lock(rt);
            watermark.note_read(self.number, moment);
        }
    }

    // Closes connections that are stalled, and has those visited that are silent or late, or that have
    // bytes waiting for their players.
    fn sweep<R: Wait>(&mut self, rt: &R, watermark: &Mutex<Watermark>, timeout: u32, now: u64) {
        if now.saturating_sub(self.swept) < SWEEP_EVERY {
            return;
        }
        self.swept = now;
        self.acceptor.restore();
        let moment = watermark.lock(rt).moment(now);
        let timeout = u64::from(timeout).saturating_mul(1_000);
        for key in 0..self.roster.keys() {
            if let Some(client) = self.roster.get_mut(key)
                && client.sweep(rt, timeout, moment)
            {
                self.roster.note(key);
            }
        }
    }

    // Hands over the lines that have waited for long; all of them where the lane is over.
    fn end_turn<R: Wait>(&mut self, service: &Service<'_, R>) -> LaneTurn {
        let (lines, log) = (service.desk.lines, &service.shared.log);
        lines.hand_over_due(service.rt, log, self.now);
        let is_over = service.shared.gate.is_shut() && self.roster.len() == 0;
        if is_over {
            self.tell_read(service.rt, &service.shared.watermark, u64::MAX);
            lines.hand_over(service.rt, log);
        }
        LaneTurn {
            ended: self.ended,
            is_over,
        }
    }

    // Has connections answered, or ends them where the server is at its end: from the moment on up to
    // which it waits for them nothing is answered any more.
    fn visit_some<R: Wait + Net + rt::Clock>(
        &mut self,
        service: &Service<'_, R>,
        handle: &mut BookHandle,
    ) {
        match service.shared.lanes.stop_by() {
            None => self.visit_ready(service, handle),
            Some(by) if service.now < by => {
                self.visit_ready(service, handle);
                self.hang_up_some(service, handle);
            }
            Some(_) => self.end_all(service, handle),
        }
    }

    /// Does what the system has told of, which is all that had come up to the moment `told`, if there is
    /// one.
    pub(crate) fn serve<R: Wait + Net + rt::Clock>(
        &mut self,
        service: &Service<'_, R>,
        handle: &mut BookHandle,
        told: Option<u64>,
    ) -> LaneTurn {
        let Service { rt, shared, .. } = *service;
        self.call_back(service, handle);
        self.gather();
        let is_none_new = self.accept_some(service, handle);
        self.visit_some(service, handle);
        if let Some(moment) = told
            && is_none_new
            && self.roster.ready() == 0
            && self.aside.len() == 0
        {
            self.tell_read(rt, &shared.watermark, moment);
        }
        let timeout = service.table.server().timeout;
        self.sweep(rt, &shared.watermark, timeout, service.now);
        self.end_turn(service)
    }
}
