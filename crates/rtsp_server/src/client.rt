//! A connection of a lane.

mod holding_back;
mod reading;
mod taking_a_name;

use self::holding_back::Passage;
use crate::channels::Channels;
use crate::desk::Desk;
use crate::hearing::Hearing;
use crate::naming::Naming;
use crate::service::Service;
use crate::shared::{Lent, Shared, unbinder};
use crate::tools::Tools;
use crate::unread::UnreadLoan;
use crate::visiting::{Part, Read, Visit};
use mio::event::Event;
use mio::net::TcpStream;
use rtsp_content::Players;
use rtsp_credentials::Gate;
use rtsp_engine::{Asker, Connection, PieceIn, PieceReader, Reading, VisitEnd};
use rtsp_grammar::MessageFault;
use rtsp_lock::BookHandle;
use rtsp_log::{Event as LogEvent, Log};
use rtsp_metrics::Counters;
use rtsp_shares::ShareTable;
use rtsp_sockets::{Loan, Outlet, PortTable, prepare};
use rtsp_threads::{Activity, LaneShares, PAUSE, PIECES, take_leave};
use std::alloc::Global;
use std::net::{Ipv4Addr, Net, SocketAddr};
use std::os::fd::{AsRawFd, RawFd};
use std::rt;
use std::sync::{Arc, Mutex, Wait};

// How far a connection has come.
#[derive(Clone, Copy, PartialEq, Eq)]
enum Stage {
    Open,
    // Too much waits to be written, so it isn't read.
    Paused,
    // It isn't read any more. What waits is still written.
    Draining,
}

/// A connection of a lane.
pub(crate) struct Client {
    handle: BookHandle,
    // While the header is awaited, its peer is the balancer.
    asker: Asker,
    naming: Naming,
    // The address of the host that the player connected to. Packets over UDP leave from it.
    host: Ipv4Addr,
    outlet: Arc<Outlet>,
    input: Connection,
    // Where only users are let through.
    gate: Option<Gate>,
    // What is lent to it for its input.
    unread: UnreadLoan,
    stage: Stage,
    // What the system has told and nothing was done about yet. No more input is told of where
    // `is_ending` is true, so it has to be read to its end.
    is_readable: bool,
    is_writable: bool,
    is_ending: bool,
    // Whether it has been silent, or has owed the rest of a message, for too long.
    is_over: bool,
    passage: Passage,
    activity: Activity,
    hearing: Hearing,
}

// The address of the host that a player connected to, or all of them where that isn't known as one of
// IPv4.
fn host_of(stream: &TcpStream) -> Ipv4Addr {
    match stream.local_addr() {
        Ok(SocketAddr::V4(local)) => *local.ip(),
        Ok(SocketAddr::V6(_)) | Err(_) => Ipv4Addr::UNSPECIFIED,
    }
}

// The outlet, where answers are put, and whatever else goes to the player.
fn open_outlet(alloc: Global, lent: &Lent, stream: TcpStream) -> Option<Arc<Outlet>> {
    let loan = Loan::of(&lent.frames)?;
    Arc::new(alloc, Outlet::new(alloc, stream, loan)).ok()
}

// Tells that there was no memory for a message, where that was its fault.
fn tell_fault<R: Wait + rt::Clock>(rt: &R, log: &Log, fault: MessageFault) {
    if matches!(&fault, MessageFault::OutOfMemory) {
        log.event(rt, LogEvent::OutOfMemory);
    }
}

impl Client {
    /// A connection that was accepted. `None` where its options can't be set, or where memory or the
    /// numbers are used up.
    pub(crate) fn open<R: Wait>(
        desk: &Desk<'_, R>,
        lent: &Lent,
        lane: &mut BookHandle,
        stream: TcpStream,
        peer: u32,
        naming: Naming,
        gate: Option<Gate>,
    ) -> Option<Client> {
        if stream.set_nodelay(true).is_err() || !prepare(stream.as_raw_fd()) {
            return None;
        }
        let host = host_of(&stream);
        let outlet = open_outlet(desk.alloc, lent, stream)?;
        let unread = UnreadLoan::of(&lent.unread)?;
        let mut handle = lane.split(desk.rt)?;
        let conn = handle.draw(desk.rt)?;
        Some(Client {
            handle,
            asker: Asker {
                conn,
                peer,
                source: None,
            },
            naming,
            host,
            outlet,
            input: Connection::new(desk.alloc),
            gate,
            unread,
            stage: Stage::Open,
            is_readable: false,
            is_writable: false,
            is_ending: false,
            is_over: false,
            passage: Passage::Open,
            activity: Activity::new(desk.now),
            hearing: Hearing::new(),
        })
    }

    /// The number of the connection.
    pub(crate) fn conn(&self) -> u64 {
        self.asker.conn
    }

    pub(crate) fn fd(&self) -> RawFd {
        self.outlet.fd()
    }

    /// One more reference to its outlet, for whoever else writes to the player.
    pub(crate) fn outlet(&self) -> Option<Arc<Outlet>> {
        Arc::try_clone(&self.outlet).ok()
    }

    /// Notes what the system tells of the connection.
    pub(crate) fn note(&mut self, event: &Event) {
        let is_ending = event.is_read_closed() || event.is_error();
        self.is_ending = self.is_ending || is_ending;
        self.is_readable = self.is_readable || is_ending || event.is_readable();
        self.is_writable = self.is_writable || is_ending || event.is_writable();
    }

    /// Writes what waits, and reads and answers what has come, until a moment. The lane's handle is for
    /// the room of the journal.
    pub(crate) fn visit<R: Wait + Net + rt::Clock>(
        &mut self,
        service: &Service<'_, R>,
        tools: &mut Tools,
        lane: &mut BookHandle,
        until: u64,
    ) -> Visit {
        if self.is_over {
            return self.end_overdue(service.rt, service.shared.doorway());
        }
        if self.is_writable && !self.flush(service.rt, service.now) {
            return Visit::Ended;
        }
        if !self.is_readable || self.stage != Stage::Open {
            return Visit::Done;
        }
        if let Some(visit) = self.take_name(service, tools) {
            return visit;
        }
        if self.hearing.is_held_up(&service.shared.bells) {
            return Visit::Held;
        }
        let part = match self.part_to_read(service, tools, lane) {
            Ok(part) => part,
            Err(visit) => return visit,
        };
        let read = self.read(service, tools, lane, part, until);
        self.hear(service.desk, tools);
        self.end_visit(service.desk, &service.shared.counters, tools, read)
    }

    // Writes what waits. Whether the connection goes on.
    fn flush<R: Wait>(&mut self, rt: &R, now: u64) -> bool {
        self.is_writable = false;
        let Some(left) = self.outlet.flush(rt, now) else {
            return false;
        };
        match self.stage {
            Stage::Open => true,
            Stage::Paused => {
                if left <= PAUSE {
                    self.stage = Stage::Open;
                }
                true
            }
            Stage::Draining => left > 0,
        }
    }

    // Where the players are GStreamer, RTCP keeps the session alive that plays over the connection.
    fn hear<R: Wait>(&mut self, desk: &Desk<'_, R>, tools: &mut Tools) {
        if let Some(session) = tools.plays.take_last() {
            self.hearing.expect(session);
        }
        let heard = tools.heard.replace(Channels::none());
        if heard.is_empty() {
            return;
        }
        match desk.table.server().players {
            Players::Strict => {}
            Players::Gstreamer => {
                self.hearing
                    .hear(desk, &mut self.handle, self.asker.conn, heard);
            }
        }
    }

    // Drops what has come behind what can't be answered.
    fn drop_rest(&self, tools: &mut Tools) {
        let mut reader = PieceReader::new(self.outlet.stream());
        for _ in 0..PIECES {
            match reader.read_piece(tools.piece.as_mut_slice()) {
                Reading::Bytes(_) => {}
                Reading::Nothing | Reading::End | Reading::Broken => break,
            }
        }
    }

    // Does what follows from how a visit ended.
    fn end_visit<R: Wait + rt::Clock>(
        &mut self,
        desk: &Desk<'_, R>,
        counters: &Counters,
        tools: &mut Tools,
        read: Read,
    ) -> Visit {
        let Desk { rt, teller, .. } = *desk;
        match read.end {
            VisitEnd::More => self.go_on(rt, counters, read.is_kept, Visit::More),
            VisitEnd::Waits => {
                self.is_readable = false;
                self.go_on(rt, counters, read.is_kept, Visit::Done)
            }
            VisitEnd::Closed => self.drain(rt),
            VisitEnd::Fault(fault) => {
                tell_fault(rt, teller.log, fault);
                self.drop_rest(tools);
                self.drain(rt)
            }
            VisitEnd::WriteFault => {
                self.drop_rest(tools);
                Visit::Ended
            }
            VisitEnd::ReadFault => Visit::Ended,
        }
    }

    // The connection goes on with what is left to be done, unless it holds more of a message than it
    // may; while too much waits to be written it isn't read.
    fn go_on<R: Wait>(&mut self, rt: &R, counters: &Counters, is_kept: bool, left: Visit) -> Visit {
        let (unread, memory) = (self.input.len(), self.input.capacity());
        if !self.unread.covers(unread, memory) {
            counters.turned_away();
            return Visit::Ended;
        }
        if is_kept && self.outlet.waiting(rt) > PAUSE {
            self.stage = Stage::Paused;
            return Visit::Done;
        }
        left
    }

    // The connection is read no more, and ends once what waits is written.
    fn drain<R: Wait>(&mut self, rt: &R) -> Visit {
        self.stage = Stage::Draining;
        if self.outlet.drain(rt) == 0 {
            Visit::Ended
        } else {
            Visit::Done
        }
    }

    /// Has answered what has come, and hangs up once it is written: the server is at its end.
    pub(crate) fn stop<R: Wait + Net + rt::Clock>(
        &mut self,
        service: &Service<'_, R>,
        tools: &mut Tools,
        lane: &mut BookHandle,
        until: u64,
    ) -> Visit {
        self.is_writable = true;
        self.is_readable = true;
        match self.visit(service, tools, lane, until) {
            Visit::Done => self.drain(service.rt),
            goes_on => goes_on,
        }
    }

    /// Closes the connection where up to a moment the player took nothing of what waits for it, or too
    /// little; then the system tells of its end. Whether it is to be visited: it is over, or what waits
    /// is to be offered to the system, which tells late that it takes some. The timeout is in
    /// milliseconds.
    pub(crate) fn sweep<R: Wait>(&mut self, rt: &R, timeout: u64, moment: u64) -> bool {
        self.outlet.close_stalled(rt, moment);
        self.is_over = self.naming.is_overdue(moment) || self.is_overdue(moment, timeout);
        // A pacer may have written what the lane waits for, which the system doesn't tell of then.
        let waits = self.outlet.waiting(rt) > 0 || self.stage != Stage::Open;
        self.is_writable = self.is_writable || waits;
        self.is_over || waits
    }

    // Whether the player has been silent for too long, or has owed the rest of a message for too
    // long, where the connection is read.
    fn is_overdue(&self, moment: u64, timeout: u64) -> bool {
        if self.stage != Stage::Open || self.passage != Passage::Open {
            return false;
        }
        self.activity.is_overdue(moment, timeout)
    }

    /// Takes leave of the connection, and of its sessions. By the lane's handle it is looked which of them
    /// live still.
    pub(crate) fn end<R: Wait + Net + rt::Clock>(
        mut self,
        rt: &R,
        shared: &Shared,
        lane: &mut BookHandle,
    ) {
        let Asker { conn, peer, .. } = self.asker;
        self.outlet.close(rt);
        shared.outlets.remove(rt, conn);
        if shared.users.is_some() {
            shared.owners.leave(rt, conn);
        }
        if self.end_sessions(rt, &shared.ports, &shared.session_shares, lane) {
            shared.ends.note();
            shared.end_teller().tell_hung_up(rt, conn, lane);
        }
        shared.gate.leave(rt, self.naming.place(peer));
    }

    // Ends the sessions that have channels of the connection. Whether any may have ended.
    fn end_sessions<R: Wait + Net>(
        &mut self,
        rt: &R,
        ports: &PortTable,
        places: &Option<Mutex<ShareTable>>,
        lane: &mut BookHandle,
    ) -> bool {
        let conn = self.asker.conn;
        let mut binder = unbinder(rt, ports);
        let mut shares = LaneShares::new(rt, places.as_ref(), lane);
        take_leave(rt, &mut self.handle, &mut binder, conn, &mut shares)
    }
}

// Written out, as that of `Shared` is.
impl Drop for Client {
    fn drop(self) {
        let Self {
            handle: _handle,
            asker: _,
            naming: _,
            host: _,
            outlet: _outlet,
            input: _input,
            gate: _,
            unread: _unread,
            stage: _,
            is_readable: _,
            is_writable: _,
            is_ending: _,
            is_over: _,
            passage: _,
            activity: _,
            hearing: _,
        } = self;
    }
}
