//! What a server opens before its threads run.

use crate::descriptors::{Descriptors, refusal};
use crate::fault::ServerFault;
use crate::hiding::share_allowed;
use crate::shared::Shared;
use crate::socket_lane::SocketLane;
use crate::threads::OnePacer;
use crate::users::open_users;
use mio::net::TcpListener;
use rtsp_content::{Allowed, Operation, Server, Table};
use rtsp_lock::{BookHandle, open_book};
use rtsp_pacing::{PacerPlays, PacerRoom};
use rtsp_sockets::{Content, Media, Reader};
use rtsp_status::StatusServer;
use rtsp_threads::whole_of;
use std::alloc::Global;
use std::fs::File;
use std::net::{Net, SocketAddr, SocketAddrV4};
use std::random::RandomSource;
use std::rt::Files;
use std::sync::{Arc, Wait};
use std::thread::Threads;
use std::{net, rt, thread};

// What sends the packets of plays, and reads their media ahead.
#[derive(Drop)]
pub(crate) struct Sending {
    pub(crate) media: Media,
    pub(crate) readers: Vec<Reader>,
    pub(crate) pacers: Vec<OnePacer>,
}

impl Sending {
    // For half as many pacers as the machine has cores, but at least one. Each has a handle of the book
    // that is split off this one.
    fn open<R: Threads + Wait + Files<File = File>>(
        rt: &R,
        alloc: Global,
        table: &Table,
        handle: &mut BookHandle,
    ) -> Result<Sending, ServerFault> {
        let media = Media::open(rt, alloc, table)?;
        let readers = media.readers(alloc, 0)?;
        let count = (cores(rt) / 2).max(1);
        let pacers = open_pacers(rt, alloc, handle, count, table.server().sessions)?;
        Ok(Sending {
            media,
            readers,
            pacers,
        })
    }
}

// What players connect to, before it has threads.
#[derive(Drop)]
pub(crate) struct Listening {
    pub(crate) shared: Arc<Shared>,
    pub(crate) lanes: Vec<SocketLane>,
    pub(crate) address: SocketAddr,
    pub(crate) connections: u64,
    pub(crate) descriptors: Descriptors,
}

// What a server has open, once it listens.
#[derive(Drop)]
pub(crate) struct Opened {
    pub(crate) status: Option<StatusServer>,
    pub(crate) handles: Handles,
    pub(crate) readers: Vec<Reader>,
    pub(crate) pacers: Vec<OnePacer>,
    pub(crate) listening: Listening,
}

impl Opened {
    // All of a server of this configuration, which listens on this address for so many connections, or
    // any number. What the system refuses may be for want of descriptors.
    pub(crate) fn open<R: Threads + Wait + Net + rt::Clock + RandomSource + Files<File = File>>(
        rt: &R,
        alloc: Global,
        table: Table,
        operation: &Operation,
        allowed: Option<Allowed>,
        address: SocketAddr,
        connections: Option<u64>,
    ) -> Result<Opened, ServerFault> {
        let numbers = table.server();
        match Opened::open_all(rt, alloc, table, operation, allowed, address, connections) {
            Err(ServerFault::DeviceFailed) => Err(refusal(numbers, operation)),
            opened => opened,
        }
    }

    fn open_all<R: Threads + Wait + Net + rt::Clock + RandomSource + Files<File = File>>(
        rt: &R,
        alloc: Global,
        table: Table,
        operation: &Operation,
        allowed: Option<Allowed>,
        address: SocketAddr,
        connections: Option<u64>,
    ) -> Result<Opened, ServerFault> {
        let status = open_status(rt, alloc, operation)?;
        let mut handle = open_journal(alloc, &table, operation)?;
        let Sending {
            media,
            readers,
            pacers,
        } = Sending::open(rt, alloc, &table, &mut handle)?;
        let opening = Opening {
            numbers: table.server(),
            operation,
            pacers: pacers.len(),
        };
        let content = Content {
            table,
            media,
            allowed: share_allowed(alloc, allowed)?,
        };
        let listening = opening.listen(rt, alloc, content, address, connections)?;
        match Handles::split(rt, alloc, handle) {
            Some(handles) => Ok(Opened {
                status,
                handles,
                readers,
                pacers,
                listening,
            }),
            None => Err(ServerFault::NoThread),
        }
    }
}

// The handles of the book of all threads but the pacers.
#[derive(Drop)]
pub(crate) struct Handles {
    pub(crate) lanes: BookHandle,
    // Two: those of the sweeper and of the thread that writes the journal.
    pub(crate) others: Vec<BookHandle>,
    // That by which the figures are shown, and that by which the book is given up at the end.
    pub(crate) shown: BookHandle,
    pub(crate) last: BookHandle,
}

impl Handles {
    fn split<R: Wait>(rt: &R, alloc: Global, mut lanes: BookHandle) -> Option<Handles> {
        let mut others = Vec::with_capacity(alloc, 2).ok()?;
        others.push(lanes.split(rt)?).ok()?;
        others.push(lanes.split(rt)?).ok()?;
        let shown = lanes.split(rt)?;
        let last = lanes.split(rt)?;
        Some(Handles {
            lanes,
            others,
            shown,
            last,
        })
    }
}

// What a server is opened for.
#[derive(Clone, Copy)]
pub(crate) struct Opening<'a> {
    pub(crate) numbers: Server,
    pub(crate) operation: &'a Operation,
    pub(crate) pacers: usize,
}

impl Opening<'_> {
    // Listens on this address for so many connections, or any number. It comes last, since then all
    // descriptors are in use but those that the threads open.
    pub(crate) fn listen<R: Wait + Net + rt::Clock + Files<File = File>>(
        self,
        rt: &R,
        alloc: Global,
        content: Content,
        address: SocketAddr,
        connections: Option<u64>,
    ) -> Result<Listening, ServerFault> {
        let listener = net::TcpListener::from(TcpListener::bind(rt, address)?);
        self.stand(rt, alloc, content, &listener, connections)
    }

    // The lanes of this listener, and what they share.
    fn stand<R: Wait + Net + rt::Clock + Files<File = File>>(
        self,
        rt: &R,
        alloc: Global,
        content: Content,
        listener: &net::TcpListener,
        connections: Option<u64>,
    ) -> Result<Listening, ServerFault> {
        let address = listener.local_addr()?;
        let files = content.media.open_files();
        let shared = self.share(rt, alloc, content, listener, connections)?;
        let workers = usize::from(self.numbers.workers);
        let lanes = open_lanes(rt, alloc, &shared, listener, workers)?;
        let descriptors = Descriptors::of(self.numbers, self.operation, listener, files)?;
        let Some(connections) = descriptors.connections(files) else {
            return Err(descriptors.fault(files));
        };
        shared.gate.allow(connections);
        Ok(Listening {
            shared,
            lanes,
            address,
            connections,
            descriptors,
        })
    }

    // What the threads of the server share.
    fn share<R: Net + rt::Clock + Files<File = File>>(
        self,
        rt: &R,
        alloc: Global,
        content: Content,
        listener: &net::TcpListener,
        connections: Option<u64>,
    ) -> Result<Arc<Shared>, ServerFault> {
        let listener = TcpListener::from_std(listener.try_clone()?);
        let users = open_users(rt, alloc, self.operation)?;
        let shared = Shared::open(rt, alloc, self, content, listener, connections, users)?;
        match Arc::new(alloc, shared) {
            Ok(shared) => Ok(shared),
            Err(_) => Err(ServerFault::OutOfMemory),
        }
    }
}

// The book, whose entries are kept where they are written to files.
fn open_journal(
    alloc: Global,
    table: &Table,
    operation: &Operation,
) -> Result<BookHandle, ServerFault> {
    let mut handle = open_book(alloc, &whole_of(table))?;
    if operation.journal().is_some() {
        handle.keep_entries();
    }
    Ok(handle)
}

// How many threads the machine runs at once.
fn cores<R: Threads>(rt: &R) -> usize {
    match thread::available_parallelism(rt) {
        Ok(cores) => cores.get(),
        Err(_) => 1,
    }
}

// What shows the figures, where an address is named for it.
fn open_status<R: Net + rt::Clock + RandomSource>(
    rt: &R,
    alloc: Global,
    operation: &Operation,
) -> Result<Option<StatusServer>, ServerFault> {
    let Some(text) = operation.status() else {
        return Ok(None);
    };
    match text.parse::<SocketAddrV4>() {
        Ok(address) => {
            let address = SocketAddr::V4(address);
            Ok(Some(StatusServer::open(rt, alloc, address)?))
        }
        Err(_) => Err(ServerFault::DeviceFailed),
    }
}

// So many lanes, each with descriptors of its own.
fn open_lanes<R: Wait + Net + Files<File = File>>(
    rt: &R,
    alloc: Global,
    shared: &Arc<Shared>,
    listener: &net::TcpListener,
    count: usize,
) -> Result<Vec<SocketLane>, ServerFault> {
    let mut lanes = Vec::new(alloc);
    for number in 0..count {
        let lane = SocketLane::open(rt, alloc, shared, number, listener.try_clone()?)?;
        if lanes.push(lane).is_err() {
            return Err(ServerFault::OutOfMemory);
        }
    }
    Ok(lanes)
}

// A pacer of this number. It may come to have the plays of all sessions.
fn open_pacer<R: Wait>(
    rt: &R,
    alloc: Global,
    handle: &mut BookHandle,
    number: usize,
    sessions: u16,
) -> Result<OnePacer, ServerFault> {
    let plays = PacerPlays::open(alloc, usize::from(sessions))?;
    let room = PacerRoom::open(alloc)?;
    match handle.split(rt) {
        Some(handle) => Ok(OnePacer {
            number,
            plays,
            room,
            handle,
        }),
        None => Err(ServerFault::NoThread),
    }
}

// So many pacers.
fn open_pacers<R: Wait>(
    rt: &R,
    alloc: Global,
    handle: &mut BookHandle,
    count: usize,
    sessions: u16,
) -> Result<Vec<OnePacer>, ServerFault> {
    let mut pacers = Vec::new(alloc);
    for number in 0..count {
        let pacer = open_pacer(rt, alloc, handle, number, sessions)?;
        if pacers.push(pacer).is_err() {
            return Err(ServerFault::OutOfMemory);
        }
    }
    Ok(pacers)
}
