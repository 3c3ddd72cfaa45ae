//! A server: all its threads, from their start until they are joined.

ghost use Rattle.std.specs.Prelude.{◌≡◌, IfOk, IfSome};
ghost use Rattle.std.specs.FinMap.{empty};
ghost use Rattle.rtsp_record.specs.Books.{book_of};

use crate::errands::start_errands;
use crate::fault::ServerFault;
use crate::growing::Growth;
use crate::growing_users::{UsersGrowth, UsersReader, start_users};
use crate::opening::{Handles, Listening, Opened};
use crate::readers::start_readers;
use crate::shared::unbinder;
use crate::threads::{Beside, Parts, Served, Start};
use crate::watched_file::WatchedFile;
use crate::writing_journal::{folder_of, open_scribe};
use rtsp_book::Kept;
use rtsp_chronicle::Doubt;
use rtsp_content::{Allowed, Operation, Table};
use rtsp_lock::{BookHandle, LockBook};
use rtsp_log::Event;
use rtsp_sockets::Reader;
use rtsp_status::StatusServer;
use rtsp_threads::{OwnStatus, OwnUsage, PoolEnd, StopBell, close_book};
use std::alloc::Global;
use std::fs::File;
use std::io::{Eprint, Write};
use std::net::{Net, SocketAddr};
use std::random::RandomSource;
use std::rt::Files;
use std::sync::Wait;
use std::thread::Threads;
use std::{net, rt};

/// How a server has ended.
#[derive(Drop)]
pub struct ServerEnd {
    pub pool: PoolEnd,
    /// The book with its last journal, where all threads have let go of it.
    pub book: Option<Kept<LockBook>>,
    /// What isn't known to be in the journal's file, where a disk held a write up that was left behind.
    pub left: Option<Doubt>,
}

/// Is told where a server listens, once all its threads stand but lanes that got none.
pub trait Announce: Drop {
    /// Whether it could pass the address on. Where it couldn't, the server ends.
    fn announce(&mut self, address: SocketAddr) -> bool;
}

// What the system says of the process, where figures are shown.
fn usage_for<R: Files<File = File>>(rt: &R, status: &Option<StatusServer>) -> Option<OwnUsage> {
    match status {
        Some(_) => OwnUsage::open(rt).ok(),
        None => None,
    }
}

impl Parts {
    // Gives up the book once all threads but this are joined, where the others have let go of it.
    fn close<R: Wait + Net>(&self, rt: &R, last: BookHandle) -> Option<Kept<LockBook>>
        ensures { IfSome result (λ k. book_of k.journal ≡ empty) }
    {
        let mut binder = unbinder(rt, &self.shared.ports);
        close_book(rt, last, &mut binder)
    }
}

/// A server that listens, and whose threads don't run yet.
pub struct Server {
    alloc: Global,
    parts: Parts,
    start: Start,
    // Those that read ahead, where that is wanted.
    readers: Vec<Reader>,
    // The handles of the book by which the figures are shown, and by which the book is given up.
    shown: BookHandle,
    last: BookHandle,
    status: Option<StatusServer>,
    address: SocketAddr,
    connections: u64,
}

// Written out, as that of `Shared` is.
impl Drop for Server {
    fn drop(self) {
        let Self {
            alloc: _,
            parts: _parts,
            start: _start,
            readers: _readers,
            shown: _shown,
            last: _last,
            status: _status,
            address: _,
            connections: _,
        } = self;
    }
}

impl Server {
    /// A server of this configuration, whose file is this, seen before it was read, which listens on this address, and keeps
    /// and shows what is wanted of it; presentations are there for those alone who are allowed them. There
    /// are as many lanes as the configuration has workers, and half as many pacers as the machine has cores,
    /// but at least one; where the media isn't held in memory, some threads read it ahead. With a number of
    /// connections it ends after so many. Where the limit of descriptors leaves none for connections, it is
    /// `FewDescriptors`.
    pub fn open<R: Threads + Wait + Net + rt::Clock + RandomSource + Files<File = File>>(
        rt: &R,
        alloc: Global,
        table: Table,
        operation: Operation,
        allowed: Option<Allowed>,
        file: WatchedFile,
        address: SocketAddr,
        connections: Option<u64>,
    ) -> Result<Server, ServerFault> {
        let numbers = table.server();
        // Before its file is read, so that a change meanwhile is seen.
        let users = UsersGrowth::open(rt, alloc, &operation)?;
        let Opened {
            status,
            handles,
            readers,
            pacers,
            listening,
        } = Opened::open(rt, alloc, table, &operation, allowed, address, connections)?;
        let Listening {
            shared,
            lanes,
            address,
            connections,
            descriptors,
        } = listening;
        let Handles {
            lanes: handle,
            others,
            shown,
            last,
        } = handles;
        let folder = folder_of(alloc, &operation)?;
        Ok(Server {
            alloc,
            parts: Parts {
                numbers,
                folder,
                shared,
                over: StopBell::new(),
            },
            start: Start {
                handle,
                others,
                lanes,
                pacers,
                growth: Growth::open(alloc, file, operation, descriptors),
                users,
                is_short: false,
            },
            readers,
            shown,
            last,
            status,
            address,
            connections,
        })
    }

    /// The address that it listens on.
    pub fn address(&self) -> SocketAddr
        ensures { result ≡ self.now.address }
    {
        self.address
    }

    /// How many connections it has descriptors for, at most those that it serves at once: the others
    /// that the system allows are kept for all pairs of ports, and for what else it opens.
    pub fn connections(&self) -> u64
        ensures { result ≡ self.now.connections }
    {
        self.connections
    }

    // Tells where there are more pairs of ports than connections that can have them.
    fn tell_of_descriptors<R: Wait + rt::Clock>(&self, rt: &R) {
        let connections = self.connections;
        if connections < u64::from(self.parts.numbers.pairs) {
            let log = &self.parts.shared.log;
            log.event(rt, Event::FewConnections { connections });
        }
    }

    /// Runs the server until it has served as many connections as it was opened for, or the process is
    /// asked to end, and joins all threads, but for those that read ahead and the one that writes the
    /// journal: what a disk holds up is left behind. Then no session lives in the last journal, so nothing
    /// is held. `DeviceFailed` where the folder of the journal takes no file, or where it couldn't be told
    /// on which address the server listens.
    pub fn run<
        A: Announce,
        E: Write + Drop + Send,
        R: Threads
            + Wait
            + Net<Listener = net::TcpListener, Stream = net::TcpStream>
            + rt::Clock
            + Files<File = File>
            + Eprint
            + Copy
            + Send
            + Sync
            + 'static,
    >(self, rt: &R, announcer: A, errors: E) -> Result<ServerEnd, ServerFault>
        ensures { IfOk result (λ end. IfSome end.book (λ k. book_of k.journal ≡ empty)) }
    {
        let operation = self.start.growth.operation();
        let scribe = open_scribe(rt, self.alloc, &self.parts.folder, operation)?;
        let users = UsersReader::open(self.alloc, operation)?;
        self.tell_of_descriptors(rt);
        let Self {
            alloc,
            parts,
            mut start,
            readers,
            shown,
            last,
            status,
            address,
            connections: _,
        } = self;
        let written = start.others.pop();
        // The scribe's first, since a stop waits for it where it was asked for.
        start.is_short = !(parts.start_scribe(rt, scribe, written)
            && start_readers(rt, &parts.shared, readers)
            && start_errands(rt, alloc, &parts.shared)
            && start_users(rt, users, &parts.shared));
        let beside = Beside {
            signals: OwnStatus::open(rt).ok(),
            usage: usage_for(rt, &status),
            status,
            handle: shown,
            last,
        };
        let Served { pool, last, left } = parts.run(
            rt, alloc, errors, start, beside, announcer, address,
        )?;
        Ok(ServerEnd {
            pool,
            book: parts.close(rt, last),
            left,
        })
    }
}
