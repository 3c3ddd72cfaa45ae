//! The program that serves the connections of a socket.

use crate::running::{read_allowed, read_operation, read_table};
use rtsp_command_line::Exit;
use rtsp_engine::{ByteOut, CountedWriter};
use rtsp_server::{Announce, Doubt, Server, ServerEnd, ServerFault, WatchedFile};
use std::alloc::Global;
use std::fs::File;
use std::io::{Eprint, Write};
use std::net::{Ipv4Addr, Net, SocketAddr, SocketAddrV4, TcpListener, TcpStream};
use std::os::fd::{AsRawFd, RawFd};
use std::random::RandomSource;
use std::rt::Files;
use std::sync::Wait;
use std::thread::Threads;
use std::time::Duration;
use std::{rt, thread};

// The greatest number of a standard stream.
const STANDARD_ERROR: RawFd = 2;

// For so long, in milliseconds, threads that nobody joins may still have the listener once a server has failed.
// Why it did is looked for after that.
const SETTLES: u64 = 200;

// The port that is listened on where no address is named, on 127.0.0.1.
const PORT: u16 = 8_554;

// The address to listen on.
pub(crate) fn address_of(listen: Option<&str>) -> Result<SocketAddr, Exit> {
    let Some(text) = listen else {
        return Ok(SocketAddr::V4(SocketAddrV4::new(Ipv4Addr::LOCALHOST, PORT)));
    };
    match text.parse::<SocketAddrV4>() {
        Ok(address) => Ok(SocketAddr::V4(address)),
        Err(_) => Err(Exit::BadCommandLine),
    }
}

// How the program ends where the server couldn't be started, or has failed.
pub(crate) fn fault_exit(fault: ServerFault) -> Exit {
    match fault {
        ServerFault::WrongLength | ServerFault::WrongUsers => Exit::BadConfiguration,
        ServerFault::FewDescriptors {
            ports,
            others,
            limit,
        } => Exit::FewDescriptors {
            wanted: ports.saturating_add(others).saturating_add(1),
            ports,
            others,
            limit,
        },
        ServerFault::DeviceFailed | ServerFault::NoThread => Exit::DeviceFailed,
        ServerFault::OutOfMemory => Exit::OutOfMemory,
    }
}

// How the program ends where the server has ended.
fn end_of(end: ServerEnd) -> Result<(), Exit> {
    match end.left {
        None => Ok(()),
        Some(Doubt { file, entries }) => Err(Exit::JournalLeft { file, entries }),
    }
}

// Tells where the server listens.
#[derive(Drop)]
struct Announcer<O> {
    alloc: Global,
    writer: CountedWriter<O>,
}

impl<O: Write + Drop> Announce for Announcer<O> {
    fn announce(&mut self, address: SocketAddr) -> bool {
        match format!(in self.alloc; "rtspd: listening on {address}\n") {
            Ok(line) => self.writer.write(line.as_bytes()).is_ok(),
            Err(_) => false,
        }
    }
}

// Takes the numbers of the standard streams, as far as they are closed: else a connection would get
// one of them, and the log would be written to a player.
fn hold_standard_streams<R: Files<File = File>>(rt: &R, alloc: Global) -> Result<Vec<File>, Exit> {
    let mut held = Vec::new(alloc);
    for _ in 0..=STANDARD_ERROR {
        let Ok(file) = File::open(rt, "/dev/null") else {
            return Err(Exit::DeviceFailed);
        };
        if file.as_raw_fd() > STANDARD_ERROR {
            break;
        }
        if held.push(file).is_err() {
            return Err(Exit::OutOfMemory);
        }
    }
    Ok(held)
}

/// Serves the connections of a socket by the configuration of a file, for ever or until so many
/// have ended. One line is written, once the server listens and its threads stand.
pub(crate) fn run_serve<
    R: Files<File = File>
        + AllocGlobal
        + Threads
        + Wait
        + Net<Listener = TcpListener, Stream = TcpStream>
        + rt::Clock
        + Eprint
        + RandomSource
        + Copy
        + Send
        + Sync
        + 'static,
    O: Write + Drop,
    E: Write + Drop + Send,
>(
    rt: &R,
    config: &str,
    listen: Option<&str>,
    connections: Option<u64>,
    writer: O,
    errors: E,
) -> Result<(), Exit>
where
    R: Net<Listener = TcpListener, Stream = TcpStream>,
{
    let address = address_of(listen)?;
    let _held = hold_standard_streams(rt, rt.alloc())?;
    let Ok(path) = String::from_str(rt.alloc(), config) else {
        return Err(Exit::OutOfMemory);
    };
    let file = WatchedFile::open(rt, path);
    let table = read_table(rt, Some(config))?;
    let operation = read_operation(rt, config)?;
    let allowed = read_allowed(rt, config)?;
    let opened = Server::open(
        rt,
        rt.alloc(),
        table,
        operation,
        allowed,
        file,
        address,
        connections,
    );
    let server = match opened {
        Ok(server) => server,
        Err(fault) => return Err(fault_exit(fault)),
    };
    let announcer = Announcer {
        alloc: rt.alloc(),
        writer: CountedWriter::new(writer),
    };
    match server.run(rt, announcer, errors) {
        Ok(end) => end_of(end),
        Err(fault) => {
            thread::sleep(rt, Duration::from_millis(SETTLES));
            Err(fault_exit(fault))
        }
    }
}
