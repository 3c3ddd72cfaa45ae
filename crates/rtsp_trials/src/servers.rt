//! A server with its sockets and threads, and a player on this host.

use crate::world::count_of;
use rtsp_book::BookRep;
use rtsp_content::{Operation, Table};
use rtsp_server::{Announce, PoolEnd, Server, ServerEnd, WatchedFile};
use std::io::{Read, Write};
use std::net::{Ipv4Addr, Net, SocketAddr, SocketAddrV4, TcpStream};
use std::test::Fail;
use std::time::Duration;
use std::{fs, thread};

// Where the media of the test is written, in the folder that the test runs in.
const MEDIA: &str = "rtsp-trials-tone.raw";

const CONFIGURATION: &str = "[server]\nfirst_port = 5000\npairs = 2\nuplink = 160000\n\
    sessions = 4\ntimeout = 60\n[[presentation]]\nname = \"tone\"\nunits = 10\nunit_ms = 20\n\
    [[presentation.track]]\nname = \"a\"\nmedia = \"audio\"\npt = 0\nencoding = \"PCMU\"\n\
    clock = 8000\noctets = 160\nticks = 160\nfile = \"rtsp-trials-tone.raw\"\n";

const FIRST: &str = "OPTIONS * RTSP/2.0\r\nCSeq: 1\r\n\r\n\
    SETUP rtsp://h/tone/a RTSP/2.0\r\nCSeq: 2\r\n\
    Transport: RTP/AVP/TCP;unicast;interleaved=0-1\r\n\r\n";

const OK: &[u8] = b"RTSP/2.0 200 OK\r\n";

const SESSION: &[u8] = b"Session: ";

// Reads until there are so many responses, or nothing more comes.
fn read_responses(stream: &TcpStream, said: &mut Vec<u8>, count: usize) -> Result<(), Fail> {
    let mut from = stream;
    let mut piece = [0u8; 4096];
    for _ in 0..100 {
        if count_of(said.as_slice(), OK) >= count && said.ends_with(b"\r\n\r\n") {
            return Ok(());
        }
        let n = from.read(&mut piece)?;
        if n == 0 || n > piece.len() {
            return Ok(());
        }
        said.extend_from_slice(&piece[..n])?;
    }
    Ok(())
}

// The id of the session that was opened.
fn session_id(said: &[u8]) -> Option<&[u8]> {
    let at = said
        .windows(SESSION.len())
        .position(|window| window == SESSION)?;
    let (_, rest) = said.split_at_checked(at.checked_add(SESSION.len())?)?;
    let (id, _) = rest.split_at_checked(32)?;
    Some(id)
}

// What a player is told who sets a track up and tears it down.
fn play<R: Net<Stream = TcpStream> + AllocGlobal>(
    rt: &R,
    address: SocketAddr,
) -> Result<Vec<u8>, Fail> {
    let mut said = Vec::new(rt.alloc());
    let stream = TcpStream::connect(rt, address)?;
    stream.set_read_timeout(Some(Duration::from_secs(10)))?;
    let mut to = &stream;
    to.write_all(FIRST.as_bytes())?;
    read_responses(&stream, &mut said, 2)?;
    let mut last: Vec<u8> = Vec::new(rt.alloc());
    last.extend_from_slice(b"TEARDOWN rtsp://h/tone RTSP/2.0\r\nCSeq: 3\r\nSession: ")?;
    last.extend_from_slice(session_id(&said).unwrap_or(b""))?;
    last.extend_from_slice(b"\r\n\r\n")?;
    to.write_all(&last)?;
    read_responses(&stream, &mut said, 3)?;
    Ok(said)
}

// In place of whoever is told where the server listens: the test knows it.
#[derive(Drop)]
struct Untold;

impl Announce for Untold {
    fn announce(&mut self, _address: SocketAddr) -> bool {
        true
    }
}

// The configuration, whose media is there.
fn configured(rt: &HostRuntime) -> Result<(Table, Operation), Fail> {
    fs::write(rt, MEDIA, &[0u8; 1600])?;
    let table = Table::read(rt.alloc(), CONFIGURATION.as_bytes())?;
    let operation = Operation::read_at(rt.alloc(), CONFIGURATION.as_bytes(), "")?;
    Ok((table, operation))
}

// Whether one connection was served, and no session is left.
fn has_served_one(end: &ServerEnd) -> bool {
    let is_empty = match &end.book {
        Some(kept) => kept.book().living() == 0,
        None => false,
    };
    is_empty && end.pool == PoolEnd { served: 1, idle: 0 }
}

#[test]
fn a_server_answers_three_requests(rt: HostRuntime) -> Result<(), Fail> {
    let (table, operation) = configured(&rt)?;
    let any = SocketAddr::V4(SocketAddrV4::new(Ipv4Addr::LOCALHOST, 0));
    let file = WatchedFile::open(&rt, String::new(rt.alloc()));
    let server = Server::open(&rt, rt.alloc(), table, operation, None, file, any, Some(1))?;
    let address = server.address();
    let errors = rt.stderr();
    let (ended, said) = thread::join(
        &rt,
        || server.run(&rt, Untold, errors),
        || play(&rt, address),
    );
    let is_answered = count_of(&said?, OK) == 3;
    assert!(rt; is_answered && has_served_one(&ended?));
    Ok(())
}
