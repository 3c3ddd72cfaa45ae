//! Whoever asks over a real socket, well or badly.

use crate::figures::snapshot;
use crate::parts::contains;
use rtsp_metrics::Snapshot;
use rtsp_status::{Agent, Further, Halt, SessionMeant, Source, Standing, StatusServer};
use std::alloc::{AllocError, Global};
use std::io::{self, Read, Write};
use std::net::{Ipv4Addr, Net, SocketAddr, SocketAddrV4, TcpStream};
use std::test::Fail;
use std::thread;
use std::time::Duration;

#[derive(Drop)]
struct SomeFigures;

impl Source for SomeFigures {
    fn snapshot(&mut self) -> Snapshot {
        snapshot()
    }

    fn further(&mut self, alloc: Global) -> Result<Further, AllocError> {
        let mut lines = Vec::new(alloc);
        lines.extend_from_slice(b"# TYPE more counter\n# HELP more Of it.\nmore_total 1\n")?;
        Ok(Further {
            lines,
            section: Vec::new(alloc),
        })
    }

    fn standing(&mut self) -> Standing {
        Standing {
            is_ready: true,
            agent: Agent::Free(85),
        }
    }

    fn sessions(&self, alloc: Global) -> Result<Vec<u8>, AllocError> {
        let mut text = Vec::new(alloc);
        text.extend_from_slice(b"[]\n")?;
        Ok(text)
    }

    fn is_open(&self) -> bool {
        false
    }

    fn drain(&mut self) {}

    fn end(&mut self, session: SessionMeant) -> bool {
        session.number == 28 && session.digits.unwrap_or(0x0a1b_2c3d) == 0x0a1b_2c3d
    }

    fn note(&mut self) {}
}

// What comes back to a request, of which these are the lines but for the host.
fn answer_to<R: Net<Stream = TcpStream> + AllocGlobal>(
    rt: &R,
    address: SocketAddr,
    lines: &str,
) -> io::Result<Vec<u8>> {
    let mut stream = TcpStream::connect(rt, address)?;
    stream.set_read_timeout(Some(Duration::from_secs(10)))?;
    stream.write_all(lines.as_bytes())?;
    stream.write_all(b"\r\nHost: h\r\n\r\n")?;
    let mut said = Vec::new(rt.alloc());
    stream.read_to_end(&mut said)?;
    Ok(said)
}

// What is asked, and answered: what the answer begins with, and what it has behind that.
const ASKED: &str = "\
    GET /metrics HTTP/1.1 -> HTTP/1.1 200 OK\r\n..rtspd_sessions 3\n|\
    GET / HTTP/1.1 -> HTTP/1.1 200 OK\r\n..<tr><th>Sessions<td><td class=n>3\n|\
    HEAD / HTTP/1.1 -> HTTP/1.1 200 OK\r\n..\r\n\r\n|\
    GET /x HTTP/1.1 -> HTTP/1.1 404 ..\r\n\r\n|\
    GET /metrics HTTP/1.1 -> HTTP/1.1 200 OK\r\n..\nmore_total 1\n# EOF\n|\
    GET /metrics HTTP/1.1\r\nAccept: text/plain -> HTTP/1.1 200 OK\r\n..# TYPE more_total counter\n# HELP more_total Of it.\nmore_total 1\n|\
    GET /healthz HTTP/1.1 -> HTTP/1.1 200 OK\r\n..\r\n\r\nok\n|\
    GET /ready HTTP/1.1 -> HTTP/1.1 200 OK\r\n..\r\n\r\nready\n|\
    OPTIONS / HTTP/1.1 -> HTTP/1.1 200 OK\r\n..\r\n\r\nready\n|\
    GET /agent HTTP/1.1 -> HTTP/1.1 200 OK\r\n..\r\n\r\nready 85%\n|\
    GET /agent -> ready 85%\n..ready 85%\n|\
    GET /sessions HTTP/1.1 -> HTTP/1.1 200 OK\r\n..\r\n\r\n[]\n|\
    POST /drain HTTP/1.1 -> HTTP/1.1 200 OK\r\n..\r\n\r\n|\
    POST /drain HTTP/1.1\r\nOrigin: http://h -> HTTP/1.1 403 ..\r\n\r\n|\
    GET /sessions HTTP/1.1\r\nOrigin: http://h -> HTTP/1.1 403 ..\r\n\r\n|\
    GET /drain HTTP/1.1 -> HTTP/1.1 404 ..\r\n\r\n|\
    POST /sessions/28/end HTTP/1.1 -> HTTP/1.1 200 OK\r\n..\r\n\r\n|\
    POST /sessions/28:0a1b2c3d/end HTTP/1.1 -> HTTP/1.1 200 OK\r\n..\r\n\r\n|\
    POST /sessions/28:0a1b2c3e/end HTTP/1.1 -> HTTP/1.1 404 ..\r\n\r\n|\
    POST /sessions/29/end HTTP/1.1 -> HTTP/1.1 404 ..\r\n\r\n|\
    POST /sessions/28:0a1b/end HTTP/1.1 -> HTTP/1.1 404 ..\r\n\r\n|\
    POST /sessions/28:+a1b2c3d/end HTTP/1.1 -> HTTP/1.1 404 ..\r\n\r\n|\
    POST /sessions/+28/end HTTP/1.1 -> HTTP/1.1 404 ..\r\n\r\n|\
    POST /sessions//end HTTP/1.1 -> HTTP/1.1 404 ..\r\n\r\n|\
    POST /sessions/28 HTTP/1.1 -> HTTP/1.1 405 ..\r\n\r\n|\
    POST / HTTP/1.1 -> HTTP/1.1 405 ..allow: GET, HEAD\r\n|\
    POST / HTTP/1.1\r\nContent-Length: 9 -> HTTP/1.1 413 ..\r\n|\
    no request -> HTTP/1.1 400 ..\r\n";

// Whether this is asked and answered so.
fn is_answered<R: Net<Stream = TcpStream> + AllocGlobal>(
    rt: &R,
    address: SocketAddr,
    asked: &str,
) -> bool {
    let (lines, answer) = asked.split_once(" -> ").unwrap_or((asked, ""));
    let (begin, part) = answer.split_once("..").unwrap_or((answer, ""));
    match answer_to(rt, address, lines) {
        Ok(said) => said.starts_with(begin.as_bytes()) && contains(&said, part.as_bytes()),
        Err(_) => false,
    }
}

// The first of them that isn't answered so.
fn first_wrong<R: Net<Stream = TcpStream> + AllocGlobal>(
    rt: &R,
    address: SocketAddr,
) -> Option<&'static str> {
    ASKED
        .split('|')
        .find(|asked| !is_answered(rt, address, asked))
}

#[test]
fn each_request_has_its_answer(rt: HostRuntime) -> Result<(), Fail> {
    let any = SocketAddr::V4(SocketAddrV4::new(Ipv4Addr::LOCALHOST, 0));
    let mut server = StatusServer::open(&rt, rt.alloc(), any)?;
    let address = server.address()?;
    let halt = Halt::new();
    let (_, wrong) = thread::join(
        &rt,
        || server.run(&rt, SomeFigures, &halt),
        || {
            let wrong = first_wrong(&rt, address);
            halt.halt();
            wrong
        },
    );
    assert!(rt; wrong.is_none(), "{wrong:?}");
    Ok(())
}
