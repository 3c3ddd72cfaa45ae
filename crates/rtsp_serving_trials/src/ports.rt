//! Pairs of ports of this host, and single ones.

ghost use Rattle.std.specs.Prelude.{◌<◌, IfOk};

use crate::steps::{self, Scene, Step};
use rtsp_engine::Binder;
use rtsp_sockets::{PortBinder, PortSockets, PortTable};
use std::fs::File;
use std::io::{self, ErrorKind};
use std::net::{Ipv4Addr, Net, SocketAddrV4, TcpListener, TcpStream, UdpSocket};
use std::process::Abort;
use std::rt::{Clock, Files};
use std::sync::{Arc, Wait};

/// An even port that is free now, as its neighbour is likely to be.
pub fn free_port<R: Net>(rt: &R) -> io::Result<u16>
    ensures { IfOk result (λ port. port < 65000) }
{
    for _ in 0..100 {
        let port = UdpSocket::bind(rt, "0.0.0.0:0")?.local_addr()?.port();
        if port % 2 == 0 && port < 65_000 {
            return Ok(port);
        }
    }
    Err(io::Error::from(ErrorKind::AddrInUse))
}

// Whether there are sockets, which have to be bound to these ports, RTP's first.
fn are_bound(sockets: &Option<Arc<PortSockets>>, ports: [Option<u16>; 2]) -> Option<bool> {
    let Some(sockets) = sockets else {
        return Some(false);
    };
    let rtcp = match &sockets.rtcp {
        Some(rtcp) => Some(rtcp.local_addr().ok()?.port()),
        None => None,
    };
    let rtp = sockets.rtp.local_addr().ok()?.port();
    ([Some(rtp), rtcp] == ports).then_some(true)
}

// One pair of ports. A step has an admission and a place from the pair's first port on.
#[derive(Drop)]
struct Pair<'a, R> {
    table: &'a PortTable,
    binder: PortBinder<'a, R>,
    first: u16,
}

impl<H: Net + Wait> Scene for Pair<'_, H> {
    fn does<
        R: Wait
            + Clock
            + Files<File = File>
            + Net<Listener = TcpListener, Stream = TcpStream>
            + AllocGlobal,
    >(&mut self, rt: &R, step: Step<'_>) -> bool {
        let (admission, place) = step.rest.split_once(' ').unwrap_or(("", ""));
        let admission = admission.parse().unwrap_or(0);
        let port = self.first.saturating_add(place.parse().unwrap_or(0));
        let second = port.saturating_add(1);
        let is_wanted = step.wanted != "no";
        match step.word {
            "bind" => self.binder.bind(admission, port).is_ok() == is_wanted,
            "bind-port" => self.binder.bind_port(admission, port).is_ok() == is_wanted,
            "unbind" => {
                self.binder.unbind(admission, port);
                true
            }
            "unbind-port" => {
                self.binder.unbind_port(admission, port);
                true
            }
            "pair" => {
                let sockets = self.table.pair_sockets(rt, admission, port);
                are_bound(&sockets, [Some(port), Some(second)]) == Some(is_wanted)
            }
            "port" => {
                let sockets = self.table.port_socket(rt, admission, port);
                are_bound(&sockets, [Some(port), None]) == Some(is_wanted)
            }
            _ => false,
        }
    }
}

// Does steps with a pair that is free.
fn play<
    R: Wait
        + Clock
        + Files<File = File>
        + Net<Listener = TcpListener, Stream = TcpStream>
        + AllocGlobal
        + Abort,
>(rt: &R, line: &str) -> io::Result<()> {
    let first = free_port(rt)?;
    let table = &PortTable::open(rt.alloc(), first, 1)?;
    let binder = PortBinder::new(rt, table, Ipv4Addr::UNSPECIFIED);
    steps::play(
        rt,
        &mut Pair {
            table,
            binder,
            first,
        },
        line,
    );
    Ok(())
}

#[test]
fn a_pair_is_bound_under_its_admission(rt: HostRuntime) -> io::Result<()> {
    play(
        &rt,
        "bind 7 0, bind 8 0 = no, pair 7 0, pair 8 0 = no, unbind 8 0, pair 7 0, \
        unbind 7 0, pair 7 0 = no, bind 8 0, bind 9 2 = no",
    )
}

#[test]
fn a_port_is_bound_alone(rt: HostRuntime) -> io::Result<()> {
    play(
        &rt,
        "bind-port 7 1, bind-port 8 1 = no, bind 8 0 = no, port 7 1, port 8 1 = no, \
        pair 7 0 = no, unbind-port 8 1, unbind 7 0, bind-port 8 0, port 7 1, \
        unbind-port 8 0, unbind-port 7 1, port 7 1 = no, bind 8 0, bind-port 9 2 = no",
    )
}

// A binder that has met many ports which others have.
const MANY: u32 = 20;

// Whether a port that another has is refused each time, by such a binder also when the other has let go
// of it, and is had once what was found is forgotten.
fn is_had_once_forgotten<R: Net + Wait + AllocGlobal>(rt: &R) -> io::Result<[bool; 3]> {
    let first = free_port(rt)?;
    let table = PortTable::open(rt.alloc(), first, 1)?;
    let mut binder = PortBinder::new(rt, &table, Ipv4Addr::LOCALHOST);
    let other = UdpSocket::bind(rt, SocketAddrV4::new(Ipv4Addr::LOCALHOST, first))?;
    let mut refused = 0_u32;
    for _ in 0..MANY {
        let is_refused = binder.bind(7, first).is_err();
        refused = refused.saturating_add(u32::from(is_refused));
    }
    drop(other);
    let is_known = binder.bind(7, first).is_err();
    table.forget_taken(rt);
    Ok([refused == MANY, is_known, binder.bind(7, first).is_ok()])
}

#[test]
fn a_port_that_another_has_is_remembered(rt: HostRuntime) -> io::Result<()> {
    assert!(rt; is_had_once_forgotten(&rt)? == [true; 3]);
    Ok(())
}
