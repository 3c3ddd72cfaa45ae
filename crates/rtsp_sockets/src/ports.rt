//! The sockets of the ports that are bound.

ghost use Rattle.std.specs.Prelude.{◌≡◌, ◌⊎◌, ◌<◌, IfSome, IfOk};
ghost use Rattle.std.specs.Arc.{arc_value};
ghost use Rattle.rtsp_sockets.specs.Slots.{IsOf};
ghost use Rattle.rtsp_sockets.specs.Sockets.{IsOpenedFor};

use crate::bound::Bound;
use crate::options::drop_input;
use crate::slots::Slots;
use crate::taken::TakenPorts;
use std::alloc::{AllocError, Global};
use std::io;
use std::io::ErrorKind;
use std::net::{Ipv4Addr, Net, SocketAddrV4, UdpSocket};
use std::os::fd::AsRawFd;
use std::sync::{Arc, Mutex, Wait};

/// The sockets of a pair of ports, or of the one port that RTP and RTCP share, bound under an
/// admission. None blocks.
#[derive(Drop)]
pub struct PortSockets {
    pub(crate) admission: u64,
    // The first of the ports.
    pub(crate) port: u16,
    /// From which packets are sent: that of the even port of a pair, or of the one port.
    pub rtp: UdpSocket,
    /// That of a pair's odd port. It is bound, so that the port is the server's, and never read.
    pub rtcp: Option<UdpSocket>,
}

// Why a port isn't bound.
#[derive(Clone, Copy, PartialEq, Eq)]
pub(crate) enum PortFault {
    // Another has it.
    Taken,
    // There is no socket, or none on this address of the host, whatever the port.
    Other,
}

impl PortFault {
    fn of(fault: &io::Error) -> PortFault {
        if fault.kind() == ErrorKind::AddrInUse {
            PortFault::Taken
        } else {
            PortFault::Other
        }
    }
}

// Where ports are to be bound, and how.
#[derive(Clone, Copy, PartialEq, Eq)]
pub(crate) struct Place {
    // The address of the host.
    pub(crate) host: Ipv4Addr,
    // Whether a port isn't tried that was found to be another's since `forget_taken`.
    pub(crate) trusts: bool,
}

/// The sockets of all ports that are bound, shared by all who bind, and which ports others have.
pub struct PortTable {
    alloc: Global,
    pairs: Mutex<Slots<2>>,
    single: Mutex<Slots<1>>,
    taken: Mutex<TakenPorts>,
}

// Written out, so that whoever lets go of it makes one call, and not one for each of its parts.
impl Drop for PortTable {
    fn drop(self) {
        let Self {
            alloc: _,
            pairs: _pairs,
            single: _single,
            taken: _taken,
        } = self;
    }
}

impl PortTable {
    /// A table of the ports of so many pairs from this one on, of which none is bound.
    pub fn open(alloc: Global, first_port: u16, pairs: u16) -> Result<PortTable, AllocError> {
        let pairs = usize::from(pairs);
        Ok(PortTable {
            alloc,
            pairs: Mutex::new(Slots::open(alloc, first_port, pairs)?),
            single: Mutex::new(Slots::open(alloc, first_port, 2 * pairs)?),
            taken: Mutex::new(TakenPorts::open(alloc, first_port, 2 * pairs)?),
        })
    }

    /// Has all ports tried again that were found to be another's. Between two calls a binder that has met
    /// some of them tries none of the others anew: it is called about once a second.
    pub fn forget_taken<R: Wait>(&self, rt: &R) {
        self.taken.lock(rt).forget();
    }

    /// The sockets of a pair, named by its first port, that is bound under this admission. Whoever
    /// has them keeps them open after the pair was unbound too.
    pub fn pair_sockets<R: Wait>(
        &self,
        rt: &R,
        admission: u64,
        pair: u16,
    ) -> Option<Arc<PortSockets>>
        ensures { IfSome result (λ s. IsOpenedFor (arc_value s) admission pair 2) }
    {
        sockets_of(rt, &self.pairs, admission, pair)
    }

    /// The socket of a port that is bound alone under this admission. Whoever has it keeps it open
    /// after the port was unbound too.
    pub fn port_socket<R: Wait>(
        &self,
        rt: &R,
        admission: u64,
        port: u16,
    ) -> Option<Arc<PortSockets>>
        ensures { IfSome result (λ s. IsOpenedFor (arc_value s) admission port 1) }
    {
        sockets_of(rt, &self.single, admission, port)
    }

    // Binds a pair under the admission. A refusal leaves nothing bound. The sockets are opened and closed
    // outside of the table's lock, so nobody waits for that. A pair and a single port that overlap can't
    // both be bound: the system refuses the second its socket.
    pub(crate) fn bind_pair<R: Net + Wait>(
        &self,
        rt: &R,
        place: Place,
        admission: u64,
        pair: u16,
    ) -> Result<(), PortFault> {
        let bound = self.open_address(rt, place, admission, pair)?;
        put(rt, &self.pairs, bound)
    }

    // The same for a port alone.
    pub(crate) fn bind_port<R: Net + Wait>(
        &self,
        rt: &R,
        place: Place,
        admission: u64,
        port: u16,
    ) -> Result<(), PortFault> {
        let bound = self.open_address(rt, place, admission, port)?;
        put(rt, &self.single, bound)
    }

    pub(crate) fn unbind_pair<R: Wait>(&self, rt: &R, admission: u64, pair: u16) {
        drop(take(rt, &self.pairs, admission, pair));
        self.note(rt, pair, None);
        self.note(rt, pair.saturating_add(1), None);
    }

    pub(crate) fn unbind_port<R: Wait>(&self, rt: &R, admission: u64, port: u16) {
        drop(take(rt, &self.single, admission, port));
        self.note(rt, port, None);
    }

    // Notes on which address of the host another has a port, or that none has it.
    fn note<R: Wait>(&self, rt: &R, port: u16, host: Option<u32>) {
        self.taken.lock(rt).note(port, host);
    }

    // Whether a port isn't to be tried.
    fn is_known<R: Wait>(&self, rt: &R, place: Place, port: u16) -> bool {
        place.trusts && self.taken.lock(rt).is_taken(place.host.to_bits(), port)
    }

    // A socket of this port. It counts as another's before it is tried, and no more where it isn't: so
    // whoever lets go of it meanwhile is the last who notes of it.
    fn open_port<R: Net + Wait>(
        &self,
        rt: &R,
        place: Place,
        port: u16,
    ) -> Result<UdpSocket, PortFault> {
        self.note(rt, port, Some(place.host.to_bits()));
        let opened = open_socket(rt, place.host, port);
        if !matches!(&opened, Err(PortFault::Taken)) {
            self.note(rt, port, None);
        }
        opened
    }

    // The sockets of an address, one of each of its ports: of a pair, or of one port.
    fn open_address<R: Net + Wait, const PORTS: usize>(
        &self,
        rt: &R,
        place: Place,
        admission: u64,
        port: u16,
    ) -> Result<Bound<PORTS>, PortFault>
        requires { (PORTS ≡ 1) ⊎ (PORTS ≡ 2) }
        ensures { IfOk result (λ b. IsOf b admission port) }
    {
        let second = port.saturating_add(1);
        if self.is_known(rt, place, port) || (PORTS == 2 && self.is_known(rt, place, second)) {
            return Err(PortFault::Taken);
        }
        let rtp = self.open_port(rt, place, port)?;
        let rtcp = if PORTS == 2 {
            Some(self.open_port(rt, place, second)?)
        } else {
            None
        };
        let sockets = PortSockets {
            admission,
            port,
            rtp,
            rtcp,
        };
        match Arc::new(self.alloc, sockets) {
            Ok(sockets) => Ok(Bound { sockets }),
            Err(_) => Err(PortFault::Other),
        }
    }
}

fn sockets_of<R: Wait, const PORTS: usize>(
    rt: &R,
    slots: &Mutex<Slots<PORTS>>,
    admission: u64,
    port: u16,
) -> Option<Arc<PortSockets>>
    requires { 0 < PORTS }
    ensures { IfSome result (λ s. IsOpenedFor (arc_value s) admission port PORTS) }
{
    let slots = slots.lock(rt);
    Arc::try_clone(slots.get(admission, port)?).ok()
}

// Puts an address into the table, where its place is free.
fn put<R: Wait, const PORTS: usize>(
    rt: &R,
    slots: &Mutex<Slots<PORTS>>,
    bound: Bound<PORTS>,
) -> Result<(), PortFault>
    requires { 0 < PORTS }
{
    let left = slots.lock(rt).put(bound);
    if left.is_none() {
        Ok(())
    } else {
        Err(PortFault::Taken)
    }
}

// Takes an address out of the table, where it is bound under this admission.
fn take<R: Wait, const PORTS: usize>(
    rt: &R,
    slots: &Mutex<Slots<PORTS>>,
    admission: u64,
    port: u16,
) -> Option<Bound<PORTS>>
    requires { 0 < PORTS }
    ensures { IfSome result (λ b. IsOf b admission port) }
{
    slots.lock(rt).take(admission, port)
}

// A socket of this port on this address of the host, from which its packets leave. The reports that
// players send to it are never read.
fn open_socket<R: Net>(rt: &R, host: Ipv4Addr, port: u16) -> Result<UdpSocket, PortFault> {
    let socket = match UdpSocket::bind(rt, SocketAddrV4::new(host, port)) {
        Ok(socket) => socket,
        Err(fault) => return Err(PortFault::of(&fault)),
    };
    if socket.set_nonblocking(true).is_ok() && drop_input(socket.as_raw_fd()) {
        Ok(socket)
    } else {
        Err(PortFault::Other)
    }
}
