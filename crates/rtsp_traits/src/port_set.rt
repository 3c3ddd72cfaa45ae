//! A binder that opens no socket.

ghost use Rattle.std.specs.Prelude.{◌≡◌, ◌↔◌, IfOk, IsTrue, Some, None, slice_get};
ghost use Rattle.rtsp_traits.specs.PortSet.{calls, IsOwnPair, IsOwnPort, pair_place, port_place, NoneBound, IsOpenPair, IsOpenPort};

use rtsp_admit::{BindFault, Binder};
use std::alloc::{AllocError, Global};

/// The ports that are bound, pairs and single ones, each with its admission. No socket is opened.
/// It has the ports of some pairs, from its first port on. A pair has to begin with the first port
/// of one of these, and a single port may be either port of one; a bind of any other is a fault.
#[derive(Drop)]
pub struct PortSet {
    first_port: u16,
    // The admission of each pair that is bound, in the order of the ports.
    pairs: Vec<Option<u64>>,
    // The admission of each port that is bound alone.
    ports: Vec<Option<u64>>,
    failed: u64,
}

// Whether a pair begins at the first port of all, or some pairs above it.
fn is_own_pair(first: u16, pair: u16) -> bool
    ensures { IsTrue result ↔ IsOwnPair first pair }
{
    first <= pair && (pair - first) % 2 == 0
}

fn is_own_port(first: u16, port: u16) -> bool
    ensures { IsTrue result ↔ IsOwnPort first port }
{
    first <= port
}

// The place of a pair, by its first port and that of all.
fn pair_place(first: u16, pair: u16) -> usize
    ensures { result ≡ pair_place first pair }
{
    (pair.saturating_sub(first) / 2) as usize
}

// The place of a port, by the first of all.
fn port_place(first: u16, port: u16) -> usize
    ensures { result ≡ port_place first port }
{
    port.saturating_sub(first) as usize
}

// Whether the place is there, and free.
fn is_open(admissions: &[Option<u64>], place: usize) -> bool
    ensures { IsTrue result ↔ (slice_get admissions.now place ≡ Some None) }
{
    place < admissions.len() && admissions[place].is_none()
}

impl PortSet {
    /// A set of the ports of so many pairs from this one on, of which none is bound. All its memory
    /// is taken here.
    pub fn open(alloc: Global, first_port: u16, pairs: u16) -> Result<PortSet, AllocError>
        ensures { IfOk result (NoneBound first_port pairs) }
    {
        let pairs = pairs as usize;
        Ok(PortSet {
            first_port,
            pairs: Vec::from_elem(alloc, None, pairs)?,
            ports: Vec::from_elem(alloc, None, 2 * pairs)?,
            failed: 0,
        })
    }

    // Whether this is a pair of the set that is free, and so are its two ports.
    fn is_open_pair(&self, pair: u16) -> bool
        ensures { IsTrue result ↔ IsOpenPair self.now pair }
    {
        let first = port_place(self.first_port, pair);
        is_own_pair(self.first_port, pair)
            && is_open(&self.pairs, pair_place(self.first_port, pair))
            && is_open(&self.ports, first)
            && is_open(&self.ports, first + 1)
    }

    // Whether this is a port of the set that is free, and so is its pair.
    fn is_open_port(&self, port: u16) -> bool
        ensures { IsTrue result ↔ IsOpenPort self.now port }
    {
        is_own_port(self.first_port, port)
            && is_open(&self.ports, port_place(self.first_port, port))
            && is_open(&self.pairs, pair_place(self.first_port, port))
    }
}

impl Binder for PortSet {
    ghost calls = { calls };

    fn bind(&mut self, admission: u64, pair: u16) -> Result<(), BindFault> {
        if self.is_open_pair(pair) {
            let place = pair_place(self.first_port, pair);
            self.pairs[place] = Some(admission);
            return Ok(());
        }
        self.failed = self.failed.saturating_add(1);
        Err(BindFault)
    }

    fn unbind(&mut self, admission: u64, pair: u16) {
        let place = pair_place(self.first_port, pair);
        if is_own_pair(self.first_port, pair)
            && place < self.pairs.len()
            && self.pairs[place] == Some(admission)
        {
            self.pairs[place] = None;
        }
    }

    fn bind_port(&mut self, admission: u64, port: u16) -> Result<(), BindFault> {
        if self.is_open_port(port) {
            let place = port_place(self.first_port, port);
            self.ports[place] = Some(admission);
            return Ok(());
        }
        self.failed = self.failed.saturating_add(1);
        Err(BindFault)
    }

    fn unbind_port(&mut self, admission: u64, port: u16) {
        let place = port_place(self.first_port, port);
        if is_own_port(self.first_port, port)
            && place < self.ports.len()
            && self.ports[place] == Some(admission)
        {
            self.ports[place] = None;
        }
    }
}
