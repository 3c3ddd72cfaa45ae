//! Ports, each by itself and in pairs.

ghost use Rattle.std.specs.Prelude.{◌≡◌, ◌↔◌, ◌+◌, ◌*◌, ◌<◌, ℕ, true, false, IfOk, IsTrue};
ghost use Rattle.rtsp_record.specs.declared.holdings.Thing.TheVariants.{Pair, Port};
ghost use Rattle.rtsp_record.specs.Choices.{HasPorts, least_pair_by, least_port_by};
ghost use Rattle.rtsp_record.specs.Rules.{InWhole};
ghost use Rattle.rtsp_pools.specs.Bits.{ArePairsOf};

use crate::bit_set::BitSet;
use rtsp_record::Whole;
use std::alloc::{AllocError, Global};

/// The ports of a whole, of which some are free. A pair is named by its first port, and is free
/// where both its ports are. Free pairs are kept beside the free ports, so the least of either is
/// found at once.
#[derive(Drop)]
pub struct PairPool {
    whole: Whole,
    free: BitSet,
    ports: BitSet,
    ghost numbered: { HasPorts whole },
    ghost sized: { free.limit ≡ whole.pairs },
    ghost each: { ports.limit ≡ 2 * whole.pairs },
    ghost paired: { ArePairsOf ports.words.items free.words.items },
}

impl PairPool {
    ghost use Rattle.rtsp_pools.specs.Pools.{is_free_port, is_free_pair, free_ports, free_pairs, PortsGone, PortsCome};

    /// All ports, free.
    pub fn open(alloc: Global, whole: &Whole) -> Result<Self, AllocError>
        requires { HasPorts whole.now }
        ensures whole { IfOk result (λ p. p.whole ≡ whole.now) }
        ensures free { IfOk result (λ p. (q : ℕ) → InWhole whole.now (Port q) → is_free_port p q ≡ true) }
    {
        let free = BitSet::full(alloc, usize::from(whole.pairs))?;
        let ports = BitSet::full(alloc, 2 * usize::from(whole.pairs))?;
        Ok(PairPool {
            whole: *whole,
            free,
            ports,
        })
    }

    // Which of the pairs it is.
    fn index(&self, first: u16) -> usize
        requires { InWhole self.now.whole (Pair first) }
        ensures { (result < self.now.whole.pairs) × (first ≡ self.now.whole.first_port + 2 * result) }
    {
        usize::from(first - self.whole.first_port) / 2
    }

    // Which of the ports it is.
    fn place(&self, port: u16) -> usize
        requires { InWhole self.now.whole (Port port) }
        ensures { (result < 2 * self.now.whole.pairs) × (port ≡ self.now.whole.first_port + result) }
    {
        usize::from(port - self.whole.first_port)
    }

    /// Whether it is a pair of the whole, and free.
    pub fn is_free(&self, first: u16) -> bool
        ensures { IsTrue result ↔ InWhole self.now.whole (Pair first) × (is_free_pair self.now first ≡ true) }
    {
        self.whole.has_pair(first) && self.free.contains(self.index(first))
    }

    /// Whether it is a port of the whole, and free.
    pub fn is_free_port(&self, port: u16) -> bool
        ensures { IsTrue result ↔ InWhole self.now.whole (Port port) × (is_free_port self.now port ≡ true) }
    {
        self.whole.has_port(port) && self.ports.contains(self.place(port))
    }

    /// The least free pair not below a port.
    pub fn least_free(&self, from: u32) -> Option<u16>
        ensures { result ≡ least_pair_by (is_free_pair self.now) self.now.whole from }
    {
        let first = usize::from(self.whole.first_port);
        let start = (from as usize).saturating_sub(first).div_ceil(2);
        let index = self.free.least_from(start)?;
        Some((first + 2 * index) as u16)
    }

    /// The least free port not below a port.
    pub fn least_free_port(&self, from: u32) -> Option<u16>
        ensures { result ≡ least_port_by (is_free_port self.now) self.now.whole from }
    {
        let first = usize::from(self.whole.first_port);
        let start = (from as usize).saturating_sub(first);
        let place = self.ports.least_from(start)?;
        Some((first + place) as u16)
    }

    /// Takes a free pair.
    pub fn take(&mut self, first: u16)
        requires in_whole { InWhole self.old.whole (Pair first) }
        requires free { is_free_pair self.old first ≡ true }
        ensures whole { self.new.whole ≡ self.old.whole }
        ensures gone { PortsGone self.old self.new (Pair first) }
    {
        let index = self.index(first);
        self.free.remove(index);
        self.ports.remove(2 * index);
        self.ports.remove(2 * index + 1);
    }

    /// Gives back a pair, both of whose ports are held.
    pub fn give(&mut self, first: u16)
        requires in_whole { InWhole self.old.whole (Pair first) }
        requires held { is_free_port self.old first ≡ false }
        requires next_held { is_free_port self.old (first + 1) ≡ false }
        ensures whole { self.new.whole ≡ self.old.whole }
        ensures come { PortsCome self.old self.new (Pair first) }
    {
        let index = self.index(first);
        self.free.insert(index);
        self.ports.insert(2 * index);
        self.ports.insert(2 * index + 1);
    }

    /// Takes a free port. Its pair isn't free any more.
    pub fn take_port(&mut self, port: u16)
        requires in_whole { InWhole self.old.whole (Port port) }
        requires free { is_free_port self.old port ≡ true }
        ensures whole { self.new.whole ≡ self.old.whole }
        ensures gone { PortsGone self.old self.new (Port port) }
    {
        let place = self.place(port);
        self.ports.remove(place);
        self.free.put(place / 2, false);
    }

    /// Gives back a port that is held. Its pair is free again where the other port is.
    pub fn give_port(&mut self, port: u16)
        requires in_whole { InWhole self.old.whole (Port port) }
        requires held { is_free_port self.old port ≡ false }
        ensures whole { self.new.whole ≡ self.old.whole }
        ensures come { PortsCome self.old self.new (Port port) }
    {
        let place = self.place(port);
        let index = place / 2;
        self.ports.insert(place);
        let has_both = self.ports.contains(2 * index) && self.ports.contains(2 * index + 1);
        self.free.put(index, has_both);
    }

    /// How many pairs are free.
    pub fn free_count(&self) -> usize
        ensures { result ≡ free_pairs self.now }
    {
        self.free.len()
    }

    /// How many ports are free.
    pub fn free_ports(&self) -> usize
        ensures { result ≡ free_ports self.now }
    {
        self.ports.len()
    }
}
