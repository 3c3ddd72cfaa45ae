//! What is free of a whole: ports, channels, and bits of the uplink.

ghost use Rattle.std.specs.Prelude.{◌≡◌, ◌+◌, ◌≤◌, ◌↔◌, ℕ, true, false, IfOk, OnOk, IsOk, IsTrue};
ghost use Rattle.std.specs.FinMap.{empty};
ghost use Rattle.indexmap.specs.IndexMap.{spare};
ghost use Rattle.rtsp_record.specs.Books.{Book, after};
ghost use Rattle.rtsp_record.specs.Sums.{one_if, held_rate, Channel};
ghost use Rattle.rtsp_record.specs.Rules.{InWhole, IsFree};
ghost use Rattle.rtsp_record.specs.Choices.{HasPorts, is_free, least_pair, least_port, chosen_chan};
ghost use Rattle.rtsp_index.specs.Following.{Follows, is_chan, is_chan_hold};
ghost use Rattle.rtsp_index.specs.Free.{free_pairs, free_ports};

use rtsp_pools::{ChanPool, PairPool, RatePool};
use rtsp_record::{Record, Thing, Whole};
use std::alloc::{AllocError, Global};

/// The pools of a whole.
#[derive(Drop)]
pub(crate) struct Pools {
    pairs: PairPool,
    chans: ChanPool,
    rate: RatePool,
    ghost uplink: { rate.uplink ≡ pairs.whole.uplink },
}

impl Pools {
    ghost use Rattle.rtsp_index.specs.Pooling.{ArePoolsOf, IsFreeIn, IsHeldIn, IsTaken, IsGiven};

    /// All of the whole, free.
    pub(crate) fn open(alloc: Global, whole: &Whole) -> Result<Self, AllocError>
        requires { HasPorts whole.now }
        ensures whole { IfOk result (λ p. p.pairs.whole ≡ whole.now) }
        ensures free { IfOk result (ArePoolsOf empty) }
    {
        let pairs = PairPool::open(alloc, whole)?;
        Ok(Pools {
            pairs,
            chans: ChanPool::open(alloc),
            rate: RatePool::open(whole),
        })
    }

    /// Takes memory for the channels of so many more connections.
    pub(crate) fn reserve(&mut self, additional: usize) -> Result<(), AllocError>
        ensures whole { self.new.pairs.whole ≡ self.old.pairs.whole }
        ensures same { (b : Book) → ArePoolsOf b self.old → ArePoolsOf b self.new }
        ensures room { OnOk result (additional ≤ spare self.new.chans.held) }
        ensures succeeds { additional ≡ 0 → IsOk result }
    {
        if additional == 0 {
            return Ok(());
        }
        self.chans.reserve(additional)
    }

    // Holds a thing that is free.
    fn hold(&mut self, thing: &Thing)
        requires free { InWhole self.old.pairs.whole thing.now × IsFreeIn self.old thing.now }
        requires room { one_if (is_chan thing.now) ≤ spare self.old.chans.held }
        ensures taken { IsTaken thing.now self.old self.new }
        ensures room { spare self.old.chans.held ≤ spare self.new.chans.held + one_if (is_chan thing.now) }
    {
        match *thing {
            Thing::Pair(first) => self.pairs.take(first),
            Thing::Port(port) => self.pairs.take_port(port),
            Thing::Chan(conn, first) => match self.chans.take(conn, first) {
                Ok(()) => {}
                Err(_) => unreachable!(),
            },
            Thing::Rate(bits) => self.rate.take(bits),
        }
    }

    // Gives back a thing that is held.
    fn free(&mut self, thing: &Thing)
        requires { InWhole self.old.pairs.whole thing.now × IsHeldIn self.old thing.now }
        ensures given { IsGiven thing.now self.old self.new }
        ensures room { spare self.old.chans.held ≤ spare self.new.chans.held }
    {
        match *thing {
            Thing::Pair(first) => self.pairs.give(first),
            Thing::Port(port) => self.pairs.give_port(port),
            Thing::Chan(conn, first) => self.chans.give(conn, first),
            Thing::Rate(bits) => self.rate.give(bits),
        }
    }

    /// Holds what the record holds, or gives back what it frees.
    pub(crate) fn follow(&mut self, change: &Record)
        requires follows { (b : Book) × Follows self.old.pairs.whole b change.now × ArePoolsOf b self.old }
        requires room { one_if (is_chan_hold change.now) ≤ spare self.old.chans.held }
        ensures whole { self.new.pairs.whole ≡ self.old.pairs.whole }
        ensures follows { (b : Book) → Follows self.old.pairs.whole b change.now → ArePoolsOf b self.old → ArePoolsOf (after b change.now) self.new }
        ensures room { spare self.old.chans.held ≤ spare self.new.chans.held + one_if (is_chan_hold change.now) }
    {
        match *change {
            Record::Hold(holding) => self.hold(&holding.thing),
            Record::Free(holding) => self.free(&holding.thing),
            _ => {}
        }
    }

    /// Whether the thing is one of the whole, and free.
    pub(crate) fn is_free(&self, thing: &Thing) -> bool
        ensures { (b : Book) → ArePoolsOf b self.now → (IsTrue result ↔ IsFree self.now.pairs.whole b thing.now) }
    {
        match *thing {
            Thing::Pair(first) => self.pairs.is_free(first),
            Thing::Port(port) => self.pairs.is_free_port(port),
            Thing::Chan(conn, first) => first % 2 == 0 && self.chans.is_free(conn, first),
            Thing::Rate(bits) => bits <= self.rate.free_count(),
        }
    }

    /// The least free pair of ports not below `from`, by its first port.
    pub(crate) fn least_pair(&self, from: u32) -> Option<u16>
        ensures { (b : Book) → ArePoolsOf b self.now → result ≡ least_pair self.now.pairs.whole b from }
    {
        self.pairs.least_free(from)
    }

    /// The least free port not below `from`.
    pub(crate) fn least_port(&self, from: u32) -> Option<u16>
        ensures { (b : Book) → ArePoolsOf b self.now → result ≡ least_port self.now.pairs.whole b from }
    {
        self.pairs.least_free_port(from)
    }

    /// The wish where it is free on the connection, else the least free even pair of channels.
    pub(crate) fn least_chan(&self, conn: u64, wish: Option<u8>) -> Option<u8>
        ensures { (b : Book) → ArePoolsOf b self.now → result ≡ chosen_chan b conn wish }
    {
        self.chans.least_or_wish(conn, wish)
    }

    /// Whether a channel of the connection is held.
    pub(crate) fn has_channels(&self, conn: u64) -> bool
        ensures yes { (b : Book) → ArePoolsOf b self.now → result ≡ true → (l : ℕ) × (is_free b (Channel conn l) ≡ false) }
        ensures no { (b : Book) → ArePoolsOf b self.now → result ≡ false → (l : ℕ) → is_free b (Channel conn l) ≡ true }
    {
        self.chans.has_held(conn)
    }

    /// How many pairs of ports are free.
    pub(crate) fn free_pairs(&self) -> usize
        ensures { (b : Book) → ArePoolsOf b self.now → result ≡ free_pairs self.now.pairs.whole b }
    {
        self.pairs.free_count()
    }

    /// How many ports are free.
    pub(crate) fn free_ports(&self) -> usize
        ensures { (b : Book) → ArePoolsOf b self.now → result ≡ free_ports self.now.pairs.whole b }
    {
        self.pairs.free_ports()
    }

    /// All bits per second that are held.
    pub(crate) fn held_rate(&self) -> u64
        ensures { (b : Book) → ArePoolsOf b self.now → result ≡ held_rate b }
    {
        self.rate.held()
    }
}
