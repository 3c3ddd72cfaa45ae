//! Channels of connections.

ghost use Rattle.std.specs.Prelude.{◌≡◌, ◌≢◌, ◌+◌, ◌*◌, ◌/◌, ◌%◌, ◌<◌, ◌≤◌, ◌==◌, ℕ, nat_eq, true, false, Some, IsOk, OnOk, OnErr};
ghost use Rattle.std.specs.Int.{bit_at};
ghost use Rattle.indexmap.specs.IndexMap.{get, spare};
ghost use Rattle.rtsp_record.specs.Choices.{least_chan_by, chosen_chan_by};
ghost use Rattle.rtsp_record.specs.Sums.{one_if};

use indexmap::IndexMap;
use std::alloc::{AllocError, Global};

/// The channels of all connections, two by two from an even one on, of which some are held. A pair
/// of channels is named by its first. A connection of which none is held takes no place.
#[derive(Drop)]
pub struct ChanPool {
    held: IndexMap<u64, u128>,
    ghost some: { (c bits : ℕ) → get nat_eq held c ≡ Some bits → bits ≢ 0 },
}

// The bits with one of them on or off.
fn with_bit(bits: u128, place: u32, on: bool) -> u128
    requires { place < 128 }
    ensures there { bit_at result place ≡ one_if on }
    ensures others { (i : ℕ) → i ≢ place → bit_at result i ≡ bit_at bits i }
{
    if on {
        bits | 1 << place
    } else {
        bits & !(1 << place)
    }
}

// Whether the bit is off, as each past the 128 bits is.
fn is_off(bits: u128, place: u32) -> bool
    ensures { result ≡ (bit_at bits place == 0) }
{
    place >= 128 || (bits >> place) & 1 == 0
}

// 1 where it is so, else 0.
fn number_of(is_so: bool) -> usize
    ensures value { result ≡ one_if is_so }
    ensures small { result ≤ 1 }
{
    if is_so { 1 } else { 0 }
}

impl ChanPool {
    ghost use Rattle.rtsp_pools.specs.Pools.{held_bits, is_free_channel, is_free_chan, free_chans, HasGone, HasCome, IsSame};

    /// No channel held.
    pub fn open(alloc: Global) -> Self
        ensures { (c l : ℕ) → is_free_channel result c l ≡ true }
    {
        ChanPool {
            held: IndexMap::new(alloc),
        }
    }

    // The pairs of channels of the connection that are held, as bits.
    fn bits(&self, conn: u64) -> u128
        ensures { result ≡ held_bits self.now conn }
    {
        match self.held.get(&conn) {
            Some(bits) => *bits,
            None => 0,
        }
    }

    /// Whether both channels are free.
    pub fn is_free(&self, conn: u64, first: u8) -> bool
        ensures { result ≡ is_free_chan self.now conn first }
    {
        let bits = self.bits(conn);
        let channel = u32::from(first);
        is_off(bits, channel / 2) && is_off(bits, (channel + 1) / 2)
    }

    /// The least even channel of the connection that is free with the next.
    pub fn least_free(&self, conn: u64) -> Option<u8>
        ensures { result ≡ least_chan_by (is_free_chan self.now conn) }
    {
        let free = !self.bits(conn);
        if free == 0 {
            None
        } else {
            Some(2 * free.trailing_zeros() as u8)
        }
    }

    /// The wish where it is free with the next channel, else the least that is.
    pub fn least_or_wish(&self, conn: u64, wish: Option<u8>) -> Option<u8>
        ensures { result ≡ chosen_chan_by (is_free_chan self.now conn) wish }
    {
        match wish {
            Some(first) if self.is_free(conn, first) => Some(first),
            _ => self.least_free(conn),
        }
    }

    /// Takes memory for so many more connections.
    pub fn reserve(&mut self, additional: usize) -> Result<(), AllocError>
        ensures room { OnOk result (additional ≤ spare self.new.held) }
        ensures same { IsSame self.old self.new }
    {
        self.held.reserve(additional)
    }

    /// Takes two channels that are free. Memory is wanted where it is the connection's first pair
    /// and none was reserved; refused, nothing changes.
    pub fn take(&mut self, conn: u64, first: u8) -> Result<(), AllocError>
        requires even { first % 2 ≡ 0 }
        requires free { is_free_chan self.old conn first ≡ true }
        ensures ok { OnOk result (HasGone self.old self.new conn first) }
        ensures err { OnErr result (IsSame self.old self.new) }
        ensures succeeds { 0 < spare self.old.held → IsOk result }
        ensures room { spare self.old.held ≤ spare self.new.held + 1 }
    {
        let bits = with_bit(self.bits(conn), u32::from(first) / 2, true);
        match self.held.insert(conn, bits) {
            Ok(_) => Ok(()),
            Err(_) => Err(AllocError),
        }
    }

    /// Gives back two channels that are held.
    pub fn give(&mut self, conn: u64, first: u8)
        requires even { first % 2 ≡ 0 }
        requires held { is_free_channel self.old conn first ≡ false }
        ensures given { HasCome self.old self.new conn first }
        ensures room { spare self.old.held ≤ spare self.new.held }
    {
        let bits = with_bit(self.bits(conn), u32::from(first) / 2, false);
        if bits == 0 {
            self.held.swap_remove(&conn);
        } else if let Some(held) = self.held.get_mut(&conn) {
            *held = bits;
        }
    }

    /// Whether a channel of the connection is held.
    pub fn has_held(&self, conn: u64) -> bool
        ensures yes { result ≡ true → (l : ℕ) × (is_free_channel self.now conn l ≡ false) }
        ensures no { result ≡ false → (l : ℕ) → is_free_channel self.now conn l ≡ true }
    {
        self.bits(conn) != 0
    }

    /// How many even channels of the connection are free with the next.
    pub fn free_count(&self, conn: u64) -> usize
        ensures { result ≡ free_chans self.now conn }
    {
        let bits = self.bits(conn);
        let mut count = 0;
        for pair in 0..128 {
            count += number_of(is_off(bits, pair));
        }
        count
    }
}
