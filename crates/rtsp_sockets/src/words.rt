//! Words of a source of bytes.

ghost use Rattle.std.specs.Prelude.{◌≡◌, ◌<◌, ◌≤◌, ◌+◌, ◌-◌, slice_range, IsOk, IfOk, OnOk, OnErr};
ghost use Rattle.rtsp_record.specs.Counters.{raised};

use rtsp_traits::WordsFault;
use std::fs::File;
use std::io;
use std::io::Read;
use std::rt::Files;

const SOURCE: &str = "/dev/urandom";

// How many bytes are read at once.
const POOL: usize = 32;

/// Words made of the bytes that a source gives. A read of fewer bytes than were asked for is a
/// fault, and the next word is read anew.
#[derive(Drop)]
pub struct SourceWords<S> {
    source: S,
    pool: [u8; POOL],
    // How many bytes of the pool were given.
    used: usize,
    pub(crate) failed: u64,
    ghost within: { used ≤ 32 },
}

/// Words of /dev/urandom.
pub type RandomWords = SourceWords<File>;

impl SourceWords<File> {
    /// Opens the source. Nothing of the pool is given before it is read.
    pub fn open<R: Files<File = File>>(rt: &R) -> io::Result<RandomWords>
        ensures spent { IfOk result (λ w. w.used ≡ 32) }
        ensures counts { IfOk result (λ w. w.failed ≡ 0) }
    {
        Ok(SourceWords::new(File::open(rt, SOURCE)?))
    }
}

impl<S> SourceWords<S> {
    /// Words of a source, from the byte on that it gives next.
    pub fn new(source: S) -> SourceWords<S>
        ensures source { result.source ≡ source }
        ensures spent { result.used ≡ 32 }
        ensures counts { result.failed ≡ 0 }
    {
        SourceWords {
            source,
            pool: [0; POOL],
            used: POOL,
            failed: 0,
        }
    }
}

impl<S: Read> SourceWords<S> {
    ghost use Rattle.std.specs.Io.KnownBytes.{Consumes};
    ghost use Rattle.rtsp_sockets.specs.SourceWords.{unread, Draws, Loses};

    // Reads new bytes into the pool. Those of it that weren't given yet are never given.
    fn refill(&mut self) -> Result<(), WordsFault>
        ensures ok { OnOk result ((self.new.used ≡ 0) × (self.new.failed ≡ self.old.failed)) }
        ensures read { OnOk result (Consumes (S.remaining self.old.source) (S.remaining self.new.source) self.new.pool) }
        ensures err { OnErr result (self.new.failed ≡ raised self.old.failed) }
        ensures lost { Loses (unread S.remaining self.old) (unread S.remaining self.new) }
    {
        match self.source.read(&mut self.pool) {
            Ok(n) if n == POOL => {
                self.used = 0;
                Ok(())
            }
            _ => {
                self.used = POOL;
                self.failed = self.failed.saturating_add(1);
                Err(WordsFault)
            }
        }
    }

    // Sees to it that so many bytes of the pool are left.
    fn ready(&mut self, count: usize) -> Result<(), WordsFault>
        requires { count ≤ 32 }
        ensures there { OnOk result (self.new.used + count ≤ 32) }
        ensures left { self.old.used + count ≤ 32 → IsOk result × (self.new ≡ self.old) }
        ensures anew { 32 < self.old.used + count → OnOk result (self.new.used ≡ 0) }
        ensures lost { Loses (unread S.remaining self.old) (unread S.remaining self.new) }
        ensures ok { OnOk result (self.new.failed ≡ self.old.failed) }
        ensures err { OnErr result (self.new.failed ≡ raised self.old.failed) }
    {
        if POOL - self.used < count {
            return self.refill();
        }
        Ok(())
    }

    // The next bytes of the source. None are given twice.
    pub(crate) fn take<const N: usize>(&mut self) -> Result<[u8; N], WordsFault>
        requires { N ≤ 32 }
        ensures drawn { IfOk result (λ bytes. Draws (unread S.remaining self.old) bytes (unread S.remaining self.new)) }
        ensures bytes { IfOk result (λ bytes. bytes ≡ slice_range self.new.pool (self.new.used - N) self.new.used) }
        ensures next { self.old.used + N ≤ 32 → (self.new.used ≡ self.old.used + N) × (self.new.pool ≡ self.old.pool) }
        ensures first { 32 < self.old.used + N → OnOk result (self.new.used ≡ N) }
        ensures ok { OnOk result (self.new.failed ≡ self.old.failed) }
        ensures err { OnErr result (self.new.failed ≡ raised self.old.failed) }
        ensures lost { OnErr result (Loses (unread S.remaining self.old) (unread S.remaining self.new)) }
    {
        self.ready(N)?;
        let mut bytes = [0; N];
        bytes.copy_from_slice(&self.pool[self.used..self.used + N]);
        self.used += N;
        Ok(bytes)
    }
}
