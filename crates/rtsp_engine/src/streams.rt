//! What a connection reads from and writes to.

ghost use Rattle.std.specs.Prelude.{◌≡◌, ◌≤◌, ℕ, List, length, take, Option, IfOk, OnOk, OnErr};
ghost use Rattle.std.specs.Io.KnownBytes.{Appends, ReadConsumes};
ghost use Rattle.rtsp_record.specs.Counters.{HasCause};
ghost use Rattle.rtsp_engine.specs.Streams.{WritesPart};

use std::io::{ErrorKind, Read, Write};

/// A read or a write that failed.
#[derive(Debug, Drop)]
pub struct StreamFault;

/// A reader of bytes. Its failures are counted, so a fault is reported only where there was one.
pub trait ByteIn {
    /// The bytes that it will give from here on, where they are known.
    ghost remaining: { Self → Option (List ℕ) };

    /// How often it has failed.
    ghost failures: { Self → ℕ };

    /// Reads some bytes into the front of the buffer; none at the end of the input.
    fn read(&mut self, buf: &mut [u8]) -> Result<usize, StreamFault>
        ensures bound { IfOk result (λ n. n ≤ length buf.new) }
        ensures bytes { ReadConsumes (remaining self.old) (remaining self.new) result buf.new }
        ensures cause { HasCause (failures self.old) (failures self.new) result };
}

/// A writer of bytes, with a count of its failures.
pub trait ByteOut {
    /// The bytes that it holds, where they are known.
    ghost contents: { Self → Option (List ℕ) };

    /// How often it has failed.
    ghost failures: { Self → ℕ };

    /// Writes all of the bytes, or fails after some of them.
    fn write(&mut self, bytes: &[u8]) -> Result<(), StreamFault>
        ensures all { OnOk result (Appends (contents self.old) (contents self.new) bytes.now) }
        ensures part { OnErr result (WritesPart (contents self.old) (contents self.new) bytes.now) }
        ensures cause { HasCause (failures self.old) (failures self.new) result };
}

/// A `std::io::Read` that counts its failures.
#[derive(Drop)]
pub struct CountedReader<R> {
    inner: R,
    failed: u64,
}

impl<R> CountedReader<R> {
    /// Failures of the reader are counted from here on.
    pub fn new(inner: R) -> CountedReader<R>
        ensures { result ≡ record { inner = inner; failed = 0 } }
    {
        CountedReader { inner, failed: 0 }
    }
}

impl<R: Read> ByteIn for CountedReader<R> {
    ghost remaining = { λ s. R.remaining s.inner };

    ghost failures = { λ s. s.failed };

    fn read(&mut self, buf: &mut [u8]) -> Result<usize, StreamFault> {
        match self.inner.read(buf) {
            Ok(n) => Ok(n),
            Err(_) => {
                self.failed = self.failed.saturating_add(1);
                Err(StreamFault)
            }
        }
    }
}

/// A `std::io::Write` that counts its failures. After a partial write it goes on with the rest.
#[derive(Drop)]
pub struct CountedWriter<W> {
    inner: W,
    failed: u64,
}

impl<W> CountedWriter<W> {
    /// Failures of the writer are counted from here on.
    pub fn new(inner: W) -> CountedWriter<W>
        ensures { result ≡ record { inner = inner; failed = 0 } }
    {
        CountedWriter { inner, failed: 0 }
    }
}

impl<W: Write> CountedWriter<W> {
    // Writes some of the bytes. `Ok(0)` is that a signal came, and asks for one more try.
    #[tactic(auto, using(crate::proofs::Known::appends_kept_none))]
    fn write_some(&mut self, bytes: &[u8]) -> Result<usize, StreamFault>
        ensures within { IfOk result (λ n. n ≤ length bytes.now) }
        ensures some { IfOk result (λ n. Appends (W.contents self.old.inner) (W.contents self.new.inner) (take n bytes.now)) }
        ensures none { OnErr result (Appends (W.contents self.old.inner) (W.contents self.new.inner) (take 0 bytes.now)) }
        ensures count { self.new.failed ≡ self.old.failed }
    {
        match self.inner.write(bytes) {
            Ok(0) => Err(StreamFault),
            Ok(n) => Ok(n),
            Err(e) if e.kind() == ErrorKind::Interrupted => Ok(0),
            Err(_) => Err(StreamFault),
        }
    }

    // Writes the bytes from the front, as often as it takes.
    #[tactic(auto, using(crate::proofs::Known::appends_take))]
    fn write_front(&mut self, bytes: &[u8]) -> Result<(), StreamFault>
        ensures all { OnOk result (Appends (W.contents self.old.inner) (W.contents self.new.inner) bytes.now) }
        ensures part { OnErr result (WritesPart (W.contents self.old.inner) (W.contents self.new.inner) bytes.now) }
        ensures count { self.new.failed ≡ self.old.failed }
    {
        let mut at = 0;
        for _ in 0..u64::MAX {
            if at >= bytes.len() {
                return Ok(());
            }
            match self.write_some(bytes.split_at(at).1) {
                Ok(n) => at += n,
                Err(StreamFault) => return Err(StreamFault),
            }
        }
        Err(StreamFault)
    }
}

impl<W: Write> ByteOut for CountedWriter<W> {
    ghost contents = { λ s. W.contents s.inner };

    ghost failures = { λ s. s.failed };

    fn write(&mut self, bytes: &[u8]) -> Result<(), StreamFault> {
        match self.write_front(bytes) {
            Ok(()) => Ok(()),
            Err(StreamFault) => {
                self.failed = self.failed.saturating_add(1);
                Err(StreamFault)
            }
        }
    }
}
