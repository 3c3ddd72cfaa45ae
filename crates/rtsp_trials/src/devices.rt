//! Devices that fail at one of their calls, or at none.

ghost use Rattle.std.specs.Prelude.{◌≡◌, OnOk, OnErr};
ghost use Rattle.rtsp_record.specs.Counters.{raised};

use rtsp_engine::{BindFault, Binder, ByteIn, ByteOut, StreamFault, Words, WordsFault};
use std::alloc::Global;

/// At which of its calls each device fails, counted from 1. One with 0 never fails.
#[derive(Clone, Copy)]
pub struct Failing {
    pub read: u32,
    pub write: u32,
    pub bind: u32,
    pub word: u32,
}

/// No device fails.
pub const NEVER: Failing = Failing {
    read: 0,
    write: 0,
    bind: 0,
    word: 0,
};

// Counts a call of a device. Whether it is the one that fails.
fn is_last(left: &mut u32) -> bool {
    *left = left.wrapping_sub(1);
    *left == 0
}

/// Gives one request at each read.
#[derive(Drop)]
pub struct Requests<'a> {
    rest: &'a [u8],
    left: u32,
    failures: u64,
}

impl<'a> Requests<'a> {
    /// Those of a text, which end with an empty line each.
    pub fn new(text: &'a str, failing: Failing) -> Requests<'a> {
        Requests {
            rest: text.as_bytes(),
            left: failing.read,
            failures: 0,
        }
    }

    // The next request, if one is left.
    fn next(&mut self) -> &'a [u8]
        ensures { self.new.failures ≡ self.old.failures }
    {
        let blank = b"\r\n\r\n".as_slice();
        let at = self.rest.windows(4).position(|part| part == blank);
        let len = at.map_or(0, |at| at.saturating_add(4));
        let (request, rest) = self.rest.split_at_checked(len).unwrap_or((b"", b""));
        self.rest = rest;
        request
    }
}

impl ByteIn for Requests<'_> {
    ghost use Rattle.std.specs.Prelude.{None};

    ghost remaining = { λ s. None };

    ghost failures = { λ s. s.failures };

    fn read(&mut self, buf: &mut [u8]) -> Result<usize, StreamFault> {
        if is_last(&mut self.left) {
            self.failures = self.failures.saturating_add(1);
            return Err(StreamFault);
        }
        let request = self.next();
        if request.len() > buf.len() {
            return Ok(0);
        }
        buf[..request.len()].copy_from_slice(request);
        Ok(request.len())
    }
}

/// Keeps what is written.
#[derive(Drop)]
pub struct Answers {
    pub said: Vec<u8>,
    left: u32,
    failures: u64,
}

impl Answers {
    pub fn new(alloc: Global, failing: Failing) -> Answers {
        Answers {
            said: Vec::new(alloc),
            left: failing.write,
            failures: 0,
        }
    }
}

impl ByteOut for Answers {
    ghost use Rattle.std.specs.Prelude.{None};

    ghost contents = { λ s. None };

    ghost failures = { λ s. s.failures };

    fn write(&mut self, bytes: &[u8]) -> Result<(), StreamFault> {
        if is_last(&mut self.left) || self.said.extend_from_slice(bytes).is_err() {
            self.failures = self.failures.saturating_add(1);
            return Err(StreamFault);
        }
        Ok(())
    }
}

/// Binds all ports, but for one call.
#[derive(Drop)]
pub struct Ports {
    left: u32,
    failures: u64,
}

impl Ports {
    pub fn new(failing: Failing) -> Ports {
        Ports {
            left: failing.bind,
            failures: 0,
        }
    }
}

impl Binder for Ports {
    ghost use Rattle.std.specs.Prelude.{⊤};

    ghost calls = { record { binds = λ b a p c. ⊤; fails = λ b a p c. ⊤; unbinds = λ b a p c. ⊤; failures = λ b. b.failures } };

    fn bind(&mut self, _admission: u64, _pair: u16) -> Result<(), BindFault> {
        if is_last(&mut self.left) {
            self.failures = self.failures.saturating_add(1);
            return Err(BindFault);
        }
        Ok(())
    }

    fn unbind(&mut self, _admission: u64, _pair: u16) {}

    fn bind_port(&mut self, admission: u64, port: u16) -> Result<(), BindFault> {
        self.bind(admission, port)
    }

    fn unbind_port(&mut self, admission: u64, port: u16) {
        self.unbind(admission, port)
    }
}

/// Ids and SSRCs that are counted from 1, but for one call.
#[derive(Drop)]
pub struct Counted {
    ids: u32,
    ssrcs: u32,
    left: u32,
    failures: u64,
}

impl Counted {
    pub fn new(failing: Failing) -> Counted {
        Counted {
            ids: 0,
            ssrcs: 0,
            left: failing.word,
            failures: 0,
        }
    }

    // Counts a call, and where it is the one that fails, the failure.
    fn call(&mut self) -> Result<(), WordsFault>
        ensures ok { OnOk result (self.new.failures ≡ self.old.failures) }
        ensures err { OnErr result (self.new.failures ≡ raised self.old.failures) }
    {
        if is_last(&mut self.left) {
            self.failures = self.failures.saturating_add(1);
            return Err(WordsFault);
        }
        Ok(())
    }
}

impl Words for Counted {
    ghost use Rattle.std.specs.Prelude.{⊤};

    ghost calls = { record {
      ids = λ b word c. ⊤;
      ssrcs = λ b word c. ⊤;
      seqs = λ b word c. ⊤;
      rtptimes = λ b word c. ⊤;
      fails = λ b c. ⊤;
      failures = λ b. b.failures;
    } };

    fn id(&mut self) -> Result<u128, WordsFault> {
        self.call()?;
        self.ids = self.ids.wrapping_add(1);
        Ok(u128::from(self.ids))
    }

    fn ssrc(&mut self) -> Result<u32, WordsFault> {
        self.call()?;
        self.ssrcs = self.ssrcs.wrapping_add(1);
        Ok(self.ssrcs)
    }

    fn seq(&mut self) -> Result<u16, WordsFault> {
        self.call()?;
        Ok(0)
    }

    fn rtptime(&mut self) -> Result<u32, WordsFault> {
        self.call()?;
        Ok(0)
    }
}
