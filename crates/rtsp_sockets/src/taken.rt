//! Which ports others were found to have lately.

ghost use Rattle.std.specs.Prelude.{◌≡◌, ℕ, ◌-◌, ◌↔◌, IsTrue, IfOk, None, Some, replicate};
ghost use Rattle.rtsp_sockets.specs.Taken.{IsTaken, PutsAt, IsOfRange};

use std::alloc::{AllocError, Global};

// The ports of a range that were found to be another's since they were forgotten last: each with the
// address of the host on which that was so last. All memory is taken at the beginning.
#[derive(Drop)]
pub(crate) struct TakenPorts {
    first_port: u16,
    hosts: Vec<Option<u32>>,
}

impl TakenPorts {
    // None of so many ports from this one on was found to be another's.
    pub(crate) fn open(
        alloc: Global,
        first_port: u16,
        count: usize,
    ) -> Result<TakenPorts, AllocError>
        ensures first { IfOk result (λ t. t.first_port ≡ first_port) }
        ensures none { IfOk result (λ t. t.hosts.items ≡ replicate count None) }
    {
        let mut hosts = Vec::with_capacity(alloc, count)?;
        for _count in 0..count {
            hosts.push(None)?;
        }
        Ok(TakenPorts { first_port, hosts })
    }

    // The place of a port in the range.
    fn place(&self, port: u16) -> usize
        ensures { result ≡ port - self.now.first_port }
    {
        usize::from(port.saturating_sub(self.first_port))
    }

    // Whether a port was found to be another's on this address of the host.
    pub(crate) fn is_taken(&self, host: u32, port: u16) -> bool
        ensures { IsTrue result ↔ IsTaken self.now host port }
    {
        match self.hosts.get(self.place(port)) {
            Some(Some(other)) => *other == host,
            _ => false,
        }
    }

    // Notes that a port is another's on this address of the host, or that it isn't. Outside the range
    // nothing is noted.
    pub(crate) fn note(&mut self, port: u16, host: Option<u32>)
        ensures { PutsAt self.old port host self.new }
    {
        let place = self.place(port);
        if let Some(noted) = self.hosts.get_mut(place) {
            *noted = host;
        }
    }

    // All ports are tried again, and what is found of them is noted as before.
    pub(crate) fn forget(&mut self)
        ensures none { (host : ℕ) → (port : ℕ) → ¬ IsTaken self.new host port }
        ensures range { IsOfRange self.old self.new }
    {
        self.hosts.fill(None);
    }
}
