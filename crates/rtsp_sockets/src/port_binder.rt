//! Binds ports by their sockets.

ghost use Rattle.std.specs.Prelude.{◌≡◌, ◌↔◌, IsOk, OnOk, OnErr};
ghost use Rattle.rtsp_record.specs.Counters.{raised};

use crate::ports::{Place, PortFault, PortTable};
use rtsp_admit::{BindFault, Binder};
use std::net::{Ipv4Addr, Net};
use std::sync::Wait;

// How many ports that others have a binder tries, before it trusts what is known of the rest.
const TRIES: u32 = 16;

// How many faults of another kind a binder meets, before it tries no more ports.
const FAULTS: u32 = 2;

/// Binds the ports of a table by opening their sockets. Once it has met `TRIES` ports that others have
/// it tries none of which that was found lately. Once two can't be had for another reason, such as an
/// address that the host doesn't have any more, or descriptors, it tries no more at all.
#[derive(Drop)]
pub struct PortBinder<'a, R> {
    rt: &'a R,
    table: &'a PortTable,
    // The address of the host on which it binds.
    host: Ipv4Addr,
    failed: u64,
    // How many ports others had, and how many couldn't be bound for another reason.
    taken: u32,
    faults: u32,
}

impl<'a, R> PortBinder<'a, R> {
    /// A binder of the table's ports on this address of the host, or on all of them where it is
    /// `UNSPECIFIED`. Any number of binders may have one table.
    pub fn new(rt: &'a R, table: &'a PortTable, host: Ipv4Addr) -> PortBinder<'a, R>
        ensures { result.failed ≡ 0 }
    {
        PortBinder {
            rt,
            table,
            host,
            failed: 0,
            taken: 0,
            faults: 0,
        }
    }
}

impl<R> PortBinder<'_, R> {
    // Where the next ports are to be bound. `None` where none is tried any more.
    fn place(&self) -> Option<Place> {
        if self.faults < FAULTS {
            Some(Place {
                host: self.host,
                trusts: self.taken >= TRIES,
            })
        } else {
            None
        }
    }

    // What a bind comes to. One that failed is counted.
    fn counted(&mut self, bound: Result<(), PortFault>) -> Result<(), BindFault>
        ensures is { IsOk result ↔ IsOk bound }
        ensures ok { OnOk result (self.new.failed ≡ self.old.failed) }
        ensures err { OnErr result (self.new.failed ≡ raised self.old.failed) }
    {
        match bound {
            Ok(()) => return Ok(()),
            Err(PortFault::Taken) => self.taken = self.taken.saturating_add(1),
            Err(PortFault::Other) => self.faults = self.faults.saturating_add(1),
        }
        self.failed = self.failed.saturating_add(1);
        Err(BindFault)
    }
}

// What is bound is known to the system and to whoever else has the table, so a clause knows of
// a call nothing but whether it was counted as a failure.
impl<R: Net + Wait> Binder for PortBinder<'_, R> {
    ghost use Rattle.std.specs.Prelude.{⊤};

    ghost calls = { record { binds = λ b a p c. ⊤; fails = λ b a p c. ⊤; unbinds = λ b a p c. ⊤; failures = λ b. b.failed } };

    fn bind(&mut self, admission: u64, pair: u16) -> Result<(), BindFault> {
        let bound = match self.place() {
            Some(place) => self.table.bind_pair(self.rt, place, admission, pair),
            None => Err(PortFault::Other),
        };
        self.counted(bound)
    }

    fn unbind(&mut self, admission: u64, pair: u16) {
        self.table.unbind_pair(self.rt, admission, pair);
    }

    fn bind_port(&mut self, admission: u64, port: u16) -> Result<(), BindFault> {
        let bound = match self.place() {
            Some(place) => self.table.bind_port(self.rt, place, admission, port),
            None => Err(PortFault::Other),
        };
        self.counted(bound)
    }

    fn unbind_port(&mut self, admission: u64, port: u16) {
        self.table.unbind_port(self.rt, admission, port);
    }
}
