//! Which ports are bound, each pair or single one under an admission.

ghost use Rattle.std.specs.Prelude.{◌≡◌, ◌≢◌, ◌<◌, Some, None, IfOk, IfSome, IfNone, option_copied, replicate};
ghost use Rattle.rtsp_sockets.specs.Slots.{place_of, slot, port_in, IsBoundUnder, IsNotUnder, Puts, Takes, Stays};

use crate::bound::Bound;
use crate::ports::PortSockets;
use std::alloc::{AllocError, Global};
use std::sync::Arc;

// What is bound in a range of ports that is divided into addresses of `PORTS` ports each.
#[derive(Drop)]
pub(crate) struct Slots<const PORTS: usize> {
    first_port: u16,
    // What is bound of each address, in the order of the ports.
    slots: Vec<Option<Bound<PORTS>>>,
}

// The place of an address of so many ports, by its first port and the first of the range.
fn place_of(first: u16, ports: usize, port: u16) -> usize
    requires { 0 < ports }
    ensures { result ≡ place_of first ports port }
{
    usize::from(port.saturating_sub(first)) / ports
}

impl<const PORTS: usize> Slots<PORTS> {
    pub(crate) fn open(
        alloc: Global,
        first_port: u16,
        count: usize,
    ) -> Result<Slots<PORTS>, AllocError>
        ensures first { IfOk result (λ s. s.first_port ≡ first_port) }
        ensures slots { IfOk result (λ s. s.slots.items ≡ replicate count None) }
    {
        let mut slots = Vec::with_capacity(alloc, count)?;
        for _count in 0..count {
            slots.push(None)?;
        }
        Ok(Slots { first_port, slots })
    }

    // What is at the place of an address: none outside the range.
    fn at(&self, port: u16) -> Option<&Option<Bound<PORTS>>>
        requires { 0 < PORTS }
        ensures { option_copied result ≡ slot self.now port }
    {
        self.slots.get(place_of(self.first_port, PORTS, port))
    }

    // Puts an address where none is bound. It is given back where one is, or outside the range.
    pub(crate) fn put(&mut self, bound: Bound<PORTS>) -> Option<Bound<PORTS>>
        requires { 0 < PORTS }
        ensures put { IfNone result (Puts self.old bound.entry self.new) }
        ensures taken { IfSome result (λ b. slot self.old (port_in b) ≢ Some None) }
        ensures given { IfSome result (λ b. b ≡ bound.entry) }
        ensures stays { IfSome result (λ b. Stays self.old self.new) }
    {
        let place = place_of(self.first_port, PORTS, bound.port());
        match self.slots.get_mut(place) {
            Some(slot) if slot.is_none() => {
                *slot = Some(bound);
                None
            }
            _ => Some(bound),
        }
    }

    // Takes the address out that is bound under this admission.
    pub(crate) fn take(&mut self, admission: u64, port: u16) -> Option<Bound<PORTS>>
        requires { 0 < PORTS }
        ensures takes { IfSome result (λ b. Takes self.old admission port b self.new) }
        ensures none { IfNone result (IsNotUnder self.old admission port) }
        ensures stays { IfNone result (Stays self.old self.new) }
    {
        let slot = self.slots.get_mut(place_of(self.first_port, PORTS, port))?;
        match slot {
            Some(bound) if bound.is_of(admission, port) => slot.take(),
            _ => None,
        }
    }

    // The sockets of the address that is bound under this admission.
    pub(crate) fn get(&self, admission: u64, port: u16) -> Option<&Arc<PortSockets>>
        requires { 0 < PORTS }
        ensures found { IfSome result (λ s. (b : Bound PORTS) × IsBoundUnder self.now admission port b × s.now ≡ b.sockets) }
        ensures none { IfNone result (IsNotUnder self.now admission port) }
    {
        match self.at(port)? {
            Some(bound) if bound.is_of(admission, port) => Some(&bound.sockets),
            _ => None,
        }
    }
}
