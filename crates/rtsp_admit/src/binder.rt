//! Who binds ports.

ghost use Rattle.std.specs.Prelude.{◌≡◌, OnOk, OnErr};
ghost use Rattle.rtsp_record.specs.declared.holdings.Thing.TheVariants.{Pair, Port};
ghost use Rattle.rtsp_book.specs.Receipts.{freed_as};
ghost use Rattle.rtsp_admit.specs.Binder.{Calls, Bound, Failed, Unbound, UnboundAll, Released, booked, freed_of, freed_addresses};

use crate::udp_ports::UdpPorts;
use rtsp_book::Receipt;
use rtsp_record::{Record, Thing};
use thiserror::Error;

/// Ports that can't be bound.
#[derive(Clone, Copy, Debug, PartialEq, Eq, Error)]
#[error("the ports can't be bound")]
pub struct BindFault;

/// Binds pairs of ports and single ports, as by opening their sockets. A pair is named by its first
/// port. They are bound under the number of an admission.
pub trait Binder {
    /// What each call does to a binder, and how many binds have failed, up to the greatest `u64`.
    ghost calls: { Calls Self };

    /// Binds a pair. A pair of which a port is bound under this admission already is a fault too.
    fn bind(&mut self, admission: u64, pair: u16) -> Result<(), BindFault>
        ensures ok { OnOk result (Bound calls admission (Pair pair) self.old self.new) }
        ensures err { OnErr result (Failed calls admission (Pair pair) self.old self.new) };

    /// Unbinds the pair under this admission, where it is bound, and none of another admission.
    fn unbind(&mut self, admission: u64, pair: u16)
        ensures { Unbound calls admission (Pair pair) self.old self.new };

    /// Binds one port. A port that is bound under this admission already, by itself or in a pair,
    /// is a fault too.
    fn bind_port(&mut self, admission: u64, port: u16) -> Result<(), BindFault>
        ensures ok { OnOk result (Bound calls admission (Port port) self.old self.new) }
        ensures err { OnErr result (Failed calls admission (Port port) self.old self.new) };

    /// Unbinds the port under this admission, where it is bound by itself, and none of another
    /// admission.
    fn unbind_port(&mut self, admission: u64, port: u16)
        ensures { Unbound calls admission (Port port) self.old self.new };
}

// The ports of this kind that a record frees, by the first of them, with their admission.
fn freed(kind: UdpPorts, change: &Record) -> Option<(u64, u16)>
    ensures { result ≡ freed_as (booked kind) change.now }
{
    let Record::Free(holding) = change else {
        return None;
    };
    match (kind, holding.thing) {
        (UdpPorts::Pair, Thing::Pair(first)) | (UdpPorts::Port, Thing::Port(first)) => {
            Some((holding.admission, first))
        }
        _ => None,
    }
}

// Unbinds the ports of this kind that these records freed, in this order.
fn unbind_all<B: Binder>(binder: &mut B, kind: UdpPorts, changes: &[Record])
    ensures { UnboundAll B.calls (freed_of kind changes.now) binder.old binder.new }
{
    for change in changes {
        if let Some((admission, first)) = freed(kind, change) {
            release(binder, admission, Some(kind.thing(first)));
        }
    }
}

/// Unbinds what a step freed, each with the admission that it was bound under: the pairs of ports
/// in order, and then the single ports.
pub fn unbind_freed<B: Binder>(binder: &mut B, made: &Receipt)
    ensures { UnboundAll B.calls (freed_addresses made.now) binder.old binder.new }
{
    let changes = made.records();
    unbind_all(binder, UdpPorts::Pair, changes);
    unbind_all(binder, UdpPorts::Port, changes);
}

// Unbinds an address, where there is one and it is ports.
pub(crate) fn release<B: Binder>(binder: &mut B, admission: u64, address: Option<Thing>)
    ensures { Released B.calls admission address binder.old binder.new }
{
    match address {
        Some(Thing::Pair(pair)) => binder.unbind(admission, pair),
        Some(Thing::Port(port)) => binder.unbind_port(admission, port),
        Some(Thing::Chan(_, _) | Thing::Rate(_)) | None => {}
    }
}
