//! Ports for an admission: the least free ones that can be bound.

ghost use Rattle.std.specs.Prelude.{◌≡◌, IfOk, IfErr, Err};
ghost use Rattle.rtsp_record.specs.Rules.{IsAddress};
ghost use Rattle.rtsp_lock.specs.Calls.{seat_view, IsSeatOf, SameSeat, Acted};
ghost use Rattle.rtsp_lock.specs.Numbers.{MayUse};
ghost use Rattle.rtsp_admit.specs.Steps.{ports_from, ports_step, return_step, first_port_in};
ghost use Rattle.rtsp_admit.specs.Runs.{state_of, Held, Attempted, PortsGranted, NoPortsGranted};

use crate::binder::{BindFault, Binder};
use crate::failure::{Attempt, NoAddress};
use crate::udp_ports::UdpPorts;
use rtsp_book::{Ask, Receipt, Refusal, Step};
use rtsp_lock::{BookLock, BookSeat, Numbers};
use rtsp_record::{Holding, Record, Thing};
use std::sync::Wait;

fn return_step(ask: &Ask, thing: Thing) -> Step
    ensures { result ≡ return_step ask.now thing }
{
    Step::Return {
        session: ask.session,
        admission: ask.admission,
        thing,
    }
}

// The first of the ports that the first of these records holds, where it holds ports.
fn first_port_in(made: &[Record]) -> Option<u16>
    ensures { result ≡ first_port_in made.now }
{
    match made.first().copied() {
        Some(
            Record::Hold(
                Holding {
                    thing: Thing::Pair(first) | Thing::Port(first),
                    ..
                },
            ),
        ) => Some(first),
        Some(_) => None,
        None => None,
    }
}

// Holds the least free ports not below `from`.
fn hold_ports<R: Wait, N: Numbers>(
    rt: &R,
    seat: &mut BookSeat,
    lock: &BookLock<N>,
    ask: &Ask,
    kind: UdpPorts,
    from: u32,
    made: &mut Receipt,
) -> Result<u16, Refusal>
    requires own { IsSeatOf seat.old lock.now }
    requires number { MayUse N.drawn (seat_view seat.old) ask.now.admission }
    ensures drawn { (seat_view seat.new).drawn ≡ (seat_view seat.old).drawn }
    ensures same { SameSeat seat.old seat.new }
    ensures ok { IfOk result (λ p. Held ask.now (ports_step ask.now kind from) (ports_from kind p) (seat_view seat.old) (seat_view seat.new)) }
    ensures err { IfErr result (λ refusal. Acted (seat_view seat.old) (seat_view seat.new) (ports_step ask.now kind from) (Err refusal)) }
{
    match seat.act_into(rt, lock, &kind.hold_step(ask, from), made) {
        Ok(()) => match first_port_in(made.records()) {
            Some(first) => Ok(first),
            None => unreachable!(),
        },
        Err(refusal) => Err(refusal),
    }
}

// One try: the ports are held and bound, or given back where they can't be bound.
fn try_ports<R: Wait, N: Numbers, B: Binder>(
    rt: &R,
    seat: &mut BookSeat,
    lock: &BookLock<N>,
    binder: &mut B,
    ask: &Ask,
    kind: UdpPorts,
    from: u32,
    made: &mut Receipt,
) -> Attempt
    requires own { IsSeatOf seat.old lock.now }
    requires number { MayUse N.drawn (seat_view seat.old) ask.now.admission }
    ensures drawn { (seat_view seat.new).drawn ≡ (seat_view seat.old).drawn }
    ensures same { SameSeat seat.old seat.new }
    ensures tried { Attempted B.calls ask.now kind from result (state_of seat.old binder.old) (state_of seat.new binder.new) }
{
    let first = match hold_ports(rt, seat, lock, ask, kind, from, made) {
        Ok(first) => first,
        Err(refusal) => {
            return Attempt::Refused(NoAddress {
                refusal,
                unreturned: None,
            });
        }
    };
    let held = kind.thing(first);
    match kind.bind(binder, ask.admission, first) {
        Ok(()) => Attempt::Bound(first),
        Err(BindFault) => match seat.act_into(rt, lock, &return_step(ask, held), made) {
            Ok(()) => Attempt::Returned(first),
            Err(refusal) => Attempt::Refused(NoAddress {
                refusal,
                unreturned: Some(held),
            }),
        },
    }
}

// Holds and binds the least free ports that can be bound. Each is tried once, so it ends.
pub(crate) fn grant_ports<R: Wait, N: Numbers, B: Binder>(
    rt: &R,
    seat: &mut BookSeat,
    lock: &BookLock<N>,
    binder: &mut B,
    ask: &Ask,
    kind: UdpPorts,
    made: &mut Receipt,
) -> Result<Thing, NoAddress>
    requires own { IsSeatOf seat.old lock.now }
    requires number { MayUse N.drawn (seat_view seat.old) ask.now.admission }
    ensures drawn { (seat_view seat.new).drawn ≡ (seat_view seat.old).drawn }
    ensures same { SameSeat seat.old seat.new }
    ensures ok { IfOk result (λ x. PortsGranted B.calls ask.now kind x (state_of seat.old binder.old) (state_of seat.new binder.new)) }
    ensures address { IfOk result IsAddress }
    ensures err { IfErr result (λ e. NoPortsGranted B.calls ask.now kind e (state_of seat.old binder.old) (state_of seat.new binder.new)) }
{
    let mut from: u32 = 0;
    loop {
        match try_ports(rt, seat, lock, binder, ask, kind, from, made) {
            Attempt::Bound(first) => return Ok(kind.thing(first)),
            Attempt::Returned(first) => from = kind.next_above(first),
            Attempt::Refused(none) => return Err(none),
        }
    }
}
