//! An admission: its chain of steps, and at a refusal its unwinding.

ghost use Rattle.std.specs.Prelude.{◌≡◌, IfOk, IfErr, OnErr, Ok};
ghost use Rattle.rtsp_record.specs.Rules.{IsAddress};
ghost use Rattle.rtsp_book.specs.Replies.{AreDifferent};
ghost use Rattle.rtsp_lock.specs.Calls.{seat_view, IsSeatOf, SameSeat};
ghost use Rattle.rtsp_lock.specs.Numbers.{MayUse};
ghost use Rattle.rtsp_admit.specs.Steps.{HasWish, chain_left};
ghost use Rattle.rtsp_admit.specs.Runs.{state_of, Addressed, NotAddressed, Completes, Fails, Admits};
ghost use Rattle.rtsp_admit.specs.Refused.{LeavesNothing};
ghost use Rattle.rtsp_admit.specs.Addresses.{KeepsAddresses, GainsAddress};
ghost use Rattle.rtsp_admit.specs.Faults.{CountsFaults};
ghost use Rattle.rtsp_admit.specs.Numbers.{KeepsDrawn, LeavesNothingUnused, LeavesNothingDrawn, KeepsAll, LeavesNothingAlone};

use crate::binder::{Binder, release, unbind_freed};
use crate::failure::{Failure, NoAddress};
use crate::laws::{
    law_admitted_address, law_admitted_keeps_all, law_admitted_keeps_drawn, law_faults_counted,
    law_refused, law_refused_addresses, law_refused_alone, law_refused_drawn, law_refused_unused,
};
use crate::ports::grant_ports;
use crate::steps::{commit_step, hold_channels, hold_rate, open};
use crate::udp_ports::UdpPorts;
use rtsp_book::{Admitted, Ask, Receipt, Refusal, Step, Wanted};
use rtsp_lock::{BookLock, BookSeat, Numbers};
use rtsp_record::Thing;
use std::sync::Wait;

// Holds an address, and binds it where it is ports.
fn address<R: Wait, N: Numbers, B: Binder>(
    rt: &R,
    seat: &mut BookSeat,
    lock: &BookLock<N>,
    binder: &mut B,
    ask: &Ask,
    made: &mut Receipt,
) -> Result<Thing, NoAddress>
    requires own { IsSeatOf seat.old lock.now }
    requires wish { HasWish ask.now.wanted }
    requires number { MayUse N.drawn (seat_view seat.old) ask.now.admission }
    ensures same { SameSeat seat.old seat.new }
    ensures ok { IfOk result (λ x. Addressed B.calls ask.now ask.now.wanted x (state_of seat.old binder.old) (state_of seat.new binder.new)) }
    ensures address { IfOk result IsAddress }
    ensures drawn { (seat_view seat.new).drawn ≡ (seat_view seat.old).drawn }
    ensures err { IfErr result (λ e. NotAddressed B.calls ask.now ask.now.wanted e (state_of seat.old binder.old) (state_of seat.new binder.new)) }
{
    match ask.wanted {
        Wanted::Pair => grant_ports(rt, seat, lock, binder, ask, UdpPorts::Pair, made),
        Wanted::Port => grant_ports(rt, seat, lock, binder, ask, UdpPorts::Port, made),
        Wanted::Channels { conn, wish } => {
            match hold_channels(rt, seat, lock, ask, conn, wish, made) {
                Ok(channels) => Ok(channels),
                Err(refusal) => Err(NoAddress {
                    refusal,
                    unreturned: None,
                }),
            }
        }
    }
}

// Does the steps up to the Commit, and unbinds the ports that the Commit freed.
fn complete<R: Wait, N: Numbers, B: Binder>(
    rt: &R,
    seat: &mut BookSeat,
    lock: &BookLock<N>,
    binder: &mut B,
    ask: &Ask,
    made: &mut Receipt,
) -> Result<Thing, Failure>
    requires own { IsSeatOf seat.old lock.now }
    requires wish { HasWish ask.now.wanted }
    requires number { MayUse N.drawn (seat_view seat.old) ask.now.admission }
    ensures same { SameSeat seat.old seat.new }
    ensures ok { IfOk result (λ x. Completes B.calls ask.now x (state_of seat.old binder.old) (state_of seat.new binder.new)) }
    ensures err { IfErr result (λ e. Fails B.calls ask.now e (state_of seat.old binder.old) (state_of seat.new binder.new)) }
    ensures drawn { (seat_view seat.new).drawn ≡ (seat_view seat.old).drawn }
    ensures apart { IfErr result (λ e. AreDifferent (chain_left ask.now e).first (chain_left ask.now e).second) }
{
    match open(rt, seat, lock, ask, made) {
        Ok(()) => {}
        Err(refusal) => return Err(Failure::Open(refusal)),
    }
    match hold_rate(rt, seat, lock, ask, made) {
        Ok(()) => {}
        Err(refusal) => return Err(Failure::Rate(refusal)),
    }
    match address(rt, seat, lock, binder, ask, made) {
        Ok(address) => match seat.act_into(rt, lock, &commit_step(ask), made) {
            Ok(()) => {
                unbind_freed(binder, made);
                Ok(address)
            }
            Err(refusal) => Err(Failure::Commit(refusal, address)),
        },
        Err(none) => Err(Failure::Address(none)),
    }
}

/// Makes an admission as `admit` does; its steps put their records into the receipt, in place of what it
/// has. What `admit` promises besides its run follows from the run, by the laws.
pub fn admit_into<R: Wait, N: Numbers, B: Binder>(
    rt: &R,
    seat: &mut BookSeat,
    lock: &BookLock<N>,
    binder: &mut B,
    ask: &Ask,
    made: &mut Receipt,
) -> Result<Admitted, Refusal>
    requires own { IsSeatOf seat.old lock.now }
    requires wish { HasWish ask.now.wanted }
    requires number { MayUse N.drawn (seat_view seat.old) ask.now.admission }
    ensures same { SameSeat seat.old seat.new }
    ensures run { Admits B.calls ask.now result (state_of seat.old binder.old) (state_of seat.new binder.new) }
{
    match complete(rt, seat, lock, binder, ask, made) {
        Ok(address) => Ok(Admitted {
            session: ask.session,
            admission: ask.admission,
            address,
            stream: ask.stream,
        }),
        Err(failure) => {
            let chain = failure.chain(ask);
            let _ = seat.act_into(rt, lock, &Step::Unwind { chain }, made);
            release(binder, ask.admission, failure.bound_address());
            Err(failure.refusal())
        }
    }
}

/// Makes an admission by a chain of steps. The lock is free between them, so others act in the
/// meantime. The numbers of `ask` are drawn before, by this seat where its lock was opened for
/// `DrawnNumbers`; a wish for channels is even and at most 254.
///
/// Returns what was granted, or the refusal of the first step that was refused: Open, HoldRate,
/// HoldPair, HoldPort or HoldChan, the Return of ports that could not be bound, or Commit. `NoPair`
/// also means that no free pair, or no free port, could be bound. After a refusal the steps
/// accepted before are unwound and the ports that were bound are unbound, so nothing of the
/// admission is left, as long as no other call used its number. Where the lock was opened for
/// `DrawnNumbers` none can: then nothing is left, whatever others do.
pub fn admit<R: Wait, N: Numbers, B: Binder>(
    rt: &R,
    seat: &mut BookSeat,
    lock: &BookLock<N>,
    binder: &mut B,
    ask: &Ask,
) -> Result<Admitted, Refusal>
    requires own { IsSeatOf seat.old lock.now }
    requires wish { HasWish ask.now.wanted }
    requires number { MayUse N.drawn (seat_view seat.old) ask.now.admission }
    ensures same { SameSeat seat.old seat.new }
    ensures run { Admits B.calls ask.now result (state_of seat.old binder.old) (state_of seat.new binder.new) }

    // A refusal leaves nothing of the admission, and the binder has what it had.
    ensures nothing { OnErr result (LeavesNothing ask.now (seat_view seat.old) (seat_view seat.new)) }
    ensures unused { OnErr result (LeavesNothingUnused ask.now (seat_view seat.old) (seat_view seat.new)) }
    ensures clean { OnErr result (LeavesNothingDrawn ask.now (seat_view seat.old) (seat_view seat.new)) }
    ensures alone { OnErr result (LeavesNothingAlone ask.now (seat_view seat.old) (seat_view seat.new)) }
    ensures released { OnErr result (KeepsAddresses B.calls binder.old binder.new) }

    // What is granted is bound, and what the Commit freed is not.
    ensures bound { IfOk result (λ granted. GainsAddress B.calls ask.now granted (state_of seat.old binder.old) (state_of seat.new binder.new)) }

    // A bind that failed shows only where it was counted.
    ensures faults { CountsFaults B.calls ask.now result (state_of seat.old binder.old) (state_of seat.new binder.new) }

    // A seat that uses no numbers but those that it drew goes on so.
    ensures drawn { KeepsDrawn ask.now (seat_view seat.old) (seat_view seat.new) }
    ensures owns { KeepsAll ask.now (seat_view seat.old) (seat_view seat.new) }
{
    law_faults_counted::<B>(ask);
    law_admitted_keeps_drawn::<B>(ask);
    law_admitted_keeps_all::<B>(ask);
    match admit_into(rt, seat, lock, binder, ask, &mut Receipt::new()) {
        Ok(granted) => {
            law_admitted_address::<B>(ask);
            Ok(granted)
        }
        Err(refusal) => {
            law_refused::<B>(ask);
            law_refused_unused::<B>(ask);
            law_refused_drawn::<B>(ask);
            law_refused_alone::<B>(ask);
            law_refused_addresses::<B>(ask);
            Err(refusal)
        }
    }
}
