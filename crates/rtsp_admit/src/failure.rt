//! Where an admission breaks off.

ghost use Rattle.std.specs.Prelude.{◌≡◌};

use rtsp_book::{Ask, Chain, Refusal};
use rtsp_record::Thing;

// No address is granted. Ports may be left held, which could not be bound and whose Return was
// refused too.
#[derive(Clone, Copy)]
pub(crate) struct NoAddress {
    pub(crate) refusal: Refusal,
    pub(crate) unreturned: Option<Thing>,
}

// What a try for ports comes to, by the first of them.
pub(crate) enum Attempt {
    Bound(u16),
    Returned(u16),
    Refused(NoAddress),
}

// The step that was refused. At a refused Commit there is an address, which is bound where it is
// ports.
#[derive(Clone, Copy)]
pub(crate) enum Failure {
    Open(Refusal),
    Rate(Refusal),
    Address(NoAddress),
    Commit(Refusal, Thing),
}

impl Failure {
    ghost use Rattle.rtsp_admit.specs.Steps.{chain_left, refusal_of, bound_address};

    pub(crate) fn refusal(&self) -> Refusal
        ensures { result ≡ refusal_of self.now }
    {
        match *self {
            Failure::Open(refusal) | Failure::Rate(refusal) | Failure::Commit(refusal, _) => {
                refusal
            }
            Failure::Address(none) => none.refusal,
        }
    }

    // What was accepted before and not returned.
    pub(crate) fn chain(&self, ask: &Ask) -> Chain
        ensures { result ≡ chain_left ask.now self.now }
    {
        let is_new = ask.opening.is_some();
        let rate = Some(Thing::Rate(ask.rate));
        let (opened, first, second) = match *self {
            Failure::Open(_) => (false, None, None),
            Failure::Rate(_) => (is_new, None, None),
            Failure::Address(none) => (is_new, rate, none.unreturned),
            Failure::Commit(_, address) => (is_new, rate, Some(address)),
        };
        Chain {
            session: ask.session,
            admission: ask.admission,
            opened,
            first,
            second,
        }
    }

    // The address that was held and bound before.
    pub(crate) fn bound_address(&self) -> Option<Thing>
        ensures { result ≡ bound_address self.now }
    {
        match *self {
            Failure::Commit(_, address) => Some(address),
            Failure::Open(_) | Failure::Rate(_) | Failure::Address(_) => None,
        }
    }
}
