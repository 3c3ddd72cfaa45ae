//! The replies to HoldRate, HoldPair, HoldPort, HoldChan and Return.

ghost use Rattle.std.specs.Prelude.{◌≡◌, ◌+◌, ◌≤◌, [], Some, is_some};
ghost use Rattle.std.specs.FinMap.{get};
ghost use Rattle.rtsp_record.specs.Sums.{owed};
ghost use Rattle.rtsp_record.specs.Rules.{alike, is_this, IsFree};
ghost use Rattle.rtsp_record.specs.Sound.{Sound};
ghost use Rattle.rtsp_book.specs.Receipts.{filled};
ghost use Rattle.rtsp_record.specs.Choices.{IsWish};
ghost use Rattle.rtsp_book.specs.Replies.{answer, hold_answer, is_wrong_hold};

use crate::receipts::Receipt;
use crate::refusals::Refusal;
use crate::reply::case::Case;
use crate::steps::{ChannelHold, Step};
use rtsp_record::{Admission, Holding, Record, Thing};
use rtsp_sessions::{BookRep, MOST_HOLDING, SessionView};

// Whether something of the thing's kind is held.
fn has_alike(held: &Admission, thing: &Thing) -> bool
    ensures { result ≡ is_some (alike thing.now held.now) }
{
    match thing {
        Thing::Rate(_) => held.rate.is_some(),
        Thing::Pair(_) | Thing::Port(_) | Thing::Chan(_, _) => held.address.is_some(),
    }
}

// Whether this very thing is held.
pub(crate) fn has_this(held: &Admission, thing: &Thing) -> bool
    ensures { result ≡ is_this thing.now (alike thing.now held.now) }
{
    match (*thing, held.rate, held.address) {
        (Thing::Rate(bits), Some(rate), _) => rate == bits,
        (Thing::Pair(port), _, Some(Thing::Pair(first))) => first == port,
        (Thing::Port(port), _, Some(Thing::Port(single))) => single == port,
        (Thing::Chan(conn, channel), _, Some(Thing::Chan(of, first))) => {
            of == conn && first == channel
        }
        _ => false,
    }
}

// Whether the session is in no state to hold the thing under the admission.
fn is_wrong(view: &SessionView, admission: u64, thing: &Thing) -> bool
    ensures { result ≡ is_wrong_hold admission thing.now view.now.1 }
{
    let held = view.under(admission);
    held.stream.is_some()
        || has_alike(&held, thing)
        || view.others_holding(admission) >= MOST_HOLDING
}

impl<'a, B: BookRep> Case<'a, B> {
    // The reply where the session of `view` is to hold a thing that is free.
    fn hold(
        &self,
        view: &SessionView,
        admission: u64,
        thing: Thing,
        made: &mut Receipt,
    ) -> Result<(), Refusal>
        requires lives { get self.now.book view.now.0 ≡ Some view.now.1 }
        requires free { IsFree self.now.whole self.now.book thing }
        requires sound { Sound self.now.whole self.now.book }
        requires room { self.now.entries + owed self.now.book ≤ self.now.whole.journal }
        requires empty { made.old ≡ [] }
        ensures { filled result made.new ≡ hold_answer self.now.whole self.now.entries self.now.book admission thing view.now }
    {
        if is_wrong(view, admission, &thing) {
            return Err(Refusal::WrongState);
        }
        made.push(Record::Hold(Holding {
            session: view.session(),
            admission,
            thing,
        }));
        self.unless_full(made)
    }

    pub(super) fn hold_rate(
        &self,
        session: u64,
        admission: u64,
        bits: u64,
        made: &mut Receipt,
    ) -> Result<(), Refusal>
        requires { made.old ≡ [] }
        ensures { filled result made.new ≡ answer self.now.whole self.now.entries self.now.book (Step.HoldRate session admission bits) }
    {
        let view = self.living(session)?;
        if self.exceeds_uplink(bits) {
            return Err(Refusal::NoBandwidth);
        }
        self.hold(view, admission, Thing::Rate(bits), made)
    }

    pub(super) fn hold_pair(
        &self,
        session: u64,
        admission: u64,
        from: u32,
        made: &mut Receipt,
    ) -> Result<(), Refusal>
        requires { made.old ≡ [] }
        ensures { filled result made.new ≡ answer self.now.whole self.now.entries self.now.book (Step.HoldPair session admission from) }
    {
        let view = self.living(session)?;
        let port = self.least_pair(from).ok_or(Refusal::NoPair)?;
        self.hold(view, admission, Thing::Pair(port), made)
    }

    pub(super) fn hold_port(
        &self,
        session: u64,
        admission: u64,
        from: u32,
        made: &mut Receipt,
    ) -> Result<(), Refusal>
        requires { made.old ≡ [] }
        ensures { filled result made.new ≡ answer self.now.whole self.now.entries self.now.book (Step.HoldPort session admission from) }
    {
        let view = self.living(session)?;
        let port = self.least_port(from).ok_or(Refusal::NoPair)?;
        self.hold(view, admission, Thing::Port(port), made)
    }

    pub(super) fn hold_chan(&self, hold: ChannelHold, made: &mut Receipt) -> Result<(), Refusal>
        requires wish { IsWish hold.wish }
        requires empty { made.old ≡ [] }
        ensures { filled result made.new ≡ answer self.now.whole self.now.entries self.now.book (Step.HoldChan hold) }
    {
        let view = self.living(hold.session)?;
        let channel = self
            .least_chan(hold.conn, hold.wish)
            .ok_or(Refusal::NoChannel)?;
        self.hold(view, hold.admission, Thing::Chan(hold.conn, channel), made)
    }

    pub(super) fn return_thing(
        &self,
        session: u64,
        admission: u64,
        thing: Thing,
        made: &mut Receipt,
    ) -> Result<(), Refusal>
        requires { made.old ≡ [] }
        ensures { filled result made.new ≡ answer self.now.whole self.now.entries self.now.book (Step.Return session admission thing) }
    {
        let view = self.living(session)?;
        let held = view.under(admission);
        if held.stream.is_some() {
            return Err(Refusal::WrongState);
        }
        if !has_this(&held, &thing) {
            return Err(Refusal::NotHeld);
        }
        made.push(Record::Free(Holding {
            session,
            admission,
            thing,
        }));
        Ok(())
    }
}
