//! The steps of an admission before its Commit, but for ports.

ghost use Rattle.std.specs.Prelude.{◌≡◌, IfOk, IfErr, OnOk, Err};
ghost use Rattle.rtsp_record.specs.declared.holdings.Thing.TheVariants.{Rate};
ghost use Rattle.rtsp_record.specs.Rules.{IsAddress};
ghost use Rattle.rtsp_record.specs.Choices.{IsWish};
ghost use Rattle.rtsp_lock.specs.Calls.{seat_view, IsSeatOf, SameSeat, Acted};
ghost use Rattle.rtsp_lock.specs.Numbers.{MayUse};
ghost use Rattle.rtsp_admit.specs.Steps.{rate_step, chan_step, commit_step, thing_in};
ghost use Rattle.rtsp_admit.specs.Runs.{Opened, NotOpened, Held};

use rtsp_book::{Ask, ChannelHold, Commit, Life, Receipt, Refusal, Step};
use rtsp_lock::{BookLock, BookSeat, Numbers};
use rtsp_record::{Holding, Id, Record, Thing};
use std::sync::Wait;

// Opens the session, where it is a new one.
pub(crate) fn open<R: Wait, N: Numbers>(
    rt: &R,
    seat: &mut BookSeat,
    lock: &BookLock<N>,
    ask: &Ask,
    made: &mut Receipt,
) -> Result<(), Refusal>
    requires { IsSeatOf seat.old lock.now }
    ensures same { SameSeat seat.old seat.new }
    ensures drawn { (seat_view seat.new).drawn ≡ (seat_view seat.old).drawn }
    ensures ok { OnOk result (Opened ask.now ask.now.opening (seat_view seat.old) (seat_view seat.new)) }
    ensures err { IfErr result (λ refusal. NotOpened ask.now ask.now.opening refusal (seat_view seat.old) (seat_view seat.new)) }
{
    let Some(opening) = ask.opening else {
        return Ok(());
    };
    let life = Life {
        session: ask.session,
        id: Id::new(opening.id),
        conn: opening.conn,
        expires: opening.expires,
    };
    seat.act_into(rt, lock, &Step::Open(life), made)
}

fn rate_step(ask: &Ask) -> Step
    ensures { result ≡ rate_step ask.now }
{
    Step::HoldRate {
        session: ask.session,
        admission: ask.admission,
        bits: ask.rate,
    }
}

// Holds the rate.
pub(crate) fn hold_rate<R: Wait, N: Numbers>(
    rt: &R,
    seat: &mut BookSeat,
    lock: &BookLock<N>,
    ask: &Ask,
    made: &mut Receipt,
) -> Result<(), Refusal>
    requires own { IsSeatOf seat.old lock.now }
    requires number { MayUse N.drawn (seat_view seat.old) ask.now.admission }
    ensures same { SameSeat seat.old seat.new }
    ensures drawn { (seat_view seat.new).drawn ≡ (seat_view seat.old).drawn }
    ensures ok { OnOk result (Held ask.now (rate_step ask.now) (Rate ask.now.rate) (seat_view seat.old) (seat_view seat.new)) }
    ensures err { IfErr result (λ refusal. Acted (seat_view seat.old) (seat_view seat.new) (rate_step ask.now) (Err refusal)) }
{
    seat.act_into(rt, lock, &rate_step(ask), made)
}

fn chan_step(ask: &Ask, conn: u64, wish: Option<u8>) -> Step
    ensures { result ≡ chan_step ask.now conn wish }
{
    Step::HoldChan(ChannelHold {
        session: ask.session,
        admission: ask.admission,
        conn,
        wish,
    })
}

// The thing that the first of these records holds, where it holds one.
fn thing_in(made: &[Record]) -> Option<Thing>
    ensures { result ≡ thing_in made.now }
{
    match made.first().copied() {
        Some(Record::Hold(Holding { thing, .. })) => Some(thing),
        Some(_) => None,
        None => None,
    }
}

// Holds channels of a connection.
pub(crate) fn hold_channels<R: Wait, N: Numbers>(
    rt: &R,
    seat: &mut BookSeat,
    lock: &BookLock<N>,
    ask: &Ask,
    conn: u64,
    wish: Option<u8>,
    made: &mut Receipt,
) -> Result<Thing, Refusal>
    requires own { IsSeatOf seat.old lock.now }
    requires wish { IsWish wish }
    requires number { MayUse N.drawn (seat_view seat.old) ask.now.admission }
    ensures same { SameSeat seat.old seat.new }
    ensures drawn { (seat_view seat.new).drawn ≡ (seat_view seat.old).drawn }
    ensures ok { IfOk result (λ x. Held ask.now (chan_step ask.now conn wish) x (seat_view seat.old) (seat_view seat.new)) }
    ensures address { IfOk result IsAddress }
    ensures err { IfErr result (λ refusal. Acted (seat_view seat.old) (seat_view seat.new) (chan_step ask.now conn wish) (Err refusal)) }
{
    match seat.act_into(rt, lock, &chan_step(ask, conn, wish), made) {
        Ok(()) => match thing_in(made.records()) {
            Some(thing) => Ok(thing),
            None => unreachable!(),
        },
        Err(refusal) => Err(refusal),
    }
}

// The step that sets up the stream.
pub(crate) fn commit_step(ask: &Ask) -> Step
    ensures { result ≡ commit_step ask.now }
{
    Step::Commit(Commit {
        session: ask.session,
        admission: ask.admission,
        stream: ask.stream,
        startup: ask.startup,
    })
}
