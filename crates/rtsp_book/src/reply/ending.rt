//! The replies to Unwind, DropTrack, End, Expire and Hangup.

ghost use Rattle.std.specs.Prelude.{◌≡◌, ◌+◌, ◌≤◌, ◌++◌, [], length};
ghost use Rattle.rtsp_book.specs.Returns.{ending};
ghost use Rattle.rtsp_book.specs.Made.{taking_back, unwinding};
ghost use Rattle.rtsp_book.specs.Receipts.{filled};
ghost use Rattle.rtsp_book.specs.Replies.{answer, is_empty_chain};

use crate::receipts::Receipt;
use crate::refusals::Refusal;
use crate::reply::case::Case;
use crate::reply::holding::has_this;
use crate::reply::returning::{end, give_back, unbind};
use crate::steps::{Chain, Step};
use rtsp_record::{Holding, Record, Thing};
use rtsp_sessions::{BookRep, Measure, SessionView};

// Whether the chain did nothing.
fn is_empty(chain: &Chain) -> bool
    ensures { result ≡ is_empty_chain chain.now }
{
    !chain.opened && chain.first.is_none() && chain.second.is_none()
}

// Gives a thing of a chain back, where it is held and no stream goes over it.
fn take_back(
    made: &mut Receipt,
    view: &SessionView,
    session: u64,
    admission: u64,
    thing: Option<Thing>,
)
    requires { length made.old + length (taking_back session admission view.now.1 thing) ≤ 51 }
    ensures { made.new ≡ made.old ++ taking_back session admission view.now.1 thing }
{
    let Some(thing) = thing else {
        return;
    };
    let held = view.under(admission);
    if has_this(&held, &thing) && held.stream.is_none() {
        made.push(Record::Free(Holding {
            session,
            admission,
            thing,
        }));
    }
}

// The end of the session where the chain opened it, else its Holds, the last first.
fn take_all_back(made: &mut Receipt, view: &SessionView, chain: &Chain)
    requires empty { made.old ≡ [] }
    requires number { view.now.0 ≡ chain.now.session }
    requires short { length (ending view.now.0 view.now.1) ≤ 51 }
    ensures { made.new ≡ unwinding chain.now view.now.1 }
{
    if chain.opened {
        return end(made, view);
    }
    let (session, admission) = (chain.session, chain.admission);
    take_back(made, view, session, admission, chain.second);
    take_back(made, view, session, admission, chain.first);
}

impl<'a, B: BookRep> Case<'a, B> {
    pub(super) fn unwind(&self, chain: &Chain, made: &mut Receipt) -> Result<(), Refusal>
        requires { made.old ≡ [] }
        ensures { filled result made.new ≡ answer self.now.whole self.now.entries self.now.book (Step.Unwind chain.now) }
    {
        match self.living(chain.session) {
            Ok(view) => {
                take_all_back(made, view, chain);
                Ok(())
            }
            Err(_) if is_empty(chain) => Ok(()),
            Err(refusal) => Err(refusal),
        }
    }

    pub(super) fn drop_track(
        &self,
        session: u64,
        track: u16,
        made: &mut Receipt,
    ) -> Result<(), Refusal>
        requires { made.old ≡ [] }
        ensures { filled result made.new ≡ answer self.now.whole self.now.entries self.now.book (Step.DropTrack session track) }
    {
        let view = self.living(session)?;
        let is_only = view.count(&Measure::OtherTracks(track)) == 0;
        if !is_only && !view.phase().is_ready() {
            return Err(Refusal::WrongState);
        }
        let Some((admission, held)) = view.with_track(track) else {
            return Err(Refusal::NotHeld);
        };
        if is_only {
            end(made, view);
        } else {
            give_back(made, session, admission, &held);
        }
        Ok(())
    }

    pub(super) fn end(&self, session: u64, made: &mut Receipt) -> Result<(), Refusal>
        requires { made.old ≡ [] }
        ensures { filled result made.new ≡ answer self.now.whole self.now.entries self.now.book (Step.End session) }
    {
        end(made, self.living(session)?);
        Ok(())
    }

    pub(super) fn expire(&self, now: u64, made: &mut Receipt) -> Result<(), Refusal>
        requires { made.old ≡ [] }
        ensures { filled result made.new ≡ answer self.now.whole self.now.entries self.now.book (Step.Expire now) }
    {
        let Some(view) = self.first_due(now) else {
            return Err(Refusal::NothingDue);
        };
        end(made, view);
        Ok(())
    }

    pub(super) fn hang_up(&self, conn: u64, made: &mut Receipt) -> Result<(), Refusal>
        requires { made.old ≡ [] }
        ensures { filled result made.new ≡ answer self.now.whole self.now.entries self.now.book (Step.Hangup conn) }
    {
        let Some(view) = self.first_on(conn) else {
            return Err(Refusal::NothingDue);
        };
        if view.has_channels_of(conn) {
            end(made, view);
        } else {
            unbind(made, view.session(), view.binding());
        }
        Ok(())
    }
}
