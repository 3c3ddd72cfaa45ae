//! The replies to Play, Pause, Finish and Touch.

ghost use Rattle.std.specs.Prelude.{◌≡◌, ◌<◌, []};
ghost use Rattle.rtsp_book.specs.Made.{start_of};
ghost use Rattle.rtsp_book.specs.Receipts.{filled};
ghost use Rattle.rtsp_book.specs.Sessions.{has_stream};
ghost use Rattle.rtsp_book.specs.Replies.{answer};

use crate::receipts::Receipt;
use crate::refusals::Refusal;
use crate::reply::case::Case;
use crate::steps::{Play, Step};
use rtsp_record::{Phase, Record, Renewal, Transition};
use rtsp_sessions::{BookRep, Measure, SessionView};

fn has_stream(view: &SessionView) -> bool
    ensures { result ≡ has_stream view.now.1 }
{
    view.count(&Measure::Streams) > 0
}

// The unit where a play begins.
fn start_of(from: Option<u32>, phase: &Phase, unit_ms: u32, now: u64) -> u32
    requires { 0 < unit_ms }
    ensures { result ≡ start_of from phase.now unit_ms now }
{
    match from {
        Some(unit) => unit,
        None => phase.point(unit_ms, now),
    }
}

impl<'a, B: BookRep> Case<'a, B> {
    pub(super) fn play(&self, play: Play, made: &mut Receipt) -> Result<(), Refusal>
        requires unit { 0 < play.unit_ms }
        requires empty { made.old ≡ [] }
        ensures { filled result made.new ≡ answer self.now.whole self.now.entries self.now.book (Step.Play play) }
    {
        let view = self.living(play.session)?;
        let old = view.phase();
        let start = start_of(play.from, &old, play.unit_ms, play.now);
        if !has_stream(view) || play.stop <= start {
            return Err(Refusal::WrongState);
        }
        let new = Phase::Playing {
            from: start,
            stop: play.stop,
            sent: old.sent_with_due(play.unit_ms, play.now),
            since: play.now,
        };
        made.push(Record::Move(Transition {
            session: play.session,
            from: old,
            to: new,
        }));
        self.unless_full(made)
    }

    pub(super) fn pause(
        &self,
        session: u64,
        unit_ms: u32,
        now: u64,
        made: &mut Receipt,
    ) -> Result<(), Refusal>
        requires unit { 0 < unit_ms }
        requires empty { made.old ≡ [] }
        ensures { filled result made.new ≡ answer self.now.whole self.now.entries self.now.book (Step.Pause session unit_ms now) }
    {
        let view = self.living(session)?;
        if !has_stream(view) {
            return Err(Refusal::WrongState);
        }
        let old = view.phase();
        if old.is_ready() {
            return Ok(());
        }
        let new = Phase::Ready {
            at: old.point(unit_ms, now),
            sent: old.sent_with_due(unit_ms, now),
        };
        made.push(Record::Move(Transition {
            session,
            from: old,
            to: new,
        }));
        self.unless_full(made)
    }

    pub(super) fn finish(
        &self,
        session: u64,
        unit_ms: u32,
        now: u64,
        made: &mut Receipt,
    ) -> Result<(), Refusal>
        requires unit { 0 < unit_ms }
        requires empty { made.old ≡ [] }
        ensures { filled result made.new ≡ answer self.now.whole self.now.entries self.now.book (Step.Finish session unit_ms now) }
    {
        let view = self.living(session)?;
        let old = view.phase();
        let Phase::Playing { from, stop, .. } = old else {
            return Err(Refusal::WrongState);
        };
        if old.due(unit_ms, now) < stop.saturating_sub(from) {
            return Err(Refusal::NothingDue);
        }
        let new = Phase::Ended {
            at: stop,
            sent: old.sent_with_due(unit_ms, now),
        };
        made.push(Record::Move(Transition {
            session,
            from: old,
            to: new,
        }));
        self.unless_full(made)
    }

    pub(super) fn touch(&self, session: u64, until: u64, made: &mut Receipt) -> Result<(), Refusal>
        requires { made.old ≡ [] }
        ensures { filled result made.new ≡ answer self.now.whole self.now.entries self.now.book (Step.Touch session until) }
    {
        let view = self.living(session)?;
        let old = view.expires();
        if until <= old {
            return Ok(());
        }
        made.push(Record::Touch(Renewal {
            session,
            from: old,
            to: until,
        }));
        self.unless_full(made)
    }
}
