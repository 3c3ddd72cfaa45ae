//! What a step is answered, from the book, what there is to hold and the number of entries of the
//! journal.

ghost use Rattle.std.specs.Prelude.{◌≡◌, []};
ghost use Rattle.rtsp_book.specs.Receipts.{filled};
ghost use Rattle.rtsp_book.specs.Replies.{answer, IsAskable};

mod case;
mod committing;
mod ending;
mod holding;
mod opening;
mod playing;
mod returning;

use crate::receipts::Receipt;
use crate::refusals::Refusal;
use crate::steps::Step;
pub(crate) use case::Case;
pub(crate) use returning::end;
use rtsp_sessions::BookRep;

impl<'a, B: BookRep> Case<'a, B> {
    /// The reply to a step: its records, or the first refusal that applies.
    pub(crate) fn answer(&self, step: &Step, made: &mut Receipt) -> Result<(), Refusal>
        requires askable { IsAskable step.now }
        requires empty { made.old ≡ [] }
        ensures { filled result made.new ≡ answer self.now.whole self.now.entries self.now.book step.now }
    {
        match *step {
            Step::Open(life) => self.open(life, made),
            Step::HoldRate {
                session,
                admission,
                bits,
            } => self.hold_rate(session, admission, bits, made),
            Step::HoldPair {
                session,
                admission,
                from,
            } => self.hold_pair(session, admission, from, made),
            Step::HoldPort {
                session,
                admission,
                from,
            } => self.hold_port(session, admission, from, made),
            Step::HoldChan(hold) => self.hold_chan(hold, made),
            Step::Return {
                session,
                admission,
                thing,
            } => self.return_thing(session, admission, thing, made),
            Step::Commit(commit) => self.commit(&commit, made),
            Step::Unwind { chain } => self.unwind(&chain, made),
            Step::Play(play) => self.play(play, made),
            Step::Pause {
                session,
                unit_ms,
                now,
            } => self.pause(session, unit_ms, now, made),
            Step::Finish {
                session,
                unit_ms,
                now,
            } => self.finish(session, unit_ms, now, made),
            Step::Touch { session, until } => self.touch(session, until, made),
            Step::DropTrack { session, track } => self.drop_track(session, track, made),
            Step::End { session } => self.end(session, made),
            Step::Expire { now } => self.expire(now, made),
            Step::Hangup { conn } => self.hang_up(conn, made),
        }
    }
}
