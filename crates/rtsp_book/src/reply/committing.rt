//! The reply to Commit.

ghost use Rattle.std.specs.Prelude.{◌≡◌, []};
ghost use Rattle.std.specs.FinMap.{entries};
ghost use Rattle.rtsp_sessions.specs.Searches.{first_with, is_of_track};
ghost use Rattle.rtsp_book.specs.Made.{adding, committing};
ghost use Rattle.rtsp_book.specs.Receipts.{filled};
ghost use Rattle.rtsp_book.specs.Replies.{answer, is_startup_taken, is_unready_commit, is_wrong_commit};

use crate::receipts::Receipt;
use crate::refusals::Refusal;
use crate::reply::case::Case;
use crate::reply::returning::{drop_stream, free_address, free_rate};
use crate::steps::{Commit, Step};
use rtsp_record::{Binding, Record, Setup, Stream};
use rtsp_sessions::{BookRep, Measure, SessionView, Startup};

// Whether the session is in no state to set the stream up under the admission.
fn is_wrong(view: &SessionView, admission: u64, stream: Stream) -> bool
    ensures { result ≡ is_wrong_commit admission stream view.now.1 }
{
    !view.phase().is_ready()
        || view.under(admission).stream.is_some()
        || view.count(&Measure::Elsewhere(stream)) > 0
}

// Whether a rate or an address is missing under the admission.
fn is_unready(view: &SessionView, admission: u64) -> bool
    ensures { result ≡ is_unready_commit admission view.now.1 }
{
    let held = view.under(admission);
    held.rate.is_none() || held.address.is_none()
}

// Adds the stream, in place of the session's stream of the same track where there is one.
fn add(made: &mut Receipt, view: &SessionView, session: u64, admission: u64, stream: Stream)
    requires { made.old ≡ [] }
    ensures { made.new ≡ adding session admission stream (first_with (is_of_track stream.track) (entries view.now.1.admissions)) }
{
    let add = Record::Add(Setup {
        session,
        admission,
        stream,
    });
    match view.with_track(stream.track) {
        None => made.push(add),
        Some((replaced, held)) => {
            drop_stream(made, session, replaced, held.stream);
            made.push(add);
            free_address(made, session, replaced, held.address);
            free_rate(made, session, replaced, held.rate);
        }
    }
}

// The records of a Commit.
fn set_up(made: &mut Receipt, view: &SessionView, commit: &Commit)
    requires { made.old ≡ [] }
    ensures { made.new ≡ committing commit.now view.now.1 }
{
    let session = commit.session;
    add(made, view, session, commit.admission, commit.stream);
    if let Some(Startup { conn, number }) = commit.startup {
        made.push(Record::Bind(Binding {
            session,
            conn,
            number,
        }));
    }
}

impl<'a, B: BookRep> Case<'a, B> {
    // Whether the session has a startup number, or another has this one.
    fn is_startup_taken(&self, view: &SessionView, startup: Option<Startup>) -> bool
        ensures { result ≡ is_startup_taken self.now.book startup view.now.1 }
    {
        match startup {
            Some(Startup { conn, number }) => {
                view.binding().is_some() || self.by_startup(conn, number).is_some()
            }
            None => false,
        }
    }

    pub(super) fn commit(&self, commit: &Commit, made: &mut Receipt) -> Result<(), Refusal>
        requires { made.old ≡ [] }
        ensures { filled result made.new ≡ answer self.now.whole self.now.entries self.now.book (Step.Commit commit.now) }
    {
        let view = self.living(commit.session)?;
        if is_wrong(view, commit.admission, commit.stream) {
            return Err(Refusal::WrongState);
        }
        if self.is_startup_taken(view, commit.startup) {
            return Err(Refusal::StartupTaken);
        }
        if is_unready(view, commit.admission) {
            return Err(Refusal::NotHeld);
        }
        set_up(made, view, commit);
        self.unless_full(made)
    }
}
