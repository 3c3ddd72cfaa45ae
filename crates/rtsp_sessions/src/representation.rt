//! A book, however it is kept.

ghost use Rattle.std.specs.Prelude.{◌≡◌, ◌↔◌, IsTrue, IfOk, OnOk, OnErr, IsOk, is_some, option_copied, take};
ghost use Rattle.std.specs.FinMap.{get, empty, entries};
ghost use Rattle.rtsp_record.specs.declared.holdings.Whole.{Whole};
ghost use Rattle.rtsp_record.specs.Books.{Book, after_all};
ghost use Rattle.rtsp_record.specs.Sums.{held_rate, owed, living};
ghost use Rattle.rtsp_record.specs.Rules.{Allowed, AllAllowed};
ghost use Rattle.rtsp_record.specs.Choices.{HasPorts, least_pair, least_port, chosen_chan};
ghost use Rattle.rtsp_sessions.specs.Lookups.{TakesNoMemory, session_at, first_from, numbers_above, unsettled_in, with_id_in, with_startup_in, expired_in, on_conn_in};

use crate::numbers::SessionNumbers;
use crate::views::SessionView;
use rtsp_record::{Record, Whole};
use std::alloc::{AllocError, Global};

/// A book of sessions, however it is kept. It is seen as the table of its living sessions: which
/// live, what each holds, its streams, binding, phase and expiry.
pub trait BookRep: Drop {
    /// The living sessions by their numbers.
    ghost contents: { Self → Book };

    /// What there is to hold.
    ghost whole_of: { Self → Whole };

    /// The book of no session. Both ports of each pair of the whole have to be at most 65,535.
    fn open(alloc: Global, whole: &Whole) -> Result<Self, AllocError>
        requires { HasPorts whole.now }
        ensures contents { IfOk result (λ b. contents b ≡ empty) }
        ensures whole { IfOk result (λ b. whole_of b ≡ whole.now) };

    /// Whether the record may be made now.
    fn allowed(&self, change: &Record) -> bool
        ensures { IsTrue result ↔ Allowed (whole_of self.now) (contents self.now) change.now };

    /// Makes the records, each of which has to be allowed after those before it. All memory is
    /// taken first: refused, the book is as it was. Close, Free, Drop, Unbind, Move and Touch take
    /// none.
    fn apply(&mut self, changes: &[Record]) -> Result<(), AllocError>
        requires { AllAllowed (whole_of self.old) (contents self.old) changes.now }
        ensures ok { OnOk result (contents self.new ≡ after_all (contents self.old) changes.now) }
        ensures err { OnErr result (contents self.new ≡ contents self.old) }
        ensures whole { whole_of self.new ≡ whole_of self.old }
        ensures gives { TakesNoMemory changes.now → IsOk result };

    /// The session of this number, where it lives.
    fn get(&self, session: u64) -> Option<&SessionView>
        ensures { option_copied result ≡ session_at (contents self.now) session };

    /// A copy of the session of this number, where it lives.
    fn session(&self, session: u64) -> Option<SessionView>
        ensures { result ≡ session_at (contents self.now) session }
    {
        self.get(session).map(|view| view.copied())
    }

    /// Whether the session of this number lives.
    fn lives(&self, session: u64) -> bool
        ensures { result ≡ is_some (get (contents self.now) session) };

    /// The number of the least living session not below `from`.
    fn next_session(&self, from: u64) -> Option<u64>
        ensures { result ≡ first_from from (entries (contents self.now)) };

    /// The least numbers of living sessions above this one, or of all where there is none: as many
    /// as there are, and no more than 256. They replace the numbers in `found`.
    fn next_sessions(&self, above: Option<u64>, found: &mut SessionNumbers)
        ensures { found.new ≡ take 256 (numbers_above above (entries (contents self.now))) };

    /// The number of the least living session of which a SETUP is under way: under one of its
    /// admissions something is held, and no stream stands.
    fn unsettled(&self) -> Option<u64>
        ensures { result ≡ unsettled_in (entries (contents self.now)) };

    /// The number of the living session with this id.
    fn by_id(&self, id: u128) -> Option<u64>
        ensures { result ≡ with_id_in id (entries (contents self.now)) };

    /// The number of the living session with this startup number of the connection.
    fn by_startup(&self, conn: u64, number: u32) -> Option<u64>
        ensures { result ≡ with_startup_in conn number (entries (contents self.now)) };

    /// The least free pair of ports not below `from`, by its first port.
    fn least_pair(&self, from: u32) -> Option<u16>
        ensures { result ≡ least_pair (whole_of self.now) (contents self.now) from };

    /// The least free port not below `from`, for RTP and RTCP both (RFC 5761).
    fn least_port(&self, from: u32) -> Option<u16>
        ensures { result ≡ least_port (whole_of self.now) (contents self.now) from };

    /// The wish where its two channels of the connection are free, else the least free even pair of
    /// channels there.
    fn least_chan(&self, conn: u64, wish: Option<u8>) -> Option<u8>
        ensures { result ≡ chosen_chan (contents self.now) conn wish };

    /// All bits per second that are held.
    fn held_rate(&self) -> u64
        ensures { result ≡ held_rate (contents self.now) };

    /// How many sessions live.
    fn living(&self) -> usize
        ensures { result ≡ living (contents self.now) };

    /// The number of the least living session whose expiry is at most `now`, in milliseconds.
    fn due(&self, now: u64) -> Option<u64>
        ensures { result ≡ expired_in now (entries (contents self.now)) };

    /// The number of the least living session that holds a channel of the connection or has a
    /// binding of it.
    fn on_conn(&self, conn: u64) -> Option<u64>
        ensures { result ≡ on_conn_in conn (entries (contents self.now)) };

    /// How many records would end all sessions.
    fn owed(&self) -> usize
        ensures { result ≡ owed (contents self.now) };
}
