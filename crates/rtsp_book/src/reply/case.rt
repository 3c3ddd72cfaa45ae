//! What a step is answered from.

ghost use Rattle.std.specs.Prelude.{◌≡◌, ◌+◌, ◌≤◌, nat_le, nat_lt, is_some, option_copied, None, Some, MatchResult, if◌then◌else◌, Ok, Err};
ghost use Rattle.std.specs.FinMap.{get, entries};
ghost use Rattle.rtsp_record.specs.Sums.{held_rate, living, owed};
ghost use Rattle.rtsp_record.specs.Rules.{AllAllowed};
ghost use Rattle.rtsp_record.specs.Sound.{Sound};
ghost use Rattle.rtsp_record.specs.Choices.{least_pair, least_port, chosen_chan};
ghost use Rattle.rtsp_sessions.specs.Lookups.{with_id_in, with_startup_in};
ghost use Rattle.rtsp_sessions.specs.Searches.{is_expired, is_on, first_with};
ghost use Rattle.rtsp_book.specs.Receipts.{filled};
ghost use Rattle.rtsp_book.specs.Sessions.{Lives};
ghost use Rattle.rtsp_book.specs.Replies.{is_full};

use crate::owed::owed_after;
use crate::receipts::Receipt;
use crate::refusals::Refusal;
use rtsp_record::Whole;
use rtsp_sessions::{BookRep, SessionView};
use std::marker::Model;

/// What a step is answered from: the book, what there is to hold, and how many entries the journal
/// has. The entries and the returns that the book owes are within the limit.
#[derive(Drop)]
pub(crate) struct Case<'a, B: BookRep> {
    book: &'a B,
    whole: &'a Whole,
    entries: usize,
}

impl<'a, B: BookRep> Model for Case<'a, B> {
    ghost use Rattle.rtsp_record.specs.contracts.holdings.Admission as admission;
    ghost use Rattle.rtsp_record.specs.contracts.holdings.Whole as limits;
    ghost use Rattle.rtsp_record.specs.contracts.phases.Phase as play;
    ghost use Rattle.rtsp_book.specs.Cases.{Case, case_code, IsCase};

    ghost Value = { Case };

    ghost coded = { case_code limits.the_row.coded admission.the_row.coded play.the_row.coded };

    ghost view = { λ c. record { whole = c.whole.now; entries = c.entries; book = B.contents c.book.now } };

    ghost invariant = { λ c. IsCase (B.whole_of c.book.now) c.whole.now c.entries (B.contents c.book.now) };
}

impl<'a, B: BookRep> Case<'a, B> {
    /// The case of a book, its whole, and so many entries: with what is owed they are within the limit.
    pub(crate) fn new(book: &'a B, whole: &'a Whole, entries: usize) -> Self
        requires whole { B.whole_of book.now ≡ whole.now }
        requires sound { Sound whole.now (B.contents book.now) }
        requires room { entries + owed (B.contents book.now) ≤ whole.now.journal }
        ensures { result ≡ record { whole = whole.now; entries = entries; book = B.contents book.now } }
    {
        Case {
            book,
            whole,
            entries,
        }
    }

    /// The session of this number, which has to live.
    pub(crate) fn living(&self, session: u64) -> Result<&SessionView, Refusal>
        ensures found { MatchResult result (λ v. Lives self.now.book session v.now) (λ r. (r ≡ Refusal.NoSession) × (get self.now.book session ≡ None)) }
        ensures sound { Sound self.now.whole self.now.book }
        ensures room { self.now.entries + owed self.now.book ≤ self.now.whole.journal }
    {
        match self.book.get(session) {
            Some(view) => Ok(view),
            None => Err(Refusal::NoSession),
        }
    }

    /// The number of the living session with this id.
    pub(crate) fn by_id(&self, id: u128) -> Option<u64>
        ensures { result ≡ with_id_in id (entries self.now.book) }
    {
        self.book.by_id(id)
    }

    /// The number of the living session with this startup number of the connection.
    pub(crate) fn by_startup(&self, conn: u64, number: u32) -> Option<u64>
        ensures { result ≡ with_startup_in conn number (entries self.now.book) }
    {
        self.book.by_startup(conn, number)
    }

    /// Whether a session of this number lives.
    pub(crate) fn lives(&self, session: u64) -> bool
        ensures { result ≡ is_some (get self.now.book session) }
    {
        self.book.get(session).is_some()
    }

    /// Whether the limit of living sessions is reached.
    pub(crate) fn has_all_sessions(&self) -> bool
        ensures { result ≡ nat_le self.now.whole.sessions (living self.now.book) }
    {
        self.book.living() >= usize::from(self.whole.sessions)
    }

    /// Whether so many bits per second are above what is free of the uplink.
    pub(crate) fn exceeds_uplink(&self, bits: u64) -> bool
        ensures { result ≡ nat_lt self.now.whole.uplink (held_rate self.now.book + bits) }
    {
        self.whole.uplink - self.book.held_rate() < bits
    }

    /// The least free pair of ports not below `from`.
    pub(crate) fn least_pair(&self, from: u32) -> Option<u16>
        ensures { result ≡ least_pair self.now.whole self.now.book from }
    {
        self.book.least_pair(from)
    }

    /// The least free port not below `from`.
    pub(crate) fn least_port(&self, from: u32) -> Option<u16>
        ensures { result ≡ least_port self.now.whole self.now.book from }
    {
        self.book.least_port(from)
    }

    /// The wish where it is free on the connection, else the least free pair of channels there.
    pub(crate) fn least_chan(&self, conn: u64, wish: Option<u8>) -> Option<u8>
        ensures { result ≡ chosen_chan self.now.book conn wish }
    {
        self.book.least_chan(conn, wish)
    }

    /// The least session that expires at this moment or before.
    pub(crate) fn first_due(&self, now: u64) -> Option<&SessionView>
        ensures found { option_copied result ≡ first_with (is_expired now) (entries self.now.book) }
        ensures sound { Sound self.now.whole self.now.book }
    {
        let _entries = self.entries;
        self.book.get(self.book.due(now)?)
    }

    /// The least session that holds channels, or has a binding, of the connection.
    pub(crate) fn first_on(&self, conn: u64) -> Option<&SessionView>
        ensures found { option_copied result ≡ first_with (is_on conn) (entries self.now.book) }
        ensures sound { Sound self.now.whole self.now.book }
    {
        let _entries = self.entries;
        self.book.get(self.book.on_conn(conn)?)
    }

    /// Refuses records with which, and with what is owed then, the journal would be above its
    /// limit.
    pub(crate) fn unless_full(&self, made: &Receipt) -> Result<(), Refusal>
        requires { AllAllowed self.now.whole self.now.book made.now }
        ensures { filled result made.now ≡ (if is_full self.now.whole self.now.entries self.now.book made.now then Err Refusal.JournalFull else Ok made.now) }
    {
        let changes = made.records();
        let limit = self.whole.journal as usize;
        if changes.is_empty() {
            return Ok(());
        }
        if self.entries + changes.len() + owed_after(self.book.owed(), changes) > limit {
            return Err(Refusal::JournalFull);
        }
        Ok(())
    }
}
