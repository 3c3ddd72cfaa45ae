//! The parts of an indexed book, and how they change together.

ghost use Rattle.std.specs.Prelude.{◌≡◌, ◌<◌, ◌≤◌, ◌↔◌, ℕ, IsTrue, IsOk, IfOk, OnOk, count_by};
ghost use Rattle.std.specs.FinMap.{empty, entries};
ghost use Rattle.indexmap.specs.IndexMap.{spare};
ghost use Rattle.rtsp_record.specs.Books.{after, after_all};
ghost use Rattle.rtsp_record.specs.Sums.{one_if, amount, sessions, with_id, bindings};
ghost use Rattle.rtsp_record.specs.Rules.{Others, MayOpen, Allowed, AllAllowed};
ghost use Rattle.rtsp_record.specs.Choices.{HasPorts};
ghost use Rattle.rtsp_sessions.specs.Lookups.{TakesNoMemory, on_conn_in};
ghost use Rattle.rtsp_sessions.specs.Plain.{is_open};
ghost use Rattle.rtsp_index.specs.Following.{is_bind, is_chan_hold};

use crate::counts::Counts;
use crate::names::Names;
use crate::pools::Pools;
use crate::search::Search;
use crate::table::SessionTable;
use rtsp_record::{Record, Thing, Whole};
use rtsp_sessions::{allowed_for_session, openings};
use std::alloc::{AllocError, Global};

/// The parts of an indexed book.
#[derive(Drop)]
pub(crate) struct Parts {
    pub(crate) whole: Whole,
    pub(crate) sessions: SessionTable,
    pub(crate) pools: Pools,
    pub(crate) names: Names,
    pub(crate) counts: Counts,
}

// How many records bind a startup number.
fn binds(changes: &[Record]) -> usize
    ensures { result ≡ count_by is_bind changes.now }
{
    changes
        .iter()
        .filter(|change| matches!(change, Record::Bind(_)))
        .count()
}

// Whether the record holds channels.
fn is_chan_hold(change: &Record) -> bool
    ensures { result ≡ is_chan_hold change.now }
{
    match change {
        Record::Hold(holding) => matches!(holding.thing, Thing::Chan(_, _)),
        _ => false,
    }
}

// How many records hold channels.
fn chan_holds(changes: &[Record]) -> usize
    ensures { result ≡ count_by is_chan_hold changes.now }
{
    changes.iter().filter(|change| is_chan_hold(change)).count()
}

impl Parts {
    ghost use Rattle.rtsp_index.specs.Agreeing.{book_in, AllAgree, HasRoomFor, HasRoomBeside};
    ghost use Rattle.rtsp_index.specs.Contents.{HasRoom};

    /// The parts of the book of no session.
    pub(crate) fn open(alloc: Global, whole: &Whole) -> Result<Self, AllocError>
        requires { HasPorts whole.now }
        ensures agree { IfOk result AllAgree }
        ensures whole { IfOk result (λ p. p.whole ≡ whole.now) }
        ensures book { IfOk result (λ p. book_in p ≡ empty) }
    {
        let _sessions = whole.sessions;
        let pools = Pools::open(alloc, whole)?;
        Ok(Parts {
            whole: *whole,
            sessions: SessionTable::new(alloc),
            pools,
            names: Names::new(alloc),
            counts: Counts::new(alloc),
        })
    }

    // Takes memory for the sessions that the records open.
    fn reserve_sessions(&mut self, changes: &[Record]) -> Result<(), AllocError>
        requires { AllAgree self.old }
        ensures agree { AllAgree self.new }
        ensures whole { self.new.whole ≡ self.old.whole }
        ensures same { book_in self.new ≡ book_in self.old }
        ensures rows { OnOk result (HasRoom self.new.sessions (count_by is_open changes.now)) }
        ensures gives { TakesNoMemory changes.now → IsOk result }
    {
        self.sessions.reserve(openings(changes))
    }

    // Takes memory for the channels that the records hold.
    fn reserve_channels(&mut self, changes: &[Record]) -> Result<(), AllocError>
        requires { AllAgree self.old }
        ensures agree { AllAgree self.new }
        ensures whole { self.new.whole ≡ self.old.whole }
        ensures sessions { self.new.sessions ≡ self.old.sessions }
        ensures chans { OnOk result (count_by is_chan_hold changes.now ≤ spare self.new.pools.chans.held) }
        ensures gives { TakesNoMemory changes.now → IsOk result }
    {
        self.pools.reserve(chan_holds(changes))
    }

    // Takes memory for the ids and startup numbers that the records give, and for the connections
    // that they bind to.
    fn reserve_names(&mut self, changes: &[Record]) -> Result<(), AllocError>
        requires { AllAgree self.old }
        ensures agree { AllAgree self.new }
        ensures whole { self.new.whole ≡ self.old.whole }
        ensures sessions { self.new.sessions ≡ self.old.sessions }
        ensures pools { self.new.pools ≡ self.old.pools }
        ensures ids { OnOk result (count_by is_open changes.now ≤ spare self.new.names.ids) }
        ensures startups { OnOk result (count_by is_bind changes.now ≤ spare self.new.names.startups) }
        ensures bindings { OnOk result (count_by is_bind changes.now ≤ spare self.new.counts.bindings.counts) }
        ensures gives { TakesNoMemory changes.now → IsOk result }
    {
        let bound = binds(changes);
        self.names.reserve(openings(changes), bound)?;
        self.counts.reserve(bound)
    }

    /// Takes all memory that the records want.
    pub(crate) fn reserve(&mut self, changes: &[Record]) -> Result<(), AllocError>
        requires { AllAgree self.old }
        ensures agree { AllAgree self.new }
        ensures whole { self.new.whole ≡ self.old.whole }
        ensures same { book_in self.new ≡ book_in self.old }
        ensures room { OnOk result (HasRoomFor self.new (count_by is_open changes.now) (count_by is_bind changes.now) (count_by is_chan_hold changes.now)) }
        ensures gives { TakesNoMemory changes.now → IsOk result }
    {
        self.reserve_sessions(changes)?;
        self.reserve_channels(changes)?;
        self.reserve_names(changes)?;
        Ok(())
    }

    // Makes one record, for which there is room.
    fn make(&mut self, change: &Record)
        requires agree { AllAgree self.old }
        requires allowed { Allowed self.old.whole (book_in self.old) change.now }
        requires room { HasRoomFor self.old (one_if (is_open change.now)) (one_if (is_bind change.now)) (one_if (is_chan_hold change.now)) }
        ensures agree { AllAgree self.new }
        ensures whole { self.new.whole ≡ self.old.whole }
        ensures book { book_in self.new ≡ after (book_in self.old) change.now }
        ensures room { (i j k : ℕ) → HasRoomBeside self.old change.now i j k → HasRoomFor self.new i j k }
    {
        self.pools.follow(change);
        self.names.follow(change);
        self.counts.follow(change);
        self.sessions.make(change);
    }

    /// Makes the records one after another. There is room for all.
    pub(crate) fn make_all(&mut self, changes: &[Record])
        requires agree { AllAgree self.old }
        requires allowed { AllAllowed self.old.whole (book_in self.old) changes.now }
        requires room { HasRoomFor self.old (count_by is_open changes.now) (count_by is_bind changes.now) (count_by is_chan_hold changes.now) }
        ensures agree { AllAgree self.new }
        ensures whole { self.new.whole ≡ self.old.whole }
        ensures book { book_in self.new ≡ after_all (book_in self.old) changes.now }
    {
        for change in changes {
            self.make(change);
        }
    }

    // Whether no living session has the id.
    fn has_no_id(&self, id: u128) -> bool
        requires { AllAgree self.now }
        ensures { IsTrue result ↔ (amount (with_id id) (book_in self.now) ≡ 0) }
    {
        self.names.by_id(id).is_none()
    }

    // Whether no living session has the startup number of the connection.
    fn has_no_startup(&self, conn: u64, number: u32) -> bool
        requires { AllAgree self.now }
        ensures { IsTrue result ↔ (amount (bindings conn number) (book_in self.now) ≡ 0) }
    {
        self.names.by_startup(conn, number).is_none()
    }

    // Whether fewer sessions live than may.
    fn has_place(&self) -> bool
        requires { AllAgree self.now }
        ensures { IsTrue result ↔ (amount sessions (book_in self.now) < self.now.whole.sessions) }
    {
        self.counts.living() < usize::from(self.whole.sessions)
    }

    // Whether no living session has the id, and fewer live than may.
    fn may_open(&self, id: u128) -> bool
        requires { AllAgree self.now }
        ensures { IsTrue result ↔ MayOpen self.now.whole (book_in self.now) id }
    {
        self.has_no_id(id) && self.has_place()
    }

    // Whether the record is allowed as far as the other sessions go.
    fn others_allow(&self, change: &Record) -> bool
        requires { AllAgree self.now }
        ensures { IsTrue result ↔ Others self.now.whole change.now (book_in self.now) }
    {
        match *change {
            Record::Open(life) => self.may_open(life.id.number()),
            Record::Hold(holding) => self.pools.is_free(&holding.thing),
            Record::Bind(binding) => self.has_no_startup(binding.conn, binding.number),
            _ => true,
        }
    }

    /// Whether the record may be made now.
    pub(crate) fn allowed(&self, change: &Record) -> bool
        requires { AllAgree self.now }
        ensures { IsTrue result ↔ Allowed self.now.whole (book_in self.now) change.now }
    {
        allowed_for_session(self.sessions.get(change.session()), change)
            && self.others_allow(change)
    }

    /// The least number of a session that holds channels of the connection or is bound to it. None
    /// at once where there is no such session; else it looks at all.
    pub(crate) fn on_conn(&self, conn: u64) -> Option<u64>
        requires { AllAgree self.now }
        ensures { result ≡ on_conn_in conn (entries (book_in self.now)) }
    {
        if !self.pools.has_channels(conn) && !self.counts.has_bound(conn) {
            return None;
        }
        self.sessions.least(&Search::OnConn(conn))
    }
}
