//! The table of living sessions, by number.

ghost use Rattle.std.specs.Prelude.{◌≡◌, ◌+◌, ◌<◌, ℕ, nat_eq, Some, None, IsSome, IfSome, is_some, IsTrue, IsOk, OnOk, option_copied, slice_get, take, length, ◌⊎◌};
ghost use Rattle.std.specs.FinMap.{get, empty, entries};
ghost use Rattle.indexmap.specs.IndexMap.{get as get_place};
ghost use Rattle.slab.specs.Slab.{get as row_in};
ghost use Rattle.rtsp_record.specs.Tables.{set};
ghost use Rattle.rtsp_record.specs.Books.{Session, effect, after};
ghost use Rattle.rtsp_record.specs.Sums.{one_if};
ghost use Rattle.rtsp_record.specs.Rules.{Living};
ghost use Rattle.rtsp_sessions.specs.Lookups.{session_at, number_of, numbers_above, expired_in};
ghost use Rattle.rtsp_sessions.specs.Plain.{RoomFor, FitsIn, is_open};
ghost use Rattle.rtsp_index.specs.Placing.{IsPlaced};
ghost use Rattle.rtsp_index.specs.Dating.{AreDated};
ghost use Rattle.rtsp_index.specs.Searching.{passes, Passes, AtMost};

use crate::moments::Moments;
use crate::search::Search;
use indexmap::IndexMap;
use rtsp_record::Record;
use rtsp_sessions::{SessionNumbers, SessionView, is_above};
use slab::Slab;
use std::alloc::{AllocError, Global};

/// The living sessions. Each has a place, where its row stands until it ends. No row is moved when
/// another comes or goes, but where there is no room for one more: the slab grows then, and moves
/// all once. The expiries stand once more by place, so that the least of them is at hand.
#[derive(Drop)]
pub(crate) struct SessionTable {
    places: IndexMap<u64, usize>,
    rows: Slab<SessionView>,
    expiries: Moments,
    ghost placed: { IsPlaced (λ s. get_place nat_eq places s) rows },
    ghost dated: { AreDated rows expiries },
}

impl SessionTable {
    ghost use Rattle.rtsp_index.specs.Contents.{sessions_in, sessions_of_first, StandsAt, HasRoom};

    /// No session.
    pub(crate) fn new(alloc: Global) -> Self
        ensures { sessions_in result ≡ empty }
    {
        SessionTable {
            places: IndexMap::new(alloc),
            rows: Slab::new(alloc),
            expiries: Moments::new(alloc),
        }
    }

    /// Takes memory for so many more sessions.
    pub(crate) fn reserve(&mut self, additional: usize) -> Result<(), AllocError>
        ensures same { sessions_in self.new ≡ sessions_in self.old }
        ensures room { OnOk result (HasRoom self.new additional) }
        ensures succeeds { additional ≡ 0 → IsOk result }
    {
        let _capacity = self.rows.capacity();
        if additional == 0 {
            return Ok(());
        }
        self.places.reserve(additional)?;
        self.rows.reserve(additional)?;
        self.expiries.reserve(self.rows.capacity())
    }

    /// The session of this number, where it lives.
    pub(crate) fn get(&self, session: u64) -> Option<&SessionView>
        ensures { option_copied result ≡ session_at (sessions_in self.now) session }
    {
        let place = self.places.get(&session)?;
        self.rows.get(*place)
    }

    /// Whether the session of this number lives. No row is read.
    pub(crate) fn lives(&self, session: u64) -> bool
        ensures { result ≡ is_some (get (sessions_in self.now) session) }
    {
        self.places.contains_key(&session)
    }

    // Puts in a session that does not live.
    fn open(&mut self, view: SessionView)
        requires new { get (sessions_in self.old) view.0 ≡ None }
        requires room { HasRoom self.old 1 }
        ensures table { sessions_in self.new ≡ set (sessions_in self.old) view.0 (Some view.1) }
        ensures room { (n : ℕ) → HasRoom self.old (n + 1) → HasRoom self.new n }
    {
        let session = view.session();
        let expires = view.expires();
        let place = self.rows.insert_reserved(view);
        self.expiries.set(place, expires);
        match self.places.insert(session, place) {
            Ok(_) => {}
            Err(_) => unreachable!(),
        }
    }

    // Takes a living session out.
    fn close(&mut self, session: u64)
        requires { IsSome (get (sessions_in self.old) session) }
        ensures table { sessions_in self.new ≡ set (sessions_in self.old) session None }
        ensures room { (n : ℕ) → HasRoom self.old n → HasRoom self.new n }
    {
        match self.places.swap_remove(&session) {
            Some(place) => {
                self.rows.remove(place);
                self.expiries.set(place, u64::MAX);
            }
            None => unreachable!(),
        }
    }

    // Makes a change of a living session, which lives on.
    fn change(&mut self, session: u64, change: &Record)
        requires { Living (get (sessions_in self.old) session) (RoomFor change.now) }
        ensures table { sessions_in self.new ≡ set (sessions_in self.old) session (effect change.now (get (sessions_in self.old) session)) }
        ensures room { (n : ℕ) → HasRoom self.old n → HasRoom self.new n }
    {
        match self.places.get(&session) {
            Some(place) => {
                let place = *place;
                match self.rows.get_mut(place) {
                    Some(row) => {
                        row.change(change);
                        let expires = row.expires();
                        self.expiries.set(place, expires);
                    }
                    None => unreachable!(),
                }
            }
            None => unreachable!(),
        }
    }

    /// Makes one record, for which there is room.
    pub(crate) fn make(&mut self, change: &Record)
        requires fits { FitsIn (sessions_in self.old) change.now }
        requires room { IsTrue (is_open change.now) → HasRoom self.old 1 }
        ensures table { sessions_in self.new ≡ after (sessions_in self.old) change.now }
        ensures room { (n : ℕ) → HasRoom self.old (n + one_if (is_open change.now)) → HasRoom self.new n }
    {
        match *change {
            Record::Open(life) => self.open(SessionView::opened(&life)),
            Record::Close(life) => self.close(life.session),
            _ => self.change(change.session(), change),
        }
    }

    // Whether the session of this number, which has this place, passes the search. Its row is read for
    // `OnConn` and `Unsettled` alone.
    fn takes(&self, search: &Search, session: u64, place: usize) -> bool
        requires { get_place nat_eq self.now.places session ≡ Some place }
        ensures { (f : Session) → get (sessions_in self.now) session ≡ Some f → result ≡ passes search.now (session, f) }
    {
        match *search {
            Search::From(least) => least <= session,
            Search::Expired(moment) => self.expiries.at(place) <= moment,
            Search::OnConn(conn) => self.view_at(place).is_on(conn),
            Search::Unsettled => !self.view_at(place).is_settled(),
        }
    }

    // The row of a place that has one.
    fn view_at(&self, place: usize) -> &SessionView
        requires { IsSome (row_in self.now.rows place) }
        ensures { Some result.now ≡ row_in self.now.rows place }
    {
        match self.rows.get(place) {
            Some(view) => view,
            None => unreachable!(),
        }
    }

    // The number at this index of `places`, where its session passes the search.
    fn searched_at(&self, index: usize, search: &Search) -> Option<u64>
        ensures found { IfSome result (Passes (passes search.now) (sessions_in self.now)) }
        ensures only { (e : ℕ × ℕ) → slice_get self.now.places.entries index ≡ Some e → Passes (passes search.now) (sessions_in self.now) e.0 → result ≡ Some e.0 }
    {
        let entry = self.places.get_index(index)?;
        if self.takes(search, *entry.0, *entry.1) {
            Some(*entry.0)
        } else {
            None
        }
    }

    /// The least number of a session that passes the search. It looks at all.
    pub(crate) fn least(&self, search: &Search) -> Option<u64>
        ensures { result ≡ number_of (passes search.now) (entries (sessions_in self.now)) }
    {
        let mut least = None;
        for index in 0..self.places.len() {
            least = lesser(least, self.searched_at(index, search));
        }
        least
    }

    /// The least numbers of sessions above this one, or of all, at most 256. It looks at all numbers,
    /// and at no row.
    pub(crate) fn least_above(&self, above: Option<u64>, found: &mut SessionNumbers)
        ensures { found.new ≡ take 256 (numbers_above above (entries (sessions_in self.now))) }
    {
        found.clear();
        for index in 0..self.places.len() {
            self.put_above(index, above, found);
        }
    }

    // Puts the number at this index of `places` among those found before it, where it is above.
    fn put_above(&self, index: usize, above: Option<u64>, found: &mut SessionNumbers)
        requires within { index < length self.now.places.entries }
        requires before { found.old ≡ take 256 (numbers_above above (entries (sessions_of_first self.now index))) }
        ensures { found.new ≡ take 256 (numbers_above above (entries (sessions_of_first self.now (index + 1)))) }
    {
        let number = self.number_at(index);
        if is_above(above, number) {
            found.insert(number);
        }
    }

    // The number at this index of `places`.
    fn number_at(&self, index: usize) -> u64
        requires { index < length self.now.places.entries }
        ensures { StandsAt self.now index result }
    {
        match self.places.get_index(index) {
            Some(entry) => *entry.0,
            None => unreachable!(),
        }
    }

    /// The least number of a session whose expiry is at this moment or before, in milliseconds.
    /// None at once where there is no such session; else it looks at the expiries of all.
    pub(crate) fn due(&self, moment: u64) -> Option<u64>
        ensures { result ≡ expired_in moment (entries (sessions_in self.now)) }
    {
        if moment < self.expiries.least() {
            return None;
        }
        self.least(&Search::Expired(moment))
    }
}

// The lesser of two numbers, where there are any.
fn lesser(one: Option<u64>, two: Option<u64>) -> Option<u64>
    ensures either { (result ≡ one) ⊎ (result ≡ two) }
    ensures first { (n : ℕ) → AtMost one n → AtMost result n }
    ensures second { (n : ℕ) → AtMost two n → AtMost result n }
{
    match (one, two) {
        (Some(first), Some(second)) => { if first < second { one } else { two } }
        (Some(_), None) => one,
        (None, _) => two,
    }
}
