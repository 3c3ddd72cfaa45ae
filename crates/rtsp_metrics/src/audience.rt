//! Who watches what: the sessions that live, as whoever runs the server sees them, and what of each
//! presentation was played.

use crate::films::{FilmCounters, FilmFigures, Films, Transport};
use crate::session_counts::{SessionCounts, SessionSums};
use std::alloc::{AllocError, Global};
use std::collections::BTreeMap;
use std::sync::atomic::{AtomicBool, Ordering};
use std::sync::{Arc, Mutex, Wait};

/// A session, and who watches what by it.
#[derive(Clone, Copy, PartialEq, Eq)]
pub struct Viewing {
    /// Its number.
    pub session: u64,
    /// Its id. Whoever has that may act on the session, so no line and no figure has more of it than
    /// the first eight digits.
    pub id: u128,
    /// The player's IPv4 address, and the number of the connection on which the session was begun.
    pub peer: u32,
    pub conn: u64,
    /// The place of its presentation.
    pub film: u16,
    /// What its packets go over.
    pub transport: Transport,
    /// When it was begun, in milliseconds since the server was.
    pub since: u64,
}

/// The first eight digits of a session's id.
pub fn first_digits(id: u128) -> u32 {
    (id >> 96) as u32
}

impl Viewing {
    /// The first eight digits of the id.
    pub fn digits(&self) -> u32 {
        first_digits(self.id)
    }
}

/// A session with what was sent to it.
#[derive(Clone, Copy, PartialEq, Eq)]
pub struct Viewer {
    pub viewing: Viewing,
    pub sums: SessionSums,
}

#[derive(Drop)]
struct Row {
    viewing: Viewing,
    counts: Arc<SessionCounts>,
    // Whether it didn't live at the last look.
    is_missing: bool,
}

impl Row {
    fn viewer(&self) -> Viewer {
        Viewer {
            viewing: self.viewing,
            sums: self.counts.read(),
        }
    }
}

#[derive(Drop)]
struct Rows {
    by_number: BTreeMap<u64, Row>,
    numbers: BTreeMap<u128, u64>,
}

impl Rows {
    // Takes a session in, or leaves all as it was.
    fn insert(&mut self, viewing: Viewing, counts: Arc<SessionCounts>) -> Result<(), AllocError> {
        self.numbers.insert(viewing.id, viewing.session)?;
        let row = Row {
            viewing,
            counts,
            is_missing: false,
        };
        if self.by_number.insert(viewing.session, row).is_err() {
            self.numbers.remove(&viewing.id);
            return Err(AllocError);
        }
        Ok(())
    }

    fn remove(&mut self, session: u64) -> Option<Viewer> {
        let row = self.by_number.remove(&session)?;
        self.numbers.remove(&row.viewing.id);
        Some(row.viewer())
    }

    fn has(&self, session: u64) -> bool {
        self.by_number.contains_key(&session)
    }

    fn viewing(&self, session: u64) -> Option<Viewing> {
        Some(self.by_number.get(&session)?.viewing)
    }

    fn number_of(&self, id: u128) -> Option<u64> {
        self.numbers.get(&id).copied()
    }

    fn counts(&self, session: u64) -> Option<Arc<SessionCounts>> {
        Arc::try_clone(&self.by_number.get(&session)?.counts).ok()
    }

    fn next(&self, session: u64) -> Option<Viewer> {
        let (_, row) = self.by_number.range(session..).next()?;
        Some(row.viewer())
    }

    fn next_of(&self, conn: u64, session: u64) -> Option<Viewing> {
        for (_, row) in self.by_number.range(session..) {
            if row.viewing.conn == conn {
                return Some(row.viewing);
            }
        }
        None
    }

    // Notes whether a session lives. Whether it was missing before, too.
    fn note_living(&mut self, session: u64, lives: bool) -> bool {
        let Some(row) = self.by_number.get_mut(&session) else {
            return false;
        };
        let was_missing = row.is_missing;
        row.is_missing = !lives;
        was_missing && !lives
    }
}

/// The sessions that live, and the counters of each presentation. What is not known of a session for
/// want of memory is not told.
#[derive(Drop)]
pub struct Audience {
    alloc: Global,
    films: Films,
    rows: Mutex<Rows>,
    // Whether there was no memory for a session some time.
    is_any_unknown: AtomicBool,
}

impl Audience {
    /// No session yet, with so many presentations.
    pub fn open(alloc: Global, presentations: usize) -> Result<Audience, AllocError> {
        Ok(Audience {
            alloc,
            films: Films::open(alloc, presentations)?,
            rows: Mutex::new(Rows {
                by_number: BTreeMap::new(alloc),
                numbers: BTreeMap::new(alloc),
            }),
            is_any_unknown: AtomicBool::new(false),
        })
    }

    // The counters of what a session watches.
    fn film_of(&self, viewing: &Viewing) -> Option<&FilmCounters> {
        self.films.of(viewing.film, viewing.transport)
    }

    // Takes a session in where it isn't known. Whether it is new.
    fn note<R: Wait>(&self, rt: &R, viewing: Viewing) -> bool {
        let Ok(counts) = Arc::new(self.alloc, SessionCounts::new(viewing.digits())) else {
            self.is_any_unknown.store(true, Ordering::SeqCst);
            return false;
        };
        let mut rows = self.rows.lock(rt);
        if rows.has(viewing.session) {
            return false;
        }
        let is_new = rows.insert(viewing, counts).is_ok();
        if !is_new {
            self.is_any_unknown.store(true, Ordering::SeqCst);
        }
        is_new
    }

    /// Whether each session is known, or was: there was memory for all.
    pub fn knows_all(&self) -> bool {
        !self.is_any_unknown.load(Ordering::SeqCst)
    }

    /// A place is given to another presentation. What was counted there goes to that of another place, which has
    /// the name, if one has.
    pub fn give(&self, place: u16, heir: Option<u16>) {
        self.films.give(place, heir);
    }

    /// How many bytes were sent of presentations that have no place any more.
    pub fn bytes_of_others(&self) -> u64 {
        self.films.bytes_of_others()
    }

    /// A track was set up in a session. Nothing is done where the session is known.
    pub fn enter<R: Wait>(&self, rt: &R, viewing: Viewing) {
        if self.note(rt, viewing)
            && let Some(film) = self.film_of(&viewing)
        {
            film.enter();
        }
    }

    /// A session has ended. What was sent to it by now, where it was known.
    pub fn leave<R: Wait>(&self, rt: &R, session: u64) -> Option<Viewer> {
        let viewer = self.rows.lock(rt).remove(session)?;
        if let Some(film) = self.film_of(&viewer.viewing) {
            film.leave();
        }
        Some(viewer)
    }

    /// The session of this number, if it is known.
    pub fn viewing<R: Wait>(&self, rt: &R, session: u64) -> Option<Viewing> {
        self.rows.lock(rt).viewing(session)
    }

    /// The number of the session of this id, if it is known.
    pub fn number_of<R: Wait>(&self, rt: &R, id: u128) -> Option<u64> {
        self.rows.lock(rt).number_of(id)
    }

    /// A play of a session begins: where what is sent to it is counted.
    pub fn play<R: Wait>(&self, rt: &R, session: u64) -> Option<Arc<SessionCounts>> {
        let viewing = self.viewing(rt, session)?;
        if let Some(film) = self.film_of(&viewing) {
            film.play();
        }
        self.rows.lock(rt).counts(session)
    }

    /// So many bytes of a presentation were sent.
    pub fn sent(&self, film: u16, transport: Transport, bytes: u64) {
        if let Some(film) = self.films.of(film, transport) {
            film.send(bytes);
        }
    }

    /// The least session of a number that isn't below this one, with what was sent to it.
    pub fn next<R: Wait>(&self, rt: &R, session: u64) -> Option<Viewer> {
        self.rows.lock(rt).next(session)
    }

    /// The least session of a number that isn't below this one, of those that were begun on a connection.
    pub fn next_of<R: Wait>(&self, rt: &R, conn: u64, session: u64) -> Option<Viewing> {
        self.rows.lock(rt).next_of(conn, session)
    }

    /// Notes whether a session was seen to live. Whether it is the second time in a row that it wasn't:
    /// whoever ended it had the time to tell.
    pub fn note_living<R: Wait>(&self, rt: &R, session: u64, lives: bool) -> bool {
        self.rows.lock(rt).note_living(session, lives)
    }

    /// What was played of a presentation over a transport.
    pub fn film(&self, film: u16, transport: Transport) -> Option<FilmFigures> {
        Some(self.films.of(film, transport)?.read())
    }
}
