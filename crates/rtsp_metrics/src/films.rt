//! What is played of each presentation, over each transport.

use crate::counter::Counter;
use std::alloc::{AllocError, Global};

/// What the packets of a session go over.
#[derive(Clone, Copy, PartialEq, Eq)]
pub enum Transport {
    Udp,
    Tcp,
}

impl Transport {
    /// As lines and figures name it.
    pub fn name(self) -> &'static [u8] {
        match self {
            Transport::Udp => b"UDP",
            Transport::Tcp => b"TCP",
        }
    }
}

/// What was played of a presentation over a transport.
#[derive(Clone, Copy, PartialEq, Eq)]
pub struct FilmFigures {
    /// Sessions that live.
    pub sessions: u64,
    /// Plays that were begun.
    pub plays: u64,
    /// Bytes of RTP packets that were sent.
    pub bytes: u64,
}

/// Counts what is played of a presentation over a transport.
#[derive(Drop)]
pub(crate) struct FilmCounters {
    entered: Counter,
    left: Counter,
    plays: Counter,
    bytes: Counter,
    // What of these was counted of a film that was at its place before.
    plays_before: Counter,
    bytes_before: Counter,
}

impl FilmCounters {
    fn new() -> FilmCounters {
        FilmCounters {
            entered: Counter::new(),
            left: Counter::new(),
            plays: Counter::new(),
            bytes: Counter::new(),
            plays_before: Counter::new(),
            bytes_before: Counter::new(),
        }
    }

    /// A session of it was begun.
    pub(crate) fn enter(&self) {
        self.entered.add(1);
    }

    /// A session of it has ended.
    pub(crate) fn leave(&self) {
        self.left.add(1);
    }

    /// A play of it was begun.
    pub(crate) fn play(&self) {
        self.plays.add(1);
    }

    /// So many bytes of it were sent.
    pub(crate) fn send(&self, bytes: u64) {
        self.bytes.add(bytes);
    }

    /// What was counted so far. Those that left are read first: they had entered.
    pub(crate) fn read(&self) -> FilmFigures {
        let left = self.left.read();
        let plays_before = self.plays_before.read();
        let bytes_before = self.bytes_before.read();
        FilmFigures {
            sessions: self.entered.read().saturating_sub(left),
            plays: self.plays.read().saturating_sub(plays_before),
            bytes: self.bytes.read().saturating_sub(bytes_before),
        }
    }

    // What was counted so far is of another film.
    fn forget(&self, counted: FilmFigures) {
        self.plays_before.add(counted.plays);
        self.bytes_before.add(counted.bytes);
    }

    // What was counted elsewhere is of this film.
    fn inherit(&self, counted: FilmFigures) {
        self.plays.add(counted.plays);
        self.bytes.add(counted.bytes);
    }
}

#[derive(Drop)]
struct Film {
    udp: FilmCounters,
    tcp: FilmCounters,
}

/// The counters of all presentations, by their places.
#[derive(Drop)]
pub(crate) struct Films {
    films: Vec<Film>,
    // Bytes that were sent of films that have no place any more.
    bytes_of_others: Counter,
}

impl Films {
    pub(crate) fn open(alloc: Global, presentations: usize) -> Result<Films, AllocError> {
        let mut films = Vec::with_capacity(alloc, presentations)?;
        for _ in 0..presentations {
            films.push(Film {
                udp: FilmCounters::new(),
                tcp: FilmCounters::new(),
            })?;
        }
        Ok(Films {
            films,
            bytes_of_others: Counter::new(),
        })
    }

    /// A place is given to another film. What was counted there goes to that of another place, which has the
    /// name, if one has.
    pub(crate) fn give(&self, place: u16, heir: Option<u16>) {
        for over in [Transport::Udp, Transport::Tcp] {
            let Some(film) = self.of(place, over) else {
                continue;
            };
            let counted = film.read();
            film.forget(counted);
            match heir.and_then(|heir| self.of(heir, over)) {
                Some(heir) => heir.inherit(counted),
                None => self.bytes_of_others.add(counted.bytes),
            }
        }
    }

    /// How many bytes were sent of films that have no place any more.
    pub(crate) fn bytes_of_others(&self) -> u64 {
        self.bytes_of_others.read()
    }

    /// The counters of a presentation over a transport, where there is such a presentation.
    pub(crate) fn of(&self, film: u16, transport: Transport) -> Option<&FilmCounters> {
        let film = self.films.get(usize::from(film))?;
        Some(match transport {
            Transport::Udp => &film.udp,
            Transport::Tcp => &film.tcp,
        })
    }
}
