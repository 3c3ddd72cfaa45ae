//! What is counted and shown of a server, for whoever runs it.

use crate::channels::Channels;
use crate::desk::Desk;
use crate::draining::begin_drain;
use crate::further::{bytes_sent, further};
use crate::operating::{end_by_operator, sessions_text, standing};
use crate::session_names::{named, viewing_of};
use crate::shared::{give_place_back, since};
use crate::shown::Shown;
use rtsp_content::Server;
use rtsp_engine::Asker;
use rtsp_lock::{BookHandle, HandOutFault, Mark, Then};
use rtsp_log::{Access, Event, moment};
use rtsp_metrics::{BookFigures, Counts, Held, History, Method, Snapshot, Viewing};
use rtsp_record::Entry;
use rtsp_sockets::RunningClock;
use rtsp_status::{Further, SessionMeant, Source, Standing};
use rtsp_threads::OwnUsage;
use rtsp_watch::{Told, Witness};
use std::alloc::{AllocError, Global};
use std::cell::Cell;
use std::net::Net;
use std::rt;
use std::sync::Wait;

// The status of a response to a request for which there was no memory.
const OUT_OF_MEMORY: u16 = 500;

// That of a request that isn't let through: nothing was done for it.
const UNAUTHORIZED: u16 = 401;

// The status of one for which there was no more of something.
const UNAVAILABLE: u16 = 503;

// A mark in a round that no journal comes to, so that nothing is ever handed out behind it.
const NO_MARK: Mark = Mark {
    entries: 0,
    rounds: u64::MAX,
};

// Whether a SETUP of this status may have opened a session, also one that ended at once: once it has
// opened one, an admission is refused 453, 500 or 503, or 454 where another has ended the session,
// who then notes that. A wrong request has another status.
fn may_have_opened(status: u16) -> bool {
    matches!(status, 200 | 453 | OUT_OF_MEMORY | UNAVAILABLE)
}

// Whether a request counts what has been sent of a play.
fn is_counting(method: &rtsp_grammar::Method) -> bool {
    matches!(
        method,
        rtsp_grammar::Method::Play | rtsp_grammar::Method::Pause
    )
}

/// Who is told of the answers to a piece of a player's input, and notes what they came to.
#[derive(Drop)]
pub(crate) struct AnswerCounter<'a, R> {
    pub(crate) desk: &'a Desk<'a, R>,
    pub(crate) asker: Asker,
    heard: &'a Cell<Channels>,
    // The moment of the log's lines, in milliseconds since 1970, where requests have any: the clock is read
    // once for the requests of a piece, which are answered within some milliseconds.
    moment: Option<u64>,
    // How many SETUPs may have opened a session.
    setups: Cell<u64>,
    is_unavailable: Cell<bool>,
}

impl<'a, R: rt::Clock> AnswerCounter<'a, R> {
    pub(crate) fn new(
        desk: &'a Desk<'a, R>,
        asker: Asker,
        heard: &'a Cell<Channels>,
    ) -> AnswerCounter<'a, R> {
        let teller = desk.teller;
        let moment = if teller.switches.logs_access(teller.log) {
            Some(moment(desk.rt))
        } else {
            None
        };
        AnswerCounter {
            desk,
            asker,
            heard,
            moment,
            setups: Cell::new(0),
            is_unavailable: Cell::new(false),
        }
    }

    /// A request for whose answer there was no memory is decided.
    pub(crate) fn end_decision(&self) {
        self.desk.decisions.end();
    }

    /// So many SETUPs were refused 503 before anything was drawn: their address has no place left.
    pub(crate) fn note_unplaced(&self, refused: u64) {
        self.setups.set(self.setups.get().saturating_sub(refused));
    }

    /// Whether a SETUP may have opened a session.
    pub(crate) fn has_setup(&self) -> bool {
        self.setups.get() > 0
    }

    /// Whether a request was refused since there was no more of something (503).
    pub(crate) fn is_unavailable(&self) -> bool {
        self.is_unavailable.get()
    }
}

impl<R: Wait + rt::Clock> AnswerCounter<'_, R> {
    // Notes which user the session is of that a SETUP has opened, or has set up a track in.
    fn note_owner(&self, viewing: Option<&Viewing>) {
        let Desk { rt, teller, .. } = *self.desk;
        if !teller.has_users {
            return;
        }
        // A session whose end was told before isn't noted any more: nobody would forget it.
        let id = match viewing {
            Some(viewing) if teller.audience.viewing(rt, viewing.session).is_some() => {
                Some(viewing.id)
            }
            _ => None,
        };
        teller.owners.answer(rt, self.asker.conn, id);
    }

    // Notes which session was begun or has ended.
    fn note_session(&self, method: Method, told: &Told<'_>) {
        let Desk {
            rt,
            ends,
            teller,
            session_shares,
            ..
        } = *self.desk;
        if told.status != UNAUTHORIZED && method == Method::Teardown {
            ends.note();
        }
        let viewing = viewing_of(told, self.asker, self.desk.now);
        if let Some(viewing) = viewing {
            teller.audience.enter(rt, viewing);
        }
        if method == Method::Setup {
            self.note_owner(viewing.as_ref());
        }
        if let Some(life) = told.ended {
            give_place_back(rt, session_shares, life.session);
        }
        if method == Method::Setup && may_have_opened(told.status) {
            self.setups.set(self.setups.get().saturating_add(1));
        }
    }

    // Tells the log of the answer, and of the session that has ended.
    fn tell(&self, told: &Told<'_>) {
        let Desk {
            rt,
            teller,
            lines,
            ..
        } = *self.desk;
        let log = teller.log;
        if told.status == OUT_OF_MEMORY {
            log.event(rt, Event::OutOfMemory);
        }
        if let Some(moment) = self.moment {
            let access = Access {
                peer: self.asker.peer,
                conn: self.asker.conn,
                method: told.method.as_bytes(),
                uri: told.uri,
                status: told.status,
                session: named(rt, teller.audience, told),
            };
            lines.add(rt, log, moment, access);
        }
        if let Some(life) = told.ended {
            teller.tell_torn_down(rt, life.session, self.desk.table, self.desk.now);
        }
    }
}

impl<R: Wait + rt::Clock> Witness for AnswerCounter<'_, R> {
    fn asked(&self, method: &rtsp_grammar::Method) {
        if is_counting(method) {
            let mut clock = RunningClock::new(self.desk.rt, self.desk.teller.begun);
            self.desk.decisions.begin(&mut clock);
        }
    }

    fn heard(&self, channel: u8) {
        self.heard.set(self.heard.get().with(channel));
    }

    fn answered(&self, told: &Told<'_>) {
        let method = Method::of(told.method.as_bytes());
        let Desk {
            answers,
            recorded,
            ..
        } = *self.desk;
        answers.answered(method, told.status);
        if is_counting(told.method) {
            self.end_decision();
        }
        let is_let_through = told.status != UNAUTHORIZED;
        let may_record = !matches!(method, Method::Options | Method::Describe);
        if is_let_through && (may_record || told.session().is_some()) {
            recorded.note();
        }
        self.note_session(method, told);
        if told.status == UNAVAILABLE {
            self.is_unavailable.set(true);
        }
        self.tell(told);
    }
}

// What is held of a whole of which so much is free.
fn rest_of(whole: u64, free: u64) -> Held {
    Held {
        held: whole.saturating_sub(free),
        free,
    }
}

/// Where the figures come from: the server's counters, and one look at its book.
#[derive(Drop)]
pub(crate) struct Figures<'a, R> {
    pub(crate) rt: &'a R,
    pub(crate) shown: Shown<'a>,
    pub(crate) numbers: Server,
    pub(crate) handle: BookHandle,
    /// What the system says of the process, where it does.
    pub(crate) usage: Option<OwnUsage>,
    pub(crate) history: History,
    /// No entry: nothing is handed out to it.
    pub(crate) nothing: Vec<Entry>,
}

impl<R: Wait> Figures<'_, R> {
    // What the book has now.
    fn book(&mut self) -> BookFigures {
        let tally = self.handle.tally(self.rt);
        let numbers = self.numbers;
        let pairs = u64::from(numbers.pairs);
        BookFigures {
            sessions: tally.sessions as u64,
            rate: Held {
                held: tally.rate,
                free: numbers.uplink.saturating_sub(tally.rate),
            },
            pairs: rest_of(pairs, tally.free_pairs as u64),
            ports: rest_of(pairs.saturating_mul(2), tally.free_ports as u64),
            entries: tally.entries as u64,
            owed: tally.owed as u64,
            room: tally.room as u64,
        }
    }

    // What was counted so far, by all.
    fn counts(&mut self) -> Counts {
        let mut counts = Counts {
            log_lines_dropped: self.shown.teller.log.dropped(),
            shortenings: self.shortenings(),
            ..self.shown.counters.read()
        };
        self.shown.teller.lanes.add_answers(self.rt, &mut counts);
        counts
    }

    // How often the journal was shortened, which the refusal to hand it out tells.
    fn shortenings(&mut self) -> u64 {
        let BookHandle { lock, seat } = &mut self.handle;
        match seat.hand_out(self.rt, lock, NO_MARK, Then::Leave, &mut self.nothing) {
            Err(HandOutFault::OtherRound(rounds)) => rounds,
            Err(HandOutFault::NoRoom(_)) | Ok(_) => 0,
        }
    }
}

impl<R: Wait + Net + rt::Clock> Source for Figures<'_, R> {
    fn snapshot(&mut self) -> Snapshot {
        let Shown { gate, teller, .. } = self.shown;
        let open = gate.open_now();
        Snapshot {
            uptime_seconds: since(self.rt, teller.begun) / 1_000,
            connections: Held {
                held: open,
                free: gate.most().saturating_sub(open),
            },
            book: self.book(),
            counts: self.counts(),
        }
    }

    fn further(&mut self, alloc: Global) -> Result<Further, AllocError> {
        let usage = self.usage.as_ref();
        further(self.rt, alloc, self.shown, usage, &self.history)
    }

    fn standing(&mut self) -> Standing {
        let rate = self.book().rate;
        standing(self.rt, self.shown, rate)
    }

    fn sessions(&self, alloc: Global) -> Result<Vec<u8>, AllocError> {
        sessions_text(self.rt, alloc, self.shown.teller)
    }

    fn is_open(&self) -> bool {
        self.shown.teller.switches.is_status_open()
    }

    fn drain(&mut self) {
        let Shown {
            draining,
            teller,
            ..
        } = self.shown;
        begin_drain(self.rt, draining, teller.log, since(self.rt, teller.begun));
    }

    fn end(&mut self, session: SessionMeant) -> bool {
        end_by_operator(self.rt, self.shown, &mut self.handle, session)
    }

    fn note(&mut self) {
        let now = since(self.rt, self.shown.teller.begun);
        if self.history.is_due(now) {
            let snapshot = self.snapshot();
            let bytes = bytes_sent(self.shown.teller.audience);
            self.history.note(&snapshot, bytes, now);
        }
    }
}
