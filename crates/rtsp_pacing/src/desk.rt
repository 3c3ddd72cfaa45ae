//! What a pacer works with.

ghost use Rattle.std.specs.Prelude.{◌≤◌};
ghost use Rattle.rtsp_lock.specs.Calls.{IsSeatOf};

use crate::bell::Bell;
use crate::dropped::Dropped;
use crate::pacer_room::PacerRoom;
use crate::told::ToldSessions;
use crate::untold::Untold;
use rtsp_book::{Refusal, SessionView, Step};
use rtsp_lock::{AnyNumbers, BookLock, BookSeat, Name, Numbers};
use rtsp_log::{Event, FrameLoss, Log, SessionName};
use rtsp_metrics::{Audience, Counters, Transport};
use rtsp_npt::UnitLength;
use rtsp_record::Phase;
use rtsp_sockets::{Contents, Decisions, Outlets, PortTable, RunningClock};
use std::alloc::Global;
use std::rt::Clock;
use std::sync::Wait;
use std::time::{Duration, Instant};

// For how many turns one reading of the clock does: they take a fraction of a millisecond.
const TURNS_A_READING: u32 = 64;

/// The parts of a server that are lent to a pacer.
#[derive(Drop)]
pub struct PacerParts<'a, N: Numbers = AnyNumbers> {
    pub lock: &'a BookLock<N>,
    /// The bits per second that all streams together may take.
    pub uplink: u64,
    pub ports: &'a PortTable,
    pub outlets: &'a Outlets,
    /// What is served.
    pub contents: &'a Contents,
    pub bell: &'a Bell,
    /// What lanes are deciding on.
    pub decisions: &'a Decisions,
    /// What is told of packets is counted there.
    pub counters: &'a Counters,
    /// What is sent to each session, and of each presentation, is counted there.
    pub audience: &'a Audience,
    /// Frames that are dropped are told there.
    pub log: &'a Log,
    /// When the server began. Its moments count from there.
    pub begun: Instant,
}

/// What a pacer did.
#[derive(Clone, Copy, PartialEq, Eq)]
pub struct Paced {
    /// Plays that it took over.
    pub plays: u64,
    /// Packets that were sent, or wait in an outlet.
    pub packets: u64,
    /// Packets that could not be sent: they are lost, as the network loses them.
    pub lost: u64,
    /// Turns of a play that were broken off, since its media could not be read.
    pub failures: u64,
    /// Plays that came to their end and were reported.
    pub reported: u64,
}

// The parts, with the pacer's own seat and clock, and what it has done.
#[derive(Drop)]
pub(crate) struct PacerDesk<'a, R, N: Numbers> {
    pub(crate) rt: &'a R,
    pub(crate) parts: PacerParts<'a, N>,
    pub(crate) clock: RunningClock<'a, R>,
    pub(crate) paced: Paced,
    untold: Untold,
    pub(crate) room: PacerRoom,
    // The moment that was read last, and for how many turns more it does.
    moment: u64,
    turns_left: u32,
    // Whether that one is before the present, since a lane is deciding.
    is_held: bool,
    // Of which sessions it was told that frames were dropped.
    told: ToldSessions,
    // And of which that a port of their players refuses all.
    refusing: ToldSessions,
    seat: BookSeat,
    ghost ours: { IsSeatOf seat parts.lock.now },
}

impl<'a, R, N: Numbers> PacerDesk<'a, R, N> {
    pub(crate) fn new(
        rt: &'a R,
        alloc: Global,
        parts: PacerParts<'a, N>,
        clock: RunningClock<'a, R>,
        seat: BookSeat,
        room: PacerRoom,
    ) -> PacerDesk<'a, R, N>
        requires { IsSeatOf seat parts.lock.now }
    {
        PacerDesk {
            rt,
            parts,
            clock,
            paced: Paced {
                plays: 0,
                packets: 0,
                lost: 0,
                failures: 0,
                reported: 0,
            },
            untold: Untold::none(),
            room,
            moment: 0,
            turns_left: 0,
            is_held: false,
            told: ToldSessions::new(alloc),
            refusing: ToldSessions::new(alloc),
            seat,
        }
    }
}

impl Paced {
    // Counts what came of a turn.
    pub(crate) fn count(&mut self, packets: u64, lost: u64, failures: u64) {
        self.packets = self.packets.saturating_add(packets);
        self.lost = self.lost.saturating_add(lost);
        self.failures = self.failures.saturating_add(failures);
    }
}

impl<R, N: Numbers> PacerDesk<'_, R, N> {
    // Counts what came of a turn, of whose packets the first was so many milliseconds late.
    pub(crate) fn count(&mut self, packets: u64, lost: u64, failures: u64, late: u64) {
        self.paced.count(packets, lost, failures);
        self.untold.add_packets(self.parts.counters, packets, late);
        self.parts.counters.lost(lost);
    }

    // Counts bytes that were sent of a presentation over a transport.
    pub(crate) fn count_bytes(&mut self, presentation: u16, transport: Transport, bytes: u64) {
        let audience = self.parts.audience;
        self.untold
            .add_bytes(audience, presentation, transport, bytes);
    }

    // Has what was counted seen by all.
    pub(crate) fn put_down(&mut self) {
        let PacerParts {
            counters,
            audience,
            ..
        } = self.parts;
        self.untold.put_down(counters, audience);
    }
}

impl<R: Clock, N: Numbers> PacerDesk<'_, R, N> {
    // The present moment, or the latest before it by which no lane is deciding on a PLAY or a PAUSE. What
    // was told once stays: a lane that began to decide since reads its moment after that.
    pub(crate) fn now(&mut self) -> u64 {
        let now = rtsp_traits::Clock::now(&mut self.clock);
        let latest = self.parts.decisions.latest(now);
        self.is_held = latest < now;
        self.moment = self.moment.max(latest);
        self.turns_left = TURNS_A_READING;
        self.moment
    }

    // How long it is until a moment, a millisecond at least while a lane holds it up. `None` where the
    // system can't tell the time.
    pub(crate) fn until(&self, moment: u64) -> Option<Duration> {
        let until = self.clock.until(moment)?;
        if self.is_held {
            return Some(until.max(Duration::from_millis(1)));
        }
        Some(until)
    }

    // The moment of a turn, which isn't after the present one.
    pub(crate) fn moment(&mut self) -> u64 {
        match self.turns_left.checked_sub(1) {
            Some(left) => {
                self.turns_left = left;
                self.moment
            }
            None => self.now(),
        }
    }
}

impl<R: Wait, N: Numbers> PacerDesk<'_, R, N> {
    // How many milliseconds of media, of so many at most, a play of this rate may send beyond its
    // pace: what is free of the uplink is for all that are late. It is looked at once a second.
    pub(crate) fn take_credit(&mut self, most: u64, rate: u64, moment: u64) -> u64
        ensures { result ≤ most }
    {
        let credit = self.parts.bell.credit();
        if credit.lock(self.rt).is_old(moment) {
            let held = self.seat.tally(self.rt, self.parts.lock).rate;
            let uplink = self.parts.uplink;
            credit
                .lock(self.rt)
                .learn(uplink.saturating_sub(held), moment);
        }
        credit.lock(self.rt).take(most, rate, moment)
    }

    // Forgets of which sessions it was told that don't live any more, before more memory would be taken.
    fn forget_told(&mut self) {
        if !self.told.is_full() && !self.refusing.is_full() {
            return;
        }
        for place in (0..self.told.len().max(self.refusing.len())).rev() {
            if let Some(session) = self.told.at(place)
                && self.phase(session).is_none()
            {
                self.told.forget(place);
            }
            if let Some(session) = self.refusing.at(place)
                && self.phase(session).is_none()
            {
                self.refusing.forget(place);
            }
        }
    }

    // The session of this number as it is now.
    pub(crate) fn look(&mut self, session: u64) -> Option<SessionView> {
        self.seat
            .look(self.rt, self.parts.lock, Name::Number(session))
    }

    // The phase of the session of this number as it is now.
    pub(crate) fn phase(&mut self, session: u64) -> Option<Phase> {
        self.seat.phase(self.rt, self.parts.lock, session)
    }

    // Ends a play whose last unit is due.
    pub(crate) fn finish(
        &mut self,
        session: u64,
        unit_ms: UnitLength,
        now: u64,
    ) -> Result<(), Refusal> {
        let step = Step::Finish {
            session,
            unit_ms: unit_ms.ms(),
            now,
        };
        match self.seat.act(self.rt, self.parts.lock, &step) {
            Ok(_) => Ok(()),
            Err(refusal) => Err(refusal),
        }
    }
}

impl<R: Wait + Clock, N: Numbers> PacerDesk<'_, R, N> {
    // Tells that frames of a session were dropped, once for each session.
    pub(crate) fn tell_dropped(&mut self, number: u64, session: SessionName, dropped: Dropped) {
        self.forget_told();
        if self.told.note(number) {
            let loss = FrameLoss {
                frames: dropped.frames,
                cause: dropped.cause,
            };
            let event = Event::FramesDropped { session, loss };
            self.parts.log.event(self.rt, event);
        }
    }

    // Tells that a port of a session's player refuses all packets, once for each session.
    pub(crate) fn tell_refusing(&mut self, number: u64, session: SessionName) {
        self.forget_told();
        if self.refusing.note(number) {
            let event = Event::PortRefuses { session };
            self.parts.log.event(self.rt, event);
        }
    }
}
