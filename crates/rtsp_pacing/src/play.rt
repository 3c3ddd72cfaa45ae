//! A play that a pacer sends.

mod audience;
mod ending;
mod leaving;

ghost use Rattle.std.specs.Prelude.{◌≡◌, ◌<◌, ◌≤◌, ◌↔◌, IsTrue, IfSome, Some, unwrap_or, if◌then◌else◌};
ghost use Rattle.rtsp_pacing.specs.Beginning.{Begins, IsApart};

use self::audience::{Watched, presentation_of};
use crate::desk::PacerDesk;
use crate::dropped::Dropped;
use crate::frame_run::FrameRun;
use crate::noted::NewPlay;
use crate::packet_count::PacketCount;
use crate::renewal::Renewal;
use crate::sink::{PacketSink, failures_in};
use crate::ways::{Ways, rate_of};
use crate::when::{at_pace, is_given_up, look_again, measured, next_unit, waited_on};
use rtsp_book::SessionView;
use rtsp_content::Presentation;
use rtsp_lock::Numbers;
use rtsp_record::Phase;
use rtsp_rtp::{LastTurn, Pacer, Turn, sent_before};
use rtsp_sockets::Content;
use std::alloc::Global;
use std::mem;
use std::rt::Clock;
use std::sync::Wait;

// How far a play is.
#[derive(Clone, Copy, PartialEq, Eq)]
enum Stage {
    Sending,
    // It is finished, and not yet reported.
    Finished,
    // It is reported, and hasn't said goodbye.
    Reported,
}

// A play that a pacer sends: who asked for it, what is sent, where it goes, and how far it is.
#[derive(Drop)]
pub(crate) struct PacedPlay {
    asked: NewPlay,
    // The place of its presentation.
    presentation: u16,
    watched: Watched,
    pacer: Pacer,
    ways: Ways,
    stage: Stage,
    // The phase for which the session has left the play, as it was seen first.
    left: Option<Phase>,
    // For how many milliseconds more it waits to hear of the session's next play.
    patience: Option<u64>,
    // For how many it has waited for the media of what was counted when it was left.
    waited: u64,
    renewal: Renewal,
    // The moments of its last turn and of its next one. A wheel that is late may come to the play before
    // that one.
    last: u64,
    next: u64,
    // Up to which moment it might be sent at its last turn: earlier than that where it is late, and when
    // the next unit is due where the media of that wasn't at hand.
    reached: u64,
    // What its session holds of the uplink, in bits per second.
    rate: u64,
    // Its frames that were dropped, and of which it wasn't told yet.
    dropped: Option<Dropped>,
    // Whether a port of its player refuses all packets, as it was seen last.
    is_refused: bool,
}

// What came of sending: a turn, with when the next packet is due; or, where the unit that is due isn't
// at hand, when to look again.
#[derive(Clone, Copy)]
enum Sending {
    Turned(Turn, Option<u64>),
    Waits(u64),
}

// When a play has its next turn.
#[derive(Clone, Copy)]
pub(crate) enum Next {
    At(u64),
    Never,
}

// Whether the last unit of a play was due a unit ago, or earlier.
fn is_past(phase: Phase, unit_ms: u32, moment: u64) -> bool {
    match phase {
        Phase::Playing {
            from,
            stop,
            since,
            ..
        } => {
            let length = u64::from(stop.saturating_sub(from)) * u64::from(unit_ms);
            moment.saturating_sub(since) >= length
        }
        Phase::Ready { .. } | Phase::Ended { .. } => false,
    }
}

impl PacedPlay {
    // The play that a PLAY began, and the moment of its first turn, also where the session has left
    // it. `None` where nothing of it can be sent.
    pub(crate) fn begin<R: Wait, N: Numbers>(
        desk: &mut PacerDesk<'_, R, N>,
        asked: NewPlay,
        view: &SessionView,
        content: &Content,
    ) -> Option<(PacedPlay, u64)>
        ensures begins { IfSome result (λ begun. Begins asked begun.0) }
        ensures session { IfSome result (λ begun. begun.0.pacer.session ≡ view.now.0) }
    {
        let place = presentation_of(view)?;
        let presentation = content.table.presentation(place)?;
        let pacer = Pacer::start(view, asked.begun.phase, presentation)?;
        let due = pacer.next_due()?;
        let play = PacedPlay {
            asked,
            presentation: place,
            watched: Watched::by(desk, view, place),
            pacer,
            ways: Ways::of(desk.rt, &desk.parts, view),
            stage: Stage::Sending,
            left: None,
            patience: None,
            waited: 0,
            renewal: Renewal::unseen(),
            last: due,
            next: due,
            reached: due,
            rate: rate_of(view),
            dropped: None,
            is_refused: false,
        };
        Some((play, due))
    }

    // The session's number.
    pub(crate) fn session(&self) -> u64
        ensures { result ≡ self.now.asked.begun.noted.session }
    {
        self.asked.begun.noted.session
    }

    // The session began another play, in the phase `next`: this play still sends what was counted up to
    // there. Whether it sends no more than that. It sends more where the session was seen only after it
    // had left the other play, too.
    pub(crate) fn leave(&mut self, next: Phase) -> bool
        ensures left { self.new.left ≡ Some (unwrap_or self.old.left next) }
        ensures pacer { self.new.pacer ≡ self.old.pacer }
        ensures waits { self.new.patience ≡ (if result then Some 0 else self.old.patience) }
        ensures rest { self.new ≡ record self.old { left = self.new.left; patience = self.new.patience } }
        ensures apart { IsTrue result ↔ IsApart (unwrap_or self.old.left next) next }
    {
        let left = *self.left.get_or_insert(next);
        if sent_before(&left) != sent_before(&next) {
            return false;
        }
        self.patience = Some(0);
        true
    }

    // Takes the turn of the play, if its moment has come.
    pub(crate) fn turn<R: Wait + Clock, N: Numbers>(
        &mut self,
        alloc: Global,
        desk: &mut PacerDesk<'_, R, N>,
        content: &Content,
    ) -> Next {
        // The moment comes before the look: what is sent was due while the session was playing.
        let moment = desk.moment();
        if moment < self.next {
            return Next::At(self.next);
        }
        let next = self.turn_at(alloc, desk, content, moment);
        if let Next::At(due) = next {
            self.next = due;
        }
        self.tell_dropped(desk, next, moment);
        self.tell_refusing(desk, moment);
        next
    }

    // Tells of a port that has refused all packets for so long that it is sent none.
    fn tell_refusing<R: Wait + Clock, N: Numbers>(
        &mut self,
        desk: &mut PacerDesk<'_, R, N>,
        moment: u64,
    ) {
        let is_refused = self.ways.is_any_spared(moment);
        if is_refused && !self.is_refused {
            desk.tell_refusing(self.session(), self.name());
        }
        self.is_refused = is_refused;
    }

    // Tells of frames that were dropped, once they were counted for long enough or the play is over.
    fn tell_dropped<R: Wait + Clock, N: Numbers>(
        &mut self,
        desk: &mut PacerDesk<'_, R, N>,
        next: Next,
        moment: u64,
    ) {
        let Some(dropped) = self.dropped else {
            return;
        };
        let is_due = match next {
            Next::At(_) => dropped.is_counted(moment),
            Next::Never => true,
        };
        if is_due {
            self.dropped = None;
            desk.tell_dropped(self.session(), self.name(), dropped);
        }
    }

    // Tells of frames that were dropped, where it wasn't: the pacer is at its end.
    pub(crate) fn tell_rest<R: Wait + Clock, N: Numbers>(&self, desk: &mut PacerDesk<'_, R, N>) {
        if let Some(dropped) = self.dropped {
            desk.tell_dropped(self.session(), self.name(), dropped);
        }
    }

    // Does what is next: sends, or reports the play, or says goodbye.
    fn turn_at<R: Wait, N: Numbers>(
        &mut self,
        alloc: Global,
        desk: &mut PacerDesk<'_, R, N>,
        content: &Content,
        moment: u64,
    ) -> Next {
        let Some(phase) = desk.phase(self.session()) else {
            return Next::Never;
        };
        let Some(presentation) = content.table.presentation(self.presentation) else {
            return Next::Never;
        };
        match self.stage {
            Stage::Sending => self.send_on(alloc, desk, content, presentation, phase, moment),
            Stage::Finished => self.report(alloc, desk, content, presentation, moment),
            Stage::Reported => {
                self.say_goodbye(desk, phase, moment);
                Next::Never
            }
        }
    }

    // Sends what is due, with measure, and ends the play behind its last packet.
    fn send_on<R: Wait, N: Numbers>(
        &mut self,
        alloc: Global,
        desk: &mut PacerDesk<'_, R, N>,
        content: &Content,
        presentation: &Presentation,
        phase: Phase,
        moment: u64,
    ) -> Next {
        let unit_ms = presentation.unit_ms().ms();
        self.heed_renewal(desk, moment);
        let passed = moment.saturating_sub(self.last);
        let (turn, due) = match self.send(alloc, desk, content, phase, unit_ms, moment) {
            Sending::Waits(until) => return Next::At(until),
            Sending::Turned(turn, due) => (turn, due),
        };
        match (turn, due) {
            (Turn::More, Some(due)) => Next::At(next_unit(due, unit_ms, moment)),
            (Turn::SinkFailed, Some(due)) if !is_past(phase, unit_ms, moment) => {
                Next::At(next_unit(due, unit_ms, moment))
            }
            (Turn::AtEnd | Turn::SinkFailed, _) => self.finish(
                alloc,
                desk,
                content,
                presentation,
                moment,
            ),
            (Turn::OtherPlay, _) => self.wait(unit_ms, passed, moment),
            (Turn::More, None) => Next::Never,
        }
    }

    // Sends again to ports that have refused all, once the session is renewed: its player is there.
    fn heed_renewal<R: Wait, N: Numbers>(&mut self, desk: &mut PacerDesk<'_, R, N>, moment: u64) {
        if !self.ways.is_any_spared(moment) {
            self.renewal = Renewal::unseen();
            return;
        }
        if moment < self.renewal.look_at {
            return;
        }
        if let Some(view) = desk.look(self.session())
            && self.renewal.see(view.expires(), moment)
        {
            self.ways.spare_none();
        }
    }

    // The moment up to which it sends in a turn, where its next unit is due at `due`. It keeps its pace,
    // and catches up with measure as far as the uplink is free. What isn't at hand has no use for that.
    fn sends_until<R: Wait, N: Numbers>(
        &mut self,
        desk: &mut PacerDesk<'_, R, N>,
        due: u64,
        unit_ms: u32,
        moment: u64,
    ) -> u64
        requires { 0 < unit_ms }
        ensures { result ≤ moment }
    {
        let passed = moment.saturating_sub(self.last);
        let most = measured(due, unit_ms, passed, moment);
        let paced = at_pace(self.reached, unit_ms, passed);
        let is_late = paced < most && self.reached != due;
        self.reached = paced;
        if is_late {
            self.reached = paced + desk.take_credit(most - paced, self.rate, moment);
        }
        most.min(self.reached)
    }

    // Sends with measure what is due while the session is in this phase. A play that was left waits
    // for its media, too, but not for ever.
    fn send<R: Wait, N: Numbers>(
        &mut self,
        alloc: Global,
        desk: &mut PacerDesk<'_, R, N>,
        content: &Content,
        phase: Phase,
        unit_ms: u32,
        moment: u64,
    ) -> Sending
        requires { 0 < unit_ms }
    {
        let session = self.session();
        let passed = moment.saturating_sub(self.last);
        let due = self.pacer.next_due().unwrap_or(moment);
        let late = moment.saturating_sub(due);
        let until = self.sends_until(desk, due, unit_ms, moment);
        let mut sink = PacketSink {
            rt: desk.rt,
            media: &content.media,
            counters: desk.parts.counters,
            ways: &self.ways,
            presentation: usize::from(self.presentation),
            now: moment,
            room: self.ways.room_when_late(late),
            run: mem::replace(&mut desk.room.frames, FrameRun::empty(alloc)),
            count: PacketCount::none(),
            failed: 0,
            waits: false,
        };
        let room = &mut desk.room.packets;
        let turn = self.pacer.turn(session, phase, until, room, &mut sink);
        let left = self.left.unwrap_or(phase);
        let last = if turn == Turn::OtherPlay {
            let pacer = &mut self.pacer;
            Some(pacer.last_turn(session, left, until, room, &mut sink))
        } else {
            None
        };
        sink.put_run();
        let PacketSink {
            run,
            count,
            failed,
            waits,
            ..
        } = sink;
        desk.room.frames = run;
        let failed = failures_in(failed, waits);
        self.dropped = Dropped::count(self.dropped, count.dropped);
        desk.count(count.sent, count.lost, failed, late);
        self.watched.count(desk, &count, late);
        let next = self.pacer.next_due();
        self.last = moment;
        if waits {
            self.reached = next.unwrap_or(until);
        }
        if waits && last.is_some() {
            self.waited = waited_on(self.waited, passed);
        }
        match next {
            Some(due) if waits && !(last.is_some() && is_given_up(self.waited)) => {
                self.left = last.map(|_| left).or(self.left);
                Sending::Waits(look_again(due, moment))
            }
            next => Sending::Turned(self.after(turn, last, left), next),
        }
    }
}
