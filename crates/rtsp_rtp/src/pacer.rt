//! The pace of one play.

ghost use Rattle.std.specs.Prelude.{◌≡◌, ◌↔◌, ◌<◌, ◌^◌, IsTrue, IfSome, IfNone};
ghost use Rattle.rtsp_rtp.specs.Pacing.{IsOfPlay, IsPacing, packets_in, started, units_in};
ghost use Rattle.rtsp_rtp.specs.Turns.{Turned, CountsFault};
ghost use Rattle.rtsp_rtp.specs.Leaving.{IsLeftAt, IsNeverLeft, LastTurned, CountsLastFault};
ghost use Rattle.rtsp_rtp.specs.Moments.{IsNextDue, IsNeverDue};
ghost use Rattle.rtsp_rtp.specs.Goodbyes.{SaysGoodbye};

use crate::goodbye::{ControlSink, say_goodbye};
use crate::play::{Play, Progress};
use crate::send_room::SendRoom;
use crate::sender_state::SenderStates;
use crate::sink::{Sink, SinkFault};
use crate::sources::Sources;
use crate::turn::{LastTurn, Turn};
use rtsp_content::Presentation;
use rtsp_record::Phase;
use rtsp_sessions::SessionView;
use std::marker::Model;

/// One play of one session, and how much of it has been sent. It is small and of fixed size, and
/// takes no memory.
#[derive(Drop)]
pub struct Pacer {
    next: Progress,
    states: SenderStates,
    play: Play,
}

impl Model for Pacer {
    ghost use Rattle.rtsp_rtp.specs.Pacing.{Pacing};

    ghost Value = { Pacing };

    ghost use Rattle.rtsp_rtp.specs.PacerView.{pacing_view, IsInside};

    ghost view = { pacing_view };

    ghost invariant = { IsInside };
}

impl Pacer {
    /// A pacer for a play of the session that the view shows. The phase is the session's in that
    /// play; there is no pacer where it is no phase of a play. The session may have left the play.
    /// The presentation is that of the session's streams.
    pub fn start(view: &SessionView, phase: Phase, presentation: &Presentation) -> Option<Self>
        ensures { result ≡ started view.now phase presentation.now }
    {
        match phase {
            Phase::Playing {
                from,
                stop,
                sent,
                since,
            } => Some(Pacer {
                next: Progress { unit: 0, place: 0 },
                states: SenderStates::unsent(),
                play: Play {
                    session: view.session(),
                    from,
                    stop,
                    sent,
                    since,
                    unit_ms: presentation.unit_ms().ms(),
                    sources: Sources::of(view, presentation),
                },
            }),
            Phase::Ready { .. } | Phase::Ended { .. } => None,
        }
    }

    /// The session's number.
    pub fn session(&self) -> u64
        ensures { result ≡ self.now.session }
    {
        self.play.session
    }

    /// Whether a session of this number and in this phase is in the play that the pacer was made
    /// for.
    pub fn is_of(&self, session: u64, phase: Phase) -> bool
        ensures { IsTrue result ↔ IsOfPlay self.now session phase }
    {
        session == self.play.session && phase == self.play.phase()
    }

    /// Sends what is due at a moment, in milliseconds, and unsent: by unit, and then in the order
    /// of the presentation's tracks. What was sent is never sent again. `phase` is the one that the
    /// session is in at that moment. Behind the packets of a unit of several the stream reports, where
    /// it hasn't for a second.
    pub fn turn<S: Sink>(
        &mut self,
        session: u64,
        phase: Phase,
        moment: u64,
        room: &mut SendRoom,
        sink: &mut S,
    ) -> Turn
        ensures turned { Turned S.calls self.old self.new session phase moment result sink.old sink.new }
        ensures counted { CountsFault S.calls result sink.old sink.new }
    {
        if !self.is_of(session, phase) {
            return Turn::OtherPlay;
        }
        if let Err(SinkFault) = self.play.send_due(
            &mut self.next,
            &mut self.states,
            moment,
            &mut room.packet,
            room.unit.as_mut_slice(),
            sink,
        ) {
            return Turn::SinkFailed;
        }
        if self.is_at_end() {
            return Turn::AtEnd;
        }
        Turn::More
    }

    /// Of what the book counted as sent when the session left the play, sends what hasn't been sent:
    /// by unit, and then in the order of the presentation's tracks, as far as it is due at a moment,
    /// in milliseconds. `phase` is the one that the session was in when it was seen to have left;
    /// each further turn is to be given the same one.
    pub fn last_turn<S: Sink>(
        &mut self,
        session: u64,
        phase: Phase,
        moment: u64,
        room: &mut SendRoom,
        sink: &mut S,
    ) -> LastTurn
        ensures turned { LastTurned S.calls self.old self.new session phase moment result sink.old sink.new }
        ensures counted { CountsLastFault S.calls result sink.old sink.new }
    {
        let Some(left) = self.left_at(session, &phase) else {
            return LastTurn::NotLeft;
        };
        let until = left.min(moment);
        if let Err(SinkFault) = self.play.send_due(
            &mut self.next,
            &mut self.states,
            until,
            &mut room.packet,
            room.unit.as_mut_slice(),
            sink,
        ) {
            return LastTurn::SinkFailed;
        }
        if moment < left {
            return LastTurn::More;
        }
        LastTurn::Done
    }

    // A moment at which the session may have left the play, where one is known.
    fn left_at(&self, session: u64, phase: &Phase) -> Option<u64>
        ensures some { IfSome result (IsLeftAt self.now session phase.now) }
        ensures few { IfSome result (λ m. units_in self.now.phase < 2 ^ 32) }
        ensures none { IfNone result (IsNeverLeft self.now session phase.now) }
    {
        if session != self.play.session {
            return None;
        }
        self.play.left_for(phase)
    }

    // What its type says of it.
    pub(crate) fn told(&self)
        ensures { IsPacing self.now }
    {
        let _next = self.next;
    }

    // Whether no packet is left.
    fn is_at_end(&self) -> bool
        ensures { IsTrue result ↔ (self.now.done ≡ packets_in self.now) }
    {
        self.play.sources.as_slice().is_empty() || self.next.unit == self.play.units()
    }

    /// The moment, in milliseconds, at which the next unsent packet is due. It counts from the
    /// beginning of the play, so being late at one unit makes the next no later. `None` where no
    /// packet is left, or where its moment is beyond all moments.
    pub fn next_due(&self) -> Option<u64>
        ensures some { IfSome result (IsNextDue self.now) }
        ensures none { IfNone result (IsNeverDue self.now) }
    {
        if self.is_at_end() {
            return None;
        }
        let Play { since, unit_ms, .. } = &self.play;
        since.checked_add(u64::from(self.next.unit) * u64::from(*unit_ms))
    }

    /// Says goodbye for each stream of the play, in the order of the presentation's tracks.
    pub fn say_goodbye<S: ControlSink>(&self, room: &mut SendRoom, sink: &mut S)
        ensures { SaysGoodbye S.sends self.now.sources sink.old sink.new }
    {
        say_goodbye(self.play.sources.as_slice(), &mut room.packet, sink);
    }
}
