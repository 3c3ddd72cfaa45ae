//! One play of one session, and the sending of what is due of it.

ghost use Rattle.std.specs.Prelude.{◌≡◌, ◌↔◌, ◌<◌, ◌≤◌, ◌+◌, IsTrue, length, OnOk, OnErr};
ghost use Rattle.rtsp_record.specs.Moments.{due, sent_before};
ghost use Rattle.rtsp_content.specs.declared.limits.TheConstants.{MAX_UNIT_MS};
ghost use Rattle.rtsp_rtp.specs.Pacing.{units_in};
ghost use Rattle.rtsp_rtp.specs.Parts.{MAX_UNIT_LEN};
ghost use Rattle.rtsp_rtp.specs.Progress.{phase_of, sent_at, IsPlaced, SendsDue, SendsDuePart};

use crate::buffer::Packet;
use crate::sender_state::SenderStates;
use crate::sink::{Sink, SinkFault};
use crate::sources::Sources;
use rtsp_record::Phase;

/// The units that a session in this phase sent in earlier plays, modulo 2^32.
pub fn sent_before(phase: &Phase) -> u32
    ensures { result ≡ sent_before phase.now }
{
    match *phase {
        Phase::Ready { sent, .. } | Phase::Playing { sent, .. } | Phase::Ended { sent, .. } => sent,
    }
}

// How far a play is: the unit of the play, and the place of the source, of its next packet.
#[derive(Clone, Copy)]
pub(crate) struct Progress {
    pub(crate) unit: u32,
    pub(crate) place: usize,
}

impl Progress {
    // Goes on to the next packet, where each unit has so many.
    fn step(&mut self, count: usize)
        requires place { self.old.place < count }
        requires unit { self.old.unit < u32.MAX }
        ensures next { sent_at count self.new ≡ sent_at count self.old + 1 }
        ensures placed { IsPlaced count self.new }
    {
        let next = self.place + 1;
        if next < count {
            self.place = next;
        } else {
            self.place = 0;
            self.unit += 1;
        }
    }
}

// What a pacer was made for: the play of a session, as its phase tells it.
#[derive(Drop)]
pub(crate) struct Play {
    pub(crate) session: u64,
    pub(crate) from: u32,
    pub(crate) stop: u32,
    pub(crate) sent: u32,
    pub(crate) since: u64,
    pub(crate) unit_ms: u32,
    pub(crate) sources: Sources,
}

impl Play {
    // The phase of the session in the play.
    pub(crate) fn phase(&self) -> Phase
        ensures { result ≡ phase_of self.now }
    {
        Phase::Playing {
            from: self.from,
            stop: self.stop,
            sent: self.sent,
            since: self.since,
        }
    }

    // How many units the play has.
    pub(crate) fn units(&self) -> u32
        ensures { result ≡ units_in (phase_of self.now) }
    {
        self.stop.saturating_sub(self.from)
    }

    // Whether a unit of the play is due at a moment.
    fn is_due(&self, unit: u32, moment: u64) -> bool
        requires some { 0 < self.now.unit_ms }
        requires most { self.now.unit_ms ≤ MAX_UNIT_MS }
        ensures due { IsTrue result ↔ (unit < due (phase_of self.now) self.now.unit_ms moment) }
        ensures not_last { IsTrue result → unit < u32.MAX }
    {
        let passed = moment.saturating_sub(self.since);
        unit < self.units() && u64::from(unit) * u64::from(self.unit_ms) <= passed
    }

    // Sends what is due at a moment and unsent. The room is for the octets of a unit of several packets.
    pub(crate) fn send_due<S: Sink>(
        &self,
        at: &mut Progress,
        states: &mut SenderStates,
        moment: u64,
        packet: &mut Packet,
        room: &mut [u8],
        sink: &mut S,
    ) -> Result<(), SinkFault>
        requires some { 0 < self.now.unit_ms }
        requires most { self.now.unit_ms ≤ MAX_UNIT_MS }
        requires placed { IsPlaced (length self.now.sources) at.old }
        requires room { MAX_UNIT_LEN ≤ length room.old }
        ensures ok { OnOk result (SendsDue S.calls self.now moment at.old at.new states.old states.new sink.old sink.new) }
        ensures err { OnErr result (SendsDuePart S.calls self.now moment at.old at.new states.old states.new sink.old sink.new) }
        ensures room { length room.new ≡ length room.old }
        ensures placed { IsPlaced (length self.now.sources) at.new }
    {
        let sources = self.sources.as_slice();
        if sources.is_empty() {
            return Ok(());
        }
        while self.is_due(at.unit, moment) {
            self.send(at.unit, &sources[at.place], states, packet, room, sink)?;
            at.step(sources.len());
        }
        Ok(())
    }
}
