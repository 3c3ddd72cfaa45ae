//! The sending of one unit.

ghost use Rattle.std.specs.Prelude.{◌≡◌, ◌≢◌, ◌<◌, ◌≤◌, length, OnOk, OnErr};
ghost use Rattle.rtsp_content.specs.declared.packing.Packing.TheVariants.{Single};
ghost use Rattle.rtsp_rtp.specs.Pacing.{IsSourceWithin, units_in};
ghost use Rattle.rtsp_rtp.specs.Parts.{MAX_UNIT_LEN};
ghost use Rattle.rtsp_rtp.specs.SenderStates.{behind_report};
ghost use Rattle.rtsp_rtp.specs.Turns.{UnitSent, Reports, report_due};
ghost use Rattle.rtsp_rtp.specs.Sinks.{Failed};
ghost use Rattle.rtsp_rtp.specs.Progress.{phase_of};

use crate::buffer::Packet;
use crate::parts_sent::{PartsSent, UnitStart, send_parts};
use crate::play::Play;
use crate::report::report;
use crate::sender_state::{SenderState, SenderStates, report_every};
use crate::sink::{Sink, SinkFault};
use crate::source::Source;
use rtsp_content::Packing;

impl Play {
    // Makes the packets of a unit of the play and a source, and sends them.
    pub(crate) fn send<S: Sink>(
        &self,
        unit: u32,
        source: &Source,
        states: &mut SenderStates,
        packet: &mut Packet,
        room: &mut [u8],
        sink: &mut S,
    ) -> Result<(), SinkFault>
        requires some { 0 < self.now.unit_ms }
        requires unit { unit < units_in (phase_of self.now) }
        requires within { IsSourceWithin source.now }
        requires room { MAX_UNIT_LEN ≤ length room.old }
        ensures ok { OnOk result (UnitSent S.calls (phase_of self.now) self.now.unit_ms unit source.now states.old states.new sink.old sink.new) }
        ensures err { OnErr result (Failed S.calls sink.old sink.new) }
        ensures kept { OnErr result (states.new ≡ states.old) }
        ensures room { length room.new ≡ length room.old }
    {
        match source.packing {
            Packing::Single => {
                let sent = self.sent.wrapping_add(unit);
                packet.fill(source, sent, self.from + unit, sink)?;
                sink.send(source.track, packet);
                Ok(())
            }
            _ => self.send_several(unit, source, states, packet, room, sink),
        }
    }

    // Sends the packets of a unit of several, tells what is wrong with it, and reports behind it.
    fn send_several<S: Sink>(
        &self,
        unit: u32,
        source: &Source,
        states: &mut SenderStates,
        packet: &mut Packet,
        room: &mut [u8],
        sink: &mut S,
    ) -> Result<(), SinkFault>
        requires some { 0 < self.now.unit_ms }
        requires unit { unit < units_in (phase_of self.now) }
        requires within { IsSourceWithin source.now }
        requires several { source.now.packing ≢ Single }
        requires room { MAX_UNIT_LEN ≤ length room.old }
        ensures ok { OnOk result (UnitSent S.calls (phase_of self.now) self.now.unit_ms unit source.now states.old states.new sink.old sink.new) }
        ensures err { OnErr result (Failed S.calls sink.old sink.new) }
        ensures kept { OnErr result (states.new ≡ states.old) }
        ensures room { length room.new ≡ length room.old }
    {
        let track = source.track;
        let octets = &mut room[..source.unit_len()];
        sink.octets(track, self.from + unit, octets)?;
        let start = UnitStart {
            number: source.first_number(self.sent),
            timestamp: source.timestamp(self.sent.wrapping_add(unit)),
            state: states.of(track),
        };
        let sent = send_parts(source, start, octets, packet, sink);
        if let Some(fault) = sent.fault {
            sink.refuse(track, self.from + unit, fault);
        }
        let state = self.report_behind(unit, source, sent, packet, sink);
        states.set(track, state);
        Ok(())
    }

    // Reports behind the packets of a unit, if that is due: the state of the stream then.
    fn report_behind<S: Sink>(
        &self,
        unit: u32,
        source: &Source,
        sent: PartsSent,
        packet: &mut Packet,
        sink: &mut S,
    ) -> SenderState
        requires some { 0 < self.now.unit_ms }
        ensures state { result ≡ behind_report self.now.unit_ms sent.state unit sent.packets }
        ensures reports { Reports S.calls source.now.track (report_due (phase_of self.now) self.now.unit_ms source.now unit sent.state sent.packets) sink.old sink.new }
    {
        let mut state = sent.state;
        if sent.packets == 0 || u64::from(unit) < state.reports_from {
            return state;
        }
        let passed = u64::from(unit) * u64::from(self.unit_ms);
        let moment = self.since.saturating_add(passed);
        let timestamp = source.timestamp(self.sent.wrapping_add(unit));
        packet.put_whole(&report(source, moment, timestamp, state));
        sink.report(source.track, packet);
        state.reports_from = u64::from(unit) + u64::from(report_every(self.unit_ms));
        state
    }
}
