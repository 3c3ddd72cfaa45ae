//! Where the packets of a turn get their media, and where they and RTCP go.

ghost use Rattle.std.specs.Prelude.{◌≡◌, ◌-◌, if◌then◌else◌};

use crate::frame_run::FrameRun;
use crate::packet_count::{PacketCount, Portion};
use crate::ways::Ways;
use crate::went::Went;
use rtsp_metrics::Counters;
use rtsp_rtp::{ControlSink, Packet, Sink, SinkFault, SlotFault};
use rtsp_sockets::{FrameRoom, Media, NotTaken};
use std::sync::Wait;

// Media and ways of one turn of a play. A packet that can't be sent is lost, and the play goes on;
// media that can't be read is a failure. A unit that isn't read yet breaks the turn off, too, since it
// isn't waited for.
#[derive(Drop)]
pub(crate) struct PacketSink<'a, 'w, R> {
    pub(crate) rt: &'a R,
    pub(crate) media: &'a Media,
    pub(crate) counters: &'a Counters,
    pub(crate) ways: &'w Ways,
    pub(crate) presentation: usize,
    pub(crate) now: u64,
    // How much of the play's streams may wait for a connection.
    pub(crate) room: FrameRoom,
    // The frames of the unit that is being sent, in the pacer's room. They are put before a sink is let go.
    pub(crate) run: FrameRun,
    pub(crate) count: PacketCount,
    // The calls that have failed, for whatever reason.
    pub(crate) failed: u64,
    // Whether the last of them was for a unit that isn't read yet.
    pub(crate) waits: bool,
}

// How many of the failed calls of a turn are failures of the media: the last one isn't, where it was
// for a unit that comes later.
pub(crate) fn failures_in(failed: u64, waits: bool) -> u64
    ensures { result ≡ failed - (if waits then 1 else 0) }
{
    failed.saturating_sub(u64::from(waits))
}

impl<R: Wait> PacketSink<'_, '_, R> {
    // Puts frames of a track.
    fn put(&self, track: u16, frames: &[u8]) -> Went {
        self.ways
            .put_frames(self.rt, self.now, self.room, track, frames)
    }

    // Gathers a frame of a track behind those of its unit; where they have no room for it, they are put.
    fn gather(&mut self, track: u16, frame: &[u8])
        ensures { self.new.failed ≡ self.old.failed }
    {
        if self.run.add(track, frame) {
            return;
        }
        self.put_run();
        if !self.run.add(track, frame) {
            let went = self.put(track, frame);
            let portion = Portion::of_frames(1, frame);
            self.count = self.count.with_more(portion, went, self.now);
        }
    }

    // Puts the frames that were gathered in one call, and one by one where there is no room for all.
    pub(crate) fn put_run(&mut self)
        ensures { self.new.failed ≡ self.old.failed }
    {
        let (track, frames) = (self.run.track(), self.run.frames());
        if frames == 0 {
            return;
        }
        let (rt, ways, now, room) = (self.rt, self.ways, self.now, self.room);
        let went = ways.put_frames(rt, now, room, track, self.run.as_bytes());
        let count = match went {
            Went::Dropped(_) if frames > 1 => self.put_each(track, frames),
            _ => {
                let portion = Portion::of_frames(frames, self.run.as_bytes());
                self.count.with_more(portion, went, self.now)
            }
        };
        self.count = count;
        self.run.clear();
    }

    // Puts the frames that were gathered one by one. What the count comes to.
    fn put_each(&self, track: u16, frames: u64) -> PacketCount {
        let mut count = self.count;
        let mut at = 0usize;
        for _ in 0..frames {
            let Some(frame) = self.run.frame_at(at) else {
                return count;
            };
            at = at.saturating_add(frame.len());
            let went = self.put(track, frame);
            count = count.with_more(Portion::of_frames(1, frame), went, self.now);
        }
        count
    }
}

impl<R: Wait> Sink for PacketSink<'_, '_, R> {
    ghost use Rattle.std.specs.Prelude.{⊤};

    ghost calls = { record { octets = λ s track unit bytes u. ⊤; sends = λ s track packet u. ⊤; refuses = λ s track unit fault u. ⊤; reports = λ s track packet u. ⊤; fails = λ s u. ⊤; failures = λ s. s.failed } };

    fn octets(&mut self, track: u16, unit: u32, out: &mut [u8]) -> Result<(), SinkFault> {
        self.put_run();
        let presentation = self.presentation;
        let taken = self
            .media
            .take(self.rt, presentation, track, unit, self.now, out);
        let Err(why) = taken else {
            return Ok(());
        };
        self.failed = self.failed.saturating_add(1);
        self.waits = why == NotTaken::Later;
        if why == NotTaken::Unreadable {
            let presentation = u16::try_from(presentation).unwrap_or(u16::MAX);
            self.counters.media_failed(presentation, track);
        }
        Err(SinkFault)
    }

    fn send(&mut self, track: u16, packet: &mut Packet) {
        match self.ways.channel_number(track) {
            Some(number) => self.gather(track, packet.frame(number)),
            None => {
                let datagram = packet.datagram();
                let went = self.ways.send_datagram(self.now, track, datagram);
                self.count = self.count.with_more(Portion::one(datagram), went, self.now);
            }
        }
    }

    fn refuse(&mut self, track: u16, _unit: u32, _fault: SlotFault) {
        let presentation = u16::try_from(self.presentation).unwrap_or(u16::MAX);
        self.counters.media_failed(presentation, track);
    }

    fn report(&mut self, track: u16, packet: &mut Packet) {
        self.put_run();
        self.ways.send_control(self.rt, self.now, track, packet);
    }
}

// Where the RTCP of a play goes.
#[derive(Drop)]
pub(crate) struct WaysOfControl<'a, 'w, R> {
    pub(crate) rt: &'a R,
    pub(crate) ways: &'w Ways,
    pub(crate) now: u64,
}

impl<R: Wait> ControlSink for WaysOfControl<'_, '_, R> {
    ghost use Rattle.std.specs.Prelude.{⊤};

    ghost sends = { λ s track packet u. ⊤ };

    fn send_control(&mut self, track: u16, packet: &mut Packet) {
        self.ways.send_control(self.rt, self.now, track, packet);
    }
}
