//! The streams of a play, and the RTP-Info header (RFC 7826 section 18.45) that shows them, written
//! into room.

ghost use Rattle.std.specs.Prelude.{◌≡◌, ◌≤◌, ◌+◌, ◌-◌, ◌^◌, [], ◌∷◌, ◌++◌, length, min, OnOk};
ghost use Rattle.rtsp_grammar.specs.Writing.{header_text};
ghost use Rattle.rtsp_state.specs.Room.{Takes};
ghost use Rattle.rtsp_state.specs.Bounds.{stream_room, info_room};
ghost use Rattle.rtsp_state.specs.Info.{source_part, seq_text, rtptime_text, stream_info_text, next_stream_info, info_text, info_line};

use crate::headers::{put_end, put_name, put_word};
use crate::room::Room;
use crate::words::{Field, Word};
use rtsp_grammar::Text;
use std::alloc::{AllocError, Global};
use std::marker::Model;

/// One stream in RTP-Info (RFC 7826 section 18.45).
#[derive(Drop)]
pub struct StreamInfo {
    /// The URI of its track.
    pub url: Text,
    pub ssrc: u32,
    /// The sequence number of the session's first packet.
    pub seq: u16,
    /// How many numbers a unit takes.
    pub packets: u16,
    /// The timestamp of the session's first packet.
    pub rtptime: u32,
    /// How many ticks of the timestamp a unit lasts.
    pub ticks: u32,
}

/// The streams in RTP-Info, in the order of the table.
#[derive(Drop)]
pub struct RtpInfo {
    items: Vec<StreamInfo>,
}

impl Model for RtpInfo {
    ghost use Rattle.std.specs.Prelude.{List};
    ghost use Rattle.rtsp_state.specs.declared.rtp_info.StreamInfo.{StreamInfo};

    ghost Value = { List StreamInfo };

    ghost view = { λ p. p.items.items };
}

impl RtpInfo {
    /// No streams yet. It takes no memory.
    pub fn new(alloc: Global) -> RtpInfo
        ensures { result ≡ [] }
    {
        RtpInfo {
            items: Vec::new(alloc),
        }
    }

    /// Adds the next stream of the table. It is refused where there is no memory for it.
    pub fn push(&mut self, stream: StreamInfo) -> Result<(), AllocError>
        ensures { OnOk result (self.new ≡ self.old ++ stream ∷ []) }
    {
        self.items.push(stream)?;
        Ok(())
    }

    /// The streams, in the order in which they were added.
    pub fn as_slice(&self) -> &[StreamInfo]
        ensures { result.now ≡ self.now }
    {
        self.items.as_slice()
    }
}

#[tactic(auto, unfolding(crate::specs::Info::source_part))]
fn put_source(room: &mut Room, stream: &StreamInfo)
    requires { length stream.now.url + 20 ≤ room.old.spare }
    ensures text { room.new.text ≡ room.old.text ++ source_part stream.now }
    ensures room { Takes room.old room.new (length stream.now.url + 20) }
{
    put_word(room, Word::UrlIs);
    room.put(stream.url.as_bytes());
    put_word(room, Word::SsrcIs);
    room.put_ssrc(stream.ssrc);
}

#[tactic(auto, unfolding(crate::specs::Info::seq_text))]
fn put_seq(room: &mut Room, stream: &StreamInfo, sent: u32)
    requires { 15 ≤ room.old.spare }
    ensures text { room.new.text ≡ room.old.text ++ seq_text stream.now sent }
    ensures room { Takes room.old room.new 15 }
{
    put_word(room, Word::SeqIs);
    let numbers = u64::from(sent) * u64::from(stream.packets);
    room.put_decimal(((u64::from(stream.seq) + numbers) % 65_536) as u32);
}

#[tactic(auto, unfolding(crate::specs::Info::rtptime_text))]
fn put_rtptime(room: &mut Room, stream: &StreamInfo, sent: u32)
    requires { 19 ≤ room.old.spare }
    ensures text { room.new.text ≡ room.old.text ++ rtptime_text stream.now sent }
    ensures room { Takes room.old room.new 19 }
{
    put_word(room, Word::RtptimeIs);
    let stamp = u128::from(stream.rtptime) + u128::from(sent) * u128::from(stream.ticks);
    room.put_decimal((stamp % 4_294_967_296) as u32);
}

#[tactic(auto, unfolding(crate::specs::Info::stream_info_text))]
fn put_stream(room: &mut Room, stream: &StreamInfo, sent: u32)
    requires { length stream.now.url + 54 ≤ room.old.spare }
    ensures text { room.new.text ≡ room.old.text ++ stream_info_text stream.now sent }
    ensures room { Takes room.old room.new (length stream.now.url + 54) }
{
    put_source(room, stream);
    put_seq(room, stream, sent);
    put_rtptime(room, stream, sent);
}

#[tactic(auto, unfolding(crate::specs::Info::next_stream_info))]
fn put_next(room: &mut Room, stream: &StreamInfo, sent: u32)
    requires { stream_room stream.now ≤ room.old.spare }
    ensures text { room.new.text ≡ room.old.text ++ next_stream_info sent stream.now }
    ensures room { Takes room.old room.new (stream_room stream.now) }
{
    put_word(room, Word::Comma);
    put_stream(room, stream, sent);
}

/// The streams, with commas between them.
pub fn put_info_value(room: &mut Room, streams: &[StreamInfo], sent: u32)
    requires { info_room streams.now ≤ room.old.spare }
    ensures text { room.new.text ≡ room.old.text ++ info_text streams.now sent }
    ensures room { Takes room.old room.new (info_room streams.now) }
{
    let Some((first, others)) = streams.split_first() else {
        return;
    };
    put_stream(room, first, sent);
    for stream in others {
        put_next(room, stream, sent);
    }
}

/// The header, where so many units were sent in earlier plays.
#[tactic(auto, using(crate::proofs::MessageLemmas::line_of))]
pub fn put_info(room: &mut Room, streams: &[StreamInfo], sent: u32)
    requires { info_room streams.now + 20 ≤ room.old.spare }
    ensures text { room.new.text ≡ room.old.text ++ header_text (info_line streams.now sent) }
    ensures room { Takes room.old room.new (info_room streams.now + 20) }
{
    put_name(room, Field::RtpInfo);
    put_info_value(room, streams, sent);
    put_end(room);
}

fn stream_size(stream: &StreamInfo) -> usize
    ensures { result ≡ min (stream_room stream.now) (2 ^ 64 - 1) }
{
    stream.url.as_bytes().len().saturating_add(55)
}

/// The room that the streams of RTP-Info may need, or the greatest number.
pub fn info_size(streams: &[StreamInfo]) -> usize
    ensures { result ≡ min (info_room streams.now) (2 ^ 64 - 1) }
{
    let mut total = 0usize;
    for stream in streams {
        total = total.saturating_add(stream_size(stream));
    }
    total
}
