//! The headers of a response, each written into room.

ghost use Rattle.std.specs.Prelude.{◌≡◌, ◌≤◌, ◌+◌, ◌++◌, ◌∷◌, [], length, decimal};
ghost use Rattle.rtsp_grammar.specs.Writing.{header_text, headers_text};
ghost use Rattle.rtsp_text.specs.Hexadecimal.{hex_text};
ghost use Rattle.rtsp_transport.specs.Granted.{transport_text};
ghost use Rattle.rtsp_npt.specs.Printed.{time_text};
ghost use Rattle.rtsp_state.specs.Room.{Takes};
ghost use Rattle.rtsp_state.specs.FixedText.{header_name, word_room, status_line};
ghost use Rattle.rtsp_state.specs.Words.{name_of_field, text_of};
ghost use Rattle.rtsp_state.specs.Lines.{cseq_line, session_line, opened_line, public_line, allow_line, unsupported_line, pair_of, port_of, granted_of, granted_text, transport_line, accept_ranges_line, properties_line, media_range_line, range_line, seek_line, base_line, type_line, length_line, session_lines, start_lines};
ghost use Rattle.rtsp_state.specs.declared.words.Word.TheVariants as words;
ghost use Rattle.rtsp_state.specs.declared.words.Field.TheVariants as fields;
ghost use Rattle.rtsp_state.specs.declared.status.Status.TheVariants as statuses;

use crate::response_start::ResponseStart;
use crate::room::Room;
use crate::timing::Timing;
use crate::words::{Field, Word, text_of};
use rtsp_npt::UnitLength;
use rtsp_record::{Stream, Thing};

// A header's name, with the colon and the space before its value.
#[tactic(auto, unfolding(crate::specs::FixedText::header_name, crate::specs::Words::name_of_field))]
fn header_name(of: Field) -> &'static [u8]
    ensures text { result.now ≡ header_name of }
    ensures short { length result.now ≤ 18 }
{
    match of {
        Field::CSeq => b"CSeq: ",
        Field::Session => b"Session: ",
        Field::Public => b"Public: ",
        Field::Allow => b"Allow: ",
        Field::Unsupported => b"Unsupported: ",
        Field::Transport => b"Transport: ",
        Field::AcceptRanges => b"Accept-Ranges: ",
        Field::MediaProperties => b"Media-Properties: ",
        Field::MediaRange => b"Media-Range: ",
        Field::Range => b"Range: ",
        Field::SeekStyle => b"Seek-Style: ",
        Field::RtpInfo => b"RTP-Info: ",
        Field::ContentBase => b"Content-Base: ",
        Field::ContentType => b"Content-Type: ",
        Field::ContentLength => b"Content-Length: ",
    }
}

/// Begins a header.
pub fn put_name(room: &mut Room, of: Field)
    requires { 18 ≤ room.old.spare }
    ensures text { room.new.text ≡ room.old.text ++ header_name of }
    ensures room { Takes room.old room.new 18 }
{
    room.put(header_name(of));
}

/// Ends a line, or the headers.
pub fn put_end(room: &mut Room)
    requires { 2 ≤ room.old.spare }
    ensures text { room.new.text ≡ room.old.text ++ 13 ∷ 10 ∷ [] }
    ensures room { Takes room.old room.new 2 }
{
    room.put(b"\r\n");
}

/// Writes a fixed part of a value.
#[tactic(auto, using(crate::proofs::RoomLemmas::word_most))]
pub fn put_word(room: &mut Room, of: Word)
    requires { word_room of ≤ room.old.spare }
    ensures text { room.new.text ≡ room.old.text ++ text_of of }
    ensures room { Takes room.old room.new (word_room of) }
{
    room.put(text_of(of));
}

// A header whose value is a fixed text.
#[tactic(auto, using(crate::proofs::MessageLemmas::line_of))]
fn put_fixed(room: &mut Room, of: Field, value: Word)
    requires { word_room value + 20 ≤ room.old.spare }
    ensures text { room.new.text ≡ room.old.text ++ header_text (record { name = name_of_field of; value = text_of value }) }
    ensures room { Takes room.old room.new (word_room value + 20) }
{
    put_name(room, of);
    put_word(room, value);
    put_end(room);
}

// A header whose value is given.
#[tactic(auto, using(crate::proofs::MessageLemmas::line_of))]
fn put_given(room: &mut Room, of: Field, value: &[u8])
    requires { length value.now + 20 ≤ room.old.spare }
    ensures text { room.new.text ≡ room.old.text ++ header_text (record { name = name_of_field of; value = value.now }) }
    ensures room { Takes room.old room.new (length value.now + 20) }
{
    put_name(room, of);
    room.put(value);
    put_end(room);
}

/// CSeq: the number of the request.
#[tactic(auto, using(crate::proofs::MessageLemmas::line_of))]
pub fn put_cseq(room: &mut Room, cseq: u32)
    requires { 30 ≤ room.old.spare }
    ensures text { room.new.text ≡ room.old.text ++ header_text (cseq_line cseq) }
    ensures room { Takes room.old room.new 30 }
{
    put_name(room, Field::CSeq);
    room.put_decimal(cseq);
    put_end(room);
}

#[tactic(auto, using(crate::proofs::MessageLemmas::line_of))]
fn put_session(room: &mut Room, id: u128)
    requires { 52 ≤ room.old.spare }
    ensures text { room.new.text ≡ room.old.text ++ header_text (session_line id) }
    ensures room { Takes room.old room.new 52 }
{
    put_name(room, Field::Session);
    room.put_id(id);
    put_end(room);
}

// An id, and the seconds that its session lives without a request.
fn put_opened_value(room: &mut Room, id: u128, timeout: u32)
    requires { 51 ≤ room.old.spare }
    ensures text { room.new.text ≡ room.old.text ++ (hex_text 32 id ++ text_of words.Timeout ++ decimal timeout) }
    ensures room { Takes room.old room.new 51 }
{
    room.put_id(id);
    put_word(room, Word::Timeout);
    room.put_decimal(timeout);
}

/// Session, where the request opened it: its id, and its timeout in seconds.
#[tactic(auto, using(crate::proofs::MessageLemmas::line_of))]
pub fn put_opened(room: &mut Room, id: u128, timeout: u32)
    requires { 71 ≤ room.old.spare }
    ensures text { room.new.text ≡ room.old.text ++ header_text (opened_line id timeout) }
    ensures room { Takes room.old room.new 71 }
{
    put_name(room, Field::Session);
    put_opened_value(room, id, timeout);
    put_end(room);
}

// The line that tells all methods and the end of the headers: one text, since each OPTIONS is
// answered with it.
#[tactic(auto, unfolding(crate::specs::Words::name_of_field, crate::specs::Words::text_of))]
fn public_end() -> &'static [u8]
    ensures text { result.now ≡ header_text public_line ++ 13 ∷ 10 ∷ [] }
    ensures short { length result.now ≤ 99 }
{
    b"Public: OPTIONS, DESCRIBE, SETUP, PLAY, PAUSE, TEARDOWN, GET_PARAMETER, SET_PARAMETER\r\n\r\n"
}

/// Public: all methods; and the end of the headers.
pub fn put_public_end(room: &mut Room)
    requires { 99 ≤ room.old.spare }
    ensures text { room.new.text ≡ room.old.text ++ (header_text public_line ++ 13 ∷ 10 ∷ []) }
    ensures room { Takes room.old room.new 99 }
{
    room.put(public_end());
}

/// Allow: the methods that are valid in every state.
pub fn put_allow(room: &mut Room)
    requires { 67 ≤ room.old.spare }
    ensures text { room.new.text ≡ room.old.text ++ header_text allow_line }
    ensures room { Takes room.old room.new 67 }
{
    put_fixed(room, Field::Allow, Word::AlwaysMethods);
}

/// Unsupported: these option tags, with commas between them.
pub fn put_unsupported(room: &mut Room, tags: &[u8])
    requires { length tags.now + 20 ≤ room.old.spare }
    ensures text { room.new.text ≡ room.old.text ++ header_text (unsupported_line tags.now) }
    ensures room { Takes room.old room.new (length tags.now + 20) }
{
    put_given(room, Field::Unsupported, tags);
}

// Over two ports of the server, from this host where it has to be told.
fn put_pair(room: &mut Room, source: Option<u32>, port: u16, stream: &Stream)
    requires { 118 ≤ room.old.spare }
    ensures text { room.new.text ≡ room.old.text ++ transport_text (pair_of source port stream.now) }
    ensures room { Takes room.old room.new 118 }
{
    match source {
        None => room.put_udp(stream.rtp_port, stream.rtcp_port, port, stream.ssrc),
        Some(host) => {
            room.put_udp_from(stream.rtp_port, stream.rtcp_port, host, port, stream.ssrc)
        }
    }
}

// Over one port of the server, from this host where it has to be told.
fn put_port(room: &mut Room, source: Option<u32>, port: u16, stream: &Stream)
    requires { 118 ≤ room.old.spare }
    ensures text { room.new.text ≡ room.old.text ++ transport_text (port_of source port stream.now) }
    ensures room { Takes room.old room.new 118 }
{
    match source {
        None => room.put_mux(stream.rtp_port, port, stream.ssrc),
        Some(host) => room.put_mux_from(stream.rtp_port, host, port, stream.ssrc),
    }
}

#[tactic(auto, unfolding(crate::specs::Lines::granted_text))]
fn put_granted_value(room: &mut Room, source: Option<u32>, address: Thing, stream: &Stream)
    requires { 118 ≤ room.old.spare }
    ensures text { room.new.text ≡ room.old.text ++ granted_text (granted_of source address stream.now) }
    ensures room { Takes room.old room.new 118 }
{
    match address {
        Thing::Pair(port) => put_pair(room, source, port, stream),
        Thing::Port(port) => put_port(room, source, port, stream),
        Thing::Chan(_, channel) => room.put_interleaved(channel, stream.ssrc),
        Thing::Rate(_) => {}
    }
}

/// Transport, as it is granted over an address: ports, on the host of `source` where it has to be
/// told, or channels. A rate is none.
#[tactic(auto, using(crate::proofs::MessageLemmas::line_of))]
pub fn put_transport(room: &mut Room, source: Option<u32>, address: Thing, stream: &Stream)
    requires { 138 ≤ room.old.spare }
    ensures text { room.new.text ≡ room.old.text ++ header_text (transport_line source address stream.now) }
    ensures room { Takes room.old room.new 138 }
{
    put_name(room, Field::Transport);
    put_granted_value(room, source, address, stream);
    put_end(room);
}

/// Accept-Ranges: normal play time, and no other.
pub fn put_accept_ranges(room: &mut Room)
    requires { 23 ≤ room.old.spare }
    ensures text { room.new.text ≡ room.old.text ++ header_text accept_ranges_line }
    ensures room { Takes room.old room.new 23 }
{
    put_fixed(room, Field::AcceptRanges, Word::Npt);
}

fn put_properties_value(room: &mut Room, gap: u32, unit_ms: UnitLength)
    requires { 57 ≤ room.old.spare }
    ensures text { room.new.text ≡ room.old.text ++ (text_of words.RandomAccess ++ time_text gap unit_ms ++ text_of words.Immutable) }
    ensures room { Takes room.old room.new 57 }
{
    put_word(room, Word::RandomAccess);
    room.put_time(gap, unit_ms);
    put_word(room, Word::Immutable);
}

/// Media-Properties: how far apart the units are where a play may begin; the media never change.
#[tactic(auto, using(crate::proofs::MessageLemmas::line_of))]
pub fn put_properties(room: &mut Room, gap: u32, unit_ms: UnitLength)
    requires { 77 ≤ room.old.spare }
    ensures text { room.new.text ≡ room.old.text ++ header_text (properties_line gap unit_ms) }
    ensures room { Takes room.old room.new 77 }
{
    put_name(room, Field::MediaProperties);
    put_properties_value(room, gap, unit_ms);
    put_end(room);
}

/// Media-Range: the whole of the media, in normal play time.
#[tactic(auto, using(crate::proofs::MessageLemmas::line_of))]
pub fn put_media_range(room: &mut Room, timing: Timing)
    requires { 67 ≤ room.old.spare }
    ensures text { room.new.text ≡ room.old.text ++ header_text (media_range_line timing) }
    ensures room { Takes room.old room.new 67 }
{
    put_name(room, Field::MediaRange);
    room.put_range(0, timing.units, timing.unit_ms);
    put_end(room);
}

/// Range, in normal play time, from a unit to the one after the last.
#[tactic(auto, using(crate::proofs::MessageLemmas::line_of))]
pub fn put_range(room: &mut Room, from: u32, stop: u32, unit_ms: UnitLength)
    requires { 67 ≤ room.old.spare }
    ensures text { room.new.text ≡ room.old.text ++ header_text (range_line from stop unit_ms) }
    ensures room { Takes room.old room.new 67 }
{
    put_name(room, Field::Range);
    room.put_range(from, stop, unit_ms);
    put_end(room);
}

/// Seek-Style: RAP, whatever was asked for.
pub fn put_seek_style(room: &mut Room)
    requires { 23 ≤ room.old.spare }
    ensures text { room.new.text ≡ room.old.text ++ header_text seek_line }
    ensures room { Takes room.old room.new 23 }
{
    put_fixed(room, Field::SeekStyle, Word::Rap);
}

/// Content-Base: what the names of the tracks are joined to.
#[tactic(auto, using(crate::proofs::MessageLemmas::line_of))]
pub fn put_base(room: &mut Room, base: &[u8])
    requires { length base.now + 20 ≤ room.old.spare }
    ensures text { room.new.text ≡ room.old.text ++ header_text (base_line base.now) }
    ensures room { Takes room.old room.new (length base.now + 20) }
{
    put_name(room, Field::ContentBase);
    room.put(base);
    put_end(room);
}

/// Content-Type, of a body that the server writes.
pub fn put_type(room: &mut Room, media: Word)
    requires { word_room media + 20 ≤ room.old.spare }
    ensures text { room.new.text ≡ room.old.text ++ header_text (type_line media) }
    ensures room { Takes room.old room.new (word_room media + 20) }
{
    put_fixed(room, Field::ContentType, media);
}

/// Content-Length, in bytes.
#[tactic(auto, using(crate::proofs::MessageLemmas::line_of))]
pub fn put_length(room: &mut Room, body: &[u8])
    requires { 40 ≤ room.old.spare }
    ensures text { room.new.text ≡ room.old.text ++ header_text (length_line body.now) }
    ensures room { Takes room.old room.new 40 }
{
    put_name(room, Field::ContentLength);
    room.put_size(body.len());
    put_end(room);
}

#[tactic(auto, using(crate::proofs::MessageLemmas::headers_one, crate::proofs::MessageLemmas::headers_nothing))]
fn put_shown_session(room: &mut Room, session: Option<u128>)
    requires { 52 ≤ room.old.spare }
    ensures text { room.new.text ≡ room.old.text ++ headers_text (session_lines session) }
    ensures room { Takes room.old room.new 52 }
{
    match session {
        Some(id) => put_session(room, id),
        None => {}
    }
}

/// The number of the request, and the session.
#[tactic(auto, using(crate::proofs::MessageLemmas::headers_first))]
pub fn put_response_start(room: &mut Room, start: ResponseStart)
    requires { 82 ≤ room.old.spare }
    ensures text { room.new.text ≡ room.old.text ++ headers_text (start_lines start) }
    ensures room { Takes room.old room.new 82 }
{
    put_cseq(room, start.cseq);
    put_shown_session(room, start.session);
}

// The first line of a response to what is done, and the name of its next header: one text, since
// nearly all begin so.
#[tactic(auto, unfolding(crate::specs::FixedText::status_line, crate::specs::FixedText::header_name, crate::specs::Words::name_of_field))]
fn done_start() -> &'static [u8]
    ensures text { result.now ≡ status_line statuses.Success ++ header_name fields.CSeq }
    ensures short { length result.now ≤ 25 }
{
    b"RTSP/2.0 200 OK\r\nCSeq: "
}

/// The first line of a response to what is done, the number of the request, and the session.
pub fn put_done_start(room: &mut Room, start: ResponseStart)
    requires { 142 ≤ room.old.spare }
    ensures text { room.new.text ≡ room.old.text ++ (status_line statuses.Success ++ headers_text (start_lines start)) }
    ensures room { Takes room.old room.new 142 }
{
    room.put(done_start());
    room.put_decimal(start.cseq);
    put_end(room);
    put_shown_session(room, start.session);
}
