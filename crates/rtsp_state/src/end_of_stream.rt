//! PLAY_NOTIFY at the end of a stream (RFC 7826 section 13.5.1).

ghost use Rattle.std.specs.Prelude.{◌≡◌, ◌≤◌, length, ◌∷◌, [], ◌++◌, OnOk, IfOk};
ghost use Rattle.rtsp_state.specs.Lines.{cseq_line, session_line};
ghost use Rattle.rtsp_state.specs.Info.{info_line};
ghost use Rattle.rtsp_state.specs.Notify.{IsEnded, reason_line, success_text, request_status_text, request_status_line, stop_line, end_lines, notify};

use crate::context::streams_of;
use crate::media_uri::MediaUri;
use crate::play::rtp_info;
use crate::room::Room;
use crate::rtp_info::{RtpInfo, info_size, put_info_value};
use crate::words::{Field, name_of_field};
use rtsp_book::SessionView;
use rtsp_content::Presentation;
use rtsp_grammar::{Headers, HeadersBuilder, Method, Request, Text, Version};
use rtsp_npt::UnitLength;
use rtsp_record::Phase;
use std::alloc::{AllocError, Global};

// A play that has reached its stop, as its PLAY_NOTIFY reports it.
#[derive(Drop)]
struct EndedPlay {
    cseq: u32,
    session: u128,
    // The CSeq of the PLAY.
    play_cseq: u32,
    // The unit that it stopped before.
    stop: u32,
    unit_ms: UnitLength,
    // How many units were sent, in earlier plays too.
    sent: u32,
    info: RtpInfo,
}

fn push_cseq(headers: &mut HeadersBuilder, value: &mut Room, cseq: u32) -> Result<(), AllocError>
    ensures { OnOk result (headers.new.headers ≡ headers.old.headers ++ cseq_line cseq ∷ []) }
{
    value.clear();
    value.reserve(10)?;
    value.put_decimal(cseq);
    headers.push(name_of_field(Field::CSeq), value.as_bytes())
}

fn push_session(headers: &mut HeadersBuilder, value: &mut Room, id: u128) -> Result<(), AllocError>
    ensures { OnOk result (headers.new.headers ≡ headers.old.headers ++ session_line id ∷ []) }
{
    value.clear();
    value.reserve(32)?;
    value.put_id(id);
    headers.push(name_of_field(Field::Session), value.as_bytes())
}

fn push_reason(headers: &mut HeadersBuilder) -> Result<(), AllocError>
    ensures { OnOk result (headers.new.headers ≡ headers.old.headers ++ reason_line ∷ []) }
{
    headers.push(b"Notify-Reason", b"end-of-stream")
}

#[tactic(auto, unfolding(crate::specs::Notify::success_text))]
fn success_text() -> &'static [u8]
    ensures text { result.now ≡ success_text }
    ensures short { length result.now ≤ 23 }
{
    b" status=200 reason=\"OK\""
}

fn put_request_status(room: &mut Room, cseq: u32)
    requires { 38 ≤ room.old.spare }
    ensures { room.new.text ≡ room.old.text ++ request_status_text cseq }
{
    room.put(b"cseq=");
    room.put_decimal(cseq);
    room.put(success_text());
}

fn push_request_status(
    headers: &mut HeadersBuilder,
    value: &mut Room,
    cseq: u32,
) -> Result<(), AllocError>
    ensures { OnOk result (headers.new.headers ≡ headers.old.headers ++ request_status_line cseq ∷ []) }
{
    value.clear();
    value.reserve(38)?;
    put_request_status(value, cseq);
    headers.push(b"Request-Status", value.as_bytes())
}

fn push_stop(
    headers: &mut HeadersBuilder,
    value: &mut Room,
    stop: u32,
    unit_ms: UnitLength,
) -> Result<(), AllocError>
    ensures { OnOk result (headers.new.headers ≡ headers.old.headers ++ stop_line stop unit_ms ∷ []) }
{
    value.clear();
    value.reserve(26)?;
    value.put_stop(stop, unit_ms);
    headers.push(name_of_field(Field::Range), value.as_bytes())
}

fn push_info(
    headers: &mut HeadersBuilder,
    value: &mut Room,
    info: &RtpInfo,
    sent: u32,
) -> Result<(), AllocError>
    ensures { OnOk result (headers.new.headers ≡ headers.old.headers ++ info_line info.now sent ∷ []) }
{
    value.clear();
    value.reserve(info_size(info.as_slice()))?;
    put_info_value(value, info.as_slice(), sent);
    headers.push(name_of_field(Field::RtpInfo), value.as_bytes())
}

fn headers_of(alloc: Global, play: &EndedPlay) -> Result<Headers, AllocError>
    ensures { IfOk result (λ headers. headers ≡ end_lines play.now) }
{
    let mut headers = HeadersBuilder::new(alloc);
    let mut value = Room::new(alloc);
    push_cseq(&mut headers, &mut value, play.cseq)?;
    push_session(&mut headers, &mut value, play.session)?;
    push_reason(&mut headers)?;
    push_request_status(&mut headers, &mut value, play.play_cseq)?;
    push_stop(&mut headers, &mut value, play.stop, play.unit_ms)?;
    push_info(&mut headers, &mut value, &play.info, play.sent)?;
    Ok(headers.into_headers())
}

/// The request that reports the end of a session's play to its client. The presentation is that of
/// the session's streams, `uri` is the URI of the PLAY and `play_cseq` its CSeq; `cseq` is the
/// server's own on the connection.
pub fn notify(
    alloc: Global,
    uri: &MediaUri,
    view: &SessionView,
    presentation: &Presentation,
    cseq: u32,
    play_cseq: u32,
) -> Result<Request, AllocError>
    requires { IsEnded view.now.1.phase }
    ensures { IfOk result (λ request. request ≡ notify uri.now view.now presentation.now cseq play_cseq) }
{
    let Phase::Ended { at, sent } = view.phase() else {
        unreachable!()
    };
    let streams = streams_of(alloc, view)?;
    let Ok(info) = rtp_info(alloc, &uri.base, &streams, presentation.tracks()) else {
        return Err(AllocError);
    };
    let play = EndedPlay {
        cseq,
        session: view.id(),
        play_cseq,
        stop: at,
        unit_ms: presentation.unit_ms(),
        sent,
        info,
    };
    Ok(Request {
        method: Method::PlayNotify,
        uri: Text::from_slice(alloc, uri.text.as_bytes())?,
        version: Version::Rtsp2,
        headers: headers_of(alloc, &play)?,
        body: Text::fixed(b""),
    })
}
