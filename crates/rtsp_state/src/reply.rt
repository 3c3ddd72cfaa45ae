//! A response that is known before any step, made without memory and written into room.

ghost use Rattle.std.specs.Prelude.{◌≡◌, ◌≤◌, ◌+◌, ◌-◌, ◌^◌, ◌++◌, ◌∷◌, [], length, min, OnOk};
ghost use Rattle.rtsp_grammar.specs.Writing.{headers_text, response_text};
ghost use Rattle.rtsp_state.specs.Room.{Takes};
ghost use Rattle.rtsp_state.specs.Bounds.{reply_room};
ghost use Rattle.rtsp_state.specs.FixedText.{word_room};
ghost use Rattle.rtsp_state.specs.Reply.{options_reply, plain_reply, described, parameters_reply, fault_size, open_size, reply_of};
ghost use Rattle.rtsp_state.specs.Lines.{type_line, length_line};
ghost use Rattle.rtsp_state.specs.Response.{response, refused, refusal_response};
ghost use Rattle.rtsp_state.specs.declared.response_start.ResponseStart.{ResponseStart};
ghost use Rattle.rtsp_state.specs.declared.status.Status.TheVariants as statuses;

use crate::fault::Fault;
use crate::headers::{
    put_base, put_done_start, put_end, put_length, put_public_end, put_response_start, put_type,
};
use crate::refusals::{refusal_of, write_plain, write_refused, write_unsupported};
use crate::response_start::ResponseStart;
use crate::room::Room;
use crate::status::{Status, code};
use crate::status_line::put_status_line;
use crate::words::Word;
use rtsp_book::Refusal;
use rtsp_grammar::Text;
use std::alloc::AllocError;
use std::marker::Model;

#[derive(Drop)]
enum Kind {
    // 400 to a request whose CSeq can't be read.
    Unnumbered,
    Refused(ResponseStart, Fault),
    Options(ResponseStart),
    Plain(ResponseStart),
    // A base and an SDP text.
    Described(ResponseStart, Text, Text),
    // Lines of parameters.
    Parameters(ResponseStart, Text),
}

/// A response that is known before any step. A contract sees it as the response that it means.
pub struct Reply {
    kind: Kind,
}

// Written out, so that whoever drops a `Reply` makes one call.
impl Drop for Reply {
    #[inline(always)]
    fn drop(self) {
        let Self { kind: _kind } = self;
    }
}

impl Model for Reply {
    ghost use Rattle.rtsp_grammar.specs.declared.message.Response.{Response};
    ghost use Rattle.rtsp_state.specs.Reply.{reply_of};

    ghost Value = { Response };

    ghost view = { λ r. reply_of r.kind };
}

impl Reply {
    /// 400 without CSeq, to a request whose CSeq is missing, there twice or malformed.
    pub fn unnumbered() -> Reply
        ensures { result ≡ response statuses.BadRequest [] [] }
    {
        Reply {
            kind: Kind::Unnumbered,
        }
    }

    /// The response to a request that isn't done.
    pub fn refused(start: ResponseStart, fault: Fault) -> Reply
        ensures { result ≡ refused start fault }
    {
        Reply {
            kind: Kind::Refused(start, fault),
        }
    }

    /// The response to a step that the book refused. A session that is gone isn't shown.
    pub fn refused_step(start: ResponseStart, refusal: Refusal) -> Reply
        ensures { result ≡ refusal_response start refusal }
    {
        let (start, status) = refusal_of(start, refusal);
        Reply::refused(start, Fault::Refused(status))
    }

    /// 200 to an OPTIONS (RFC 7826 section 13.1).
    pub fn options(start: ResponseStart) -> Reply
        ensures { result ≡ options_reply start }
    {
        Reply {
            kind: Kind::Options(start),
        }
    }

    /// 200 with its first headers alone.
    pub fn plain(start: ResponseStart) -> Reply
        ensures { result ≡ plain_reply start }
    {
        Reply {
            kind: Kind::Plain(start),
        }
    }

    /// 200 to a DESCRIBE (RFC 7826 section 13.2): a base for the URIs of tracks, and an SDP text.
    pub fn described(start: ResponseStart, base: Text, sdp: Text) -> Reply
        ensures { result ≡ described start base sdp }
    {
        Reply {
            kind: Kind::Described(start, base, sdp),
        }
    }

    /// 200 to a GET_PARAMETER (RFC 7826 section 13.8) that asked for parameters.
    pub fn parameters(start: ResponseStart, body: Text) -> Reply
        ensures { result ≡ parameters_reply start body }
    {
        Reply {
            kind: Kind::Parameters(start, body),
        }
    }

    /// The status of the response.
    pub fn status(&self) -> u16
        ensures { result ≡ self.now.status }
    {
        match &self.kind {
            Kind::Unnumbered => code(Status::BadRequest),
            Kind::Refused(_, fault) => status_of_fault(fault),
            _ => code(Status::Success),
        }
    }

    /// Makes room for the response.
    pub fn make_room(&self, room: &mut Room) -> Result<(), AllocError>
        ensures text { room.new.text ≡ room.old.text }
        ensures ok { OnOk result (reply_room self.now ≤ room.new.spare) }
    {
        room.reserve(open_size(&self.kind).saturating_add(300))
    }

    /// Writes the response. It takes no memory and can't fail.
    #[inline(always)]
    pub fn answer(&self, room: &mut Room)
        requires { reply_room self.now ≤ room.old.spare }
        ensures text { room.new.text ≡ room.old.text ++ response_text self.now }
        ensures room { Takes room.old room.new (reply_room self.now) }
    {
        write_kind(room, &self.kind);
    }
}

fn open_size(kind: &Kind) -> usize
    ensures { result ≡ min (open_size kind.now) (2 ^ 64 - 1) }
{
    match kind {
        Kind::Refused(_, Fault::Unsupported(tags)) => tags.as_bytes().len(),
        Kind::Described(_, base, sdp) => base.as_bytes().len().saturating_add(sdp.as_bytes().len()),
        Kind::Parameters(_, body) => body.as_bytes().len(),
        _ => 0,
    }
}

fn status_of_fault(fault: &Fault) -> u16
    ensures { (start : ResponseStart) → result ≡ (refused start fault.now).status }
{
    match fault {
        Fault::Refused(status) => code(*status),
        Fault::Unsupported(_) => code(Status::OptionNotSupported),
        Fault::OutOfMemory => code(Status::ServerError),
    }
}

fn write_kind(room: &mut Room, kind: &Kind)
    requires { open_size kind.now + 300 ≤ room.old.spare }
    ensures text { room.new.text ≡ room.old.text ++ response_text (reply_of kind.now) }
    ensures room { Takes room.old room.new (open_size kind.now + 300) }
{
    match kind {
        Kind::Unnumbered => write_unnumbered(room),
        Kind::Refused(start, fault) => write_fault(room, *start, fault),
        Kind::Options(start) => write_options(room, *start),
        Kind::Plain(start) => write_plain(room, *start, Status::Success),
        Kind::Described(start, base, sdp) => {
            write_described(room, *start, base.as_bytes(), sdp.as_bytes())
        }
        Kind::Parameters(start, body) => write_parameters(room, *start, body.as_bytes()),
    }
}

fn write_unnumbered(room: &mut Room)
    requires { 62 ≤ room.old.spare }
    ensures text { room.new.text ≡ room.old.text ++ response_text (response statuses.BadRequest [] []) }
    ensures room { Takes room.old room.new 62 }
{
    put_status_line(room, Status::BadRequest);
    put_end(room);
}

fn write_fault(room: &mut Room, start: ResponseStart, fault: &Fault)
    requires { fault_size fault.now + 300 ≤ room.old.spare }
    ensures text { room.new.text ≡ room.old.text ++ response_text (refused start fault.now) }
    ensures room { Takes room.old room.new (fault_size fault.now + 300) }
{
    match fault {
        Fault::Refused(status) => write_refused(room, start, *status),
        Fault::Unsupported(tags) => write_unsupported(room, start, tags.as_bytes()),
        Fault::OutOfMemory => write_plain(room, start, Status::ServerError),
    }
}

fn write_options(room: &mut Room, start: ResponseStart)
    requires { 241 ≤ room.old.spare }
    ensures text { room.new.text ≡ room.old.text ++ response_text (options_reply start) }
    ensures room { Takes room.old room.new 241 }
{
    put_done_start(room, start);
    put_public_end(room);
}

// The headers of a body.
fn put_body_headers(room: &mut Room, media: Word, body: &[u8])
    requires { word_room media + 60 ≤ room.old.spare }
    ensures text { room.new.text ≡ room.old.text ++ headers_text (type_line media ∷ length_line body.now ∷ []) }
    ensures room { Takes room.old room.new (word_room media + 60) }
{
    put_type(room, media);
    put_length(room, body);
}

fn write_described(room: &mut Room, start: ResponseStart, base: &[u8], sdp: &[u8])
    requires { length base.now + length sdp.now + 239 ≤ room.old.spare }
    ensures text { room.new.text ≡ room.old.text ++ response_text (described start base.now sdp.now) }
    ensures room { Takes room.old room.new (length base.now + length sdp.now + 239) }
{
    put_status_line(room, Status::Success);
    put_response_start(room, start);
    put_base(room, base);
    put_body_headers(room, Word::Sdp, sdp);
    put_end(room);
    room.put(sdp);
}

fn write_parameters(room: &mut Room, start: ResponseStart, body: &[u8])
    requires { length body.now + 219 ≤ room.old.spare }
    ensures text { room.new.text ≡ room.old.text ++ response_text (parameters_reply start body.now) }
    ensures room { Takes room.old room.new (length body.now + 219) }
{
    put_done_start(room, start);
    put_body_headers(room, Word::Parameters, body);
    put_end(room);
    room.put(body);
}
