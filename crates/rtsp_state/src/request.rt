//! A request as it is read once: its number, its method, what it is about, and the session that it
//! names.

ghost use Rattle.std.specs.Prelude.{◌≡◌};

use crate::media_base::MediaBase;
use crate::method::Method;
use crate::reply::Reply;
use rtsp_grammar::Headers;
use std::marker::Model;

/// What the URI of a request names. Media comes with its URI.
#[derive(Drop)]
pub enum Target<'a> {
    /// OPTIONS is about the server, whatever its URI.
    Server,
    /// `*`, which GET_PARAMETER and SET_PARAMETER take.
    Star,
    /// A presentation, by its place in the table.
    Presentation(MediaBase<'a>, u16),
    /// A track, by the places of its presentation and of itself.
    Track(MediaBase<'a>, u16, u16),
}

/// How a request names a session: by its id, or by a startup number of the connection (RFC 7826
/// section 18.33).
#[derive(Clone, Copy, PartialEq, Eq)]
pub enum Name {
    Id(u128),
    Startup(u32),
}

/// What `screen` has read of a request that nothing refuses before its session is looked up.
#[derive(Drop)]
pub struct ParsedRequest<'a> {
    pub(crate) cseq: u32,
    pub(crate) method: Method,
    pub(crate) target: Target<'a>,
    pub(crate) name: Option<Name>,
    pub(crate) headers: &'a Headers,
    pub(crate) body: &'a [u8],
}

impl<'a> Model for ParsedRequest<'a> {
    ghost use Rattle.rtsp_state.specs.ParsedRequest.{ParsedValue};

    ghost Value = { ParsedValue };

    ghost view = { λ r. record { cseq = r.cseq; method = r.method; target = r.target; name = r.name; headers = r.headers.now; body = r.body.now } };
}

impl<'a> ParsedRequest<'a> {
    /// The session that the request names, if any.
    pub fn session_name(&self) -> Option<Name>
        ensures { result ≡ self.now.name }
    {
        self.name
    }
}

/// What a request comes to before a session is looked up.
#[derive(Drop)]
pub enum Screen<'a> {
    /// It is answered.
    Answered(Reply),
    /// It is to be decided, with the session that it names.
    Asks(ParsedRequest<'a>),
}
