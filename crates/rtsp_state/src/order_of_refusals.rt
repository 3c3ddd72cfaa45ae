//! The order of refusals, as far as it needs no session: what a request asks, or why it is refused.
//! In order: CSeq, version, method, Require, URI, and the form of the session's name.

ghost use Rattle.std.specs.Prelude.{◌≡◌, option_map, Some, None};
ghost use Rattle.rtsp_text.specs.Slices.{texts};
ghost use Rattle.rtsp_content.specs.Paths.{find_of};
ghost use Rattle.rtsp_state.specs.Values.{uri_of, with_slash};
ghost use Rattle.rtsp_state.specs.Fault.{Gives};
ghost use Rattle.rtsp_state.specs.OrderOfRefusals.{unless_unknown, cseq_of, version_rule, require_of_value, require_rule, target_at, media_of, target_of, session_named, startup_named, name_of_values, name_of, asked_of};
ghost use Rattle.rtsp_state.specs.Method.{takes_star};

use crate::fault::{Fault, must};
use crate::media_base::MediaBase;
use crate::method::{Method, needs_session};
use crate::plain_uri::plain_path;
use crate::request::{Name, Target};
use crate::status::Status;
use crate::uri::read_uri;
use crate::values::{
    cseq_number, id_of, joined_in, put_joined, session_name, single_value, startup_number, tags_in,
    unknown_tags,
};
use rtsp_content::{Found, Table};
use rtsp_grammar::{Headers, Request, Text, Version};
use std::alloc::Global;

/// What a request asks, whatever its number.
#[derive(Drop)]
pub struct Asked<'a> {
    pub method: Method,
    pub target: Target<'a>,
    pub name: Option<Name>,
}

/// The first place: the number of the request.
#[inline(always)]
pub fn cseq_of(headers: &Headers) -> Result<u32, Fault>
    ensures { result ≡ cseq_of headers.now }
{
    let Some(value) = single_value(headers, b"CSeq")? else {
        return Err(Fault::Refused(Status::BadRequest));
    };
    let Some(cseq) = cseq_number(value) else {
        return Err(Fault::Refused(Status::BadRequest));
    };
    Ok(cseq)
}

fn version_rule(version: &Version) -> Result<(), Fault>
    ensures { result ≡ version_rule version.now }
{
    match version {
        Version::Rtsp2 => Ok(()),
        Version::Other(_) => Err(Fault::Refused(Status::VersionNotSupported)),
    }
}

// Refuses these unknown option tags, where there are some.
fn unless_unknown(alloc: Global, tags: &[&[u8]]) -> Result<(), Fault>
    ensures { Gives result (unless_unknown (texts tags.now)) }
{
    if tags.is_empty() {
        return Ok(());
    }
    let mut text = Vec::new(alloc);
    put_joined(&mut text, tags)?;
    Err(Fault::Unsupported(Text::from_vec(text)))
}

fn require_of_value(alloc: Global, value: &[u8]) -> Result<(), Fault>
    ensures { Gives result (require_of_value (Some value.now)) }
{
    let tags = tags_in(alloc, value)?;
    let unknown = unknown_tags(alloc, &tags)?;
    unless_unknown(alloc, &unknown)
}

fn require_rule(alloc: Global, headers: &Headers) -> Result<(), Fault>
    ensures { Gives result (require_rule headers.now) }
{
    match joined_in(alloc, headers, b"Require")? {
        None => Ok(()),
        Some(value) => require_of_value(alloc, value.as_slice()),
    }
}

fn takes_star(method: Method) -> bool
    ensures { result ≡ takes_star method }
{
    matches!(method, Method::GetParameter | Method::SetParameter)
}

// What the path of a plain URI names. Inlined, as what else reads a URI, so that a target is made where it is
// wanted, though there are two who ask.
#[inline(always)]
fn plain_media<'a>(table: &Table, text: &'a [u8], path: &[u8]) -> Result<Target<'a>, Fault>
    ensures { Gives result (target_at (with_slash text.now) (find_of table.now path.now)) }
{
    match table.find(path) {
        Found::Nothing => Err(Fault::Refused(Status::NotFound)),
        Found::Presentation(presentation) => {
            Ok(Target::Presentation(MediaBase::plain(text), presentation))
        }
        Found::Track(presentation, track) => {
            Ok(Target::Track(MediaBase::plain(text), presentation, track))
        }
    }
}

// What the path of any other URI names.
#[inline(always)]
fn parsed_media<'a>(alloc: Global, table: &Table, text: &[u8]) -> Result<Target<'a>, Fault>
    ensures { Gives result (media_of table.now (uri_of text.now)) }
{
    let Some(url) = read_uri(alloc, text)? else {
        return Err(Fault::Refused(Status::BadRequest));
    };
    match table.find(url.path().as_bytes()) {
        Found::Nothing => Err(Fault::Refused(Status::NotFound)),
        Found::Presentation(presentation) => {
            Ok(Target::Presentation(MediaBase::new(url), presentation))
        }
        Found::Track(presentation, track) => {
            Ok(Target::Track(MediaBase::new(url), presentation, track))
        }
    }
}

#[inline(always)]
fn media_of<'a>(alloc: Global, table: &Table, text: &'a [u8]) -> Result<Target<'a>, Fault>
    ensures { Gives result (media_of table.now (uri_of text.now)) }
{
    match plain_path(text) {
        Some(path) => plain_media(table, text, path),
        None => parsed_media(alloc, table, text),
    }
}

/// The fifth place: what the URI names.
#[inline(always)]
pub fn target_of<'a>(
    alloc: Global,
    table: &Table,
    method: Method,
    text: &'a [u8],
) -> Result<Target<'a>, Fault>
    ensures { Gives result (target_of table.now method text.now) }
{
    if matches!(method, Method::Options) {
        return Ok(Target::Server);
    }
    if matches!(text, b"*") {
        if !takes_star(method) {
            return Err(Fault::Refused(Status::BadRequest));
        }
        return Ok(Target::Star);
    }
    media_of(alloc, table, text)
}

fn session_named(value: &[u8]) -> Result<Option<Name>, Fault>
    ensures { result ≡ session_named value.now }
{
    let Some(name) = session_name(value) else {
        return Err(Fault::Refused(Status::BadRequest));
    };
    match id_of(name) {
        Some(id) => Ok(Some(Name::Id(id))),
        None => Err(Fault::Refused(Status::SessionNotFound)),
    }
}

fn startup_named(method: Method, value: Option<&[u8]>) -> Result<Option<Name>, Fault>
    ensures { result ≡ startup_named method (option_map (λ v. v.now) value.entry) }
{
    let Some(value) = value else {
        must(!needs_session(method), Status::SessionNotFound)?;
        return Ok(None);
    };
    let Some(number) = startup_number(value) else {
        return Err(Fault::Refused(Status::BadRequest));
    };
    Ok(Some(Name::Startup(number)))
}

fn name_by_startup(method: Method, headers: &Headers) -> Result<Option<Name>, Fault>
    ensures { result ≡ name_of_values method headers.now None }
{
    let value = single_value(headers, b"Pipelined-Requests")?;
    startup_named(method, value)
}

fn name_of(method: Method, headers: &Headers) -> Result<Option<Name>, Fault>
    ensures { result ≡ name_of method headers.now }
{
    match single_value(headers, b"Session")? {
        Some(value) => session_named(value),
        None => name_by_startup(method, headers),
    }
}

/// The second place to the sixth: from the version to the form of the session's name.
#[tactic(auto, unfolding(crate::specs::OrderOfRefusals::asked_of))]
pub fn asked_of<'a>(alloc: Global, table: &Table, request: &'a Request) -> Result<Asked<'a>, Fault>
    ensures { Gives result (asked_of table.now request.now) }
{
    version_rule(&request.version)?;
    let Some(method) = Method::of(&request.method) else {
        return Err(Fault::Refused(Status::NotImplemented));
    };
    require_rule(alloc, &request.headers)?;
    let target = target_of(alloc, table, method, request.uri.as_bytes())?;
    let name = name_of(method, &request.headers)?;
    Ok(Asked {
        method,
        target,
        name,
    })
}
