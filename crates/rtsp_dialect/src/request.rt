//! A request in the terms of RFC 7826.

ghost use Rattle.std.specs.Prelude.{◌≡◌, ◌++◌, ◌∷◌, [], true, false, is_some, map, unwrap_or, IfOk, OnOk, OnErr};
ghost use Rattle.std.specs.List.{list_any};
ghost use Rattle.rtsp_grammar.specs.HeaderView.{shown};
ghost use Rattle.rtsp_dialect.specs.Startup.{repaired_startup};
ghost use Rattle.rtsp_dialect.specs.ClientPortText.{repaired_transport};
ghost use Rattle.rtsp_dialect.specs.Repair.{needs_repair, repaired_header, repaired};

use crate::startup::{MODULUS, long_startup};
use crate::transport::{has_old, repaired_transport};
use itoa::Buffer;
use rtsp_grammar::{Header, Headers, HeadersBuilder, Method, Request, Text, Version};
use std::alloc::{AllocError, Global};

// Whether a header's name is as long as `Pipelined-Requests` or `Transport`: few are, and the test
// costs little.
#[tactic(auto, using(crate::proofs::NameLengths::other_length))]
fn is_as_long(header: &Header<'_>) -> bool
    ensures { result ≡ false → needs_repair (shown header.now) ≡ false }
{
    let length = header.name.len();
    length == 18 || length == 9
}

// Whether a header has a number of Pipelined-Requests that is too long, or a specification of RTSP 1.0.
#[tactic(auto, unfolding(crate::specs::Repair::needs_repair))]
fn needs_repair(header: &Header<'_>) -> bool
    ensures { result ≡ needs_repair (shown header.now) }
{
    if header.is_named(b"Pipelined-Requests") {
        return long_startup(header.value).is_some();
    }
    header.is_named(b"Transport") && has_old(header.value)
}

// Whether one of the headers is to be repaired.
fn any_needs_repair(headers: &Headers) -> bool
    ensures { result ≡ list_any needs_repair headers.now }
{
    for index in 0..headers.len() {
        let header = headers.get(index);
        if is_as_long(&header) && needs_repair(&header) {
            return true;
        }
    }
    false
}

// Adds a header of Pipelined-Requests with a number within the grammar, where it has one.
fn push_startup(built: &mut HeadersBuilder, name: &[u8], value: &[u8]) -> Result<(), AllocError>
    ensures { OnOk result (built.new.headers ≡ built.old.headers ++ (record { name = name.now; value = repaired_startup value.now }) ∷ []) }
{
    match long_startup(value) {
        Some(number) => {
            let mut buffer = Buffer::new();
            built.push(name, buffer.format(number % MODULUS).as_bytes())
        }
        None => built.push(name, value),
    }
}

// Adds a Transport header in the terms of RTSP 2.0.
#[tactic(auto, unfolding(crate::specs::ClientPortText::repaired_transport))]
fn push_transport(
    alloc: Global,
    built: &mut HeadersBuilder,
    name: &[u8],
    value: &[u8],
) -> Result<(), AllocError>
    ensures { OnOk result (built.new.headers ≡ built.old.headers ++ (record { name = name.now; value = repaired_transport value.now }) ∷ []) }
{
    if !has_old(value) {
        return built.push(name, value);
    }
    let repaired = repaired_transport(alloc, value)?;
    built.push(name, &repaired)
}

// Adds a header in the terms of RFC 7826.
#[tactic(auto, unfolding(crate::specs::Repair::repaired_value))]
fn push_repaired(
    alloc: Global,
    built: &mut HeadersBuilder,
    header: &Header<'_>,
) -> Result<(), AllocError>
    ensures { OnOk result (built.new.headers ≡ built.old.headers ++ repaired_header (shown header.now) ∷ []) }
{
    if header.is_named(b"Pipelined-Requests") {
        push_startup(built, header.name, header.value)
    } else if header.is_named(b"Transport") {
        push_transport(alloc, built, header.name, header.value)
    } else {
        built.push(header.name, header.value)
    }
}

fn repaired_headers(alloc: Global, headers: &Headers) -> Result<Headers, AllocError>
    ensures { IfOk result (λ h. h ≡ map repaired_header headers.now) }
{
    let mut built = HeadersBuilder::new(alloc);
    for index in 0..headers.len() {
        push_repaired(alloc, &mut built, &headers.get(index))?;
    }
    Ok(built.into_headers())
}

fn copy_of(alloc: Global, text: &Text) -> Result<Text, AllocError>
    ensures { IfOk result (λ copy. copy ≡ text.now) }
{
    Text::from_slice(alloc, text.as_bytes())
}

fn copy_of_method(alloc: Global, method: &Method) -> Result<Method, AllocError>
    ensures { IfOk result (λ copy. copy ≡ method.now) }
{
    Ok(match method {
        Method::Describe => Method::Describe,
        Method::GetParameter => Method::GetParameter,
        Method::Options => Method::Options,
        Method::Pause => Method::Pause,
        Method::Play => Method::Play,
        Method::PlayNotify => Method::PlayNotify,
        Method::Redirect => Method::Redirect,
        Method::Setup => Method::Setup,
        Method::SetParameter => Method::SetParameter,
        Method::Teardown => Method::Teardown,
        Method::Other(name) => Method::Other(copy_of(alloc, name)?),
    })
}

fn copy_of_version(alloc: Global, version: &Version) -> Result<Version, AllocError>
    ensures { IfOk result (λ copy. copy ≡ version.now) }
{
    Ok(match version {
        Version::Rtsp2 => Version::Rtsp2,
        Version::Other(text) => Version::Other(copy_of(alloc, text)?),
    })
}

fn repaired(alloc: Global, request: &Request) -> Result<Request, AllocError>
    ensures { IfOk result (λ r. r ≡ repaired request.now) }
{
    Ok(Request {
        method: copy_of_method(alloc, &request.method)?,
        uri: copy_of(alloc, &request.uri)?,
        version: copy_of_version(alloc, &request.version)?,
        headers: repaired_headers(alloc, &request.headers)?,
        body: copy_of(alloc, &request.body)?,
    })
}

/// The request in the terms of RFC 7826, where it has a number of Pipelined-Requests of nine or ten
/// digits, or a specification over UDP with `client_port` in place of `dest_addr`. None where it has
/// neither, which takes no memory.
pub fn repair(alloc: Global, request: &Request) -> Result<Option<Request>, AllocError>
    ensures repaired { IfOk result (λ found. unwrap_or found request.now ≡ repaired request.now) }
    ensures found { IfOk result (λ found. is_some found ≡ list_any needs_repair request.now.headers) }
    ensures memory { OnErr result (list_any needs_repair request.now.headers ≡ true) }
{
    if !any_needs_repair(&request.headers) {
        return Ok(None);
    }
    Ok(Some(repaired(alloc, request)?))
}
