//! The first line of a message.

ghost use Rattle.std.specs.Prelude.{◌≡◌, IfOk};
ghost use Rattle.rtsp_grammar.specs.declared.fault.MessageFault.TheVariants.{OutOfMemory};
ghost use Rattle.rtsp_text.specs.Results.{Gives};
ghost use Rattle.rtsp_grammar.specs.Reading.{start_of, request_line_of, status_line_of, status_of};

use crate::fault::MessageFault;
use crate::method::Method;
use crate::version::{Version, is_version};
use crate::words::{is_method, is_uri, split_token, split_uri};
use rtsp_text::{Text, split_once};
use std::alloc::{AllocError, Global};

const URI_LIMIT: usize = 1024;

/// What a first line says.
#[derive(Drop)]
pub enum StartLine {
    Request {
        method: Method,
        uri: Text,
        version: Version,
    },
    Status {
        version: Version,
        status: u16,
        reason: Text,
    },
}

// A request URI; `*` takes no memory.
fn uri_text(alloc: Global, uri: &[u8]) -> Result<Text, AllocError>
    ensures { IfOk result (λ text. text ≡ uri.now) }
{
    if matches!(uri, b"*") {
        return Ok(Text::fixed(b"*"));
    }
    Text::from_slice(alloc, uri)
}

#[tactic(auto, unfolding(crate::specs::Reading::request_line_of))]
fn request_line_of(alloc: Global, line: &[u8]) -> Result<StartLine, MessageFault>
    ensures { Gives OutOfMemory result (request_line_of line.now) }
{
    let Some((method, rest)) = split_token(line) else {
        return Err(MessageFault::BadLine);
    };
    let Some((uri, version)) = split_uri(rest) else {
        return Err(MessageFault::BadLine);
    };
    if !(is_method(method) && is_uri(uri) && is_version(version)) {
        return Err(MessageFault::BadLine);
    }
    if uri.len() > URI_LIMIT {
        return Err(MessageFault::UriTooLong);
    }
    Ok(StartLine::Request {
        method: Method::from_slice(alloc, method)?,
        uri: uri_text(alloc, uri)?,
        version: Version::from_slice(alloc, version)?,
    })
}

// The three digits, the space and the reason after a version and a space.
fn status_of(alloc: Global, version: &[u8], rest: &[u8]) -> Result<StartLine, MessageFault>
    ensures { Gives OutOfMemory result (status_of version.now rest.now) }
{
    let [a, b, c, space, reason @ ..] = rest else {
        return Err(MessageFault::BadLine);
    };
    if !(a.is_ascii_digit() && b.is_ascii_digit() && c.is_ascii_digit() && *space == b' ') {
        return Err(MessageFault::BadLine);
    }
    let status = 100 * u16::from(a - b'0') + 10 * u16::from(b - b'0') + u16::from(c - b'0');
    Ok(StartLine::Status {
        version: Version::from_slice(alloc, version)?,
        status,
        reason: Text::from_slice(alloc, reason)?,
    })
}

// Never inlined, since a server reads few status lines.
#[inline(never)]
#[tactic(auto, unfolding(crate::specs::Reading::status_line_of))]
fn status_line_of(alloc: Global, line: &[u8]) -> Result<StartLine, MessageFault>
    ensures { Gives OutOfMemory result (status_line_of line.now) }
{
    let Some((version, rest)) = split_once(line, b' ') else {
        return Err(MessageFault::BadLine);
    };
    if !is_version(version) {
        return Err(MessageFault::BadLine);
    }
    status_of(alloc, version, rest)
}

/// Reads a request line or a status line.
#[tactic(auto, unfolding(crate::specs::Reading::start_of))]
pub fn start_of(alloc: Global, line: &[u8]) -> Result<StartLine, MessageFault>
    ensures { Gives OutOfMemory result (start_of line.now) }
{
    match line {
        [b'R', b'T', b'S', b'P', b'/', ..] => status_line_of(alloc, line),
        _ => request_line_of(alloc, line),
    }
}
