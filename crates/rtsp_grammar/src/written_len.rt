//! How many bytes a message takes when it is written, so that room is made for it at once.

ghost use Rattle.std.specs.Prelude.{◌≡◌, ◌-◌, ◌^◌, length, min};
ghost use Rattle.rtsp_grammar.specs.HeaderView.{shown};
ghost use Rattle.rtsp_grammar.specs.Item.{request_head, response_head};
ghost use Rattle.rtsp_grammar.specs.Writing.{start_line_text, header_text, headers_text, headers_and_body_text};

use crate::header::{Header, Headers};
use crate::message::{Request, Response};

fn header_len(header: Header<'_>) -> usize
    ensures { result ≡ min (length (header_text (shown header.entry))) (2 ^ 64 - 1) }
{
    header
        .name
        .len()
        .saturating_add(header.value.len())
        .saturating_add(4)
}

fn headers_len(headers: &Headers) -> usize
    ensures { result ≡ min (length (headers_text headers.now)) (2 ^ 64 - 1) }
{
    let mut total = 0usize;
    for index in 0..headers.len() {
        total = total.saturating_add(header_len(headers.get(index)));
    }
    total
}

/// How many bytes follow the first line, at most `usize::MAX`.
pub fn rest_len(headers: &Headers, body: &[u8]) -> usize
    ensures { result ≡ min (length (headers_and_body_text headers.now body.now)) (2 ^ 64 - 1) }
{
    headers_len(headers)
        .saturating_add(2)
        .saturating_add(body.len())
}

/// How many bytes the request line has, at most `usize::MAX`.
pub fn request_line_len(request: &Request) -> usize
    ensures { result ≡ min (length (start_line_text (request_head request.now).start)) (2 ^ 64 - 1) }
{
    let method = request.method.as_bytes().len();
    let uri = request.uri.as_bytes().len();
    let version = request.version.as_bytes().len();
    method
        .saturating_add(uri)
        .saturating_add(version)
        .saturating_add(4)
}

/// How many bytes the status line has, at most `usize::MAX`.
pub fn status_line_len(response: &Response) -> usize
    ensures { result ≡ min (length (start_line_text (response_head response.now).start)) (2 ^ 64 - 1) }
{
    let version = response.version.as_bytes().len();
    let reason = response.reason.as_bytes().len();
    version.saturating_add(reason).saturating_add(7)
}
