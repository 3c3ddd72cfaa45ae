//! Writing items at the end of a buffer.

ghost use Rattle.std.specs.Prelude.{◌≡◌, ◌<◌, ◌≤◌, ◌^◌, ◌++◌, length, vec_capacity, IsOk, OnOk, OnErr};
ghost use Rattle.rtsp_text.specs.Appending.{HasRoom};
ghost use Rattle.rtsp_grammar.specs.Frame.{frame_text};
ghost use Rattle.rtsp_grammar.specs.HeaderView.{shown};
ghost use Rattle.rtsp_grammar.specs.Item.{request_head, response_head};
ghost use Rattle.rtsp_grammar.specs.Writing.{start_line_text, header_text, headers_text, headers_and_body_text};
ghost use Rattle.rtsp_grammar.specs.Writing.{request_text, response_text};

use crate::header::{Header, Headers};
use crate::message::{Frame, Request, Response};
use crate::written_len::{request_line_len, rest_len, status_line_len};
use rtsp_text::{append_all, three_digits};
use std::alloc::AllocError;

const DOLLAR: u8 = 0x24;

fn put_header(out: &mut Vec<u8>, header: Header<'_>) -> Result<(), AllocError>
    ensures text { OnOk result (out.new.items ≡ out.old.items ++ header_text (shown header.entry)) }
    ensures capacity { vec_capacity out.old ≤ vec_capacity out.new }
    ensures succeeds { HasRoom out.old (header_text (shown header.entry)) → IsOk result }
{
    append_all(out, &[header.name, b": ", header.value, b"\r\n"])
}

fn put_headers(out: &mut Vec<u8>, headers: &Headers) -> Result<(), AllocError>
    ensures text { OnOk result (out.new.items ≡ out.old.items ++ headers_text headers.now) }
    ensures capacity { vec_capacity out.old ≤ vec_capacity out.new }
    ensures succeeds { HasRoom out.old (headers_text headers.now) → IsOk result }
{
    for index in 0..headers.len() {
        put_header(out, headers.get(index))?;
    }
    Ok(())
}

// The headers, the empty line and the body.
fn put_rest(out: &mut Vec<u8>, headers: &Headers, body: &[u8]) -> Result<(), AllocError>
    ensures text { OnOk result (out.new.items ≡ out.old.items ++ headers_and_body_text headers.now body.now) }
    ensures succeeds { HasRoom out.old (headers_and_body_text headers.now body.now) → IsOk result }
{
    put_headers(out, headers)?;
    append_all(out, &[b"\r\n", body])
}

fn put_request_line(out: &mut Vec<u8>, request: &Request) -> Result<(), AllocError>
    ensures text { OnOk result (out.new.items ≡ out.old.items ++ start_line_text (request_head request.now).start) }
    ensures capacity { vec_capacity out.old ≤ vec_capacity out.new }
    ensures succeeds { HasRoom out.old (start_line_text (request_head request.now).start) → IsOk result }
{
    let method = request.method.as_bytes();
    let uri = request.uri.as_bytes();
    let version = request.version.as_bytes();
    append_all(out, &[method, b" ", uri, b" ", version, b"\r\n"])
}

fn put_status_line(out: &mut Vec<u8>, response: &Response) -> Result<(), AllocError>
    ensures text { OnOk result (out.new.items ≡ out.old.items ++ start_line_text (response_head response.now).start) }
    ensures capacity { vec_capacity out.old ≤ vec_capacity out.new }
    ensures succeeds { HasRoom out.old (start_line_text (response_head response.now).start) → IsOk result }
{
    let version = response.version.as_bytes();
    let status = three_digits(u64::from(response.status));
    let reason = response.reason.as_bytes();
    append_all(out, &[version, b" ", &status, b" ", reason, b"\r\n"])
}

/// Writes a request. A refused write leaves the buffer as it was.
pub fn write_request(out: &mut Vec<u8>, request: &Request) -> Result<(), AllocError>
    ensures ok { OnOk result (out.new.items ≡ out.old.items ++ request_text request.now) }
    ensures err { OnErr result (out.new.items ≡ out.old.items) }
    // It asks for no memory where there is room.
    ensures succeeds { HasRoom out.old (request_text request.now) → IsOk result }
{
    let line = request_line_len(request);
    let rest = rest_len(&request.headers, request.body.as_bytes());
    out.reserve(line.saturating_add(rest))?;
    put_request_line(out, request).unwrap();
    put_rest(out, &request.headers, request.body.as_bytes()).unwrap();
    Ok(())
}

/// Writes a response. A refused write leaves the buffer as it was. Of a status over 999 the last
/// three digits are written.
pub fn write_response(out: &mut Vec<u8>, response: &Response) -> Result<(), AllocError>
    ensures ok { OnOk result (out.new.items ≡ out.old.items ++ response_text response.now) }
    ensures err { OnErr result (out.new.items ≡ out.old.items) }
    // It asks for no memory where there is room.
    ensures succeeds { HasRoom out.old (response_text response.now) → IsOk result }
{
    let line = status_line_len(response);
    let rest = rest_len(&response.headers, response.body.as_bytes());
    out.reserve(line.saturating_add(rest))?;
    put_status_line(out, response).unwrap();
    put_rest(out, &response.headers, response.body.as_bytes()).unwrap();
    Ok(())
}

/// Writes a frame (RFC 7826 section 14). A refused write leaves the buffer as it was.
pub fn write_frame(out: &mut Vec<u8>, frame: &Frame) -> Result<(), AllocError>
    requires { length frame.now.payload < 2 ^ 16 }
    ensures ok { OnOk result (out.new.items ≡ out.old.items ++ frame_text frame.now) }
    ensures err { OnErr result (out.new.items ≡ out.old.items) }
    // It asks for no memory where there is room.
    ensures succeeds { HasRoom out.old (frame_text frame.now) → IsOk result }
{
    let payload = frame.payload.as_bytes();
    out.reserve(4 + payload.len())?;
    let [high, low] = (payload.len() as u16).to_be_bytes();
    append_all(out, &[&[DOLLAR, frame.channel, high, low], payload])
}
