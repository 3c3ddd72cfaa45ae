//! What follows one another on a connection: requests, responses and frames.

use crate::header::Headers;
use crate::method::Method;
use crate::version::Version;
use rtsp_text::Text;

/// A request (RFC 7826 section 7).
pub struct Request {
    pub method: Method,
    /// As it is written, `*` too; one that is read has at most 1,024 bytes.
    pub uri: Text,
    pub version: Version,
    pub headers: Headers,
    /// What Content-Length announces; one that is read has at most 65,536 bytes.
    pub body: Text,
}

// Written out, so that dropping a request is one call, and not one for each of its parts.
impl Drop for Request {
    #[inline(always)]
    fn drop(self) {
        let Self {
            method: _method,
            uri: _uri,
            version: _version,
            headers: _headers,
            body: _body,
        } = self;
    }
}

/// A response (RFC 7826 section 8).
pub struct Response {
    pub version: Version,
    /// Three digits, so at most 999.
    pub status: u16,
    /// The rest of the status line, which may be empty.
    pub reason: Text,
    pub headers: Headers,
    /// What Content-Length announces; one that is read has at most 65,536 bytes.
    pub body: Text,
}

// Written out, as that of `Request` is.
impl Drop for Response {
    #[inline(always)]
    fn drop(self) {
        let Self {
            version: _version,
            status: _,
            reason: _reason,
            headers: _headers,
            body: _body,
        } = self;
    }
}

/// Bytes of one channel between messages (RFC 7826 section 14).
#[derive(Drop)]
pub struct Frame {
    pub channel: u8,
    /// At most 65,535 bytes.
    pub payload: Text,
}

/// What follows one another on a connection: a request, a response or a frame.
#[derive(Drop)]
pub enum Item {
    Request(Request),
    Response(Response),
    Frame(Frame),
}
