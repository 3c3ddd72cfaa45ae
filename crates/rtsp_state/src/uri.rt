//! Request URIs.

ghost use Rattle.std.specs.Prelude.{◌≡◌, IfOk};
ghost use Rattle.rtsp_state.specs.Values.{rtsp_url, uri_of};

use std::alloc::{AllocError, Global};
use std::str;
use url::{ParseError, Url};

// The URL of scheme rtsp or rtsps that a text spells, or `None`.
fn read_url(alloc: Global, text: &str) -> Result<Option<Url>, AllocError>
    ensures { IfOk result (λ url. url ≡ rtsp_url text.now) }
{
    match Url::parse(alloc, text) {
        Ok(url) => {
            if url.scheme() == "rtsp" || url.scheme() == "rtsps" {
                Ok(Some(url))
            } else {
                Ok(None)
            }
        }
        Err(ParseError::OutOfMemory) => Err(AllocError),
        Err(ParseError::Overflow) => Err(AllocError),
        Err(_) => Ok(None),
    }
}

/// Reads a request URI: the URL of scheme rtsp or rtsps that it spells, or `None`.
pub fn read_uri(alloc: Global, text: &[u8]) -> Result<Option<Url>, AllocError>
    ensures { IfOk result (λ url. url ≡ uri_of text.now) }
{
    match str::from_utf8(text) {
        Ok(text) => read_url(alloc, text),
        Err(_) => Ok(None),
    }
}
