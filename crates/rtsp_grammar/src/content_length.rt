//! The length of a body.

ghost use Rattle.std.specs.Prelude.{◌≡◌, ◌≤◌, IfOk};
ghost use Rattle.rtsp_grammar.specs.Reading.{length_of_value, body_length};

use crate::fault::MessageFault;
use crate::header::{Headers, Repeated};
use crate::number::number;
use rtsp_text::is_number;

const BODY_LIMIT: u32 = 65_536;

fn length_of_value(value: &[u8]) -> Result<usize, MessageFault>
    ensures value { result ≡ length_of_value value.now }
    ensures small { IfOk result (λ n. n ≤ 65536) }
{
    if !is_number(value) || value.len() > 10 {
        return Err(MessageFault::BadLength);
    }
    let length = number(value);
    if length > BODY_LIMIT {
        return Err(MessageFault::BodyTooLong);
    }
    Ok(length as usize)
}

/// The length of the body of a message with these headers.
#[tactic(auto, unfolding(crate::specs::Reading::body_length))]
pub fn body_length(headers: &Headers) -> Result<usize, MessageFault>
    ensures value { result ≡ body_length headers.now }
    ensures small { IfOk result (λ n. n ≤ 65536) }
{
    match headers.only_value(b"Content-Length") {
        Ok(Some(value)) => length_of_value(value),
        Ok(None) => Ok(0),
        Err(Repeated) => Err(MessageFault::BadLength),
    }
}
