//! What is answered where a message cannot be read.

ghost use Rattle.std.specs.Prelude.{◌≡◌};
ghost use Rattle.rtsp_engine.specs.FaultResponses.{fault_response};

use rtsp_grammar::MessageFault;

/// The response to a fault of a message, of fixed bytes and without a CSeq (RFC 7826 section 17).
#[tactic(auto, unfolding(crate::specs::FaultResponses::fault_response))]
pub fn fault_response(fault: MessageFault) -> &'static [u8]
    ensures { result.now ≡ fault_response fault }
{
    match fault {
        MessageFault::UriTooLong => b"RTSP/2.0 414 Request-URI Too Long\r\n\r\n",
        MessageFault::OutOfMemory => b"RTSP/2.0 500 Internal Server Error\r\n\r\n",
        MessageFault::BadLine
        | MessageFault::BadHeader
        | MessageFault::HeadTooLong
        | MessageFault::BodyTooLong
        | MessageFault::BadLength => b"RTSP/2.0 400 Bad Request\r\n\r\n",
    }
}
