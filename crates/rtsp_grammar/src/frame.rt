//! Reading a frame.

ghost use Rattle.std.specs.Prelude.{◌≡◌, ◌+◌, ◌*◌, ◌<◌, ◌≤◌, length, take, IfOk, IfErr, IfSome, IfNone};
ghost use Rattle.rtsp_grammar.specs.Frame.{frame_text, frame_len, IsFrame, BeginsFrame, IsShortFrame};
ghost use Rattle.rtsp_grammar.specs.declared.fault.MessageFault.TheVariants.{OutOfMemory};

use crate::fault::MessageFault;
use crate::message::Frame;
use rtsp_text::Text;
use std::alloc::Global;

// The length that two bytes announce, the most significant first.
fn payload_len(high: u8, low: u8) -> usize
    ensures value { result ≡ 256 * high + low }
    ensures small { result < 65536 }
{
    usize::from(u16::from_be_bytes([high, low]))
}

/// How many bytes the frame at the front has. Until the two bytes of its length have come: 4, the
/// bytes up to the end of these.
pub fn frame_len(bytes: &[u8]) -> usize
    ensures value { result ≡ frame_len bytes.now }
    ensures small { result < 65540 }
{
    match bytes {
        [_, _, high, low, ..] => 4 + payload_len(*high, *low),
        _ => 4,
    }
}

/// Reads the frame at the front, and how many bytes it takes. None: more bytes are needed.
pub fn read_frame(alloc: Global, bytes: &[u8]) -> Result<Option<(Frame, usize)>, MessageFault>
    requires { BeginsFrame bytes.now }
    ensures length { IfOk result (λ found. IfSome found (λ x. x.1 ≤ length bytes.now)) }
    ensures some { IfOk result (λ found. IfSome found (λ x. IsFrame x.0 × (take x.1 bytes.now ≡ frame_text x.0))) }
    ensures none { IfOk result (λ found. IfNone found (IsShortFrame bytes.now)) }
    ensures memory { IfErr result (λ e. e ≡ OutOfMemory) }
{
    match bytes {
        [_, channel, high, low, rest @ ..] => {
            let len = payload_len(*high, *low);
            if rest.len() < len {
                return Ok(None);
            }
            let payload = Text::from_slice(alloc, &rest[..len])?;
            let frame = Frame {
                channel: *channel,
                payload,
            };
            Ok(Some((frame, len + 4)))
        }
        _ => Ok(None),
    }
}
