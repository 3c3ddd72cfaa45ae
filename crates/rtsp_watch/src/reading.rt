//! What a response says of itself.

ghost use Rattle.std.specs.Prelude.{◌≤◌};

use memchr::memchr;
use rtsp_text::hex_number;

// Where the digits of the status begin: behind `RTSP/2.0 `.
const STATUS: usize = 9;

// How the line of a response begins that names its session.
const SESSION: &[u8] = b"Session: ";

// The value of a digit; of another byte some number up to 255.
fn value_of(digit: u8) -> u16
    ensures { result ≤ 255 }
{
    u16::from(digit.wrapping_sub(b'0'))
}

/// The status of a response, 0 where there is none.
pub(crate) fn status_of(response: &[u8]) -> u16 {
    match response.get(STATUS..STATUS + 3) {
        Some([hundreds, tens, ones]) => {
            100 * value_of(*hundreds) + 10 * value_of(*tens) + value_of(*ones)
        }
        _ => 0,
    }
}

// What stands behind the first line of a text.
fn behind_line(text: &[u8]) -> Option<&[u8]> {
    let at = memchr(b'\n', text)?;
    text.get(at + 1..)
}

// So many digits of the session that a response names: in its third line, behind those of the status
// and of the request's number.
fn digits_of(response: &[u8], count: usize) -> Option<u128>
    requires { count ≤ 32 }
{
    let third = behind_line(behind_line(response)?)?;
    hex_number(third.strip_prefix(SESSION)?.get(..count)?)
}

/// The first eight digits of the session that a response names.
pub(crate) fn session_of(response: &[u8]) -> Option<u32> {
    u32::try_from(digits_of(response, 8)?).ok()
}

/// The id of the session that a response names.
pub(crate) fn id_of(response: &[u8]) -> Option<u128> {
    digits_of(response, 32)
}
