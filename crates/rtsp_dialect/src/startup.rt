//! Numbers of Pipelined-Requests that are too long.

ghost use Rattle.std.specs.Prelude.{◌≡◌, ◌<◌, ◌^◌, IfSome};
ghost use Rattle.rtsp_dialect.specs.Startup.{long_startup};

use rtsp_text::number_of;

// The most digits that the grammar has (RFC 7826 section 18.33).
const STARTUP_DIGITS: usize = 8;
// The most digits of a number that is repaired. One that is below 2^32 has no more.
const LONG_DIGITS: usize = 10;

/// One more than the greatest number of eight digits.
pub const MODULUS: u64 = 100_000_000;

/// The number of a text of nine or ten digits.
#[tactic(auto, unfolding(crate::specs::Startup::long_startup))]
pub fn long_startup(value: &[u8]) -> Option<u64>
    ensures number { result ≡ long_startup value.now }
    ensures small { IfSome result (λ n. n < 10 ^ 10) }
{
    if value.len() > STARTUP_DIGITS {
        number_of(value, LONG_DIGITS)
    } else {
        None
    }
}
