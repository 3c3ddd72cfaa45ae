//! Decimal numbers.

ghost use Rattle.std.specs.Prelude.{◌≡◌, min};
ghost use Rattle.rtsp_grammar.specs.Number.{number_of};

// A greater number is read as this one.
const GREATEST: u32 = 100_000;

/// The number that digits write, at most 100,000.
pub fn number(digits: &[u8]) -> u32
    ensures { result ≡ min (number_of digits.now) 100000 }
{
    let mut value = 0u32;
    for digit in digits {
        value = (10 * value + u32::from(digit.saturating_sub(b'0'))).min(GREATEST);
    }
    value
}
