//! Decimal numbers, read and written.

ghost use Rattle.std.specs.Prelude.{◌≡◌, ◌≤◌, ◌<◌, ◌^◌, ◌++◌, length, vec_capacity, decimal};
ghost use Rattle.std.specs.Prelude.{IsOk, OnOk, OnErr, IfSome};
ghost use Rattle.rtsp_text.specs.Appending.{HasRoom};
ghost use Rattle.rtsp_text.specs.Decimal.{digit, digits_number, number_of, three_digits};

use itoa::Buffer;
use std::alloc::AllocError;

/// The number that digits write, where the text has nothing else. An empty text is 0.
pub fn digits_number(text: &[u8]) -> Option<u64>
    requires { length text.now ≤ 19 }
    ensures value { result ≡ digits_number text.now }
    ensures small { IfSome result (λ n. n < 10 ^ length text.now) }
{
    let mut number = 0;
    for digit in text {
        if !digit.is_ascii_digit() {
            return None;
        }
        number = number * 10 + u64::from(digit - b'0');
    }
    Some(number)
}

/// The number that the text writes: one digit at least and `most` digits at most, and nothing else.
/// Leading zeros count as digits.
#[tactic(auto, unfolding(crate::specs::Decimal::number_of))]
pub fn number_of(text: &[u8], most: usize) -> Option<u64>
    requires { most ≤ 19 }
    ensures value { result ≡ number_of most text.now }
    ensures small { IfSome result (λ n. n < 10 ^ most) }
{
    if text.is_empty() || text.len() > most {
        return None;
    }
    digits_number(text)
}

// The last decimal digit of a number.
fn digit(number: u64) -> u8
    ensures { result ≡ digit number }
{
    b'0' + (number % 10) as u8
}

/// The last three decimal digits of a number.
pub fn three_digits(number: u64) -> [u8; 3]
    ensures { result ≡ three_digits number }
{
    [digit(number / 100), digit(number / 10), digit(number)]
}

/// Writes a number at the end, in decimal digits. A refused write leaves `out` as it was.
pub fn write_decimal(out: &mut Vec<u8>, number: u64) -> Result<(), AllocError>
    ensures ok { OnOk result (out.new.items ≡ out.old.items ++ decimal number) }
    ensures err { OnErr result (out.new.items ≡ out.old.items) }
    ensures capacity { vec_capacity out.old ≤ vec_capacity out.new }
    // It takes no memory where there is room.
    ensures succeeds { HasRoom out.old (decimal number) → IsOk result }
{
    let mut buffer = Buffer::new();
    out.extend_from_slice(buffer.format(number).as_bytes())
}
