//! Hexadecimal numbers of a fixed width, in lower case, read and written.

ghost use Rattle.std.specs.Prelude.{◌≡◌, ◌<◌, ◌≤◌, ◌++◌, ℕ, length, vec_capacity, Some};
ghost use Rattle.std.specs.Prelude.{IsOk, OnOk, OnErr, IfSome, IfNone};
ghost use Rattle.rtsp_text.specs.Appending.{HasRoom};
ghost use Rattle.rtsp_text.specs.Hexadecimal.{hex_digit, hex_text, IsHexOf};

use hex::encode_to_slice;
use std::alloc::AllocError;

// The value of a digit in lower case.
fn hex_value(byte: u8) -> Option<u8>
    ensures found { IfSome result (λ d. (d < 16) × (hex_digit d ≡ byte)) }
    ensures none { IfNone result ((d : ℕ) → d < 16 → ¬ hex_digit d ≡ byte) }
{
    match byte {
        b'0'..=b'9' => Some(byte - b'0'),
        b'a'..=b'f' => Some(byte - b'a' + 10),
        _ => None,
    }
}

/// The number of which the text is the hexadecimal digits, in lower case and with all leading
/// zeros. An empty text is 0.
pub fn hex_number(text: &[u8]) -> Option<u128>
    requires { length text.now ≤ 32 }
    ensures found { IfSome result (IsHexOf text.now) }
    ensures only { (n : ℕ) → IsHexOf text.now n → result ≡ Some n }
{
    let mut number = 0u128;
    for byte in text {
        let Some(digit) = hex_value(*byte) else {
            return None;
        };
        number = number * 16 + u128::from(digit);
    }
    Some(number)
}

/// The 8 hexadecimal digits of a number.
pub fn hex_digits_u32(number: u32) -> [u8; 8]
    ensures { result ≡ hex_text 8 number }
{
    let mut digits = [0; 8];
    let encoded = encode_to_slice(number.to_be_bytes(), &mut digits);
    encoded.unwrap();
    digits
}

// The 32 digits of a number.
fn digits_of_u128(number: u128) -> [u8; 32]
    ensures { result ≡ hex_text 32 number }
{
    let mut digits = [0; 32];
    let encoded = encode_to_slice(number.to_be_bytes(), &mut digits);
    encoded.unwrap();
    digits
}

/// Writes a number at the end, in 8 hexadecimal digits. A refused write leaves `out` as it was.
pub fn write_hex_u32(out: &mut Vec<u8>, number: u32) -> Result<(), AllocError>
    ensures ok { OnOk result (out.new.items ≡ out.old.items ++ hex_text 8 number) }
    ensures err { OnErr result (out.new.items ≡ out.old.items) }
    ensures capacity { vec_capacity out.old ≤ vec_capacity out.new }
    // It takes no memory where there is room.
    ensures succeeds { HasRoom out.old (hex_text 8 number) → IsOk result }
{
    out.extend_from_slice(&hex_digits_u32(number))
}

/// Writes a number at the end, in 32 hexadecimal digits. A refused write leaves `out` as it was.
pub fn write_hex_u128(out: &mut Vec<u8>, number: u128) -> Result<(), AllocError>
    ensures ok { OnOk result (out.new.items ≡ out.old.items ++ hex_text 32 number) }
    ensures err { OnErr result (out.new.items ≡ out.old.items) }
    ensures capacity { vec_capacity out.old ≤ vec_capacity out.new }
    // It takes no memory where there is room.
    ensures succeeds { HasRoom out.old (hex_text 32 number) → IsOk result }
{
    out.extend_from_slice(&digits_of_u128(number))
}
