//! The value of a Session header, and this server's own identifiers.

ghost use Rattle.std.specs.Prelude.{◌≡◌, ◌<◌, ◌≤◌, ◌^◌, ◌++◌, ℕ, List, length, vec_capacity, Some};
ghost use Rattle.std.specs.Prelude.{IfOk, IfErr, IfSome, IsOkAnd, IsOk, OnOk, OnErr};
ghost use Rattle.std.specs.List.{list_all};
ghost use Rattle.rtsp_text.specs.Appending.{HasRoom};
ghost use Rattle.rtsp_text.specs.Hexadecimal.{hex_digit, hex_text, IsHexOf};
ghost use Rattle.rtsp_transport.specs.Session.{is_session_byte, is_session_name};
ghost use Rattle.rtsp_transport.specs.Session.{SpellsSession, name_of};
ghost use Rattle.rtsp_transport.specs.Reads.{IsMalformed};

use crate::fault::TextFault;
use rtsp_text::{split_once, write_hex_u128};
use std::alloc::AllocError;

// The most bytes of a session's name.
const NAME_LIMIT: usize = 256;
// The digits of an identifier of this server.
const ID_DIGITS: usize = 32;

fn is_session_byte(byte: u8) -> bool
    ensures { result ≡ is_session_byte byte }
{
    // Without `||` there is no branch, and many bytes are tested at once.
    let is_digit = (b'0' <= byte) & (byte <= b'9');
    let is_upper = (b'A' <= byte) & (byte <= b'Z');
    let is_lower = (b'a' <= byte) & (byte <= b'z');
    let is_low_mark = (byte == b'$') | (byte == b'+');
    let is_high_mark = (byte == b'-') | (byte == b'.') | (byte == b'_');
    is_digit | is_upper | is_lower | is_low_mark | is_high_mark
}

fn are_session_bytes(text: &[u8]) -> bool
    ensures { result ≡ list_all is_session_byte text.now }
{
    // The loop goes on behind a wrong byte, so that it has no branch for each.
    let mut are = true;
    for byte in text {
        are = are & is_session_byte(*byte);
    }
    are
}

// The text before the first semicolon.
fn name_of(text: &[u8]) -> &[u8]
    ensures { result.now ≡ name_of text.now }
{
    split_once(text, b';').map_or(text, |(name, _)| name)
}

fn is_session_name(name: &[u8]) -> bool
    ensures { result ≡ is_session_name name.now }
{
    !name.is_empty() && name.len() <= NAME_LIMIT && are_session_bytes(name)
}

/// Reads a session's name, which is its identifier as a Session header has it: 1 to 256 letters,
/// digits and `$ - _ . +`. The text from a semicolon on, such as a timeout, is ignored (RFC 7826
/// section 18.49).
#[tactic(auto, using(crate::proofs::SessionLemmas::name_spelled))]
pub fn read_session(text: &[u8]) -> Result<&[u8], TextFault>
    ensures found { IfOk result (λ name. SpellsSession text.now name.now) }
    ensures only { (name : List ℕ) → SpellsSession text.now name
        → IsOkAnd result (λ n. n.now ≡ name) }
    ensures fault { IfErr result (IsMalformed (SpellsSession text.now)) }
{
    let name = name_of(text);
    if !is_session_name(name) {
        return Err(TextFault::Malformed);
    }
    Ok(name)
}

// The value of a digit in lower case, and 16 for any other byte.
fn digit_value(byte: u8) -> u8
    ensures digit { result < 16 → hex_digit result ≡ byte }
    ensures other { 16 ≤ result → (d : ℕ) → d < 16 → ¬ hex_digit d ≡ byte }
{
    match byte {
        b'0'..=b'9' => byte - b'0',
        b'a'..=b'f' => byte - b'a' + 10,
        _ => 16,
    }
}

// The number of which the text is the digits, in lower case. The bytes of a number are made each
// for itself and without a branch, so that many of them are made at once.
#[tactic(auto, using(crate::proofs::IdLemmas::pairs_none, crate::proofs::IdLemmas::pairs_number))]
fn id_of(digits: &[u8]) -> Option<u128>
    requires { length digits.now ≡ 32 }
    ensures found { IfSome result (IsHexOf digits.now) }
    ensures only { (n : ℕ) → IsHexOf digits.now n → result ≡ Some n }
{
    let mut bytes = [0; 16];
    let mut are_digits = true;
    for i in 0..16 {
        let high = digit_value(digits[2 * i]);
        let low = digit_value(digits[2 * i + 1]);
        are_digits = are_digits & (high < 16) & (low < 16);
        bytes[i] = high % 16 * 16 + low % 16;
    }
    if are_digits {
        Some(u128::from_be_bytes(bytes))
    } else {
        None
    }
}

/// The identifier of this server that a session's name is: exactly 32 lower case hexadecimal
/// digits. None where the name is another, which is no session of this server.
pub fn session_id(name: &[u8]) -> Option<u128>
    ensures found { IfSome result (λ id. name.now ≡ hex_text 32 id) }
    ensures only { (id : ℕ) → id < 2 ^ 128 → name.now ≡ hex_text 32 id → result ≡ Some id }
{
    if name.len() != ID_DIGITS {
        return None;
    }
    id_of(name)
}

/// Writes an identifier at the end. A refused write leaves `out` as it was.
pub fn write_session_id(out: &mut Vec<u8>, id: u128) -> Result<(), AllocError>
    ensures ok { OnOk result (out.new.items ≡ out.old.items ++ hex_text 32 id) }
    ensures err { OnErr result (out.new.items ≡ out.old.items) }
    ensures capacity { vec_capacity out.old ≤ vec_capacity out.new }
    // It takes no memory where there is room.
    ensures succeeds { HasRoom out.old (hex_text 32 id) → IsOk result }
{
    write_hex_u128(out, id)
}
