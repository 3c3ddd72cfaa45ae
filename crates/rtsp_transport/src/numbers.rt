//! Numbers that name a request, or a session that is being set up.

ghost use Rattle.std.specs.Prelude.{◌≡◌, ◌≤◌, ℕ, IfOk, IfErr, Ok};
ghost use Rattle.rtsp_text.specs.Decimal.{SpellsNumber};
ghost use Rattle.rtsp_transport.specs.Reads.{IsMalformed};

use crate::fault::TextFault;
use rtsp_text::number_of;

// The most digits of a startup number.
const STARTUP_DIGITS: usize = 8;
// The most digits of a CSeq.
const CSEQ_DIGITS: usize = 9;

// A number of 1 to so many digits.
fn read_number(text: &[u8], most: usize) -> Result<u32, TextFault>
    requires { most ≤ 9 }
    ensures found { IfOk result (SpellsNumber most text.now) }
    ensures only { (n : ℕ) → SpellsNumber most text.now n → result ≡ Ok n }
    ensures fault { IfErr result (IsMalformed (SpellsNumber most text.now)) }
{
    match number_of(text, most) {
        Some(number) => Ok(number as u32),
        None => Err(TextFault::Malformed),
    }
}

/// Reads the number of a Pipelined-Requests header: 1 to 8 digits (RFC 7826 section 18.33).
pub fn read_startup(text: &[u8]) -> Result<u32, TextFault>
    ensures found { IfOk result (SpellsNumber 8 text.now) }
    ensures only { (n : ℕ) → SpellsNumber 8 text.now n → result ≡ Ok n }
    ensures fault { IfErr result (IsMalformed (SpellsNumber 8 text.now)) }
{
    read_number(text, STARTUP_DIGITS)
}

/// Reads the number of a CSeq header: 1 to 9 digits (RFC 7826 section 18.20).
pub fn read_cseq(text: &[u8]) -> Result<u32, TextFault>
    ensures found { IfOk result (SpellsNumber 9 text.now) }
    ensures only { (n : ℕ) → SpellsNumber 9 text.now n → result ≡ Ok n }
    ensures fault { IfErr result (IsMalformed (SpellsNumber 9 text.now)) }
{
    read_number(text, CSEQ_DIGITS)
}
