//! A header of version 2.

ghost use Rattle.std.specs.Prelude.{◌≡◌, ◌<◌, ◌^◌, ◌+◌, ◌*◌, length};
ghost use Rattle.rtsp_proxy.specs.Binary.{binary_of, origin_in, two, four};

use crate::seen::{Origin, ProxyFault, Seen};

// The most bytes behind the fixed sixteen.
const LIMIT: usize = 2_048;

fn two(high: u8, low: u8) -> u16
    ensures { result ≡ two high low }
{
    u16::from_be_bytes([high, low])
}

fn four(a: u8, b: u8, c: u8, d: u8) -> u32
    ensures { result ≡ four a b c d }
{
    u32::from(a) * 0x0100_0000 + u32::from(b) * 0x0001_0000 + u32::from(c) * 0x0100 + u32::from(d)
}

// Whose connection a whole header names: LOCAL is the balancer's own, and so is a family that isn't told.
fn origin_in(verb: u8, family: u8, body: &[u8]) -> Result<Origin, ProxyFault>
    ensures { result ≡ origin_in verb family body.now }
{
    if verb == 0x20 {
        return Ok(Origin::Own);
    }
    if family == 0 {
        return Ok(Origin::Own);
    }
    if family != 0x11 {
        return Err(ProxyFault::NotIpv4);
    }
    match body {
        [a, b, c, d, _, _, _, _, high, low, _, _, ..] => Ok(Origin::Player(
            four(*a, *b, *c, *d),
            two(*high, *low),
        )),
        _ => Err(ProxyFault::Malformed),
    }
}

/// Reads what follows the signature.
pub(crate) fn read_binary(rest: &[u8]) -> Seen
    ensures { result ≡ binary_of rest.now }
{
    match rest {
        [verb, family, high, low, body @ ..] => {
            if *verb != 0x20 && *verb != 0x21 {
                return Seen::Refused(ProxyFault::Unknown);
            }
            let len = usize::from(two(*high, *low));
            if len > LIMIT {
                return Seen::Refused(ProxyFault::TooLong);
            }
            if body.len() < len {
                return Seen::Undecided;
            }
            match origin_in(*verb, *family, &body[..len]) {
                Ok(origin) => Seen::Header(origin, 16 + len),
                Err(fault) => Seen::Refused(fault),
            }
        }
        _ => Seen::Undecided,
    }
}
