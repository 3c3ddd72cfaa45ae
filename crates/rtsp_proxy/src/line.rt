//! A header of version 1, which is a line.

ghost use Rattle.std.specs.Prelude.{◌≡◌, ◌<◌, ◌≤◌, IfSome};
ghost use Rattle.rtsp_text.specs.Slices.{held};
ghost use Rattle.rtsp_proxy.specs.Line.{line_of, origin_of, tcp4_of, address_of, octet_of, port_of, is_padded, without_cr};

use crate::seen::{Origin, ProxyFault, Seen};
use rtsp_text::{number_of, split_once};

// The bytes of a header without `PROXY ` at its front and the LF at its end.
const LIMIT: usize = 100;

// Whether a number begins with a zero that could be left out.
fn is_padded(text: &[u8]) -> bool
    ensures { result ≡ is_padded text.now }
{
    match text {
        [first, rest @ ..] => !rest.is_empty() && *first == b'0',
        [] => false,
    }
}

// A number of an address.
#[tactic(auto, unfolding(crate::specs::Line::octet_of))]
fn octet_of(text: &[u8]) -> Option<u8>
    ensures { result ≡ octet_of text.now }
{
    let number = number_of(text, 3)?;
    if number > 255 || is_padded(text) {
        return None;
    }
    Some(number as u8)
}

// A port, which may be 0.
#[tactic(auto, unfolding(crate::specs::Line::port_of))]
fn port_of(text: &[u8]) -> Option<u16>
    ensures { result ≡ port_of text.now }
{
    let number = number_of(text, 5)?;
    if number > 65_535 || is_padded(text) {
        return None;
    }
    Some(number as u16)
}

/// An IPv4 address in text: four numbers from 0 to 255, none of them with a zero that could be left out,
/// and dots between them.
#[tactic(auto, unfolding(crate::specs::Line::address_of))]
pub fn read_address(text: &[u8]) -> Option<u32>
    ensures { result ≡ address_of text.now }
{
    let (a, rest) = split_once(text, b'.')?;
    let a = octet_of(a)?;
    let (b, rest) = split_once(rest, b'.')?;
    let b = octet_of(b)?;
    let (c, d) = split_once(rest, b'.')?;
    let c = octet_of(c)?;
    let d = octet_of(d)?;
    Some(
        u32::from(a) * 0x0100_0000
            + u32::from(b) * 0x0001_0000
            + u32::from(c) * 0x0100
            + u32::from(d),
    )
}

// The source of a connection over IPv4: two addresses and two ports.
#[tactic(auto, unfolding(crate::specs::Line::tcp4_of))]
fn tcp4_of(text: &[u8]) -> Option<Origin>
    ensures { result ≡ tcp4_of text.now }
{
    let (source, rest) = split_once(text, b' ')?;
    let source = read_address(source)?;
    let (target, rest) = split_once(rest, b' ')?;
    let _target = read_address(target)?;
    let (port, target_port) = split_once(rest, b' ')?;
    let port = port_of(port)?;
    let _target_port = port_of(target_port)?;
    Some(Origin::Player(source, port))
}

// Whose connection a line names, behind `PROXY ` and without its end.
#[tactic(auto, unfolding(crate::specs::Line::origin_of))]
fn origin_of(line: &[u8]) -> Result<Origin, ProxyFault>
    ensures { result ≡ origin_of line.now }
{
    let (family, rest) = match split_once(line, b' ') {
        Some((family, rest)) => (family, rest),
        None => (line, b"".as_slice()),
    };
    if family == b"UNKNOWN".as_slice() {
        return Ok(Origin::Own);
    }
    if family == b"TCP6".as_slice() {
        return Err(ProxyFault::NotIpv4);
    }
    if family != b"TCP4".as_slice() {
        return Err(ProxyFault::Malformed);
    }
    match tcp4_of(rest) {
        Some(origin) => Ok(origin),
        None => Err(ProxyFault::Malformed),
    }
}

// A line without the CR at its end, where it has no other one.
#[tactic(auto, unfolding(crate::specs::Line::without_cr))]
fn without_cr(line: &[u8]) -> Option<&[u8]>
    ensures { held result ≡ without_cr line.now }
{
    let (line, rest) = split_once(line, b'\r')?;
    if rest.is_empty() { Some(line) } else { None }
}

/// Reads what follows `PROXY `.
#[tactic(auto, unfolding(crate::specs::Line::line_of))]
pub(crate) fn read_line(rest: &[u8]) -> Seen
    ensures { result ≡ line_of rest.now }
{
    let Some((line, _)) = split_once(rest, b'\n') else {
        return if rest.len() < LIMIT + 1 {
            Seen::Undecided
        } else {
            Seen::Refused(ProxyFault::TooLong)
        };
    };
    if line.len() > LIMIT {
        return Seen::Refused(ProxyFault::TooLong);
    }
    let Some(fields) = without_cr(line) else {
        return Seen::Refused(ProxyFault::Malformed);
    };
    match origin_of(fields) {
        Ok(origin) => Seen::Header(origin, 6 + line.len() + 1),
        Err(fault) => Seen::Refused(fault),
    }
}
