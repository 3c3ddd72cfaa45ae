//! The addresses of a `dest_addr` parameter, and the text of an IPv4 address.

ghost use Rattle.std.specs.Prelude.{◌≡◌, decimal};
ghost use Rattle.std.specs.Option.{option_map};
ghost use Rattle.rtsp_text.specs.Slices.{held, halves};
ghost use Rattle.rtsp_transport.specs.Address.{after, quoted_of, quoted_pair, quoted_whole};
ghost use Rattle.rtsp_transport.specs.Address.{port_of, place_of, quoted_place_of, places_of};
ghost use Rattle.rtsp_transport.specs.Hosts.{is_bracketed, allows};
ghost use Rattle.rtsp_transport.specs.Peer.{after_text, after_peer, is_peer};

use itoa::Buffer;
use rtsp_text::{number_of, split_once};

const QUOTE: u8 = b'"';
// The most digits of a port.
const PORT_DIGITS: usize = 5;

/// Where a client wants packets: a host, which may be empty, and a port, which isn't 0.
#[derive(Clone, Copy)]
pub struct Address<'a> {
    pub host: &'a [u8],
    pub port: u16,
}

// What follows this byte, where the text begins with it.
fn after(text: &[u8], byte: u8) -> Option<&[u8]>
    ensures { held result ≡ after byte text.now }
{
    let (first, rest) = text.split_first()?;
    if *first == byte { Some(rest) } else { None }
}

// What is in quotes at the front, and the text after them.
#[tactic(auto, unfolding(crate::specs::Address::quoted_of))]
fn quoted_of(text: &[u8]) -> Option<(&[u8], &[u8])>
    ensures { halves result ≡ quoted_of text.now }
{
    let rest = after(text, QUOTE)?;
    split_once(rest, QUOTE)
}

// Two quoted texts joined by a slash.
#[tactic(auto, unfolding(crate::specs::Address::quoted_pair))]
fn quoted_pair(text: &[u8]) -> Option<(&[u8], &[u8])>
    ensures { halves result ≡ quoted_pair text.now }
{
    let (first, rest) = quoted_of(text)?;
    let rest = after(rest, b'/')?;
    let (second, rest) = quoted_of(rest)?;
    if rest.is_empty() {
        Some((first, second))
    } else {
        None
    }
}

// One quoted text.
#[tactic(auto, unfolding(crate::specs::Address::quoted_whole))]
fn quoted_whole(text: &[u8]) -> Option<&[u8]>
    ensures { held result ≡ quoted_whole text.now }
{
    let (inner, rest) = quoted_of(text)?;
    if rest.is_empty() { Some(inner) } else { None }
}

/// The port, from 1 to 65,535, that digits spell.
#[tactic(auto, unfolding(crate::specs::Address::port_of))]
pub fn port_of(digits: &[u8]) -> Option<u16>
    ensures { result ≡ port_of digits.now }
{
    let port = number_of(digits, PORT_DIGITS)?;
    if port >= 1 && port <= 65_535 {
        Some(port as u16)
    } else {
        None
    }
}

impl Address<'_> {
    ghost use Rattle.rtsp_transport.specs.AddressView.{place, places};

    #[tactic(auto, unfolding(crate::specs::Address::place_of))]
    fn read(text: &[u8]) -> Option<Address<'_>>
        ensures { option_map place result ≡ place_of text.now }
    {
        let (host, digits) = split_once(text, b':')?;
        let port = port_of(digits)?;
        Some(Address { host, port })
    }

    /// One quoted address: where RTP and RTCP both go.
    #[tactic(auto, unfolding(crate::specs::Address::quoted_place_of))]
    pub fn read_one(text: &[u8]) -> Option<Address<'_>>
        ensures { option_map place result ≡ quoted_place_of text.now }
    {
        Address::read(quoted_whole(text)?)
    }

    /// Two quoted addresses joined by a slash: where RTP goes, and where RTCP goes.
    #[tactic(auto, unfolding(crate::specs::Address::places_of))]
    pub fn read_pair(text: &[u8]) -> Option<(Address<'_>, Address<'_>)>
        ensures { option_map places result ≡ places_of text.now }
    {
        let (rtp, rtcp) = quoted_pair(text)?;
        let rtp = Address::read(rtp)?;
        let rtcp = Address::read(rtcp)?;
        Some((rtp, rtcp))
    }

    /// Whether the host has a bracket, as an IPv6 address has.
    pub fn is_bracketed(&self) -> bool
        ensures { result ≡ is_bracketed self.now.host.now }
    {
        self.host.contains(&b'[')
    }

    /// Whether the host is empty or the peer's, whose IPv4 address is given as a number.
    pub fn is_allowed(&self, peer: u32) -> bool
        ensures { result ≡ allows peer self.now.host.now }
    {
        self.host.is_empty() || is_peer(self.host, peer)
    }
}

// What follows this front, where the text begins with it.
#[tactic(auto, unfolding(crate::specs::Peer::after_text))]
fn after_text<'a>(text: &'a [u8], front: &[u8]) -> Option<&'a [u8]>
    ensures { held result ≡ after_text front.now text.now }
{
    if !text.starts_with(front) {
        return None;
    }
    let (_, rest) = text.split_at(front.len());
    Some(rest)
}

fn after_number(text: &[u8], n: u32) -> Option<&[u8]>
    ensures { held result ≡ after_text (decimal n) text.now }
{
    let mut buffer = Buffer::new();
    after_text(text, buffer.format(n).as_bytes())
}

#[tactic(auto, unfolding(crate::specs::Peer::after_peer))]
fn after_peer(text: &[u8], peer: u32) -> Option<&[u8]>
    ensures { held result ≡ after_peer peer text.now }
{
    let rest = after_number(text, peer / 0x0100_0000)?;
    let rest = after(rest, b'.')?;
    let rest = after_number(rest, peer / 0x0001_0000 % 256)?;
    let rest = after(rest, b'.')?;
    let rest = after_number(rest, peer / 0x0000_0100 % 256)?;
    let rest = after(rest, b'.')?;
    after_number(rest, peer % 256)
}

// Whether the text is that of the IPv4 address: four decimal numbers with dots between them.
#[tactic(auto, using(crate::proofs::PeerLemmas::peer_some, crate::proofs::PeerLemmas::peer_none))]
fn is_peer(text: &[u8], peer: u32) -> bool
    ensures { result ≡ is_peer peer text.now }
{
    match after_peer(text, peer) {
        Some(rest) => rest.is_empty(),
        None => false,
    }
}
