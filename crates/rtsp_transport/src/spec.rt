//! Transport specifications: a protocol and its parameters each (RFC 7826 section 18.54).

ghost use Rattle.std.specs.Prelude.{◌≡◌, IfOk};
ghost use Rattle.rtsp_text.specs.Results.{Gives};
ghost use Rattle.rtsp_text.specs.Slices.{held};
ghost use Rattle.rtsp_transport.specs.declared.fault.TextFault.TheVariants.{OutOfMemory};

use crate::address::Address;
use crate::channels::ChannelPair;
use crate::fault::TextFault;
use crate::names::{is_named, is_tcp, is_udp};
use crate::picks::Pick;
use crate::split::first_part;
use rtsp_text::{List, Text, split_once, trimmed};
use std::alloc::{AllocError, Global};

// A copy of a text. Those that most players send take no memory.
fn text_of(alloc: Global, text: &[u8]) -> Result<Text, AllocError>
    ensures { IfOk result (λ copy. copy ≡ text.now) }
{
    match text {
        b"RTP/AVP" => Ok(Text::fixed(b"RTP/AVP")),
        b"RTP/AVP/TCP" => Ok(Text::fixed(b"RTP/AVP/TCP")),
        b"unicast" => Ok(Text::fixed(b"unicast")),
        b"dest_addr" => Ok(Text::fixed(b"dest_addr")),
        b"interleaved" => Ok(Text::fixed(b"interleaved")),
        _ => Text::from_slice(alloc, text),
    }
}

/// One parameter of a specification: `name` or `name=value`.
#[derive(Drop)]
pub struct Parameter {
    pub name: Text,
    pub value: Option<Text>,
}

/// One transport specification: a protocol and its parameters, in order.
#[derive(Drop)]
pub struct Spec {
    pub protocol: Text,
    pub parameters: List<Parameter>,
}

impl Parameter {
    ghost use Rattle.rtsp_transport.specs.Names.{is_unserved};
    ghost use Rattle.rtsp_transport.specs.Parameters.{asks_more, is_play, mux_has_value};
    ghost use Rattle.rtsp_transport.specs.Split.{parts_left};
    ghost use Rattle.rtsp_transport.specs.TransportReading.{parameter_of, parameters_of};

    #[tactic(auto, unfolding(crate::specs::TransportReading::parameter_of))]
    fn read(alloc: Global, part: &[u8]) -> Result<Parameter, TextFault>
        ensures { Gives OutOfMemory result (parameter_of part.now) }
    {
        let text = trimmed(part);
        if text.is_empty() {
            return Err(TextFault::Malformed);
        }
        match split_once(text, b'=') {
            Some((name, value)) => Ok(Parameter {
                name: text_of(alloc, name)?,
                value: Some(Text::from_slice(alloc, value)?),
            }),
            None => Ok(Parameter {
                name: text_of(alloc, text)?,
                value: None,
            }),
        }
    }

    // The parameters that are left of a specification, in order. One malformed part refuses all.
    #[tactic(auto, using(crate::proofs::EachPart::reads_all, crate::proofs::EachPart::reads_more, crate::proofs::EachPart::reads_done, crate::proofs::EachPart::left_shorter))]
    fn read_each(alloc: Global, parts: Option<&[u8]>) -> Result<List<Parameter>, TextFault>
        ensures { Gives OutOfMemory result (parameters_of (parts_left 59 (held parts.entry))) }
    {
        let mut parameters = List::new(alloc);
        let mut left = parts;
        'parts: while let Some(text) = left {
            let (part, rest) = first_part(text, b';');
            parameters.push(Parameter::read(alloc, part)?)?;
            left = rest;
        }
        Ok(parameters)
    }

    // Whether the mode is PLAY, in quotes or not.
    fn is_play(&self) -> bool
        ensures { result ≡ is_play self.now.value }
    {
        match &self.value {
            Some(mode) => is_named(mode.as_bytes(), b"PLAY")
                || is_named(mode.as_bytes(), b"\"PLAY\""),
            None => false,
        }
    }

    // Whether the name is of a parameter that this server doesn't serve.
    #[tactic(auto, unfolding(crate::specs::Names::is_unserved))]
    fn is_unserved(name: &[u8]) -> bool
        ensures { result ≡ is_unserved name.now }
    {
        is_named(name, b"multicast")
            || is_named(name, b"ttl")
            || is_named(name, b"layers")
            || is_named(name, b"setup")
            || is_named(name, b"connection")
            || is_named(name, b"MIKEY")
    }

    // Whether it is RTCP-mux with a value, which that never has (RFC 7826 section 18.54).
    #[tactic(auto, unfolding(crate::specs::Parameters::mux_has_value))]
    fn mux_has_value(&self) -> bool
        ensures { result ≡ mux_has_value self.now }
    {
        is_named(self.name.as_bytes(), b"RTCP-mux") && self.value.is_some()
    }

    // Whether the parameter asks for more than this server serves.
    #[tactic(auto, unfolding(crate::specs::Parameters::asks_more))]
    fn asks_more(&self) -> bool
        ensures { result ≡ asks_more self.now }
    {
        let name = self.name.as_bytes();
        Parameter::is_unserved(name)
            || self.mux_has_value()
            || (is_named(name, b"mode") && !self.is_play())
    }
}

impl Spec {
    ghost use Rattle.std.specs.List.{list_any};
    ghost use Rattle.std.specs.Option.{option_copied};
    ghost use Rattle.rtsp_transport.specs.Fitting.{udp_fit, mux_fit, inter_fit, fit_of};
    ghost use Rattle.rtsp_transport.specs.Parameters.{asks_more, first_named, first_value, has_mux};
    ghost use Rattle.rtsp_transport.specs.TransportReading.{protocol_of, spec_of};

    #[tactic(auto, unfolding(crate::specs::TransportReading::protocol_of))]
    fn read_protocol(alloc: Global, part: &[u8]) -> Result<Text, TextFault>
        ensures { Gives OutOfMemory result (protocol_of part.now) }
    {
        let protocol = trimmed(part);
        if protocol.is_empty() {
            return Err(TextFault::Malformed);
        }
        Ok(text_of(alloc, protocol)?)
    }

    /// The specification that a text spells.
    #[tactic(auto, unfolding(crate::specs::TransportReading::spec_of))]
    pub(crate) fn read(alloc: Global, text: &[u8]) -> Result<Spec, TextFault>
        ensures { Gives OutOfMemory result (spec_of text.now) }
    {
        let (protocol, parameters) = first_part(text, b';');
        Ok(Spec {
            protocol: Spec::read_protocol(alloc, protocol)?,
            parameters: Parameter::read_each(alloc, parameters)?,
        })
    }

    // Whether one of the parameters asks for more than this server serves.
    fn asks_more(&self) -> bool
        ensures { result ≡ list_any asks_more self.now.parameters }
    {
        self.parameters.as_slice().iter().any(|p| p.asks_more())
    }

    // The first parameter of a name.
    fn first_named(&self, name: &[u8]) -> Option<&Parameter>
        ensures { option_copied result ≡ first_named name.now self.now.parameters }
    {
        let mut parameters = self.parameters.as_slice().iter();
        parameters.find(|p| is_named(p.name.as_bytes(), name))
    }

    // Whether RTP and RTCP are to share one port (RFC 5761).
    fn has_mux(&self) -> bool
        ensures { result ≡ has_mux self.now.parameters }
    {
        self.first_named(b"RTCP-mux").is_some()
    }

    // The value of the first parameter of a name.
    fn first_value(&self, name: &[u8]) -> Option<&[u8]>
        ensures { held result ≡ first_value name.now self.now.parameters }
    {
        Some(self.first_named(name)?.value.as_ref()?.as_bytes())
    }

    #[tactic(auto, unfolding(crate::specs::Fitting::udp_fit))]
    fn udp_fit(&self, peer: u32) -> Pick
        ensures { result ≡ udp_fit peer self.now.parameters }
    {
        let Some((rtp, rtcp)) = self.first_value(b"dest_addr").and_then(Address::read_pair) else {
            return Pick::Unsupported;
        };
        if rtp.is_bracketed() || rtcp.is_bracketed() {
            return Pick::Unsupported;
        }
        if !(rtp.is_allowed(peer) && rtcp.is_allowed(peer)) {
            return Pick::Prohibited;
        }
        Pick::Udp {
            rtp_port: rtp.port,
            rtcp_port: rtcp.port,
        }
    }

    #[tactic(auto, unfolding(crate::specs::Fitting::mux_fit))]
    fn mux_fit(&self, peer: u32) -> Pick
        ensures { result ≡ mux_fit peer self.now.parameters }
    {
        let Some(place) = self.first_value(b"dest_addr").and_then(Address::read_one) else {
            return Pick::Unsupported;
        };
        if place.is_bracketed() {
            return Pick::Unsupported;
        }
        if !place.is_allowed(peer) {
            return Pick::Prohibited;
        }
        Pick::Mux { port: place.port }
    }

    #[tactic(auto, unfolding(crate::specs::Fitting::inter_fit))]
    fn inter_fit(&self) -> Pick
        ensures { result ≡ inter_fit self.now.parameters }
    {
        if self.first_named(b"dest_addr").is_some() {
            return Pick::Unsupported;
        }
        match self.first_value(b"interleaved") {
            Some(text) => Pick::Inter {
                wish: ChannelPair::read(text),
            },
            None => Pick::Unsupported,
        }
    }

    /// What this specification alone comes to, for the peer of this IPv4 address.
    #[tactic(auto, unfolding(crate::specs::Fitting::fit_of))]
    pub fn fit(&self, peer: u32) -> Pick
        ensures { result ≡ fit_of peer self.now }
    {
        if self.asks_more() {
            return Pick::Unsupported;
        }
        let has_mux = self.has_mux();
        if is_udp(self.protocol.as_bytes()) {
            return if has_mux {
                self.mux_fit(peer)
            } else {
                self.udp_fit(peer)
            };
        }
        if is_tcp(self.protocol.as_bytes()) && !has_mux {
            return self.inter_fit();
        }
        Pick::Unsupported
    }
}
