//! Parameters of a Transport header that name the ports of a client.

ghost use Rattle.std.specs.Prelude.{◌≡◌};
ghost use Rattle.rtsp_text.specs.Slices.{halves};
ghost use Rattle.rtsp_dialect.specs.ClientPort.{port_pair};

use rtsp_text::{split_once, trimmed};
use rtsp_transport::{is_named, port_of};

// Two ports with a dash between them, RTP's and RTCP's, as they are written.
#[tactic(auto, unfolding(crate::specs::ClientPort::port_pair))]
fn port_pair(text: &[u8]) -> Option<(&[u8], &[u8])>
    ensures { halves result ≡ port_pair text.now }
{
    let (rtp, rtcp) = split_once(text, b'-')?;
    port_of(rtp)?;
    port_of(rtcp)?;
    Some((rtp, rtcp))
}

/// A parameter of a specification, where it stands in the text.
#[derive(Clone, Copy)]
pub struct PartParameter<'a> {
    pub name: &'a [u8],
    pub value: Option<&'a [u8]>,
}

impl PartParameter<'_> {
    ghost use Rattle.rtsp_dialect.specs.ClientPort.{client_ports, is_client_port, is_unclear};
    ghost use Rattle.rtsp_dialect.specs.ClientPortText.{parameter_in};
    ghost use Rattle.rtsp_dialect.specs.PartParameter.{shown};

    /// The parameter that a part spells.
    #[tactic(auto, unfolding(crate::specs::ClientPortText::parameter_in))]
    pub fn read(part: &[u8]) -> PartParameter<'_>
        ensures { shown result ≡ parameter_in part.now }
    {
        let text = trimmed(part);
        match split_once(text, b'=') {
            Some((name, value)) => PartParameter {
                name,
                value: Some(value),
            },
            None => PartParameter {
                name: text,
                value: None,
            },
        }
    }

    // Whether it names ports as RTSP 1.0 does.
    fn is_client_port(&self) -> bool
        ensures { result ≡ is_client_port (shown self.now) }
    {
        is_named(self.name, b"client_port")
    }

    /// The two ports of a client_port.
    #[tactic(auto, unfolding(crate::specs::ClientPort::client_ports))]
    pub fn client_ports(&self) -> Option<(&[u8], &[u8])>
        ensures { halves result ≡ client_ports (shown self.now) }
    {
        if !self.is_client_port() {
            return None;
        }
        port_pair(self.value?)
    }

    /// Whether it is an address, in RTSP 2.0 or 1.0, or a client_port that isn't two ports.
    #[tactic(auto, unfolding(crate::specs::ClientPort::is_unclear))]
    pub fn is_unclear(&self) -> bool
        ensures { result ≡ is_unclear (shown self.now) }
    {
        is_named(self.name, b"dest_addr")
            || is_named(self.name, b"destination")
            || (self.is_client_port() && self.client_ports().is_none())
    }
}
