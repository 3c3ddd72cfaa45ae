//! What a stream over UDP has at the server.

ghost use Rattle.std.specs.Prelude.{◌≡◌, OnOk, OnErr};
ghost use Rattle.rtsp_admit.specs.Binder.{Bound, Failed};
ghost use Rattle.rtsp_admit.specs.Steps.{ports_from, next_above, ports_step};

use crate::binder::{BindFault, Binder};
use rtsp_book::{Ask, Step};
use rtsp_record::Thing;

// A pair of ports, or one port for RTP and RTCP both (RFC 5761).
#[derive(Clone, Copy)]
pub(crate) enum UdpPorts {
    Pair,
    Port,
}

impl UdpPorts {
    // These ports, by the first of them.
    pub(crate) fn thing(self, first: u16) -> Thing
        ensures { result ≡ ports_from self first }
    {
        match self {
            UdpPorts::Pair => Thing::Pair(first),
            UdpPorts::Port => Thing::Port(first),
        }
    }

    // The number after the last of them.
    pub(crate) fn next_above(self, first: u16) -> u32
        ensures { result ≡ next_above self first }
    {
        match self {
            UdpPorts::Pair => u32::from(first) + 2,
            UdpPorts::Port => u32::from(first) + 1,
        }
    }

    // The step that holds the least free ones not below `from`.
    pub(crate) fn hold_step(self, ask: &Ask, from: u32) -> Step
        ensures { result ≡ ports_step ask.now self from }
    {
        let Ask {
            session,
            admission,
            ..
        } = *ask;
        match self {
            UdpPorts::Pair => Step::HoldPair {
                session,
                admission,
                from,
            },
            UdpPorts::Port => Step::HoldPort {
                session,
                admission,
                from,
            },
        }
    }

    pub(crate) fn bind<B: Binder>(
        self,
        binder: &mut B,
        admission: u64,
        first: u16,
    ) -> Result<(), BindFault>
        ensures ok { OnOk result (Bound B.calls admission (ports_from self first) binder.old binder.new) }
        ensures err { OnErr result (Failed B.calls admission (ports_from self first) binder.old binder.new) }
    {
        match self {
            UdpPorts::Pair => binder.bind(admission, first),
            UdpPorts::Port => binder.bind_port(admission, first),
        }
    }
}
