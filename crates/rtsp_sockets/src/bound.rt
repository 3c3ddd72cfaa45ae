//! An address that is bound.

ghost use Rattle.std.specs.Prelude.{◌≡◌};
ghost use Rattle.std.specs.Arc.{arc_value};
ghost use Rattle.rtsp_sockets.specs.Sockets.{sockets_in};

use crate::ports::PortSockets;
use std::sync::Arc;

// An address that is bound: a socket for each of its ports.
#[derive(Drop)]
pub(crate) struct Bound<const PORTS: usize> {
    pub(crate) sockets: Arc<PortSockets>,
    ghost each: { sockets_in (arc_value sockets) ≡ PORTS },
}

impl<const PORTS: usize> Bound<PORTS> {
    ghost use Rattle.std.specs.Prelude.{◌≡◌, ◌↔◌, IsTrue};
    ghost use Rattle.rtsp_sockets.specs.Slots.{port_in, IsOf};

    // The first of its ports.
    pub(crate) fn port(&self) -> u16
        ensures { result ≡ port_in self.now }
    {
        self.sockets.port
    }

    // It is this address, and bound under this admission.
    pub(crate) fn is_of(&self, admission: u64, port: u16) -> bool
        ensures { IsTrue result ↔ IsOf self.now admission port }
    {
        self.sockets.admission == admission && self.sockets.port == port
    }
}
