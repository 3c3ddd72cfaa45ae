//! A connection of a balancer comes by the address of its player.

use super::Client;
use crate::doorway::Doorway;
use crate::naming::{Look, Naming, look_for_header};
use crate::service::Service;
use crate::tools::Tools;
use crate::visiting::Visit;
use rtsp_log::HeaderCause;
use rtsp_proxy::Origin;
use std::net::Ipv4Addr;
use std::rt;
use std::sync::Wait;

// The address that packets over UDP come from, where it is known as one. The player connected to the
// balancer's.
fn told_source(host: Ipv4Addr) -> Option<u32> {
    if host.is_unspecified() {
        None
    } else {
        Some(host.to_bits())
    }
}

impl Client {
    /// Reads the header where one is awaited. What comes of the visit where the player isn't known then.
    pub(super) fn take_name<R: Wait + rt::Clock>(
        &mut self,
        service: &Service<'_, R>,
        tools: &mut Tools,
    ) -> Option<Visit> {
        let Naming::Awaited(_) = self.naming else {
            return None;
        };
        let doorway = service.shared.doorway();
        let piece = tools.piece.as_mut_slice();
        match look_for_header(self.outlet.stream(), piece, self.is_ending) {
            Look::Found(origin) => self.take_origin(service.rt, doorway, origin),
            Look::Waits => {
                self.is_readable = false;
                Some(Visit::Done)
            }
            Look::Refused(cause) => Some(self.refuse_header(service.rt, doorway, cause)),
            Look::Gone => Some(Visit::Ended),
        }
    }

    // The header is read: the connection goes on as that of whom it names, where its address has a place
    // left.
    fn take_origin<R: Wait + rt::Clock>(
        &mut self,
        rt: &R,
        doorway: Doorway<'_>,
        origin: Origin,
    ) -> Option<Visit> {
        doorway.balancers.note_header(self.asker.peer);
        let Origin::Player(peer, _) = origin else {
            self.naming = Naming::Own;
            return None;
        };
        if let Err(why) = doorway.gate.name(rt, peer) {
            doorway.note_refused(rt, peer, why);
            return Some(Visit::Ended);
        }
        self.asker.peer = peer;
        self.asker.source = told_source(self.host);
        self.naming = Naming::Named;
        None
    }

    fn refuse_header<R: Wait + rt::Clock>(
        &mut self,
        rt: &R,
        doorway: Doorway<'_>,
        cause: HeaderCause,
    ) -> Visit {
        doorway.note_header_refused(rt, self.asker.peer, cause);
        Visit::Ended
    }

    /// The connection ends since its time is over.
    pub(super) fn end_overdue<R: Wait + rt::Clock>(
        &mut self,
        rt: &R,
        doorway: Doorway<'_>,
    ) -> Visit {
        match self.naming {
            Naming::Awaited(_) => self.refuse_header(rt, doorway, HeaderCause::Late),
            Naming::Named | Naming::Own => Visit::Ended,
        }
    }
}
