//! By what a lane lets players in, and what is told of those whom it doesn't.

use crate::balancers::Balancers;
use crate::shared::Shared;
use rtsp_log::{Event, HeaderCause, Log};
use rtsp_metrics::Counters;
use rtsp_threads::{Gate, Refused};
use std::rt;
use std::sync::Wait;

/// By what a lane lets players in, of what the threads of a server share.
#[derive(Clone, Copy)]
pub(crate) struct Doorway<'a> {
    pub(crate) gate: &'a Gate,
    pub(crate) balancers: &'a Balancers,
    counters: &'a Counters,
    log: &'a Log,
}

impl Shared {
    /// By what players are let in.
    pub(crate) fn doorway(&self) -> Doorway<'_> {
        Doorway {
            gate: &self.gate,
            balancers: &self.balancers,
            counters: &self.counters,
            log: &self.log,
        }
    }
}

impl Doorway<'_> {
    /// A connection from this address was closed at once.
    pub(crate) fn note_refused<R: Wait + rt::Clock>(&self, rt: &R, peer: u32, why: Refused) {
        self.counters.turned_away();
        match why {
            Refused::Share => self.log.event(rt, Event::ShareSpent { peer }),
            Refused::Full => self.log.event(rt, Event::TooManyConnections),
            Refused::Over => {}
        }
    }

    /// A connection of the balancer at this address was closed, since its header was refused.
    pub(crate) fn note_header_refused<R: Wait + rt::Clock>(
        &self,
        rt: &R,
        balancer: u32,
        cause: HeaderCause,
    ) {
        self.counters.header_refused();
        self.balancers.note_refused(rt, self.log, balancer, cause);
    }

    /// A connection was closed at once, since there is no descriptor.
    pub(crate) fn note_no_descriptor<R: Wait + rt::Clock>(&self, rt: &R) {
        self.counters.turned_away();
        self.log.event(rt, Event::NoDescriptor);
    }
}
