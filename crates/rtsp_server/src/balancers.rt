//! The balancers whose connections begin with a header.

use rtsp_log::{Event, HeaderCause, Log};
use std::alloc::{AllocError, Global};
use std::rt;
use std::sync::Wait;
use std::sync::atomic::{AtomicBool, AtomicU64, Ordering};

// After so many connections of which none began with a header, it is told that a balancer sends none.
const HEADLESS: u64 = 10;

// A balancer, and what came of its connections.
#[derive(Drop)]
struct Balancer {
    address: u32,
    // Whether one of them began with a header.
    is_known: AtomicBool,
    // How many began with none, as long as no other did.
    headless: AtomicU64,
}

impl Balancer {
    // Counts a connection that begins with no header. Whether it is the one at which that is told.
    fn is_headless(&self) -> bool {
        if self.is_known.load(Ordering::SeqCst) {
            return false;
        }
        self.headless
            .fetch_add(1, Ordering::SeqCst)
            .saturating_add(1)
            == HEADLESS
    }
}

/// The balancers that the configuration names.
#[derive(Drop)]
pub(crate) struct Balancers {
    listed: Vec<Balancer>,
}

impl Balancers {
    /// Those at these addresses.
    pub(crate) fn open(alloc: Global, addresses: &[u32]) -> Result<Balancers, AllocError> {
        let mut listed = Vec::new(alloc);
        for address in addresses {
            listed.push(Balancer {
                address: *address,
                is_known: AtomicBool::new(false),
                headless: AtomicU64::new(0),
            })?;
        }
        Ok(Balancers { listed })
    }

    fn find(&self, address: u32) -> Option<&Balancer> {
        self.listed
            .iter()
            .find(|balancer| balancer.address == address)
    }

    /// Whether a connection from this address begins with a header.
    pub(crate) fn is_listed(&self, address: u32) -> bool {
        self.find(address).is_some()
    }

    /// A connection of the balancer at this address began with a header.
    pub(crate) fn note_header(&self, address: u32) {
        if let Some(balancer) = self.find(address) {
            balancer.is_known.store(true, Ordering::SeqCst);
        }
    }

    /// The header of a connection of this balancer was refused. Where it seems to send none at all, that
    /// is told, once.
    pub(crate) fn note_refused<R: Wait + rt::Clock>(
        &self,
        rt: &R,
        log: &Log,
        address: u32,
        cause: HeaderCause,
    ) {
        log.event(
            rt,
            Event::HeaderRefused {
                balancer: address,
                cause,
            },
        );
        match cause {
            HeaderCause::Missing | HeaderCause::Late => {
                if let Some(balancer) = self.find(address)
                    && balancer.is_headless()
                {
                    log.event(rt, Event::NoHeaders { balancer: address });
                }
            }
            HeaderCause::Malformed
            | HeaderCause::Unknown
            | HeaderCause::NotIpv4
            | HeaderCause::TooLong
            | HeaderCause::Cut => {}
        }
    }
}
