//! The keys of `[server]` beside the table's that a running server follows.

use crate::shared::Shared;
use rtsp_content::{Operation, Server};
use rtsp_log::Log;
use rtsp_threads::set_share;
use std::sync::Wait;
use std::sync::atomic::{AtomicBool, Ordering};

/// What a configuration says by these keys.
#[derive(Clone, Copy)]
pub(crate) struct FollowedKeys {
    logs_access: bool,
    is_open: bool,
    // In seconds.
    drain: u64,
    sessions_per_address: Option<u16>,
    connections_per_address: Option<u16>,
}

impl FollowedKeys {
    /// What these say, which are read of the same configuration.
    pub(crate) fn of(numbers: Server, operation: &Operation) -> FollowedKeys {
        FollowedKeys {
            logs_access: operation.access_log(),
            is_open: operation.status_open(),
            drain: operation.drain(),
            sessions_per_address: numbers.sessions_per_address,
            connections_per_address: numbers.connections_per_address,
        }
    }
}

/// What is on or off by now.
#[derive(Drop)]
pub(crate) struct Switches {
    logs_access: AtomicBool,
    is_open: AtomicBool,
}

impl Switches {
    /// As the configuration has them that the server starts with.
    pub(crate) fn new(operation: &Operation) -> Switches {
        Switches {
            logs_access: AtomicBool::new(operation.access_log()),
            is_open: AtomicBool::new(operation.status_open()),
        }
    }

    /// Whether requests have lines in this log by now.
    pub(crate) fn logs_access(&self, log: &Log) -> bool {
        log.logs_access() && self.logs_access.load(Ordering::Relaxed)
    }

    /// Whether players' addresses are shown to all by now, and not to this machine alone.
    pub(crate) fn is_status_open(&self) -> bool {
        self.is_open.load(Ordering::SeqCst)
    }
}

impl Shared {
    /// Goes by these keys from now on. Who is let in stays.
    pub(crate) fn follow<R: Wait>(&self, rt: &R, keys: FollowedKeys) {
        let Switches {
            logs_access,
            is_open,
        } = &self.switches;
        logs_access.store(keys.logs_access, Ordering::SeqCst);
        is_open.store(keys.is_open, Ordering::SeqCst);
        self.draining.allow(keys.drain);
        self.gate.set_share(rt, keys.connections_per_address);
        if let Some(places) = &self.session_shares {
            set_share(rt, places, keys.sessions_per_address);
            // The next sweep gives back what nobody wanted as long as there was no share.
            self.ends.note();
        }
    }
}
