//! How the descriptors are dealt out that the system allows.

use crate::fault::ServerFault;
use rtsp_content::{Operation, Server, Table};
use rtsp_status::PEERS;
use rtsp_threads::{CONNECTIONS, connections_for, descriptor_limit};
use std::net;
use std::os::fd::AsRawFd;

// The descriptors of the standard streams.
const STANDARD_STREAMS: u64 = 3;

// The descriptors of a lane: what it waits with and is woken by, two of the listener, its random words,
// and a connection that is turned away.
const LANE: u64 = 6;

// The descriptors that whoever runs the server has besides: for the log, for those who look at the
// figures and for the account of what the process has used, and for a file of the journal, the next one
// and their folder. A changed file of users or of what is served is read by one that is free then.
fn kept_for(operation: &Operation) -> u64 {
    let shown = if operation.status().is_some() {
        PEERS as u64 + 2
    } else {
        0
    };
    let written = if operation.journal().is_some() { 3 } else { 0 };
    let read = u64::from(operation.watch()) + u64::from(operation.users().is_some());
    1 + shown + written + read
}

// The fault of a limit that gives none for a connection beside the pairs and so many others.
fn few_descriptors(pairs: u16, others: u64, limit: u64) -> ServerFault {
    ServerFault::FewDescriptors {
        ports: u64::from(pairs).saturating_mul(2),
        others,
        limit,
    }
}

// The fault of a limit of descriptors below what a server of these numbers needs at least.
fn limit_fault(numbers: Server, operation: &Operation) -> Option<ServerFault> {
    let limit = descriptor_limit()?;
    let others = STANDARD_STREAMS
        .saturating_add(u64::from(numbers.workers).saturating_mul(LANE))
        .saturating_add(kept_for(operation));
    match connections_for(limit, others, numbers.pairs) {
        0 => Some(few_descriptors(numbers.pairs, others, limit)),
        _ => None,
    }
}

/// The fault of a limit of descriptors below what a server of this configuration needs at least, however
/// much of its media it holds in memory, if it is.
pub fn descriptor_fault(table: &Table, operation: &Operation) -> Option<ServerFault> {
    limit_fault(table.server(), operation)
}

/// Why the system refuses what a server of this configuration opens: for want of descriptors, where there
/// are fewer than it needs.
pub(crate) fn refusal(numbers: Server, operation: &Operation) -> ServerFault {
    limit_fault(numbers, operation).unwrap_or(ServerFault::DeviceFailed)
}

/// How many descriptors there are, and what they are kept for.
#[derive(Clone, Copy)]
pub(crate) struct Descriptors {
    // `None` where the system doesn't tell.
    limit: Option<u64>,
    // For all but connections, pairs and the files of media.
    kept: u64,
    pairs: u16,
}

impl Descriptors {
    /// Those of a server that has all open but what its threads open, with so many files of media. The rest
    /// is kept for all pairs, for a connection of each lane that is turned away, for the watcher's account,
    /// and for whoever runs the server. The system gives the least number that is free, so all below are in
    /// use.
    pub(crate) fn of(
        numbers: Server,
        operation: &Operation,
        listener: &net::TcpListener,
        files: u64,
    ) -> Result<Descriptors, ServerFault> {
        let open = u64::try_from(listener.try_clone()?.as_raw_fd()).unwrap_or(0);
        let kept = open
            .saturating_sub(files)
            .saturating_add(u64::from(numbers.workers) + 1)
            .saturating_add(kept_for(operation));
        Ok(Descriptors {
            limit: descriptor_limit(),
            kept,
            pairs: numbers.pairs,
        })
    }

    /// For how many connections there is room beside so many files of media, if there is for one.
    pub(crate) fn connections(&self, files: u64) -> Option<u64> {
        let Some(limit) = self.limit else {
            return Some(CONNECTIONS);
        };
        match connections_for(limit, self.kept.saturating_add(files), self.pairs) {
            0 => None,
            connections => Some(connections),
        }
    }

    /// The fault where there is room for none beside so many files.
    pub(crate) fn fault(&self, files: u64) -> ServerFault {
        let kept = self.kept.saturating_add(files);
        few_descriptors(self.pairs, kept, self.limit.unwrap_or(0))
    }
}
