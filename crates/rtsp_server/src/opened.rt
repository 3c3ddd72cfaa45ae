//! What takes memory at a server's start, before its threads share it.

use crate::balancers::Balancers;
use crate::opening::Opening;
use crate::shared::Lent;
use rtsp_content::{MAX_PLACES, Operation, Server};
use rtsp_log::{BATCH_LINES, Log};
use rtsp_metrics::Audience;
use rtsp_pacing::Bells;
use rtsp_shares::{ShareTable, Watermark};
use rtsp_sockets::{Content, Contents, Decisions, PortTable};
use rtsp_threads::{FEW_LINES, Gate, LOG_LINES, open_shares};
use std::alloc::{AllocError, Global};
use std::io;
use std::sync::Mutex;

/// What threads hand to each other.
#[derive(Drop)]
pub(crate) struct Handed {
    pub(crate) contents: Contents,
    pub(crate) watermark: Watermark,
    pub(crate) lent: Lent,
    pub(crate) ports: PortTable,
    pub(crate) bells: Bells,
    pub(crate) decisions: Decisions,
}

impl Handed {
    pub(crate) fn open(alloc: Global, of: Opening<'_>, content: Content) -> io::Result<Handed> {
        let Server {
            first_port,
            pairs,
            sessions,
            workers,
            ..
        } = of.numbers;
        let lanes = usize::from(workers);
        Ok(Handed {
            contents: Contents::open(alloc, content)?,
            watermark: Watermark::new(alloc, lanes)?,
            lent: Lent::open(alloc)?,
            ports: PortTable::open(alloc, first_port, pairs)?,
            bells: Bells::new(alloc, of.pacers, sessions)?,
            decisions: Decisions::open(alloc, lanes)?,
        })
    }
}

/// By what somebody is let in.
#[derive(Drop)]
pub(crate) struct Doors {
    pub(crate) gate: Gate,
    pub(crate) balancers: Balancers,
    pub(crate) session_shares: Option<Mutex<ShareTable>>,
}

// What addresses have of the sessions, where each has at most so many, or may come to. There is room for all
// that live and for one more of each lane, and for as many whose end nobody has told yet.
fn session_shares(
    alloc: Global,
    numbers: Server,
    operation: &Operation,
) -> Result<Option<Mutex<ShareTable>>, AllocError> {
    let most = 2 * usize::from(numbers.sessions) + usize::from(numbers.workers);
    open_shares(alloc, numbers.sessions_per_address, operation.watch(), most)
}

impl Doors {
    /// So many connections are let in, or any number.
    pub(crate) fn open(
        alloc: Global,
        of: Opening<'_>,
        connections: Option<u64>,
    ) -> Result<Doors, AllocError> {
        let Opening {
            numbers,
            operation,
            ..
        } = of;
        let share = numbers.connections_per_address;
        Ok(Doors {
            gate: Gate::new(alloc, connections, share, operation.watch())?,
            balancers: Balancers::open(alloc, operation.proxy())?,
            session_shares: session_shares(alloc, numbers, operation)?,
        })
    }
}

// The log, in which lines of requests wait in batches, where there are such or may come to be.
fn open_log(alloc: Global, operation: &Operation) -> Result<Log, AllocError> {
    let may_log_access = operation.access_log() || operation.watch();
    let room = if may_log_access {
        LOG_LINES / BATCH_LINES
    } else {
        FEW_LINES
    };
    Log::new(alloc, room, may_log_access)
}

/// What is told to whoever runs the server.
#[derive(Drop)]
pub(crate) struct Telling {
    pub(crate) audience: Audience,
    pub(crate) log: Log,
}

impl Telling {
    /// Of so many presentations, or of as many as may come.
    pub(crate) fn open(
        alloc: Global,
        operation: &Operation,
        presentations: usize,
    ) -> Result<Telling, AllocError> {
        let places = if operation.watch() {
            MAX_PLACES
        } else {
            presentations
        };
        Ok(Telling {
            audience: Audience::open(alloc, places)?,
            log: open_log(alloc, operation)?,
        })
    }
}
