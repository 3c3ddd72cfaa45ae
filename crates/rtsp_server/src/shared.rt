//! What the threads of a server share.

use crate::all_lanes::AllLanes;
use crate::balancers::Balancers;
use crate::content_counts::ContentCounts;
use crate::draining::Draining;
use crate::end_lines::EndLines;
use crate::end_note::EndNote;
use crate::errands::Errands;
use crate::following::Switches;
use crate::opened::{Doors, Handed, Telling};
use crate::opening::Opening;
use crate::owners::Owners;
use crate::unread::HELD_IN_ALL;
use crate::users::CurrentUsers;
use mio::net::TcpListener;
use rtsp_content::Operation;
use rtsp_log::{Log, moment};
use rtsp_metrics::{Audience, Counters};
use rtsp_pacing::Bells;
use rtsp_shares::{ShareTable, Watermark};
use rtsp_sockets::{
    Content, Contents, Decisions, LENT_IN_ALL, Outlets, PortBinder, PortTable, SharedRoom,
};
use rtsp_status::Halt;
use rtsp_threads::{Gate, ScribeBell, StopBell, end_place};
use std::alloc::{AllocError, Global};
use std::net::Ipv4Addr;
use std::sync::atomic::AtomicU64;
use std::sync::{Arc, Mutex, Wait};
use std::time::Instant;
use std::{io, rt};

/// The memory that is lent to all connections together.
#[derive(Drop)]
pub(crate) struct Lent {
    /// For frames that wait.
    pub(crate) frames: Arc<SharedRoom>,
    /// For messages that aren't whole.
    pub(crate) unread: Arc<SharedRoom>,
}

impl Lent {
    pub(crate) fn open(alloc: Global) -> Result<Lent, AllocError> {
        Ok(Lent {
            frames: SharedRoom::open(alloc, LENT_IN_ALL)?,
            unread: SharedRoom::open(alloc, HELD_IN_ALL)?,
        })
    }
}

/// What the threads of a server share beside the book.
pub(crate) struct Shared {
    pub(crate) listener: TcpListener,
    pub(crate) gate: Gate,
    /// Those whose connections begin with a header.
    pub(crate) balancers: Balancers,
    /// Who is let through, where that isn't everybody.
    pub(crate) users: Option<CurrentUsers>,
    /// Which of them each session is of.
    pub(crate) owners: Owners,
    /// What addresses have of the sessions, where each has a share of them, or may come to have one.
    pub(crate) session_shares: Option<Mutex<ShareTable>>,
    pub(crate) outlets: Outlets,
    pub(crate) lent: Lent,
    /// What is served, and what is told of that.
    pub(crate) contents: Contents,
    pub(crate) content_counts: ContentCounts,
    /// What another thread does while that changes.
    pub(crate) errands: Errands,
    pub(crate) ports: PortTable,
    /// The pacers', by which they learn of plays.
    pub(crate) bells: Bells,
    /// The sweeper's.
    pub(crate) stop_bell: StopBell,
    /// That of the thread that writes the journal to files, where one does.
    pub(crate) scribe: Option<ScribeBell>,
    /// Ends the thread that shows the figures.
    pub(crate) halt: Halt,
    /// What is counted for whoever runs the server.
    pub(crate) counters: Counters,
    /// Who watches what.
    pub(crate) audience: Audience,
    /// What is told to whoever runs the server.
    pub(crate) log: Log,
    pub(crate) switches: Switches,
    pub(crate) end_lines: EndLines,
    /// From when on moments are counted, and when that was, in milliseconds since 1970.
    pub(crate) begun: Instant,
    pub(crate) started: u64,
    /// How far the lanes have read, so that connections which were silent up to then are over.
    pub(crate) watermark: Mutex<Watermark>,
    pub(crate) ends: EndNote,
    pub(crate) draining: Draining,
    /// When a sweep saw last that the journal is written, where it is to be.
    pub(crate) written_at: AtomicU64,
    pub(crate) lanes: AllLanes,
    pub(crate) decisions: Decisions,
}

// Written out, so that whoever lets go of it makes one call, and not one for each of its parts.
impl Drop for Shared {
    fn drop(self) {
        let Self {
            listener: _listener,
            gate: _gate,
            balancers: _balancers,
            users: _users,
            owners: _owners,
            session_shares: _session_shares,
            outlets: _outlets,
            lent: _lent,
            contents: _contents,
            content_counts: _content_counts,
            errands: _errands,
            ports: _ports,
            bells: _bells,
            stop_bell: _stop_bell,
            scribe: _scribe,
            halt: _halt,
            counters: _counters,
            audience: _audience,
            log: _log,
            switches: _switches,
            end_lines: _end_lines,
            begun: _,
            started: _,
            watermark: _watermark,
            ends: _ends,
            draining: _draining,
            written_at: _written_at,
            lanes: _lanes,
            decisions: _decisions,
        } = self;
    }
}

// The bell of the thread that writes the journal to files, where one does.
fn scribe_bell(operation: &Operation) -> Option<ScribeBell> {
    let files = operation.journal()?;
    Some(ScribeBell::new(files.sync()))
}

/// How many milliseconds have passed since a moment, or 0 where the system can't tell.
pub(crate) fn since<R: rt::Clock>(rt: &R, begun: Instant) -> u64 {
    match begun.elapsed(rt) {
        Ok(elapsed) => u64::try_from(elapsed.as_millis()).unwrap_or(u64::MAX),
        Err(_) => 0,
    }
}

/// A binder that unbinds what sessions leave, and binds nothing.
pub(crate) fn unbinder<'a, R>(rt: &'a R, ports: &'a PortTable) -> PortBinder<'a, R> {
    PortBinder::new(rt, ports, Ipv4Addr::UNSPECIFIED)
}

/// A session has ended: the place that its address had for it is given back.
pub(crate) fn give_place_back<R: Wait>(rt: &R, places: &Option<Mutex<ShareTable>>, session: u64) {
    if let Some(places) = places {
        end_place(rt, places, session);
    }
}

impl Shared {
    /// What the threads of this server share, which serves so many connections of this listener, or any
    /// number.
    pub(crate) fn open<R: rt::Clock>(
        rt: &R,
        alloc: Global,
        of: Opening<'_>,
        content: Content,
        listener: TcpListener,
        connections: Option<u64>,
        users: Option<CurrentUsers>,
    ) -> io::Result<Shared> {
        let operation = of.operation;
        let begun = Instant::now(rt)?;
        let presentations = content.table.presentations().len();
        let handed = Handed::open(alloc, of, content)?;
        let doors = Doors::open(alloc, of, connections)?;
        let Telling { audience, log } = Telling::open(alloc, operation, presentations)?;
        let Handed {
            contents,
            watermark,
            lent,
            ports,
            bells,
            decisions,
        } = handed;
        let Doors {
            gate,
            balancers,
            session_shares,
        } = doors;
        Ok(Shared {
            listener,
            gate,
            balancers,
            users,
            owners: Owners::new(alloc),
            session_shares,
            outlets: Outlets::new(alloc),
            lent,
            contents,
            content_counts: ContentCounts::new(presentations as u64),
            errands: Errands::new(),
            ports,
            bells,
            stop_bell: StopBell::new(),
            scribe: scribe_bell(operation),
            halt: Halt::new(),
            counters: Counters::new(),
            audience,
            log,
            switches: Switches::new(operation),
            end_lines: EndLines::new(alloc),
            begun,
            started: moment(rt),
            watermark: Mutex::new(watermark),
            ends: EndNote::new(),
            draining: Draining::new(operation.drain()),
            written_at: AtomicU64::new(0),
            lanes: AllLanes::new(alloc),
            decisions,
        })
    }

    /// The present moment, in milliseconds since the beginning, or 0 where the system can't tell.
    pub(crate) fn now<R: rt::Clock>(&self, rt: &R) -> u64 {
        since(rt, self.begun)
    }

    /// Ends the threads beside the lanes, but for that of the log and those that disks hold up.
    pub(crate) fn stop<R: Wait>(&self, rt: &R) {
        self.bells.stop(rt);
        self.stop_bell.ring(rt);
        self.errands.leave(rt);
        self.halt.halt();
        if let Some(scribe) = &self.scribe {
            scribe.files.leave(rt);
        }
    }
}
