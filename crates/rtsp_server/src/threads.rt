//! The threads of a server: what each does until the server ends.

use crate::fault::ServerFault;
use crate::figures::Figures;
use crate::growing::Growth;
use crate::growing_users::UsersGrowth;
use crate::readers::{leave_readers, stop_readers};
use crate::server::Announce;
use crate::shared::{Shared, unbinder};
use crate::shown::Shown;
use crate::socket_lane::SocketLane;
use crate::stopping::{StopTimes, begin_stop, watch_signals};
use crate::sweeper::run_sweeper;
use crate::writing_journal::leave_scribe;
use rtsp_chronicle::{Doubt, JournalFolder};
use rtsp_content::Server;
use rtsp_lock::BookHandle;
use rtsp_log::{Event, LogWriter, SleepPause, StderrSink};
use rtsp_metrics::History;
use rtsp_pacing::{PacerParts, PacerPlays, PacerRoom, pace};
use rtsp_status::{Halt, StatusServer};
use rtsp_threads::{OwnStatus, OwnUsage, PoolEnd, StopBell, end_expired, run_pool};
use std::alloc::Global;
use std::fs::File;
use std::io::{Eprint, Write};
use std::net::{Net, SocketAddr};
use std::rt::Files;
use std::sync::{Arc, Wait};
use std::thread::Threads;
use std::{net, rt, thread};

// What all threads of a server are lent.
pub(crate) struct Parts {
    // The numbers that it began with.
    pub(crate) numbers: Server,
    // Where the journal's files are made, where that is wanted.
    pub(crate) folder: Option<JournalFolder>,
    pub(crate) shared: Arc<Shared>,
    // The bell of the thread that looks for signals, rung once nothing is waited for any more.
    pub(crate) over: StopBell,
}

// Written out, as that of `Shared` is.
impl Drop for Parts {
    fn drop(self) {
        let Self {
            numbers: _,
            folder: _folder,
            shared: _shared,
            over: _over,
        } = self;
    }
}

// What the threads that serve begin with.
pub(crate) struct Start {
    // The handle of the book that the lanes have, and those of the sweeper and of the thread that writes
    // the journal, until each has taken its own.
    pub(crate) handle: BookHandle,
    pub(crate) others: Vec<BookHandle>,
    pub(crate) lanes: Vec<SocketLane>,
    pub(crate) pacers: Vec<OnePacer>,
    pub(crate) growth: Growth,
    // What takes a changed file of users up, where there is one.
    pub(crate) users: Option<UsersGrowth>,
    // Whether a thread that reads ahead couldn't be made.
    pub(crate) is_short: bool,
}

// Written out, as that of `Shared` is.
impl Drop for Start {
    fn drop(self) {
        let Self {
            handle: _handle,
            others: _others,
            lanes: _lanes,
            pacers: _pacers,
            growth: _growth,
            users: _users,
            is_short: _,
        } = self;
    }
}

// What the threads for whoever runs the server begin with: where signals are seen, and where the figures
// are shown, with a handle of the book for these; and what is left once the threads that serve are over.
#[derive(Drop)]
pub(crate) struct Beside {
    pub(crate) signals: Option<OwnStatus>,
    pub(crate) status: Option<StatusServer>,
    pub(crate) usage: Option<OwnUsage>,
    pub(crate) handle: BookHandle,
    // The handle of the book that is left at the end.
    pub(crate) last: BookHandle,
}

// What is left once the threads that serve are over: the handle of the book, and what isn't known to be in
// the journal's file, where a write to it was left behind.
#[derive(Drop)]
pub(crate) struct Served {
    pub(crate) pool: PoolEnd,
    pub(crate) last: BookHandle,
    pub(crate) left: Option<Doubt>,
}

// A pacer: which of them it is, its plays, of which there are none yet, and its handle of the book.
#[derive(Drop)]
pub(crate) struct OnePacer {
    pub(crate) number: usize,
    pub(crate) plays: PacerPlays,
    pub(crate) room: PacerRoom,
    pub(crate) handle: BookHandle,
}

// The body of the thread that shows the figures, where that is wanted. It is lent no more than it needs.
fn show<R: Wait + Net + rt::Clock>(
    rt: &R,
    alloc: Global,
    numbers: Server,
    shown: Shown<'_>,
    halt: &Halt,
    status: Option<StatusServer>,
    usage: Option<OwnUsage>,
    handle: BookHandle,
) {
    if let Some(mut status) = status {
        let figures = Figures {
            rt,
            shown,
            numbers,
            handle,
            usage,
            history: History::new(alloc),
            nothing: Vec::new(alloc),
        };
        status.run(rt, figures, halt);
    }
}

impl Parts {
    // The body of the thread that writes the log.
    fn log<R: Wait + Net + rt::Clock, E: Write + Drop>(&self, rt: &R, alloc: Global, errors: E) {
        if let Ok(sink) = StderrSink::new(rt, alloc, errors) {
            LogWriter::new(alloc, sink, SleepPause::new(rt)).run(rt, &self.shared.log);
        }
    }

    // The body of a pacer's thread.
    fn pace<R: Wait + rt::Clock>(&self, rt: &R, alloc: Global, pacer: OnePacer) {
        let OnePacer {
            number,
            plays,
            room,
            handle,
        } = pacer;
        let BookHandle { lock, seat } = handle;
        let Parts {
            numbers,
            folder: _,
            shared,
            over: _,
        } = self;
        if let Some(bell) = shared.bells.as_slice().get(number) {
            let parts = PacerParts {
                lock: &lock,
                uplink: numbers.uplink,
                ports: &shared.ports,
                outlets: &shared.outlets,
                contents: &shared.contents,
                bell,
                decisions: &shared.decisions,
                counters: &shared.counters,
                audience: &shared.audience,
                log: &shared.log,
                begun: shared.begun,
            };
            pace(rt, alloc, parts, seat, plays, room);
        }
    }

    // The body of the sweeper's thread.
    fn sweep<R: Wait + Net + rt::Clock>(&self, rt: &R, handle: BookHandle) {
        run_sweeper(rt, handle, &self.shared);
    }

    // The body of the thread that looks for signals. Where the system doesn't tell of them, it is said.
    fn watch<R: Wait + rt::Clock>(&self, rt: &R, status: Option<OwnStatus>) {
        match status {
            Some(status) => watch_signals(rt, &status, self),
            None => self.shared.log.event(rt, Event::NoSignals),
        }
    }

    // Ends the threads beside the lanes, but for that of the log and that which writes the journal.
    fn stop<R: Wait>(&self, rt: &R) {
        stop_readers(rt, &self.shared.contents);
        self.shared.stop(rt);
    }

    // Ends the threads that there are, since one is missing.
    fn stop_for_want_of_threads<R: Wait + rt::Clock>(&self, rt: &R) {
        self.shared.log.event(rt, Event::NoThread);
        self.stop(rt);
    }

    // Tells where the server listens, once a lane stands. Where none comes to, the pool knows why.
    fn announce<A: Announce, R: Wait + Net + rt::Clock>(
        &self,
        rt: &R,
        mut announcer: A,
        address: SocketAddr,
    ) -> Result<(), ServerFault> {
        let Shared {
            gate,
            lanes,
            stop_bell,
            log,
            ..
        } = &*self.shared;
        if !lanes.wait_for_all(rt, u64::from(self.numbers.workers), stop_bell, log) {
            return Ok(());
        }
        if !announcer.announce(address) {
            let now = self.shared.now(rt);
            begin_stop(rt, gate, lanes, StopTimes::at_the_beginning(now));
            return Err(ServerFault::DeviceFailed);
        }
        let presentations = self.shared.content_counts.read().presentations;
        log.event(rt, Event::Started { presentations });
        Ok(())
    }

    // Ends all sessions once no thread serves any more, and has the rest of the journal written. Reads and
    // writes that disks hold up are left behind: what then isn't known to be in the journal's file.
    fn finish<R: Wait + Net + rt::Clock + Files<File = File>>(
        &self,
        rt: &R,
        alloc: Global,
        last: &mut BookHandle,
    ) -> Option<Doubt> {
        let teller = self.shared.end_teller();
        let mut binder = unbinder(rt, &self.shared.ports);
        end_expired(rt, last, &mut binder, u64::MAX);
        teller.tell_stopped(rt);
        if let Some(bell) = &self.shared.scribe {
            bell.stop(rt);
        }
        leave_readers(rt, alloc, teller);
        leave_scribe(rt, &self.shared.scribe, &self.folder, teller)
    }

    // Runs all threads beside that of the log, until the lanes are over, and then ends all sessions by the
    // last handle of the book, which is given back.
    fn run_logged<
        A: Announce,
        R: Threads
            + Wait
            + Net<Listener = net::TcpListener, Stream = net::TcpStream>
            + rt::Clock
            + Files<File = File>
            + Sync,
    >(
        &self,
        rt: &R,
        alloc: Global,
        start: Start,
        beside: Beside,
        announcer: A,
        address: SocketAddr,
    ) -> Result<Served, ServerFault> {
        thread::scope(thread::scope_env(), rt, move |scope| {
            let Beside {
                signals,
                status,
                usage,
                handle,
                mut last,
            } = beside;
            let (numbers, shown, halt) = (self.numbers, self.shared.shown(), &self.shared.halt);
            let watches = scope.spawn(move || self.watch(rt, signals)).is_ok();
            let shows = scope
                .spawn(move || show(rt, alloc, numbers, shown, halt, status, usage, handle))
                .is_ok();
            if !(watches && shows) {
                self.stop_for_want_of_threads(rt);
                self.over.ring(rt);
                return Err(ServerFault::NoThread);
            }
            let served = start.serve(self, rt, alloc, announcer, address);
            let left = self.finish(rt, alloc, &mut last);
            self.shared.log.event(rt, Event::Stopped);
            self.over.ring(rt);
            Ok(Served {
                pool: served?,
                last,
                left,
            })
        })
    }

    // Runs all threads, that of the log until all others are over.
    pub(crate) fn run<
        A: Announce,
        E: Write + Drop + Send,
        R: Threads
            + Wait
            + Net<Listener = net::TcpListener, Stream = net::TcpStream>
            + rt::Clock
            + Files<File = File>
            + Eprint
            + Sync,
    >(
        &self,
        rt: &R,
        alloc: Global,
        errors: E,
        start: Start,
        beside: Beside,
        announcer: A,
        address: SocketAddr,
    ) -> Result<Served, ServerFault> {
        thread::scope(thread::scope_env(), rt, move |scope| {
            let logs = scope.spawn(move || self.log(rt, alloc, errors)).is_ok();
            if !logs {
                self.stop_for_want_of_threads(rt);
                return Err(ServerFault::NoThread);
            }
            let ended = self.run_logged(rt, alloc, start, beside, announcer, address);
            self.shared.log.close();
            ended
        })
    }

    // Runs the lanes until they are over, and then ends the threads beside them.
    fn run_lanes<
        R: Threads
            + Wait
            + Net<Listener = net::TcpListener, Stream = net::TcpStream>
            + rt::Clock
            + Sync,
    >(
        &self,
        rt: &R,
        alloc: Global,
        own: BookHandle,
        lanes: Vec<SocketLane>,
    ) -> Result<PoolEnd, ServerFault> {
        let count = lanes.len() as u64;
        let BookHandle { lock, mut seat } = own;
        let end = run_pool(rt, alloc, lanes, &lock, &mut seat);
        self.stop(rt);
        if end.idle < count {
            Ok(end)
        } else {
            Err(ServerFault::NoThread)
        }
    }
}

impl Start {
    // Runs the threads that serve, until the lanes are over.
    fn serve<
        A: Announce,
        R: Threads
            + Wait
            + Net<Listener = net::TcpListener, Stream = net::TcpStream>
            + rt::Clock
            + Files<File = File>
            + Sync,
    >(
        self,
        parts: &Parts,
        rt: &R,
        alloc: Global,
        announcer: A,
        address: SocketAddr,
    ) -> Result<PoolEnd, ServerFault> {
        let Self {
            handle,
            mut others,
            lanes,
            pacers,
            mut growth,
            users,
            is_short,
        } = self;
        let Some(sweeper) = others.pop() else {
            parts.stop_for_want_of_threads(rt);
            return Err(ServerFault::NoThread);
        };
        thread::scope(thread::scope_env(), rt, move |scope| {
            let mut missing = u64::from(is_short);
            for pacer in pacers {
                if scope.spawn(move || parts.pace(rt, alloc, pacer)).is_err() {
                    missing = missing.saturating_add(1);
                }
            }
            if scope.spawn(move || parts.sweep(rt, sweeper)).is_err() || missing > 0 {
                parts.stop_for_want_of_threads(rt);
                return Err(ServerFault::NoThread);
            }
            let Ok(pool) = scope.spawn(move || parts.run_lanes(rt, alloc, handle, lanes)) else {
                parts.stop_for_want_of_threads(rt);
                return Err(ServerFault::NoThread);
            };
            let told = parts.announce(rt, announcer, address);
            parts.attend(rt, &mut growth, users);
            let ended = pool.join(rt);
            told?;
            ended
        })
    }
}
