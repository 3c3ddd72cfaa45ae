//! A lane of sockets.

use crate::clients::Clients;
use crate::desk::Desk;
use crate::lane_lines::LaneLines;
use crate::recorded::Recorded;
use crate::service::Service;
use crate::shared::Shared;
use crossbeam_utils::CachePadded;
use rtsp_lock::BookHandle;
use rtsp_metrics::AnswerCounters;
use rtsp_sockets::{Content, Seen};
use rtsp_threads::{Lane, LaneTurn, RoomLooks};
use std::alloc::Global;
use std::cell::Cell;
use std::fs::File;
use std::net::Net;
use std::rt::Files;
use std::sync::{Arc, Wait};
use std::{io, net, rt};

/// A lane of sockets: connections of one listener, which other lanes accept from too, each answered
/// when the system tells that something has come.
#[derive(Drop)]
pub struct SocketLane {
    shared: Arc<Shared>,
    answers: Arc<CachePadded<AnswerCounters>>,
    lines: LaneLines,
    recorded: Recorded,
    looks: Cell<RoomLooks>,
    clients: Clients,
    // What is served, as the lane sees it.
    seen: Seen,
    // Whether it has begun.
    stands: bool,
}

impl SocketLane {
    /// A lane without connections, which accepts from this listener.
    pub(crate) fn open<R: Wait + Net + Files<File = File>>(
        rt: &R,
        alloc: Global,
        shared: &Arc<Shared>,
        number: usize,
        listener: net::TcpListener,
    ) -> io::Result<SocketLane> {
        let answers = shared.lanes.answer_counters(rt, alloc)?;
        let shared = Arc::try_clone(shared)?;
        let clients = Clients::open(rt, alloc, &shared, number, listener)?;
        let Some(seen) = Seen::open(rt, &shared.contents) else {
            return Err(io::Error::from(io::ErrorKind::OutOfMemory));
        };
        Ok(SocketLane {
            shared,
            answers,
            lines: LaneLines::new(alloc),
            recorded: Recorded::new(),
            looks: Cell::new(RoomLooks::new()),
            clients,
            seen,
            stands: false,
        })
    }
}

// What answers are made by in a turn, of parts that live as long.
fn desk_of<'a, R>(
    rt: &'a R,
    alloc: Global,
    content: &'a Content,
    shared: &'a Shared,
    answers: &'a AnswerCounters,
    lines: &'a LaneLines,
    recorded: &'a Recorded,
    lane: usize,
    now: u64,
) -> Desk<'a, R> {
    Desk {
        rt,
        alloc,
        table: &content.table,
        allowed: content.allowed(),
        teller: shared.end_teller(),
        ends: &shared.ends,
        session_shares: &shared.session_shares,
        decisions: shared.decisions.of(lane),
        answers,
        lines,
        recorded,
        now,
    }
}

// What a turn is made with.
fn service_of<'a, R>(
    desk: &'a Desk<'a, R>,
    shared: &'a Shared,
    looks: &'a Cell<RoomLooks>,
) -> Service<'a, R> {
    Service {
        rt: desk.rt,
        alloc: desk.alloc,
        table: desk.table,
        desk,
        shared,
        recorded: desk.recorded,
        looks,
        now: desk.now,
    }
}

impl Lane for SocketLane {
    fn turn<R: Wait + Net<Listener = net::TcpListener, Stream = net::TcpStream> + rt::Clock>(
        &mut self,
        rt: &R,
        alloc: Global,
        handle: &mut BookHandle,
    ) -> LaneTurn {
        if !self.stands {
            self.stands = true;
            self.shared.lanes.note_standing();
        }
        let SocketLane {
            shared,
            answers,
            lines,
            recorded,
            looks,
            clients,
            seen,
            ..
        } = self;
        let told = clients.wait(rt, &shared.lanes, lines, looks.get());
        let now = clients.begin_turn(shared.now(rt));
        clients.tools.refresh(rt, &shared.users);
        seen.refresh(rt, &shared.contents);
        let desk = desk_of(
            rt,
            alloc,
            seen.content(),
            &**shared,
            &***answers,
            lines,
            recorded,
            clients.number,
            now,
        );
        let service = service_of(&desk, &**shared, looks);
        clients.serve(&service, handle, told)
    }
}
