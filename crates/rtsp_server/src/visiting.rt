//! A visit to a connection: what has come is read, answered and written.

use crate::answering::Front;
use crate::desk::Desk;
use crate::writing::AnswerWriter;
use rtsp_engine::{Connection, PieceAnswerer, PieceReader, VisitEnd, visit};
use rtsp_sockets::{Outlet, RunningClock};
use rtsp_state::Room;
use rtsp_threads::{PIECE, PIECES, TimedReader};
use std::net::Net;
use std::rt;
use std::sync::{Arc, Wait};

/// What comes of a visit to a connection.
#[derive(Clone, Copy, PartialEq, Eq)]
pub(crate) enum Visit {
    /// Nothing is left to be done until the system tells of it.
    Done,
    /// There may be more to read.
    More,
    /// There may be, but its pacer has a crowd of plays to hear of first.
    Held,
    /// What has come isn't read until the journal has room.
    Aside,
    /// The connection has ended.
    Ended,
}

/// How much of a connection's input is read in a visit.
#[derive(Clone, Copy, PartialEq, Eq)]
pub(crate) struct Part {
    pieces: usize,
    // Of each piece.
    bytes: usize,
}

impl Part {
    /// As much as a visit may read.
    pub(crate) const ALL: Part = Part {
        pieces: PIECES,
        bytes: PIECE,
    };

    pub(crate) const ONE_PIECE: Part = Part {
        pieces: 1,
        bytes: PIECE,
    };

    /// No more than so many bytes, at most those of a piece.
    pub(crate) fn of_bytes(bytes: usize) -> Part {
        Part { pieces: 1, bytes }
    }
}

// What came of reading a connection.
#[derive(Clone, Copy)]
pub(crate) struct Read {
    pub(crate) end: VisitEnd,
    // Whether some of what was put last waits.
    pub(crate) is_kept: bool,
}

// How a visit ended, where it gave up reading since its time was over: there may be more.
fn timed_end(end: VisitEnd, is_late: bool) -> VisitEnd {
    match end {
        VisitEnd::Waits if is_late => VisitEnd::More,
        end => end,
    }
}

// Reads a part of what is there, until a moment, has it answered by this one, and puts the answers into
// the outlet.
pub(crate) fn visit_by<R: Wait + Net + rt::Clock, A: PieceAnswerer>(
    desk: &Desk<'_, R>,
    outlet: &Arc<Outlet>,
    answerer: &mut A,
    input: &mut Connection,
    room: &mut Room,
    piece: &mut [u8],
    part: Part,
    reads_all: bool,
    until: u64,
) -> Read {
    let clock = RunningClock::new(desk.rt, desk.teller.begun);
    let pieces = PieceReader::new(outlet.stream());
    let mut reader = TimedReader::new(clock, pieces, until);
    let mut writer = AnswerWriter::new(desk.rt, outlet, desk.now);
    let bytes = part.bytes.min(piece.len());
    let end = visit(
        desk.alloc,
        answerer,
        input,
        &mut reader,
        &mut writer,
        room,
        &mut piece[..bytes],
        part.pieces,
        reads_all,
    );
    Read {
        end: timed_end(end, reader.is_late()),
        is_kept: writer.is_kept(),
    }
}

impl<R: Wait + Net + rt::Clock> Front<'_, R> {
    // Reads a part of what is there, until a moment, has it answered, and puts the answers into the
    // outlet.
    pub(crate) fn visit(
        &mut self,
        input: &mut Connection,
        room: &mut Room,
        piece: &mut [u8],
        part: Part,
        reads_all: bool,
        until: u64,
    ) -> Read {
        let (desk, outlet) = (self.service.desk, self.outlet);
        visit_by(
            desk, outlet, self, input, room, piece, part, reads_all, until,
        )
    }
}
