//! What of a connection's input is held back while the journal has no room.

use super::Client;
use crate::desk::Desk;
use crate::foresight::Foresight;
use crate::service::Service;
use crate::tools::Tools;
use crate::visiting::{Part, Visit};
use rtsp_lock::BookHandle;
use std::io::ErrorKind;
use std::rt;
use std::sync::Wait;

/// Whether what makes entries of the journal passes.
#[derive(Clone, Copy, PartialEq, Eq)]
pub(super) enum Passage {
    /// It does where there is room.
    Open,
    /// The connection is put aside until there is room.
    Aside,
    /// A piece of it passes though there is no room.
    LetThrough,
}

impl Client {
    /// How much of what has come may be read: where the journal has no room, only what makes no entries
    /// of it, but for a connection that is let through. `Err` has what the visit comes to where nothing
    /// may be read.
    pub(super) fn part_to_read<R: Wait + rt::Clock>(
        &mut self,
        service: &Service<'_, R>,
        tools: &mut Tools,
        lane: &mut BookHandle,
    ) -> Result<Part, Visit> {
        let part = if service.make_room(lane) {
            Ok(Part::ALL)
        } else if self.passage == Passage::LetThrough {
            Ok(Part::ONE_PIECE)
        } else {
            self.part_without_room(service.desk, tools)
        };
        self.passage = if part == Err(Visit::Aside) {
            Passage::Aside
        } else {
            Passage::Open
        };
        part
    }

    /// At the next visit a piece is answered, whether there is room or not.
    pub(crate) fn let_through(&mut self) {
        self.passage = Passage::LetThrough;
    }

    // What may be read of what has come while there is no room. It stays in the system's buffer, and is
    // looked at there. The end of the input, and what is broken, is found by reading.
    fn part_without_room<R: Wait + rt::Clock>(
        &mut self,
        desk: &Desk<'_, R>,
        tools: &mut Tools,
    ) -> Result<Part, Visit> {
        let piece = tools.piece.as_mut_slice();
        let come = match self.outlet.stream().peek(piece) {
            Ok(0) => return Ok(Part::ONE_PIECE),
            Ok(come) => come,
            Err(fault) => return self.part_beside_fault(fault.kind()),
        };
        // What follows a message of which a part is held isn't known.
        if !self.input.is_idle() {
            return Err(Visit::Aside);
        }
        let mut foresight = Foresight::new(desk, &mut self.handle);
        match foresight.harmless_len(piece.get(..come).unwrap_or_default()) {
            0 => Err(Visit::Aside),
            bytes => Ok(Part::of_bytes(bytes)),
        }
    }

    // What may be read where looking at what has come failed: nothing where none has, or a signal came.
    fn part_beside_fault(&mut self, kind: ErrorKind) -> Result<Part, Visit> {
        match kind {
            ErrorKind::WouldBlock => {
                self.is_readable = false;
                Err(Visit::Done)
            }
            ErrorKind::Interrupted => Err(Visit::Aside),
            _ => Ok(Part::ONE_PIECE),
        }
    }
}
