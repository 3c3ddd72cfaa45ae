//! What a lane answers with.

use crate::channels::Channels;
use crate::users::{CurrentUsers, SeenUsers};
use rtsp_book::Receipt;
use rtsp_pacing::NotedPlays;
use rtsp_sockets::RandomWords;
use rtsp_state::Room;
use rtsp_threads::PIECE;
use std::alloc::Global;
use std::cell::Cell;
use std::fs::File;
use std::io;
use std::rt::Files;
use std::sync::Wait;

/// What a lane answers with, for one connection after another.
pub(crate) struct Tools {
    /// What the last step made.
    pub(crate) made: Receipt,
    pub(crate) words: RandomWords,
    /// The plays that were begun and whose answers aren't written yet.
    pub(crate) plays: NotedPlays,
    /// The answers that aren't written yet.
    pub(crate) room: Room,
    /// The channels of the frames that came in a visit.
    pub(crate) heard: Cell<Channels>,
    /// What was read last.
    pub(crate) piece: Vec<u8>,
    /// Who is let through, as the lane sees it, where that isn't everybody.
    pub(crate) users: Option<SeenUsers>,
}

// Written out, as that of `Shared` is.
impl Drop for Tools {
    fn drop(self) {
        let Self {
            made: _made,
            words: _words,
            plays: _plays,
            room: _room,
            heard: _heard,
            piece: _piece,
            users: _users,
        } = self;
    }
}

impl Tools {
    pub(crate) fn open<R: Wait + Files<File = File>>(
        rt: &R,
        alloc: Global,
        users: &Option<CurrentUsers>,
    ) -> io::Result<Tools> {
        let piece = Vec::from_elem(alloc, 0, PIECE)?;
        let words = RandomWords::open(rt)?;
        Ok(Tools {
            made: Receipt::new(),
            words,
            plays: NotedPlays::new(alloc),
            room: Room::new(alloc),
            heard: Cell::new(Channels::none()),
            piece,
            users: SeenUsers::open(rt, users.as_ref())?,
        })
    }

    /// Takes the users of the moment, where they are others.
    pub(crate) fn refresh<R: Wait>(&mut self, rt: &R, users: &Option<CurrentUsers>) {
        if let (Some(seen), Some(users)) = (&mut self.users, users) {
            seen.refresh(rt, users);
        }
    }
}
