//! What a turn of a lane is made with.

ghost use Rattle.std.specs.Prelude.{◌≡◌, ⊤};

use crate::desk::Desk;
use crate::recorded::Recorded;
use crate::shared::Shared;
use rtsp_content::Table;
use rtsp_lock::BookHandle;
use rtsp_threads::{RoomLooks, ScribeBell, ask_for_room, make_room};
use std::alloc::{AllocError, Global};
use std::cell::Cell;
use std::rt;
use std::sync::Wait;

/// What a turn of a lane is made with: the server's parts, and the moment of the turn.
pub(crate) struct Service<'a, R> {
    pub(crate) rt: &'a R,
    pub(crate) alloc: Global,
    pub(crate) table: &'a Table,
    /// What answers are made and counted by.
    pub(crate) desk: &'a Desk<'a, R>,
    pub(crate) shared: &'a Shared,
    pub(crate) recorded: &'a Recorded,
    /// When the lane looks again for room in the journal, where it found none.
    pub(crate) looks: &'a Cell<RoomLooks>,
    pub(crate) now: u64,
}

impl<R> Clone for Service<'_, R> {
    ghost is_clone = { λ x y. y ≡ x };

    ghost is_infallible = { λ _. ⊤ };

    fn clone(&self) -> Result<Self, AllocError> {
        Ok(*self)
    }
}

// Not derived, since that would ask it of R.
impl<R> Copy for Service<'_, R> {}

// Keeps the journal from filling. Whether there is room for what a piece may record.
fn has_room<R: Wait + rt::Clock>(
    rt: &R,
    table: &Table,
    lane: &mut BookHandle,
    scribe: &Option<ScribeBell>,
) -> bool {
    match scribe {
        Some(scribe) => ask_for_room(rt, table, lane, scribe),
        None => make_room(rt, table, lane),
    }
}

impl<R: Wait + rt::Clock> Service<'_, R> {
    /// Keeps the journal from filling, and tells whether there is room for what a piece may record. The
    /// look for that takes the lock of all lanes: the lane looks where it may have made entries since it
    /// found room last, and where it found none it looks again a little later.
    pub(crate) fn make_room(&self, lane: &mut BookHandle) -> bool {
        let mut looks = self.looks.get();
        if !looks.is_due(self.now) {
            return false;
        }
        if !self.recorded.take() {
            return true;
        }
        let has_room = has_room(self.rt, self.table, lane, &self.shared.scribe);
        if has_room {
            looks.find();
        } else {
            self.recorded.note();
            looks.miss(self.now);
        }
        self.looks.set(looks);
        has_room
    }
}
