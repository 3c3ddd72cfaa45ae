//! The sessions of which the log tells that frames were dropped.

ghost use Rattle.std.specs.Prelude.{◌≡◌, ◌↔◌, ◌⊎◌, true, false, nat_eq, IsTrue, slice_get, option_copied};
ghost use Rattle.indexmap.specs.IndexSet.{contains};

use indexmap::IndexSet;
use std::alloc::Global;

// The sessions of which it was told, while they live.
#[derive(Drop)]
pub(crate) struct ToldSessions {
    sessions: IndexSet<u64>,
}

impl ToldSessions {
    // None. It takes no memory.
    pub(crate) fn new(alloc: Global) -> ToldSessions {
        ToldSessions {
            sessions: IndexSet::new(alloc),
        }
    }

    // Notes a session. Whether it wasn't noted: without memory for it, it isn't noted now either.
    pub(crate) fn note(&mut self, session: u64) -> bool
        ensures { IsTrue result ↔ (contains nat_eq self.old.sessions session ≡ false) }
    {
        if self.sessions.contains(&session) {
            return false;
        }
        let _ = self.sessions.insert(session);
        true
    }

    // How many there are.
    pub(crate) fn len(&self) -> usize {
        self.sessions.len()
    }

    // Whether one more would take memory.
    pub(crate) fn is_full(&self) -> bool {
        self.sessions.len() >= self.sessions.capacity()
    }

    // The session of a place.
    pub(crate) fn at(&self, place: usize) -> Option<u64>
        ensures { result ≡ slice_get self.now.sessions.keys place }
    {
        self.sessions.get_index(place).copied()
    }

    // Forgets the session of a place, to which the last one comes.
    pub(crate) fn forget(&mut self, place: usize) {
        self.sessions.swap_remove_index(place);
    }
}
