//! What is known of the parts of files that plays want, each in a space of its own.

ghost use Rattle.std.specs.Prelude.{◌≡◌, ◌≤◌, ◌+◌, ◌↔◌, IsTrue};
ghost use Rattle.rtsp_sockets.specs.Files.{StandAt};

use crate::cut::Cut;
use crate::kept::{Blank, Kept};
use crate::read_at::ReadAt;
use lru::LruCache;
use std::alloc::{AllocError, Global};
use std::cell::Cell;
use std::num::NonZeroUsize;

// The most parts of which something is known: two for each track of each session that there may be.
const SPACES: usize = 65_536;

// For how many milliseconds a part is kept that no play has asked for.
const UNUSED_FOR: u64 = 2_000;

// After how many milliseconds a part that couldn't be read is tried again. A play that waits for it looks
// sooner, and learns of the fault.
const TRIED_AFTER: u64 = 400;

// What is known of a part.
#[derive(Drop)]
pub(crate) enum State<F: ReadAt> {
    // It is to be read, or is being read.
    Asked,
    Kept(Kept<F>),
    // It can't be read, at least not as a whole.
    Unreadable,
}

// A part of which something is known.
#[derive(Drop)]
pub(crate) struct Space<F: ReadAt> {
    // When a play asked for it last; of what can't be read, when that was found.
    asked_at: Cell<u64>,
    state: State<F>,
}

// What came of asking for a unit that is in a part.
#[derive(Clone, Copy, PartialEq, Eq)]
pub(crate) enum Found {
    Copied,
    // It is to be read, or is being read.
    Awaited,
    // Nothing is known of it.
    Unknown,
    Unreadable,
}

// The parts of which something is known, in the order of their last use.
#[derive(Drop)]
pub(crate) struct Spaces<F: ReadAt> {
    spaces: LruCache<Cut, Space<F>>,
}

// Whether a moment was so many milliseconds before another at most.
fn is_within(moment: u64, now: u64, time: u64) -> bool
    ensures { IsTrue result ↔ (now ≤ moment + time) }
{
    now.saturating_sub(moment) <= time
}

impl<F: ReadAt> Space<F> {
    fn new(state: State<F>, now: u64) -> Space<F>
        ensures { result.state ≡ state }
    {
        Space {
            asked_at: Cell::new(now),
            state,
        }
    }

    // Whether it is as if nothing were known: what couldn't be read is tried again.
    fn is_over(&self, now: u64) -> bool {
        matches!(self.state, State::Unreadable) && !is_within(self.asked_at.get(), now, TRIED_AFTER)
    }

    // A play asks for it.
    fn note_asked(&self, now: u64) {
        if !matches!(self.state, State::Unreadable) {
            self.asked_at.set(now);
        }
    }

    // The memory of what was kept, where something was.
    pub(crate) fn into_blank(self) -> Option<Blank> {
        let Space { asked_at: _, state } = self;
        match state {
            State::Kept(kept) => Some(kept.into_blank()),
            State::Asked | State::Unreadable => None,
        }
    }

    // Whether it was kept of a file that was closed since then, and is open by another number now.
    fn is_stale(&self, file: &F) -> bool {
        match &self.state {
            State::Kept(kept) => !kept.is_of(file),
            State::Asked | State::Unreadable => false,
        }
    }

    // Copies the bytes at a place of a file, where they are here.
    fn copy(&self, file: &F, at: u64, out: &mut [u8]) -> Found
        ensures copied { result ≡ Found.Copied → StandAt (F.text (F.number file.now)) at out.new }
        ensures others { (result ≡ Found.Copied → ⊥) → out.new ≡ out.old }
    {
        match &self.state {
            State::Asked => Found::Awaited,
            State::Kept(kept) => match kept.copy(file, at, out) {
                Ok(()) => Found::Copied,
                Err(_) => Found::Unreadable,
            },
            State::Unreadable => Found::Unreadable,
        }
    }
}

impl<F: ReadAt> Spaces<F> {
    pub(crate) fn new(alloc: Global) -> Result<Spaces<F>, AllocError> {
        let most = NonZeroUsize::new(SPACES).ok_or(AllocError)?;
        Ok(Spaces {
            spaces: LruCache::sparse(alloc, most)?,
        })
    }

    // The space of a part, which a play asks for.
    fn space(&mut self, cut: Cut, now: u64) -> Option<&Space<F>> {
        self.spaces.promote(&cut);
        let space = self.spaces.peek(&cut)?;
        if space.is_over(now) {
            return None;
        }
        space.note_asked(now);
        Some(space)
    }

    // Copies the bytes at a place of a file that is in this part, where they are kept. What was kept of it
    // before it was closed and opened again is forgotten.
    pub(crate) fn copy(&mut self, cut: Cut, file: &F, at: u64, out: &mut [u8], now: u64) -> Found
        ensures copied { result ≡ Found.Copied → StandAt (F.text (F.number file.now)) at out.new }
        ensures others { (result ≡ Found.Copied → ⊥) → out.new ≡ out.old }
    {
        let Some(space) = self.space(cut, now) else {
            return Found::Unknown;
        };
        if space.is_stale(file) {
            self.forget(cut);
            return Found::Unknown;
        }
        space.copy(file, at, out)
    }

    // Notes that a part is asked for. Whether it is to be read, and nobody has asked for it yet.
    pub(crate) fn ask(&mut self, cut: Cut, now: u64) -> bool {
        if self.space(cut, now).is_some() {
            return false;
        }
        self.put(cut, State::Asked, now)
    }

    // Notes what is known of a part. Whether there is memory for that.
    pub(crate) fn put(&mut self, cut: Cut, state: State<F>, now: u64) -> bool {
        self.spaces.put(cut, Space::new(state, now)).is_ok()
    }

    // Whether a part is to be read, and a play waits for it. What no play waits for any more is
    // forgotten.
    pub(crate) fn is_awaited(&mut self, cut: Cut, now: u64) -> bool {
        let Some(space) = self.spaces.peek(&cut) else {
            return false;
        };
        if !matches!(space.state, State::Asked) {
            return false;
        }
        if is_within(space.asked_at.get(), now, UNUSED_FOR) {
            return true;
        }
        self.spaces.pop(&cut);
        false
    }

    // Nothing is known of a part any more.
    pub(crate) fn forget(&mut self, cut: Cut) {
        self.spaces.pop(&cut);
    }

    // Takes out what was asked for the longest ago.
    pub(crate) fn take_oldest(&mut self) -> Option<Space<F>> {
        let (_, space) = self.spaces.pop_lru()?;
        Some(space)
    }

    // The same, where that is long ago.
    pub(crate) fn take_unused(&mut self, now: u64) -> Option<Space<F>> {
        let (_, oldest) = self.spaces.peek_lru()?;
        if is_within(oldest.asked_at.get(), now, UNUSED_FOR) {
            return None;
        }
        self.take_oldest()
    }
}
