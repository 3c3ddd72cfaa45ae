//! The plays of a pacer.

ghost use Rattle.std.specs.Prelude.{◌≡◌, ◌+◌, ◌↔◌, ℕ, IfOk, IfSome, IfNone, IsSome, IsTrue, Some, None};
ghost use Rattle.slab.specs.Slab.{get};
ghost use Rattle.rtsp_pacing.specs.Plays.{HasRoom, KeepsNone, KeepsOthers, KeepsPlay, IsLinked, Turns};
ghost use Rattle.rtsp_pacing.specs.Beginning.{LeavesLatest};

use crate::desk::PacerDesk;
use crate::play::{Next, PacedPlay};
use indexmap::IndexMap;
use rtsp_lock::Numbers;
use rtsp_record::Phase;
use rtsp_sockets::Content;
use slab::Slab;
use std::alloc::{AllocError, Global};
use std::rt::Clock;
use std::sync::Wait;

// A play in the wheel, and the key of the play that was linked to its slot before it.
#[derive(Drop)]
pub(crate) struct Linked {
    pub(crate) play: PacedPlay,
    pub(crate) before: Option<usize>,
}

/// The plays of a pacer, each under a key that it keeps.
pub struct PacerPlays {
    plays: Slab<Linked>,
    // The key of the play of each session that was taken in last.
    latest: IndexMap<u64, usize>,
}

// Written out, so that whoever lets go of them makes one call, and not one for each of their parts.
impl Drop for PacerPlays {
    fn drop(self) {
        let Self {
            plays: _plays,
            latest: _latest,
        } = self;
    }
}

impl PacerPlays {
    /// No play yet. Memory for so many at once is taken here. With as many as there may be sessions a
    /// play needs none later, unless the play before it of its session is still here: that stays until
    /// its next turn, for up to a quarter of a second after it was left, or until it has said goodbye.
    pub fn open(alloc: Global, count: usize) -> Result<PacerPlays, AllocError>
        ensures room { IfOk result (λ p. HasRoom p count) }
    {
        Ok(PacerPlays {
            plays: Slab::with_capacity(alloc, count)?,
            latest: IndexMap::with_capacity(alloc, count)?,
        })
    }

    // Takes a play in, as the last of its session, and gives its key. `None` where there is no
    // memory; then the play is dropped.
    pub(crate) fn take(&mut self, play: PacedPlay) -> Option<usize>
        ensures taken { HasRoom self.old 1 → IsSome result }
        ensures kept { IfSome result (λ key. get self.new.plays key ≡ Some (record { play = play; before = None })) }
        ensures new { IfSome result (λ key. get self.old.plays key ≡ None) }
        ensures others { IfSome result (λ key. KeepsOthers self.old key self.new) }
        ensures dropped { IfNone result (KeepsNone self.old self.new) }
        ensures room { (n : ℕ) → HasRoom self.old (n + 1) → HasRoom self.new n }
    {
        let session = play.session();
        let linked = Linked { play, before: None };
        let Ok(key) = self.plays.insert(linked) else {
            return None;
        };
        if self.latest.insert(session, key).is_err() {
            self.plays.try_remove(key);
            return None;
        }
        Some(key)
    }

    // Takes the turn of the play of a key: which one is linked before it, and when its next turn is.
    pub(crate) fn turn<R: Wait + Clock, N: Numbers>(
        &mut self,
        alloc: Global,
        desk: &mut PacerDesk<'_, R, N>,
        content: &Content,
        key: usize,
    ) -> Option<(Option<usize>, Next)>
        ensures turns { IfSome result (λ turned. Turns self.old key turned.0 self.new) }
        ensures none { IfNone result (get self.old.plays key ≡ None) }
    {
        let linked = self.plays.get_mut(key)?;
        let next = linked.play.turn(alloc, desk, content);
        Some((linked.before, next))
    }

    pub(crate) fn has(&self, key: usize) -> bool
        ensures { IsTrue result ↔ IsSome (get self.now.plays key) }
    {
        self.plays.contains(key)
    }

    // Links the play of a key behind another.
    pub(crate) fn link(&mut self, key: usize, before: Option<usize>)
        ensures linked { IsSome (get self.old.plays key) → IsLinked self.new key before }
        ensures kept { KeepsPlay self.old key self.new }
        ensures others { KeepsOthers self.old key self.new }
    {
        if let Some(linked) = self.plays.get_mut(key) {
            linked.before = before;
        }
    }

    // A session began another play, in the phase `next`: the play of the session that was taken in last
    // is left. Whether that one sends nothing of what is counted for the other.
    pub(crate) fn leave(&mut self, session: u64, next: Phase) -> bool
        ensures none { KeepsNone self.old self.new }
        ensures left { LeavesLatest self.old session next self.new }
    {
        let Some(key) = self.latest.get(&session) else {
            return true;
        };
        match self.plays.get_mut(*key) {
            Some(latest) => latest.play.leave(next),
            None => true,
        }
    }

    // Tells of frames of all plays that were dropped, where it wasn't: the pacer is at its end.
    pub(crate) fn tell_rest<R: Wait + Clock, N: Numbers>(&self, desk: &mut PacerDesk<'_, R, N>) {
        for (_, linked) in self.plays.iter() {
            linked.play.tell_rest(desk);
        }
    }

    // Drops the play of a key.
    pub(crate) fn remove(&mut self, key: usize)
        ensures gone { get self.new.plays key ≡ None }
        ensures others { KeepsOthers self.old key self.new }
    {
        let Some(linked) = self.plays.try_remove(key) else {
            return;
        };
        let session = linked.play.session();
        if self.latest.get(&session) == Some(&key) {
            self.latest.swap_remove(&session);
        }
    }
}
