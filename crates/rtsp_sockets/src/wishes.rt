//! The parts of files that are to be read.

ghost use Rattle.std.specs.Prelude.{◌≡◌, ◌<◌, ◌↔◌, [], true, false, IfOk, IsTrue};
ghost use Rattle.std.specs.VecDeque.{deque_len, deque_capacity};
ghost use Rattle.rtsp_sockets.specs.Wishes.{PutsWish, TakesWish, HasNoWish};

use crate::cut::Cut;
use std::alloc::{AllocError, Global};
use std::collections::VecDeque;

// The parts that are to be read, the one that was asked for first in front: no more than there is memory
// for from the beginning.
#[derive(Drop)]
pub(crate) struct Wishes {
    waiting: VecDeque<Cut>,
    is_stopped: bool,
}

impl Wishes {
    // None, and room for so many.
    pub(crate) fn new(alloc: Global, room: usize) -> Result<Wishes, AllocError>
        ensures none { IfOk result (λ w. w.waiting.items ≡ []) }
        ensures going_on { IfOk result (λ w. w.is_stopped ≡ false) }
        ensures room { IfOk result (λ w. deque_capacity w.waiting ≡ room) }
    {
        Ok(Wishes {
            waiting: VecDeque::with_capacity(alloc, room)?,
            is_stopped: false,
        })
    }

    // Puts a part behind those that wait. Whether there was room for it.
    pub(crate) fn put(&mut self, wish: Cut) -> bool
        ensures puts { PutsWish self.old wish self.new result }
        ensures room { IsTrue result ↔ (deque_len self.old.waiting < deque_capacity self.old.waiting) }
    {
        self.waiting.len() < self.waiting.capacity() && self.waiting.push_back(wish).is_ok()
    }

    // The part that was asked for first. `None` where there is none, and from the end on.
    pub(crate) fn next(&mut self) -> Option<Cut>
        ensures { TakesWish self.old result self.new }
    {
        if self.is_stopped {
            return None;
        }
        self.waiting.pop_front()
    }

    // Whether there is nothing to do: no part to be read, and no end.
    pub(crate) fn is_quiet(&self) -> bool
        ensures { IsTrue result ↔ HasNoWish self.now }
    {
        self.waiting.is_empty() && !self.is_stopped
    }

    // Nothing is read any more.
    pub(crate) fn stop(&mut self)
        ensures { self.new ≡ record self.old { is_stopped = true } }
    {
        self.is_stopped = true;
    }
}
