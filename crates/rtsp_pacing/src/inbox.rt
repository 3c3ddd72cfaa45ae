//! The plays that a pacer has to hear of.

ghost use Rattle.std.specs.Prelude.{◌≡◌, ◌<◌, ◌↔◌, [], true, false, IfOk, IsTrue};
ghost use Rattle.std.specs.VecDeque.{deque_len, deque_capacity};
ghost use Rattle.rtsp_pacing.specs.Inbox.{Puts, Hears, HearsNothing, IsFull};

use crate::noted::NewPlay;
use std::alloc::{AllocError, Global};
use std::collections::VecDeque;

// What a pacer has to hear. No more plays wait than there was memory for from the beginning.
#[derive(Drop)]
pub(crate) struct Inbox {
    plays: VecDeque<NewPlay>,
    is_stopped: bool,
}

// What a pacer hears. Of several plays the one that was handed over first comes first.
#[derive(Drop)]
pub(crate) enum Heard {
    Play(NewPlay),
    Nothing,
    Stop,
}

impl Inbox {
    // Nothing to hear, and room for so many plays.
    pub(crate) fn new(alloc: Global, room: usize) -> Result<Inbox, AllocError>
        ensures plays { IfOk result (λ i. i.plays.items ≡ []) }
        ensures stopped { IfOk result (λ i. i.is_stopped ≡ false) }
        ensures room { IfOk result (λ i. deque_capacity i.plays ≡ room) }
    {
        Ok(Inbox {
            plays: VecDeque::with_capacity(alloc, room)?,
            is_stopped: false,
        })
    }

    // Puts a play behind those that wait. Whether there was room for it.
    pub(crate) fn put(&mut self, play: NewPlay) -> bool
        ensures puts { Puts self.old play self.new result }
        ensures room { IsTrue result ↔ (deque_len self.old.plays < deque_capacity self.old.plays) }
    {
        if self.plays.len() >= self.plays.capacity() {
            return false;
        }
        self.plays.push_back(play).is_ok()
    }

    // How many plays wait.
    pub(crate) fn len(&self) -> usize
        ensures { result ≡ deque_len self.now.plays }
    {
        self.plays.len()
    }

    // Whether no more plays may wait until one is heard. After the end none is, and nobody waits for it.
    pub(crate) fn is_full(&self) -> bool
        ensures { IsTrue result ↔ IsFull self.now }
    {
        self.plays.len() >= self.plays.capacity() && !self.is_stopped
    }

    // The next that there is to hear: the end before all plays.
    pub(crate) fn next(&mut self) -> Heard
        ensures { Hears self.old result self.new }
    {
        if self.is_stopped {
            return Heard::Stop;
        }
        match self.plays.pop_front() {
            Some(play) => Heard::Play(play),
            None => Heard::Nothing,
        }
    }

    pub(crate) fn is_quiet(&self) -> bool
        ensures { IsTrue result ↔ HearsNothing self.now }
    {
        self.plays.is_empty() && !self.is_stopped
    }

    pub(crate) fn stop(&mut self)
        ensures { self.new ≡ record self.old { is_stopped = true } }
    {
        self.is_stopped = true;
    }
}
