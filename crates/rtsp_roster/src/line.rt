//! A line of keys, each in it once at most.

ghost use Rattle.std.specs.Prelude.{◌≡◌, ◌≤◌, ◌<◌, ◌↔◌, ◌^◌, [], Some, length, slice_get, IsTrue, IfSome, IfNone};
ghost use Rattle.std.specs.Bool.{OnTrue};
ghost use Rattle.rtsp_roster.specs.Lines.{IsIn, Puts, TakesFirst, TakesOut, times};

use std::alloc::Global;
use std::collections::VecDeque;
use std::marker::Model;

/// Keys in a line, each once at most. There is room in it for all keys that are less than a number.
#[derive(Drop)]
pub struct Line {
    keys: VecDeque<usize>,
    // By key, whether it is in the line.
    holds: Vec<bool>,
}

impl Model for Line {
    ghost use Rattle.std.specs.Prelude.{◌≤◌, length};
    ghost use Rattle.std.specs.VecDeque.{deque_capacity};
    ghost use Rattle.rtsp_roster.specs.Lines.{Keys, IsLine};

    ghost Value = { Keys };

    ghost view = { λ l. record { keys = l.keys.items; room = length l.holds.items } };

    ghost invariant = { λ l. IsLine l.keys.items l.holds.items × (length l.holds.items ≤ deque_capacity l.keys) };
}

// Where a key is among others, if it is there.
fn place_of(keys: &VecDeque<usize>, key: usize) -> Option<usize>
    ensures there { IfSome result (λ at. slice_get keys.now.items at ≡ Some key) }
    ensures none { IfNone result (times key keys.now.items ≡ 0) }
{
    for at in 0..keys.len() {
        if keys[at] == key {
            return Some(at);
        }
    }
    None
}

impl Line {
    /// No key, and room for none.
    pub fn new(alloc: Global) -> Line
        ensures { result ≡ record { keys = []; room = 0 } }
    {
        Line {
            keys: VecDeque::new(alloc),
            holds: Vec::new(alloc),
        }
    }

    /// How many keys are in the line.
    pub fn len(&self) -> usize
        ensures count { result ≡ length self.now.keys }
        ensures fits { result < 2 ^ 63 }
    {
        self.keys.len()
    }

    /// The keys that are less than this have room.
    pub fn room(&self) -> usize
        ensures { result ≡ self.now.room }
    {
        self.holds.len()
    }

    /// Whether a key is in the line.
    pub fn is_in(&self, key: usize) -> bool
        ensures { IsTrue result ↔ IsIn key self.now.keys }
    {
        self.holds.get(key) == Some(&true)
    }

    /// Makes room for the keys that are less than a number. Whether there is.
    pub fn make_room(&mut self, room: usize) -> bool
        ensures keys { self.new.keys ≡ self.old.keys }
        ensures more { self.old.room ≤ self.new.room }
        ensures enough { OnTrue result (room ≤ self.new.room) }
    {
        let more = room.saturating_sub(self.keys.len());
        if self.keys.reserve(more).is_err() {
            return false;
        }
        for _count in self.holds.len()..room {
            if self.holds.push(false).is_err() {
                return false;
            }
        }
        true
    }

    /// Puts a key that has room behind the others, unless it is there.
    #[tactic(auto, using(crate::proofs::Lining::came))]
    pub fn put(&mut self, key: usize)
        ensures { Puts self.old key self.new }
    {
        if key < self.room() && !self.is_in(key) {
            self.holds[key] = true;
            self.keys.push_back_reserved(key);
        }
    }

    /// Takes the first key out.
    pub fn take(&mut self) -> Option<usize>
        ensures { TakesFirst self.old result self.new }
    {
        let key = self.keys.pop_front()?;
        self.holds[key] = false;
        Some(key)
    }

    /// Takes a key out, wherever it is. Where it is, it takes time by how many keys stand before it.
    pub fn remove(&mut self, key: usize)
        ensures { TakesOut self.old key self.new }
    {
        if self.is_in(key)
            && let Some(at) = place_of(&self.keys, key)
        {
            self.keys.remove(at);
            self.holds[key] = false;
        }
    }
}
