//! What a lane has under its care, and which of it is to be visited.

ghost use Rattle.std.specs.Prelude.{◌≡◌, ◌≢◌, ◌+◌, ◌≤◌, ◌<◌, ◌↔◌, [], None, Some, ℕ, length, IfSome, IfNone, OnSome, IsTrue};
ghost use Rattle.std.specs.Bool.{OnTrue, OnFalse};
ghost use Rattle.std.specs.Option.{option_copied_mut};
ghost use Rattle.std.specs.Borrow.{sem};
ghost use Rattle.slab.specs.Slab.{ContainsKey, SameValues, Updates, get, slab_len};
ghost use Rattle.rtsp_roster.specs.Lines.{TakesOut};
ghost use Rattle.rtsp_roster.specs.Rosters.{IsQueued, KeepsLines, KeepsRest, NextIs, Queues};
ghost use Rattle.rtsp_roster.specs.Lends.{lends_get, lends_value};

use crate::line::Line;
use slab::Slab;
use std::alloc::Global;
use std::marker::Model;

/// How many of which was told are visited in a row, where others are to be visited again.
pub const IN_A_ROW: u32 = 64;

/// What a lane has under its care, each under a key that it keeps, and which of it is to be visited:
/// those of which was told since they were visited, and those that come again since a visit left some
/// work. Those of which was told come first, but at most `IN_A_ROW` of them where others come again.
#[derive(Drop)]
pub struct Roster<T> {
    living: Slab<T>,
    // The keys that are to be visited, each once in all, and only of what lives. There is room for all.
    fresh: Line,
    again: Line,
    // How many of which was told were visited since one came again, or `IN_A_ROW` of more.
    passed: u32,
}

impl<T> Model for Roster<T> {
    ghost use Rattle.rtsp_roster.specs.Rosters.{Rosters, IsRoster, rosters_code};

    ghost Value = { Rosters T };

    ghost coded = { rosters_code T.code };

    ghost view = { λ r. record { living = r.living; fresh = r.fresh; again = r.again; passed = r.passed } };

    ghost invariant = { λ r. IsRoster r.living r.fresh r.again };
}

impl<T> Roster<T> {
    /// Nothing lives yet.
    pub fn new(alloc: Global) -> Roster<T>
        ensures living { (key : ℕ) → get result.living key ≡ None }
        ensures none { slab_len result.living ≡ 0 }
        ensures lines { (key : ℕ) → IsQueued result key → ⊥ }
    {
        Roster {
            living: Slab::new(alloc),
            fresh: Line::new(alloc),
            again: Line::new(alloc),
            passed: 0,
        }
    }

    /// How many live.
    pub fn len(&self) -> usize
        ensures { result ≡ slab_len self.now.living }
    {
        self.living.len()
    }

    /// A number above the keys of all that live.
    pub fn keys(&self) -> usize
        ensures { (key : ℕ) → ContainsKey self.now.living key → key < result }
    {
        self.fresh.room()
    }

    /// How many are to be visited.
    pub fn ready(&self) -> usize
        ensures { result ≡ length self.now.fresh.keys + length self.now.again.keys }
    {
        self.fresh.len().saturating_add(self.again.len())
    }

    fn value_mut(&mut self, key: usize) -> &mut T
        requires { ContainsKey self.old.living key }
        ensures* writes_back { sem 𝓛 (lends_value T.row self.entry key result) }
        ensures value { get self.old.living key ≡ Some result.now }
    {
        &mut self.living[key]
    }

    /// What lives under a key.
    pub fn get_mut(&mut self, key: usize) -> Option<&mut T>
        ensures* writes_back { sem 𝓛 (lends_get T.row self.entry key result) }
        ensures value { option_copied_mut result ≡ get self.old.living key }
    {
        if self.living.contains(key) {
            Some(self.value_mut(key))
        } else {
            None
        }
    }

    /// Takes one in, for which there is room in the queue then, and gives its key. `None` where there is
    /// no memory.
    pub fn place(&mut self, value: T) -> Option<usize>
    where
        T: Drop,
        ensures placed { IfSome result (λ key. Updates self.old.living self.new.living key (Some value)) }
        ensures new { IfSome result (λ key. get self.old.living key ≡ None) }
        ensures none { IfNone result (SameValues self.old.living self.new.living) }
        ensures len { OnSome result (slab_len self.new.living ≡ slab_len self.old.living + 1) }
        ensures lines { KeepsLines self.old self.new }
    {
        let key = self.living.vacant_key();
        if key == usize::MAX || !self.fresh.make_room(key + 1) || !self.again.make_room(key + 1) {
            return None;
        }
        self.living.insert(value).ok()
    }

    /// Takes out what lives under a key, which leaves the queue too.
    pub fn remove(&mut self, key: usize) -> Option<T>
        ensures value { result ≡ get self.old.living key }
        ensures gone { Updates self.old.living self.new.living key None }
        ensures len { OnSome result (slab_len self.new.living + 1 ≡ slab_len self.old.living) }
        ensures fresh { TakesOut self.old.fresh key self.new.fresh }
        ensures again { TakesOut self.old.again key self.new.again }
        ensures passed { self.new.passed ≡ self.old.passed }
    {
        self.fresh.remove(key);
        self.again.remove(key);
        self.living.try_remove(key)
    }

    // Whether the next comes out of the line of those that come again.
    fn is_agains(&self) -> bool
        ensures some { OnTrue result (self.now.again.keys ≢ []) }
        ensures turn { OnTrue result (self.now.passed < IN_A_ROW → self.now.fresh.keys ≡ []) }
        ensures none { OnFalse result (self.now.fresh.keys ≡ [] → self.now.again.keys ≡ []) }
        ensures other { OnFalse result (IN_A_ROW ≤ self.now.passed → self.now.again.keys ≡ []) }
    {
        if self.again.len() == 0 {
            return false;
        }
        self.passed >= IN_A_ROW || self.fresh.len() == 0
    }

    /// The key of the next that is to be visited, which leaves the queue.
    pub fn next_ready(&mut self) -> Option<usize>
        ensures { NextIs self.old result self.new }
    {
        if self.is_agains() {
            self.passed = 0;
            return self.again.take();
        }
        self.passed = self.passed.saturating_add(1).min(IN_A_ROW);
        self.fresh.take()
    }

    // Whether a key is in the queue.
    fn is_queued(&self, key: usize) -> bool
        ensures { IsTrue result ↔ IsQueued self.now key }
    {
        self.fresh.is_in(key) || self.again.is_in(key)
    }

    /// The system has told of one, which is to be visited: it comes into the queue unless it is there, or
    /// lives no more.
    pub fn note(&mut self, key: usize)
        ensures fresh { Queues self.old self.old.fresh key self.new.fresh }
        ensures rest { KeepsRest self.old self.new }
        ensures again { self.new.again ≡ self.old.again }
    {
        if self.living.contains(key) && !self.is_queued(key) {
            self.fresh.put(key);
        }
    }

    /// One has more to do, and is to be visited again: it comes into the queue unless it is there, or
    /// lives no more.
    pub fn queue(&mut self, key: usize)
        ensures again { Queues self.old self.old.again key self.new.again }
        ensures rest { KeepsRest self.old self.new }
        ensures fresh { self.new.fresh ≡ self.old.fresh }
    {
        if self.living.contains(key) && !self.is_queued(key) {
            self.again.put(key);
        }
    }
}
