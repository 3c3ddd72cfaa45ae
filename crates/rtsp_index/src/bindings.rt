//! How many sessions are bound to each connection.

ghost use Rattle.std.specs.Prelude.{◌≡◌, ◌+◌, ◌-◌, ◌≤◌, ◌<◌, ◌^◌, ◌==◌, ℕ, IsOk, OnOk};
ghost use Rattle.std.specs.FinMap.{empty};
ghost use Rattle.indexmap.specs.IndexMap.{spare};
ghost use Rattle.rtsp_record.specs.Books.{Book, after};
ghost use Rattle.rtsp_record.specs.Sums.{one_if};
ghost use Rattle.rtsp_record.specs.declared.holdings.Whole.{Whole};
ghost use Rattle.rtsp_index.specs.Following.{Follows, FollowsSome, is_bind};

use indexmap::IndexMap;
use rtsp_record::Record;
use std::alloc::{AllocError, Global};

/// How many sessions are bound to each connection. One to which no session is bound takes no place.
#[derive(Drop)]
pub(crate) struct Bindings {
    counts: IndexMap<u64, u32>,
}

impl Bindings {
    ghost use Rattle.rtsp_index.specs.Bound.{bound_on, AreBindingsOf};

    /// No session is bound.
    pub(crate) fn new(alloc: Global) -> Self
        ensures { AreBindingsOf empty result }
    {
        Bindings {
            counts: IndexMap::new(alloc),
        }
    }

    /// Takes memory for so many more connections.
    pub(crate) fn reserve(&mut self, additional: usize) -> Result<(), AllocError>
        ensures same { (b : Book) → AreBindingsOf b self.old → AreBindingsOf b self.new }
        ensures room { OnOk result (additional ≤ spare self.new.counts) }
        ensures succeeds { additional ≡ 0 → IsOk result }
    {
        self.counts.reserve(additional)
    }

    /// How many sessions are bound to the connection.
    pub(crate) fn count(&self, conn: u64) -> u32
        ensures { result ≡ bound_on self.now conn }
    {
        match self.counts.get(&conn) {
            Some(count) => *count,
            None => 0,
        }
    }

    // One more is bound to the connection.
    fn bind(&mut self, conn: u64)
        requires few { bound_on self.old conn < 2 ^ 32 - 1 }
        requires room { 0 < spare self.old.counts }
        ensures bound { (c : ℕ) → bound_on self.new c ≡ bound_on self.old c + one_if (conn == c) }
        ensures room { spare self.old.counts ≤ spare self.new.counts + 1 }
    {
        let count = self.count(conn) + 1;
        match self.counts.insert(conn, count) {
            Ok(_) => {}
            Err(_) => unreachable!(),
        }
    }

    // One less is bound to the connection.
    fn unbind(&mut self, conn: u64)
        requires { 0 < bound_on self.old conn }
        ensures bound { (c : ℕ) → bound_on self.new c + one_if (conn == c) ≡ bound_on self.old c }
        ensures room { spare self.old.counts ≤ spare self.new.counts }
    {
        let left = self.count(conn) - 1;
        if left == 0 {
            self.counts.swap_remove(&conn);
        } else if let Some(count) = self.counts.get_mut(&conn) {
            *count = left;
        }
    }

    /// Counts the binding that the record makes or ends.
    pub(crate) fn follow(&mut self, change: &Record)
        requires follows { FollowsSome change.now (λ b. AreBindingsOf b self.old) }
        requires room { one_if (is_bind change.now) ≤ spare self.old.counts }
        ensures follows { (w : Whole) (b : Book) → Follows w b change.now → AreBindingsOf b self.old → AreBindingsOf (after b change.now) self.new }
        ensures room { spare self.old.counts ≤ spare self.new.counts + one_if (is_bind change.now) }
    {
        match *change {
            Record::Bind(binding) => self.bind(binding.conn),
            Record::Unbind(binding) => self.unbind(binding.conn),
            _ => {}
        }
    }
}
