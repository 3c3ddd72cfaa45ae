//! How many sessions live, how many records would end them, and how many are bound to each
//! connection.

ghost use Rattle.std.specs.Prelude.{◌≡◌, ◌+◌, ◌≤◌, ◌<◌, ◌↔◌, IsTrue, IsOk, OnOk};
ghost use Rattle.std.specs.FinMap.{empty};
ghost use Rattle.indexmap.specs.IndexMap.{spare};
ghost use Rattle.rtsp_record.specs.Books.{Book, after};
ghost use Rattle.rtsp_record.specs.Sums.{one_if, amount, living, owed};
ghost use Rattle.rtsp_record.specs.declared.holdings.Whole.{Whole};
ghost use Rattle.rtsp_sessions.specs.Plain.{is_open};
ghost use Rattle.rtsp_index.specs.Following.{Follows, FollowsSome, is_bind};

use crate::bindings::Bindings;
use rtsp_record::Record;
use std::alloc::{AllocError, Global};

/// What is counted of a book.
#[derive(Drop)]
pub(crate) struct Counts {
    living: usize,
    owed: usize,
    bindings: Bindings,
}

// 1 where the record opens a session, else 0.
fn opens(change: &Record) -> usize
    ensures value { result ≡ one_if (is_open change.now) }
    ensures small { result ≤ 1 }
{
    match *change {
        Record::Open(_) => 1,
        _ => 0,
    }
}

impl Counts {
    ghost use Rattle.rtsp_index.specs.Bound.{bindings_of};
    ghost use Rattle.rtsp_index.specs.Counted.{AreCountsOf};

    /// The counts of the book of no session.
    pub(crate) fn new(alloc: Global) -> Self
        ensures { AreCountsOf empty result }
    {
        Counts {
            living: 0,
            owed: 0,
            bindings: Bindings::new(alloc),
        }
    }

    /// Takes memory for bindings of so many more connections.
    pub(crate) fn reserve(&mut self, additional: usize) -> Result<(), AllocError>
        ensures same { (b : Book) → AreCountsOf b self.old → AreCountsOf b self.new }
        ensures room { OnOk result (additional ≤ spare self.new.bindings.counts) }
        ensures succeeds { additional ≡ 0 → IsOk result }
    {
        self.bindings.reserve(additional)
    }

    /// How many sessions live.
    pub(crate) fn living(&self) -> usize
        ensures { result ≡ self.now.living }
    {
        self.living
    }

    /// How many records would end all sessions.
    pub(crate) fn owed(&self) -> usize
        ensures { result ≡ self.now.owed }
    {
        self.owed
    }

    /// Whether a session is bound to the connection.
    pub(crate) fn has_bound(&self, conn: u64) -> bool
        ensures { (b : Book) → AreCountsOf b self.now → (IsTrue result ↔ (0 < amount (bindings_of conn) b)) }
    {
        self.bindings.count(conn) > 0
    }

    /// Counts what the record brings and takes.
    pub(crate) fn follow(&mut self, change: &Record)
        requires follows { FollowsSome change.now (λ b. AreCountsOf b self.old) }
        requires room { one_if (is_bind change.now) ≤ spare self.old.bindings.counts }
        ensures follows { (w : Whole) (b : Book) → Follows w b change.now → AreCountsOf b self.old → AreCountsOf (after b change.now) self.new }
        ensures room { spare self.old.bindings.counts ≤ spare self.new.bindings.counts + one_if (is_bind change.now) }
    {
        let back = change.inverse();
        self.living = self.living + opens(change) - opens(&back);
        self.owed = self.owed + change.newly_owed() - back.newly_owed();
        self.bindings.follow(change);
    }
}
