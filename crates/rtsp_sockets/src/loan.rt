//! Room that all connections share, and what one of them has of it.

ghost use Rattle.std.specs.Prelude.{◌≡◌, ◌≤◌, min, max, IfSome, IsTrue};
ghost use Rattle.std.specs.Bool.{OnTrue, OnFalse};

use std::alloc::{AllocError, Global};
use std::marker::Model;
use std::sync::Arc;
use std::sync::atomic::{AtomicU64, Ordering};

/// Room, in bytes, that is lent to connections which need more than each has by itself.
#[derive(Drop)]
pub struct SharedRoom {
    most: u64,
    lent: AtomicU64,
}

impl SharedRoom {
    /// So many bytes, of which none is lent.
    pub fn open(alloc: Global, most: u64) -> Result<Arc<SharedRoom>, AllocError> {
        let room = SharedRoom {
            most,
            lent: AtomicU64::new(0),
        };
        match Arc::new(alloc, room) {
            Ok(room) => Ok(room),
            Err(_) => Err(AllocError),
        }
    }

    /// How many bytes are lent. It may be a few more for a moment, while somebody is refused.
    pub fn lent(&self) -> u64 {
        self.lent.load(Ordering::SeqCst)
    }

    // Lends so many bytes, if so many are left. Whoever is refused at the same time counts too.
    fn lend(&self, bytes: u64) -> bool
        ensures { OnTrue result (bytes ≤ self.now.most) }
    {
        if bytes > self.most {
            return false;
        }
        let before = self.lent.fetch_add(bytes, Ordering::SeqCst);
        let is_lent = before <= self.most - bytes;
        if !is_lent {
            self.take_back(bytes);
        }
        is_lent
    }

    fn take_back(&self, bytes: u64) {
        self.lent.fetch_sub(bytes, Ordering::SeqCst);
    }
}

/// What a connection has of a shared room. Dropping the loan gives it back.
pub struct Loan {
    room: Arc<SharedRoom>,
    bytes: usize,
}

impl Model for Loan {
    ghost use Rattle.std.specs.Prelude.{ℕ};

    ghost Value = { ℕ };

    ghost view = { λ l. l.bytes };
}

impl Drop for Loan {
    fn drop(self) {
        let Loan { room, bytes } = self;
        room.take_back(bytes as u64);
    }
}

impl Loan {
    /// A loan of this room, of no byte yet. It takes no memory. `None` where the room has too many
    /// loans to count.
    pub fn of(room: &Arc<SharedRoom>) -> Option<Loan>
        ensures { IfSome result (λ l. l ≡ 0) }
    {
        let room = Arc::try_clone(room).ok()?;
        Some(Loan { room, bytes: 0 })
    }

    /// How many bytes are lent.
    pub fn bytes(&self) -> usize
        ensures { result ≡ self.now }
    {
        self.bytes
    }

    /// Takes what is missing to so many bytes. Whether they are lent now; if not, nothing is taken.
    pub fn cover(&mut self, bytes: usize) -> bool
        ensures covered { OnTrue result (self.new ≡ max self.old bytes) }
        ensures refused { OnFalse result (self.new ≡ self.old) }
        ensures enough { bytes ≤ self.old → IsTrue result }
    {
        if bytes <= self.bytes {
            return true;
        }
        let is_lent = self.room.lend((bytes - self.bytes) as u64);
        if is_lent {
            self.bytes = bytes;
        }
        is_lent
    }

    /// Gives back what is more than so many bytes.
    pub fn settle(&mut self, most: usize)
        ensures { self.new ≡ min self.old most }
    {
        if self.bytes > most {
            self.room.take_back((self.bytes - most) as u64);
            self.bytes = most;
        }
    }
}
