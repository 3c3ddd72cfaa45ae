//! How many connections there are, and how many there may be.

use crate::limits::CONNECTIONS;
use crate::share_numbers::{counted_share, share_of};
use rtsp_shares::{Headcount, Refused};
use std::alloc::{AllocError, Global};
use std::sync::atomic::{AtomicBool, AtomicU64, Ordering};
use std::sync::{Mutex, Wait};

/// Counts the connections of all lanes, and of each address where it has a share of them.
#[derive(Drop)]
pub struct Gate {
    heads: Mutex<Headcount>,
    // How many may be open at once.
    most: AtomicU64,
    // How many are, as `heads` has it, for whoever doesn't wait.
    open: AtomicU64,
    is_shut: AtomicBool,
}

impl Gate {
    /// A gate through which so many connections go, or any number of them, and of each address so
    /// many at once, or any number. Those of each are counted where they have a share, or `may_change`.
    pub fn new(
        alloc: Global,
        limit: Option<u64>,
        share: Option<u16>,
        may_change: bool,
    ) -> Result<Gate, AllocError> {
        let share = counted_share(share, may_change);
        let heads = Headcount::new(alloc, limit, share, CONNECTIONS as usize)?;
        Ok(Gate {
            heads: Mutex::new(heads),
            most: AtomicU64::new(CONNECTIONS),
            open: AtomicU64::new(0),
            is_shut: AtomicBool::new(limit == Some(0)),
        })
    }

    /// At most so many connections are open at once from now on.
    pub fn allow(&self, most: u64) {
        self.most.store(most, Ordering::SeqCst);
    }

    /// Of each address so many are let in from now on, or any number, where those of each are counted. Those
    /// that are open stay, also where they are more.
    pub fn set_share<R: Wait>(&self, rt: &R, share: Option<u16>) {
        self.heads.lock(rt).set_share(share_of(share));
    }

    /// Lets a connection from this address in, where it may be served, or one of a player who isn't
    /// known yet. Each that is let in is taken leave of by `leave`. After the last that is served the
    /// gate is shut.
    pub fn enter<R: Wait>(&self, rt: &R, peer: Option<u32>) -> Result<(), Refused> {
        let most = self.most.load(Ordering::SeqCst);
        let mut heads = self.heads.lock(rt);
        let entered = match peer {
            Some(peer) => heads.enter(peer, most),
            None => heads.enter_unnamed(most),
        };
        self.open.store(heads.count(), Ordering::SeqCst);
        if heads.is_over() {
            self.shut();
        }
        entered
    }

    /// The player of a connection becomes known, which then takes a place of this address, if it has
    /// one left.
    pub fn name<R: Wait>(&self, rt: &R, peer: u32) -> Result<(), Refused> {
        let mut heads = self.heads.lock(rt);
        heads.name(peer)
    }

    /// A connection has ended that has a place of this address, or of none.
    pub fn leave<R: Wait>(&self, rt: &R, peer: Option<u32>) {
        let mut heads = self.heads.lock(rt);
        match peer {
            Some(peer) => heads.leave(peer),
            None => heads.leave_unnamed(),
        }
        self.open.store(heads.count(), Ordering::SeqCst);
    }

    /// How many connections are open.
    pub fn open_now(&self) -> u64 {
        self.open.load(Ordering::Relaxed)
    }

    /// How many may be open at once.
    pub fn most(&self) -> u64 {
        self.most.load(Ordering::Relaxed)
    }

    /// No more connections are served.
    pub fn shut(&self) {
        self.is_shut.store(true, Ordering::SeqCst);
    }

    /// Whether no more connections are served.
    pub fn is_shut(&self) -> bool {
        self.is_shut.load(Ordering::SeqCst)
    }
}
