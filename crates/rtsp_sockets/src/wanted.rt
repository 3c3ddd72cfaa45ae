//! How readers learn of the parts of files that they have to read, and of their end.

use crate::cut::Cut;
use crate::wishes::Wishes;
use std::alloc::{AllocError, Global};
use std::sync::{Condvar, Mutex, Wait};

// The parts that are to be read by whichever reader has nothing to do.
#[derive(Drop)]
pub(crate) struct Wanted {
    wishes: Mutex<Wishes>,
    rung: Condvar,
}

impl Wanted {
    // Room for so many parts that wait.
    pub(crate) fn new(alloc: Global, room: usize) -> Result<Wanted, AllocError> {
        Ok(Wanted {
            wishes: Mutex::new(Wishes::new(alloc, room)?),
            rung: Condvar::new(),
        })
    }

    // Asks for a part. Whether there was room for it.
    pub(crate) fn ask<R: Wait>(&self, rt: &R, wish: Cut) -> bool {
        let is_kept = self.wishes.lock(rt).put(wish);
        self.rung.notify_one();
        is_kept
    }

    // Waits for a part that is to be read. `None` at the end.
    pub(crate) fn next<R: Wait>(&self, rt: &R) -> Option<Cut> {
        let wishes = self.wishes.lock(rt);
        let mut wishes = self.rung.wait_while(rt, wishes, |wishes| wishes.is_quiet());
        wishes.next()
    }

    // Ends all readers.
    pub(crate) fn stop<R: Wait>(&self, rt: &R) {
        self.wishes.lock(rt).stop();
        self.rung.notify_all();
    }
}
