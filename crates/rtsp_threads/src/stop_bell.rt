//! How a thread that works from time to time is told to stop.

use std::sync::{Condvar, Mutex, Wait};
use std::time::{Duration, Instant};
use std::{rt, thread};

/// Wakes a thread that waits, and tells it to stop.
#[derive(Drop)]
pub struct StopBell {
    is_rung: Mutex<bool>,
    rung: Condvar,
}

impl StopBell {
    pub fn new() -> StopBell {
        StopBell {
            is_rung: Mutex::new(false),
            rung: Condvar::new(),
        }
    }

    /// Tells the thread to stop.
    pub fn ring<R: Wait>(&self, rt: &R) {
        *self.is_rung.lock(rt) = true;
        self.rung.notify_all();
    }

    /// Waits for so long. Whether the thread is to stop. Where the system can't tell the time, a wait
    /// would end at once, so it sleeps.
    pub fn wait<R: Wait + rt::Clock>(&self, rt: &R, time: Duration) -> bool {
        if Instant::now(rt).is_err() {
            thread::sleep(rt, time);
        }
        let is_rung = self.is_rung.lock(rt);
        let (is_rung, _) = self
            .rung
            .wait_timeout_while(rt, is_rung, time, |is_rung| !*is_rung);
        *is_rung
    }
}
