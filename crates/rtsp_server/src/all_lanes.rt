//! What is known of all lanes.

use crate::stopping::StopTimes;
use crossbeam_utils::CachePadded;
use mio::Waker;
use rtsp_log::{EndCause, Event, Log};
use rtsp_metrics::{AnswerCounters, Counts};
use rtsp_threads::{STANDING_LIMIT, StopBell};
use std::alloc::{AllocError, Global};
use std::rt;
use std::sync::atomic::{AtomicU64, Ordering};
use std::sync::{Arc, Mutex, Wait};
use std::time::Duration;

/// The lanes of a server: how many have begun, what they are woken by, what they have answered, and
/// until when they serve.
#[derive(Drop)]
pub(crate) struct AllLanes {
    wakers: Mutex<Vec<Waker>>,
    // What each lane counts of its answers.
    answers: Mutex<Vec<Arc<CachePadded<AnswerCounters>>>>,
    // The moment from which on no connection is waited for, the greatest while the server serves.
    stop_by: AtomicU64,
    // The moment from which on no disk is waited for.
    leave_by: AtomicU64,
    // How many lanes have begun.
    standing: AtomicU64,
}

impl AllLanes {
    /// No lane has begun.
    pub(crate) fn new(alloc: Global) -> AllLanes {
        AllLanes {
            wakers: Mutex::new(Vec::new(alloc)),
            answers: Mutex::new(Vec::new(alloc)),
            stop_by: AtomicU64::new(u64::MAX),
            leave_by: AtomicU64::new(u64::MAX),
            standing: AtomicU64::new(0),
        }
    }

    /// A lane has begun.
    pub(crate) fn note_standing(&self) {
        self.standing.fetch_add(1, Ordering::Relaxed);
    }

    /// How many lanes have begun.
    pub(crate) fn standing(&self) -> u64 {
        self.standing.load(Ordering::Relaxed)
    }

    /// Waits until so many lanes have begun, which are all. Where some haven't when they should have, these
    /// have no thread; then it waits for one that has, or until all threads end. Whether any has begun.
    pub(crate) fn wait_for_all<R: Wait + rt::Clock>(
        &self,
        rt: &R,
        all: u64,
        stop_bell: &StopBell,
        log: &Log,
    ) -> bool {
        for _ in 0..STANDING_LIMIT {
            if self.standing() >= all {
                return true;
            }
            if stop_bell.wait(rt, Duration::from_millis(1)) {
                break;
            }
        }
        if self.standing() >= all {
            return true;
        }
        log.event(rt, Event::NoThread);
        for _ in rt.forever() {
            if self.standing() > 0 || stop_bell.wait(rt, Duration::from_millis(1)) {
                break;
            }
        }
        self.standing() > 0
    }

    /// A lane is woken by this.
    pub(crate) fn add_waker<R: Wait>(&self, rt: &R, waker: Waker) -> Result<(), AllocError> {
        self.wakers.lock(rt).push(waker)?;
        Ok(())
    }

    /// Ends the waits of all lanes.
    pub(crate) fn wake<R: Wait>(&self, rt: &R) {
        let wakers = self.wakers.lock(rt);
        for waker in wakers.iter() {
            let _ = waker.wake();
        }
    }

    /// Counters for the answers of one more lane.
    pub(crate) fn answer_counters<R: Wait>(
        &self,
        rt: &R,
        alloc: Global,
    ) -> Result<Arc<CachePadded<AnswerCounters>>, AllocError> {
        let counters = Arc::new(alloc, CachePadded::new(AnswerCounters::new()))?;
        self.answers.lock(rt).push(Arc::try_clone(&counters)?)?;
        Ok(counters)
    }

    /// Adds what all lanes have answered.
    pub(crate) fn add_answers<R: Wait>(&self, rt: &R, counts: &mut Counts) {
        let answers = self.answers.lock(rt);
        for of_one in answers.iter() {
            of_one.add_to(counts);
        }
    }

    /// From these moments on no connection and no disk is waited for, unless it was an earlier one already.
    pub(crate) fn set_stop<R: Wait>(&self, rt: &R, times: StopTimes) {
        self.leave_by.fetch_min(times.leave, Ordering::SeqCst);
        self.stop_by.fetch_min(times.hang_up, Ordering::SeqCst);
        self.wake(rt);
    }

    /// Whether no disk is waited for any more at this moment.
    pub(crate) fn leaves_disks(&self, now: u64) -> bool {
        self.leave_by.load(Ordering::SeqCst) <= now
    }

    /// The moment from which on no connection is waited for, where the server is at its end.
    pub(crate) fn stop_by(&self) -> Option<u64> {
        match self.stop_by.load(Ordering::SeqCst) {
            u64::MAX => None,
            by => Some(by),
        }
    }

    /// Why sessions end whose connection is closed.
    pub(crate) fn hang_up_cause(&self) -> EndCause {
        match self.stop_by() {
            Some(_) => EndCause::Stop,
            None => EndCause::HangUp,
        }
    }

    /// Up to when a lane may answer that has time until this moment: no longer than connections are waited
    /// for.
    pub(crate) fn time_until(&self, until: u64) -> u64 {
        until.min(self.stop_by.load(Ordering::SeqCst))
    }
}
