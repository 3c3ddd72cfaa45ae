//! What the first thread has another one do while a configuration is taken up, since a disk may hold it up.

use crate::readers::start_readers;
use crate::shared::Shared;
use crate::watched_file::read_all;
use rtsp_sockets::{Longer, MediaFault, Reader};
use std::alloc::Global;
use std::fs::File;
use std::sync::{Arc, Condvar, Mutex, Wait};
use std::thread::Threads;
use std::{mem, rt, thread};

/// What is to be done.
#[derive(Drop)]
pub(crate) enum Errand {
    /// Read the configuration.
    Read(File),
    /// Read what is held in memory of new media.
    Hold(Longer),
    /// Start the threads that read a further disk ahead.
    Start(Vec<Reader>),
}

/// What came of it.
#[derive(Drop)]
pub(crate) enum Outcome {
    /// The text, where the file could be read.
    Read(Option<Vec<u8>>),
    Held(Result<Longer, MediaFault>),
    /// Whether all threads could be made.
    Started(bool),
}

// What lies between the two threads.
#[derive(Drop)]
enum Desk {
    Empty,
    Asked(Errand),
    UnderWay,
    Done(Outcome),
    // Nothing is to be done any more.
    Left,
}

impl Desk {
    // Whether the thread has nothing to do but wait.
    fn is_quiet(&self) -> bool {
        !matches!(self, Desk::Asked(_) | Desk::Left)
    }
}

/// What the first thread asks for, and what came of it: one errand at a time.
#[derive(Drop)]
pub(crate) struct Errands {
    desk: Mutex<Desk>,
    rung: Condvar,
}

impl Errands {
    /// Nothing is asked for.
    pub(crate) fn new() -> Errands {
        Errands {
            desk: Mutex::new(Desk::Empty),
            rung: Condvar::new(),
        }
    }

    // Puts this on the desk, unless the thread is to end.
    fn put<R: Wait>(&self, rt: &R, what: Desk) {
        let mut desk = self.desk.lock(rt);
        if !matches!(*desk, Desk::Left) {
            *desk = what;
        }
    }

    /// This is to be done, where nothing else is under way.
    pub(crate) fn ask<R: Wait>(&self, rt: &R, errand: Errand) {
        self.put(rt, Desk::Asked(errand));
        self.rung.notify_all();
    }

    /// What came of what was asked for, once it is done.
    pub(crate) fn outcome<R: Wait>(&self, rt: &R) -> Option<Outcome> {
        let mut desk = self.desk.lock(rt);
        match mem::replace(&mut *desk, Desk::Empty) {
            Desk::Done(outcome) => Some(outcome),
            other => {
                *desk = other;
                None
            }
        }
    }

    /// Ends the thread, once it has done what it is at.
    pub(crate) fn leave<R: Wait>(&self, rt: &R) {
        self.put(rt, Desk::Left);
        self.rung.notify_all();
    }

    // Waits for what is to be done, which is under way from then on. Nothing at the end.
    fn next<R: Wait>(&self, rt: &R) -> Option<Errand> {
        let desk = self.desk.lock(rt);
        let mut desk = self.rung.wait_while(rt, desk, |desk| desk.is_quiet());
        match mem::replace(&mut *desk, Desk::UnderWay) {
            Desk::Asked(errand) => Some(errand),
            other => {
                *desk = other;
                None
            }
        }
    }

    fn end<R: Wait>(&self, rt: &R, outcome: Outcome) {
        self.put(rt, Desk::Done(outcome));
    }
}

// Holds media in memory.
fn held(mut media: Longer) -> Result<Longer, MediaFault> {
    media.hold()?;
    Ok(media)
}

// Does what is asked for.
fn outcome_of<R: Threads + Wait + rt::Clock + Copy + Send + 'static>(
    rt: &R,
    alloc: Global,
    shared: &Arc<Shared>,
    errand: Errand,
) -> Outcome {
    match errand {
        Errand::Read(file) => Outcome::Read(read_all(alloc, &file)),
        Errand::Hold(media) => Outcome::Held(held(media)),
        Errand::Start(readers) => Outcome::Started(start_readers(rt, shared, readers)),
    }
}

// The body of the thread.
fn run<R: Threads + Wait + rt::Clock + Copy + Send + 'static>(
    rt: &R,
    alloc: Global,
    shared: &Arc<Shared>,
) {
    for _ in rt.forever() {
        let Some(errand) = shared.errands.next(rt) else {
            break;
        };
        shared
            .errands
            .end(rt, outcome_of(rt, alloc, shared, errand));
    }
}

/// Starts the thread that does errands. Whether it could be made. Nobody joins it, since a disk may hold it
/// up for longer than the server lives, so it has its own share of what it needs.
pub(crate) fn start_errands<R: Threads + Wait + rt::Clock + Copy + Send + 'static>(
    rt: &R,
    alloc: Global,
    shared: &Arc<Shared>,
) -> bool {
    let Ok(shared) = Arc::try_clone(shared) else {
        return false;
    };
    let own = *rt;
    thread::spawn(rt, move || run(&own, alloc, &shared)).is_ok()
}
