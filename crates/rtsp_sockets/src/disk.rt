//! The disks on which files are, each with readers of its own.

ghost use Rattle.std.specs.Prelude.{◌≡◌, ◌<◌, ◌↔◌, IfOk, IfSome, IsTrue};

use crate::cut::Cut;
use crate::wanted::Wanted;
use std::alloc::{AllocError, Global};
use std::sync::Wait;
use std::sync::atomic::{AtomicUsize, Ordering};

/// How many threads read ahead of each disk, so that a part which that holds up for long doesn't keep
/// all others of it.
pub const READERS: usize = 4;

// How many parts may wait to be read. Who finds no room asks anew.
const WISHES: usize = 4_096;

// No file.
const NONE: usize = usize::MAX;

// A disk: the parts that are to be read of its files, and the file that each of its readers reads.
#[derive(Drop)]
pub(crate) struct Disk {
    // Its number, as the system has it.
    device: u64,
    wanted: Wanted,
    reading: [AtomicUsize; READERS],
}

impl Disk {
    pub(crate) fn new(alloc: Global, device: u64) -> Result<Disk, AllocError>
        ensures { IfOk result (λ d. d.device ≡ device) }
    {
        Ok(Disk {
            device,
            wanted: Wanted::new(alloc, WISHES)?,
            reading: [
                AtomicUsize::new(NONE),
                AtomicUsize::new(NONE),
                AtomicUsize::new(NONE),
                AtomicUsize::new(NONE),
            ],
        })
    }

    // Whether it is the one of this number.
    pub(crate) fn is(&self, device: u64) -> bool
        ensures { IsTrue result ↔ (self.now.device ≡ device) }
    {
        self.device == device
    }

    // Asks for a part. Whether there was room for it.
    pub(crate) fn ask<R: Wait>(&self, rt: &R, cut: Cut) -> bool {
        self.wanted.ask(rt, cut)
    }

    // Waits for a part that is to be read. `None` at the end.
    pub(crate) fn next<R: Wait>(&self, rt: &R) -> Option<Cut> {
        self.wanted.next(rt)
    }

    // Ends all readers.
    pub(crate) fn stop<R: Wait>(&self, rt: &R) {
        self.wanted.stop(rt);
    }

    // Notes the file that a reader reads now, if it reads one.
    pub(crate) fn note(&self, reader: usize, file: Option<usize>) {
        if let Some(reading) = self.reading.get(reader) {
            reading.store(file.unwrap_or(NONE), Ordering::SeqCst);
        }
    }

    // The file that a reader reads now, if it reads one.
    pub(crate) fn read_by(&self, reader: usize) -> Option<usize>
        ensures { IfSome result (λ file. file < NONE) }
    {
        match self.reading.get(reader)?.load(Ordering::SeqCst) {
            NONE => None,
            file => Some(file),
        }
    }
}
