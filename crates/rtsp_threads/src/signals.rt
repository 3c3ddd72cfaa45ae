//! The signals that ask the process to end, while it holds them back, by the system's own account of
//! the process: no handler runs, and nothing is interrupted.
//!
//! Whoever starts the process has SIGTERM, SIGINT and SIGHUP blocked, as `env --block-signal=TERM,INT,HUP`
//! does, and what is blocked lasts over exec. A blocked signal that is sent doesn't end the process: it
//! stays pending, and the line ShdPnd of /proc/self/status shows it, for good. So a signal can be
//! seen once and never taken back, which is all that an end needs. A SIGHUP that is ignored, as under
//! `nohup`, would be pending too while it is blocked: then it asks for nothing.

use std::fs::File;
use std::io;
use std::os::unix::fs::FileExt;
use std::rt::Files;

const STATUS: &str = "/proc/self/status";

// More than the system writes there.
const LENGTH: usize = 4_096;

// The most reads of one look.
const READS: u32 = 16;

// In the system's sets signal n is bit n - 1.
const SIGHUP: u64 = 1;

const SIGINT: u64 = 1 << 1;

const SIGTERM: u64 = 1 << 14;

/// What is asked for by the signals that have come.
#[derive(Clone, Copy, PartialEq, Eq)]
pub enum StopAsked {
    /// None has come.
    Nothing,
    /// One of SIGTERM, SIGINT and SIGHUP has come: what is in hand is to be finished.
    Stop,
    /// Two of them have: whoever asks has lost patience.
    StopNow,
}

// The set that the line of this name has.
fn set_of(text: &str, name: &str) -> Option<u64> {
    for line in text.lines() {
        if let Some(value) = line.strip_prefix(name) {
            return u64::from_str_radix(value.trim(), 16).ok();
        }
    }
    None
}

// What is asked for by the signals that are pending for the process, by the text of its account.
fn stop_asked(text: &str) -> Option<StopAsked> {
    let pending = set_of(text, "ShdPnd:")?;
    let ignored = set_of(text, "SigIgn:")?;
    let hangs_up = pending & SIGHUP != 0 && ignored & SIGHUP == 0;
    let asks = (pending & SIGTERM != 0, pending & SIGINT != 0, hangs_up);
    Some(match asks {
        (false, false, false) => StopAsked::Nothing,
        (true, false, false) | (false, true, false) | (false, false, true) => StopAsked::Stop,
        _ => StopAsked::StopNow,
    })
}

/// The system's account of this process. It keeps its descriptor, so it can be read where none is
/// left.
#[derive(Drop)]
pub struct OwnStatus {
    file: File,
}

impl OwnStatus {
    pub fn open<R: Files<File = File>>(rt: &R) -> io::Result<OwnStatus> {
        Ok(OwnStatus {
            file: File::open(rt, STATUS)?,
        })
    }

    // The text of the account, as far as it fits: how long it is.
    fn read(&self, bytes: &mut [u8]) -> io::Result<usize> {
        let mut length = 0usize;
        for _ in 0..READS {
            let Some(rest) = bytes.get_mut(length..) else {
                break;
            };
            let count = self.file.read_at(rest, length as u64)?;
            if count == 0 {
                break;
            }
            length = length.saturating_add(count);
        }
        Ok(length)
    }

    /// What is asked for by now, or `None` where the system doesn't tell.
    pub fn stop_asked(&self) -> Option<StopAsked> {
        let mut bytes = [0u8; LENGTH];
        let length = self.read(&mut bytes).ok()?;
        stop_asked(str::from_utf8(bytes.get(..length)?).ok()?)
    }
}
