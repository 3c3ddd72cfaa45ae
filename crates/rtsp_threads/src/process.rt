//! What the system says of the process: how long it has run, and its memory.

use std::fs::File;
use std::io;
use std::os::unix::fs::FileExt;
use std::rt::Files;

const STAT: &str = "/proc/self/stat";

// More than the system writes there.
const LENGTH: usize = 1_024;

// A tick of the system's account of time is a hundredth of a second, a page of memory 4 KiB.
const TICK_MS: u64 = 10;

const PAGE: u64 = 4_096;

// The places of what is read, behind the name of the program, which ends with a bracket.
const USER_TIME: usize = 11;

const SYSTEM_TIME: usize = 12;

const RESIDENT: usize = 21;

/// What the process has used.
#[derive(Clone, Copy, PartialEq, Eq)]
pub struct Usage {
    pub cpu_ms: u64,
    pub resident_bytes: u64,
}

// The number of a place among fields.
fn number_at(fields: &str, place: usize) -> Option<u64> {
    fields.split(' ').nth(place)?.parse::<u64>().ok()
}

// What an account of the process says.
fn usage_in(text: &str) -> Option<Usage> {
    let (_, fields) = text.rsplit_once(") ")?;
    let user = number_at(fields, USER_TIME)?;
    let ticks = user.saturating_add(number_at(fields, SYSTEM_TIME)?);
    Some(Usage {
        cpu_ms: ticks.saturating_mul(TICK_MS),
        resident_bytes: number_at(fields, RESIDENT)?.saturating_mul(PAGE),
    })
}

/// The system's account of what this process has used. It keeps its descriptor.
#[derive(Drop)]
pub struct OwnUsage {
    file: File,
}

impl OwnUsage {
    pub fn open<R: Files<File = File>>(rt: &R) -> io::Result<OwnUsage> {
        Ok(OwnUsage {
            file: File::open(rt, STAT)?,
        })
    }

    /// What was used by now, or `None` where the system doesn't tell.
    pub fn read(&self) -> Option<Usage> {
        let mut bytes = [0u8; LENGTH];
        let length = self.file.read_at(&mut bytes, 0).ok()?;
        usage_in(str::from_utf8(bytes.get(..length)?).ok()?)
    }
}
