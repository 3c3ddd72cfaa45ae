//! Why a configuration isn't taken up, for whoever wrote it.

use rtsp_content::{Presentation, Table, TableFault, Track};
use rtsp_explain::{Place, explain, line_of};
use rtsp_sockets::MediaFault;
use std::alloc::{AllocError, Global};
use std::fs;
use std::fs::File;
use std::rt::Files;

/// Why a configuration isn't taken up.
#[derive(Clone, Copy, PartialEq, Eq)]
pub(crate) enum NotTaken {
    /// Its file can't be read.
    Unreadable,
    Refused(TableFault),
    /// This key of `[server]` is another, and stays as long as the server runs.
    Stays(&'static str),
    Media(MediaFault),
    /// Its files leave no descriptors for the connections that are open.
    NoDescriptor,
    /// A thread can't be made that reads a further disk ahead.
    NoThread,
    OutOfMemory,
}

impl From<AllocError> for NotTaken {
    fn from(_: AllocError) -> NotTaken {
        NotTaken::OutOfMemory
    }
}

impl From<TableFault> for NotTaken {
    fn from(fault: TableFault) -> NotTaken {
        match fault {
            TableFault::OutOfMemory => NotTaken::OutOfMemory,
            fault => NotTaken::Refused(fault),
        }
    }
}

impl From<MediaFault> for NotTaken {
    fn from(fault: MediaFault) -> NotTaken {
        match fault {
            MediaFault::OutOfMemory => NotTaken::OutOfMemory,
            MediaFault::NoDescriptor => NotTaken::NoDescriptor,
            fault => NotTaken::Media(fault),
        }
    }
}

/// The reason, as the line of the log has it: the key with its line, or the file, and what is wrong with it.
pub(crate) fn reason<R: Files<File = File>>(
    rt: &R,
    alloc: Global,
    path: &str,
    text: &[u8],
    why: NotTaken,
) -> Result<String, AllocError> {
    match why {
        NotTaken::Unreadable => Ok(format!(in alloc; "{path}: it can't be read")?),
        NotTaken::Refused(fault) => fault_reason(alloc, path, text, fault),
        NotTaken::Stays(key) => key_reason(alloc, path, text, key),
        NotTaken::Media(fault) => match media_reason(rt, alloc, path, text)? {
            Some(reason) => Ok(reason),
            None => Ok(format!(in alloc; "{path}: {fault}")?),
        },
        NotTaken::NoDescriptor => Ok(format!(in alloc;
            "{path}: its files leave no descriptors for the connections"
        )?),
        NotTaken::NoThread => Ok(format!(in alloc; "{path}: a thread can't be made")?),
        NotTaken::OutOfMemory => Ok(format!(in alloc; "{path}: out of memory")?),
    }
}

// What it is refused for: the first key that is wrong, or in a word where none is known to be.
fn fault_reason(
    alloc: Global,
    path: &str,
    text: &[u8],
    fault: TableFault,
) -> Result<String, AllocError> {
    let findings = explain(alloc, path, text)?;
    match findings.faults.first() {
        Some(line) => Ok(String::from_str(alloc, line.as_str())?),
        None => Ok(format!(in alloc; "{path}: {fault}")?),
    }
}

// A key that may not change.
fn key_reason(alloc: Global, path: &str, text: &[u8], key: &str) -> Result<String, AllocError> {
    let line = match str::from_utf8(text) {
        Ok(text) => line_of(text, Place::Server, key),
        Err(_) => None,
    };
    match line {
        Some(line) => Ok(format!(in alloc;
            "{path}:{line}: server.{key} is another, and stays as long as the server runs"
        )?),
        None => Ok(format!(in alloc;
            "{path}: server.{key} is another, and stays as long as the server runs"
        )?),
    }
}

// The first track's file that is wrong, as another look finds it.
fn media_reason<R: Files<File = File>>(
    rt: &R,
    alloc: Global,
    path: &str,
    text: &[u8],
) -> Result<Option<String>, AllocError> {
    let Ok(table) = Table::read_at(alloc, text, path) else {
        return Ok(None);
    };
    for presentation in table.presentations() {
        for track in presentation.tracks() {
            if let Some(reason) = track_reason(rt, alloc, presentation, track)? {
                return Ok(Some(reason));
            }
        }
    }
    Ok(None)
}

// What is wrong with the file of a track, if anything is.
fn track_reason<R: Files<File = File>>(
    rt: &R,
    alloc: Global,
    presentation: &Presentation,
    track: &Track,
) -> Result<Option<String>, AllocError> {
    let path = track.file();
    let (units, octets) = (presentation.units(), track.unit_len());
    let wanted = u64::from(units) * u64::from(octets);
    let length = match fs::metadata(rt, path) {
        Ok(metadata) => metadata.len(),
        Err(error) => return Ok(Some(format!(in alloc; "{path}: {error}")?)),
    };
    if length == wanted {
        return Ok(None);
    }
    let name = presentation.name();
    Ok(Some(format!(in alloc;
        "{path}: it has {length} bytes, and {units} units of {octets} octets are {wanted} ({name})"
    )?))
}
