//! A file at which is looked from time to time.

use rtsp_sockets::FileMark;
use rtsp_threads::CONFIGURATION_STANDS;
use std::alloc::Global;
use std::fs;
use std::fs::File;
use std::os::unix::fs::FileExt;
use std::rt::Files;

// The most bytes of the file, and of a read.
const MOST: usize = 16 * 1_024 * 1_024;

const PIECE: usize = 64 * 1_024;

// What is seen of the file: nothing where it isn't there, nor of a pipe, which would hold a read up.
fn mark_of<R: Files<File = File>>(rt: &R, path: &str) -> Option<FileMark> {
    let metadata = fs::metadata(rt, path).ok()?;
    if metadata.is_file() {
        Some(FileMark::of(&metadata))
    } else {
        None
    }
}

/// A file, as it was taken and as it was seen last.
#[derive(Drop)]
pub struct WatchedFile {
    path: String,
    taken: Option<FileMark>,
    last: Option<FileMark>,
    // Since when it is as it was seen last.
    since: u64,
}

impl WatchedFile {
    /// The file at this path was taken as it is.
    pub fn open<R: Files<File = File>>(rt: &R, path: String) -> WatchedFile {
        let taken = mark_of(rt, path.as_str());
        WatchedFile {
            path,
            taken,
            last: taken,
            since: 0,
        }
    }

    pub(crate) fn path(&self) -> &str {
        self.path.as_str()
    }

    /// Looks at the file. Whether it is another than was taken last, and has stood for a while. It is taken
    /// then.
    pub(crate) fn has_settled<R: Files<File = File>>(&mut self, rt: &R, now: u64) -> bool {
        let mark = mark_of(rt, self.path.as_str());
        if mark != self.last {
            self.last = mark;
            self.since = now;
        }
        let stands = self.since.saturating_add(CONFIGURATION_STANDS) <= now;
        let has_settled = stands && mark != self.taken;
        if has_settled {
            self.taken = mark;
        }
        has_settled
    }

    /// The file, to be read. Nothing where it isn't one, or can't be opened.
    pub(crate) fn open_again<R: Files<File = File>>(&self, rt: &R) -> Option<File> {
        mark_of(rt, self.path.as_str())?;
        File::open(rt, self.path.as_str()).ok()
    }
}

/// What is in a file. Nothing where it can't be read.
pub(crate) fn read_all(alloc: Global, file: &File) -> Option<Vec<u8>> {
    let mut text = Vec::new(alloc);
    let mut piece = Vec::from_elem(alloc, 0u8, PIECE).ok()?;
    for _ in 0..MOST / PIECE {
        let count = file.read_at(piece.as_mut_slice(), text.len() as u64).ok()?;
        if count == 0 {
            return Some(text);
        }
        text.extend_from_slice(piece.get(..count)?).ok()?;
    }
    None
}
