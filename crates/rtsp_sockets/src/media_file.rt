//! The file of a track.

ghost use Rattle.std.specs.Prelude.{◌≡◌, ◌≤◌, ◌+◌, ℕ, length, true, Some, OnOk, OnErr, IfOk, IsOk};
ghost use Rattle.std.specs.Global.{Vec};
ghost use Rattle.rtsp_sockets.specs.Files.{StandAt, Holds};

use crate::media::MediaFault;
use crate::read_at::ReadAt;
use crate::unit::copy_unit;
use std::alloc::Global;
use std::fs::{File, Metadata};
use std::io;
use std::os::unix::fs::MetadataExt;
use std::rt::Files;

/// Which file it is, and since when it has its bytes, as the system tells.
#[derive(Clone, Copy, PartialEq, Eq)]
pub struct FileMark {
    // The number of the disk that it is on.
    pub(crate) device: u64,
    number: u64,
    seconds: i64,
    nanoseconds: i64,
    len: u64,
}

impl FileMark {
    /// That of the file of which the system tells this.
    pub fn of(metadata: &Metadata) -> FileMark {
        FileMark {
            device: metadata.dev(),
            number: metadata.ino(),
            seconds: metadata.mtime(),
            nanoseconds: metadata.mtime_nsec(),
            len: metadata.len(),
        }
    }

    // Whether it is the same.
    fn is_same(&self, other: &FileMark) -> bool
        ensures { result ≡ true → self.now ≡ other.now }
    {
        self.device == other.device
            && self.number == other.number
            && self.seconds == other.seconds
            && self.nanoseconds == other.nanoseconds
            && self.len == other.len
    }
}

/// A file as it stands: which it is, and when anything of it was changed last, as its names and its rights.
/// Nobody can set that time, unlike that of its bytes.
#[derive(Clone, Copy)]
pub(crate) struct FileState {
    pub(crate) mark: FileMark,
    seconds: i64,
    nanoseconds: i64,
}

impl FileState {
    /// That of the file of which the system tells this.
    pub(crate) fn of(metadata: &Metadata) -> FileState {
        FileState {
            mark: FileMark::of(metadata),
            seconds: metadata.ctime(),
            nanoseconds: metadata.ctime_nsec(),
        }
    }

    /// Whether it is the same.
    pub(crate) fn is_same(&self, other: &FileState) -> bool
        ensures { result ≡ true → self.now ≡ other.now }
    {
        self.mark.is_same(&other.mark)
            && self.seconds == other.seconds
            && self.nanoseconds == other.nanoseconds
    }
}

// The file of a track.
#[derive(Drop)]
pub(crate) struct MediaFile<F: ReadAt> {
    pub(crate) file: F,
    pub(crate) len: u64,
    // All of it, where it is held in memory.
    pub(crate) held: Option<Vec<u8>>,
    // As it stood when it was opened.
    pub(crate) state: FileState,
    ghost whole: { (bytes : Vec ℕ) → held ≡ Some bytes → StandAt (F.text (F.number file)) 0 bytes.items },
}

// What it means that a file can't be opened.
fn fault_of(error: io::Error) -> MediaFault {
    match error.raw_os_error() {
        Some(libc::EMFILE) => MediaFault::NoDescriptor,
        _ => MediaFault::Unreadable,
    }
}

impl MediaFile<File> {
    // Opens a file that has to have so many bytes.
    pub(crate) fn open<R: Files<File = File>>(
        rt: &R,
        path: &str,
        len: u64,
    ) -> Result<MediaFile<File>, MediaFault>
        ensures { IfOk result (λ f. f.len ≡ len) }
    {
        let file = File::open(rt, path).map_err(fault_of)?;
        let metadata = file.metadata().map_err(|_| MediaFault::Unreadable)?;
        if metadata.len() != len {
            return Err(MediaFault::WrongLength);
        }
        Ok(MediaFile {
            file,
            len,
            held: None,
            state: FileState::of(&metadata),
        })
    }
}

impl<F: ReadAt> MediaFile<F> {
    // Holds it in memory.
    pub(crate) fn hold(&mut self, alloc: Global) -> Result<(), MediaFault>
        ensures held { OnOk result (Holds self.new.held self.old.len) }
        ensures file { self.new.file ≡ self.old.file }
        ensures len { self.new.len ≡ self.old.len }
    {
        let len = usize::try_from(self.len).map_err(|_| MediaFault::OutOfMemory)?;
        let mut bytes = Vec::from_elem(alloc, 0, len)?;
        self.file.fill_at(0, bytes.as_mut_slice())?;
        self.held = Some(bytes);
        Ok(())
    }
    // Copies what stands at a place of what is held in memory of it.
    pub(crate) fn copy(&self, bytes: &Vec<u8>, at: u64, out: &mut [u8]) -> Result<(), MediaFault>
        requires { self.now.held ≡ Some bytes.now }
        ensures ok { OnOk result (StandAt (F.text (F.number self.now.file)) at out.new) }
        ensures there { at + length out.old ≤ length bytes.now.items → IsOk result }
        ensures err { OnErr result (out.new ≡ out.old) }
    {
        copy_unit(bytes.as_slice(), at, out)
    }
}
