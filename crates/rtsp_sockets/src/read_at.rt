//! Files that are read at a place.

ghost use Rattle.std.specs.Prelude.{◌≡◌, ℕ, List, Option, OnOk};
ghost use Rattle.rtsp_sockets.specs.Files.{StandAt};

use crate::media::MediaFault;
use std::fs::File;
use std::os::fd::AsRawFd;
use std::os::unix::fs::FileExt;

/// A file that is read at a place.
pub trait ReadAt: Drop {
    /// The number by which it is open, which no other file has meanwhile.
    ghost number: { Self → ℕ };

    /// The bytes of the file that is open by a number, where they are known.
    ghost text: { ℕ → Option (List ℕ) };

    /// The number by which it is open.
    fn number(&self) -> u64
        ensures { result ≡ number self.now };

    /// Fills `out` with the bytes from a place on. `Unreadable` where there are too few of them, or
    /// the file can't be read.
    fn fill_at(&self, at: u64, out: &mut [u8]) -> Result<(), MediaFault>
        ensures { OnOk result (StandAt (text (number self.now)) at out.new) };
}

impl ReadAt for File {
    ghost use Rattle.std.specs.Prelude.{None};
    ghost use Rattle.std.specs.Fd.{file_raw_fd};
    ghost use Rattle.std.specs.Int.{cast_unsigned, w32};

    ghost number = { λ f. cast_unsigned w32 (file_raw_fd f) };

    ghost text = { λ n. None };

    fn number(&self) -> u64 {
        u64::from(self.as_raw_fd().cast_unsigned())
    }

    fn fill_at(&self, at: u64, out: &mut [u8]) -> Result<(), MediaFault> {
        self.read_exact_at(out, at)
            .map_err(|_| MediaFault::Unreadable)
    }
}
