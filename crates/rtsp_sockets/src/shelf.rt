//! What was read ahead of all files that aren't held in memory, and is kept in the server's own memory.

ghost use Rattle.std.specs.Prelude.{◌≡◌, IfSome, vec_len};
ghost use Rattle.rtsp_sockets.specs.Files.{StandAt};

use crate::cut::Cut;
use crate::kept::Blank;
use crate::loan::{Loan, SharedRoom};
use crate::read_at::ReadAt;
use crate::spaces::{Found, Spaces, State};
use std::alloc::{AllocError, Global};
use std::sync::{Arc, Mutex, Wait};

// How many parts are dropped at most when one comes, of those that no play has asked for lately.
const DROPPED_AT_ONCE: u32 = 8;

// The parts of all files, of which those that are kept have room for so many bytes together.
#[derive(Drop)]
pub(crate) struct Shelf<F: ReadAt> {
    alloc: Global,
    spaces: Mutex<Spaces<F>>,
    room: Arc<SharedRoom>,
}

impl<F: ReadAt> Shelf<F> {
    pub(crate) fn open(alloc: Global, most: u64) -> Result<Shelf<F>, AllocError> {
        Ok(Shelf {
            alloc,
            spaces: Mutex::new(Spaces::new(alloc)?),
            room: SharedRoom::open(alloc, most)?,
        })
    }

    // Copies the bytes at a place of a file that is in this part, where they are kept.
    pub(crate) fn copy<R: Wait>(
        &self,
        rt: &R,
        cut: Cut,
        file: &F,
        at: u64,
        out: &mut [u8],
        now: u64,
    ) -> Found
        ensures copied { result ≡ Found.Copied → StandAt (F.text (F.number file.now)) at out.new }
        ensures others { (result ≡ Found.Copied → ⊥) → out.new ≡ out.old }
    {
        self.spaces.lock(rt).copy(cut, file, at, out, now)
    }

    // Notes that a part is asked for. Whether it is to be read, and nobody has asked for it yet.
    pub(crate) fn ask<R: Wait>(&self, rt: &R, cut: Cut, now: u64) -> bool {
        self.spaces.lock(rt).ask(cut, now)
    }

    // Whether a play waits for a part that is to be read.
    pub(crate) fn is_awaited<R: Wait>(&self, rt: &R, cut: Cut, now: u64) -> bool {
        self.spaces.lock(rt).is_awaited(cut, now)
    }

    // Nobody has asked for a part after all.
    pub(crate) fn forget<R: Wait>(&self, rt: &R, cut: Cut) {
        self.spaces.lock(rt).forget(cut);
    }

    // Puts what came of reading a part. Some of what no play has asked for lately goes.
    pub(crate) fn put<R: Wait>(&self, rt: &R, cut: Cut, state: State<F>, now: u64) {
        for _ in 0..DROPPED_AT_ONCE {
            // It is dropped without the lock, which pacers wait for.
            let unused = self.spaces.lock(rt).take_unused(now);
            if unused.is_none() {
                break;
            }
        }
        self.spaces.lock(rt).put(cut, state, now);
    }

    // Memory for so many bytes. Where there is none, what was asked for the longest ago goes, whose memory
    // is taken where it is as long. `None` where there is none for all that.
    pub(crate) fn blank<R: Wait>(&self, rt: &R, len: usize) -> Option<Blank>
        ensures { IfSome result (λ b. vec_len b.bytes ≡ len) }
    {
        for _ in rt.forever() {
            if let Some(blank) = self.try_blank(len) {
                return Some(blank);
            }
            let oldest = self.spaces.lock(rt).take_oldest()?;
            if let Some(blank) = oldest.into_blank()
                && blank.bytes.len() == len
            {
                return Some(blank);
            }
        }
        None
    }

    fn try_blank(&self, len: usize) -> Option<Blank>
        ensures { IfSome result (λ b. vec_len b.bytes ≡ len) }
    {
        let mut loan = Loan::of(&self.room)?;
        if !loan.cover(len) {
            return None;
        }
        let bytes = Vec::from_elem(self.alloc, 0, len).ok()?;
        Some(Blank { bytes, loan })
    }
}
