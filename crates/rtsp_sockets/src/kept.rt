//! What was read of files.

ghost use Rattle.std.specs.Prelude.{◌≡◌, ◌≤◌, ◌+◌, ◌↔◌, IsTrue, length, OnOk, OnErr, IfOk, vec_len};
ghost use Rattle.rtsp_sockets.specs.Files.{StandAt};

use crate::loan::Loan;
use crate::media::MediaFault;
use crate::read_at::ReadAt;
use crate::unit::copy_unit;
use std::marker::PhantomData;

// Memory for bytes of a file, before they are read, and its share of the room that all have together.
#[derive(Drop)]
pub(crate) struct Blank {
    pub(crate) bytes: Vec<u8>,
    pub(crate) loan: Loan,
    ghost lent: { vec_len bytes ≤ loan },
}

// Bytes of a file in the server's own memory, and their share of the room that all have together.
#[derive(Drop)]
pub(crate) struct Kept<F: ReadAt> {
    // The file's number, and the place of the bytes in it.
    number: u64,
    at: u64,
    bytes: Vec<u8>,
    loan: Loan,
    of: PhantomData<F>,
    ghost stand: { StandAt (F.text number) at bytes.items },
    ghost lent: { vec_len bytes ≤ loan },
}

impl<F: ReadAt> Kept<F> {
    // Fills memory with what stands at a place, which waits for the disk.
    pub(crate) fn read(file: &F, at: u64, blank: Blank) -> Result<Kept<F>, MediaFault>
        ensures number { IfOk result (λ k. k.number ≡ F.number file.now) }
        ensures place { IfOk result (λ k. k.at ≡ at) }
        ensures len { IfOk result (λ k. vec_len k.bytes ≡ vec_len blank.bytes) }
    {
        let Blank { mut bytes, loan } = blank;
        file.fill_at(at, bytes.as_mut_slice())?;
        Ok(Kept {
            number: file.number(),
            at,
            bytes,
            loan,
            of: PhantomData,
        })
    }

    // The memory, to be filled anew.
    pub(crate) fn into_blank(self) -> Blank
        ensures { result.bytes ≡ self.bytes }
    {
        let Kept {
            number: _,
            at: _,
            bytes,
            loan,
            of: _,
        } = self;
        Blank { bytes, loan }
    }

    // Whether it was read of this file while it was open by the number that it has now.
    pub(crate) fn is_of(&self, file: &F) -> bool
        ensures { IsTrue result ↔ (F.number file.now ≡ self.now.number) }
    {
        file.number() == self.number
    }

    // Copies what stands at a place of a file, where that is here.
    pub(crate) fn copy(&self, file: &F, at: u64, out: &mut [u8]) -> Result<(), MediaFault>
        ensures ok { OnOk result (StandAt (F.text (F.number file.now)) at out.new) }
        ensures err { OnErr result (out.new ≡ out.old) }
    {
        if file.number() != self.number || at < self.at {
            return Err(MediaFault::Unreadable);
        }
        copy_unit(self.bytes.as_slice(), at - self.at, out)
    }
}
