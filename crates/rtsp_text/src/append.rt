//! Writing at the end of bytes, all of a text or nothing.

ghost use Rattle.std.specs.Prelude.{◌≡◌, ◌≤◌, ◌++◌, take, vec_capacity, OnOk, OnErr, IsOk};
ghost use Rattle.rtsp_text.specs.Appending.{HasRoom};
ghost use Rattle.rtsp_text.specs.Slices.{joined};

use std::alloc::AllocError;

/// Takes back what a refused write left after the first `len` bytes.
pub fn all_or_nothing(
    out: &mut Vec<u8>,
    len: usize,
    written: Result<(), AllocError>,
) -> Result<(), AllocError>
    ensures result { result ≡ written }
    ensures ok { OnOk result (out.new.items ≡ out.old.items) }
    ensures err { OnErr result (out.new.items ≡ take len out.old.items) }
    ensures capacity { vec_capacity out.old ≤ vec_capacity out.new }
{
    if written.is_err() {
        out.truncate(len);
    }
    written
}

/// Appends all the pieces, or nothing.
pub fn append_all(out: &mut Vec<u8>, pieces: &[&[u8]]) -> Result<(), AllocError>
    ensures ok { OnOk result (out.new.items ≡ out.old.items ++ joined pieces.entry.now) }
    ensures err { OnErr result (out.new.items ≡ out.old.items) }
    ensures capacity { vec_capacity out.old ≤ vec_capacity out.new }
    // It takes no memory where there is room.
    ensures succeeds { HasRoom out.old (joined pieces.entry.now) → IsOk result }
{
    let start = out.len();
    for piece in pieces {
        if out.extend_from_slice(piece).is_err() {
            out.truncate(start);
            return Err(AllocError);
        }
    }
    Ok(())
}
