//! The octets of a unit.

ghost use Rattle.std.specs.Prelude.{◌≡◌, ◌≤◌, ◌+◌, slice_range, length, IsOk, OnOk, OnErr};

use crate::media::MediaFault;

// Copies the bytes of a file from a place on.
pub(crate) fn copy_unit(bytes: &[u8], at: u64, out: &mut [u8]) -> Result<(), MediaFault>
    ensures ok { OnOk result (out.new ≡ slice_range bytes.now at (at + length out.old)) }
    ensures within { OnOk result (at + length out.old ≤ length bytes.now) }
    ensures there { at + length out.old ≤ length bytes.now → IsOk result }
    ensures err { OnErr result (out.new ≡ out.old) }
{
    let at = at as usize;
    if at > bytes.len() || bytes.len() - at < out.len() {
        return Err(MediaFault::Unreadable);
    }
    out.copy_from_slice(&bytes[at..at + out.len()]);
    Ok(())
}
