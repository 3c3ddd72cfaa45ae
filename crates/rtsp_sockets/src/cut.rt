//! The parts of files that are read at once.

ghost use Rattle.std.specs.Prelude.{◌≡◌, ◌<◌, ◌+◌, ◌*◌, ◌/◌, ◌^◌, max};
ghost use Rattle.rtsp_sockets.specs.Cuts.{cut_around};

use crate::media::Place;

// How much of a track is read at once, in milliseconds.
pub(crate) const CUT_MS: u64 = 400;

// A part of a file, which is named by its index among the media's files.
#[derive(Clone, Copy, Debug, PartialEq, Eq, Hash, Drop)]
pub(crate) struct Cut {
    pub(crate) file: usize,
    pub(crate) at: u64,
    pub(crate) len: u64,
}

// How many bytes of a track are read at once: as many whole units as fit into that time, and one in any
// case.
pub(crate) fn cut_len(octets: u32, unit_ms: u32) -> u64
    requires { 0 < unit_ms }
    ensures { result ≡ octets * max (CUT_MS / unit_ms) 1 }
{
    u64::from(octets) * (CUT_MS / u64::from(unit_ms)).max(1)
}

// The parts of a file that are read for a unit: the one that it is in, the unit alone, and what comes
// behind that part.
#[derive(Clone, Copy)]
pub(crate) struct Cuts {
    pub(crate) whole: Cut,
    pub(crate) alone: Cut,
    pub(crate) next: Cut,
}

impl Cut {
    // The part of a file of `len` bytes that a place is in, of those with `step` bytes each. Behind the
    // end of the file it is empty.
    fn around(file: usize, at: u64, step: u64, len: u64) -> Cut
        requires { 0 < step }
        ensures { result ≡ cut_around file at step len }
    {
        let first = at / step * step;
        Cut {
            file,
            at: first,
            len: step.min(len.saturating_sub(first)),
        }
    }
}

impl Cuts {
    // The parts for the unit of a track at a place of its file, which has `len` bytes.
    pub(crate) fn of(place: Place, at: u64, len: u64) -> Cuts
        ensures whole { result.whole ≡ cut_around place.file at (max place.step 1) len }
        ensures alone { result.alone ≡ cut_around place.file at (max place.octets 1) len }
        ensures next { at + max place.step 1 < 2 ^ 64 → result.next ≡ cut_around place.file (at + max place.step 1) (max place.step 1) len }
    {
        let step = place.step.max(1);
        let octets = u64::from(place.octets).max(1);
        Cuts {
            whole: Cut::around(place.file, at, step, len),
            alone: Cut::around(place.file, at, octets, len),
            next: Cut::around(place.file, at.saturating_add(step), step, len),
        }
    }
}
