//! Whether presentations are the same.

ghost use Rattle.std.specs.Prelude.{◌≡◌, true};

use crate::packing::Packing;
use crate::presentation::Presentation;
use crate::starts::Starts;
use crate::track::Track;

// Whether plays of two presentations may begin at the same units.
fn are_same_starts(a: &Starts, b: &Starts) -> bool
    ensures { result ≡ true → a.now ≡ b.now }
{
    a.units == b.units
}

// Whether packets stand alike in files.
fn is_same_packing(a: Packing, b: Packing) -> bool
    ensures { result ≡ true → a ≡ b }
{
    a == b
}

// Whether two tracks are the same.
fn is_same_track(a: &Track, b: &Track) -> bool
    ensures { result ≡ true → a.now ≡ b.now }
{
    a.name == b.name
        && a.media == b.media
        && a.payload_type == b.payload_type
        && a.encoding == b.encoding
        && a.clock == b.clock
        && is_same_packing(a.packing, b.packing)
        && a.octets == b.octets
        && a.ticks == b.ticks
        && a.file == b.file
        && a.format_parameters == b.format_parameters
        && a.channels == b.channels
}

// Whether these tracks are the same.
fn are_same_tracks(a: &[Track], b: &[Track]) -> bool
    ensures { result ≡ true → a.now ≡ b.now }
{
    if a.len() != b.len() {
        return false;
    }
    for i in 0..a.len() {
        if !is_same_track(&a[i], &b[i]) {
            return false;
        }
    }
    true
}

/// Whether two presentations are the same.
pub(crate) fn is_same(a: &Presentation, b: &Presentation) -> bool
    ensures { result ≡ true → a.now ≡ b.now }
{
    a.name == b.name
        && a.units == b.units
        && a.unit_ms.ms() == b.unit_ms.ms()
        && are_same_starts(&a.starts, &b.starts)
        && are_same_tracks(a.tracks.as_slice(), b.tracks.as_slice())
}
