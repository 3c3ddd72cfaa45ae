//! What a path names.

ghost use Rattle.std.specs.Prelude.{◌≡◌, ◌<◌, ◌≤◌, length, bytes_eq, IfSome};
ghost use Rattle.std.specs.List.{position_from};
ghost use Rattle.rtsp_text.specs.Slices.{joined};
ghost use Rattle.rtsp_content.specs.declared.limits.TheConstants.{MAX_PLACES, MAX_TRACKS};
ghost use Rattle.rtsp_content.specs.Paths.{
  elder,
  find_from,
  found_at,
  is_presentation_path,
  is_track_path,
  number_found,
};

use crate::numbers::number_at;
use crate::presentation::Presentation;
use crate::track::Track;

/// What a path names, by indices that are counted from 0.
#[derive(Clone, Copy, PartialEq, Eq)]
pub enum Found {
    /// A presentation.
    Presentation(u16),

    /// A track, after its presentation.
    Track(u16, u16),

    /// Nothing that is served.
    Nothing,
}

// Whether a text is the pieces, one after another.
fn is_joined(text: &[u8], pieces: &[&[u8]]) -> bool
    ensures { result ≡ bytes_eq text.now (joined pieces.entry.now) }
{
    let mut rest = text;
    for piece in pieces {
        match rest.strip_prefix(piece) {
            Some(tail) => rest = tail,
            None => return false,
        }
    }
    rest.is_empty()
}

// Whether the path is `/name` or `/name/`.
fn is_presentation_path(path: &[u8], presentation: &Presentation) -> bool
    ensures { result ≡ is_presentation_path presentation.now path.now }
{
    let name = presentation.name().as_bytes();
    is_joined(path, &[b"/", name]) || is_joined(path, &[b"/", name, b"/"])
}

// Whether the path is `/name/track`.
fn is_track_path(path: &[u8], presentation: &Presentation, track: &Track) -> bool
    ensures { result ≡ is_track_path presentation.now path.now track.now }
{
    is_joined(
        path,
        &[
            b"/",
            presentation.name().as_bytes(),
            b"/",
            track.name().as_bytes(),
        ],
    )
}

// The first track that the path names.
fn track_index(path: &[u8], presentation: &Presentation) -> Option<usize>
    ensures value { result
        ≡ position_from (is_track_path presentation.now path.now) 0 presentation.now.tracks }
    ensures within { IfSome result (λ j. j < MAX_TRACKS) }
{
    presentation
        .tracks()
        .iter()
        .position(|track| is_track_path(path, presentation, track))
}

// What a path names of a presentation.
fn found_at(index: u16, presentation: &Presentation, path: &[u8]) -> Found
    ensures { result ≡ found_at index presentation.now path.now }
{
    if is_presentation_path(path, presentation) {
        return Found::Presentation(index);
    }
    match track_index(path, presentation) {
        Some(track) => Found::Track(index, track as u16),
        None => Found::Nothing,
    }
}

// The number of the place of what is found.
fn number_found(numbers: &[u64], found: Found) -> Option<u64>
    ensures { result ≡ number_found numbers.now found }
{
    match found {
        Found::Presentation(index) => Some(number_at(numbers, usize::from(index))),
        Found::Track(index, _) => Some(number_at(numbers, usize::from(index))),
        Found::Nothing => None,
    }
}

// Of two that are found the one that has stood at its place for longer, or else the first.
fn elder(numbers: &[u64], first: Found, later: Found) -> Found
    ensures { result ≡ elder numbers.now first later }
{
    match (number_found(numbers, later), number_found(numbers, first)) {
        (Some(later_number), Some(number)) if later_number >= number => first,
        (Some(_), _) => later,
        (None, _) => first,
    }
}

// What a path names among presentations: the eldest, by the numbers of their places. Nothing is looked at
// behind one whose place was never given to another.
pub(crate) fn find_among(presentations: &[Presentation], numbers: &[u64], path: &[u8]) -> Found
    requires { length presentations.now ≤ MAX_PLACES }
    ensures { result ≡ find_from numbers.now 0 presentations.now path.now }
{
    let mut found = Found::Nothing;
    for (index, presentation) in presentations.iter().enumerate() {
        found = elder(numbers, found, found_at(index as u16, presentation, path));
        if number_found(numbers, found) == Some(0) {
            return found;
        }
    }
    found
}
