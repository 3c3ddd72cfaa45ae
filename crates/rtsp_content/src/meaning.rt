//! Which place a request means: a session's own, or the one that is offered under the name.

ghost use Rattle.std.specs.Prelude.{◌≡◌, ◌≤◌, ◌<◌, ◌&&◌, not, bytes_eq, length, option_map, IfSome};
ghost use Rattle.rtsp_content.specs.declared.limits.TheConstants.{MAX_PLACES, MAX_TRACKS};
ghost use Rattle.rtsp_content.specs.Offering.{offered_from, is_namesake, offered_like, meant_of, track_named, track_as};

use crate::presentation::Presentation;
use crate::standing::is_gone;
use crate::table::Table;

// Whether what stands at a place is offered, under this name.
fn is_offered_as(presentation: &Presentation, gone: bool, name: &str) -> bool
    ensures { result ≡ (not gone && bytes_eq presentation.now.name name.now) }
{
    !gone && presentation.name() == name
}

// The place at which a presentation of this name is offered.
fn offered_under(presentations: &[Presentation], withdrawn: &[bool], name: &str) -> Option<u16>
    requires { length presentations.now ≤ MAX_PLACES }
    ensures { result ≡ offered_from 0 presentations.now withdrawn.now name.now }
{
    for (index, presentation) in presentations.iter().enumerate() {
        if is_offered_as(presentation, is_gone(withdrawn, index), name) {
            return Some(index as u16);
        }
    }
    None
}

// Whether two presentations have one name.
fn is_namesake(one: Option<&Presentation>, other: Option<&Presentation>) -> bool
    ensures { result ≡ is_namesake (option_map (λ p. p.now) one.entry) (option_map (λ p. p.now) other.entry) }
{
    match (one, other) {
        (Some(one), Some(other)) => one.name() == other.name(),
        _ => false,
    }
}

// The place of the track of this name.
fn track_named(presentation: &Presentation, name: &str) -> Option<usize>
    ensures value { result ≡ track_named presentation.now name.now }
    ensures within { IfSome result (λ j. j < MAX_TRACKS) }
{
    presentation
        .tracks()
        .iter()
        .position(|track| track.name() == name)
}

impl Table {
    // The place at which what stands at this one is offered, or what is called the same.
    fn offered_like(&self, place: u16) -> Option<u16>
        ensures { result ≡ offered_like self.now place }
    {
        if !self.is_withdrawn(place) {
            return Some(place);
        }
        let presentation = self.presentation(place)?;
        offered_under(
            self.presentations.as_slice(),
            self.withdrawn.as_slice(),
            presentation.name(),
        )
    }

    /// The place that is meant by whoever names this one: for a session that has streams of a place
    /// its own, where that is called the same; else the one that is offered under the name, if one is.
    pub fn meant(&self, own: Option<u16>, place: u16) -> Option<u16>
        ensures { result ≡ meant_of self.now own place }
    {
        if let Some(own) = own
            && is_namesake(self.presentation(own), self.presentation(place))
        {
            return Some(own);
        }
        self.offered_like(place)
    }

    /// The place that a track has in what is meant, by that which it has at the place that is named:
    /// that of the track which is called the same.
    pub fn track_as(&self, place: u16, track: u16, meant: u16) -> Option<u16>
        ensures { result ≡ track_as self.now place track meant }
    {
        if meant == place {
            return Some(track);
        }
        let named = self.presentation(place)?.track(track)?;
        match track_named(self.presentation(meant)?, named.name()) {
            Some(track) => Some(track as u16),
            None => None,
        }
    }
}
