//! The sources of a play.

ghost use Rattle.std.specs.Prelude.{◌≡◌, ◌<◌, ◌≤◌, [], ◌∷◌, ◌++◌, length, All, IfSome};
ghost use Rattle.std.specs.FinMap.{entries};
ghost use Rattle.rtsp_sessions.specs.Searches.{first_with, is_of_track};
ghost use Rattle.rtsp_content.specs.declared.limits.TheConstants.{MAX_TRACKS};
ghost use Rattle.rtsp_rtp.specs.Pacing.{IsSourceWithin, source_under, sources_from};

use crate::source::Source;
use rtsp_content::{MAX_TRACKS, Packing, Presentation, Track};
use rtsp_sessions::SessionView;
use std::marker::Model;

/// The sources of a play, at most `MAX_TRACKS`, in the order of the presentation's tracks. It is of
/// fixed size. The count stands beside the first of them, since each turn looks at both.
#[derive(Drop)]
pub struct Sources {
    len: usize,
    rows: [Source; MAX_TRACKS],
}

impl Model for Sources {
    ghost use Rattle.std.specs.Prelude.{List, take, ◌≤◌, All};
    ghost use Rattle.rtsp_content.specs.declared.limits.TheConstants.{MAX_TRACKS};
    ghost use Rattle.rtsp_rtp.specs.declared.source.Source.{Source};
    ghost use Rattle.rtsp_rtp.specs.Pacing.{IsSourceWithin};

    ghost Value = { List Source };

    ghost view = { λ s. take s.len s.rows };

    ghost invariant = { λ s. (s.len ≤ MAX_TRACKS) × All IsSourceWithin (take s.len s.rows) };
}

impl Sources {
    fn new() -> Self
        ensures { result ≡ [] }
    {
        let blank = Source {
            track: 0,
            payload_type: 0,
            packing: Packing::Single,
            octets: 0,
            ticks: 0,
            ssrc: 0,
            seq: 0,
            rtptime: 0,
        };
        Sources {
            len: 0,
            rows: [blank; MAX_TRACKS],
        }
    }

    fn push(&mut self, source: Source)
        requires room { length self.old < MAX_TRACKS }
        requires within { IsSourceWithin source }
        ensures { self.new ≡ self.old ++ source ∷ [] }
    {
        self.rows[self.len] = source;
        self.len += 1;
    }

    pub(crate) fn as_slice(&self) -> &[Source]
        ensures value { result.now ≡ self.now }
        ensures few { length result.now ≤ MAX_TRACKS }
        ensures within { All IsSourceWithin result.now }
    {
        &self.rows[..self.len]
    }

    // The sources of the tracks of a presentation for which the session has a stream.
    pub(crate) fn of(view: &SessionView, presentation: &Presentation) -> Self
        ensures { result ≡ sources_from view.now.1 0 presentation.now.tracks }
    {
        let mut sources = Sources::new();
        for (index, track) in presentation.tracks().iter().enumerate() {
            if let Some(source) = source_under(view, index as u16, track) {
                sources.push(source);
            }
        }
        sources
    }
}

// The source of a track, where the session has a stream of it.
fn source_under(view: &SessionView, index: u16, track: &Track) -> Option<Source>
    requires { index < MAX_TRACKS }
    ensures value { result ≡ source_under track.now (first_with (is_of_track index) (entries view.now.1.admissions)) }
    ensures within { IfSome result IsSourceWithin }
{
    let (_, admission) = view.with_track(index)?;
    let stream = admission.stream?;
    Some(Source::of(track, &stream))
}
