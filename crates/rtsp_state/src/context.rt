//! What a row of the state table is decided from, and what the rows share.

ghost use Rattle.std.specs.Prelude.{◌≡◌, ◌==◌, not, length, IfOk};
ghost use Rattle.rtsp_state.specs.Context.{streams_of, is_other, has_track, timing_of, expiry};

use crate::response_start::ResponseStart;
use crate::timing::Timing;
use rtsp_book::SessionView;
use rtsp_content::{Presentation, Table};
use rtsp_grammar::Headers;
use rtsp_record::Stream;
use std::alloc::{AllocError, Global};

/// What a row of the state table is decided from, beside the session and the target.
#[derive(Clone, Copy)]
pub struct Context<'a> {
    pub start: ResponseStart,
    /// The player's IPv4 address.
    pub peer: u32,
    /// Milliseconds.
    pub moment: u64,
    pub table: &'a Table,
    pub headers: &'a Headers,
    pub body: &'a [u8],
}

/// The session's streams, in the order of their admissions' numbers.
pub fn streams_of(alloc: Global, view: &SessionView) -> Result<Vec<Stream>, AllocError>
    ensures { IfOk result (λ v. v.items ≡ streams_of view.now.1) }
{
    let mut streams = Vec::new(alloc);
    for index in 0..view.admissions().len() {
        let (_, held) = view.admissions().at(index);
        if let Some(stream) = held.stream {
            streams.push(stream)?;
        }
    }
    Ok(streams)
}

/// Whether some stream of the session is of another presentation.
pub fn is_other(presentation: u16, view: &SessionView) -> bool
    ensures { result ≡ is_other presentation (streams_of view.now.1) }
{
    for index in 0..view.admissions().len() {
        let (_, held) = view.admissions().at(index);
        if let Some(stream) = held.stream {
            if stream.presentation != presentation {
                return true;
            }
        }
    }
    false
}

/// Whether the session has a stream.
pub fn has_streams(view: &SessionView) -> bool
    ensures { result ≡ not (length (streams_of view.now.1) == 0) }
{
    for index in 0..view.admissions().len() {
        let (_, held) = view.admissions().at(index);
        if held.stream.is_some() {
            return true;
        }
    }
    false
}

/// Whether some stream is of the track.
pub fn has_track(track: u16, streams: &[Stream]) -> bool
    ensures { result ≡ has_track track streams.now }
{
    streams.iter().any(|s| s.track == track)
}

/// How many units a presentation has, and how many milliseconds each lasts.
pub fn timing_of(presentation: &Presentation) -> Timing
    ensures { result ≡ timing_of presentation.now }
{
    Timing {
        units: presentation.units(),
        unit_ms: presentation.unit_ms(),
        longest_gap: presentation.longest_gap(),
    }
}

/// The moment at which a session ends if nothing renews it, in milliseconds. The timeout is in
/// seconds.
#[tactic(auto, unfolding(crate::specs::Context::expiry))]
pub fn expiry(moment: u64, timeout: u32) -> u64
    ensures { result ≡ expiry moment timeout }
{
    moment.saturating_add(u64::from(timeout) * 1000)
}
