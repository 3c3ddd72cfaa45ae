//! PLAY (RFC 7826 section 13.4).

ghost use Rattle.std.specs.Prelude.{◌≡◌, ◌≤◌, Ok, option_map, IfOk, None};
ghost use Rattle.rtsp_state.specs.Fault.{Gives};
ghost use Rattle.rtsp_state.specs.Conduct.{IsConducted};
ghost use Rattle.rtsp_content.specs.declared.limits.TheConstants.{MAX_UNITS};
ghost use Rattle.rtsp_state.specs.Context.{context_value};
ghost use Rattle.rtsp_state.specs.declared.method.Method.TheVariants as methods;
ghost use Rattle.rtsp_state.specs.StateTable.{row};
ghost use Rattle.rtsp_state.specs.Play.{fault_of, range_in, units_in, units_asked, stream_of, stream_info, rtp_info_from, play_presentation};

use crate::context::{Context, is_other, streams_of, timing_of};
use crate::fault::{Fault, must};
use crate::media_base::MediaBase;
use crate::plan::Plan;
use crate::request::Target;
use crate::rtp_info::{RtpInfo, StreamInfo};
use crate::status::Status;
use crate::step_plan::{Details, StepPlan};
use crate::values::single_value;
use rtsp_book::{Play, SessionView, Step};
use rtsp_content::{Presentation, Track};
use rtsp_grammar::Text;
use rtsp_npt::{OutOfMedia, Range, RangeFault, Span, read_range, resolve};
use rtsp_record::Stream;
use std::alloc::Global;

/// The units to be played: from `from` on, or the session's point if it is missing, before `stop`.
#[derive(Clone, Copy)]
pub struct Units {
    pub from: Option<u32>,
    pub stop: u32,
}

fn fault_of(fault: RangeFault) -> Fault
    ensures { result ≡ fault_of fault }
{
    match fault {
        RangeFault::NotNpt => Fault::Refused(Status::HeaderNotValid),
        RangeFault::BadNpt => Fault::Refused(Status::BadRequest),
        RangeFault::Now => Fault::Refused(Status::InvalidRange),
    }
}

// The range of a Range header; without one it is the rest of the media.
fn range_in(value: Option<&[u8]>) -> Result<Range, Fault>
    ensures { result ≡ range_in (option_map (λ v. v.now) value.entry) }
{
    let Some(value) = value else {
        return Ok(Range {
            start: None,
            stop: None,
        });
    };
    match read_range(value) {
        Ok(range) => Ok(range),
        Err(fault) => Err(fault_of(fault)),
    }
}

// The units that a range takes: from the last one up to a written start where a play may begin. They
// are played from the session's point where no start is written.
fn units_in(
    range: Range,
    presentation: &Presentation,
    resolved: Result<Span, OutOfMedia>,
) -> Result<Units, Fault>
    requires { IfOk resolved (λ taken. taken.stop ≤ MAX_UNITS) }
    ensures value { result ≡ units_in range presentation.now resolved }
    ensures most { IfOk result (λ units. units.stop ≤ MAX_UNITS) }
{
    match resolved {
        Ok(taken) => Ok(Units {
            from: range.start.and(Some(presentation.start_at(taken.from))),
            stop: taken.stop,
        }),
        Err(_) => Err(Fault::Refused(Status::InvalidRange)),
    }
}

fn units_asked(
    context: &Context<'_>,
    view: &SessionView,
    presentation: &Presentation,
) -> Result<Units, Fault>
    ensures value { result ≡ units_asked (context_value context.now) view.now presentation.now }
    ensures most { IfOk result (λ units. units.stop ≤ MAX_UNITS) }
{
    let value = single_value(context.headers, b"Range")?;
    let range = range_in(value)?;
    let unit_ms = presentation.unit_ms();
    let resume = view.phase().point(unit_ms.ms(), context.moment);
    let resolved = resolve(range, resume, unit_ms, presentation.units());
    units_in(range, presentation, resolved)
}

// The stream of a track.
fn stream_of(track: usize, streams: &[Stream]) -> Option<Stream>
    ensures { result ≡ stream_of track streams.now }
{
    for stream in streams {
        if usize::from(stream.track) == track {
            return Some(*stream);
        }
    }
    None
}

fn stream_info(
    alloc: Global,
    base: &MediaBase<'_>,
    track: &Track,
    stream: Stream,
) -> Result<StreamInfo, Fault>
    ensures { Gives result (Ok (stream_info base.now track.now stream)) }
{
    let (bytes, slash) = base.parts();
    let name = track.name().as_bytes();
    let size = bytes
        .len()
        .saturating_add(slash.len())
        .saturating_add(name.len());
    let mut url = Vec::with_capacity(alloc, size)?;
    url.extend_from_slice(bytes)?;
    url.extend_from_slice(slash)?;
    url.extend_from_slice(name)?;
    Ok(StreamInfo {
        url: Text::from_vec(url),
        ssrc: stream.ssrc,
        seq: stream.seq,
        packets: track.packing().packet_count(),
        rtptime: stream.rtptime,
        ticks: track.ticks(),
    })
}

/// What RTP-Info shows, in the order of the tracks.
pub fn rtp_info(
    alloc: Global,
    base: &MediaBase<'_>,
    streams: &[Stream],
    tracks: &[Track],
) -> Result<RtpInfo, Fault>
    ensures { Gives result (Ok (rtp_info_from base.now streams.now 0 tracks.now)) }
{
    let mut info = RtpInfo::new(alloc);
    for (index, track) in tracks.iter().enumerate() {
        if let Some(stream) = stream_of(index, streams) {
            info.push(stream_info(alloc, base, track, stream)?)?;
        }
    }
    Ok(info)
}

fn play_presentation(
    alloc: Global,
    context: &Context<'_>,
    view: &SessionView,
    base: &MediaBase<'_>,
    presentation: u16,
) -> Result<Plan, Fault>
    ensures value { Gives result (play_presentation (context_value context.now) view.now base.now presentation) }
    ensures conducted { IfOk result IsConducted }
{
    must(!is_other(presentation, view), Status::SessionNotFound)?;
    let streams = streams_of(alloc, view)?;
    must(!streams.is_empty(), Status::MethodNotValid)?;
    let Some(presentation) = context.table.presentation(presentation) else {
        return Err(Fault::Refused(Status::NotFound));
    };
    let units = units_asked(context, view, presentation)?;
    let info = rtp_info(alloc, base, &streams, presentation.tracks())?;
    Ok(Plan::Step(StepPlan {
        start: context.start,
        done: context.start,
        step: Step::Play(Play {
            session: view.session(),
            from: units.from,
            stop: units.stop,
            unit_ms: presentation.unit_ms().ms(),
            now: context.moment,
        }),
        details: Details::Played {
            timing: timing_of(presentation),
            info,
        },
    }))
}

/// PLAY of a session's presentation. The tracks of a session are played together. It is refused
/// where no living session is named.
#[inline(never)]
pub fn play(
    alloc: Global,
    context: &Context<'_>,
    view: Option<&SessionView>,
    target: &Target<'_>,
) -> Result<Plan, Fault>
    ensures value { Gives result (row (context_value context.now) methods.Play (option_map (λ v. v.now) view.entry) None target.now) }
    ensures conducted { IfOk result IsConducted }
{
    let Some(view) = view else {
        return Err(Fault::Refused(Status::SessionNotFound));
    };
    match target {
        Target::Track(..) => Err(Fault::Refused(Status::OnlyAggregateAllowed)),
        Target::Presentation(base, presentation) => {
            play_presentation(alloc, context, view, base, *presentation)
        }
        Target::Server | Target::Star => Err(Fault::Refused(Status::BadRequest)),
    }
}
