//! TEARDOWN (RFC 7826 section 13.7).

ghost use Rattle.std.specs.Prelude.{IfOk, option_map, None};
ghost use Rattle.rtsp_state.specs.Fault.{Gives};
ghost use Rattle.rtsp_state.specs.Conduct.{IsConducted};
ghost use Rattle.rtsp_state.specs.Context.{context_value};
ghost use Rattle.rtsp_state.specs.declared.method.Method.TheVariants as methods;
ghost use Rattle.rtsp_state.specs.StateTable.{row};
ghost use Rattle.rtsp_state.specs.Teardown.{teardown_presentation, teardown_track};

use crate::context::{Context, has_track, is_other, streams_of};
use crate::fault::{Fault, must};
use crate::plan::Plan;
use crate::request::Target;
use crate::status::Status;
use crate::step_plan::{Details, StepPlan};
use rtsp_book::{SessionView, Step};
use std::alloc::Global;

fn teardown_presentation(
    context: &Context<'_>,
    view: &SessionView,
    presentation: u16,
) -> Result<Plan, Fault>
    ensures value { Gives result (teardown_presentation (context_value context.now) view.now presentation) }
    ensures conducted { IfOk result IsConducted }
{
    must(!is_other(presentation, view), Status::SessionNotFound)?;
    Ok(Plan::Step(StepPlan {
        start: context.start,
        done: context.start.without_session(),
        step: Step::End {
            session: view.session(),
        },
        details: Details::Nothing,
    }))
}

fn teardown_track(
    alloc: Global,
    context: &Context<'_>,
    view: &SessionView,
    presentation: u16,
    track: u16,
) -> Result<Plan, Fault>
    ensures value { Gives result (teardown_track (context_value context.now) view.now presentation track) }
    ensures conducted { IfOk result IsConducted }
{
    must(!is_other(presentation, view), Status::SessionNotFound)?;
    let streams = streams_of(alloc, view)?;
    must(has_track(track, &streams), Status::MethodNotValid)?;
    let only = streams.len() <= 1;
    let ready = view.phase().is_ready();
    must(ready || only, Status::MethodNotValid)?;
    let done = if only {
        context.start.without_session()
    } else {
        context.start
    };
    Ok(Plan::Step(StepPlan {
        start: context.start,
        done,
        step: Step::DropTrack {
            session: view.session(),
            track,
        },
        details: Details::Nothing,
    }))
}

/// TEARDOWN of a session's presentation, or of its only track, ends the session; that of one of
/// several tracks takes that track down, where the session is Ready. It is refused where no living
/// session is named.
#[inline(never)]
pub fn teardown(
    alloc: Global,
    context: &Context<'_>,
    view: Option<&SessionView>,
    target: &Target<'_>,
) -> Result<Plan, Fault>
    ensures value { Gives result (row (context_value context.now) methods.Teardown (option_map (λ v. v.now) view.entry) None target.now) }
    ensures conducted { IfOk result IsConducted }
{
    let Some(view) = view else {
        return Err(Fault::Refused(Status::SessionNotFound));
    };
    match target {
        Target::Presentation(_, presentation) => {
            teardown_presentation(context, view, *presentation)
        }
        Target::Track(_, presentation, track) => {
            teardown_track(alloc, context, view, *presentation, *track)
        }
        Target::Server | Target::Star => Err(Fault::Refused(Status::BadRequest)),
    }
}
