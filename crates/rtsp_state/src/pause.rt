//! PAUSE (RFC 7826 section 13.6).

ghost use Rattle.std.specs.Prelude.{IfOk, option_map, None};
ghost use Rattle.rtsp_state.specs.Fault.{Gives};
ghost use Rattle.rtsp_state.specs.Conduct.{IsConducted};
ghost use Rattle.rtsp_state.specs.Context.{context_value};
ghost use Rattle.rtsp_state.specs.declared.method.Method.TheVariants as methods;
ghost use Rattle.rtsp_state.specs.StateTable.{row};
ghost use Rattle.rtsp_state.specs.Pause.{pause_presentation};

use crate::context::{Context, has_streams, is_other, timing_of};
use crate::fault::{Fault, must};
use crate::plan::Plan;
use crate::request::Target;
use crate::status::Status;
use crate::step_plan::{Details, StepPlan};
use rtsp_book::{SessionView, Step};

fn pause_presentation(
    context: &Context<'_>,
    view: &SessionView,
    presentation: u16,
) -> Result<Plan, Fault>
    ensures value { Gives result (pause_presentation (context_value context.now) view.now presentation) }
    ensures conducted { IfOk result IsConducted }
{
    must(!is_other(presentation, view), Status::SessionNotFound)?;
    must(has_streams(view), Status::MethodNotValid)?;
    let Some(presentation) = context.table.presentation(presentation) else {
        return Err(Fault::Refused(Status::NotFound));
    };
    let unit_ms = presentation.unit_ms().ms();
    Ok(Plan::Step(StepPlan {
        start: context.start,
        done: context.start,
        step: Step::Pause {
            session: view.session(),
            unit_ms,
            now: context.moment,
        },
        details: Details::Paused {
            timing: timing_of(presentation),
            at: view.phase().point(unit_ms, context.moment),
        },
    }))
}

/// PAUSE of a session's presentation. The tracks of a session are paused together. It is refused
/// where no living session is named.
#[inline(never)]
pub fn pause(
    context: &Context<'_>,
    view: Option<&SessionView>,
    target: &Target<'_>,
) -> Result<Plan, Fault>
    ensures value { Gives result (row (context_value context.now) methods.Pause (option_map (λ v. v.now) view.entry) None target.now) }
    ensures conducted { IfOk result IsConducted }
{
    let Some(view) = view else {
        return Err(Fault::Refused(Status::SessionNotFound));
    };
    match target {
        Target::Track(..) => Err(Fault::Refused(Status::OnlyAggregateAllowed)),
        Target::Presentation(_, presentation) => pause_presentation(context, view, *presentation),
        Target::Server | Target::Star => Err(Fault::Refused(Status::BadRequest)),
    }
}
