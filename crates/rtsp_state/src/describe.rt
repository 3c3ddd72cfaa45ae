//! DESCRIBE (RFC 7826 section 13.2).

ghost use Rattle.std.specs.Prelude.{IfOk};
ghost use Rattle.rtsp_state.specs.Fault.{Gives};
ghost use Rattle.rtsp_state.specs.Conduct.{IsConducted};
ghost use Rattle.rtsp_state.specs.Context.{context_value};
ghost use Rattle.rtsp_state.specs.Describe.{describe, describe_presentation};

use crate::context::Context;
use crate::fault::Fault;
use crate::media_base::MediaBase;
use crate::plan::Plan;
use crate::reply::Reply;
use crate::request::Target;
use crate::status::Status;
use rtsp_grammar::Text;
use std::alloc::Global;

fn describe_presentation(
    alloc: Global,
    context: &Context<'_>,
    base: &MediaBase<'_>,
    presentation: u16,
) -> Result<Plan, Fault>
    ensures value { Gives result (describe_presentation (context_value context.now) base.now presentation) }
    ensures conducted { IfOk result IsConducted }
{
    let Some(presentation) = context.table.presentation(presentation) else {
        return Err(Fault::Refused(Status::NotFound));
    };
    let base = base.to_text(alloc)?;
    let sdp = Text::from_slice(alloc, presentation.sdp())?;
    Ok(Plan::Answer(Reply::described(context.start, base, sdp)))
}

/// DESCRIBE is answered in each state. A track has no description of its own.
pub fn describe(alloc: Global, context: &Context<'_>, target: &Target<'_>) -> Result<Plan, Fault>
    ensures value { Gives result (describe (context_value context.now) target.now) }
    ensures conducted { IfOk result IsConducted }
{
    match target {
        Target::Presentation(base, presentation) => {
            describe_presentation(alloc, context, base, *presentation)
        }
        Target::Track(..) => Err(Fault::Refused(Status::NotFound)),
        Target::Server | Target::Star => Err(Fault::Refused(Status::BadRequest)),
    }
}
